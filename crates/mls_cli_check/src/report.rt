//! What the checks of a tree bring: a line of each that passed, and the first that failed.

ghost use Rattle.std.specs.Prelude.{◌≡◌, ◌≢◌, ℕ, ◌<◌, ◌≤◌, ◌^◌, length, map, take, Err, IfOk, IsOk};
ghost use Rattle.mls_wire.specs.Whole.{whole};
ghost use Rattle.mls_leaf.specs.Limits.{input_limit};
ghost use Rattle.mls_types.specs.GroupInfo.{ratchet_tree};
ghost use Rattle.mls_tree.specs.Faults.{number_of as tree_number_of};
ghost use Rattle.mls_tree.specs.Tree.{term};
ghost use Rattle.mls_cli_text.specs.Page.{MakesPage, refused};
ghost use Rattle.mls_cli_text.specs.Text.{entries_of, entry_of};
ghost use Rattle.mls_cli_check.specs.Check.{JudgesTree, page_behind, check_text, key_word, signature_word, suite_word, tree_report};
ghost use Rattle.mls_cli_check.specs.CheckFaults.{number_of};
ghost use Rattle.mls_cli_check.specs.RuleLines.{lines_before, rule_entries};
ghost use Rattle.mls_tree.specs.ShortLeaves.{HasShortLeaves};

use crate::check_error::CheckError;
use crate::tree::{tree_in, tree_lines};
use mls_cli_text::{Ending, Field, Line, Page, append_lines, line_of};
use mls_suite::Suite;
use mls_tree::{PublicTree, TreeError};
use std::alloc::{AllocError, Global};

/// The lines, and the refusal behind them; where it is want of memory, that.
pub(crate) fn refuse_behind(lines: Vec<Line>, error: CheckError) -> Result<Page<Line>, AllocError>
    ensures memory { IfOk result (λ page. number_of error ≢ 1) }
    ensures page { MakesPage result (page_behind (entries_of lines) (refused (number_of error))) }
    // Each refusal but `OutOfMemory` (1) gives a page.
    ensures outright { number_of error ≢ 1 → IsOk result }
{
    if error.is_memory() {
        return Err(AllocError);
    }
    Ok(Page {
        lines,
        ending: Ending::Refused(error.number()),
    })
}

/// What is said of a check by the suite's own function that passed, by whether that function passes nothing at all.
fn suite_word(passes_nothing: bool) -> &'static str
    ensures { result.now ≡ suite_word passes_nothing }
{
    if passes_nothing { "not checked" } else { "ok" }
}

/// What is said of signatures: a suite that takes no bytes for a signature of no bytes by an empty key checks none.
pub(crate) fn signature_word<S: Suite>() -> &'static str
    ensures { result.now ≡ signature_word S.crypto }
{
    suite_word(S::verify(&[], &[], &[]))
}

/// What is said of the forms of keys: a suite that an empty key is fit for checks none.
fn key_word<S: Suite>() -> &'static str
    ensures { result.now ≡ key_word S.crypto }
{
    suite_word(S::key_ok(&[]))
}

/// The lines of all checks of a good tree.
#[tactic(auto, unfolding(crate::specs::RuleLines::rule_entries))]
fn all_rule_lines<S: Suite>(alloc: Global) -> Result<Vec<Line>, AllocError>
    ensures { IfOk result (λ lines. map entry_of lines.items ≡ rule_entries S.crypto) }
{
    let signatures = signature_word::<S>();
    let keys = key_word::<S>();
    Ok(vec![in alloc;
        line_of("unmerged", Field::Word("ok")),
        line_of("parent_hashes", Field::Word("ok")),
        line_of("keys", Field::Word("ok")),
        line_of("clients", Field::Word("ok")),
        line_of("signatures", Field::Word(signatures)),
        line_of("capabilities", Field::Word("ok")),
        line_of("key_forms", Field::Word(keys)),
    ]?)
}

/// The lines of the first of the checks of a good tree.
fn rule_lines<S: Suite>(alloc: Global, passed: usize) -> Result<Vec<Line>, AllocError>
    ensures { IfOk result (λ lines. map entry_of lines.items
        ≡ take passed (rule_entries S.crypto)) }
{
    let mut lines = all_rule_lines::<S>(alloc)?;
    lines.truncate(passed);
    Ok(lines)
}

/// How many lines come before the check that failed.
#[tactic(auto, unfolding(crate::specs::RuleLines::lines_before))]
fn lines_before(error: TreeError) -> usize
    ensures { result ≡ lines_before (tree_number_of error) }
{
    match error {
        TreeError::UnmergedWrong => 0,
        TreeError::ParentHashWrong => 1,
        TreeError::KeyRepeated => 2,
        TreeError::ClientRepeated => 3,
        TreeError::LeafSignature => 4,
        TreeError::LeafCapability => 5,
        _ => 6,
    }
}

/// What is printed of a tree.
pub(crate) fn tree_page<S: Suite>(
    alloc: Global,
    tree: &mut PublicTree,
    group_id: &[u8],
) -> Result<Page<Line>, AllocError>
    requires group { length group_id.now < 2 ^ 28 }
    requires short { HasShortLeaves (term tree.old) }
    ensures page { MakesPage result (tree_report S.crypto group_id.now (term tree.old)) }
    ensures same { term tree.new ≡ term tree.old }
{
    let lines = tree_lines(alloc, tree)?;
    match tree.check::<S>(group_id) {
        Ok(()) => {
            let more = all_rule_lines::<S>(alloc)?;
            Ok(Page {
                lines: append_lines(lines, more)?,
                ending: Ending::Good,
            })
        }
        Err(error) => {
            let more = rule_lines::<S>(alloc, lines_before(error))?;
            refuse_behind(append_lines(lines, more)?, CheckError::Tree(error))
        }
    }
}

/// What is printed of the tree that the bytes spell, or of their fault.
#[tactic(auto, unfolding(crate::specs::Check::check_text))]
fn bytes_page<S: Suite>(
    alloc: Global,
    bytes: &[u8],
    group_id: &[u8],
) -> Result<Page<Line>, AllocError>
    requires { length group_id.now ≤ input_limit }
    ensures page { MakesPage result (check_text S.crypto bytes.now group_id.now) }
    // Bytes that spell no nodes are refused also when an allocation fails.
    ensures outright { (n : ℕ) → whole ratchet_tree input_limit bytes.now ≡ Err n → IsOk result }
{
    match tree_in(alloc, bytes) {
        Ok(mut tree) => tree_page::<S>(alloc, &mut tree, group_id),
        Err(error) => refuse_behind(Vec::new(alloc), error),
    }
}

/// The lines of the tree that the bytes spell, for the group with this id: how many leaves and members it has and its
/// tree hash, then a line of each check of a good tree as long as they pass (RFC 9420, 7.3, 7.9.2 and 12.4.3.1), in
/// the order of `PublicTree::check`. The first fault ends them with its refusal: that of decoding (2 to 7, 11 to 14),
/// of the tree's shape (`TreeShape` (20)) and size (`TreeFull` (21)), and then of the checks (`UnmergedWrong` (23),
/// `ParentHashWrong` (24), `KeyRepeated` (25), `ClientRepeated` (26), `LeafSignature` (51), `LeafCapability` (52) and
/// `BadKey` (36)).
pub fn check_text<S: Suite>(
    alloc: Global,
    bytes: &[u8],
    group_id: &[u8],
) -> Result<Page<Line>, AllocError>
    requires { length group_id.now ≤ input_limit }
    ensures page { MakesPage result (check_text S.crypto bytes.now group_id.now) }
    // Bytes that spell no nodes are refused also when an allocation fails.
    ensures outright { (n : ℕ) → whole ratchet_tree input_limit bytes.now ≡ Err n → IsOk result }
    // Nothing is refused exactly when the bytes spell a good tree of the group.
    ensures good { IfOk result (λ page. JudgesTree S.crypto group_id.now bytes.now page) }
{
    bytes_page::<S>(alloc, bytes, group_id)
}
