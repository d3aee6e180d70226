//! GroupInfos with their trees (RFC 9420, 12.4.3), as an auditor of a group has them.

ghost use Rattle.std.specs.Prelude.{◌≡◌, ◌<◌, ◌^◌, ℕ, length, IfOk, IsOk, Err};
ghost use Rattle.std.specs.Str.{bytes_eq};
ghost use Rattle.mls_wire.specs.Checks.{Answers, passed};
ghost use Rattle.mls_wire.specs.Whole.{whole};
ghost use Rattle.mls_leaf.specs.Limits.{input_limit};
ghost use Rattle.mls_types.specs.GroupInfo.{group_info, group_info_tbs, ratchet_tree};
ghost use Rattle.mls_types.specs.Message.{mls_message};
ghost use Rattle.mls_checks.specs.Short.{IsShort};
ghost use Rattle.mls_tree_model.specs.Arrays.{from_nodes};
ghost use Rattle.mls_tree_model.specs.Hashes.{tree_hash};
ghost use Rattle.mls_tree.specs.ShortLeaves.{HasShortLeaves};
ghost use Rattle.mls_tree.specs.Tree.{max_leaves, term};
ghost use Rattle.mls_cli_text.specs.Page.{MakesPage, page_of};
ghost use Rattle.mls_cli_text.specs.Text.{entries_of, entry_of};
ghost use Rattle.mls_cli_check.specs.Check.{page_behind};
ghost use Rattle.mls_cli_check.specs.CheckFaults.{number_of, RefusesMessage};
ghost use Rattle.mls_cli_check.specs.GroupInfo.{group_info_in, group_info_of, group_info_text, info_checks, info_report, page_then, sent_tree, signer_checks, signer_report, suite_among, suite_or_refusal, tree_or_refusal};

use crate::check_error::CheckError;
use crate::report::{refuse_behind, signature_word, tree_page};
use mls_cli_text::{Ending, Field, Line, Page, append_line, line_of};
use mls_leaf::{Codec, bytes_or_out_of_memory};
use mls_suite::{Suite, verify_with_label};
use mls_tree::PublicTree;
use mls_types::{GroupInfo, MlsMessage, RatchetTree};
use std::alloc::{AllocError, Global};

/// The GroupInfo that a message is, or `WrongMessageKind` (95).
fn group_info_of(message: MlsMessage) -> Result<GroupInfo, CheckError>
    ensures { Answers (λ info. info) number_of (group_info_of message) result }
{
    match message {
        MlsMessage::GroupInfo(info) => Ok(info),
        MlsMessage::PublicMessage(_) | MlsMessage::Welcome(_) | MlsMessage::KeyPackage(_) => {
            Err(CheckError::WrongMessageKind)
        }
    }
}

/// Reads the GroupInfo that the bytes spell: refused with the fault of decoding (2 to 7, 11 to 14), and else with
/// `WrongMessageKind` (95).
pub(crate) fn group_info_in(alloc: Global, bytes: &[u8]) -> Result<GroupInfo, CheckError>
    ensures info { Answers (λ info. info) number_of (group_info_in bytes.now) result }
    // Bytes that spell no message are refused also when an allocation fails.
    ensures outright { RefusesMessage bytes.now result }
    ensures short { IfOk result (λ info. IsShort group_info info) }
{
    let message = MlsMessage::decode(alloc, bytes)?;
    group_info_of(message)
}

/// The tree of nodes that were sent, which shares them: `TreeShape` (20), `TreeFull` (21).
fn tree_of(nodes: &RatchetTree) -> Result<PublicTree, CheckError>
    requires { IsShort ratchet_tree nodes.now }
    ensures tree { Answers term number_of (from_nodes max_leaves nodes.now) result }
    ensures short { IfOk result (λ tree. HasShortLeaves (term tree)) }
{
    let shared = nodes.clone()?;
    let tree = PublicTree::from_nodes(shared.into_vec())?;
    Ok(tree)
}

/// The tree of a GroupInfo: `NoTree` (76), `TreeShape` (20), `TreeFull` (21).
#[tactic(auto, unfolding(crate::specs::GroupInfo::sent_tree))]
pub(crate) fn sent_tree(info: &GroupInfo) -> Result<PublicTree, CheckError>
    requires { IsShort group_info info.now }
    ensures tree { Answers term number_of (sent_tree info.now) result }
    ensures short { IfOk result (λ tree. HasShortLeaves (term tree)) }
{
    match &info.ratchet_tree {
        Some(nodes) => tree_of(nodes),
        None => Err(CheckError::NoTree),
    }
}

/// What the signer of a GroupInfo signs.
fn signed_bytes(alloc: Global, info: &GroupInfo) -> Result<Vec<u8>, AllocError>
    requires { IsShort group_info info.now }
    ensures bytes { IfOk result (λ v. v.items ≡ group_info_tbs info.now) }
    ensures short { IfOk result (λ v. length v.items < 2 ^ 30) }
{
    bytes_or_out_of_memory(info.to_be_signed(alloc))
}

/// Checks the signer of a GroupInfo: `SignerWrong` (78), `GroupInfoSignature` (79).
#[tactic(auto, unfolding(crate::specs::GroupInfo::signer_checks))]
fn check_signer<S: Suite>(
    alloc: Global,
    info: &GroupInfo,
    tree: &PublicTree,
) -> Result<(), CheckError>
    requires { IsShort group_info info.now }
    ensures { Answers (λ _. passed) number_of
        (signer_checks S.crypto info.now (term tree.now)) result }
{
    let Some(signer) = tree.leaf(info.signer) else {
        return Err(CheckError::SignerWrong);
    };
    let bytes = signed_bytes(alloc, info)?;
    let key = signer.signature_key.as_slice();
    let signature = info.signature.as_slice();
    if !verify_with_label::<S>(alloc, key, "GroupInfoTBS", &bytes, signature)? {
        return Err(CheckError::GroupInfoSignature);
    }
    Ok(())
}

/// The lines, behind them that of a GroupInfo's signer, or its refusal.
fn with_signer<S: Suite>(
    alloc: Global,
    lines: Vec<Line>,
    info: &GroupInfo,
    tree: &PublicTree,
) -> Result<Page<Line>, AllocError>
    requires { IsShort group_info info.now }
    ensures { MakesPage result (page_behind (entries_of lines)
        (signer_report S.crypto (signer_checks S.crypto info.now (term tree.now)))) }
{
    match check_signer::<S>(alloc, info, tree) {
        Ok(()) => {
            let said = Field::Word(signature_word::<S>());
            Ok(Page {
                lines: append_line(lines, line_of("group_info signature", said))?,
                ending: Ending::Good,
            })
        }
        Err(error) => refuse_behind(lines, error),
    }
}

/// Whether the tree hash of a GroupInfo's context is that of the tree.
fn has_tree_hash(info: &GroupInfo, tree: &mut PublicTree) -> bool
    ensures value { result
        ≡ bytes_eq info.now.group_context.tree_hash (tree_hash 0 (term tree.old)) }
    ensures same { term tree.new ≡ term tree.old }
{
    let hash = tree.tree_hash();
    info.group_context.tree_hash.as_slice() == hash.as_slice()
}

/// The lines, and behind them those of a GroupInfo's own checks: `TreeHashWrong` (77), then its signer's.
fn with_info_checks<S: Suite>(
    alloc: Global,
    lines: Vec<Line>,
    info: &GroupInfo,
    tree: &mut PublicTree,
) -> Result<Page<Line>, AllocError>
    requires { IsShort group_info info.now }
    ensures { MakesPage result (page_behind (entries_of lines)
        (info_checks S.crypto info.now (term tree.old))) }
{
    if !has_tree_hash(info, tree) {
        return refuse_behind(lines, CheckError::TreeHashWrong);
    }
    let lines = append_line(lines, line_of("tree_hash matches", Field::Word("ok")))?;
    with_signer::<S>(alloc, lines, info, tree)
}

/// A page, and behind it the lines of a GroupInfo's own checks where it ends good.
fn with_info_if_good<S: Suite>(
    alloc: Global,
    page: Page<Line>,
    info: &GroupInfo,
    tree: &mut PublicTree,
) -> Result<Page<Line>, AllocError>
    requires { IsShort group_info info.now }
    ensures { MakesPage result (page_then (page_of entry_of page)
        (info_checks S.crypto info.now (term tree.old))) }
{
    match page.ending {
        Ending::Good => {
            let Page { lines, ending: _ } = page;
            with_info_checks::<S>(alloc, lines, info, tree)
        }
        Ending::Failed => Ok(page),
        Ending::Refused(_) => Ok(page),
    }
}

/// What is printed of a GroupInfo's tree and then of itself.
fn tree_and_info_page<S: Suite>(
    alloc: Global,
    info: &GroupInfo,
    tree: &mut PublicTree,
) -> Result<Page<Line>, AllocError>
    requires info { IsShort group_info info.now }
    requires tree { HasShortLeaves (term tree.old) }
    ensures { MakesPage result (info_report S.crypto info.now (term tree.old)) }
{
    let group_id = info.group_context.group_id.as_slice();
    let page = tree_page::<S>(alloc, tree, group_id)?;
    with_info_if_good::<S>(alloc, page, info, tree)
}

/// What is printed of a GroupInfo under its suite.
fn info_page<S: Suite>(alloc: Global, info: &GroupInfo) -> Result<Page<Line>, AllocError>
    requires { IsShort group_info info.now }
    ensures { MakesPage result (tree_or_refusal S.crypto info.now (sent_tree info.now)) }
{
    match sent_tree(info) {
        Ok(mut tree) => tree_and_info_page::<S>(alloc, info, &mut tree),
        Err(error) => refuse_behind(Vec::new(alloc), error),
    }
}

/// What is printed of a GroupInfo under the one of two suites that it names, else `WrongSuite` (71).
#[tactic(auto, unfolding(crate::specs::GroupInfo::suite_among))]
fn page_of_info<S: Suite, T: Suite>(
    alloc: Global,
    info: &GroupInfo,
) -> Result<Page<Line>, AllocError>
    requires { IsShort group_info info.now }
    ensures { MakesPage result
        (suite_or_refusal info.now (suite_among S.crypto T.crypto info.now)) }
{
    let suite = info.group_context.cipher_suite;
    if suite == S::NUMBER {
        info_page::<S>(alloc, info)
    } else if suite == T::NUMBER {
        info_page::<T>(alloc, info)
    } else {
        refuse_behind(Vec::new(alloc), CheckError::WrongSuite)
    }
}

/// The lines of the GroupInfo that the bytes spell, under the one of two suites that its context names: those of its
/// tree for the context's group, as `check_text` has them, then that its tree hash is the tree's (RFC 9420, 8.1), and
/// its signature (RFC 9420, 12.4.3). The first fault ends them with its refusal: that of decoding (2 to 7, 11 to 14),
/// `WrongMessageKind` (95), `WrongSuite` (71), `NoTree` (76), those of the tree, `TreeHashWrong` (77), `SignerWrong`
/// (78) and `GroupInfoSignature` (79).
#[tactic(auto, unfolding(crate::specs::GroupInfo::group_info_text))]
pub fn group_info_text<S: Suite, T: Suite>(
    alloc: Global,
    bytes: &[u8],
) -> Result<Page<Line>, AllocError>
    ensures page { MakesPage result (group_info_text S.crypto T.crypto bytes.now) }
    // Bytes that spell no message are refused also when an allocation fails.
    ensures outright { (n : ℕ) → whole mls_message input_limit bytes.now ≡ Err n → IsOk result }
{
    match group_info_in(alloc, bytes) {
        Ok(info) => page_of_info::<S, T>(alloc, &info),
        Err(error) => refuse_behind(Vec::new(alloc), error),
    }
}
