//! The lines of commits.

ghost use Rattle.std.specs.Prelude.{◌≡◌, ◌∷◌, [], codes, IfOk};
ghost use Rattle.mls_cli_text.specs.Text.{entries_of, entry, prefix_text, shown_by, word};
ghost use Rattle.mls_cli_show.specs.Commit.{commit_entries, listed_item, listed_path_node, path_entries, path_length, proposal_item_entries, shown_count};
ghost use Rattle.mls_cli_show.specs.Numbered.{in_full};

use crate::extensions::extension_lines;
use crate::numbered::{Detail, Listed, list_lines, list_lines_in_full};
use crate::package::{key_package_lines, leaf_lines};
use mls_cli_text::{Field, Line, Prefix, append_lines, line_of, line_with};
use mls_leaf::Proposal;
use mls_types::{Commit, ProposalOrRef, UpdatePath, UpdatePathNode};
use std::alloc::{AllocError, Global};

/// A count, or `none`.
pub fn count_field(count: Option<usize>) -> Field
    ensures { shown_by result ≡ shown_count count }
{
    match count {
        Some(count) => Field::Number(count as u64),
        None => Field::Word("none"),
    }
}

/// Puts the line of an item's kind in front of others.
pub(crate) fn with_kind(
    alloc: Global,
    prefix: Prefix,
    kind: &'static str,
    lines: Vec<Line>,
) -> Result<Vec<Line>, AllocError>
    ensures { IfOk result (λ v. entries_of v
        ≡ entry (prefix_text prefix) (codes "kind") (word kind.entry.now) ∷ entries_of lines) }
{
    let front = vec![in alloc; line_with(prefix, "kind", Field::Word(kind))]?;
    append_lines(front, lines)
}

/// The lines of a proposal in a commit.
fn proposal_item_lines(
    alloc: Global,
    prefix: Prefix,
    proposal: &Proposal,
) -> Result<Vec<Line>, AllocError>
    ensures { IfOk result (λ v. entries_of v
        ≡ proposal_item_entries (prefix_text prefix) proposal.now) }
{
    match proposal {
        Proposal::Add(key_package) => {
            let lines = key_package_lines(alloc, prefix, key_package.clone()?)?;
            with_kind(alloc, prefix, "add", lines)
        }
        Proposal::Update(leaf_node) => {
            let lines = leaf_lines(alloc, prefix, leaf_node.clone()?)?;
            with_kind(alloc, prefix, "update", lines)
        }
        Proposal::Remove(removed) => {
            let removed = Field::Number(u64::from(*removed));
            let lines = vec![in alloc; line_with(prefix, "removed", removed)]?;
            with_kind(alloc, prefix, "remove", lines)
        }
        Proposal::GroupContextExtensions(extensions) => {
            let lines = extension_lines(alloc, prefix, extensions.as_slice())?;
            with_kind(alloc, prefix, "group_context_extensions", lines)
        }
    }
}

impl Listed for ProposalOrRef {
    ghost lines = { listed_item };

    fn item_lines(&self, alloc: Global, number: u64) -> Result<Vec<Line>, AllocError> {
        let prefix = Prefix::of_item("proposal.", number);
        match self {
            ProposalOrRef::Proposal(proposal) => proposal_item_lines(alloc, prefix, proposal),
            ProposalOrRef::Reference(reference) => {
                let reference = Field::Bytes(reference.clone()?);
                let lines = vec![in alloc; line_with(prefix, "reference", reference)]?;
                with_kind(alloc, prefix, "reference", lines)
            }
        }
    }
}

impl Listed for UpdatePathNode {
    ghost lines = { listed_path_node };

    fn item_lines(&self, alloc: Global, number: u64) -> Result<Vec<Line>, AllocError> {
        let prefix = Prefix::of_item("path.", number);
        let key = self.encryption_key.clone()?;
        let ciphertexts = self.ciphertexts.len();
        Ok(vec![in alloc;
            line_with(prefix, "encryption_key", Field::Bytes(key)),
            line_with(prefix, "ciphertexts", Field::Number(ciphertexts as u64)),
        ]?)
    }
}

/// The lines of a path, where there is one.
fn path_lines(alloc: Global, path: Option<UpdatePath>) -> Result<Vec<Line>, AllocError>
    ensures { IfOk result (λ v. entries_of v ≡ path_entries path) }
{
    match path {
        Some(path) => {
            let nodes = list_lines(alloc, path.nodes.as_slice())?;
            let leaf = leaf_lines(alloc, Prefix::of("path."), path.leaf_node)?;
            append_lines(leaf, nodes)
        }
        None => Ok(Vec::new(alloc)),
    }
}

fn path_count(path: &Option<UpdatePath>) -> Option<usize>
    ensures { result ≡ path_length path.now }
{
    match path {
        Some(path) => Some(path.nodes.as_slice().len()),
        None => None,
    }
}

/// The line of how many nodes a path has, and in the full text its lines.
fn path_part(
    alloc: Global,
    detail: Detail,
    path: Option<UpdatePath>,
) -> Result<Vec<Line>, AllocError>
    ensures { IfOk result (λ v. entries_of v
        ≡ entry [] (codes "path_nodes") (shown_count (path_length path))
        ∷ in_full detail (path_entries path)) }
{
    let count = line_of("path_nodes", count_field(path_count(&path)));
    let lines = vec![in alloc; count]?;
    match detail {
        Detail::Brief => Ok(lines),
        Detail::Full => append_lines(lines, path_lines(alloc, path)?),
    }
}

/// The lines of a commit.
#[tactic(auto, unfolding(crate::specs::Commit::commit_entries))]
pub(crate) fn commit_lines(
    alloc: Global,
    detail: Detail,
    commit: Commit,
) -> Result<Vec<Line>, AllocError>
    ensures { IfOk result (λ v. entries_of v ≡ commit_entries detail commit) }
{
    let Commit { proposals, path } = commit;
    let count = Field::Number(proposals.as_slice().len() as u64);
    let lines = vec![in alloc; line_of("proposals", count)]?;
    let items = list_lines_in_full(alloc, detail, proposals.as_slice())?;
    let lines = append_lines(lines, items)?;
    append_lines(lines, path_part(alloc, detail, path)?)
}
