//! The lines of Welcomes and GroupInfos.

ghost use Rattle.std.specs.Prelude.{◌≡◌, ◌∷◌, [], codes, map, IfOk};
ghost use Rattle.mls_cli_text.specs.Text.{bytes, digits, entries_of, entry, entry_of, number, prefix_text};
ghost use Rattle.mls_cli_show.specs.Extensions.{extension_entries};
ghost use Rattle.mls_cli_show.specs.Commit.{shown_count};
ghost use Rattle.mls_cli_show.specs.Group.{group_info_entries, listed_node, listed_secrets, member_entry, nodes_entries, parent_entries, tree_nodes, welcome_entries};
ghost use Rattle.mls_cli_show.specs.Numbered.{in_full};

use crate::commit::{count_field, with_kind};
use crate::extensions::extension_lines;
use crate::numbered::{Detail, Listed, list_lines, list_lines_in_full};
use crate::package::leaf_lines;
use mls_cli_text::{Field, Line, Prefix, append_line, append_lines, line_of, line_with};
use mls_leaf::{Bytes, ParentNode};
use mls_tree_slot::{NodeRef, Slot};
use mls_types::{EncryptedGroupSecrets, GroupContext, GroupInfo, RatchetTree, Welcome};
use std::alloc::{AllocError, Global};

fn member_line(alloc: Global, secrets: &EncryptedGroupSecrets) -> Result<Line, AllocError>
    ensures { IfOk result (λ line. entry_of line ≡ member_entry secrets.now) }
{
    let reference = Vec::from_slice(alloc, secrets.new_member.as_slice())?;
    Ok(line_of("new_member", Field::Bytes(Bytes::from_vec(reference))))
}

fn member_lines(alloc: Global, secrets: &[EncryptedGroupSecrets]) -> Result<Vec<Line>, AllocError>
    ensures { IfOk result (λ lines. map entry_of lines.items ≡ map member_entry secrets.now) }
{
    let mut lines = Vec::new(alloc);
    for secret in secrets {
        lines.push(member_line(alloc, secret)?)?;
    }
    Ok(lines)
}

fn front_lines(alloc: Global, cipher_suite: u16, members: usize) -> Result<Vec<Line>, AllocError>
    ensures { IfOk result (λ lines. map entry_of lines.items
        ≡ entry [] (codes "cipher_suite") (digits cipher_suite)
        ∷ entry [] (codes "new_members") (number members) ∷ []) }
{
    Ok(vec![in alloc;
        line_of("cipher_suite", Field::Digits(cipher_suite)),
        line_of("new_members", Field::Number(members as u64)),
    ]?)
}

impl Listed for EncryptedGroupSecrets {
    ghost lines = { listed_secrets };

    fn item_lines(&self, alloc: Global, number: u64) -> Result<Vec<Line>, AllocError> {
        let prefix = Prefix::of_item("new_member.", number);
        let kem_output = self.encrypted_group_secrets.kem_output.clone()?;
        let ciphertext = self.encrypted_group_secrets.ciphertext.clone()?;
        Ok(vec![in alloc;
            line_with(prefix, "kem_output", Field::Bytes(kem_output)),
            line_with(prefix, "ciphertext", Field::Bytes(ciphertext)),
        ]?)
    }
}

/// The lines of a Welcome, from its suite on.
#[tactic(auto, unfolding(crate::specs::Group::welcome_entries))]
pub fn welcome_lines(
    alloc: Global,
    detail: Detail,
    welcome: &Welcome,
) -> Result<Vec<Line>, AllocError>
    ensures { IfOk result (λ lines. map entry_of lines.items ≡ welcome_entries detail welcome.now) }
{
    let secrets = welcome.secrets.as_slice();
    let sealed = welcome.encrypted_group_info.as_slice().len();
    let more = list_lines_in_full(alloc, detail, secrets)?;
    let more = append_line(
        more,
        line_of("group_info_bytes", Field::Number(sealed as u64)),
    )?;
    let lines = front_lines(alloc, welcome.cipher_suite, secrets.len())?;
    let lines = append_lines(lines, member_lines(alloc, secrets)?)?;
    append_lines(lines, more)
}

fn epoch_lines(
    alloc: Global,
    cipher_suite: u16,
    group_id: Bytes,
    epoch: u64,
    tree_hash: Bytes,
    confirmed_transcript_hash: Bytes,
) -> Result<Vec<Line>, AllocError>
    ensures { IfOk result (λ lines. map entry_of lines.items
        ≡ entry [] (codes "cipher_suite") (digits cipher_suite)
        ∷ entry [] (codes "group_id") (bytes group_id)
        ∷ entry [] (codes "epoch") (number epoch)
        ∷ entry [] (codes "tree_hash") (bytes tree_hash)
        ∷ entry [] (codes "confirmed_transcript_hash") (bytes confirmed_transcript_hash) ∷ []) }
{
    Ok(vec![in alloc;
        line_of("cipher_suite", Field::Digits(cipher_suite)),
        line_of("group_id", Field::Bytes(group_id)),
        line_of("epoch", Field::Number(epoch)),
        line_of("tree_hash", Field::Bytes(tree_hash)),
        line_of(
            "confirmed_transcript_hash",
            Field::Bytes(confirmed_transcript_hash)
        ),
    ]?)
}

fn context_lines(alloc: Global, context: GroupContext) -> Result<Vec<Line>, AllocError>
    ensures { IfOk result (λ lines. map entry_of lines.items
        ≡ entry [] (codes "cipher_suite") (digits context.cipher_suite)
        ∷ entry [] (codes "group_id") (bytes context.group_id)
        ∷ entry [] (codes "epoch") (number context.epoch)
        ∷ entry [] (codes "tree_hash") (bytes context.tree_hash)
        ∷ entry [] (codes "confirmed_transcript_hash") (bytes context.confirmed_transcript_hash)
        ∷ extension_entries [] context.extensions) }
{
    let GroupContext {
        cipher_suite,
        group_id,
        epoch,
        tree_hash,
        confirmed_transcript_hash: confirmed,
        extensions,
    } = context;
    let more = extension_lines(alloc, Prefix::of(""), extensions.as_slice())?;
    let lines = epoch_lines(alloc, cipher_suite, group_id, epoch, tree_hash, confirmed)?;
    append_lines(lines, more)
}

fn tree_count(tree: &Option<RatchetTree>) -> Option<usize>
    ensures { result ≡ tree_nodes tree.now }
{
    match tree {
        Some(tree) => Some(tree.as_slice().len()),
        None => None,
    }
}

/// The lines of a parent.
fn parent_lines(alloc: Global, prefix: Prefix, parent: &ParentNode) -> Result<Vec<Line>, AllocError>
    ensures { IfOk result (λ v. entries_of v ≡ parent_entries (prefix_text prefix) parent.now) }
{
    let key = Bytes::from_slice(alloc, parent.encryption_key())?;
    let hash = Bytes::from_slice(alloc, parent.parent_hash())?;
    let unmerged = Vec::from_slice(alloc, parent.unmerged_leaves())?;
    Ok(vec![in alloc;
        line_with(prefix, "encryption_key", Field::Bytes(key)),
        line_with(prefix, "parent_hash", Field::Bytes(hash)),
        line_with(prefix, "unmerged_leaves", Field::Indexes(unmerged)),
    ]?)
}

impl Listed for Slot {
    ghost lines = { listed_node };

    #[tactic(auto, unfolding(crate::specs::Group::node_entries))]
    fn item_lines(&self, alloc: Global, number: u64) -> Result<Vec<Line>, AllocError> {
        let prefix = Prefix::of_item("node.", number);
        match self.node() {
            Some(NodeRef::Leaf(leaf)) => {
                let lines = leaf_lines(alloc, prefix, leaf.clone()?)?;
                with_kind(alloc, prefix, "leaf", lines)
            }
            Some(NodeRef::Parent(parent)) => {
                let lines = parent_lines(alloc, prefix, parent)?;
                with_kind(alloc, prefix, "parent", lines)
            }
            None => with_kind(alloc, prefix, "blank", Vec::new(alloc)),
        }
    }
}

/// The lines of a tree's nodes in the full text, and no line in the brief one.
fn nodes_lines(
    alloc: Global,
    detail: Detail,
    tree: &Option<RatchetTree>,
) -> Result<Vec<Line>, AllocError>
    ensures { IfOk result (λ v. entries_of v ≡ in_full detail (nodes_entries tree.now)) }
{
    match detail {
        Detail::Brief => Ok(Vec::new(alloc)),
        Detail::Full => match tree {
            Some(tree) => list_lines(alloc, tree.as_slice()),
            None => Ok(Vec::new(alloc)),
        },
    }
}

fn count_lines(alloc: Global, nodes: Option<usize>) -> Result<Vec<Line>, AllocError>
    ensures { IfOk result (λ v. entries_of v
        ≡ entry [] (codes "tree_nodes") (shown_count nodes) ∷ []) }
{
    Ok(vec![in alloc; line_of("tree_nodes", count_field(nodes))]?)
}

fn signer_lines(
    alloc: Global,
    confirmation_tag: Bytes,
    signer: u32,
    signature: Bytes,
) -> Result<Vec<Line>, AllocError>
    ensures { IfOk result (λ lines. map entry_of lines.items
        ≡ entry [] (codes "confirmation_tag") (bytes confirmation_tag)
        ∷ entry [] (codes "signer") (number signer)
        ∷ entry [] (codes "signature") (bytes signature) ∷ []) }
{
    Ok(vec![in alloc;
        line_of("confirmation_tag", Field::Bytes(confirmation_tag)),
        line_of("signer", Field::Number(u64::from(signer))),
        line_of("signature", Field::Bytes(signature)),
    ]?)
}

/// The lines of a GroupInfo, from its suite on.
#[tactic(auto, unfolding(crate::specs::Group::group_info_entries))]
pub fn group_info_lines(
    alloc: Global,
    detail: Detail,
    info: GroupInfo,
) -> Result<Vec<Line>, AllocError>
    ensures { IfOk result (λ lines. map entry_of lines.items ≡ group_info_entries detail info) }
{
    let GroupInfo {
        group_context,
        ratchet_tree,
        confirmation_tag,
        signer,
        signature,
    } = info;
    let nodes = nodes_lines(alloc, detail, &ratchet_tree)?;
    let rest = append_lines(
        nodes,
        signer_lines(alloc, confirmation_tag, signer, signature)?,
    )?;
    let rest = append_lines(count_lines(alloc, tree_count(&ratchet_tree))?, rest)?;
    append_lines(context_lines(alloc, group_context)?, rest)
}
