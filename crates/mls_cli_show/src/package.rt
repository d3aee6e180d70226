//! The lines of leaves and KeyPackages.

ghost use Rattle.std.specs.Prelude.{◌≡◌, ◌∷◌, [], codes, map, IfOk};
ghost use Rattle.mls_cli_text.specs.Text.{bytes, digits, entries_of, entry, entry_of, prefix_text};
ghost use Rattle.mls_cli_show.specs.Package.{capabilities_entries, key_package_entries, leaf_entries, source_entries};

use mls_cli_text::{Field, Line, Prefix, append_line, append_lines, line_with};
use mls_leaf::{
    Bytes, Capabilities, Credential, KeyPackage, LeafNode, LeafSource, SpelledCapabilities,
};
use std::alloc::{AllocError, Global};

fn identity_lines(
    alloc: Global,
    prefix: Prefix,
    encryption_key: Bytes,
    signature_key: Bytes,
    credential: Credential,
) -> Result<Vec<Line>, AllocError>
    ensures { IfOk result (λ lines. map entry_of lines.items
        ≡ entry (prefix_text prefix) (codes "leaf.encryption_key") (bytes encryption_key)
        ∷ entry (prefix_text prefix) (codes "leaf.signature_key") (bytes signature_key)
        ∷ entry (prefix_text prefix) (codes "leaf.identity") (bytes credential.identity) ∷ []) }
{
    let Credential { identity } = credential;
    Ok(vec![in alloc;
        line_with(prefix, "leaf.encryption_key", Field::Bytes(encryption_key)),
        line_with(prefix, "leaf.signature_key", Field::Bytes(signature_key)),
        line_with(prefix, "leaf.identity", Field::Bytes(identity)),
    ]?)
}

fn capability_lines(
    alloc: Global,
    prefix: Prefix,
    capabilities: SpelledCapabilities,
) -> Result<Vec<Line>, AllocError>
    ensures { IfOk result (λ lines. entries_of lines
        ≡ capabilities_entries (prefix_text prefix) capabilities) }
{
    let lists = capabilities.to_lists(alloc)?;
    let Capabilities {
        versions,
        cipher_suites,
        extensions,
        proposals,
        credentials,
    } = lists;
    Ok(vec![in alloc;
        line_with(prefix, "leaf.versions", Field::Numbers(versions)),
        line_with(prefix, "leaf.cipher_suites", Field::Numbers(cipher_suites)),
        line_with(prefix, "leaf.extensions", Field::Numbers(extensions)),
        line_with(prefix, "leaf.proposals", Field::Numbers(proposals)),
        line_with(prefix, "leaf.credentials", Field::Numbers(credentials)),
    ]?)
}

fn source_lines(alloc: Global, prefix: Prefix, source: LeafSource) -> Result<Vec<Line>, AllocError>
    ensures { IfOk result (λ lines. entries_of lines ≡ source_entries (prefix_text prefix) source) }
{
    match source {
        LeafSource::KeyPackage {
            not_before,
            not_after,
        } => Ok(vec![in alloc;
            line_with(prefix, "leaf.source", Field::Word("key_package")),
            line_with(prefix, "leaf.not_before", Field::Number(not_before)),
            line_with(prefix, "leaf.not_after", Field::Number(not_after)),
        ]?),
        LeafSource::Update => Ok(vec![in alloc;
            line_with(prefix, "leaf.source", Field::Word("update")),
        ]?),
        LeafSource::Commit { parent_hash } => Ok(vec![in alloc;
            line_with(prefix, "leaf.source", Field::Word("commit")),
            line_with(prefix, "leaf.parent_hash", Field::Bytes(parent_hash)),
        ]?),
    }
}

/// The lines of a leaf, each with the prefix.
#[tactic(auto, unfolding(crate::specs::Package::leaf_entries))]
pub fn leaf_lines(alloc: Global, prefix: Prefix, leaf: LeafNode) -> Result<Vec<Line>, AllocError>
    ensures { IfOk result (λ lines. entries_of lines ≡ leaf_entries (prefix_text prefix) leaf) }
{
    let LeafNode {
        encryption_key,
        signature_key,
        credential,
        capabilities,
        source,
        signature,
    } = leaf;
    let lines = identity_lines(alloc, prefix, encryption_key, signature_key, credential)?;
    let lines = append_lines(lines, capability_lines(alloc, prefix, capabilities)?)?;
    let lines = append_lines(lines, source_lines(alloc, prefix, source)?)?;
    append_line(
        lines,
        line_with(prefix, "leaf.signature", Field::Bytes(signature)),
    )
}

fn front_lines(
    alloc: Global,
    prefix: Prefix,
    cipher_suite: u16,
    init_key: Bytes,
) -> Result<Vec<Line>, AllocError>
    ensures { IfOk result (λ lines. map entry_of lines.items
        ≡ entry (prefix_text prefix) (codes "cipher_suite") (digits cipher_suite)
        ∷ entry (prefix_text prefix) (codes "init_key") (bytes init_key) ∷ []) }
{
    Ok(vec![in alloc;
        line_with(prefix, "cipher_suite", Field::Digits(cipher_suite)),
        line_with(prefix, "init_key", Field::Bytes(init_key)),
    ]?)
}

/// The lines of a KeyPackage, each with the prefix.
#[tactic(auto, unfolding(crate::specs::Package::key_package_entries))]
pub fn key_package_lines(
    alloc: Global,
    prefix: Prefix,
    key_package: KeyPackage,
) -> Result<Vec<Line>, AllocError>
    ensures { IfOk result (λ lines. entries_of lines
        ≡ key_package_entries (prefix_text prefix) key_package) }
{
    let KeyPackage {
        cipher_suite,
        init_key,
        leaf_node,
        signature,
    } = key_package;
    let leaf = leaf_lines(alloc, prefix, leaf_node)?;
    let lines = append_lines(front_lines(alloc, prefix, cipher_suite, init_key)?, leaf)?;
    append_line(
        lines,
        line_with(prefix, "signature", Field::Bytes(signature)),
    )
}
