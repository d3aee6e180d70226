//! The names of fields, as RFC 9420 has them, and the steps of a path through them.

ghost use Rattle.std.specs.Prelude.{◌≡◌};
ghost use Rattle.mls_cli_place.specs.Text.{group_name, leaf_name, message_name};

/// A field of messages, contents, commits and paths (RFC 9420, 6, 7.6 and 12.4).
#[derive(Clone, Copy, Debug, PartialEq, Eq)]
pub enum MessageField {
    ApplicationData,
    Auth,
    AuthenticatedData,
    Ciphertext,
    Commit,
    ConfirmationTag,
    Content,
    ContentType,
    EncryptedPathSecret,
    Epoch,
    GroupId,
    GroupInfo,
    KemOutput,
    LeafIndex,
    MembershipTag,
    MlsMessage,
    Nodes,
    Path,
    Proposal,
    PublicMessage,
    Reference,
    Sender,
    SenderType,
    Type,
    Welcome,
    WireFormat,
}

/// A field of leaves, key packages and proposals (RFC 9420, 5.3, 7.2, 10 and 12.1).
#[derive(Clone, Copy, Debug, PartialEq, Eq)]
pub enum LeafField {
    Capabilities,
    CipherSuite,
    CipherSuites,
    Credential,
    CredentialType,
    Credentials,
    EncryptionKey,
    Extensions,
    Identity,
    InitKey,
    KeyPackage,
    LeafNode,
    LeafNodeSource,
    Lifetime,
    NotAfter,
    NotBefore,
    ParentHash,
    ProposalType,
    Proposals,
    Removed,
    Signature,
    SignatureKey,
    Version,
    Versions,
}

/// A field of group contexts, group infos, ratchet trees and Welcomes (RFC 9420, 7.1, 8.1 and 12.4.3).
#[derive(Clone, Copy, Debug, PartialEq, Eq)]
pub enum GroupField {
    ConfirmedTranscriptHash,
    EncryptedGroupInfo,
    EncryptedGroupSecrets,
    ExtensionData,
    ExtensionType,
    GroupContext,
    NewMember,
    NodeType,
    ParentNode,
    RatchetTree,
    Secrets,
    Signer,
    TreeHash,
    UnmergedLeaves,
}

/// A step into a structure: a field of it, or an item of a vector, counted from 0 on.
#[derive(Clone, Copy, Debug, PartialEq, Eq)]
pub enum Step {
    Message(MessageField),
    Leaf(LeafField),
    Group(GroupField),
    Item(usize),
}

impl Default for Step {
    fn default() -> Step {
        Step::Item(0)
    }
}

impl MessageField {
    /// The field's name (RFC 9420, 6, 7.6 and 12.4).
    #[tactic(auto, unfolding(crate::specs::Text::message_name))]
    pub fn name(self) -> &'static str
        ensures { result.now ≡ message_name self }
    {
        match self {
            MessageField::ApplicationData => "application_data",
            MessageField::Auth => "auth",
            MessageField::AuthenticatedData => "authenticated_data",
            MessageField::Ciphertext => "ciphertext",
            MessageField::Commit => "commit",
            MessageField::ConfirmationTag => "confirmation_tag",
            MessageField::Content => "content",
            MessageField::ContentType => "content_type",
            MessageField::EncryptedPathSecret => "encrypted_path_secret",
            MessageField::Epoch => "epoch",
            MessageField::GroupId => "group_id",
            MessageField::GroupInfo => "group_info",
            MessageField::KemOutput => "kem_output",
            MessageField::LeafIndex => "leaf_index",
            MessageField::MembershipTag => "membership_tag",
            MessageField::MlsMessage => "MLSMessage",
            MessageField::Nodes => "nodes",
            MessageField::Path => "path",
            MessageField::Proposal => "proposal",
            MessageField::PublicMessage => "public_message",
            MessageField::Reference => "reference",
            MessageField::Sender => "sender",
            MessageField::SenderType => "sender_type",
            MessageField::Type => "type",
            MessageField::Welcome => "welcome",
            MessageField::WireFormat => "wire_format",
        }
    }
}

impl LeafField {
    /// The field's name (RFC 9420, 5.3, 7.2, 10 and 12.1).
    #[tactic(auto, unfolding(crate::specs::Text::leaf_name))]
    pub fn name(self) -> &'static str
        ensures { result.now ≡ leaf_name self }
    {
        match self {
            LeafField::Capabilities => "capabilities",
            LeafField::CipherSuite => "cipher_suite",
            LeafField::CipherSuites => "cipher_suites",
            LeafField::Credential => "credential",
            LeafField::CredentialType => "credential_type",
            LeafField::Credentials => "credentials",
            LeafField::EncryptionKey => "encryption_key",
            LeafField::Extensions => "extensions",
            LeafField::Identity => "identity",
            LeafField::InitKey => "init_key",
            LeafField::KeyPackage => "key_package",
            LeafField::LeafNode => "leaf_node",
            LeafField::LeafNodeSource => "leaf_node_source",
            LeafField::Lifetime => "lifetime",
            LeafField::NotAfter => "not_after",
            LeafField::NotBefore => "not_before",
            LeafField::ParentHash => "parent_hash",
            LeafField::ProposalType => "proposal_type",
            LeafField::Proposals => "proposals",
            LeafField::Removed => "removed",
            LeafField::Signature => "signature",
            LeafField::SignatureKey => "signature_key",
            LeafField::Version => "version",
            LeafField::Versions => "versions",
        }
    }
}

impl GroupField {
    /// The field's name (RFC 9420, 7.1, 8.1 and 12.4.3).
    #[tactic(auto, unfolding(crate::specs::Text::group_name))]
    pub fn name(self) -> &'static str
        ensures { result.now ≡ group_name self }
    {
        match self {
            GroupField::ConfirmedTranscriptHash => "confirmed_transcript_hash",
            GroupField::EncryptedGroupInfo => "encrypted_group_info",
            GroupField::EncryptedGroupSecrets => "encrypted_group_secrets",
            GroupField::ExtensionData => "extension_data",
            GroupField::ExtensionType => "extension_type",
            GroupField::GroupContext => "group_context",
            GroupField::NewMember => "new_member",
            GroupField::NodeType => "node_type",
            GroupField::ParentNode => "parent_node",
            GroupField::RatchetTree => "ratchet_tree",
            GroupField::Secrets => "secrets",
            GroupField::Signer => "signer",
            GroupField::TreeHash => "tree_hash",
            GroupField::UnmergedLeaves => "unmerged_leaves",
        }
    }
}
