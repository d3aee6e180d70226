//! The calls of the library.

/// A call.
#[derive(Clone, Copy)]
pub enum Call {
    /// The length of bytes.
    BytesLength,
    /// A candidate of an identity and a seed.
    CandidateNew,
    /// The message of a candidate's KeyPackage.
    CandidateKeyPackage,
    /// The group of a candidate alone.
    MemberCreate,
    /// The member that a Welcome makes of a candidate.
    MemberJoin,
    /// The number of a member's epoch.
    MemberEpoch,
    /// The identifier of a member's group.
    MemberGroupId,
    /// What a message does to a member.
    MemberProcess,
    /// A member's proposal to add a KeyPackage.
    MemberProposeAdd,
    /// A member's proposal of a new key for its leaf.
    MemberProposeUpdate,
    /// A member's commit of what it keeps.
    MemberCommitKept,
    /// A member's proposal to remove a leaf.
    MemberProposeRemove,
    /// A member forgets its pending commit.
    MemberDropPending,
    /// The index of a member's leaf.
    MemberLeafIndex,
    /// The byte at an index.
    BytesAt,
    /// The name of a refusal.
    RefusalName,
    /// The bytes that a candidate is saved as.
    CandidateSave,
    /// The candidate that was saved so.
    CandidateLoad,
    /// The bytes that a member is saved as.
    MemberSave,
    /// The member that was saved so.
    MemberLoad,
    /// A secret that a member exports.
    MemberExport,
    /// The number of leaves of a member's group.
    MemberLeafCount,
    /// The identity and the signature key of the member at a leaf.
    MemberAt,
    /// A member's proposal that the group carry extensions.
    MemberProposeExtensions,
    /// The conversation of a member.
    ConversationNew,
    /// A sealed application message.
    ConversationSeal,
    /// An opened application message.
    ConversationOpen,
    /// A member's commit of a list.
    MemberCommit,
    /// What a message would do to a member, and the member after it.
    MemberInspect,
    /// The reference of a kept proposal, by its message.
    MemberReference,
    /// The extensions that a member's group carries.
    MemberExtensions,
    /// The identity and the signature key in a KeyPackage's message.
    KeyPackageIdentity,
    /// The identity and the signature key of the member at a leaf, in a conversation.
    ConversationMemberAt,
    /// A member forgets a kept proposal.
    MemberForgetProposal,
    /// The message of a member's pending commit.
    MemberPendingCommit,
    /// The group and the epoch that a message says it is of.
    MessagePlace,
    /// The bytes that a conversation is saved as.
    ConversationSave,
    /// A conversation goes on as the one that was saved so.
    ConversationRestore,
    /// The reference at an index of those that a commit names and a member lacks.
    MemberMissingProposal,
}
