//! What an application imports: a candidate, a member, a conversation and their calls, the suites, and all that the calls
//! take and answer (RFC 9420). The crates below have the code and its contracts.
#![tactic(auto)]

pub use mls_candidate::{Candidate, CandidateError, CandidateLoadError};
pub use mls_conversation::{
    Conversation, ConversationError, ExchangeError, MessageKind, MessagePlace, Opened,
    message_place,
};
pub use mls_kdf::{Secret, Seed};
pub use mls_leaf::{
    Bytes, Capabilities, Codec, Credential, Extension, GroupExtensions, INPUT_LIMIT, KeyPackage,
    LeafError, LeafNode, LeafSource, Proposal,
};
pub use mls_member::{
    Effect, GroupMember, GroupMembers, Inspection, Item, Joined, KeptCommit, KeptProposal,
    ListedProposal, LoadError, Made, Member, Refusal, RefusalKind, ShortKeyPackage, message_sender,
};
pub use mls_public_group::PublicGroup;
pub use mls_refusal_kind::kind_of;
pub use mls_schedule::{Epoch, ScheduleError};
pub use mls_suite::{Glass, OutOfMemory, Suite};
pub use mls_suite_0001::Suite0001;
pub use mls_tree::PublicTree;
pub use mls_treekem::PrivatePath;
pub use mls_types::{GroupContext, GroupInfo, MlsMessage};
