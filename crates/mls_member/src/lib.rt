//! Members of groups: what they make, and what they do with messages (RFC 9420, 11 and 12).
#![tactic(auto)]

mod commit;
mod commit_items;
mod commit_kept;
mod copy;
mod create;
mod early_checks;
mod error;
mod framing;
mod group_members;
mod inspect;
mod join;
mod kept_and_pending;
mod kept_proposals;
mod listed_proposal;
mod load;
mod member;
mod message_list;
mod own_proposal;
mod process;
mod received_commit;
mod received_message;
mod received_proposal;
mod save;
mod sent_proposal;
mod short_package;
mod signing_key;
mod speaker;
mod used_proposals;

pub use commit::Made;
pub use commit_kept::KeptCommit;
pub use error::Refusal;
pub use group_members::{GroupMember, GroupMembers};
pub use inspect::{Inspection, message_sender};
pub use join::Joined;
pub use kept_and_pending::KeptProposal;
pub use listed_proposal::ListedProposal;
pub use member::Member;
pub use mls_candidate::Candidate;
pub use mls_model::{Effect, Item};
pub use mls_refusal_kind::RefusalKind;
pub use mls_saved_state::LoadError;
pub use short_package::ShortKeyPackage;
