//! Application messages of a member (RFC 9420, 6.3 and 9): the conversation of one epoch.
//!
//! An application makes a [`Conversation`] of its member in each epoch, keeps it as long as it wants to read messages of
//! that epoch, and drops it. The member isn't changed by it.
#![tactic(auto)]

mod conversation;
mod error;
mod laws;

pub use conversation::Conversation;
pub use error::ConversationError;
pub use laws::{
    arrives_once_at_members, conversations_share, fresh_keys, members_share_epochs,
    messages_arrive, saved_conversations_go_on, sealed_arrives_at_members,
};
pub use mls_exchange::{ExchangeError, MessageKind, MessagePlace, Opened, message_place};
