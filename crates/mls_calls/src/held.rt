//! What a handle holds.

use mls::{Bytes, Candidate, Conversation, Member, Suite0001};

/// What a handle holds.
#[derive(Drop)]
pub enum Held {
    /// Nothing: the handle is null.
    Nothing,
    /// Bytes that a call made.
    Bytes(Bytes),
    /// A candidate for membership.
    Candidate(Candidate<Suite0001>),
    /// A member of a group.
    Member(Member<Suite0001>),
    /// The conversation of a member.
    Conversation(Conversation<Suite0001>),
}
