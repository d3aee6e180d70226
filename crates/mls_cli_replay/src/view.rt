//! What can be printed of a recording.

/// What is printed of a recording.
#[derive(Clone, Copy, Debug, PartialEq, Eq)]
pub enum ReplayView {
    /// What each action came to, and then each member.
    Replies,
    /// The actions whose texts aren't as expected, and then each member.
    Unmet,
    /// The message of this number, in hex digits.
    Message(usize),
    /// The ratchet tree of the member of this number, in hex digits.
    Tree(usize),
    /// The recording again, with what it came to as what is expected.
    Recording,
}
