//! Kinds of refusals.

ghost use Rattle.std.specs.Prelude.{◌≡◌};
ghost use Rattle.mls_refusal_kind.specs.RefusalKinds.{kind_of};

/// What a caller may do about a refusal. Each number of a refusal has one kind.
#[derive(Clone, Copy, Debug, PartialEq, Eq)]
pub enum RefusalKind {
    /// A growth was refused (1): call again once there is memory. Nothing has changed.
    OutOfMemory,
    /// The bytes are nothing that the call takes, a message or a saved form (2 to 5, 7, 13, 101): drop them. Of another
    /// kind of message it is 7 or 41: `process` takes handshake messages, `open` application messages.
    Malformed,
    /// An input or what would be made is too long (6).
    TooLong,
    /// The message has what this profile leaves out (11, 12, 14, 74, 76).
    Unsupported,
    /// The message is of another kind (41, 45, 70): hand it to the call that takes it. None takes one with 45.
    WrongMessage,
    /// The message is of another group (42, 111): hand it to the member there.
    OtherGroup,
    /// The message is of another epoch (43, 112): drop an old one, keep a later one until that epoch.
    OtherEpoch,
    /// The KeyPackage, the group of the Welcome, or what was saved is of another suite (55, 71, 100).
    OtherSuite,
    /// The Welcome is for others (72): try it with another candidate.
    NotForMe,
    /// No member is at the leaf (22, 44, 102, 114).
    NotAMember,
    /// The message is one's own, and what it changed was dropped or lost (48): drop it. Where the group follows such a
    /// commit, the member can't: it must be added anew.
    OwnMessage,
    /// A membership tag or a confirmation tag is wrong (46, 65): drop the message.
    BadTag,
    /// A signature doesn't verify (47, 51, 56, 79, 119): drop the message.
    BadSignature,
    /// A secret or a sealed part doesn't open, or keys aren't those that are due (32 to 35, 73, 75, 104, 113, 117): the
    /// member can't follow this message, or what was saved isn't a member's or a candidate's own.
    Unreadable,
    /// The message's key was used, or is too old to be kept (116): drop the message.
    KeyUsed,
    /// The message lies too far ahead of its sender's others (115): open those before it first.
    TooFarAhead,
    /// The sender has no generation left in the epoch (110): go on in the next epoch.
    EpochSpent,
    /// The commit names a proposal that isn't kept (60): process that proposal first. A member that lost its own can't
    /// follow the commit: it must be added anew.
    MissingProposal,
    /// A commit is pending (67): process it, or drop it.
    CommitPending,
    /// The member was removed (40): it follows nothing more.
    Gone,
    /// The group has no room for another leaf or another epoch (21, 66): begin another group.
    GroupFull,
    /// The message, what was saved, or what would be made breaks a rule of the standard (all other numbers).
    Forbidden,
}

/// The kind of a refusal with this number.
pub fn kind_of(number: u8) -> RefusalKind
    ensures { result ≡ kind_of number }
{
    match number {
        // Want of memory: the kind of a refusal with its number, 1.
        1 => RefusalKind::OutOfMemory,
        2 | 3 | 4 | 5 | 7 | 13 | 101 => RefusalKind::Malformed,
        6 => RefusalKind::TooLong,
        11 | 12 | 14 | 74 | 76 => RefusalKind::Unsupported,
        41 | 45 | 70 => RefusalKind::WrongMessage,
        42 | 111 => RefusalKind::OtherGroup,
        43 | 112 => RefusalKind::OtherEpoch,
        55 | 71 | 100 => RefusalKind::OtherSuite,
        72 => RefusalKind::NotForMe,
        22 | 44 | 102 | 114 => RefusalKind::NotAMember,
        48 => RefusalKind::OwnMessage,
        46 | 65 => RefusalKind::BadTag,
        47 | 51 | 56 | 79 | 119 => RefusalKind::BadSignature,
        32 | 33 | 34 | 35 | 73 | 75 | 104 | 113 | 117 => RefusalKind::Unreadable,
        116 => RefusalKind::KeyUsed,
        115 => RefusalKind::TooFarAhead,
        110 => RefusalKind::EpochSpent,
        60 => RefusalKind::MissingProposal,
        67 => RefusalKind::CommitPending,
        40 => RefusalKind::Gone,
        21 | 66 => RefusalKind::GroupFull,
        _ => RefusalKind::Forbidden,
    }
}
