//! Laws of signed contents. The function does nothing, and its contract is the laws.

ghost use Rattle.mls_types.specs.SignedLaws.{SignedContentIsSpelled, SignedContentIsRead, SigningLeavesContent};

/// A signed content is spelled, and read, as its FramedContent and the FramedContentAuthData behind it (RFC 9420, 6 and
/// 6.1), and signing a content leaves the content.
pub fn laws_of_signed_contents()
    ensures spelled { SignedContentIsSpelled }
    ensures read { SignedContentIsRead }
    ensures left { SigningLeavesContent }
{}
