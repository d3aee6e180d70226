//! The transcript hashes (RFC 9420, 8.2).

ghost use Rattle.std.specs.Prelude.{◌≡◌, ◌<◌, ◌^◌, [], length};
ghost use Rattle.mls_schedule.specs.Transcript.{confirmed_hash, interim_hash};

use mls_kdf::{Secret, content_header, hash};
use std::marker::Model;

/// What a group has said up to an epoch, as its interim transcript hash (RFC 9420, 8.2). The confirmed
/// hash stands in the epoch's GroupContext.
#[derive(Clone, Copy, Debug, PartialEq, Eq)]
pub struct Transcript {
    interim: Secret,
}

// A transcript is seen as its interim hash.
impl Model for Transcript {
    ghost use Rattle.std.specs.Prelude.{List, ℕ};

    ghost Value = { List ℕ };

    ghost view = { λ t. t.interim };

    ghost inverse = { λ interim. record { interim = interim } };
}

/// The hash of three pieces and a signature behind its header.
#[tactic(auto, unfolding(crate::specs::Transcript::confirmed_hash, mls_wire::specs::Reading::uint))]
fn hash_signed<'a>(
    interim: &'a Secret,
    wire_format: u16,
    content: &'a [u8],
    signature: &'a [u8],
) -> Secret
    requires { length signature.now < 2 ^ 30 }
    ensures { result ≡ confirmed_hash interim.now wire_format content.now signature.now }
{
    let format = wire_format.to_be_bytes();
    let header = content_header(signature.len());
    hash(&[interim, &format, content, header.as_slice(), signature])
}

impl Transcript {
    /// The transcript of epoch 0, from the confirmation tag over the empty confirmed hash. A tag has
    /// less than 2^30 bytes.
    #[tactic(auto, unfolding(crate::specs::Transcript::interim_hash))]
    pub fn first(tag: &[u8]) -> Transcript
        requires { length tag.now < 2 ^ 30 }
        ensures { result ≡ interim_hash [] tag.now }
    {
        let header = content_header(tag.len());
        Transcript {
            interim: hash(&[header.as_slice(), tag]),
        }
    }

    /// The confirmed hash of a commit sent after this transcript: the hash of the interim hash, the
    /// wire format, the bytes of the FramedContent, and the signature, which has less than 2^30 bytes.
    pub fn confirm(&self, wire_format: u16, content: &[u8], signature: &[u8]) -> Secret
        requires { length signature.now < 2 ^ 30 }
        ensures { result ≡ confirmed_hash self.now wire_format content.now signature.now }
    {
        hash_signed(&self.interim, wire_format, content, signature)
    }

    /// The transcript with this confirmed hash, and the confirmation tag over it. The confirmed hash of
    /// an outside GroupInfo may have any length. A tag has less than 2^30 bytes.
    #[tactic(auto, unfolding(crate::specs::Transcript::interim_hash))]
    pub fn interim(confirmed: &[u8], tag: &[u8]) -> Transcript
        requires { length tag.now < 2 ^ 30 }
        ensures { result ≡ interim_hash confirmed.now tag.now }
    {
        let header = content_header(tag.len());
        Transcript {
            interim: hash(&[confirmed, header.as_slice(), tag]),
        }
    }

    /// The transcript with this interim hash, as one that was kept.
    pub fn from_interim_hash(interim: &Secret) -> Transcript
        ensures { result ≡ interim.now }
    {
        Transcript { interim: *interim }
    }

    /// The interim hash, of 32 bytes.
    pub fn interim_hash(&self) -> &Secret
        ensures { result.now ≡ self.now }
    {
        &self.interim
    }
}
