//! The reference of a proposal.

ghost use Rattle.std.specs.Prelude.{◌≡◌, ◌<◌, ◌^◌, length};
ghost use Rattle.mls_types.specs.Reference.{proposal_reference};

use mls_kdf::{Secret, ref_hash};

/// The reference of the proposal whose AuthenticatedContent these bytes spell, of which there are less
/// than 2^30 (RFC 9420, section 5.2). It takes no memory, and nothing is encoded again.
#[tactic(auto, unfolding(crate::specs::Reference::proposal_reference))]
pub fn proposal_reference(authenticated_content: &[u8]) -> Secret
    requires { length authenticated_content.now < 2 ^ 30 }
    ensures { result ≡ proposal_reference authenticated_content.now }
{
    ref_hash("MLS 1.0 Proposal Reference", authenticated_content)
}
