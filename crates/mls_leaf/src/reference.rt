//! The reference of a KeyPackage.

ghost use Rattle.std.specs.Prelude.{◌≡◌, ◌<◌, ◌^◌, length};
ghost use Rattle.mls_leaf.specs.Reference.{key_package_reference};

use mls_kdf::{Secret, ref_hash};

/// The reference of the KeyPackage that these bytes spell, of which there are less than 2^30 (RFC
/// 9420, section 5.2). It takes no memory, and nothing is encoded again.
#[tactic(auto, unfolding(crate::specs::Reference::key_package_reference))]
pub fn key_package_reference(key_package: &[u8]) -> Secret
    requires { length key_package.now < 2 ^ 30 }
    ensures { result ≡ key_package_reference key_package.now }
{
    ref_hash("MLS 1.0 KeyPackage Reference", key_package)
}
