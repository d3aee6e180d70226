//! The signature key of a member, for those who seal application messages in its name.

ghost use Rattle.std.specs.Prelude.{◌≡◌};

use crate::member::Member;
use mls_kdf::Secret;
use mls_suite::Suite;

impl<S: Suite> Member<S> {
    /// The private key of its signatures.
    pub fn signing_key(&self) -> &Secret
        ensures { result.now ≡ self.now.signing }
    {
        &self.signing
    }
}
