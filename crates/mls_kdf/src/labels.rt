//! The labelled functions of RFC 9420 (sections 5.2 and 8). A label has at most 200 bytes, and a
//! context or a value less than 2^30.

ghost use Rattle.std.specs.Prelude.{◌≡◌, ◌+◌, ◌<◌, ◌≤◌, ◌^◌, ◌↔◌, length, IsErrOf, OnErr};
ghost use Rattle.mls_kdf.specs.Kdf.{derive_secret, ref_hash, max_output};
ghost use Rattle.mls_kdf.specs.Outputs.{ExpandsWithLabel};

use crate::{HmacKey, KdfError, MAX_OUTPUT, Secret, content_header, hash};

// What stands before each label.
const PREFIX: &[u8] = b"MLS 1.0 ";

impl HmacKey<'_> {
    /// Fills `out` with a key made of this one, under a label and a context (ExpandWithLabel of RFC
    /// 9420, section 8). More than 8,160 bytes are refused with `OutputTooLong`, and `out` is as it was.
    pub fn expand_with_label(
        &self,
        label: &str,
        context: &[u8],
        out: &mut [u8],
    ) -> Result<(), KdfError>
        requires label { length label.now ≤ 200 }
        requires context { length context.now < 2 ^ 30 }
        ensures too_long { IsErrOf result KdfError.OutputTooLong ↔ (max_output < length out.old) }
        ensures ok { ExpandsWithLabel self.now label.now context.now out.old result out.new }
        ensures err { OnErr result (out.new ≡ out.old) }
    {
        if out.len() > MAX_OUTPUT {
            return Err(KdfError::OutputTooLong);
        }
        let length = (out.len() as u16).to_be_bytes();
        let label_header = content_header(PREFIX.len() + label.len());
        let context_header = content_header(context.len());
        let info: [&[u8]; 6] = [
            &length,
            label_header.as_slice(),
            PREFIX,
            label.as_bytes(),
            context_header.as_slice(),
            context,
        ];
        self.expand(&info, out)
    }

    /// A secret made of this key, under a label (DeriveSecret of RFC 9420, section 8).
    #[tactic(auto, unfolding(crate::specs::Kdf::derive_secret))]
    pub fn derive_secret(&self, label: &str) -> Secret
        requires { length label.now ≤ 200 }
        ensures { result ≡ derive_secret self.now label.now }
    {
        let mut out = [0; 32];
        self.expand_with_label(label, &[], &mut out).unwrap();
        out
    }
}

/// Fills `out` with a key made of `secret`, under a label and a context (ExpandWithLabel of RFC
/// 9420, section 8). More than 8,160 bytes are refused with `OutputTooLong`, and `out` is as it was.
pub fn expand_with_label(
    secret: &[u8],
    label: &str,
    context: &[u8],
    out: &mut [u8],
) -> Result<(), KdfError>
    requires label { length label.now ≤ 200 }
    requires context { length context.now < 2 ^ 30 }
    ensures too_long { IsErrOf result KdfError.OutputTooLong ↔ (max_output < length out.old) }
    ensures ok { ExpandsWithLabel secret.now label.now context.now out.old result out.new }
    ensures err { OnErr result (out.new ≡ out.old) }
{
    HmacKey::new(secret).expand_with_label(label, context, out)
}

/// A secret made of `secret`, under a label (DeriveSecret of RFC 9420, section 8).
pub fn derive_secret(secret: &[u8], label: &str) -> Secret
    requires { length label.now ≤ 200 }
    ensures { result ≡ derive_secret secret.now label.now }
{
    HmacKey::new(secret).derive_secret(label)
}

/// The hash of a value under a label (RefHash of RFC 9420, section 5.2); the label is given in full.
pub fn ref_hash(label: &str, value: &[u8]) -> Secret
    requires label { length label.now ≤ 200 }
    requires value { length value.now < 2 ^ 30 }
    ensures { result ≡ ref_hash label.now value.now }
{
    let label_header = content_header(label.len());
    let value_header = content_header(value.len());
    hash(&[
        label_header.as_slice(),
        label.as_bytes(),
        value_header.as_slice(),
        value,
    ])
}
