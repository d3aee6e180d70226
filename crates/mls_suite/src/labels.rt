//! The labelled calls (RFC 9420, 5.1.2 and 5.1.3): what is signed, or the info of what is sealed, is
//! the label and the content, each behind its header. A label has at most 200 bytes, and a content
//! or a context less than 2^30.

ghost use Rattle.std.specs.Prelude.{◌≡◌, ◌+◌, ◌<◌, ◌≤◌, ◌^◌, length, IfOk};
ghost use Rattle.mls_suite.specs.Labels.{content_with_label, sign_with_label};
ghost use Rattle.mls_suite.specs.LabelCalls.{VerifiesWithLabel, EncryptsWithLabel, DecryptsWithLabel};
ghost use Rattle.mls_suite.specs.LabelLaws.{VerifiesSigned, OpensSealed, SealsWhereFit, SignsShort};

use crate::{OutOfMemory, Sealed, Suite};
use mls_kdf::content_header;
use std::alloc::Global;

// What stands before each label.
const PREFIX: &[u8] = b"MLS 1.0 ";

/// What is signed, or the info of what is sealed, under a label (RFC 9420, 5.1.2 and 5.1.3): the label and the content,
/// each behind its header, in one allocation. The headers have at most four bytes each.
pub fn content_with_label(
    alloc: Global,
    label: &str,
    content: &[u8],
) -> Result<Vec<u8>, OutOfMemory>
    requires label { length label.now ≤ 200 }
    requires content { length content.now < 2 ^ 30 }
    ensures { IfOk result (λ v. v.items ≡ content_with_label label.now content.now) }
{
    let label_header = content_header(PREFIX.len() + label.len());
    let content_header = content_header(content.len());
    let mut bytes = Vec::with_capacity(alloc, 8 + PREFIX.len() + label.len() + content.len())?;
    bytes.extend_from_slice(label_header.as_slice())?;
    bytes.extend_from_slice(PREFIX)?;
    bytes.extend_from_slice(label.as_bytes())?;
    bytes.extend_from_slice(content_header.as_slice())?;
    bytes.extend_from_slice(content)?;
    Ok(bytes)
}

/// A signature of a content under a label (SignWithLabel of RFC 9420, 5.1.2).
#[tactic(auto, unfolding(crate::specs::Labels::sign_with_label))]
pub fn sign_with_label<S: Suite>(
    alloc: Global,
    sk: &[u8; 32],
    label: &str,
    content: &[u8],
) -> Result<Vec<u8>, OutOfMemory>
    requires label { length label.now ≤ 200 }
    requires content { length content.now < 2 ^ 30 }
    ensures { IfOk result (λ s. s.items ≡ sign_with_label S.crypto sk.now label.now content.now) }
{
    let bytes = content_with_label(alloc, label, content)?;
    S::sign(alloc, sk, &bytes)
}

/// Whether `signature` is one of the content under the label (VerifyWithLabel of RFC 9420, 5.1.2).
#[tactic(auto, unfolding(crate::specs::Labels::verify_with_label))]
pub fn verify_with_label<S: Suite>(
    alloc: Global,
    pk: &[u8],
    label: &str,
    content: &[u8],
    signature: &[u8],
) -> Result<bool, OutOfMemory>
    requires label { length label.now ≤ 200 }
    requires content { length content.now < 2 ^ 30 }
    ensures { VerifiesWithLabel S.crypto pk.now label.now content.now signature.now result }
{
    let bytes = content_with_label(alloc, label, content)?;
    Ok(S::verify(pk, &bytes, signature))
}

/// Seals `pt` to a public key, under a label and a context (EncryptWithLabel of RFC 9420, 5.1.3);
/// None where the key is not fit.
#[tactic(auto, unfolding(crate::specs::Labels::encrypt_with_label))]
pub fn encrypt_with_label<S: Suite>(
    alloc: Global,
    pk: &[u8],
    label: &str,
    context: &[u8],
    pt: &[u8],
    rnd: &[u8; 32],
) -> Result<Option<Sealed>, OutOfMemory>
    requires label { length label.now ≤ 200 }
    requires context { length context.now < 2 ^ 30 }
    ensures { EncryptsWithLabel S.crypto pk.now label.now context.now pt.now rnd.now result }
{
    let info = content_with_label(alloc, label, context)?;
    S::seal(alloc, pk, &info, pt, rnd)
}

/// Opens what was sealed under a label and a context (DecryptWithLabel of RFC 9420, 5.1.3); None
/// where it does not open.
#[tactic(auto, unfolding(crate::specs::Labels::decrypt_with_label))]
pub fn decrypt_with_label<S: Suite>(
    alloc: Global,
    sk: &[u8; 32],
    label: &str,
    context: &[u8],
    kem: &[u8],
    ct: &[u8],
) -> Result<Option<Vec<u8>>, OutOfMemory>
    requires label { length label.now ≤ 200 }
    requires context { length context.now < 2 ^ 30 }
    ensures { DecryptsWithLabel S.crypto sk.now label.now context.now kem.now ct.now result }
{
    let info = content_with_label(alloc, label, context)?;
    S::unseal(alloc, sk, kem, &info, ct)
}

/// A law: what was signed under a label verifies under it, by the public key of the signature key.
pub fn verified_as_signed<S: Suite>()
    ensures { VerifiesSigned S.crypto }
{}

/// A law: what was sealed under a label and a context, to the public key of a private key, is
/// opened under them by the private key.
pub fn opened_as_sealed<S: Suite>()
    ensures { OpensSealed S.crypto }
{}

/// A law: a key takes a sealing under a label exactly where it is fit, as each public key is.
pub fn sealed_where_fit<S: Suite>()
    ensures { SealsWhereFit S.crypto }
{}

/// A law: a signature under a label has at most 65,535 bytes.
pub fn signature_is_short<S: Suite>()
    ensures { SignsShort S.crypto }
{}
