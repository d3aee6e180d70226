//! Callers that are generic over a suite: two that use its laws through the bound, and an auditor's check of a tree.
//! Beside them stands a suite for authors of suites to copy.
#![tactic(auto)]

ghost use Rattle.std.specs.Prelude.{◌≡◌, ◌<◌, ◌≤◌, ◌^◌, length, IfOk, Some, option_map, true};

mod bare;
mod trees;

pub use bare::Bare;
use mls_suite::{
    OutOfMemory, Suite, decrypt_with_label, encrypt_with_label, sign_with_label, verify_with_label,
};
use std::alloc::Global;
pub use trees::hash_of_checked_tree;

/// Seals `pt` under a label and a context to the public key of `sk`, and opens it again: it is `pt`,
/// in each suite.
pub fn seal_and_open<S: Suite>(
    alloc: Global,
    sk: &[u8; 32],
    label: &str,
    context: &[u8],
    pt: &[u8],
    rnd: &[u8; 32],
) -> Result<Option<Vec<u8>>, OutOfMemory>
    requires label { length label.now ≤ 200 }
    requires context { length context.now < 2 ^ 30 }
    ensures { IfOk result (λ read. option_map (λ v. v.items) read ≡ Some pt.now) }
{
    let pk = S::public(alloc, sk)?;
    let Some(sealed) = encrypt_with_label::<S>(alloc, &pk, label, context, pt, rnd)? else {
        return Ok(None);
    };
    let read = decrypt_with_label::<S>(alloc, sk, label, context, &sealed.kem, &sealed.ct)?;
    Ok(read)
}

/// Signs a content under a label, and verifies the signature: it holds, in each suite.
pub fn sign_and_verify<S: Suite>(
    alloc: Global,
    sk: &[u8; 32],
    label: &str,
    content: &[u8],
) -> Result<bool, OutOfMemory>
    requires label { length label.now ≤ 200 }
    requires content { length content.now < 2 ^ 30 }
    ensures { IfOk result (λ good. good ≡ true) }
{
    let pk = S::sig_public(alloc, sk)?;
    let signature = sign_with_label::<S>(alloc, sk, label, content)?;
    let good = verify_with_label::<S>(alloc, &pk, label, content, &signature)?;
    Ok(good)
}
