//! The labelled functions (RFC 9180, 4).

ghost use Rattle.std.specs.Prelude.{◌≡◌, ◌≤◌, ◌++◌, length};
ghost use Rattle.mls_kdf.specs.Kdf.{max_output};
ghost use Rattle.hpke.specs.Rfc9180.{labeled_extract, labeled_expand};

use mls_kdf::{Secret, expand, hmac};

const VERSION: &[u8] = b"HPKE-v1";

/// LabeledExtract under a suite_id (RFC 9180, 4).
#[tactic(auto, unfolding(crate::specs::Rfc9180::labeled_extract, mls_kdf::specs::Kdf::extract))]
pub(crate) fn labeled_extract(suite_id: &[u8], salt: &[u8], label: &[u8], ikm: &[u8]) -> Secret
    ensures { result ≡ labeled_extract suite_id.now salt.now label.now ikm.now }
{
    hmac(salt, &[VERSION, suite_id, label, ikm])
}

/// LabeledExpand under a suite_id, of an info in three pieces (RFC 9180, 4).
#[tactic(auto, unfolding(crate::specs::Rfc9180::labeled_expand))]
pub(crate) fn labeled_expand<'a>(
    suite_id: &'a [u8],
    prk: &[u8],
    label: &'a [u8],
    first: &'a [u8],
    second: &'a [u8],
    third: &'a [u8],
    out: &mut [u8],
)
    requires { length out.old ≤ max_output }
    ensures { out.new ≡ labeled_expand suite_id.now prk.now label.now
        (first.now ++ second.now ++ third.now) (length out.old) }
{
    let length = (out.len() as u16).to_be_bytes();
    let pieces: [&[u8]; 7] = [&length, VERSION, suite_id, label, first, second, third];
    expand(prk, &pieces, out).unwrap();
}
