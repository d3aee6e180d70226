//! Opening (SP 800-38D, 7.2). GCTR isn't in sight here: a ciphertext can be decrypted by `decrypt`
//! alone, which asks for the right tag.

ghost use Rattle.std.specs.Prelude.{◌≡◌, None, Ok};
ghost use Rattle.aes128gcm.specs.Opening.{Opens};
ghost use Rattle.aes128gcm.specs.Gcm.{gcm_ad};

use crate::gcm::{decrypt, is_tag};
use crate::keys::Aes128;
use std::alloc::{AllocError, Global};

/// Opens a ciphertext with its tag behind it (GCM-AD: SP 800-38D, 7.2; RFC 5116, 5.1). None where
/// the tag isn't this ciphertext's, also when an allocation fails, or `OutOfMemory`. No byte is
/// decrypted before the tag is compared.
#[tactic(auto, unfolding(crate::specs::Gcm::gcm_ad))]
pub fn open(
    alloc: Global,
    key: &[u8; 16],
    nonce: &[u8; 12],
    aad: &[u8],
    ct: &[u8],
) -> Result<Option<Vec<u8>>, AllocError>
    ensures answer { Opens result (gcm_ad key.now nonce.now aad.now ct.now) }
    ensures refused { gcm_ad key.now nonce.now aad.now ct.now ≡ None → result ≡ Ok None }
{
    if ct.len() < 16 {
        return Ok(None);
    }
    let key = Aes128::new(key);
    let (body, sent) = ct.split_at(ct.len() - 16);
    if !is_tag(&key, nonce, aad, body, sent) {
        return Ok(None);
    }
    Ok(Some(decrypt(alloc, &key, nonce, aad, body, sent)?))
}
