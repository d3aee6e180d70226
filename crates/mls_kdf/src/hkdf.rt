//! HKDF (RFC 5869).

ghost use Rattle.std.specs.Prelude.{◌≡◌, ℕ, ◌+◌, ◌-◌, ◌*◌, ◌<◌, ◌≤◌, ◌↔◌, [], ◌∷◌, ◌++◌, List, length, IsErrOf, OnErr};
ghost use Rattle.mls_kdf.specs.Kdf.{joined_pieces, hmac, extract, expand, hkdf_block, max_output};
ghost use Rattle.mls_kdf.specs.Outputs.{Fills, with_block};

use crate::{HmacKey, KdfError, MAX_OUTPUT, Secret, hmac};

/// A key made of input key material `ikm`, under a salt.
#[tactic(auto, unfolding(crate::specs::Kdf::extract))]
pub fn extract(salt: &[u8], ikm: &[u8]) -> Secret
    ensures { result ≡ extract salt.now ikm.now }
{
    hmac(salt, &[ikm])
}

/// The block with this number, from the one before; the first comes from none.
fn next_block(key: &HmacKey, previous: &[u8], info: &[&[u8]], number: u8) -> Secret
    ensures { result ≡ hmac key.now (previous.now ++ joined_pieces info.now ++ number ∷ []) }
{
    let mut keyed = key.begin();
    keyed.update(previous);
    keyed.update_all(info);
    keyed.update(&[number]);
    keyed.finish()
}

/// Writes the block at `at`, as far as there is room.
fn write_block(out: &mut [u8], at: usize, block: &Secret)
    requires { at ≤ length out.old }
    ensures { out.new ≡ with_block out.old at block.now }
{
    let end = out.len().min(at + 32);
    out[at..end].copy_from_slice(&block[..end - at]);
}

impl HmacKey<'_> {
    /// Fills `out` with a key made of this one and the pieces of `info`, one after another. More than
    /// 8,160 bytes are refused with `OutputTooLong`, and `out` is as it was.
    pub fn expand(&self, info: &[&[u8]], out: &mut [u8]) -> Result<(), KdfError>
        ensures too_long { IsErrOf result KdfError.OutputTooLong ↔ (max_output < length out.old) }
        ensures ok { Fills (expand self.now (joined_pieces info.now)) out.old result out.new }
        ensures err { OnErr result (out.new ≡ out.old) }
    {
        if out.len() > MAX_OUTPUT {
            return Err(KdfError::OutputTooLong);
        }
        let mut block = [0; 32];
        for i in 0..out.len().div_ceil(32) {
            let previous: &[u8] = if i == 0 { &[] } else { &block };
            block = next_block(self, previous, info, (i + 1) as u8);
            write_block(out, 32 * i, &block);
        }
        Ok(())
    }
}

/// Fills `out` with a key made of `prk` and the pieces of `info`, one after another. More than 8,160
/// bytes are refused with `OutputTooLong`, and `out` is as it was.
pub fn expand(prk: &[u8], info: &[&[u8]], out: &mut [u8]) -> Result<(), KdfError>
    ensures too_long { IsErrOf result KdfError.OutputTooLong ↔ (max_output < length out.old) }
    ensures ok { Fills (expand prk.now (joined_pieces info.now)) out.old result out.new }
    ensures err { OnErr result (out.new ≡ out.old) }
{
    HmacKey::new(prk).expand(info, out)
}
