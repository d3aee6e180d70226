//! Keys of HMAC that are hashed once for many texts.

ghost use Rattle.std.specs.Prelude.{◌≡◌, []};
ghost use Rattle.mls_kdf.specs.Kdf.{joined_pieces, hmac};
ghost use Rattle.mls_kdf.specs.Keyed.{IsKeyed};

use crate::{KeyedHash, Secret};
use std::marker::Model;

/// A key of HMAC (RFC 2104) whose two blocks are hashed once, when it is made: all that is made under it
/// costs two compressions less than by a call that takes the key's bytes.
#[derive(Drop)]
pub struct HmacKey<'a> {
    key: &'a [u8],
    fresh: KeyedHash,
}

// It is seen as the key.
impl<'a> Model for HmacKey<'a> {
    ghost use Rattle.std.specs.Prelude.{List, ℕ, []};
    ghost use Rattle.mls_kdf.specs.Keyed.{IsKeyed};

    ghost Value = { List ℕ };

    ghost view = { λ k. k.key.now };

    ghost invariant = { λ k. IsKeyed k.fresh k.key.now [] };
}

impl<'a> HmacKey<'a> {
    /// The key of these bytes.
    pub fn new(key: &'a [u8]) -> HmacKey<'a>
        ensures { result ≡ key.now }
    {
        HmacKey {
            key,
            fresh: KeyedHash::new(key),
        }
    }

    /// A keyed hash of the empty text under the key.
    pub fn begin(&self) -> KeyedHash
        ensures { IsKeyed result self.now [] }
    {
        self.fresh.copy()
    }

    /// The tag (HMAC, RFC 2104) of the pieces, one after another.
    pub fn mac(&self, pieces: &[&[u8]]) -> Secret
        ensures { result ≡ hmac self.now (joined_pieces pieces.now) }
    {
        let mut keyed = self.begin();
        keyed.update_all(pieces);
        keyed.finish()
    }
}
