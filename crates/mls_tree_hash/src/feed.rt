//! The input of a hash, fed piece by piece. Pieces wait side by side, so that the hasher takes many of them at once.

ghost use Rattle.std.specs.Prelude.{◌≡◌, ◌+◌, ◌≤◌, ℕ, List, [], ◌∷◌, length};

use sha2::{Digest, Sha256};

// How many bytes can wait. The input of a parent has fewer, unless its list is long.
const ROOM: usize = 256;

/// A hasher, and the bytes that it doesn't have yet: the first ones of a block.
#[derive(Drop)]
pub(crate) struct Feed {
    hasher: Sha256,
    block: [u8; ROOM],
    waiting: usize,
    ghost within: { waiting ≤ 256 },
}

impl Feed {
    ghost use Rattle.sha2.specs.Sha256.{sha256};
    ghost use Rattle.mls_tree_hash.specs.Feeds.{Holds, Feeds};

    /// Nothing yet.
    #[tactic(auto, unfolding(crate::specs::Feeds::Holds))]
    pub(crate) fn new() -> Feed
        ensures { Holds result [] }
    {
        Feed {
            hasher: Sha256::new(),
            block: [0; ROOM],
            waiting: 0,
        }
    }

    /// Lets the bytes wait.
    fn keep(&mut self, bytes: &[u8])
        requires { self.old.waiting + length bytes.now ≤ 256 }
        ensures { Feeds self.old bytes.now self.new }
    {
        let end = self.waiting + bytes.len();
        self.block[self.waiting..end].copy_from_slice(bytes);
        self.waiting = end;
    }

    /// Hands what waits to the hasher.
    fn hand_over(&mut self)
        ensures fed { Feeds self.old [] self.new }
        ensures none { self.new.waiting ≡ 0 }
    {
        let waiting = &self.block[..self.waiting];
        self.hasher.update(waiting);
        self.waiting = 0;
    }

    /// Adds bytes for which there is no room behind those that wait.
    #[inline(never)]
    fn add_beyond(&mut self, bytes: &[u8])
        ensures { Feeds self.old bytes.now self.new }
    {
        self.hand_over();
        if bytes.len() <= ROOM {
            self.keep(bytes);
        } else {
            self.hasher.update(bytes);
        }
    }

    /// Adds the bytes as they are.
    pub(crate) fn add(&mut self, bytes: &[u8])
        ensures { Feeds self.old bytes.now self.new }
    {
        if bytes.len() <= ROOM - self.waiting {
            self.keep(bytes);
        } else {
            self.add_beyond(bytes);
        }
    }

    /// Adds one byte.
    pub(crate) fn add_byte(&mut self, byte: u8)
        ensures { Feeds self.old (byte ∷ []) self.new }
    {
        if self.waiting < ROOM {
            self.block[self.waiting] = byte;
            self.waiting += 1;
        } else {
            self.add_beyond(&[byte]);
        }
    }

    /// The hash of all that was added. It empties the feed, which costs nothing where it is inlined and the feed ends.
    #[inline(always)]
    #[tactic(auto, unfolding(crate::specs::Feeds::Holds))]
    pub(crate) fn finish(&mut self) -> [u8; 32]
        ensures hash { (text : List ℕ) → Holds self.old text → result ≡ sha256 text }
        ensures empty { Holds self.new [] }
    {
        self.hand_over();
        self.hasher.finalize_reset()
    }
}
