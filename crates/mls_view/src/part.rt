//! Parts of a message, and the items of its vectors.

ghost use Rattle.std.specs.Prelude.{◌≡◌, ℕ, List, [], length, ◌<◌, Ok, Some, None, IsSome};
ghost use Rattle.mls_wire.specs.Format.{IsBytes};
ghost use Rattle.mls_leaf.specs.Faults.{LendsPart, Spells};
ghost use Rattle.mls_view.specs.Views.{Owns, SpellsRead, StepsItems, WalksItems};

use mls_leaf::{Codec, Items, LeafError, lend_part, lend_front};
use mls_wire::Reader;
use std::alloc::Global;
use std::marker::{Model, PhantomData};

/// Lends the bytes as they are. Each is below 2^8.
fn lend_bytes<'a>(bytes: &'a [u8]) -> &'a [u8]
    ensures same { result.now ≡ bytes.now }
    ensures bytes { IsBytes bytes.now }
{
    bytes
}

/// Bytes that are one spelling of a value, lent from a message.
#[derive(Drop)]
pub struct Part<'a, T: Codec> {
    bytes: &'a [u8],
    kind: PhantomData<T>,
}

impl<'a, T: Codec> Model for Part<'a, T> {
    ghost Value = { List ℕ };

    ghost view = { λ p. p.bytes.now };

    ghost invariant = { λ p. T.format.pass p.bytes.now ≡ Ok [] };
}

impl<'a, T: Codec> Part<'a, T> {
    /// The part at the front. It makes no value and takes no memory.
    pub fn read(reader: &mut Reader<'a>) -> Result<Part<'a, T>, LeafError>
        ensures { LendsPart T.format (λ p. p) reader.old result reader.new }
    {
        let bytes = lend_part::<T>(reader)?;
        Ok(Part {
            bytes,
            kind: PhantomData,
        })
    }

    /// What a reader has passed, where it read a value there.
    pub(crate) fn of(before: &'a [u8], behind: &[u8]) -> Part<'a, T>
        requires { (v : T) × (T.format.read before.now ≡ Ok (v, behind.now)) }
        ensures { SpellsRead T.format before.now behind.now result }
    {
        Part {
            bytes: lend_front(before, behind),
            kind: PhantomData,
        }
    }

    /// The bytes.
    pub fn bytes(&self) -> &'a [u8]
        ensures same { result.now ≡ self.now }
        ensures spelled { (v : T) × Spells T.format v result.now }
    {
        lend_bytes(self.bytes)
    }

    /// The value that the bytes spell, or want of memory.
    pub fn to_owned(&self, alloc: Global) -> Result<T, LeafError>
        ensures { Owns T.format self.now result }
    {
        let mut reader = Reader::new(lend_bytes(self.bytes));
        T::read(alloc, &mut reader)
    }
}

impl<'a, T: Codec> Part<'a, Items<T>> {
    /// A walk over the items of a vector, from the first one on.
    pub fn walk(&self) -> Walk<'a, T>
        ensures { WalksItems T.format T.nonempty self.now result }
    {
        let mut reader = Reader::new(self.bytes);
        match reader.opaque() {
            Ok(content) => Walk::new(content),
            Err(_) => Walk::new(&[]),
        }
    }
}

/// The items of a vector that are left, lent from a message.
#[derive(Drop)]
pub struct Walk<'a, T: Codec> {
    content: &'a [u8],
    kind: PhantomData<T>,
}

impl<'a, T: Codec> Model for Walk<'a, T> {
    ghost Value = { List ℕ };

    ghost view = { λ w. w.content.now };
}

impl<'a, T: Codec> Walk<'a, T> {
    fn new(content: &'a [u8]) -> Walk<'a, T>
        ensures { result ≡ content.now }
    {
        Walk {
            content,
            kind: PhantomData,
        }
    }

    /// The next item, None behind the last one. It makes no value and takes no memory.
    pub fn next(&mut self) -> Option<Part<'a, T>>
        ensures step { StepsItems T.format self.old result self.new }
        ensures shorter { IsSome result → length self.new < length self.old }
    {
        let mut reader = Reader::new(self.content);
        if reader.is_empty() {
            return None;
        }
        match Part::<T>::read(&mut reader) {
            Ok(item) => {
                self.content = reader.rest();
                Some(item)
            }
            Err(_) => None,
        }
    }
}
