//! The ciphertexts of a node of an update path (RFC 9420, 7.6).

ghost use Rattle.std.specs.Prelude.{◌≡◌, MatchResult, length};
ghost use Rattle.std.specs.List.{slice_get};
ghost use Rattle.std.specs.Option.{option_map};
ghost use Rattle.mls_wire.specs.Combine.{vector};
ghost use Rattle.mls_leaf.specs.Nonempty.{vector_nonempty};
ghost use Rattle.mls_leaf.specs.Faults.{AddsSpelling, ReadsFront};
ghost use Rattle.mls_wire.specs.ReadFaults.{vector_faults};
ghost use Rattle.mls_types.specs.UpdatePath.{hpke_ciphertext, hpke_ciphertext_nonempty};
ghost use Rattle.mls_types.specs.GroupReadFaults.{hpke_ciphertext_faults};
ghost use Rattle.mls_types.specs.Ciphertexts.{AreSpelled, CountsCiphertexts, LendsCiphertext, ciphertext_lent, ciphertexts_in};

use crate::update_path::HpkeCiphertext;
use mls_leaf::{Codec, Items, LeafError};
use mls_wire::{Reader, Writer};
use std::alloc::{AllocError, Global};
use std::marker::Model;

/// An HPKECiphertext, lent (RFC 9420, 7.6).
#[derive(Debug, Clone, Copy)]
pub struct CiphertextRef<'a> {
    /// What the key encapsulation puts out.
    pub kem_output: &'a [u8],
    /// The sealed text.
    pub ciphertext: &'a [u8],
}

impl<'a> CiphertextRef<'a> {
    /// That of an owned one.
    pub fn of(sealed: &'a HpkeCiphertext) -> Self
        ensures { ciphertext_lent result ≡ sealed.now }
    {
        CiphertextRef {
            kem_output: sealed.kem_output.as_slice(),
            ciphertext: sealed.ciphertext.as_slice(),
        }
    }

    /// That at the front. After a refusal it is left open how far the reader has come.
    #[tactic(auto, using(mls_leaf::proofs::Codecs::codecs), unfolding(crate::specs::UpdatePath::hpke_ciphertext))]
    fn read(reader: &mut Reader<'a>) -> Result<Self, LeafError>
        ensures { LendsCiphertext reader.old result reader.new }
    {
        let kem_output = reader.opaque()?;
        let ciphertext = reader.opaque()?;
        Ok(CiphertextRef {
            kem_output,
            ciphertext,
        })
    }
}

/// How many ciphertexts the bytes spell, one after the other. It takes no memory.
fn count_ciphertexts(bytes: &[u8]) -> Result<usize, LeafError>
    ensures { CountsCiphertexts bytes.now result }
{
    let _size = bytes.len();
    let mut reader = Reader::new(bytes);
    let mut count = 0;
    while !reader.is_empty() {
        HpkeCiphertext::check(&mut reader)?;
        count += 1;
    }
    Ok(count)
}

/// The ciphertext with this number among those that the bytes spell, one after the other: an error where there are not
/// so many.
fn ciphertext_at(bytes: &[u8], number: usize) -> Result<CiphertextRef<'_>, LeafError>
    requires { AreSpelled bytes.now }
    ensures { MatchResult result
        (λ r. slice_get (ciphertexts_in bytes.now) number ≡ Some (ciphertext_lent r))
        (λ _. slice_get (ciphertexts_in bytes.now) number ≡ None) }
{
    let mut reader = Reader::new(bytes);
    for _ in 0..number {
        HpkeCiphertext::check(&mut reader)?;
    }
    let sealed = CiphertextRef::read(&mut reader)?;
    Ok(sealed)
}

/// Ciphertexts as they are spelled, one after the other.
#[derive(Debug, Drop)]
struct SpelledCiphertexts {
    bytes: Vec<u8>,
    count: usize,
}

impl Model for SpelledCiphertexts {
    ghost use Rattle.std.specs.Prelude.{◌≡◌, List, length};
    ghost use Rattle.mls_types.specs.declared.update_path.HpkeCiphertext.{HpkeCiphertext};

    ghost Value = { List HpkeCiphertext };

    ghost use Rattle.mls_types.specs.Ciphertexts.{AreSpelled, ciphertexts_in};

    ghost view = { λ s. ciphertexts_in s.bytes.items };

    ghost invariant = { λ s. AreSpelled s.bytes.items
        × (s.count ≡ length (ciphertexts_in s.bytes.items)) };
}

impl SpelledCiphertexts {
    /// Those of the vector at the front: its content is copied as it is.
    fn read(alloc: Global, reader: &mut Reader<'_>) -> Result<SpelledCiphertexts, LeafError>
        ensures { ReadsFront (vector hpke_ciphertext hpke_ciphertext_nonempty)
            reader.old result reader.new }
    {
        let content = reader.opaque()?;
        let count = count_ciphertexts(content)?;
        let bytes = Vec::from_slice(alloc, content)?;
        Ok(SpelledCiphertexts { bytes, count })
    }

    /// Adds them as a vector.
    fn write(&self, writer: &mut Writer) -> Result<(), LeafError>
        ensures { AddsSpelling (vector hpke_ciphertext hpke_ciphertext_nonempty) self.now
            writer.old result writer.new }
    {
        writer.opaque(&self.bytes)?;
        Ok(())
    }

    /// How many they are.
    fn len(&self) -> usize
        ensures { result ≡ length self.now }
    {
        self.count
    }

    /// The one with this number.
    fn get(&self, number: usize) -> Option<CiphertextRef<'_>>
        ensures { option_map ciphertext_lent result ≡ slice_get self.now number }
    {
        ciphertext_at(&self.bytes, number).ok()
    }
}

impl Clone for SpelledCiphertexts {
    ghost is_clone = { λ s t. t ≡ s };

    fn clone(&self) -> Result<SpelledCiphertexts, AllocError> {
        let bytes = Vec::from_slice(*self.bytes.allocator(), &self.bytes)?;
        Ok(SpelledCiphertexts {
            bytes,
            count: self.count,
        })
    }
}

/// The ciphertext with this number among these.
fn lend_item(items: &[HpkeCiphertext], number: usize) -> Option<CiphertextRef<'_>>
    ensures { option_map ciphertext_lent result ≡ slice_get items.now number }
{
    match items.get(number) {
        Some(sealed) => Some(CiphertextRef::of(sealed)),
        None => None,
    }
}

/// Ciphertexts that were read, or that were made.
#[derive(Debug, Drop)]
enum Held {
    Read(SpelledCiphertexts),
    Made(Items<HpkeCiphertext>),
}

/// The ciphertexts of a node of an update path, which contracts see as a list. Those that were read stand as they are
/// spelled, in one allocation; those that were made may have any length.
#[derive(Debug)]
pub struct Ciphertexts {
    held: Held,
}

impl Model for Ciphertexts {
    ghost use Rattle.std.specs.Prelude.{List};
    ghost use Rattle.mls_types.specs.declared.update_path.HpkeCiphertext.{HpkeCiphertext};

    ghost Value = { List HpkeCiphertext };

    ghost use Rattle.mls_types.specs.HeldCiphertexts.{list_held};

    ghost view = { λ c. list_held c.held };
}

impl Ciphertexts {
    /// Those of this list, which takes no memory.
    pub fn from_vec(ciphertexts: Vec<HpkeCiphertext>) -> Self
        ensures { result ≡ ciphertexts.items }
    {
        Ciphertexts {
            held: Held::Made(Items::from_vec(ciphertexts)),
        }
    }

    /// How many they are.
    pub fn len(&self) -> usize
        ensures { result ≡ length self.now }
    {
        match &self.held {
            Held::Read(spelled) => spelled.len(),
            Held::Made(items) => items.as_slice().len(),
        }
    }

    /// The one with this number. Of those that were read it reads past those before it; it takes no memory.
    pub fn get(&self, number: usize) -> Option<CiphertextRef<'_>>
        ensures { option_map ciphertext_lent result ≡ slice_get self.now number }
    {
        match &self.held {
            Held::Read(spelled) => spelled.get(number),
            Held::Made(items) => lend_item(items.as_slice(), number),
        }
    }
}

// By hand, so that a drop is one call for the proofs of those that hold ciphertexts.
impl Drop for Ciphertexts {
    fn drop(self) {
        let Ciphertexts { held: _ } = self;
    }
}

impl Clone for Ciphertexts {
    ghost is_clone = { λ b c. c ≡ b };

    fn clone(&self) -> Result<Ciphertexts, AllocError> {
        match &self.held {
            Held::Read(spelled) => Ok(Ciphertexts {
                held: Held::Read(spelled.clone()?),
            }),
            Held::Made(items) => Ok(Ciphertexts {
                held: Held::Made(items.clone()?),
            }),
        }
    }
}

impl Codec for Ciphertexts {
    ghost format = { vector hpke_ciphertext hpke_ciphertext_nonempty };

    ghost nonempty = { vector_nonempty hpke_ciphertext hpke_ciphertext_nonempty };

    ghost faults = { vector_faults hpke_ciphertext hpke_ciphertext_nonempty
        hpke_ciphertext_faults };

    fn read(alloc: Global, reader: &mut Reader<'_>) -> Result<Ciphertexts, LeafError> {
        let spelled = SpelledCiphertexts::read(alloc, reader)?;
        Ok(Ciphertexts {
            held: Held::Read(spelled),
        })
    }

    fn check(reader: &mut Reader<'_>) -> Result<(), LeafError> {
        Items::<HpkeCiphertext>::check(reader)
    }

    fn write(&self, alloc: Global, writer: &mut Writer) -> Result<(), LeafError> {
        match &self.held {
            Held::Read(spelled) => spelled.write(writer),
            Held::Made(items) => items.write(alloc, writer),
        }
    }
}
