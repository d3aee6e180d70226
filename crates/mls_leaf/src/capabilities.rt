//! Capabilities as they are spelled.

ghost use Rattle.std.specs.Prelude.{◌≡◌, ℕ, List, IfOk, Ok};
ghost use Rattle.std.specs.Cmp.{and_equiv, on_equiv, partial_equiv_from_equiv};
ghost use Rattle.std.specs.Cmp.Lexicographic.{nat_list_eq_equiv};
ghost use Rattle.mls_leaf.specs.declared.leaf.Capabilities.{Capabilities};
ghost use Rattle.mls_leaf.specs.Faults.{Spells};
ghost use Rattle.mls_leaf.specs.Leaf.{capabilities, capabilities_nonempty};
ghost use Rattle.mls_leaf.specs.ReadFaults.{capabilities_faults};
ghost use Rattle.mls_leaf.specs.Capabilities.{Makes, SpellNumbers, are_listed, is_listed};

use crate::bytes::Bytes;
use crate::codec::Codec;
use crate::error::LeafError;
use crate::leaf::Capabilities;
use crate::view::lend_part;
use mls_wire::{Reader, WireError, Writer};
use std::alloc::{AllocError, Global};
use std::marker::Model;

/// Whether the number is one of those that are left.
fn is_listed(mut numbers: Reader<'_>, number: u16) -> bool
    ensures { (listed : List ℕ) → SpellNumbers listed numbers.entry
        → result ≡ is_listed listed number }
{
    while let Ok(next) = numbers.u16() {
        if next == number {
            return true;
        }
    }
    false
}

/// Whether the lists that the bytes spell have this version, this cipher suite and this type of credential.
fn are_listed(
    bytes: &[u8],
    version: u16,
    cipher_suite: u16,
    credential: u16,
) -> Result<bool, WireError>
    ensures { (lists : Capabilities) → Spells capabilities lists bytes.now
        → result ≡ Ok (are_listed lists version cipher_suite credential) }
{
    let mut reader = Reader::new(bytes);
    let versions = reader.vector()?;
    let cipher_suites = reader.vector()?;
    let _extensions = reader.opaque()?;
    let _proposals = reader.opaque()?;
    let credentials = reader.vector()?;
    let has_version = is_listed(versions, version);
    let has_suite = is_listed(cipher_suites, cipher_suite);
    let has_credential = is_listed(credentials, credential);
    Ok(has_version && has_suite && has_credential)
}

/// What a client can handle (RFC 9420, 7.2), which contracts see as the five lists. It stands as it is spelled: usual
/// capabilities have some 20 bytes, and take no memory.
#[derive(Debug)]
pub struct SpelledCapabilities {
    bytes: Bytes,
}

impl Model for SpelledCapabilities {
    ghost use Rattle.mls_leaf.specs.declared.leaf.Capabilities.{Capabilities};

    ghost Value = { Capabilities };

    ghost use Rattle.mls_leaf.specs.Capabilities.{capabilities_in};

    ghost view = { λ s. capabilities_in s.bytes };

    ghost use Rattle.mls_leaf.specs.Faults.{Spells};
    ghost use Rattle.mls_leaf.specs.Leaf.{capabilities};

    ghost invariant = { λ s. Spells capabilities (capabilities_in s.bytes) s.bytes };
}

impl SpelledCapabilities {
    /// Those of these lists. It refuses them as [`Codec::encode`] does.
    pub fn of(alloc: Global, lists: &Capabilities) -> Result<Self, LeafError>
        ensures { Makes capabilities lists.now result }
    {
        let spelled = lists.encode(alloc)?;
        let bytes = Bytes::from_slice(alloc, &spelled)?;
        Ok(SpelledCapabilities { bytes })
    }

    /// The bytes that spell them.
    pub fn bytes(&self) -> &[u8]
        ensures { Spells capabilities self.now result.now }
    {
        self.bytes.as_slice()
    }

    /// Whether the version, the cipher suite and the type of credential are among those listed. It takes no memory.
    pub fn support(&self, version: u16, cipher_suite: u16, credential: u16) -> bool
        ensures { result ≡ are_listed self.now version cipher_suite credential }
    {
        are_listed(self.bytes.as_slice(), version, cipher_suite, credential).unwrap_or(false)
    }

    /// The lists.
    pub fn to_lists(&self, alloc: Global) -> Result<Capabilities, AllocError>
        ensures { IfOk result (λ v. v ≡ self.now) }
    {
        let mut reader = Reader::new(self.bytes.as_slice());
        match Capabilities::read(alloc, &mut reader) {
            Ok(lists) => Ok(lists),
            // Want of memory, since the bytes spell lists.
            Err(_) => Err(AllocError),
        }
    }
}

// By hand, so that a drop is one call for the proofs of those that hold capabilities.
impl Drop for SpelledCapabilities {
    fn drop(self) {
        let SpelledCapabilities { bytes: _ } = self;
    }
}

impl Clone for SpelledCapabilities {
    ghost is_clone = { λ v w. w ≡ v };

    fn clone(&self) -> Result<SpelledCapabilities, AllocError> {
        let bytes = self.bytes.clone()?;
        Ok(SpelledCapabilities { bytes })
    }
}

impl PartialEq for SpelledCapabilities {
    ghost eq = { ⟦<Capabilities as PartialEq>⟧.eq };

    ghost laws = { partial_equiv_from_equiv
        (and_equiv (on_equiv (λ (v : Capabilities). v.versions) nat_list_eq_equiv)
        (and_equiv (on_equiv (λ (v : Capabilities). v.cipher_suites) nat_list_eq_equiv)
        (and_equiv (on_equiv (λ (v : Capabilities). v.extensions) nat_list_eq_equiv)
        (and_equiv (on_equiv (λ (v : Capabilities). v.proposals) nat_list_eq_equiv)
        (on_equiv (λ (v : Capabilities). v.credentials) nat_list_eq_equiv))))) };

    fn eq(&self, other: &SpelledCapabilities) -> bool {
        self.bytes == other.bytes
    }
}

impl Eq for SpelledCapabilities {
    ghost laws = { and_equiv (on_equiv (λ (v : Capabilities). v.versions) nat_list_eq_equiv)
        (and_equiv (on_equiv (λ (v : Capabilities). v.cipher_suites) nat_list_eq_equiv)
        (and_equiv (on_equiv (λ (v : Capabilities). v.extensions) nat_list_eq_equiv)
        (and_equiv (on_equiv (λ (v : Capabilities). v.proposals) nat_list_eq_equiv)
        (on_equiv (λ (v : Capabilities). v.credentials) nat_list_eq_equiv)))) };
}

impl Codec for SpelledCapabilities {
    ghost format = { capabilities };

    ghost nonempty = { capabilities_nonempty };

    ghost faults = { capabilities_faults };

    fn read(alloc: Global, reader: &mut Reader<'_>) -> Result<SpelledCapabilities, LeafError> {
        let spelled = lend_part::<Capabilities>(reader)?;
        let bytes = Bytes::from_slice(alloc, spelled)?;
        Ok(SpelledCapabilities { bytes })
    }

    fn check(reader: &mut Reader<'_>) -> Result<(), LeafError> {
        Capabilities::check(reader)
    }

    fn write(&self, _alloc: Global, writer: &mut Writer) -> Result<(), LeafError> {
        writer.spelled(self.bytes.as_slice())?;
        Ok(())
    }
}
