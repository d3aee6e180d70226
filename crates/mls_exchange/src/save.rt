//! Saving an exchange, and going on with the keys that were saved.

ghost use Rattle.std.specs.Prelude.{◌≡◌, IfOk};
ghost use Rattle.mls_leaf.specs.Faults.{AddsSpelling};
ghost use Rattle.mls_exchange.specs.Calls.{Gives, RefusesOutright, PassesOutright, Restores};
ghost use Rattle.mls_exchange.specs.Saved.{saved_exchange, saved_exchange_nonempty, saved_exchange_faults, seen, saved_of, Saves, checks_of_saved, saved_at, keys_at, RestoresAsWas};

use crate::ExchangeError;
use crate::exchange::Exchange;
use mls_leaf::{Bytes, Codec, INPUT_LIMIT, LeafError, pass_mark};
use mls_private_message::PrivateMessageError;
use mls_secret_tree::{SecretTree, SecretTreeError};
use mls_suite::Suite;
use mls_wire::{Reader, WireError, Writer};
use std::alloc::Global;

// Saved keys are of another leaf, or of a tree of another height.
const BAD_TAG: ExchangeError = ExchangeError::Message(PrivateMessageError::Leaf(LeafError::BadTag));

/// What a saved exchange begins with: the version of its form, which is none of a member's or a candidate's.
const EXCHANGE_MARK: u16 = 3;

/// An exchange, as it is saved: where its messages belong, its leaf, and its secret tree.
#[derive(Drop)]
pub(crate) struct SavedExchange {
    group_id: Bytes,
    epoch: u64,
    leaf: u32,
    keys: SecretTree,
}

/// The same, lent.
#[derive(Clone, Copy)]
struct LentExchange<'a> {
    group_id: &'a Bytes,
    epoch: u64,
    leaf: u32,
    keys: &'a SecretTree,
}

/// Adds the saved form.
#[tactic(auto, using(mls_leaf::proofs::Codecs::codecs), unfolding(crate::specs::Saved::saved_exchange))]
fn write_saved(
    alloc: Global,
    exchange: LentExchange<'_>,
    writer: &mut Writer,
) -> Result<(), LeafError>
    ensures { AddsSpelling saved_exchange (seen exchange.entry) writer.old result writer.new }
{
    writer.u16(EXCHANGE_MARK)?;
    exchange.group_id.write(alloc, writer)?;
    exchange.epoch.write(alloc, writer)?;
    exchange.leaf.write(alloc, writer)?;
    exchange.keys.write(alloc, writer)?;
    Ok(())
}

impl Codec for SavedExchange {
    ghost format = { saved_exchange };

    ghost nonempty = { saved_exchange_nonempty };

    ghost faults = { saved_exchange_faults };

    #[tactic(auto, using(mls_leaf::proofs::Codecs::codecs), unfolding(crate::specs::Saved::saved_exchange))]
    fn read(alloc: Global, reader: &mut Reader<'_>) -> Result<SavedExchange, LeafError> {
        pass_mark(reader, EXCHANGE_MARK, LeafError::BadTag)?;
        let group_id = Bytes::read(alloc, reader)?;
        let epoch = u64::read(alloc, reader)?;
        let leaf = u32::read(alloc, reader)?;
        let keys = SecretTree::read(alloc, reader)?;
        Ok(SavedExchange {
            group_id,
            epoch,
            leaf,
            keys,
        })
    }

    #[tactic(auto, using(mls_leaf::proofs::Codecs::codecs), unfolding(crate::specs::Saved::saved_exchange))]
    fn check(reader: &mut Reader<'_>) -> Result<(), LeafError> {
        pass_mark(reader, EXCHANGE_MARK, LeafError::BadTag)?;
        Bytes::check(reader)?;
        u64::check(reader)?;
        u32::check(reader)?;
        SecretTree::check(reader)?;
        Ok(())
    }

    fn write(&self, alloc: Global, writer: &mut Writer) -> Result<(), LeafError> {
        let exchange = LentExchange {
            group_id: &self.group_id,
            epoch: self.epoch,
            leaf: self.leaf,
            keys: &self.keys,
        };
        write_saved(alloc, exchange, writer)
    }
}

impl<S: Suite> Exchange<S> {
    /// The exchange as bytes, with which another of its member and epoch goes on by `restore`: the group, the epoch, its
    /// leaf and the secrets that keys not used yet are derived from. `TooLong` (6) where there are more bytes than an input has.
    #[tactic(auto, using(crate::proofs::Saving::unfit, crate::proofs::Saving::too_long, crate::proofs::Saving::bytes_restored))]
    pub fn save(&self) -> Result<Vec<u8>, LeafError>
        ensures saved { Saves (saved_of self.now) result }
        // By them the exchange goes on as it was.
        ensures restores { IfOk result (λ bytes. RestoresAsWas self.now bytes.items) }
    {
        let mut writer = Writer::new(self.alloc);
        let exchange = LentExchange {
            group_id: &self.parts.group_id,
            epoch: self.parts.epoch,
            leaf: self.parts.leaf,
            keys: &self.parts.keys,
        };
        write_saved(self.alloc, exchange, &mut writer)?;
        let bytes = writer.into_bytes();
        if bytes.len() > INPUT_LIMIT {
            return Err(LeafError::Wire(WireError::TooLong));
        }
        Ok(bytes)
    }

    /// `OtherGroup` (111) saved keys of another group, `OtherEpoch` (112) of another epoch, `BadTag` (7) of another
    /// leaf or of a tree of another height. Takes no memory.
    #[tactic(auto, unfolding(crate::specs::Saved::checks_of_saved))]
    fn check_saved(&self, saved: &SavedExchange) -> Result<(), ExchangeError>
        ensures { PassesOutright (checks_of_saved self.now saved.now) result }
    {
        self.check_place(saved.group_id.as_slice(), saved.epoch)?;
        if saved.leaf != self.parts.leaf {
            return Err(BAD_TAG);
        }
        if saved.keys.height() != self.parts.keys.height() {
            return Err(BAD_TAG);
        }
        Ok(())
    }

    /// The saved exchange that the bytes are: `KeyUsed` (116) where this one used a key, else their first fault.
    #[tactic(auto, unfolding(crate::specs::Saved::saved_at))]
    fn read_saved(&self, bytes: &[u8]) -> Result<SavedExchange, ExchangeError>
        ensures answer { Gives (saved_at self.now bytes.now) result }
        // All of this comes also when an allocation fails.
        ensures outright { RefusesOutright (saved_at self.now bytes.now) result }
    {
        if !self.parts.keys.is_fresh() {
            return Err(ExchangeError::Key(SecretTreeError::KeyUsed));
        }
        Ok(SavedExchange::decode(self.alloc, bytes)?)
    }

    /// The keys that the bytes hold for the exchange.
    #[tactic(auto, unfolding(crate::specs::Saved::keys_at))]
    fn saved_keys(&self, bytes: &[u8]) -> Result<SecretTree, ExchangeError>
        ensures answer { Gives (keys_at self.now bytes.now) result }
        ensures outright { RefusesOutright (saved_at self.now bytes.now) result }
    {
        let saved = self.read_saved(bytes)?;
        self.check_saved(&saved)?;
        let SavedExchange {
            group_id: _,
            epoch: _,
            leaf: _,
            keys,
        } = saved;
        Ok(keys)
    }

    /// Goes on with the keys of an exchange of the same member and epoch, which `save` made these bytes of. `KeyUsed` (116)
    /// where a key of this one was used already; the first fault of bytes that spell no saved form; `OtherGroup`
    /// (111), `OtherEpoch` (112), `BadTag` (7) of another leaf or of a tree of another height. A refusal changes nothing.
    #[tactic(auto, unfolding(crate::specs::Saved::restore))]
    pub fn restore(&mut self, bytes: &[u8]) -> Result<(), ExchangeError>
        ensures answer { Restores bytes.now self.old self.new result }
        // 116 and faults of the bytes come also when an allocation fails.
        ensures outright { RefusesOutright (saved_at self.old bytes.now) result }
    {
        self.parts.keys = self.saved_keys(bytes)?;
        Ok(())
    }
}
