//! What the types of numbers tell of events: given bytes are bytes, and leaves have 32 bits. These functions do nothing
//! else.

ghost use Rattle.std.specs.Prelude.{◌<◌, ◌^◌, length};
ghost use Rattle.std.specs.List.{AllByRecursion};
ghost use Rattle.mls_model.specs.EventRange.{IsSourceInRange, IsItemInRange, IsInRange};

use mls_model::{Event, Source, WorldItem};
use mls_public_group::know_bytes;

/// A slice has no more bytes than memory can.
pub(crate) fn know_short(bytes: &[u8])
    ensures { length bytes.now < 2 ^ 63 }
{
    let _length = bytes.len();
}

/// A slice has no more items than memory can.
pub(crate) fn know_few(items: &[WorldItem])
    ensures { length items.now < 2 ^ 63 }
{
    let _length = items.len();
}

/// Given bytes are bytes.
pub(crate) fn know_source(source: &Source)
    ensures { IsSourceInRange source.now }
{
    match source {
        Source::Given(bytes) => know_bytes(bytes.as_slice()),
        Source::Message(_) => {}
    }
}

/// The source of an item is in range, and its leaf has 32 bits.
fn know_item(item: &WorldItem)
    ensures { IsItemInRange item.now }
{
    match item {
        WorldItem::RefOf(source) => know_source(source),
        WorldItem::Add(source) => know_source(source),
        WorldItem::Remove(leaf) => {
            let _leaf = *leaf;
        }
        WorldItem::Extensions(_) => {}
    }
}

/// All items of a list are in range.
pub(crate) fn know_items(items: &[WorldItem])
    ensures { AllByRecursion IsItemInRange items.now }
{
    for item in items {
        know_item(item);
    }
}

/// An event is in range.
#[tactic(auto, unfolding(mls_model::specs::EventRange::IsInRange))]
pub(crate) fn know_event(event: &Event)
    ensures { IsInRange event.now }
{
    match event {
        Event::ProposeAdd { key_package, .. } => know_source(key_package),
        Event::Commit { items, .. } => know_items(items.as_slice()),
        Event::Deliver { bytes, .. } => know_source(bytes),
        Event::Join { bytes, .. } => know_source(bytes),
        Event::Candidate { .. } => {}
        Event::Create { .. } => {}
        Event::ProposeUpdate { .. } => {}
        Event::ProposeRemove { .. } => {}
        Event::ProposeExtensions { .. } => {}
        Event::DropPending { .. } => {}
    }
}

/// All events of a list are in range.
pub(crate) fn know_events(events: &[Event])
    ensures { AllByRecursion IsInRange events.now }
{
    for event in events {
        know_event(event);
    }
}
