//! Numbers and vectors (RFC 9420, 2.1), added to the input of a hash.

ghost use Rattle.std.specs.Prelude.{◌≡◌, ◌≤◌, ◌*◌, [], ◌∷◌, true, not, length};
ghost use Rattle.std.specs.Int.{w8, w16, w32, w64};
ghost use Rattle.std.specs.List.{flat_map};
ghost use Rattle.mls_wire.specs.Reading.{header, opaque, uint};
ghost use Rattle.mls_leaf.specs.Parent.{rises};
ghost use Rattle.mls_tree_model.specs.Sets.{has, less};
ghost use Rattle.mls_tree_hash.specs.Feeds.{Feeds};

use crate::feed::Feed;
use mls_kdf::content_header;

/// The header of a content of so many bytes.
fn add_header(feed: &mut Feed, len: usize)
    ensures { Feeds feed.old (header len) feed.new }
{
    if len < 64 {
        feed.add_byte(len as u8);
    } else {
        add_long_header(feed, len);
    }
}

/// The header of a long content of so many bytes. None has 2^30 bytes or more; there the four bytes wrap.
#[inline(never)]
fn add_long_header(feed: &mut Feed, len: usize)
    ensures { Feeds feed.old (header len) feed.new }
{
    if len < 1 << 30 {
        let header = content_header(len);
        feed.add(header.as_slice());
    } else {
        let low = (len % (1 << 32)) as u32;
        feed.add(&low.wrapping_add(1 << 31).to_be_bytes());
    }
}

/// A vector of bytes.
pub(crate) fn add_vector(feed: &mut Feed, content: &[u8])
    ensures { Feeds feed.old (opaque content.now) feed.new }
{
    add_header(feed, content.len());
    feed.add(content);
}

/// A number of one byte.
#[tactic(auto, unfolding(mls_wire::specs::Reading::uint))]
pub(crate) fn add_u8(feed: &mut Feed, n: u8)
    ensures { Feeds feed.old (uint w8 n) feed.new }
{
    feed.add_byte(n);
}

/// A number of two bytes.
#[tactic(auto, unfolding(mls_wire::specs::Reading::uint))]
pub(crate) fn add_u16(feed: &mut Feed, n: u16)
    ensures { Feeds feed.old (uint w16 n) feed.new }
{
    feed.add(&n.to_be_bytes());
}

/// A number of four bytes.
#[tactic(auto, unfolding(mls_wire::specs::Reading::uint))]
pub(crate) fn add_u32(feed: &mut Feed, n: u32)
    ensures { Feeds feed.old (uint w32 n) feed.new }
{
    feed.add(&n.to_be_bytes());
}

/// A number of eight bytes.
#[tactic(auto, unfolding(mls_wire::specs::Reading::uint))]
pub(crate) fn add_u64(feed: &mut Feed, n: u64)
    ensures { Feeds feed.old (uint w64 n) feed.new }
{
    feed.add(&n.to_be_bytes());
}

/// A vector of numbers of four bytes.
pub(crate) fn add_entries(feed: &mut Feed, entries: &[u32])
    ensures { Feeds feed.old (opaque (flat_map (uint w32) entries.now)) feed.new }
{
    add_header(feed, 4 * entries.len());
    for entry in entries {
        add_u32(feed, *entry);
    }
}

/// Whether the entry is none of the leaves.
fn is_remaining(entry: u32, leaves: &[u32]) -> bool
    requires { rises leaves.now ≡ true }
    ensures { result ≡ not (has leaves.now entry) }
{
    leaves.binary_search(&entry).is_err()
}

/// How many entries are none of the leaves.
fn count_remaining(entries: &[u32], leaves: &[u32]) -> usize
    requires { rises leaves.now ≡ true }
    ensures count { result ≡ length (less leaves.now entries.now) }
    ensures few { result ≤ length entries.now }
{
    let mut count = 0;
    for entry in entries {
        if is_remaining(*entry, leaves) {
            count += 1;
        }
    }
    count
}

/// The entry, if it is none of the leaves.
fn add_if_remaining(feed: &mut Feed, entry: u32, leaves: &[u32])
    requires { rises leaves.now ≡ true }
    ensures { Feeds feed.old (flat_map (uint w32) (less leaves.now (entry ∷ []))) feed.new }
{
    if is_remaining(entry, leaves) {
        add_u32(feed, entry);
    }
}

/// A vector of the entries that are none of the leaves.
pub(crate) fn add_remaining(feed: &mut Feed, entries: &[u32], leaves: &[u32])
    requires { rises leaves.now ≡ true }
    ensures { Feeds feed.old (opaque (flat_map (uint w32) (less leaves.now entries.now))) feed.new }
{
    add_header(feed, 4 * count_remaining(entries, leaves));
    for entry in entries {
        add_if_remaining(feed, *entry, leaves);
    }
}
