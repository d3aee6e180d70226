//! An exchange: its parts.

ghost use Rattle.std.specs.Prelude.{◌≡◌};
ghost use Rattle.std.specs.Option.{option_copied};
ghost use Rattle.mls_tree_model.specs.Arrays.{leaf_in};
ghost use Rattle.mls_exchange.specs.State.{member_at};
ghost use Rattle.mls_exchange.specs.Parts.{state_of};
ghost use Rattle.mls_exchange.specs.Contents.{within_limit};
ghost use Rattle.mls_exchange.specs.Calls.{GivesBytes};

use crate::ExchangeError;
use mls_kdf::Secret;
use mls_leaf::{Bytes, INPUT_LIMIT, LeafError, LeafNode};
use mls_private_message::PrivateMessageError;
use mls_secret_tree::SecretTree;
use mls_suite::Suite;
use mls_tree_slot::{NodeRef, Slot};
use mls_wire::WireError;
use std::alloc::Global;
use std::marker::{Model, PhantomData};

// A text is longer than it may be.
pub(crate) const TOO_LONG: ExchangeError = ExchangeError::Message(PrivateMessageError::Leaf(
    LeafError::Wire(WireError::TooLong),
));

/// What an exchange is made of: the parts of an epoch, as one member has them.
#[derive(Drop)]
pub struct Parts {
    /// The group's identifier.
    pub group_id: Bytes,
    /// The number of the epoch.
    pub epoch: u64,
    /// The bytes of the GroupContext (RFC 9420, 8.1).
    pub context: Vec<u8>,
    /// The epoch's secret of sender data (RFC 9420, 8).
    pub sender_data_secret: Secret,
    /// The epoch's secret tree (RFC 9420, 9).
    pub keys: SecretTree,
    /// The nodes of the ratchet tree in order, as they are sent (RFC 9420, 12.4.3.3).
    pub nodes: Vec<Slot>,
    /// The index of the member's leaf.
    pub leaf: u32,
    /// The private key of the member's signatures.
    pub signing: Secret,
}

/// What one member seals and opens application messages of one epoch with. It shares the nodes of the ratchet tree.
pub struct Exchange<S: Suite> {
    pub(crate) parts: Parts,
    pub(crate) alloc: Global,
    pub(crate) suite: PhantomData<S>,
}

impl<S: Suite> Drop for Exchange<S> {
    fn drop(self) {
        let Exchange {
            parts: _,
            alloc: _,
            suite: _,
        } = self;
    }
}

impl<S: Suite> Model for Exchange<S> {
    ghost use Rattle.mls_exchange.specs.State.{State};
    ghost use Rattle.mls_exchange.specs.Parts.{state_of};
    ghost use Rattle.mls_secret_tree.specs.TreeCodes.{coded_tree};
    ghost use Rattle.std.specs.Coded.{codes};

    ghost Value = { State };

    ghost coded = { Prim.hlevel (codes, coded_tree) };

    ghost view = { λ x. state_of x.parts };
}

/// The leaf in a place: None where it is blank or holds a parent.
fn leaf_in(slot: &Slot) -> Option<&LeafNode>
    ensures { option_copied result ≡ leaf_in slot.now }
{
    match slot.node() {
        Some(NodeRef::Leaf(leaf)) => Some(leaf),
        _ => None,
    }
}

/// The leaf of a member among the nodes of a tree, where it stands at an even place: None where it is blank or outside.
pub(crate) fn member_at(nodes: &[Slot], leaf: u32) -> Option<&LeafNode>
    ensures { option_copied result ≡ member_at nodes.now leaf }
{
    let place = 2 * leaf as usize;
    if place >= nodes.len() {
        return None;
    }
    leaf_in(&nodes[place])
}

/// The bytes: `TooLong` (6) where there are more than an input may have.
#[tactic(auto, unfolding(crate::specs::Contents::within_limit))]
pub(crate) fn within_limit(bytes: Vec<u8>) -> Result<Vec<u8>, ExchangeError>
    ensures { GivesBytes (within_limit bytes.items) result }
{
    if bytes.len() > INPUT_LIMIT {
        return Err(TOO_LONG);
    }
    Ok(bytes)
}

impl<S: Suite> Exchange<S> {
    /// The exchange of these parts.
    pub fn new(alloc: Global, parts: Parts) -> Exchange<S>
        ensures { result ≡ state_of parts }
    {
        Exchange {
            parts,
            alloc,
            suite: PhantomData,
        }
    }

    /// The group's identifier.
    pub fn group_id(&self) -> &[u8]
        ensures { result.now ≡ self.now.group_id }
    {
        self.parts.group_id.as_slice()
    }

    /// The number of the epoch.
    pub fn epoch(&self) -> u64
        ensures { result ≡ self.now.epoch }
    {
        self.parts.epoch
    }

    /// The index of the member's leaf.
    pub fn leaf_index(&self) -> u32
        ensures { result ≡ self.now.leaf }
    {
        self.parts.leaf
    }

    /// The leaf of the member at an index, as the tree of the epoch has it, or None where that is blank or outside.
    pub fn leaf_at(&self, leaf: u32) -> Option<&LeafNode>
        ensures { option_copied result ≡ member_at self.now.nodes leaf }
    {
        member_at(&self.parts.nodes, leaf)
    }
}
