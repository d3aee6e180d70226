//! A conversation.

ghost use Rattle.std.specs.Prelude.{◌≡◌, IfOk};
ghost use Rattle.std.specs.Option.{option_copied};
ghost use Rattle.mls_exchange.specs.State.{member_at};
ghost use Rattle.mls_exchange.specs.Calls.{Seals, RefusesSealing, Opens, RefusesArrival, RefusesOutright, Restores};
ghost use Rattle.mls_exchange.specs.Saved.{saved_of, Saves, saved_at, RestoresAsWas};
ghost use Rattle.mls_conversation.specs.Conversation.{MakesConversation, RefusesConversation, TakesParts};

use crate::ConversationError;
use mls_exchange::{Exchange, ExchangeError, Opened, Parts};
use mls_kdf::Seed;
use mls_leaf::{LeafError, LeafNode};
use mls_member::Member;
use mls_secret_tree::SecretTree;
use mls_suite::Suite;
use std::alloc::Global;
use std::marker::Model;

/// What one member seals and opens the application messages of one epoch with (RFC 9420, 6.3 and 9).
pub struct Conversation<S: Suite> {
    exchange: Exchange<S>,
}

impl<S: Suite> Drop for Conversation<S> {
    fn drop(self) {
        let Conversation { exchange: _ } = self;
    }
}

impl<S: Suite> Model for Conversation<S> {
    ghost use Rattle.mls_exchange.specs.State.{State};
    ghost use Rattle.mls_secret_tree.specs.TreeCodes.{coded_tree};
    ghost use Rattle.std.specs.Coded.{codes};

    ghost Value = { State };

    ghost coded = { Prim.hlevel (codes, coded_tree) };

    ghost view = { λ c. c.exchange };
}

/// What a member exchanges application messages of its epoch with, over a secret tree. It shares the nodes of the
/// member's ratchet tree.
#[tactic(auto, unfolding(crate::specs::Conversation::state_with))]
fn parts_of<S: Suite>(
    alloc: Global,
    member: &Member<S>,
    keys: SecretTree,
) -> Result<Parts, ConversationError>
    ensures { TakesParts member.now keys result }
{
    let group_id = member.group().context().group_id.clone()?;
    let context = Vec::from_slice(alloc, member.context_bytes())?;
    let nodes = member.group().tree().to_nodes()?;
    Ok(Parts {
        group_id,
        epoch: member.epoch(),
        context,
        sender_data_secret: *member.secrets().sender_data_secret(),
        keys,
        nodes,
        leaf: member.leaf_index(),
        signing: *member.signing_key(),
    })
}

impl<S: Suite> Conversation<S> {
    /// The conversation of a member in its epoch, in which no key was used yet. `Gone` (40) where the member was removed;
    /// `TreeShape` (20) where its tree has no height, which no good member's answers. Whoever makes two conversations of
    /// one member in one epoch must not seal with both: they begin with the same keys. So of a member
    /// that was loaded, and may have sealed in its epoch before, it has to go on by `restore`, or the member commits first;
    /// as it is, it opens what the whole epoch sealed.
    pub fn of(alloc: Global, member: &Member<S>) -> Result<Conversation<S>, ConversationError>
        ensures answer { MakesConversation member.now result }
        // Both numbers come also when an allocation fails.
        ensures outright { RefusesConversation member.now result }
    {
        if member.is_gone() {
            return Err(ConversationError::Gone);
        }
        let leaves = member.group().tree().leaf_count();
        let Some(keys) = SecretTree::new(member.secrets().encryption_secret(), leaves) else {
            return Err(ConversationError::TreeShape);
        };
        let parts = parts_of(alloc, member, keys)?;
        Ok(Conversation {
            exchange: Exchange::new(alloc, parts),
        })
    }

    /// The number of the epoch.
    pub fn epoch(&self) -> u64
        ensures { result ≡ self.now.epoch }
    {
        self.exchange.epoch()
    }

    /// The group's identifier.
    pub fn group_id(&self) -> &[u8]
        ensures { result.now ≡ self.now.group_id }
    {
        self.exchange.group_id()
    }

    /// The leaf of the member at an index, as the tree of this epoch has it, or None where that is blank or outside: the
    /// member may have left since, and another may have its leaf.
    pub fn leaf_at(&self, leaf: u32) -> Option<&LeafNode>
        ensures { option_copied result ≡ member_at self.now.nodes leaf }
    {
        self.exchange.leaf_at(leaf)
    }

    /// Seals application data, with authenticated data that isn't encrypted and so many bytes of padding, under the key of
    /// the member's next generation (RFC 9420, 6.3 and 9.1), which is gone afterwards. The seed gives the reuse guard.
    /// `RatchetSpent` (110) after the last generation, `TooLong` (6) where an argument, what is signed, the content or the
    /// message is longer than an input may be. A refusal changes nothing.
    pub fn seal(
        &mut self,
        application_data: &[u8],
        authenticated_data: &[u8],
        padding: usize,
        seed: &Seed,
    ) -> Result<Vec<u8>, ExchangeError>
        ensures answer { Seals S.crypto application_data.now authenticated_data.now padding seed.now
            self.old self.new result }
        // 110, and 6 of the arguments, come also when an allocation fails.
        ensures outright { RefusesSealing self.old application_data.now authenticated_data.now
            padding result }
    {
        self.exchange
            .seal(application_data, authenticated_data, padding, seed)
    }

    /// Opens a message of the epoch (RFC 9420, 6.3), whoever sent it; its key is gone afterwards. The first fault of
    /// bytes that are no PrivateMessage with application data; `OtherGroup` (111), `OtherEpoch` (112);
    /// `SenderDataUnreadable` (113) the sender data doesn't open, `SenderWithoutLeaf` (114) no member is at the sender's
    /// leaf, `GenerationTooFar` (115) its generation is too far ahead, `KeyUsed` (116) its key was used,
    /// `ContentUnreadable` (117) the content doesn't open; `TooLong` (6) the content or what is signed is longer than an
    /// input may be; the content's first fault, `PaddingNotZero` (118) its padding isn't zeros, `BadMessageSignature`
    /// (119) its signature doesn't verify. A refusal changes nothing.
    pub fn open(&mut self, bytes: &[u8]) -> Result<Opened, ExchangeError>
        ensures answer { Opens S.crypto bytes.now self.old self.new result }
        // Faults of the bytes, 111 and 112 come also when an allocation fails.
        ensures outright { RefusesArrival self.old bytes.now result }
    {
        self.exchange.open(bytes)
    }

    /// The conversation as bytes, with which another of the same member and epoch goes on by `restore`: the group, the
    /// epoch, the leaf and the secrets that keys not used yet are derived from. `TooLong` (6) where there are more bytes
    /// than an input has. What `seal` made is to be stored with them and sent only then: a key of an older save would
    /// be used twice.
    pub fn save(&self) -> Result<Vec<u8>, LeafError>
        ensures saved { Saves (saved_of self.now) result }
        // By them the conversation goes on as it was.
        ensures restores { IfOk result (λ bytes. RestoresAsWas self.now bytes.items) }
    {
        self.exchange.save()
    }

    /// Goes on as a conversation of the same member and epoch, which `save` made these bytes of; it holds the keys that
    /// they have, whoever made them. `KeyUsed` (116) where this one used a key already; the first fault of bytes that
    /// spell no saved form; `OtherGroup` (111), `OtherEpoch` (112), `BadTag` (7) of another leaf or of a tree of another
    /// height. A refusal changes nothing.
    pub fn restore(&mut self, bytes: &[u8]) -> Result<(), ExchangeError>
        ensures answer { Restores bytes.now self.old self.new result }
        // 116 and faults of the bytes come also when an allocation fails.
        ensures outright { RefusesOutright (saved_at self.old bytes.now) result }
    {
        self.exchange.restore(bytes)
    }
}
