//! Laws of conversations. Each function does nothing, and its contract is the law.

ghost use Rattle.mls_conversation.specs.Laws.{MembersShare, FreshCanOpen, ArrivesAtMembers, SavedGoOn};
ghost use Rattle.mls_conversation.specs.Order.{ArriveOnceAtMembers};
ghost use Rattle.mls_conversation.specs.Together.{TogetherShare, TogetherConverse};

use mls_suite::Suite;

/// A law: good members that share an epoch have conversations of one epoch, in which their own leaves stand.
pub fn conversations_share<S: Suite>()
    ensures { MembersShare S.crypto }
{}

/// A law: a conversation at first can open each generation of each leaf up to the window.
pub fn fresh_keys()
    ensures { FreshCanOpen }
{}

/// A law: by the bytes that a conversation is saved as, whatever it sealed and opened before, the conversation at first of
/// its member goes on as it was.
pub fn saved_conversations_go_on<S: Suite>()
    ensures { SavedGoOn S.crypto }
{}

/// A law: for every lawful suite, what a member seals opens at each member that shares its epoch, whatever both sealed and
/// opened before, as long as the key can be derived there within the window (RFC 9420, 6.3).
pub fn sealed_arrives_at_members<S: Suite>()
    ensures { ArrivesAtMembers S.crypto }
{}

/// A law: for every lawful suite, what a member seals opens, once, at each member that shares its epoch, after whatever
/// both sealed and opened before, in whatever order, as long as that spared its key within the window.
pub fn arrives_once_at_members<S: Suite>()
    ensures { ArriveOnceAtMembers S.crypto }
{}

/// A law: for every lawful suite, two members of a world that have one homemade journal share an epoch.
pub fn members_share_epochs<S: Suite>()
    ensures { TogetherShare S.crypto }
{}

/// A law: for every lawful suite, two members of a world that have one homemade journal have conversations of one epoch,
/// and what one seals arrives at the other, once: with the sender's leaf and identity and the very data, in whatever order
/// messages come, each as long as its key was spared within the window (RFC 9420, 6.3 and 9).
pub fn messages_arrive<S: Suite>()
    ensures { TogetherConverse S.crypto }
{}
