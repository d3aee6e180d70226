//! Laws of exchanges. Each function does nothing, and its contract is the laws of one subject.

ghost use Rattle.mls_exchange.specs.Laws.{SealedArrives, OpenedIsGenuine, SealingUsesKey, OpeningUsesKey, CallsStayInEpoch, GoneStaysGone};
ghost use Rattle.mls_exchange.specs.Generations.{NextNeverFalls, OpenedLiesBehind, SealsLater, OpensOnce, StaysHeld, ArrivesInAnyOrder};

use mls_suite::Suite;

/// A law: for every lawful suite, what a member seals opens at each other member of its epoch, as long as the key can be
/// derived there within the window, with the sender's leaf and identity, the generation and the very data (RFC 9420, 6.3).
pub fn sealed_arrives<S: Suite>()
    ensures { SealedArrives S.crypto }
{}

/// A law: what opens is of the epoch, opens under the key that the encryption secret gives the sender's leaf in the
/// message's generation, and is signed by the member at that leaf (RFC 9420, 6.1 and 6.3).
pub fn opened_is_genuine<S: Suite>()
    ensures { OpenedIsGenuine S.crypto }
{}

/// Laws: sealing and opening use a key each, and nothing that it is derived from is held afterwards; whatever is called
/// later, no message opens under it, and none is sealed (RFC 9420, 9.2).
pub fn used_keys_are_gone<S: Suite>()
    ensures sealing { SealingUsesKey S.crypto }
    ensures opening { OpeningUsesKey S.crypto }
    ensures stays { GoneStaysGone S.crypto }
{}

/// A law: whatever is called, an exchange stays in its epoch, with its own leaf and signature key.
pub fn calls_stay_in_epoch<S: Suite>()
    ensures { CallsStayInEpoch S.crypto }
{}

/// Laws: whatever is called, no next generation falls; what opened lies before it, and each message that a member seals
/// takes a later generation than those before.
pub fn generations_never_fall<S: Suite>()
    ensures next { NextNeverFalls S.crypto }
    ensures opened { OpenedLiesBehind S.crypto }
    ensures sealed { SealsLater S.crypto }
{}

/// A law: once it was opened, a message is refused with `KeyUsed` (116), whatever is called in between.
pub fn opens_once<S: Suite>()
    ensures { OpensOnce S.crypto }
{}

/// Laws: a key that can be derived still can be after calls that use other keys and leave it within the window; so for
/// every lawful suite what a member seals opens at each other member of its epoch, once, after whatever that sealed and
/// opened in between, in whatever order (RFC 9420, 6.3 and 9.1).
pub fn arrives_in_any_order<S: Suite>()
    ensures stays { StaysHeld S.crypto }
    ensures arrives { ArrivesInAnyOrder S.crypto }
{}
