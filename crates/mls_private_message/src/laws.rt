//! Laws of private messages. Each function does nothing, and its contract is the law.

ghost use Rattle.mls_private_message.specs.Laws.{ContentsAreExact, SealedOpens};

use mls_suite::Suite;

/// A law: a content is read as it was written, and what is read was written so, with some padding of zeros.
pub fn contents_are_exact()
    ensures { ContentsAreExact }
{}

/// A law: for every lawful suite, sender data and content of a message open as they were sealed.
pub fn sealed_opens<S: Suite>()
    ensures { SealedOpens S.crypto }
{}
