//! Laws of secret trees. Each function does nothing, and its contract is the laws of one subject.

ghost use Rattle.mls_secret_tree.specs.Laws.{FirstIsFresh, KeysAreDerived, EachIsAnswered, UsedIsGone, WhateverOrder, NeverTwice};
ghost use Rattle.mls_secret_tree.specs.Generations.{UseMovesOn, NextNeverFalls};

/// The keys of a tree: from a tree at first all can be derived; each draft has the key that the encryption secret
/// gives, whatever keys were used before (RFC 9420, 9); and which keys are drafted, and which refused.
pub fn laws_of_keys()
    ensures first { FirstIsFresh }
    ensures derived { KeysAreDerived }
    ensures answered { EachIsAnswered }
    ensures whatever_order { WhateverOrder }
{}

/// Used keys: nothing that a used key is derived from is held any more, what others within the window are derived from
/// still is (RFC 9420, 9.2), and no key is drafted again once it was used.
pub fn laws_of_used_keys()
    ensures gone { UsedIsGone }
    ensures never_twice { NeverTwice }
{}

/// Generations: a used key lies before the next generation of its leaf, that of each other leaf stays, and whatever keys
/// are used, none falls (RFC 9420, 9.1).
pub fn laws_of_generations()
    ensures moves_on { UseMovesOn }
    ensures never_falls { NextNeverFalls }
{}
