//! A law of saved states. The function does nothing, and its contract is the law.

ghost use Rattle.mls_saved_state.specs.State.{LoadsWhatWasSaved};

/// A law: what was saved of a good member's epoch is loaded, and is what it was.
pub fn laws_of_saved_states()
    ensures { LoadsWhatWasSaved }
{}
