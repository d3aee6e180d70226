//! How far a replay has come.

ghost use Rattle.std.specs.Prelude.{ℕ, ◌≡◌};

/// What is told how far a replay has come.
pub trait Progress {
    // How a report changes it, of how many actions of how many.
    ghost reports: { Self → Self → ℕ → ℕ → Type 0 };

    /// Takes the report that so many actions of all are done.
    fn report(&mut self, done: usize, all: usize)
        ensures { reports self.old self.new done all };
}

/// What takes each report and tells nobody.
#[derive(Drop)]
pub struct Silent;

impl Progress for Silent {
    ghost reports = { λ old new _ _. new ≡ old };

    fn report(&mut self, _done: usize, _all: usize) {}
}
