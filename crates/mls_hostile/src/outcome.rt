//! What a message is answered.

use mls_model::Effect;
use std::alloc::{AllocError, Global};
use std::fmt;

/// What a member or a candidate answers to bytes.
#[derive(Clone, Copy, Debug, PartialEq, Eq)]
pub enum Outcome {
    Proposed,
    Known,
    Advanced(u64),
    Removed,
    /// A candidate became a member, in this epoch.
    Joined(u64),
    Refused(u8),
}

impl Outcome {
    /// What a member did.
    pub fn of(effect: Effect) -> Outcome {
        match effect {
            Effect::Proposed { .. } => Outcome::Proposed,
            Effect::Known { .. } => Outcome::Known,
            Effect::Advanced { epoch } => Outcome::Advanced(epoch),
            Effect::Removed => Outcome::Removed,
        }
    }

    /// Whether it is a refusal.
    pub fn is_refused(self) -> bool {
        matches!(self, Outcome::Refused(_))
    }
}

impl fmt::Display for Outcome {
    fn fmt<W: fmt::Write>(&self, f: &mut fmt::Formatter<W>) -> fmt::Result {
        match self {
            Outcome::Proposed => write!(f, "proposed"),
            Outcome::Known => write!(f, "known"),
            Outcome::Advanced(epoch) => write!(f, "advanced to {epoch}"),
            Outcome::Removed => write!(f, "removed"),
            Outcome::Joined(epoch) => write!(f, "joined in {epoch}"),
            Outcome::Refused(number) => write!(f, "{number}"),
        }
    }
}

/// Places in a row that have one outcome.
#[derive(Clone, Copy)]
pub struct Run {
    first: usize,
    last: usize,
    outcome: Outcome,
}

impl Run {
    /// Whether a place is its last or the next one.
    fn goes_on(&self, place: usize) -> bool {
        place == self.last || place == self.last.saturating_add(1)
    }
}

impl fmt::Display for Run {
    fn fmt<W: fmt::Write>(&self, f: &mut fmt::Formatter<W>) -> fmt::Result {
        let Run {
            first,
            last,
            outcome,
        } = *self;
        if first == last {
            write!(f, "{first}: {outcome}")
        } else {
            write!(f, "{first} to {last}: {outcome}")
        }
    }
}

/// The outcomes of places, one after another.
#[derive(Drop)]
pub struct Runs {
    runs: Vec<Run>,
}

impl Runs {
    /// No place.
    pub fn new(alloc: Global) -> Runs {
        Runs {
            runs: Vec::new(alloc),
        }
    }

    /// The next place.
    pub fn add(&mut self, place: usize, outcome: Outcome) -> Result<(), AllocError> {
        if let Some(run) = self.runs.last_mut() {
            if run.outcome == outcome && run.goes_on(place) {
                run.last = place;
                return Ok(());
            }
        }
        self.runs.push(Run {
            first: place,
            last: place,
            outcome,
        })?;
        Ok(())
    }

    /// Runs of places with one outcome, in order.
    pub fn as_slice(&self) -> &[Run] {
        self.runs.as_slice()
    }
}

/// How often each number was answered, how often bytes were taken, and at which places they were turned then.
#[derive(Drop)]
pub struct Tally {
    taken: u64,
    places: Runs,
    refused: Vec<u64>,
}

impl Tally {
    /// Nothing answered.
    pub fn new(alloc: Global) -> Result<Tally, AllocError> {
        let refused = vec![in alloc; 0; 256]?;
        Ok(Tally {
            taken: 0,
            places: Runs::new(alloc),
            refused,
        })
    }

    /// What other bytes are answered.
    pub fn add(&mut self, outcome: Outcome) {
        match outcome {
            Outcome::Refused(number) => {
                if let Some(count) = self.refused.get_mut(usize::from(number)) {
                    *count = count.saturating_add(1);
                }
            }
            _ => self.taken = self.taken.saturating_add(1),
        }
    }

    /// What bytes are answered of which this one was turned.
    pub fn add_at(&mut self, place: usize, outcome: Outcome) -> Result<(), AllocError> {
        self.add(outcome);
        if outcome.is_refused() {
            return Ok(());
        }
        self.places.add(place, outcome)
    }

    /// The places of bytes that were turned and taken.
    pub fn places(&self) -> &[Run] {
        self.places.as_slice()
    }

    /// How often bytes were taken.
    pub fn taken_count(&self) -> u64 {
        self.taken
    }

    /// Each number with how often it was answered.
    pub fn refusal_counts(&self) -> &[u64] {
        self.refused.as_slice()
    }
}
