//! Places of faults.

ghost use Rattle.std.specs.Prelude.{◌≡◌, [], ◌+◌, ◌<◌, ◌≤◌, ◌^◌};
ghost use Rattle.mls_leaf.specs.Faults.{number_of};
ghost use Rattle.mls_cli_place.specs.Place.{of_whole, place_of};
ghost use Rattle.mls_cli_place.specs.Walk.{before, enclosed_by, outwards};

use crate::step::Step;
use arrayvec::ArrayVec;
use mls_leaf::LeafError;
use std::marker::Model;

/// The steps to a field, from the innermost on. At most 16 are kept.
#[derive(Debug)]
pub struct Path {
    steps: ArrayVec<Step, 16>,
}

impl Model for Path {
    ghost use Rattle.std.specs.Prelude.{List};
    ghost use Rattle.mls_cli_place.specs.declared.step.Step.{Step};

    ghost Value = { List Step };

    ghost view = { λ p. p.steps.items };
}

// By hand, so that a drop is one call for the proofs of those that hold a path.
impl Drop for Path {
    fn drop(self) {
        let Path { steps: _ } = self;
    }
}

/// Where bytes that are refused have their first fault.
#[derive(Debug, Drop)]
pub struct Place {
    /// How many bytes stand before the field.
    pub offset: usize,
    /// The field, and those that it is in.
    pub path: Path,
    /// The fault's number.
    pub fault: u8,
}

/// A fault that was found: a place, counted from the end of the bytes that were read.
#[derive(Debug, Drop)]
pub(crate) struct Found {
    /// How many bytes are left where the field begins.
    pub(crate) left: usize,
    /// The field, and those that it is in.
    pub(crate) path: Path,
    /// The fault's number.
    pub(crate) fault: u8,
}

impl Path {
    /// No step.
    pub(crate) fn empty() -> Path
        ensures { result ≡ [] }
    {
        Path {
            steps: ArrayVec::new(),
        }
    }

    /// The path with a step further outwards, where fewer than 16 are kept.
    pub(crate) fn outwards(self, step: Step) -> Path
        ensures { result ≡ outwards step self }
    {
        let Path { mut steps } = self;
        if !steps.is_full() {
            steps.push(step);
        }
        Path { steps }
    }

    /// The steps, from the innermost on.
    pub fn as_slice(&self) -> &[Step]
        ensures { result.now ≡ self.now }
    {
        self.steps.as_slice()
    }
}

impl Found {
    /// A fault in no field yet, where so many bytes are left.
    pub(crate) fn at(left: usize, error: LeafError) -> Found
        ensures { result ≡ record { left = left; path = []; fault = number_of error } }
    {
        Found {
            left,
            path: Path::empty(),
            fault: error.number(),
        }
    }

    /// The fault as one inside a field or an item.
    pub(crate) fn inside(self, step: Step) -> Found
        ensures { result ≡ enclosed_by step self }
    {
        let Found { left, path, fault } = self;
        Found {
            left,
            path: path.outwards(step),
            fault,
        }
    }

    /// The fault as one of the whole, where it is in no field.
    pub(crate) fn of_whole(self, whole: Step) -> Found
        ensures { result ≡ of_whole whole self }
    {
        if self.path.as_slice().is_empty() {
            return self.inside(whole);
        }
        self
    }

    /// The fault as one in front of so many bytes.
    pub(crate) fn before(self, behind: usize) -> Found
        requires { self.left + behind < 2 ^ 64 }
        ensures { result ≡ before behind self }
    {
        let Found { left, path, fault } = self;
        Found {
            left: left + behind,
            path,
            fault,
        }
    }

    /// The place in so many bytes.
    pub(crate) fn from_front(self, size: usize) -> Place
        requires { self.left ≤ size }
        ensures { result ≡ place_of size self }
    {
        let Found { left, path, fault } = self;
        Place {
            offset: size - left,
            path,
            fault,
        }
    }
}
