//! Members and candidates, saved and loaded, each twice.

use crate::group::{Trio, Updated, candidate, commit_of};
use crate::page::{print_bytes, print_candidate, print_member, print_refusal};
use crate::trial::{Trial, try_twice};
use anyhow::Result;
use mls_candidate::{CandidateError, CandidateLoadError};
use mls_kdf::Secret;
use mls_leaf::LeafError;
use mls_member::{Candidate, LoadError, Member};
use mls_suite::Glass;
use std::alloc::Global;

/// A member that keeps proposals, and the reference of one of them.
#[derive(Drop)]
struct Busy {
    member: Box<Member<Glass>>,
    reference: Secret,
}

impl Busy {
    /// The first of three: it keeps an update of its own and one of the second, and its commit of that is pending.
    fn new(alloc: Global) -> Result<Busy> {
        let Updated {
            mut group,
            update,
            reference,
        } = Updated::new(alloc)?;
        group.first.propose_update(&[8; 32])?;
        commit_of(alloc, &mut group.first, &update, &reference)?;
        let Trio { first: member, .. } = group;
        Ok(Busy { member, reference })
    }

    /// Prints all that it shows.
    fn print(&self, rt: &impl Print, alloc: Global, part: &str) -> Result<()> {
        print_member(rt, alloc, part, &self.member, &self.reference)
    }
}

/// A member that is saved.
#[derive(Drop)]
struct Saving {
    busy: Busy,
}

impl Trial for Saving {
    type Answer = Result<Vec<u8>, LeafError>;

    fn print_held(&self, rt: &impl Print, alloc: Global, part: &str) -> Result<()> {
        self.busy.print(rt, alloc, part)
    }

    fn call(&mut self, _alloc: Global) -> Result<Vec<u8>, LeafError> {
        self.busy.member.save()
    }

    fn print_answer(
        &self,
        rt: &impl Print,
        alloc: Global,
        part: &str,
        answer: Result<Vec<u8>, LeafError>,
    ) -> Result<()> {
        match answer {
            Ok(bytes) => print_bytes(rt, alloc, part, "bytes", &bytes),
            Err(error) => print_refusal(rt, part, error.number(), error.name()),
        }
    }
}

/// A member is saved.
pub(crate) fn try_save(rt: &impl Print, alloc: Global) -> Result<()> {
    let busy = Busy::new(alloc)?;
    let mut saving = Saving { busy };
    try_twice(rt, alloc, &mut saving)
}

/// A member, and what it was saved as, which is loaded.
#[derive(Drop)]
struct Loading {
    busy: Busy,
    bytes: Vec<u8>,
}

impl Trial for Loading {
    type Answer = Result<Member<Glass>, LoadError>;

    fn print_held(&self, rt: &impl Print, alloc: Global, part: &str) -> Result<()> {
        self.busy.print(rt, alloc, part)
    }

    fn call(&mut self, alloc: Global) -> Result<Member<Glass>, LoadError> {
        Member::load(alloc, &self.bytes)
    }

    fn print_answer(
        &self,
        rt: &impl Print,
        alloc: Global,
        part: &str,
        answer: Result<Member<Glass>, LoadError>,
    ) -> Result<()> {
        match answer {
            Ok(member) => print_member(rt, alloc, part, &member, &self.busy.reference),
            Err(error) => print_refusal(rt, part, error.number(), error.name()),
        }
    }
}

/// What a member was saved as is loaded.
pub(crate) fn try_load(rt: &impl Print, alloc: Global) -> Result<()> {
    let busy = Busy::new(alloc)?;
    let bytes = busy.member.save()?;
    let mut loading = Loading { busy, bytes };
    try_twice(rt, alloc, &mut loading)
}

/// A candidate that is saved.
#[derive(Drop)]
struct SavingCandidate {
    candidate: Box<Candidate<Glass>>,
}

impl Trial for SavingCandidate {
    type Answer = Result<Vec<u8>, CandidateError>;

    fn print_held(&self, rt: &impl Print, alloc: Global, part: &str) -> Result<()> {
        print_candidate(rt, alloc, part, &self.candidate)
    }

    fn call(&mut self, alloc: Global) -> Result<Vec<u8>, CandidateError> {
        self.candidate.save(alloc)
    }

    fn print_answer(
        &self,
        rt: &impl Print,
        alloc: Global,
        part: &str,
        answer: Result<Vec<u8>, CandidateError>,
    ) -> Result<()> {
        match answer {
            Ok(bytes) => print_bytes(rt, alloc, part, "bytes", &bytes),
            Err(error) => print_refusal(rt, part, error.number(), error.name()),
        }
    }
}

/// A candidate is saved.
pub(crate) fn try_save_candidate(rt: &impl Print, alloc: Global) -> Result<()> {
    let candidate = candidate(alloc, b'd', 8)?;
    let mut saving = SavingCandidate { candidate };
    try_twice(rt, alloc, &mut saving)
}

/// A candidate, and what it was saved as, which is loaded.
#[derive(Drop)]
struct LoadingCandidate {
    candidate: Box<Candidate<Glass>>,
    bytes: Vec<u8>,
}

impl Trial for LoadingCandidate {
    type Answer = Result<Candidate<Glass>, CandidateLoadError>;

    fn print_held(&self, rt: &impl Print, alloc: Global, part: &str) -> Result<()> {
        print_candidate(rt, alloc, part, &self.candidate)
    }

    fn call(&mut self, alloc: Global) -> Result<Candidate<Glass>, CandidateLoadError> {
        Candidate::load(alloc, &self.bytes)
    }

    fn print_answer(
        &self,
        rt: &impl Print,
        alloc: Global,
        part: &str,
        answer: Result<Candidate<Glass>, CandidateLoadError>,
    ) -> Result<()> {
        match answer {
            Ok(candidate) => print_candidate(rt, alloc, part, &candidate),
            Err(error) => print_refusal(rt, part, error.number(), error.name()),
        }
    }
}

/// What a candidate was saved as is loaded.
pub(crate) fn try_load_candidate(rt: &impl Print, alloc: Global) -> Result<()> {
    let candidate = candidate(alloc, b'd', 8)?;
    let bytes = candidate.save(alloc)?;
    let mut loading = LoadingCandidate { candidate, bytes };
    try_twice(rt, alloc, &mut loading)
}
