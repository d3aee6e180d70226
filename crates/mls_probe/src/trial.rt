//! A call made twice.

ghost use Rattle.mls_probe.specs.Calls.{IsShortCall};

use crate::call::{Call, answer_of};
use crate::page::{print_answer, print_candidate, print_joined, print_member};
use anyhow::Result;
use mls_member::{Candidate, Joined, Member, Refusal};
use mls_suite::Glass;
use std::alloc::Global;

/// The line before the call under trial.
pub(crate) const BEGIN: &str = "call: begins";
/// The line behind it.
pub(crate) const END: &str = "call: ends";

/// A call under trial, with what it is made on.
pub(crate) trait Trial {
    /// What it answers.
    type Answer: Drop;

    /// Prints all that is held.
    fn print_held(&self, rt: &impl Print, alloc: Global, part: &str) -> Result<()>;

    /// Makes the call.
    fn call(&mut self, alloc: Global) -> Self::Answer;

    /// Prints what the call answered.
    fn print_answer(
        &self,
        rt: &impl Print,
        alloc: Global,
        part: &str,
        answer: Self::Answer,
    ) -> Result<()>;
}

/// The call under trial: its answer, between lines that say where it begins and ends.
fn print_first(
    rt: &impl Print,
    alloc: Global,
    member: &mut Member<Glass>,
    call: &Call,
) -> Result<()>
    requires { IsShortCall call.now }
{
    rt.println(BEGIN)?;
    let answer = answer_of(member, call);
    let ended = rt.println(END);
    print_answer(rt, alloc, "answer", answer)?;
    Ok(ended?)
}

/// Both calls, with what the member shows around them.
fn call_twice(
    rt: &impl Print,
    alloc: Global,
    member: &mut Member<Glass>,
    call: &Call,
    reference: &[u8],
) -> Result<()>
    requires { IsShortCall call.now }
{
    print_member(rt, alloc, "before", member, reference)?;
    print_first(rt, alloc, member, call)?;
    print_member(rt, alloc, "after", member, reference)?;
    print_answer(rt, alloc, "again", answer_of(member, call))?;
    print_member(rt, alloc, "last", member, reference)
}

/// A call on a member, which is shown with the proposal of a reference.
pub(crate) fn try_call(
    rt: &impl Print,
    alloc: Global,
    member: &mut Member<Glass>,
    call: Call,
    reference: &[u8],
) -> Result<()>
    requires { IsShortCall call }
{
    call_twice(rt, alloc, member, &call, reference)
}

/// The first of two calls, between lines that say where it begins and ends.
fn print_first_call<T: Trial>(rt: &impl Print, alloc: Global, trial: &mut T) -> Result<()> {
    rt.println(BEGIN)?;
    let answer = trial.call(alloc);
    let ended = rt.println(END);
    trial.print_answer(rt, alloc, "answer", answer)?;
    Ok(ended?)
}

/// Both calls, with what is held around them.
pub(crate) fn try_twice<T: Trial>(rt: &impl Print, alloc: Global, trial: &mut T) -> Result<()> {
    trial.print_held(rt, alloc, "before")?;
    print_first_call(rt, alloc, trial)?;
    trial.print_held(rt, alloc, "after")?;
    let answer = trial.call(alloc);
    trial.print_answer(rt, alloc, "again", answer)?;
    trial.print_held(rt, alloc, "last")
}

/// A candidate that joins by a Welcome.
#[derive(Drop)]
pub(crate) struct Joining {
    pub candidate: Box<Candidate<Glass>>,
    pub welcome: Vec<u8>,
}

impl Trial for Joining {
    type Answer = Result<Joined<Glass>, Refusal>;

    fn print_held(&self, rt: &impl Print, alloc: Global, part: &str) -> Result<()> {
        print_candidate(rt, alloc, part, &self.candidate)
    }

    fn call(&mut self, alloc: Global) -> Result<Joined<Glass>, Refusal> {
        Member::join(alloc, &self.candidate, &self.welcome)
    }

    fn print_answer(
        &self,
        rt: &impl Print,
        alloc: Global,
        part: &str,
        answer: Result<Joined<Glass>, Refusal>,
    ) -> Result<()> {
        print_joined(rt, alloc, part, answer)
    }
}
