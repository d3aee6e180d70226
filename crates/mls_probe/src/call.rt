//! Calls on a member, and their answers.

ghost use Rattle.std.specs.Prelude.{IfOk};
ghost use Rattle.mls_member.specs.Answers.{IsShortItem};
ghost use Rattle.mls_probe.specs.Calls.{IsShortCall};

use anyhow::Result;
use mls_kdf::Seed;
use mls_leaf::GroupExtensions;
use mls_member::{Candidate, Effect, Item, Made, Member, Refusal};
use mls_suite::Glass;

/// A call on a member.
#[derive(Drop)]
pub(crate) enum Call {
    /// Commits a list, with a path.
    Commit(Vec<Item>, Seed),
    Process(Vec<u8>),
    ProposeAdd(Box<Candidate<Glass>>),
    ProposeUpdate(Seed),
    ProposeRemove(u32),
    ProposeExtensions(GroupExtensions),
}

/// What a call answers.
#[derive(Drop)]
pub(crate) enum Answer {
    Made(Made),
    Did(Effect),
    Message(Vec<u8>),
}

/// The proposal that adds a candidate.
pub(crate) fn addition(candidate: &Candidate<Glass>) -> Result<Item>
    ensures { IfOk result IsShortItem }
{
    Ok(Item::Full(candidate.addition()?))
}

/// The message of the proposal to add a candidate.
fn propose_candidate(
    member: &mut Member<Glass>,
    candidate: &Candidate<Glass>,
) -> Result<Vec<u8>, Refusal> {
    candidate.is_short();
    member.propose_add(candidate.key_package())
}

/// What a member answers to a call.
pub(crate) fn answer_of(member: &mut Member<Glass>, call: &Call) -> Result<Answer, Refusal>
    requires { IsShortCall call.now }
{
    match call {
        Call::Commit(items, seed) => Ok(Answer::Made(member.commit(items, true, seed)?)),
        Call::Process(bytes) => Ok(Answer::Did(member.process(bytes)?)),
        Call::ProposeAdd(candidate) => Ok(Answer::Message(propose_candidate(member, candidate)?)),
        Call::ProposeUpdate(seed) => Ok(Answer::Message(member.propose_update(seed)?)),
        Call::ProposeRemove(leaf) => Ok(Answer::Message(member.propose_remove(*leaf)?)),
        Call::ProposeExtensions(list) => {
            Ok(Answer::Message(member.propose_extensions(list.clone()?)?))
        }
    }
}
