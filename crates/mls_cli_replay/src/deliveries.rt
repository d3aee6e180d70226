//! A message, delivered to each active member.

ghost use Rattle.std.specs.Prelude.{◌≡◌};
ghost use Rattle.mls_cli_replay.specs.Actions.{deliveries, deliveries_to_all, no_deliveries, tally_with, tally_with_effect, DeliversOnce, HasRoom, RepliesOnce, RunsAll, RunsPart, Tallies};

use mls_model::{Effect, Reply, Source};
use mls_suite::{OutOfMemory, Suite};
use mls_world::World;
use std::alloc::{AllocError, Global};

/// How many deliveries had each kind of reply.
#[derive(Clone, Copy, Debug, PartialEq, Eq)]
pub struct Tally {
    pub proposed: usize,
    pub known: usize,
    pub advanced: usize,
    pub removed: usize,
    pub refused: usize,
}

/// Of no deliveries.
fn no_deliveries() -> Tally
    ensures { result ≡ no_deliveries }
{
    Tally {
        proposed: 0,
        known: 0,
        advanced: 0,
        removed: 0,
        refused: 0,
    }
}

/// Counts one more delivery, which did this.
fn tally_with_effect(tally: Tally, effect: Effect) -> Tally
    requires { HasRoom tally }
    ensures { result ≡ tally_with_effect tally effect }
{
    match effect {
        Effect::Proposed { .. } => Tally {
            proposed: tally.proposed + 1,
            ..tally
        },
        Effect::Known { .. } => Tally {
            known: tally.known + 1,
            ..tally
        },
        Effect::Advanced { .. } => Tally {
            advanced: tally.advanced + 1,
            ..tally
        },
        Effect::Removed => Tally {
            removed: tally.removed + 1,
            ..tally
        },
    }
}

/// Counts one more reply to a delivery.
fn tally_with(tally: Tally, reply: Reply) -> Tally
    requires { HasRoom tally }
    ensures { result ≡ tally_with tally reply }
{
    match reply {
        Reply::Delivered { effect } => tally_with_effect(tally, effect),
        Reply::Candidate { .. }
        | Reply::Created { .. }
        | Reply::Proposal { .. }
        | Reply::Commit { .. }
        | Reply::Dropped { .. }
        | Reply::Joined { .. }
        | Reply::Refused { .. } => Tally {
            refused: tally.refused + 1,
            ..tally
        },
    }
}

/// Delivers a source to a member: a refusal is the reply; `OutOfMemory` leaves the world as before.
#[tactic(auto, unfolding(mls_model::specs::Run::step, mls_model::specs::Run::answer))]
fn deliver<S: Suite>(
    world: &mut World<S>,
    member: usize,
    source: &Source,
) -> Result<Reply, OutOfMemory>
    ensures does { DeliversOnce S.crypto world.old world.new member source.now result }
    // `NoSuchMember` (90), `NoSuchMessage` (94) and what the member refuses before anything grows are the reply also
    // when an allocation fails.
    ensures early { RepliesOnce S.crypto world.old world.new member source.now result }
{
    match world.deliver(member, source) {
        Ok(effect) => Ok(Reply::Delivered { effect }),
        Err(error) => match error.number() {
            // Want of memory: 1 is its number, and that of no other refusal.
            1 => Err(AllocError),
            number => Ok(Reply::Refused { number }),
        },
    }
}

/// Delivers a source to these members in order, and counts the replies. Where memory is wanting, those before are
/// delivered.
fn deliver_to<S: Suite>(
    world: &mut World<S>,
    members: &[usize],
    source: &Source,
) -> Result<Tally, OutOfMemory>
    ensures world { RunsAll S.crypto world.old world.new
        (deliveries source.now members.now) result }
    ensures tally { Tallies S.crypto world.old (deliveries source.now members.now) result }
    ensures part { RunsPart S.crypto world.old world.new
        (deliveries source.now members.now) result }
{
    let mut tally = no_deliveries();
    for member in members {
        let reply = deliver(world, *member, source)?;
        tally = tally_with(tally, reply);
    }
    Ok(tally)
}

/// Delivers a source to each member that is active now, in order of their numbers, and counts the replies. Where memory
/// is wanting, some are delivered.
pub fn deliver_to_all<S: Suite>(
    alloc: Global,
    world: &mut World<S>,
    source: &Source,
) -> Result<Tally, OutOfMemory>
    ensures world { RunsAll S.crypto world.old world.new
        (deliveries_to_all world.old source.now) result }
    ensures tally { Tallies S.crypto world.old (deliveries_to_all world.old source.now) result }
    ensures part { RunsPart S.crypto world.old world.new
        (deliveries_to_all world.old source.now) result }
{
    let members: Vec<usize> = world.active().collect(alloc)?;
    deliver_to(world, members.as_slice(), source)
}
