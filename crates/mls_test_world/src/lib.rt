//! Callers of worlds: two that need no more than what `run` promises, and the same under suite 0x0001.
#![tactic(auto)]

ghost use Rattle.std.specs.Prelude.{◌≡◌, IfOk};
ghost use Rattle.mls_model.specs.Headline.{AgreeSecretIfHomemade};
ghost use Rattle.mls_model.specs.Run as model;
ghost use Rattle.mls_model.specs.World.{empty_world};
ghost use Rattle.mls_test_world.specs.FirstReplies.{AreReplied};

mod deliveries;
mod suite_0001;

pub use deliveries::deliver_commit;
use mls_model::{Event, Reply};
use mls_suite::{OutOfMemory, Suite};
use mls_world::World;
use std::alloc::Global;
pub use suite_0001::{deliver_commit_under_suite_0001, run_under_suite_0001};

/// Makes the world that a list of events leaves, with a reply to each. Two of its members that weren't removed, and
/// whose journals are one homemade journal, hold one epoch secret and the nine secrets that it gives: what `run`
/// promises shows it, with no proof beside it.
pub fn run_from_start<S: Suite>(
    alloc: Global,
    events: &[Event],
    replies: &mut Vec<Reply>,
) -> Result<World<S>, OutOfMemory>
    ensures ran { IfOk result (λ w. w ≡ model.run S.crypto empty_world events.now) }
    ensures replied { IfOk result (λ _. AreReplied S.crypto events.now replies.old replies.new) }
    ensures secret { IfOk result AgreeSecretIfHomemade }
{
    let mut world = World::new(alloc);
    world.run(events, replies)?;
    Ok(world)
}
