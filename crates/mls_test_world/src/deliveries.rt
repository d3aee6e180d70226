//! A commit and its Welcome, delivered to all that they are for.

ghost use Rattle.std.specs.Prelude.{IfOk};
ghost use Rattle.mls_test_world.specs.Deliveries.{CommitsReachAll};
ghost use Rattle.mls_world.specs.Runs.{RunsAll};

use mls_model::{Event, Reply};
use mls_suite::{OutOfMemory, Suite};
use mls_world::World;

/// Delivers a commit and its Welcome in a world: runs the events, with a reply to each. Let them hand a commit that
/// was made at a homemade journal to active members with that journal, its maker that has it pending or others that
/// keep the proposals that it names, and its Welcome to candidates that it adds, each once. Then all of these that
/// the commit doesn't remove hold one public state, one epoch secret and the nine secrets that it gives: what `run`
/// promises shows it.
pub fn deliver_commit<S: Suite>(
    world: &mut World<S>,
    events: &[Event],
    replies: &mut Vec<Reply>,
) -> Result<(), OutOfMemory>
    ensures run { RunsAll S.crypto events.now world.old world.new replies.old replies.new result }
    ensures agree { IfOk result (λ _. CommitsReachAll world.old events.now world.new) }
{
    world.run(events, replies)
}
