//! The replies to a list of events.

ghost use Rattle.mls_world.specs.Runs.{RunsAll};

use mls_model::{Event, Reply};
use mls_suite::{OutOfMemory, Suite};
use mls_world_plain::PlainWorld;

/// Runs the events in order, with a reply to each, up to the first that finds no memory. The room for a reply is made
/// before its event happens.
pub(crate) fn push_replies<S: Suite>(
    world: &mut PlainWorld<S>,
    events: &[Event],
    replies: &mut Vec<Reply>,
) -> Result<(), OutOfMemory>
    ensures { RunsAll S.crypto events.now world.old world.new replies.old replies.new result }
{
    for event in events {
        replies.reserve(1)?;
        let reply = world.step(event)?;
        replies.push_reserved(reply);
    }
    Ok(())
}
