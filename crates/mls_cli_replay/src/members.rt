//! The lines of members.

ghost use Rattle.std.specs.Prelude.{◌≡◌, ◌≢◌, IfErr};
ghost use Rattle.mls_cli_text.specs.InputOutput.{write_failed, Writes, WritesPart};
ghost use Rattle.mls_cli_replay.specs.Replay.{entry_of, member_entry, members_text};

use crate::line::ReplayLine;
use mls_cli_text::{Fault, Output, print};
use mls_suite::Suite;
use mls_world::{Member, World};
use std::alloc::Global;

/// Makes the line of a member.
pub fn member_line<S: Suite>(number: usize, member: &Member<S>) -> ReplayLine<'_>
    ensures { entry_of result ≡ member_entry number member.now }
{
    if member.is_gone() {
        return ReplayLine::Gone { member: number };
    }
    ReplayLine::Present {
        member: number,
        leaf: member.leaf_index(),
        epoch: member.epoch(),
        tree: member.group().context().tree_hash.as_slice(),
        authenticator: member.secrets().epoch_authenticator(),
    }
}

/// Prints a line for each member.
pub fn print_members<S: Suite, O: Output>(
    alloc: Global,
    world: &World<S>,
    out: &mut O,
) -> Result<(), Fault>
    ensures whole { Writes O.contents out.old out.new (members_text world.now.seats) result }
    ensures part { WritesPart O.contents out.old out.new (members_text world.now.seats) result }
    ensures fault { O.failed out.new ≡ write_failed (O.failed out.old) result }
    ensures written { IfErr result (λ e. e ≢ Fault.Read) }
{
    for number in 0..world.member_count() {
        match world.member(number) {
            Some(member) => print(alloc, &member_line(number, member), out)?,
            None => return Ok(()),
        }
    }
    Ok(())
}
