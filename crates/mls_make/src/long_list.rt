//! Commits that give a list of extensions in full which no message has room for.

ghost use Rattle.std.specs.Prelude.{◌≡◌, ◌+◌, ◌<◌, ◌^◌};
ghost use Rattle.mls_make.specs.LongList.{RefusesLongList, give_long_list, gives_long_list, has_long_list};

use crate::error::MakeError;
use crate::own_path::own_path;
use mls_kdf::Seed;
use mls_leaf::{LeafError, Proposal};
use mls_message::Speaker;
use mls_public_group::{Edits, Used};
use mls_suite::Suite;
use mls_treekem::PrivatePath;
use mls_wire::WireError;
use std::alloc::Global;

/// Whether a proposal has a list of extensions that is longer than an input.
fn has_long_list(proposal: &Proposal) -> bool
    ensures { result ≡ has_long_list proposal.now }
{
    match proposal {
        Proposal::Add(_) => false,
        Proposal::Update(_) => false,
        Proposal::Remove(_) => false,
        Proposal::GroupContextExtensions(extensions) => !extensions.is_short(),
    }
}

/// Whether a commit gives such a proposal in full.
fn gives_long_list(used: &Used<'_>) -> bool
    ensures { result ≡ gives_long_list used.now }
{
    used.is_full && has_long_list(used.proposal)
}

/// Whether a commit gives one of these in full that has such a list. It takes no memory.
pub(crate) fn give_long_list(used: &[Used<'_>]) -> bool
    ensures { result ≡ give_long_list used.now }
{
    used.iter().any(|one| gives_long_list(one))
}

/// The refusal of a commit that gives such a list in full: that of its path, where one is wanted or required and
/// refused, and else `TooLong` (6), since no message has room for the list. Whether a path is refused doesn't depend on
/// the extensions that it is made for, so the group's own stand in for the list.
pub(crate) fn refuse_long_list<S: Suite>(
    alloc: Global,
    speaker: &Speaker<'_>,
    keys: &PrivatePath,
    edits: &Edits,
    used: &[Used<'_>],
    wants_path: bool,
    seed: &Seed,
) -> MakeError
    requires { speaker.now.group.now.context.epoch + 1 < 2 ^ 64 }
    ensures { RefusesLongList S.crypto speaker.now keys.now edits.now used.now
        wants_path seed.now result }
{
    speaker.group.is_short();
    let stand_in = &speaker.group.context().extensions;
    let own = match own_path::<S>(
        alloc, speaker, keys, stand_in, edits, used, wants_path, seed,
    ) {
        Ok(own) => own,
        Err(error) => return error,
    };
    drop(own);
    MakeError::Leaf(LeafError::Wire(WireError::TooLong))
}
