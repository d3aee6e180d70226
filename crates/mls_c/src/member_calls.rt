//! Exports of the calls on members.

ghost use types.Logic.{sem};
ghost use Rattle.mls_c.specs.Memory.{Asked, asked_at, answered_at};
ghost use Rattle.mls_c.specs.Passing.{commits_at, finds_at, follows_at, gives_at, inspects_at, lists_at, loads_at, makes_at, takes_at, tells_at};
ghost use Rattle.mls_calls.specs.declared.call.Call.TheVariants.{MemberCreate, MemberJoin, MemberEpoch, MemberGroupId, MemberProcess, MemberProposeAdd, MemberProposeUpdate, MemberCommitKept, MemberProposeRemove, MemberDropPending, MemberLeafIndex, MemberSave, MemberLoad, MemberExport, MemberLeafCount, MemberAt, MemberProposeExtensions, MemberCommit, MemberInspect, MemberReference, MemberExtensions, MemberForgetProposal, MemberMissingProposal, MemberPendingCommit};

use crate::handle::Handle;
use crate::run::run_call;
use std::alloc::Global;

/// The group of a candidate alone, whose epoch secret is the seed (RFC 9420, 11).
#[unsafe(no_mangle)]
pub unsafe extern "C" fn mls_member_create(
    alloc: Global,
    candidate: *mut Handle,
    group_id: *const u8,
    group_id_length: usize,
    seed: *const u8,
    seed_length: usize,
    member: *mut *mut Handle,
) -> u32
    ghost asked: { Asked }
    requires* memory { sem 𝓛 (asked_at
        (gives_at candidate group_id group_id_length seed seed_length member) asked) }
    ensures* memory { sem 𝓛 (answered_at MemberCreate 0
        (gives_at candidate group_id group_id_length seed seed_length member) asked result) }
{
    run_call!(
        alloc,
        MemberCreate,
        handle = candidate,
        first = (group_id, group_id_length),
        second = (seed, seed_length),
        made = member
    )
}

/// The member that a Welcome makes of a candidate (RFC 9420, 12.4.3.1).
#[unsafe(no_mangle)]
pub unsafe extern "C" fn mls_member_join(
    alloc: Global,
    candidate: *mut Handle,
    welcome: *const u8,
    welcome_length: usize,
    member: *mut *mut Handle,
) -> u32
    ghost asked: { Asked }
    requires* memory { sem 𝓛 (asked_at (takes_at candidate welcome welcome_length member) asked) }
    ensures* memory { sem 𝓛 (answered_at MemberJoin 0
        (takes_at candidate welcome welcome_length member) asked result) }
{
    run_call!(
        alloc,
        MemberJoin,
        handle = candidate,
        first = (welcome, welcome_length),
        made = member
    )
}

/// The bytes that a member is saved as, which hold its secrets.
#[unsafe(no_mangle)]
pub unsafe extern "C" fn mls_member_save(
    alloc: Global,
    member: *mut Handle,
    saved: *mut *mut Handle,
) -> u32
    ghost asked: { Asked }
    requires* memory { sem 𝓛 (asked_at (makes_at member saved) asked) }
    ensures* memory { sem 𝓛 (answered_at MemberSave 0 (makes_at member saved) asked result) }
{
    run_call!(alloc, MemberSave, handle = member, made = saved)
}

/// The member that was saved so.
#[unsafe(no_mangle)]
pub unsafe extern "C" fn mls_member_load(
    alloc: Global,
    saved: *const u8,
    saved_length: usize,
    member: *mut *mut Handle,
) -> u32
    ghost asked: { Asked }
    requires* memory { sem 𝓛 (asked_at (loads_at saved saved_length member) asked) }
    ensures* memory { sem 𝓛 (answered_at MemberLoad 0
        (loads_at saved saved_length member) asked result) }
{
    run_call!(
        alloc,
        MemberLoad,
        first = (saved, saved_length),
        made = member
    )
}

/// The number of a member's epoch.
#[unsafe(no_mangle)]
pub unsafe extern "C" fn mls_member_epoch(
    alloc: Global,
    member: *mut Handle,
    epoch: *mut u64,
) -> u32
    ghost asked: { Asked }
    requires* memory { sem 𝓛 (asked_at (tells_at member epoch) asked) }
    ensures* memory { sem 𝓛 (answered_at MemberEpoch 0 (tells_at member epoch) asked result) }
{
    run_call!(alloc, MemberEpoch, handle = member, value = epoch)
}

/// The identifier of a member's group.
#[unsafe(no_mangle)]
pub unsafe extern "C" fn mls_member_group_id(
    alloc: Global,
    member: *mut Handle,
    group_id: *mut *mut Handle,
) -> u32
    ghost asked: { Asked }
    requires* memory { sem 𝓛 (asked_at (makes_at member group_id) asked) }
    ensures* memory { sem 𝓛 (answered_at MemberGroupId 0 (makes_at member group_id) asked result) }
{
    run_call!(alloc, MemberGroupId, handle = member, made = group_id)
}

/// The index of a member's leaf.
#[unsafe(no_mangle)]
pub unsafe extern "C" fn mls_member_leaf_index(
    alloc: Global,
    member: *mut Handle,
    leaf: *mut u64,
) -> u32
    ghost asked: { Asked }
    requires* memory { sem 𝓛 (asked_at (tells_at member leaf) asked) }
    ensures* memory { sem 𝓛 (answered_at MemberLeafIndex 0 (tells_at member leaf) asked result) }
{
    run_call!(alloc, MemberLeafIndex, handle = member, value = leaf)
}

/// The number of leaves of a member's group.
#[unsafe(no_mangle)]
pub unsafe extern "C" fn mls_member_leaf_count(
    alloc: Global,
    member: *mut Handle,
    count: *mut u64,
) -> u32
    ghost asked: { Asked }
    requires* memory { sem 𝓛 (asked_at (tells_at member count) asked) }
    ensures* memory { sem 𝓛 (answered_at MemberLeafCount 0 (tells_at member count) asked result) }
{
    run_call!(alloc, MemberLeafCount, handle = member, value = count)
}

/// The identity and the signature key of the member at a leaf, or `NoSuchLeaf` (22).
#[unsafe(no_mangle)]
pub unsafe extern "C" fn mls_member_at(
    alloc: Global,
    member: *mut Handle,
    leaf: u64,
    identity: *mut *mut Handle,
    signature_key: *mut *mut Handle,
) -> u32
    ghost asked: { Asked }
    requires* memory { sem 𝓛 (asked_at (finds_at member identity signature_key) asked) }
    ensures* memory { sem 𝓛 (answered_at MemberAt leaf
        (finds_at member identity signature_key) asked result) }
{
    run_call!(
        alloc,
        MemberAt,
        number = leaf,
        handle = member,
        made = identity,
        other = signature_key
    )
}

/// A secret of a length of at most 8,160 bytes, exported under a label and a context (RFC 9420, 8.5).
#[unsafe(no_mangle)]
pub unsafe extern "C" fn mls_member_export(
    alloc: Global,
    member: *mut Handle,
    label: *const u8,
    label_length: usize,
    context: *const u8,
    context_length: usize,
    secret_length: u64,
    secret: *mut *mut Handle,
) -> u32
    ghost asked: { Asked }
    requires* memory { sem 𝓛 (asked_at
        (gives_at member label label_length context context_length secret) asked) }
    ensures* memory { sem 𝓛 (answered_at MemberExport secret_length
        (gives_at member label label_length context context_length secret) asked result) }
{
    run_call!(
        alloc,
        MemberExport,
        number = secret_length,
        handle = member,
        first = (label, label_length),
        second = (context, context_length),
        made = secret
    )
}

/// What a message does to a member: 1 a proposal is kept, 2 it was kept already, 3 a commit was followed, 4 it removed the
/// member (RFC 9420, 6, 12.1 and 12.4.2).
#[unsafe(no_mangle)]
pub unsafe extern "C" fn mls_member_process(
    alloc: Global,
    member: *mut Handle,
    message: *const u8,
    message_length: usize,
    effect: *mut u64,
) -> u32
    ghost asked: { Asked }
    requires* memory { sem 𝓛 (asked_at (follows_at member message message_length effect) asked) }
    ensures* memory { sem 𝓛 (answered_at MemberProcess 0
        (follows_at member message message_length effect) asked result) }
{
    run_call!(
        alloc,
        MemberProcess,
        handle = member,
        first = (message, message_length),
        value = effect
    )
}

/// A member's proposal to add the KeyPackage in a message (RFC 9420, 12.1.1).
#[unsafe(no_mangle)]
pub unsafe extern "C" fn mls_member_propose_add(
    alloc: Global,
    member: *mut Handle,
    key_package: *const u8,
    key_package_length: usize,
    message: *mut *mut Handle,
) -> u32
    ghost asked: { Asked }
    requires* memory { sem 𝓛 (asked_at
        (takes_at member key_package key_package_length message) asked) }
    ensures* memory { sem 𝓛 (answered_at MemberProposeAdd 0
        (takes_at member key_package key_package_length message) asked result) }
{
    run_call!(
        alloc,
        MemberProposeAdd,
        handle = member,
        first = (key_package, key_package_length),
        made = message
    )
}

/// A member's proposal of a new key for its leaf (RFC 9420, 12.1.2).
#[unsafe(no_mangle)]
pub unsafe extern "C" fn mls_member_propose_update(
    alloc: Global,
    member: *mut Handle,
    seed: *const u8,
    seed_length: usize,
    message: *mut *mut Handle,
) -> u32
    ghost asked: { Asked }
    requires* memory { sem 𝓛 (asked_at (takes_at member seed seed_length message) asked) }
    ensures* memory { sem 𝓛 (answered_at MemberProposeUpdate 0
        (takes_at member seed seed_length message) asked result) }
{
    run_call!(
        alloc,
        MemberProposeUpdate,
        handle = member,
        first = (seed, seed_length),
        made = message
    )
}

/// A member's proposal to remove a leaf (RFC 9420, 12.1.3).
#[unsafe(no_mangle)]
pub unsafe extern "C" fn mls_member_propose_remove(
    alloc: Global,
    member: *mut Handle,
    leaf: u64,
    message: *mut *mut Handle,
) -> u32
    ghost asked: { Asked }
    requires* memory { sem 𝓛 (asked_at (makes_at member message) asked) }
    ensures* memory { sem 𝓛 (answered_at MemberProposeRemove leaf
        (makes_at member message) asked result) }
{
    run_call!(
        alloc,
        MemberProposeRemove,
        number = leaf,
        handle = member,
        made = message
    )
}

/// A member's proposal that the group carry the extensions in bytes (RFC 9420, 12.1.7).
#[unsafe(no_mangle)]
pub unsafe extern "C" fn mls_member_propose_extensions(
    alloc: Global,
    member: *mut Handle,
    extensions: *const u8,
    extensions_length: usize,
    message: *mut *mut Handle,
) -> u32
    ghost asked: { Asked }
    requires* memory { sem 𝓛 (asked_at
        (takes_at member extensions extensions_length message) asked) }
    ensures* memory { sem 𝓛 (answered_at MemberProposeExtensions 0
        (takes_at member extensions extensions_length message) asked result) }
{
    run_call!(
        alloc,
        MemberProposeExtensions,
        handle = member,
        first = (extensions, extensions_length),
        made = message
    )
}

/// A member's commit of what it keeps, with a path where that number isn't 0, and its Welcome, null where nobody is added
/// (RFC 9420, 12.4.1).
#[unsafe(no_mangle)]
pub unsafe extern "C" fn mls_member_commit_kept(
    alloc: Global,
    member: *mut Handle,
    path: u64,
    seed: *const u8,
    seed_length: usize,
    commit: *mut *mut Handle,
    welcome: *mut *mut Handle,
) -> u32
    ghost asked: { Asked }
    requires* memory { sem 𝓛 (asked_at (commits_at member seed seed_length commit welcome) asked) }
    ensures* memory { sem 𝓛 (answered_at MemberCommitKept path
        (commits_at member seed seed_length commit welcome) asked result) }
{
    run_call!(
        alloc,
        MemberCommitKept,
        number = path,
        handle = member,
        first = (seed, seed_length),
        made = commit,
        other = welcome
    )
}

/// A member's commit of a list, with a path where that number isn't 0, and its Welcome, null where nobody is added. The
/// list is spelled as in a Commit (RFC 9420, 12.4 and 12.4.1).
#[unsafe(no_mangle)]
pub unsafe extern "C" fn mls_member_commit(
    alloc: Global,
    member: *mut Handle,
    proposals: *const u8,
    proposals_length: usize,
    path: u64,
    seed: *const u8,
    seed_length: usize,
    commit: *mut *mut Handle,
    welcome: *mut *mut Handle,
) -> u32
    ghost asked: { Asked }
    requires* memory { sem 𝓛 (asked_at
        (lists_at member proposals proposals_length seed seed_length commit welcome) asked) }
    ensures* memory { sem 𝓛 (answered_at MemberCommit path
        (lists_at member proposals proposals_length seed seed_length commit welcome) asked result) }
{
    run_call!(
        alloc,
        MemberCommit,
        number = path,
        handle = member,
        first = (proposals, proposals_length),
        second = (seed, seed_length),
        made = commit,
        other = welcome
    )
}

/// A member forgets its pending commit: 1 there was one, 0 there was none.
#[unsafe(no_mangle)]
pub unsafe extern "C" fn mls_member_drop_pending(
    alloc: Global,
    member: *mut Handle,
    had: *mut u64,
) -> u32
    ghost asked: { Asked }
    requires* memory { sem 𝓛 (asked_at (tells_at member had) asked) }
    ensures* memory { sem 𝓛 (answered_at MemberDropPending 0 (tells_at member had) asked result) }
{
    run_call!(alloc, MemberDropPending, handle = member, value = had)
}

/// What a message would do to a member, as a number, and the member after it; the member itself stays (RFC 9420, 12.4.2).
#[unsafe(no_mangle)]
pub unsafe extern "C" fn mls_member_inspect(
    alloc: Global,
    member: *mut Handle,
    message: *const u8,
    message_length: usize,
    effect: *mut u64,
    after: *mut *mut Handle,
) -> u32
    ghost asked: { Asked }
    requires* memory { sem 𝓛 (asked_at
        (inspects_at member message message_length effect after) asked) }
    ensures* memory { sem 𝓛 (answered_at MemberInspect 0
        (inspects_at member message message_length effect after) asked result) }
{
    run_call!(
        alloc,
        MemberInspect,
        handle = member,
        first = (message, message_length),
        made = after,
        value = effect
    )
}

/// The reference of the proposal that a member keeps with a message, or none (RFC 9420, 5.2).
#[unsafe(no_mangle)]
pub unsafe extern "C" fn mls_member_reference(
    alloc: Global,
    member: *mut Handle,
    message: *const u8,
    message_length: usize,
    reference: *mut *mut Handle,
) -> u32
    ghost asked: { Asked }
    requires* memory { sem 𝓛 (asked_at (takes_at member message message_length reference) asked) }
    ensures* memory { sem 𝓛 (answered_at MemberReference 0
        (takes_at member message message_length reference) asked result) }
{
    run_call!(
        alloc,
        MemberReference,
        handle = member,
        first = (message, message_length),
        made = reference
    )
}

/// The reference at an index of those that a commit names and the member lacks, null where there are no more (RFC 9420,
/// 12.4).
#[unsafe(no_mangle)]
pub unsafe extern "C" fn mls_member_missing_proposal(
    alloc: Global,
    member: *mut Handle,
    commit: *const u8,
    commit_length: usize,
    index: u64,
    reference: *mut *mut Handle,
) -> u32
    ghost asked: { Asked }
    requires* memory { sem 𝓛 (asked_at (takes_at member commit commit_length reference) asked) }
    ensures* memory { sem 𝓛 (answered_at MemberMissingProposal index
        (takes_at member commit commit_length reference) asked result) }
{
    run_call!(
        alloc,
        MemberMissingProposal,
        number = index,
        handle = member,
        first = (commit, commit_length),
        made = reference
    )
}

/// The extensions that a member's group carries (RFC 9420, 8.1).
#[unsafe(no_mangle)]
pub unsafe extern "C" fn mls_member_extensions(
    alloc: Global,
    member: *mut Handle,
    extensions: *mut *mut Handle,
) -> u32
    ghost asked: { Asked }
    requires* memory { sem 𝓛 (asked_at (makes_at member extensions) asked) }
    ensures* memory { sem 𝓛 (answered_at MemberExtensions 0
        (makes_at member extensions) asked result) }
{
    run_call!(alloc, MemberExtensions, handle = member, made = extensions)
}

/// A member forgets the proposal that it keeps under a reference: 1 there was one, 0 there was none.
#[unsafe(no_mangle)]
pub unsafe extern "C" fn mls_member_forget_proposal(
    alloc: Global,
    member: *mut Handle,
    reference: *const u8,
    reference_length: usize,
    had: *mut u64,
) -> u32
    ghost asked: { Asked }
    requires* memory { sem 𝓛 (asked_at (follows_at member reference reference_length had) asked) }
    ensures* memory { sem 𝓛 (answered_at MemberForgetProposal 0
        (follows_at member reference reference_length had) asked result) }
{
    run_call!(
        alloc,
        MemberForgetProposal,
        handle = member,
        first = (reference, reference_length),
        value = had
    )
}

/// The message of a member's pending commit, or none (RFC 9420, 12.4.1).
#[unsafe(no_mangle)]
pub unsafe extern "C" fn mls_member_pending_commit(
    alloc: Global,
    member: *mut Handle,
    commit: *mut *mut Handle,
) -> u32
    ghost asked: { Asked }
    requires* memory { sem 𝓛 (asked_at (makes_at member commit) asked) }
    ensures* memory { sem 𝓛 (answered_at MemberPendingCommit 0
        (makes_at member commit) asked result) }
{
    run_call!(alloc, MemberPendingCommit, handle = member, made = commit)
}
