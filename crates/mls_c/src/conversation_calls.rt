//! Exports of the calls on conversations.

ghost use types.Logic.{sem};
ghost use Rattle.mls_c.specs.Memory.{Asked, asked_at, answered_at};
ghost use Rattle.mls_c.specs.Passing.{finds_at, makes_at, opens_at, restores_at, seals_at};
ghost use Rattle.mls_calls.specs.declared.call.Call.TheVariants.{ConversationNew, ConversationSeal, ConversationOpen, ConversationMemberAt, ConversationSave, ConversationRestore};

use crate::handle::Handle;
use crate::run::run_call;
use std::alloc::Global;

/// The conversation of a member in its epoch, in which no key was used yet (RFC 9420, 9).
#[unsafe(no_mangle)]
pub unsafe extern "C" fn mls_conversation_new(
    alloc: Global,
    member: *mut Handle,
    conversation: *mut *mut Handle,
) -> u32
    ghost asked: { Asked }
    requires* memory { sem 𝓛 (asked_at (makes_at member conversation) asked) }
    ensures* memory { sem 𝓛 (answered_at ConversationNew 0
        (makes_at member conversation) asked result) }
{
    run_call!(alloc, ConversationNew, handle = member, made = conversation)
}

/// A sealed message of application data, with authenticated data that isn't encrypted and so many bytes of padding
/// (RFC 9420, 6.3).
#[unsafe(no_mangle)]
pub unsafe extern "C" fn mls_conversation_seal(
    alloc: Global,
    conversation: *mut Handle,
    application_data: *const u8,
    application_data_length: usize,
    authenticated_data: *const u8,
    authenticated_data_length: usize,
    padding: u64,
    seed: *const u8,
    seed_length: usize,
    message: *mut *mut Handle,
) -> u32
    ghost asked: { Asked }
    requires* memory { sem 𝓛 (asked_at
        (seals_at conversation application_data application_data_length authenticated_data
        authenticated_data_length seed seed_length message) asked) }
    ensures* memory { sem 𝓛 (answered_at ConversationSeal padding
        (seals_at conversation application_data application_data_length authenticated_data
        authenticated_data_length seed seed_length message) asked result) }
{
    run_call!(
        alloc,
        ConversationSeal,
        number = padding,
        handle = conversation,
        first = (application_data, application_data_length),
        second = (authenticated_data, authenticated_data_length),
        third = (seed, seed_length),
        made = message
    )
}

/// The data and the authenticated data of a message, and its sender's leaf (RFC 9420, 6.3).
#[unsafe(no_mangle)]
pub unsafe extern "C" fn mls_conversation_open(
    alloc: Global,
    conversation: *mut Handle,
    message: *const u8,
    message_length: usize,
    application_data: *mut *mut Handle,
    authenticated_data: *mut *mut Handle,
    sender: *mut u64,
) -> u32
    ghost asked: { Asked }
    requires* memory { sem 𝓛 (asked_at
        (opens_at conversation message message_length application_data authenticated_data sender)
        asked) }
    ensures* memory { sem 𝓛 (answered_at ConversationOpen 0
        (opens_at conversation message message_length application_data authenticated_data sender)
        asked result) }
{
    run_call!(
        alloc,
        ConversationOpen,
        handle = conversation,
        first = (message, message_length),
        made = application_data,
        other = authenticated_data,
        value = sender
    )
}

/// The identity and the signature key of the member at a leaf, as the tree of the conversation's epoch has them.
#[unsafe(no_mangle)]
pub unsafe extern "C" fn mls_conversation_member_at(
    alloc: Global,
    conversation: *mut Handle,
    leaf: u64,
    identity: *mut *mut Handle,
    signature_key: *mut *mut Handle,
) -> u32
    ghost asked: { Asked }
    requires* memory { sem 𝓛 (asked_at (finds_at conversation identity signature_key) asked) }
    ensures* memory { sem 𝓛 (answered_at ConversationMemberAt leaf
        (finds_at conversation identity signature_key) asked result) }
{
    run_call!(
        alloc,
        ConversationMemberAt,
        number = leaf,
        handle = conversation,
        made = identity,
        other = signature_key
    )
}

/// The bytes that a conversation is saved as, which hold its secrets.
#[unsafe(no_mangle)]
pub unsafe extern "C" fn mls_conversation_save(
    alloc: Global,
    conversation: *mut Handle,
    saved: *mut *mut Handle,
) -> u32
    ghost asked: { Asked }
    requires* memory { sem 𝓛 (asked_at (makes_at conversation saved) asked) }
    ensures* memory { sem 𝓛 (answered_at ConversationSave 0
        (makes_at conversation saved) asked result) }
{
    run_call!(alloc, ConversationSave, handle = conversation, made = saved)
}

/// A conversation that used no key goes on as the one of its member and epoch that was saved so.
#[unsafe(no_mangle)]
pub unsafe extern "C" fn mls_conversation_restore(
    alloc: Global,
    conversation: *mut Handle,
    saved: *const u8,
    saved_length: usize,
) -> u32
    ghost asked: { Asked }
    requires* memory { sem 𝓛 (asked_at (restores_at conversation saved saved_length) asked) }
    ensures* memory { sem 𝓛 (answered_at ConversationRestore 0
        (restores_at conversation saved saved_length) asked result) }
{
    run_call!(
        alloc,
        ConversationRestore,
        handle = conversation,
        first = (saved, saved_length)
    )
}
