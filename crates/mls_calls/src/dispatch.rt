//! What each call answers.

ghost use Rattle.std.specs.Prelude.{◌≡◌};
ghost use Rattle.mls_calls.specs.Answers.{DoesCall};
ghost use Rattle.mls_calls.specs.Given.{text};
ghost use Rattle.mls_calls.specs.Shown.{shown};
ghost use Rattle.mls_calls.specs.declared.held.Held.TheVariants.{Nothing};

use crate::call::Call;
use crate::done::Done;
use crate::given::Given;
use crate::held::Held;
use crate::{candidates, commits, conversations, identities, members, names, saved, seen};
use std::alloc::Global;

/// What a call does with a number, with what its handle holds, and with three texts.
pub fn do_call(
    alloc: Global,
    call: Call,
    number: u64,
    held: Held,
    first: Given,
    second: Given,
    third: Given,
) -> Done
    ensures does { DoesCall call number (shown held)
        (text first) (text second) (text third) result }
    ensures stays { held ≡ Nothing → result.held ≡ Nothing }
{
    match call {
        Call::BytesLength => candidates::bytes_length(held),
        Call::CandidateNew => candidates::candidate_new(alloc, held, &first, &second),
        Call::CandidateKeyPackage => candidates::candidate_key_package(alloc, held),
        Call::MemberCreate => candidates::member_create(alloc, held, &first, &second),
        Call::MemberJoin => candidates::member_join(alloc, held, &first),
        Call::MemberEpoch => candidates::member_epoch(held),
        Call::MemberGroupId => candidates::member_group_id(alloc, held),
        Call::MemberProcess => members::member_process(held, &first),
        Call::MemberProposeAdd => members::member_propose_add(alloc, held, &first),
        Call::MemberProposeUpdate => members::member_propose_update(alloc, held, &first),
        Call::MemberCommitKept => commits::member_commit_kept(alloc, held, number, &first),
        Call::MemberProposeRemove => members::member_propose_remove(alloc, held, number),
        Call::MemberDropPending => members::member_drop_pending(held),
        Call::MemberLeafIndex => candidates::member_leaf_index(held),
        Call::BytesAt => candidates::bytes_at(held, number),
        Call::RefusalName => names::refusal_name_of(alloc, held, number),
        Call::CandidateSave => saved::candidate_save(alloc, held),
        Call::CandidateLoad => saved::candidate_load(alloc, held, &first),
        Call::MemberSave => saved::member_save(alloc, held),
        Call::MemberLoad => saved::member_load(alloc, held, &first),
        Call::MemberExport => seen::member_export(alloc, held, &first, &second, number),
        Call::MemberLeafCount => seen::member_leaf_count(held),
        Call::MemberAt => identities::member_at(alloc, held, number),
        Call::MemberProposeExtensions => members::member_propose_extensions(alloc, held, &first),
        Call::MemberCommit => commits::member_commit(alloc, held, &first, number, &second),
        Call::ConversationNew => conversations::conversation_new(alloc, held),
        Call::ConversationSeal => {
            conversations::conversation_seal(alloc, held, number, &first, &second, &third)
        }
        Call::ConversationOpen => conversations::conversation_open(alloc, held, &first),
        Call::MemberInspect => members::member_inspect(alloc, held, &first),
        Call::MemberReference => seen::member_reference(alloc, held, &first),
        Call::MemberExtensions => seen::member_extensions(alloc, held),
        Call::KeyPackageIdentity => identities::key_package_identity(alloc, held, &first),
        Call::ConversationMemberAt => identities::conversation_member_at(alloc, held, number),
        Call::MemberForgetProposal => members::member_forget_proposal(held, &first),
        Call::MemberPendingCommit => seen::member_pending_commit(alloc, held),
        Call::MessagePlace => identities::message_place(alloc, held, &first),
        Call::ConversationSave => saved::conversation_save(alloc, held),
        Call::ConversationRestore => saved::conversation_restore(held, &first),
        Call::MemberMissingProposal => seen::member_missing_proposal(alloc, held, &first, number),
    }
}
