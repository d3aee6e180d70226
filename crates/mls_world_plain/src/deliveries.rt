//! Deliveries to members.

ghost use Rattle.std.specs.Prelude.{◌≡◌, ◌≢◌, ◌<◌, ℕ, List, Err, length, IfOk};
ghost use Rattle.std.specs.Option.{option_copied};
ghost use Rattle.mls_leaf.specs.Limits.{input_limit};
ghost use Rattle.mls_types.specs.Message.{mls_message};
ghost use Rattle.mls_view.specs.Shown.{Shows};
ghost use Rattle.mls_view.specs.Views.{LendsWhole};
ghost use Rattle.mls_member.specs.EarlyChecks.{early_checks as early_member_checks};
ghost use Rattle.mls_model.specs.Verdict.{verdict};
ghost use Rattle.mls_world_plain.specs.Faults.{number_of};
ghost use Rattle.mls_model.specs.Journal.{names_in, list_in, entry_of};
ghost use Rattle.mls_world_plain.specs.CallAnswers.{DeliversTo};
ghost use Rattle.mls_world_plain.specs.CallParts.{is_advanced, HandsOver, StoresEntry};
ghost use Rattle.mls_world_plain.specs.CommitItems.{IsListOfMessage, IsListOfView};
ghost use Rattle.mls_world_plain.specs.EarlyChecks.{early_delivery_checks, RefusesEarly};
ghost use Rattle.mls_world_plain.specs.StoredWorld.{AreMore};

use crate::commit_names::names_listed;
use crate::entry::Entry;
use crate::error::WorldError;
use crate::journal::Journals;
use crate::seats::Seat;
use crate::sources::bytes_of;
use crate::world::PlainWorld;
use mls_leaf::{Bytes, Items, LeafError};
use mls_member::Member;
use mls_model::{Effect, Source};
use mls_suite::Suite;
use mls_types::ProposalOrRef;
use mls_view::{ContentView, MessageView, Part, PublicMessageView};
use std::alloc::{AllocError, Global};

/// The list of the commit that a PublicMessage has, none where it has no commit.
fn list_of_body<'v, 'a>(
    view: &'v PublicMessageView<'a>,
) -> Option<&'v Part<'a, Items<ProposalOrRef>>>
    ensures { IsListOfView view.now (option_copied result) }
{
    match &view.content.content {
        ContentView::Commit { proposals, .. } => Some(proposals),
        _ => None,
    }
}

/// The list of the commit that a message has, none where it has no commit.
fn list_of_message<'v, 'a>(
    message: &'v MessageView<'a>,
) -> Option<&'v Part<'a, Items<ProposalOrRef>>>
    ensures { IsListOfMessage message.now (option_copied result) }
{
    match message {
        MessageView::PublicMessage(view) => list_of_body(view),
        _ => None,
    }
}

/// The messages of the kept proposals that a commit names, none where bytes were read that are no commit.
fn names_of<S: Suite>(
    alloc: Global,
    member: &Member<S>,
    message: &Result<MessageView<'_>, LeafError>,
) -> Result<Vec<Bytes>, AllocError>
    ensures { (bytes : List ℕ) → LendsWhole mls_message input_limit Shows bytes message.now
        → IfOk result (λ v. v.items ≡ names_in member.now.kept (list_in bytes)) }
{
    // A member that keeps no proposal knows none that is named, and the list isn't gone through.
    if member.keeps_none() {
        return Ok(Vec::new(alloc));
    }
    let Ok(message) = message else {
        return Ok(Vec::new(alloc));
    };
    match list_of_message(message) {
        Some(list) => names_listed(alloc, member, list),
        None => Ok(Vec::new(alloc)),
    }
}

/// The entry of a commit that a member would follow.
#[tactic(auto, unfolding(mls_model::specs::Journal::entry_of))]
fn entry_of<S: Suite>(
    alloc: Global,
    member: &Member<S>,
    message: &Result<MessageView<'_>, LeafError>,
    bytes: &[u8],
) -> Result<Entry, AllocError>
    requires { LendsWhole mls_message input_limit Shows bytes.now message.now }
    ensures { IfOk result (λ e. e ≡ entry_of member.now bytes.now) }
{
    let names = names_of(alloc, member, message)?;
    let commit = Bytes::from_vec(Vec::from_slice(alloc, bytes)?);
    Ok(Entry { commit, names })
}

/// Whether a commit was followed into an epoch.
fn is_advanced(effect: &Effect) -> bool
    ensures { result ≡ is_advanced effect.now }
{
    match effect {
        Effect::Advanced { epoch: _ } => true,
        Effect::Proposed { reference: _ } => false,
        Effect::Known { reference: _ } => false,
        Effect::Removed => false,
    }
}

/// The refusal of bytes for which no memory was found: what the member refuses before anything grows comes first.
#[tactic(auto, using(mls_member::proofs::EarlyChecks::early_refused))]
fn early_refusal<S: Suite>(member: &Member<S>, bytes: &[u8], error: AllocError) -> WorldError
    ensures is { number_of result ≢ 1
        → verdict S.crypto member.now bytes.now ≡ Err (number_of result) }
    ensures early { (n : ℕ) → early_member_checks member.now bytes.now ≡ Err n
        → number_of result ≡ n }
{
    match member.check_early(bytes) {
        Ok(()) => error.into(),
        Err(refusal) => WorldError::Member(refusal),
    }
}

/// Hands bytes to a member. Its journal has one more entry where it follows a commit.
#[tactic(auto, using(crate::proofs::Changing::advanced, crate::proofs::Changing::stayed, crate::proofs::Changing::failed, crate::proofs::Changing::seat_same, crate::proofs::Changing::none_behind, crate::proofs::Following::follows_here, crate::proofs::Following::stores_followed, crate::proofs::Following::stores_none, crate::proofs::Following::more_same, crate::proofs::Following::more_behind, crate::proofs::Following::within_same, mls_member::proofs::EarlyChecks::process_early))]
fn hand_bytes<S: Suite>(
    alloc: Global,
    seat: &mut Seat<S>,
    journals: &mut Journals,
    bytes: &[u8],
) -> Result<Effect, WorldError>
    requires { seat.old.journal < length journals.old.list }
    ensures does { HandsOver S.crypto journals.old.list seat.old journals.new.list seat.new
        bytes.now result }
    ensures stores { StoresEntry journals.old seat.old.journal (entry_of seat.old.member bytes.now)
        journals.new seat.new.journal result }
    ensures more { AreMore journals.old.list journals.new.list }
    ensures within { seat.new.journal < length journals.new.list }
    // What the member refuses before anything grows comes also when an allocation fails.
    ensures outright { RefusesEarly (early_member_checks seat.old.member bytes.now) result }
{
    let message = MessageView::read(bytes);
    let entry = match entry_of(alloc, &seat.member, &message, bytes) {
        Ok(entry) => entry,
        Err(error) => return Err(early_refusal(&seat.member, bytes, error)),
    };
    if let Err(error) = journals.reserve() {
        return Err(early_refusal(&seat.member, bytes, error));
    }
    match seat.member.process_read(&message, bytes) {
        Ok(effect) => {
            if is_advanced(&effect) {
                seat.journal = journals.follow(seat.journal, entry);
                return Ok(effect);
            }
            Ok(effect)
        }
        Err(refusal) => Err(WorldError::Member(refusal)),
    }
}

impl<S: Suite> PlainWorld<S> {
    /// Delivers a source to a member: `NoSuchMember` (90), `NoSuchMessage` (94), then the member's checks. The world
    /// refuses no bytes itself. A commit that is followed is a new entry of the member's journal (RFC 9420, 6, 12.1
    /// and 12.4.2).
    #[tactic(auto, using(crate::proofs::Changing::no_member, crate::proofs::Stores::seat_missing, crate::proofs::Calling::stands_at, crate::proofs::EarlyChecks::delivery_nobody))]
    pub fn deliver(&mut self, member: usize, source: &Source) -> Result<Effect, WorldError>
        ensures does { DeliversTo S.crypto self.old self.new member source.now result }
        // `NoSuchMember` (90), `NoSuchMessage` (94) and `Gone` (40), and of bytes that aren't the member's pending
        // commit decoding's and `NotPublicMessage` (41) to `BadMembershipTag` (46), come also when an allocation fails.
        ensures outright { RefusesEarly (early_delivery_checks self.old member source.now) result }
    {
        let Some(seat) = self.seats.get_mut(member) else {
            return Err(WorldError::NoSuchMember);
        };
        let bytes = bytes_of(&self.messages, source)?;
        hand_bytes(self.alloc, seat, &mut self.journals, bytes)
    }
}
