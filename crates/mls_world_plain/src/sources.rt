//! What the sources of a world's events stand for.

ghost use Rattle.std.specs.Prelude.{◌≡◌, ◌^◌, IfOk};
ghost use Rattle.mls_wire.specs.Checks.{Answers};
ghost use Rattle.mls_leaf.specs.KeyPackage.{key_package as key_package_format};
ghost use Rattle.mls_public_group.specs.Short.{IsBelow};
ghost use Rattle.mls_member.specs.Answers.{IsShortItem, AreShortItems};
ghost use Rattle.mls_model.specs.Make.{list_item_of};
ghost use Rattle.mls_model.specs.World as model;
ghost use Rattle.mls_model.specs.declared.item.Item.TheVariants as item;
ghost use Rattle.mls_leaf.specs.declared.proposal.Proposal.TheVariants as proposes;
ghost use Rattle.mls_world_plain.specs.Faults.{number_of};
ghost use Rattle.mls_world_plain.specs.CallAnswers.{AnswersBy, AnswersOutrightBy};
ghost use Rattle.mls_world_plain.specs.EarlyChecks.{first_checks, RefusesEarly};
ghost use Rattle.mls_member.specs.Process.{IsShortView};
ghost use Rattle.mls_world_plain.specs.Sources.{read_package, read_reference, allowed_list, AnswersBytesOf, AnswersItems, AnswersReference};

use crate::error::WorldError;
use crate::world::PlainWorld;
use mls_kdf::Secret;
use mls_leaf::{Bytes, Extension, GroupExtensions, KeyPackage, LeafError, Proposal};
use mls_model::{Item, Source, WorldItem};
use mls_suite::Suite;
use mls_view::{ContentView, MessageView, PublicMessageView};
use std::alloc::{AllocError, Global};

/// Finds the bytes of a source: `NoSuchMessage` (94).
pub(crate) fn bytes_of<'a>(
    messages: &'a [Bytes],
    source: &'a Source,
) -> Result<&'a [u8], WorldError>
    ensures { AnswersBytesOf (λ b. b.now) messages.now source.now result }
{
    match source {
        Source::Given(bytes) => Ok(bytes),
        Source::Message(n) => match messages.get(*n) {
            Some(message) => Ok(message.as_slice()),
            None => Err(WorldError::NoSuchMessage),
        },
    }
}

/// Reads the KeyPackage that bytes are: decoding, `WrongMessageKind` (95).
fn read_package(alloc: Global, bytes: &[u8]) -> Result<KeyPackage, WorldError>
    ensures answer { AnswersBy (read_package bytes.now) result }
    // What is refused of the bytes comes also when an allocation fails.
    ensures outright { RefusesEarly (read_package bytes.now) result }
    ensures below { IfOk result (λ k. IsBelow (2 ^ 27) key_package_format k) }
{
    match MessageView::read(bytes)? {
        MessageView::KeyPackage(part) => Ok(part.to_owned(alloc)?),
        _ => Err(WorldError::WrongMessageKind),
    }
}

/// Finds the reference of the proposal that a PublicMessage has (RFC 9420, 5.2): `WrongMessageKind` (95).
fn reference_in(view: &PublicMessageView<'_>) -> Result<Secret, WorldError>
    requires { IsShortView view.now }
    ensures { AnswersReference view.now result }
{
    match &view.content.content {
        ContentView::Proposal(_) => Ok(view.reference()),
        _ => Err(WorldError::WrongMessageKind),
    }
}

/// Reads the reference of the proposal whose message bytes are: decoding, `WrongMessageKind` (95).
fn read_reference(bytes: &[u8]) -> Result<Secret, WorldError>
    ensures { AnswersOutrightBy (λ r. r) (read_reference bytes.now) result }
{
    match MessageView::read(bytes)? {
        MessageView::PublicMessage(view) => reference_in(&view),
        _ => Err(WorldError::WrongMessageKind),
    }
}

/// Copies extensions.
fn copy_entries(alloc: Global, entries: &[Extension]) -> Result<Vec<Extension>, AllocError>
    ensures { IfOk result (λ v. v.items ≡ entries.now) }
{
    Vec::from_clones(alloc, entries)
}

/// Copies extensions that a group may carry: `ExtensionNotAllowed` (14), before anything is copied (RFC 9420, 8.1).
pub(crate) fn copy_extensions(
    alloc: Global,
    entries: &[Extension],
) -> Result<GroupExtensions, WorldError>
    ensures answer { AnswersBy (allowed_list entries.now) result }
    // `ExtensionNotAllowed` (14) comes also when an allocation fails.
    ensures outright { RefusesEarly (allowed_list entries.now) result }
{
    if !GroupExtensions::is_allowed(entries) {
        return Err(WorldError::Leaf(LeafError::ExtensionNotAllowed));
    }
    let copy = copy_entries(alloc, entries)?;
    Ok(GroupExtensions::new(copy)?)
}

/// The proposal that a commit lists for a leaf's removal.
fn removal(leaf: u32) -> Item
    ensures same { result ≡ item.Full (proposes.Remove leaf) }
    ensures short { IsShortItem result }
{
    Item::Full(Proposal::Remove(leaf))
}

impl<S: Suite> PlainWorld<S> {
    /// Finds the bytes of a source: `NoSuchMessage` (94).
    pub(crate) fn bytes_of<'a>(&'a self, source: &'a Source) -> Result<&'a [u8], WorldError>
        ensures { AnswersOutrightBy (λ b. b.now) (model.bytes_of self.now source.now) result }
    {
        bytes_of(&self.messages, source)
    }

    /// Reads the KeyPackage of a source: `NoSuchMessage` (94), decoding, `WrongMessageKind` (95).
    #[tactic(auto, unfolding(mls_model::specs::World::package_of, crate::specs::Sources::read_package))]
    pub(crate) fn package_of(&self, source: &Source) -> Result<KeyPackage, WorldError>
        ensures answer { AnswersBy (model.package_of self.now source.now) result }
        // What is refused of the source comes also when an allocation fails.
        ensures outright { RefusesEarly (model.package_of self.now source.now) result }
        ensures below { IfOk result (λ k. IsBelow (2 ^ 27) key_package_format k) }
    {
        let bytes = self.bytes_of(source)?;
        read_package(self.alloc, bytes)
    }

    /// Makes the proposal that a commit lists: `NoSuchMessage` (94), decoding, `WrongMessageKind` (95), and of extensions
    /// `ExtensionNotAllowed` (14).
    fn item_of(&self, item: &WorldItem) -> Result<Item, WorldError>
        ensures answer { Answers list_item_of number_of (model.item_of self.now item.now) result }
        // What is refused of the item comes also when an allocation fails.
        ensures outright { RefusesEarly (model.item_of self.now item.now) result }
        ensures short { IfOk result (λ i. IsShortItem i) }
    {
        match item {
            WorldItem::RefOf(source) => {
                let bytes = match self.bytes_of(source) {
                    Ok(bytes) => bytes,
                    Err(error) => return Err(error),
                };
                let reference = match read_reference(bytes) {
                    Ok(reference) => reference,
                    Err(error) => return Err(error),
                };
                let copy = Vec::from_slice(self.alloc, &reference)?;
                Ok(Item::Ref(copy))
            }
            WorldItem::Add(source) => {
                let offered = match self.package_of(source) {
                    Ok(offered) => offered,
                    Err(error) => return Err(error),
                };
                Ok(Item::Full(Proposal::Add(offered)))
            }
            WorldItem::Remove(leaf) => Ok(removal(*leaf)),
            WorldItem::Extensions(entries) => {
                let extensions = match copy_extensions(self.alloc, entries) {
                    Ok(extensions) => extensions,
                    Err(error) => return Err(error),
                };
                Ok(Item::Full(Proposal::GroupContextExtensions(extensions)))
            }
        }
    }

    /// Makes the list of a commit, or answers the first check that fails of the first item that has one.
    pub(crate) fn items_of(&self, items: &[WorldItem]) -> Result<Vec<Item>, WorldError>
        ensures answer { AnswersItems self.now items.now result }
        // The checks of the first item come also when an allocation fails.
        ensures outright { RefusesEarly (first_checks self.now items.now) result }
        ensures short { IfOk result (λ v. AreShortItems v.items) }
    {
        let mut list = Vec::new(self.alloc);
        for item in items {
            match self.item_of(item) {
                Ok(one) => list.push(one)?,
                Err(error) => return Err(error),
            }
        }
        Ok(list)
    }
}
