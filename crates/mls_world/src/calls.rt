//! Single calls on a world: each is one event. Of the world that it leaves the headline holds.

ghost use Rattle.std.specs.Prelude.{◌≡◌, Err, IfErr};
ghost use Rattle.mls_model.specs.WorldCalls.{drop_answer};
ghost use Rattle.mls_model.specs.Headline.{Headline};
ghost use Rattle.mls_model.specs.World as model;
ghost use Rattle.mls_world_plain.specs.Faults.{number_of};
ghost use Rattle.mls_world_plain.specs.CallAnswers.{Commits, CreatesGroup, DeliversTo, DropsPending, JoinsBy, MakesCandidate, ProposesAdd, ProposesExtensions, ProposesRemove, ProposesUpdate};
ghost use Rattle.mls_world_plain.specs.EarlyChecks.{early_add_checks, early_commit_checks, early_delivery_checks, early_join_checks, RefusesEarly, RefusesExtensionsEarly};

use crate::ranges::{know_few, know_items, know_short, know_source};
use crate::world::World;
use mls_kdf::Seed;
use mls_leaf::Extension;
use mls_model::{Effect, Source, WorldItem};
use mls_suite::Suite;
use mls_world_plain::{NewCandidate, NewCommit, NewMember, WorldError};

impl<S: Suite> World<S> {
    /// Makes a candidate, and the message of its KeyPackage: `CandidateRepeated` (93), then the checks of a candidate
    /// (RFC 9420, 10).
    pub fn candidate(&mut self, identity: &[u8], seed: &Seed) -> Result<NewCandidate, WorldError>
        ensures does { MakesCandidate S.crypto self.old self.new identity.now seed.now result }
        ensures headline { Headline S.crypto self.new }
    {
        know_short(identity);
        self.world.candidate(identity, seed)
    }

    /// Creates a group, whose only member the candidate becomes: `NoSuchCandidate` (92), `CandidateSpent` (91), then
    /// the checks of a creation (RFC 9420, 11). It answers the member's number.
    pub fn create(
        &mut self,
        candidate: usize,
        group: &[u8],
        seed: &Seed,
    ) -> Result<usize, WorldError>
        ensures does { CreatesGroup S.crypto self.old self.new candidate group.now seed.now result }
        // `NoSuchCandidate` (92) and `CandidateSpent` (91) come also when an allocation fails.
        ensures outright { RefusesEarly (model.entrant_at self.old candidate) result }
        ensures headline { Headline S.crypto self.new }
    {
        know_short(group);
        self.world.create(candidate, group, seed)
    }

    /// Proposes to add the KeyPackage of a source, and answers the number of the message: `NoSuchMember` (90),
    /// `NoSuchMessage` (94), decoding, `WrongMessageKind` (95), then the member's checks (RFC 9420, 12.1.1).
    pub fn propose_add(&mut self, member: usize, key_package: &Source) -> Result<usize, WorldError>
        ensures does { ProposesAdd S.crypto self.old self.new member key_package.now result }
        // `NoSuchMember` (90), `NoSuchMessage` (94), decoding's and `WrongMessageKind` (95) come also when an
        // allocation fails.
        ensures outright { RefusesEarly (early_add_checks self.old member key_package.now) result }
        ensures headline { Headline S.crypto self.new }
    {
        know_source(key_package);
        self.world.propose_add(member, key_package)
    }

    /// Proposes a new key for the member's own leaf, and answers the number of the message: `NoSuchMember` (90), then
    /// the member's checks (RFC 9420, 12.1.2).
    pub fn propose_update(&mut self, member: usize, seed: &Seed) -> Result<usize, WorldError>
        ensures does { ProposesUpdate S.crypto self.old self.new member seed.now result }
        // `NoSuchMember` (90) comes also when an allocation fails.
        ensures outright { RefusesEarly (model.seat_at self.old member) result }
        ensures headline { Headline S.crypto self.new }
    {
        self.world.propose_update(member, seed)
    }

    /// Proposes to remove the member at a leaf, and answers the number of the message: `NoSuchMember` (90), then the
    /// member's checks (RFC 9420, 12.1.3).
    pub fn propose_remove(&mut self, member: usize, leaf: u32) -> Result<usize, WorldError>
        ensures does { ProposesRemove S.crypto self.old self.new member leaf result }
        // `NoSuchMember` (90) comes also when an allocation fails.
        ensures outright { RefusesEarly (model.seat_at self.old member) result }
        ensures headline { Headline S.crypto self.new }
    {
        self.world.propose_remove(member, leaf)
    }

    /// Proposes that the group carry these extensions, and answers the number of the message: `NoSuchMember` (90),
    /// `ExtensionNotAllowed` (14), then the member's checks (RFC 9420, 12.1.7).
    pub fn propose_extensions(
        &mut self,
        member: usize,
        list: Vec<Extension>,
    ) -> Result<usize, WorldError>
        ensures does { ProposesExtensions S.crypto self.old self.new member list.items result }
        // `NoSuchMember` (90) and `ExtensionNotAllowed` (14) come also when an allocation fails.
        ensures outright { RefusesExtensionsEarly self.old member list.items result }
        ensures headline { Headline S.crypto self.new }
    {
        self.world.propose_extensions(member, list)
    }

    /// Commits a list, with a path where `path` says so or one is required, and keeps the state that it leads to as
    /// pending: `NoSuchMember` (90), then in the list's order `NoSuchMessage` (94), decoding, `WrongMessageKind`
    /// (95), and of extensions `ExtensionNotAllowed` (14), then the member's checks (RFC 9420, 12.4.1). It answers the
    /// numbers of the commit and of its Welcome.
    pub fn commit(
        &mut self,
        member: usize,
        items: &[WorldItem],
        path: bool,
        seed: &Seed,
    ) -> Result<NewCommit, WorldError>
        ensures does { Commits S.crypto self.old self.new member items.now path seed.now result }
        // `NoSuchMember` (90), and of the first item `NoSuchMessage` (94), decoding's, `WrongMessageKind` (95) and
        // `ExtensionNotAllowed` (14), come also when an allocation fails.
        ensures outright { RefusesEarly (early_commit_checks self.old member items.now) result }
        ensures headline { Headline S.crypto self.new }
    {
        know_few(items);
        know_items(items);
        self.world.commit(member, items, path, seed)
    }

    /// Forgets a member's pending commit, and answers whether there was one: `NoSuchMember` (90). It takes no memory.
    pub fn drop_pending(&mut self, member: usize) -> Result<bool, WorldError>
        ensures does { DropsPending self.old self.new member result }
        // No want of memory.
        ensures outright { IfErr result (λ e. drop_answer self.old member ≡ Err (number_of e)) }
        ensures headline { Headline S.crypto self.new }
    {
        self.world.drop_pending(member)
    }

    /// Delivers a source to a member: `NoSuchMember` (90), `NoSuchMessage` (94), then the member's checks. The world
    /// refuses no bytes itself. A commit that is followed is a new entry of the member's journal (RFC 9420, 6, 12.1
    /// and 12.4.2).
    pub fn deliver(&mut self, member: usize, source: &Source) -> Result<Effect, WorldError>
        ensures does { DeliversTo S.crypto self.old self.new member source.now result }
        // `NoSuchMember` (90), `NoSuchMessage` (94) and `Gone` (40), and of bytes that aren't the member's pending
        // commit decoding's and `NotPublicMessage` (41) to `BadMembershipTag` (46), come also when an allocation fails.
        ensures outright { RefusesEarly (early_delivery_checks self.old member source.now) result }
        ensures headline { Headline S.crypto self.new }
    {
        know_source(source);
        self.world.deliver(member, source)
    }

    /// Joins by a Welcome: `NoSuchCandidate` (92), `CandidateSpent` (91), `NoSuchMessage` (94), then the checks of a
    /// join (RFC 9420, 12.4.3.1). The world refuses no bytes itself. Where the Welcome was made here and its commit
    /// adds the candidate's own KeyPackage, the journal is the maker's with that commit, else it begins with the
    /// GroupInfo.
    pub fn join(&mut self, candidate: usize, source: &Source) -> Result<NewMember, WorldError>
        ensures does { JoinsBy S.crypto self.old self.new candidate source.now result }
        // `NoSuchCandidate` (92), `CandidateSpent` (91), `NoSuchMessage` (94), decoding's, `NotWelcome` (70) and
        // `WrongSuite` (71) of the Welcome come also when an allocation fails.
        ensures outright { RefusesEarly
            (early_join_checks S.crypto.number self.old candidate source.now) result }
        ensures headline { Headline S.crypto self.new }
    {
        know_source(source);
        self.world.join(candidate, source)
    }
}
