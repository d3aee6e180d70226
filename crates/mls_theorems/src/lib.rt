//! What is claimed of members and worlds, and proved of their definitions. Each function does nothing, and its contract
//! is the laws of one subject.
#![tactic(auto)]

ghost use Rattle.mls_theorems.specs.EditLaws.{EditedSteps, WithPathSteps, BodySteps};
ghost use Rattle.mls_theorems.specs.CommitLaws.{EditsSound, EditsGood, EditsWithin, GoodNext, ContextOfTree, LeavesNext, SignaturesNext};
ghost use Rattle.mls_theorems.specs.CommitLaws.{EditsFollow, EditsFollowCommitter, EditsRenew, EditsAdd, AddsCounted};
ghost use Rattle.mls_theorems.specs.KeyLaws.{UsedHavePassed, UsedAreOwned, MemberStands, WithAllKeys, FollowedExact, KeysNext};
ghost use Rattle.mls_model.specs.Claims.{ReceiversClaim, JoinersClaim};
ghost use Rattle.mls_theorems.specs.GoodMembers.{CandidatesGood, CreatorsGood, JoinersGood, AddsKeepGood, UpdatesKeepGood, RemovesKeepGood, ExtensionsKeepGood, CommitsKeepGood, DropsKeepGood, DeliveriesKeepGood};
ghost use Rattle.mls_theorems.specs.Journals.{PublicAgreement, SecretAgreement, CreationsAlong, JoinsAlong, JoinsHereAlong, DeliveriesAlong, StatesAlong, CallsKeepState};
ghost use Rattle.mls_theorems.specs.CommitCalls.{MakeDid};
ghost use Rattle.mls_theorems.specs.CommitSpelling.{CommitFits};
ghost use Rattle.mls_theorems.specs.SentCommits.{PathDid, MadeFits, MadeListsFit};
ghost use Rattle.mls_theorems.specs.Framing.{MadeIsFramed};
ghost use Rattle.mls_theorems.specs.NextStates.{NextStatesGood};
ghost use Rattle.mls_theorems.specs.OpenedPaths.{BodyDid, ReceiverClimbs};
ghost use Rattle.mls_theorems.specs.Receivers.{ReceiversOfStaying};
ghost use Rattle.mls_theorems.specs.StayingMembers.{MemberStays, MadeIsReceived};
ghost use Rattle.mls_theorems.specs.CommitEntries.{ReceivedAlong, MadeAlong};
ghost use Rattle.mls_theorems.specs.PendingCommits.{MadePends};
ghost use Rattle.mls_theorems.specs.OpenedWelcomes.{WelcomeDid, WelcomeReads, SecretsOpen, WelcomeOpens};
ghost use Rattle.mls_theorems.specs.JoinChecks.{TreeIsTaken, SignerPasses, JoinsAt};
ghost use Rattle.mls_theorems.specs.JoinerKeys.{KeysTaken};
ghost use Rattle.mls_theorems.specs.UsedProposals.{UsedByNames, UsedByEntry, UsedAlike, UsedForOther, RemovesIn, AddsIn, UsedSame};
ghost use Rattle.mls_model.specs.Headline.{HoldsOnRuns};
ghost use Rattle.mls_theorems.specs.Homemade.{HomemadeIsMade, MadeIsHomemade};
ghost use Rattle.mls_theorems.specs.PastStates.{PastGrows, PastAlong};
ghost use Rattle.mls_theorems.specs.StableNames.{NamesStable};
ghost use Rattle.mls_theorems.specs.OwnLeaves.{OwnLeaves};
ghost use Rattle.mls_theorems.specs.EpochSecrets.{SameSecret};
ghost use Rattle.mls_theorems.specs.GoodWorlds.{EmptyWorldGood, EventsKeepGood, RunsKeepGood};
ghost use Rattle.mls_theorems.specs.Headlines.{HeadlineOfGood};
ghost use Rattle.mls_theorems.specs.Reachable.{EmptyIsReachable, RunsReach, StepsReach, HeadlineOfReachable};

/// What each check of a commit found, and what each part answered, where the whole is accepted.
pub fn laws_of_steps()
    ensures edited { EditedSteps }
    ensures with_path { WithPathSteps }
    ensures body { BodySteps }
{}

/// A commit of a member keeps a good tree, where the proposals that it names by reference have passed their checks; the
/// new context has the new tree's hash.
pub fn laws_of_commits()
    ensures sound { EditsSound }
    ensures good { EditsGood }
    ensures within { EditsWithin }
    ensures next { GoodNext }
    ensures context { ContextOfTree }
    ensures leaves { LeavesNext }
    ensures signatures { SignaturesNext }
{}

/// Members that a commit doesn't remove follow its edits: those that it leaves alone, the committer, and those that it
/// updates from their own update on.
pub fn laws_of_staying()
    ensures follow { EditsFollow }
    ensures committer { EditsFollowCommitter }
    ensures renew { EditsRenew }
    ensures stands { MemberStands }
{}

/// Members that a commit adds have the leaves of their KeyPackages, and the parents over them list them.
pub fn laws_of_added_leaves()
    ensures add { EditsAdd }
    ensures count { AddsCounted }
{}

/// What a member keeps, among the proposals that a commit uses: they have passed their checks, and of its own updates
/// it has the private keys.
pub fn laws_of_kept()
    ensures passed { UsedHavePassed }
    ensures owned { UsedAreOwned }
{}

/// A member's private keys stay exact over the edits of a commit, and over the commit of another, whatever its path is.
pub fn laws_of_keys()
    ensures written { WithAllKeys }
    ensures followed { FollowedExact }
    ensures next { KeysNext }
{}

/// The proposals that a commit uses.
pub fn laws_of_use()
    ensures names { UsedByNames }
    ensures entry { UsedByEntry }
    ensures alike { UsedAlike }
    ensures other { UsedForOther }
    ensures removes { RemovesIn }
    ensures adds { AddsIn }
    ensures same { UsedSame }
{}

/// The steps of a commit call.
pub fn laws_of_entries_that_lead()
    ensures made { MakeDid }
{}

/// A commit that is made reads back, and what it lists in full has a spelling.
pub fn laws_of_messages()
    ensures commit { CommitFits }
    ensures path { PathDid }
    ensures made { MadeFits }
    ensures lists { MadeListsFit }
    ensures framed { MadeIsFramed }
{}

/// The receivers of a commit that was made.
pub fn laws_of_receivers()
    ensures body { BodyDid }
    ensures climbs { ReceiverClimbs }
    ensures receive { ReceiversOfStaying }
    ensures stays { MemberStays }
    ensures received { MadeIsReceived }
    ensures claim { ReceiversClaim }
{}

/// Commits lead where their entries say.
pub fn laws_of_entries()
    ensures received { ReceivedAlong }
    ensures made { MadeAlong }
    ensures pends { MadePends }
{}

/// The Welcome of a commit that was made.
pub fn laws_of_welcomes()
    ensures made { WelcomeDid }
    ensures reads { WelcomeReads }
    ensures secrets { SecretsOpen }
    ensures opens { WelcomeOpens }
    ensures tree { TreeIsTaken }
    ensures signer { SignerPasses }
    ensures joins { JoinsAt }
    ensures keys { KeysTaken }
{}

/// The candidates whose own KeyPackages a commit that was made adds.
pub fn laws_of_joiners()
    ensures claim { JoinersClaim }
{}

/// Good members are kept, whatever bytes they meet.
pub fn laws_of_good_members()
    ensures candidates { CandidatesGood }
    ensures creators { CreatorsGood }
    ensures joiners { JoinersGood }
    ensures adds { AddsKeepGood }
    ensures updates { UpdatesKeepGood }
    ensures removes { RemovesKeepGood }
    ensures extensions { ExtensionsKeepGood }
    ensures commits { CommitsKeepGood }
    ensures drops { DropsKeepGood }
    ensures deliveries { DeliveriesKeepGood }
    ensures next { NextStatesGood }
{}

/// Public agreement: each step leads to the public state that the journal says, so that members with one journal have
/// one public state, and one epoch secret or two with one confirmation tag.
pub fn laws_of_journals()
    ensures public { PublicAgreement }
    ensures secret { SecretAgreement }
    ensures creations { CreationsAlong }
    ensures joins { JoinsAlong }
    ensures joins_here { JoinsHereAlong }
    ensures deliveries { DeliveriesAlong }
    ensures states { StatesAlong }
    ensures calls { CallsKeepState }
{}

/// The test for homemade journals says of each journal whether it is homemade: whether it began with a creation and
/// each of its entries was made by a commit call at the journal before it, where all calls that made one entry reached
/// one epoch secret.
pub fn laws_of_homemade_journals()
    ensures made { HomemadeIsMade }
    ensures homemade { MadeIsHomemade }
{}

/// The states that a member passed along its journal: they were passed in each world that this one becomes, they stand
/// where the journal leads, and along a homemade journal they have one epoch secret.
pub fn laws_of_lineage()
    ensures grows { PastGrows }
    ensures along { PastAlong }
    ensures secret { SameSecret }
{}

/// What is stable within an epoch, and what sets members of one public state apart.
pub fn laws_of_members()
    ensures names { NamesStable }
    ensures leaves { OwnLeaves }
{}

/// The empty world is good, and each event keeps a good world so.
pub fn laws_of_events()
    ensures empty { EmptyWorldGood }
    ensures events { EventsKeepGood }
    ensures runs { RunsKeepGood }
{}

/// The headline: it holds of each good world, and so of each world that a list of events leaves.
pub fn headline()
    ensures good { HeadlineOfGood }
    ensures runs { HoldsOnRuns }
{}

/// Worlds that a list of events leaves, as the invariant of a type: the empty one is, and each event and each list of
/// events leads on to such a world.
pub fn laws_of_reachable_worlds()
    ensures empty { EmptyIsReachable }
    ensures steps { StepsReach }
    ensures runs { RunsReach }
    ensures headline { HeadlineOfReachable }
{}
