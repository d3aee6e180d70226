//! Private paths on ratchet trees as terms (RFC 9420, 7.4 to 7.7 and 12.4.3.1): definitions and their laws. Each
//! function does nothing, and its contract is the laws of one subject.
#![tactic(auto)]

ghost use Rattle.mls_tree_model.specs.Laws.{MembersAreReached};
ghost use Rattle.mls_treekem_model.specs.Laws.{TamePut, TameEnter, TameRefl, TameTrans, FollowTame, FollowGrow, FollowTrim, FollowOwn};
ghost use Rattle.mls_treekem_model.specs.Laws.{FollowsTrans, FollowsTame, FollowsGrow, FollowsTrim, FollowEdit, FollowOwnEdit, ExactIsOnWay, LeafIsOnWay, EditIsFollow};
ghost use Rattle.mls_treekem_model.specs.Laws.{RightAreBelow, BelowPut, BelowEnter, BelowGrow, BelowTrim, BelowMerge};
ghost use Rattle.mls_treekem_model.specs.Laws.{ResolutionInPlace, ResolutionDistinct, OneFiltered, OneNode, KeyWhereHeld, OneEntry, OneTarget, EntryKey, PairsInOrder, PairsFound};
ghost use Rattle.mls_treekem_model.specs.Laws.{KeysAreChain, KeysOfSecrets, CountIsLength, MakingClimbs, MakeExact, MadePath, PathMade, PathHasKeys, SeedWraps, MakeMerged, SealMerged, CountMerged, PathMerged};
ghost use Rattle.mls_treekem_model.specs.Laws.{OpenMerged, ClimbExact, ClimbAgree, CommitAgree};
ghost use Rattle.mls_treekem_model.specs.Laws.{TakeExact, TakeInside, LeafHasDue, LeafExact, TakeAgree, JoinAgree, EnteredLists, TameLists};
ghost use Rattle.mls_treekem_model.specs.Whole.{FollowsUpdate, FollowsRemove, FollowsAdd, AddedIsListed, AddKeepsListed};
ghost use Rattle.mls_treekem_model.specs.Examples.{SecretOfOne, SecretOfFour, PathOfFour, TargetsOfFour, KeysOfMaker, KeysBeside, KeysAcross, TargetsBesideAdded};
ghost use Rattle.mls_treekem_model.specs.Holding.{ExactIsHeld, HeldIsExact};
ghost use Rattle.mls_treekem_model.specs.Members.{ExactWhole, ExactMade, ExactFollowed, ExactUpdated, ExactOpened, KeysMerged, ExactReceived, MadeReceived, ShownAreDue, ExactTaken, ExactAlone};
ghost use Rattle.mls_treekem_model.specs.Whole.{SealedKeys, SealedLengths, SealedOfChain, SealedWhereFit, RefusedWhereUnfit, FitTargets, SealedMerged, OpenedMerged, SecretMerged, MadeExact, MadeMerged, LengthMerged, FilteredMerged, OpenedExact, OpenedAgrees, OpenedIsSent, SecretIsAmong, SecretAtAncestor, TakenAgrees, SecretForMerged};
ghost use Rattle.mls_treekem_model.specs.Whole.{SealedByNumber, SealsAreCounted, RefusedUnopened, JudgedByKeys, TakenFits, FitIsTaken};

/// Exact keys follow the edits of a tree.
pub fn laws_of_following()
    ensures put { TamePut }
    ensures enter { TameEnter }
    ensures refl { TameRefl }
    ensures trans { TameTrans }
    ensures tame { FollowTame }
    ensures grow { FollowGrow }
    ensures trim { FollowTrim }
    ensures own { FollowOwn }
{}

/// One pass over the edited tree follows all edits.
pub fn laws_of_one_pass()
    ensures trans { FollowsTrans }
    ensures tame { FollowsTame }
    ensures grow { FollowsGrow }
    ensures trim { FollowsTrim }
    ensures edit { FollowEdit }
    ensures own { FollowOwnEdit }
    ensures keys_on_way { ExactIsOnWay }
    ensures leaf { LeafIsOnWay }
    ensures follow { EditIsFollow }
{}

/// Lists of unmerged leaves name leaves below their parent, and the edits keep them so.
pub fn laws_of_lists()
    ensures right { RightAreBelow }
    ensures put { BelowPut }
    ensures enter { BelowEnter }
    ensures grow { BelowGrow }
    ensures trim { BelowTrim }
    ensures merge { BelowMerge }
{}

/// A commit reaches each other member at just one node, by just one key that the member has.
pub fn laws_of_targets()
    ensures filled { MembersAreReached }
    ensures in_place { ResolutionInPlace }
    ensures distinct { ResolutionDistinct }
    ensures one_filtered { OneFiltered }
    ensures one_node { OneNode }
    ensures held { KeyWhereHeld }
    ensures one_entry { OneEntry }
    ensures one_target { OneTarget }
    ensures entry_key { EntryKey }
    ensures in_order { PairsInOrder }
    ensures found { PairsFound }
{}

/// The committer's secrets are one chain, and its keys are exact.
pub fn laws_of_making()
    ensures keys { KeysAreChain }
    ensures secrets { KeysOfSecrets }
    ensures count { CountIsLength }
    ensures climbs { MakingClimbs }
    ensures exact { MakeExact }
    ensures made { MadePath }
    ensures fit { PathMade }
    ensures path { PathHasKeys }
    ensures wraps { SeedWraps }
    ensures merged { MakeMerged }
    ensures seal_merged { SealMerged }
    ensures count_merged { CountMerged }
    ensures path_merged { PathMerged }
{}

/// A receiver's keys stay exact, and what it opens is the committer's.
pub fn laws_of_receiving()
    ensures merged { OpenMerged }
    ensures exact { ClimbExact }
    ensures agree { ClimbAgree }
    ensures commit { CommitAgree }
{}

/// A joiner's keys are exact, and what it takes is the committer's.
pub fn laws_of_joining()
    ensures exact { TakeExact }
    ensures inside { TakeInside }
    ensures leaf_due { LeafHasDue }
    ensures leaf_exact { LeafExact }
    ensures agree { TakeAgree }
    ensures commit { JoinAgree }
    ensures entered { EnteredLists }
    ensures tame { TameLists }
{}

/// In whole trees: a member follows each edit of another's, and an added leaf stays listed.
pub fn laws_of_edits()
    ensures update { FollowsUpdate }
    ensures remove { FollowsRemove }
    ensures add { FollowsAdd }
    ensures added { AddedIsListed }
    ensures kept { AddKeepsListed }
{}

/// In whole trees: a path whose nodes come the lowest first, as it is sealed, opened and taken.
pub fn laws_of_paths()
    ensures keys { SealedKeys }
    ensures lengths { SealedLengths }
    ensures of_chain { SealedOfChain }
    ensures fit { SealedWhereFit }
    ensures unfit { RefusedWhereUnfit }
    ensures fit_targets { FitTargets }
    ensures seal_merged { SealedMerged }
    ensures open_merged { OpenedMerged }
    ensures opened_merged { SecretMerged }
    ensures made_exact { MadeExact }
    ensures made_merged { MadeMerged }
    ensures length_merged { LengthMerged }
    ensures filtered_merged { FilteredMerged }
    ensures opened_exact { OpenedExact }
    ensures opened_agrees { OpenedAgrees }
    ensures opened_secret { OpenedIsSent }
    ensures among { SecretIsAmong }
    ensures at_ancestor { SecretAtAncestor }
    ensures taken_agrees { TakenAgrees }
    ensures secret_merged { SecretForMerged }
    ensures numbered { SealedByNumber }
    ensures counted { SealsAreCounted }
{}

/// In whole trees: any path, whoever made it, is accepted exactly when its keys are those of the secret that was
/// opened, and a joiner takes any path secret exactly when the parents over it have the keys of its chain and don't
/// list the joiner, and those on its own side list it.
pub fn laws_of_any_path()
    ensures unopened { RefusedUnopened }
    ensures judged { JudgedByKeys }
    ensures taken { TakenFits }
    ensures fits { FitIsTaken }
{}

/// In whole trees: each call leaves a member with exact keys, whichever the calls before it were.
pub fn laws_of_members()
    ensures whole { ExactWhole }
    ensures made { ExactMade }
    ensures followed { ExactFollowed }
    ensures updated { ExactUpdated }
    ensures opened { ExactOpened }
    ensures keys_merged { KeysMerged }
    ensures received { ExactReceived }
    ensures made_received { MadeReceived }
    ensures shown { ShownAreDue }
    ensures taken { ExactTaken }
    ensures alone { ExactAlone }
{}

/// A test of private keys holds exactly where a member's keys are exact.
pub fn laws_of_holding()
    ensures held { ExactIsHeld }
    ensures exact { HeldIsExact }
{}

/// Small trees, worked out: paths of one and of four members, and of four where one was just added.
pub fn worked_examples()
    ensures secret_of_one { SecretOfOne }
    ensures secret_of_four { SecretOfFour }
    ensures path_of_four { PathOfFour }
    ensures targets_of_four { TargetsOfFour }
    ensures keys_of_maker { KeysOfMaker }
    ensures keys_beside { KeysBeside }
    ensures keys_across { KeysAcross }
    ensures targets_beside_added { TargetsBesideAdded }
{}
