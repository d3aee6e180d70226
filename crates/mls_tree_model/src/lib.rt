//! Ratchet trees as terms: definitions and their laws. Each function does nothing, and its contract is the laws of one
//! subject.
#![tactic(auto)]

ghost use Rattle.mls_tree_model.specs.Laws.{WidthOfPerfect, SizeOfWidth, WidthOfPut, WidthOfEnter, WidthOfMerge, PerfectPut, PerfectEnter, PerfectGrow, PerfectTrim, PerfectMerge, FullTrim};
ghost use Rattle.mls_tree_model.specs.Laws.{LeavesOfPut, LeavesOfEnter, LeavesOfMerge, MembersOfGrow, MembersOfTrim, FirstBlankIsBlank, FirstBlankIsFirst, NoBlankIsFull, AddedIsThere, AddedElsewhere, AddedIsWider, AddedIsWithin, RemovedElsewhere};
ghost use Rattle.mls_tree_model.specs.Laws.{EachMemberPasses, ClientsMerge, ClientsMergePath, OneLeafOfClient, MembersPut, MembersEnter, MembersMerge, MembersGrow, MembersTrim, KeysPut, KeysEnter, KeysMerge, KeysGrow, KeysTrim};
ghost use Rattle.mls_tree_model.specs.Laws.{ListedIsMember, BlankIsUnlisted, ParentsPut, ParentsGrow, ParentsTrim, ListsEnter, RisesEnter, ListsMerge, RisesMerge, RightUpdate, RightRemove, RightAdd, RightMergePath, RisingUpdate, RisingRemove, RisingAdd, RisingMergePath};
ghost use Rattle.mls_tree_model.specs.Laws.{MembersAreReached, ResolutionIsIn, ResolutionIsDistinct, OneIsHeld, OneIsHeldOfRest, OneIsFiltered, LengthOfPath, AddedJoins};
ghost use Rattle.mls_tree_model.specs.Laws.{OriginalOfNone, OriginalOfEnter, OriginalOfOthers, HashesOfEnter, ValidEnter, MergeHasHead, ValidMerge, TiedUpdate, TiedRemove, TiedAdd, TiedMergePath, LengthOfTreeHash, LengthOfPathHash, PathHashIsEmpty};
ghost use Rattle.mls_tree_model.specs.Laws.{GoodSingle, GoodUpdate, GoodRemove, GoodAdd, GoodMerge, GoodMergePath, SoundOfGood, GoodOfSound, SoundUpdate, SoundRemove, SoundAdd, SoundMergePath, GoodPasses, GoodFromChecks};
ghost use Rattle.mls_tree_model.specs.Laws.{TermOfInOrder, TermOfIsPerfect, FromToNodes, NodeInOrder, LeafIsNode, NodeOfWay, WayIsDirectPath, LeafByBits};
ghost use Rattle.mls_tree_model.specs.Examples.{ResolutionWithUnmerged, FilteredPathOfFour, NextAddOfFour, AddBehindPath, RemovalHalves, RemovalKeeps, RemovalHalvesOften, PathOfTwo, TreeOfTwo};

/// Widths and shapes: a perfect tree of height h has 2^h leaves, a tree two nodes a leaf less one, edits keep trees
/// perfect, and trimming leaves no right half without a member.
pub fn laws_of_shape()
    ensures width_of_perfect { WidthOfPerfect }
    ensures size_of_width { SizeOfWidth }
    ensures width_of_put { WidthOfPut }
    ensures width_of_enter { WidthOfEnter }
    ensures width_of_merge { WidthOfMerge }
    ensures perfect_put { PerfectPut }
    ensures perfect_enter { PerfectEnter }
    ensures perfect_grow { PerfectGrow }
    ensures perfect_trim { PerfectTrim }
    ensures perfect_merge { PerfectMerge }
    ensures full_trim { FullTrim }
{}

/// Leaves under each edit: one changes, or none; an added leaf lands in its place, and makes a tree too large exactly
/// when it is full; a removal cuts no other member.
pub fn laws_of_leaves()
    ensures put { LeavesOfPut }
    ensures enter { LeavesOfEnter }
    ensures merge { LeavesOfMerge }
    ensures grow { MembersOfGrow }
    ensures trim { MembersOfTrim }
    ensures first_blank { FirstBlankIsBlank }
    ensures first { FirstBlankIsFirst }
    ensures full { NoBlankIsFull }
    ensures added { AddedIsThere }
    ensures added_elsewhere { AddedElsewhere }
    ensures wider { AddedIsWider }
    ensures within { AddedIsWithin }
    ensures removed_elsewhere { RemovedElsewhere }
{}

/// A test that each member passes is kept by each edit, where the new leaf passes it; what all pass each passes.
pub fn laws_of_members()
    ensures each { EachMemberPasses }
    ensures put { MembersPut }
    ensures enter { MembersEnter }
    ensures merge { MembersMerge }
    ensures grow { MembersGrow }
    ensures trim { MembersTrim }
{}

/// A merge keeps the signature keys where the leaf keeps its own, and where none stands twice each is that of one leaf.
pub fn laws_of_clients()
    ensures merge { ClientsMerge }
    ensures merge_path { ClientsMergePath }
    ensures one { OneLeafOfClient }
{}

/// A test that each encryption key passes is kept by each edit, where the new keys pass it.
pub fn laws_of_keys()
    ensures put { KeysPut }
    ensures enter { KeysEnter }
    ensures merge { KeysMerge }
    ensures grow { KeysGrow }
    ensures trim { KeysTrim }
{}

/// Lists of unmerged leaves name members below their parent, and stay right and rising under each edit.
pub fn laws_of_lists()
    ensures listed { ListedIsMember }
    ensures unlisted { BlankIsUnlisted }
    ensures put { ParentsPut }
    ensures grow { ParentsGrow }
    ensures trim { ParentsTrim }
    ensures right_enter { ListsEnter }
    ensures rising_enter { RisesEnter }
    ensures right_merge { ListsMerge }
    ensures rising_merge { RisesMerge }
    ensures right_update { RightUpdate }
    ensures right_remove { RightRemove }
    ensures right_add { RightAdd }
    ensures right_merge_path { RightMergePath }
    ensures rising_update { RisingUpdate }
    ensures rising_remove { RisingRemove }
    ensures rising_add { RisingAdd }
    ensures rising_merge_path { RisingMergePath }
{}

/// Resolutions stay in their tree and name no node twice, each member has the key of one node of each resolution over
/// it, and two ways part at one parent of the filtered path.
pub fn laws_of_resolutions()
    ensures reached { MembersAreReached }
    ensures within { ResolutionIsIn }
    ensures distinct { ResolutionIsDistinct }
    ensures held { OneIsHeld }
    ensures held_of_rest { OneIsHeldOfRest }
    ensures filtered { OneIsFiltered }
    ensures path_length { LengthOfPath }
    ensures added { AddedJoins }
{}

/// Original siblings are blind to adds, each edit keeps parents parent-hash valid where lists are right, and hashes
/// have 32 bytes.
pub fn laws_of_parent_hashes()
    ensures original_tree { OriginalOfNone }
    ensures original_enter { OriginalOfEnter }
    ensures original_others { OriginalOfOthers }
    ensures field { HashesOfEnter }
    ensures valid_enter { ValidEnter }
    ensures head { MergeHasHead }
    ensures valid_merge { ValidMerge }
    ensures tied_update { TiedUpdate }
    ensures tied_remove { TiedRemove }
    ensures tied_add { TiedAdd }
    ensures tied_merge_path { TiedMergePath }
    ensures tree_hash { LengthOfTreeHash }
    ensures path_hash { LengthOfPathHash }
    ensures no_path { PathHashIsEmpty }
{}

/// Good trees stay good under each edit; so do sound trees, which are good but that keys and clients may repeat.
pub fn laws_of_good_trees()
    ensures single { GoodSingle }
    ensures update { GoodUpdate }
    ensures remove { GoodRemove }
    ensures add { GoodAdd }
    ensures merge { GoodMerge }
    ensures merge_path { GoodMergePath }
    ensures sound { SoundOfGood }
    ensures from_sound { GoodOfSound }
    ensures sound_update { SoundUpdate }
    ensures sound_remove { SoundRemove }
    ensures sound_add { SoundAdd }
    ensures sound_merge_path { SoundMergePath }
    ensures passes { GoodPasses }
    ensures from_checks { GoodFromChecks }
{}

/// Small trees, worked out: resolutions, filtered paths, where adds go, removals that halve, and merged paths.
pub fn worked_examples()
    ensures resolution { ResolutionWithUnmerged }
    ensures filtered { FilteredPathOfFour }
    ensures next_add { NextAddOfFour }
    ensures add_behind { AddBehindPath }
    ensures halves { RemovalHalves }
    ensures keeps { RemovalKeeps }
    ensures halves_often { RemovalHalvesOften }
    ensures path_of_two { PathOfTwo }
    ensures tree_of_two { TreeOfTwo }
{}

/// The list of a perfect tree's nodes in order stands for that tree, a tree that is sent without the blank nodes at
/// its end is read again, and numbers, places, ways and bits name the same nodes.
pub fn laws_of_lists_of_nodes()
    ensures term { TermOfInOrder }
    ensures perfect { TermOfIsPerfect }
    ensures sent { FromToNodes }
    ensures node { NodeInOrder }
    ensures leaf { LeafIsNode }
    ensures way { NodeOfWay }
    ensures direct_path { WayIsDirectPath }
    ensures bits { LeafByBits }
{}
