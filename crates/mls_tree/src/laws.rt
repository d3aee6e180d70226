//! What passed its checks is fit for a tree, and what hashing costs.

ghost use Rattle.mls_tree.specs.ColdNodes.{FewHashes};
ghost use Rattle.mls_tree.specs.Laws.{PackageFits, ReplacementFits};

/// A KeyPackage, an update and a path's leaf that passed their checks are fit for the tree of their group. Does
/// nothing.
pub fn laws_of_leaves()
    ensures package_fit { PackageFits }
    ensures replacement_fit { ReplacementFits }
{}

/// After a tree hash, k edits with hashes asked for at any points make at most k * (h + 1) + d hashes of nodes, where
/// no tree is higher than h and doublings add d nodes. A law, which does nothing.
pub fn hashing_costs()
    ensures { FewHashes }
{}
