//! Laws of node indices. Each function does nothing, and its contract is the laws of one subject.

ghost use Rattle.mls_treemath.specs.Laws.{NodeHasWay, WayLeadsBack, NodeOfWay, NoWayOutside, CommonAncestorIsLowest};

/// An index and its way determine each other (RFC 9420 section 4.1.2): each node has one way, no longer than the tree
/// is high, and each such way leads to one node; no way leads outside the tree.
pub fn laws_of_ways()
    ensures way_of_node { NodeHasWay }
    ensures leads_back { WayLeadsBack }
    ensures node_of_way { NodeOfWay }
    ensures outside { NoWayOutside }
{}

/// Two nodes of a tree have a common ancestor, and it is the lowest node over both (RFC 9420, Appendix C).
pub fn laws_of_common_ancestors()
    ensures { CommonAncestorIsLowest }
{}
