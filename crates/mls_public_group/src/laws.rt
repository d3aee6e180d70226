//! Laws of trees with short leaves.

ghost use Rattle.mls_public_group.specs.Short.{PathsKeepLeavesShort};

/// With a path merged, the leaves of a tree are as short as its own and the path's (RFC 9420, 7.5).
pub fn short_leaves_after_path()
    ensures { PathsKeepLeavesShort }
{}
