//! Laws of group infos. The function does nothing, and its contract is the law.

ghost use Rattle.mls_types.specs.GroupInfoLaws.{GroupInfoIsSpelled};

/// What is signed of a group info is all of its spelling in front of the signature (RFC 9420, 12.4.3).
pub fn laws_of_group_infos()
    ensures { GroupInfoIsSpelled }
{}
