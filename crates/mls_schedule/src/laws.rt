//! What holds of any epochs: laws, each the contract of a function that does nothing.

ghost use Rattle.mls_schedule.specs.Laws.{JoinerReachesNext, EqualOrTwins, TwinsShareTags};

/// A law: two epochs with one confirmation tag over a confirmed hash have one epoch secret and the
/// same nine secrets, or they are twins.
pub fn equal_or_twins()
    ensures { EqualOrTwins }
{}

/// A law: a new member that was given some joiner secret, and finds the tag that the commit's maker
/// sent, has the maker's epoch secret and nine secrets, or the two epochs are twins.
pub fn joiner_reaches_next()
    ensures { JoinerReachesNext }
{}

/// A law: twins are different, and have one confirmation tag.
pub fn twins_share_tags()
    ensures { TwinsShareTags }
{}
