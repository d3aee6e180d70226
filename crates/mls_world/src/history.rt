//! How a world came about.

ghost use Rattle.mls_theorems.specs.Reachable.{IsReachable};

use crate::world::World;
use mls_suite::Suite;

impl<S: Suite> World<S> {
    /// Tells that a list of events led here from the empty world, and does nothing. So the laws of such worlds hold of it.
    pub fn history(&self)
        ensures { IsReachable S.crypto self.now }
    {
        let _world = &self.world;
    }
}
