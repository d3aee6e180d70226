//! A member that was saved and loaded.

ghost use Rattle.std.specs.Prelude.{◌≡◌, Some};
ghost use Rattle.mls_world_plain.specs.CallAnswers.{seated_member};

use crate::world::PlainWorld;
use mls_member::Member;
use mls_suite::Suite;

impl<S: Suite> PlainWorld<S> {
    /// Puts a member in the place of member k, which it equals, as one does that was saved and loaded. The world is as
    /// before.
    #[tactic(auto, using(crate::proofs::Stores::seat_found, crate::proofs::Stores::seat_missing, crate::proofs::Stores::seat_set, crate::proofs::Stores::unchanged))]
    pub fn replace_member(&mut self, k: usize, member: Member<S>)
        requires { seated_member self.old k ≡ Some member }
        ensures { self.new ≡ self.old }
    {
        let Some(seat) = self.seats.get_mut(k) else {
            return;
        };
        seat.member = member;
    }
}
