//! Members that are saved and loaded, as by an application that ends and begins again.

ghost use Rattle.std.specs.Prelude.{◌≡◌};
ghost use Rattle.std.specs.Option.{option_copied};
ghost use Rattle.mls_world.specs.Reload.{Reloads, active_member};

use crate::world::World;
use mls_suite::Suite;
use mls_world_plain::{LoadError, Member};

impl<S: Suite> World<S> {
    /// Member k, where it is there and wasn't removed.
    fn active_member(&self, k: usize) -> Option<&Member<S>>
        ensures { option_copied result ≡ active_member self.now k }
    {
        match self.world.member(k) {
            Some(member) => {
                if member.is_gone() {
                    return None;
                }
                Some(member)
            }
            None => None,
        }
    }

    /// Saves member k, loads it of these bytes, and puts what was loaded in its place: the bytes, or None where it
    /// isn't there or was removed. The world is as before, so whatever is called next is answered as without this
    /// call. Without memory (1), or where the bytes are more than an input has (6), nothing was replaced.
    pub fn reload(&mut self, k: usize) -> Result<Option<Vec<u8>>, LoadError>
        ensures same { self.new ≡ self.old }
        ensures saved { Reloads (active_member self.old k) result }
    {
        let Some(member) = self.active_member(k) else {
            return Ok(None);
        };
        let bytes = member.save()?;
        let member = Member::load(self.alloc, &bytes)?;
        self.world.replace_member(k, member);
        Ok(Some(bytes))
    }
}
