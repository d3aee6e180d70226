//! A member as one who speaks.

ghost use Rattle.mls_message.specs.Speaks.{Speaks};

use crate::member::Member;
use mls_message::Speaker;
use mls_suite::Suite;

impl<S: Suite> Member<S> {
    /// The member, as it speaks in its epoch.
    pub(crate) fn speaker(&self) -> Speaker<'_>
        ensures { Speaks self.now result }
    {
        Speaker {
            group: &self.group,
            epoch: &self.epoch,
            leaf: self.keys.leaf(),
            signing: &self.signing,
        }
    }
}
