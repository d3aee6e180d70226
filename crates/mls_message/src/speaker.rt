//! Who speaks.

use mls_kdf::Secret;
use mls_public_group::PublicGroup;
use mls_schedule::Epoch;

/// A member, as it speaks in its epoch.
#[derive(Drop)]
pub struct Speaker<'a> {
    /// The public state of its group.
    pub group: &'a PublicGroup,
    /// The secrets of its epoch.
    pub epoch: &'a Epoch,
    /// The index of its leaf.
    pub leaf: u32,
    /// Its private signature key.
    pub signing: &'a Secret,
}
