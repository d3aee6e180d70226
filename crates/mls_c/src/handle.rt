//! What C points to.

/// What C points to. Only the library looks into it.
#[repr(C)]
#[derive(Drop)]
pub struct Handle {
    opaque: u8,
}
