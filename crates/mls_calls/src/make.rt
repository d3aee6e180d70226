//! Room for what a call makes.

ghost use Rattle.std.specs.Prelude.{◌≡◌, IfErr, MatchResult};
ghost use Rattle.mls_calls.specs.Calls.{IsTwo, makes, tells};
ghost use Rattle.mls_calls.specs.Shown.{bytes as shown_bytes, fruits, shown};

use crate::done::Fruit;
use crate::given::{OUT_OF_MEMORY, copy_of};
use crate::held::Held;
use mls::Bytes;
use std::alloc::Global;

/// Room for what a handle holds, or `OutOfMemory` (1).
pub(crate) fn room(alloc: Global) -> Result<Box<Held>, u32>
    ensures { IfErr result (λ n. n ≡ 1) }
{
    match Box::new(alloc, Held::Nothing) {
        Ok(room) => Ok(room),
        Err(_) => Err(OUT_OF_MEMORY),
    }
}

/// A number alone.
pub(crate) fn number(value: u64) -> Fruit
    ensures { fruits result ≡ tells value }
{
    Fruit {
        made: None,
        other: None,
        value,
    }
}

/// What one handle holds.
pub(crate) fn fill(mut room: Box<Held>, held: Held) -> Fruit
    ensures { fruits result ≡ makes (shown held) }
{
    *room = held;
    Fruit {
        made: Some(room),
        other: None,
        value: 0,
    }
}

/// What one handle holds of bytes.
pub(crate) fn fill_bytes(room: Box<Held>, bytes: Vec<u8>) -> Fruit
    ensures { fruits result ≡ makes (shown_bytes bytes.items) }
{
    fill(room, Held::Bytes(Bytes::from_vec(bytes)))
}

/// A copy of bytes, which one handle holds, or `OutOfMemory` (1).
pub(crate) fn fill_copy(alloc: Global, bytes: &[u8]) -> Result<Fruit, u32>
    ensures { MatchResult result (λ f. fruits f ≡ makes (shown_bytes bytes.now)) (λ n. n ≡ 1) }
{
    let room = room(alloc)?;
    let copy = copy_of(alloc, bytes)?;
    Ok(fill_bytes(room, copy))
}

/// What two handles hold of bytes: the second nothing where there are no others.
pub(crate) fn two(
    mut first_room: Box<Held>,
    mut second_room: Box<Held>,
    first: Bytes,
    second: Option<Bytes>,
    value: u64,
) -> Fruit
    ensures { IsTwo first second value result }
{
    *first_room = Held::Bytes(first);
    let other = match second {
        Some(second) => {
            *second_room = Held::Bytes(second);
            Some(second_room)
        }
        None => None,
    };
    Fruit {
        made: Some(first_room),
        other,
        value,
    }
}
