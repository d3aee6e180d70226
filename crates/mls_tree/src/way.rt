//! The way from the root to a leaf.

ghost use Rattle.std.specs.Prelude.{◌≡◌, suc, ◌+◌, ◌^◌, ◌≤◌, length};
ghost use Rattle.mls_treemath.specs.Limits.{max_height};
ghost use Rattle.mls_tree.specs.Way.{numbers_from, way_numbers};

use mls_treemath::MAX_HEIGHT;
use std::marker::Model;

/// How many levels the largest tree has.
const LEVELS: usize = MAX_HEIGHT as usize + 1;

/// The numbers of the nodes over a leaf, the highest first, and of that leaf. They take no memory.
#[derive(Drop)]
pub(crate) struct Way {
    numbers: [u32; LEVELS],
    count: usize,
}

impl Model for Way {
    ghost use Rattle.std.specs.Prelude.{ℕ, List, suc, take, ◌≤◌};
    ghost use Rattle.mls_treemath.specs.Limits.{max_height};

    ghost Value = { List ℕ };

    ghost view = { λ w. take w.count w.numbers };

    ghost invariant = { λ w. w.count ≤ suc max_height };
}

/// Writes the numbers of the nodes over leaf i, and of that leaf, in a tree whose first leaf is this one.
fn write_numbers(numbers: &mut [u32], height: u32, first: u32, i: u32)
    requires long { length numbers.old ≡ suc height }
    requires fits { first + 2 ^ height ≤ 2 ^ 31 }
    requires low { height ≤ max_height }
    ensures { numbers.new ≡ numbers_from height first i }
{
    if height == 0 {
        numbers[0] = 2 * first;
        return;
    }
    let second = first + (1 << (height - 1));
    numbers[0] = 2 * second - 1;
    let side = if i < second { first } else { second };
    write_numbers(&mut numbers[1..], height - 1, side, i);
}

impl Way {
    /// The way to leaf i in a tree of this height.
    pub(crate) fn over(height: u32, i: u32) -> Way
        requires { height ≤ max_height }
        ensures { result ≡ way_numbers height i }
    {
        let mut numbers = [0; LEVELS];
        let count = height as usize + 1;
        write_numbers(&mut numbers[..count], height, 0, i);
        Way { numbers, count }
    }

    /// The numbers.
    pub(crate) fn as_slice(&self) -> &[u32]
        ensures numbers { result.now ≡ self.now }
        ensures few { length result.now ≤ suc max_height }
    {
        &self.numbers[..self.count]
    }
}
