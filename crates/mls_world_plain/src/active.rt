//! The members of a world that weren't removed.

ghost use Rattle.std.specs.Prelude.{◌≡◌, ◌+◌, ◌<◌, ◌^◌, length, IfSome};
ghost use Rattle.std.specs.Iterator.{YieldsFirst, item_count};
ghost use Rattle.mls_world_plain.specs.ActiveMembers.{IsNextActive, active, is_active};

use crate::world::PlainWorld;
use mls_suite::Suite;
use std::marker::Model;

/// The numbers of the members that weren't removed, in order, lent from a world. It takes no memory.
#[derive(Drop)]
pub struct Active<'a, S: Suite> {
    world: &'a PlainWorld<S>,
    from: usize,
}

impl<'a, S: Suite> Model for Active<'a, S> {
    ghost use Rattle.std.specs.Prelude.{ℕ, List};

    ghost Value = { List ℕ };

    ghost use Rattle.mls_world_plain.specs.ActiveMembers.{active_behind};

    ghost view = { λ a. active_behind a.world.now a.from };
}

impl<'a, S: Suite> Iterator for Active<'a, S> {
    type Item = usize;

    ghost next_gives = { YieldsFirst (λ s. s) };

    ghost remaining = { item_count (λ s. s) };

    fn next(&mut self) -> Option<usize> {
        match self.world.next_active(self.from) {
            None => None,
            Some(number) => {
                self.from = number + 1;
                Some(number)
            }
        }
    }
}

impl<S: Suite> PlainWorld<S> {
    /// How many members there are, removed ones among them.
    pub fn member_count(&self) -> usize
        ensures { result ≡ length self.now.seats }
    {
        self.seats.len()
    }

    /// Whether member k is there and wasn't removed.
    fn is_active(&self, k: usize) -> bool
        ensures { result ≡ is_active self.now k }
    {
        match self.member(k) {
            Some(member) => !member.is_gone(),
            None => false,
        }
    }

    /// The first member from a number on that wasn't removed, if there is one.
    fn next_active(&self, from: usize) -> Option<usize>
        ensures first { IsNextActive self.now from result }
        ensures below { IfSome result (λ n. n + 1 < 2 ^ 64) }
    {
        for number in from..self.member_count() {
            if self.is_active(number) {
                return Some(number);
            }
        }
        None
    }

    /// The numbers of the members that weren't removed, in order.
    pub fn active(&self) -> Active<'_, S>
        ensures { result ≡ active self.now.seats }
    {
        Active {
            world: self,
            from: 0,
        }
    }
}
