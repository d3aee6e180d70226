//! Arrays, value by value.

ghost use Rattle.std.specs.Prelude.{◌≡◌, Bool, Option};
ghost use Rattle.serde_json.specs.Data.{Data};
ghost use Rattle.serde_json.specs.View.{view, items_view};
ghost use Rattle.mls_cli_json_place.specs.Lists.{all_items, first_wrong};
ghost use Rattle.mls_cli_json_place.specs.declared.place.Wrong.{Wrong};

use crate::place::Wrong;
use serde_json::Value;

/// What a value can be read as.
pub(crate) trait Shape {
    // Whether it can be read so.
    ghost right: { Data → Bool };

    /// Whether the value can be read so.
    fn is_right(value: &Value) -> bool
        ensures { result ≡ right (view value.now) };
}

/// Whether each value can be read.
#[tactic(auto, unfolding(crate::specs::Lists::all_items))]
pub(crate) fn are_right<S: Shape>(values: &[Value]) -> bool
    ensures { result ≡ all_items S.right (items_view values.now) }
{
    for value in values {
        if !S::is_right(value) {
            return false;
        }
    }
    true
}

/// What an array is of.
pub(crate) trait Entry {
    // What is wrong with a value.
    ghost wrong: { Self → Data → Option Wrong };

    /// What is wrong with a value.
    fn wrong_in(&self, value: &Value) -> Option<Wrong>
        ensures { result ≡ wrong self.now (view value.now) };
}

/// The first value with which something is wrong, by its number from 0 on.
#[tactic(auto, unfolding(crate::specs::Lists::first_wrong))]
pub(crate) fn first_wrong<E: Entry>(entry: &E, values: &[Value]) -> Option<(usize, Wrong)>
    ensures { result ≡ first_wrong (E.wrong entry.now) 0 (items_view values.now) }
{
    for index in 0..values.len() {
        if let Some(wrong) = entry.wrong_in(&values[index]) {
            return Some((index, wrong));
        }
    }
    None
}
