//! Whether numbers differ from one another.

ghost use Rattle.std.specs.Prelude.{◌≡◌, nat_eq};
ghost use Rattle.std.specs.Bool.{MatchBool};
ghost use Rattle.mls_tree_model.specs.Sets.{is_distinct};
ghost use Rattle.mls_public_group.specs.Numbers.{Differ, Repeats};

/// Whether no number is the same as the one before it.
fn neighbours_differ(numbers: &[u32]) -> bool
    ensures { MatchBool result (Differ numbers.now) (Repeats numbers.now) }
{
    for k in 1..numbers.len() {
        if numbers[k - 1] == numbers[k] {
            return false;
        }
    }
    true
}

/// Whether no number stands twice among these. They are sorted, which takes no memory.
pub(crate) fn are_distinct(numbers: Vec<u32>) -> bool
    ensures { result ≡ is_distinct nat_eq numbers.items }
{
    let mut numbers = numbers;
    numbers.sort_unstable();
    neighbours_differ(&numbers)
}
