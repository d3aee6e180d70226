//! Whether byte strings differ from one another.

ghost use Rattle.std.specs.Prelude.{◌≡◌};
ghost use Rattle.std.specs.Bool.{MatchBool};
ghost use Rattle.mls_tree_model.specs.Sets.{same_bytes, is_distinct};
ghost use Rattle.mls_tree_array.specs.DistinctStrings.{Differ, Repeats, bytes_in};

/// Whether no byte string is the same as the one before it.
fn neighbours_differ(strings: &[&[u8]]) -> bool
    ensures { MatchBool result (Differ strings.now) (Repeats strings.now) }
{
    for k in 1..strings.len() {
        if strings[k - 1] == strings[k] {
            return false;
        }
    }
    true
}

/// Whether no byte string stands twice among these. They are sorted, which takes no memory.
pub fn are_distinct(strings: Vec<&[u8]>) -> bool
    ensures { result ≡ is_distinct same_bytes (bytes_in strings.entry.items) }
{
    let mut strings = strings;
    strings.sort_unstable();
    neighbours_differ(&strings)
}
