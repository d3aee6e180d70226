//! Lists, read value by value.

ghost use Rattle.std.specs.Prelude.{◌≡◌, ◌&&◌, ◌++◌, is_some, option_to_list, IfOk, OnOk};

use std::alloc::AllocError;

/// Adds what was found, and answers whether all texts are hex so far.
pub fn push_found<T: Drop>(
    list: &mut Vec<T>,
    all_hex: bool,
    found: Option<T>,
) -> Result<bool, AllocError>
    ensures hex { IfOk result (λ hex. hex ≡ (all_hex && is_some found)) }
    ensures items { OnOk result (list.new.items ≡ list.old.items ++ option_to_list found) }
{
    match found {
        Some(it) => {
            list.push(it)?;
            Ok(all_hex)
        }
        None => Ok(false),
    }
}
