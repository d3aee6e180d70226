//! The rows of a format's table.

ghost use Rattle.std.specs.Prelude.{◌≡◌};
ghost use Rattle.mls_cli_json_place.specs.Faults.{at_key, no_more};

use crate::key::Key;
use crate::place::Wrong;

/// The value at a key can't be read, or else what the other rows say.
pub(crate) fn at_key(key: Key, right: bool, others: Option<Wrong>) -> Option<Wrong>
    ensures { result ≡ at_key key right others }
{
    if right {
        return others;
    }
    Some(Wrong::At(key))
}

/// Behind all rows: nothing is wrong, or there are other members than the format's.
pub(crate) fn no_more(counted: bool) -> Option<Wrong>
    ensures { result ≡ no_more counted }
{
    if counted {
        return None;
    }
    Some(Wrong::Extra)
}
