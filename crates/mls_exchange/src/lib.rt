//! Application messages of one epoch (RFC 9420, 6.3 and 9), over the epoch's plain parts.
//!
//! An [`Exchange`] seals what its member says and opens what the others say, in whatever order their messages come, each
//! once. It holds no key that was used, and nothing that such a key is derived from.
#![tactic(auto)]

mod error;
mod exchange;
mod laws;
mod open;
mod place;
mod said;
mod save;
mod seal;

pub use error::ExchangeError;
pub use exchange::{Exchange, Parts};
pub use laws::{
    arrives_in_any_order, calls_stay_in_epoch, generations_never_fall, opened_is_genuine,
    opens_once, sealed_arrives, used_keys_are_gone,
};
pub use open::Opened;
pub use place::{MessageKind, MessagePlace, message_place};
