//! Private messages with application data (RFC 9420, 6.3): their formats, the key of sender data, the reuse guard, and
//! sealing and opening both of their sealed parts.
#![tactic(auto)]

mod content;
mod error;
mod keys;
mod laws;
mod private_message;
mod sealing;
mod sender_data;

pub use content::{ReadContent, read_content, write_content};
pub use error::PrivateMessageError;
pub use laws::{contents_are_exact, sealed_opens};
pub use private_message::PrivateMessage;
pub use sealing::{open_content, open_sender_data, seal_content, seal_sender_data};
pub use sender_data::SenderData;
