//! Lines `name: value` and pages of them, hex files, and the ends that files are read from and pages printed to: what
//! the subcommands of `mls` share.
#![tactic(auto)]

mod fault;
mod form;
mod hex_file;
mod input;
mod output;
mod page;
mod printing;
mod text;

pub use fault::Fault;
pub use form::Form;
pub use hex_file::{FileError, HEX_FILE_LIMIT, file_bytes, is_hex, is_hex_file};
pub use input::{In, Input};
pub use output::{Out, Output};
pub use page::{Ending, Page, print_made_page, print_page, refused_page};
pub use printing::{Printed, print, print_lines};
pub use text::{Field, Line, Prefix, append_line, append_lines, line_of, line_with, push_number};
