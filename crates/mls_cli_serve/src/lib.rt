//! The jobs of the program `mls`: its command line, what a job prints of a file, and what is said on the errors.
//!
//! What a caller does with the words of a command line:
//!
//! - [`request`] makes a [`Request`] of them, or says by a [`NoJob`] why they name none.
//! - [`open_source`] opens the file of the request's job, and [`pace_of`] with [`Meter`] says how far a replay is.
//! - [`serve`] does the job over any file, output and errors, or says why there is none, and answers the exit status.
#![tactic(auto)]

mod arguments;
mod check_options;
mod drawing_options;
mod explain_arguments;
mod hints;
mod member_picture;
mod meter;
mod options;
mod places;
mod printing;
mod remarks;
mod replay_arguments;
mod saying;
mod serving;
mod show_options;
mod source;
mod tasks;
mod vectors_options;

pub use arguments::{examples, no_text, request};
pub use meter::{Meter, Pace, pace_of};
pub use serving::serve;
pub use source::{Source, open_source};
pub use tasks::{Job, Layout, NoJob, ProgressChoice, Request, SuiteChoice};
