//! What a job reads: a file, or the standard input.

ghost use Rattle.std.specs.Prelude.{◌≡◌, false, IfSome};
ghost use Rattle.mls_cli_text.specs.InputOutput.{in_failed};

use mls_cli_text::In;
use std::fs::File;
use std::io;
use std::io::{Read, Stdin};

/// What a job reads.
#[derive(Drop)]
pub enum Source {
    /// A file.
    Opened(File),
    /// The standard input.
    Standard(Stdin),
}

impl Read for Source {
    fn read(&mut self, bytes: &mut [u8]) -> io::Result<usize> {
        match self {
            Source::Opened(file) => file.read(bytes),
            Source::Standard(stdin) => stdin.read(bytes),
        }
    }
}

/// What stands under a path, if it can be opened: `-` is the standard input.
pub fn open_source(rt: &HostRuntime, path: &str) -> Option<In<Source>>
    ensures { IfSome result (λ source. in_failed source ≡ false) }
{
    if path == "-" {
        return Some(In::new(Source::Standard(rt.stdin())));
    }
    match File::open(rt, path) {
        Ok(file) => Some(In::new(Source::Opened(file))),
        Err(_) => None,
    }
}
