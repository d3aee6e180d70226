//! What is written to.

ghost use Rattle.std.specs.Prelude.{ℕ, List, Bool, Option, Some, false, ◌≡◌, IfErr, ◌≢◌};
ghost use Rattle.mls_cli_text.specs.InputOutput.{PutsIf, write_failed, Writes, WritesPart};

use crate::fault::Fault;
use std::io::{ErrorKind, Write};

/// What takes bytes, and remembers whether it failed.
pub trait Output {
    // The bytes that it holds, where they are known.
    ghost contents: { Self → Option (List ℕ) };

    // Whether a write has failed.
    ghost failed: { Self → Bool };

    /// Writes all of the bytes.
    fn put(&mut self, bytes: &[u8]) -> Result<(), Fault>
        ensures whole { Writes contents self.old self.new bytes.now result }
        ensures part { WritesPart contents self.old self.new bytes.now result }
        ensures fault { failed self.new ≡ write_failed (failed self.old) result }
        ensures written { IfErr result (λ e. e ≢ Fault.Read) };
}

/// A writer, and whether it has failed.
#[derive(Drop)]
pub struct Out<W> {
    writer: W,
    failed: bool,
}

impl<W: Write> Out<W> {
    ghost use Rattle.mls_cli_text.specs.InputOutput.{out_failed, out_writer};

    /// A writer that has not failed.
    pub fn new(writer: W) -> Out<W>
        ensures writer { out_writer result ≡ writer }
        ensures failed { out_failed result ≡ false }
    {
        Out {
            writer,
            failed: false,
        }
    }
}

impl<W: Write> Output for Out<W> {
    ghost contents = { λ o. W.contents o.writer };

    ghost failed = { λ o. o.failed };

    fn put(&mut self, bytes: &[u8]) -> Result<(), Fault>
        ensures whole { Writes W.contents self.old.writer self.new.writer bytes.now result }
        ensures part { WritesPart W.contents self.old.writer self.new.writer bytes.now result }
        ensures fault { self.new.failed ≡ write_failed self.old.failed result }
        // It never wants memory of its own.
        ensures written { IfErr result (λ e. e ≡ Fault.Write) }
    {
        if put_all(&mut self.writer, bytes) {
            Ok(())
        } else {
            self.failed = true;
            Err(Fault::Write)
        }
    }
}

/// A `Vec` fails for want of memory alone.
impl Output for Vec<u8> {
    ghost contents = { λ v. Some v.items };

    ghost failed = { λ _. false };

    fn put(&mut self, bytes: &[u8]) -> Result<(), Fault> {
        match self.extend_from_slice(bytes) {
            Ok(()) => Ok(()),
            Err(_) => {
                if bytes.is_empty() {
                    Ok(())
                } else {
                    // Want of memory: a `Vec` that can't take the bytes fails for nothing else.
                    Err(Fault::OutOfMemory)
                }
            }
        }
    }
}

/// Writes all of the bytes, by as many writes as it takes, and answers whether it did.
fn put_all<W: Write>(writer: &mut W, bytes: &[u8]) -> bool
    ensures { PutsIf (W.contents writer.old) (W.contents writer.new) result bytes.now }
{
    let mut rest = bytes;
    for _ in 0..u64::MAX {
        if rest.is_empty() {
            return true;
        }
        match writer.write(rest) {
            Ok(0) => return false,
            Ok(n) => rest = &rest[n..],
            Err(error) => {
                if error.kind() != ErrorKind::Interrupted {
                    return false;
                }
            }
        }
    }
    rest.is_empty()
}
