//! What is read.

ghost use Rattle.std.specs.Prelude.{ℕ, List, Bool, Option, Some, true, false, ◌≡◌, IfOk, IfErr, ◌≢◌};
ghost use Rattle.std.specs.IoError.{error_kind};
ghost use Rattle.mls_cli_text.specs.InputOutput.{AreAll, read_failed};
ghost use Rattle.mls_cli_text.specs.InputFront.{AreFront};

use crate::fault::Fault;
use std::alloc::Global;
use std::io;
use std::io::{ErrorKind, Read};

/// What is read whole, and remembers whether it failed.
pub trait Input {
    // The bytes that are left, where they are known.
    ghost remaining: { Self → Option (List ℕ) };

    // Whether a read has failed.
    ghost failed: { Self → Bool };

    /// Reads all bytes that are left.
    fn read_all(&mut self, alloc: Global) -> Result<Vec<u8>, Fault>
        ensures whole { IfOk result (λ bytes. AreAll (remaining self.old) bytes.items) }
        ensures fault { failed self.new ≡ read_failed (failed self.old) result }
        ensures read { IfErr result (λ e. e ≢ Fault.Write) };

    /// Reads the bytes that are left, but no more than so many.
    fn read_front(&mut self, alloc: Global, most: u64) -> Result<Vec<u8>, Fault>
        ensures front { IfOk result (λ bytes. AreFront most (remaining self.old) bytes.items) }
        ensures fault { failed self.new ≡ read_failed (failed self.old) result }
        ensures read { IfErr result (λ e. e ≢ Fault.Write) };
}

/// A reader, and whether it has failed.
#[derive(Drop)]
pub struct In<R> {
    reader: R,
    failed: bool,
}

impl<R: Read> In<R> {
    ghost use Rattle.mls_cli_text.specs.InputOutput.{in_failed, in_reader};

    /// A reader that has not failed.
    pub fn new(reader: R) -> In<R>
        ensures reader { in_reader result ≡ reader }
        ensures failed { in_failed result ≡ false }
    {
        In {
            reader,
            failed: false,
        }
    }
}

impl<R: Read> Input for In<R> {
    ghost remaining = { λ i. R.remaining i.reader };

    ghost failed = { λ i. i.failed };

    fn read_all(&mut self, alloc: Global) -> Result<Vec<u8>, Fault> {
        match read_whole(alloc, &mut self.reader) {
            Err(Fault::Read) => {
                self.failed = true;
                Err(Fault::Read)
            }
            other => other,
        }
    }

    fn read_front(&mut self, alloc: Global, most: u64) -> Result<Vec<u8>, Fault> {
        match read_up_to(alloc, &mut self.reader, most) {
            Err(Fault::Read) => {
                self.failed = true;
                Err(Fault::Read)
            }
            read => read,
        }
    }
}

/// A slice fails for want of memory alone.
impl Input for &[u8] {
    ghost remaining = { λ s. Some s.now };

    ghost failed = { λ _. false };

    fn read_all(&mut self, alloc: Global) -> Result<Vec<u8>, Fault> {
        let all: &[u8] = *self;
        match Vec::from_slice(alloc, all) {
            Ok(bytes) => {
                *self = &[];
                Ok(bytes)
            }
            // Want of memory: the error is an `AllocError`.
            Err(_) => Err(Fault::OutOfMemory),
        }
    }

    fn read_front(&mut self, alloc: Global, most: u64) -> Result<Vec<u8>, Fault> {
        let all: &[u8] = *self;
        let (front, rest) = all.split_at(all.len().min(most as usize));
        match Vec::from_slice(alloc, front) {
            Ok(bytes) => {
                *self = rest;
                Ok(bytes)
            }
            // Want of memory: the error is an `AllocError`.
            Err(_) => Err(Fault::OutOfMemory),
        }
    }
}

fn read_fault(error: &io::Error) -> Fault
    ensures memory { error_kind error.now ≡ ErrorKind.OutOfMemory → result ≡ Fault.OutOfMemory }
    ensures other { error_kind error.now ≢ ErrorKind.OutOfMemory → result ≡ Fault.Read }
{
    if error.kind() == ErrorKind::OutOfMemory {
        Fault::OutOfMemory
    } else {
        Fault::Read
    }
}

/// Reads all bytes that the reader has left.
fn read_whole<R: Read>(alloc: Global, reader: &mut R) -> Result<Vec<u8>, Fault>
    ensures whole { IfOk result (λ bytes. AreAll (R.remaining reader.old) bytes.items) }
    ensures read { IfErr result (λ e. e ≢ Fault.Write) }
{
    let mut bytes = Vec::new(alloc);
    match reader.read_to_end(&mut bytes) {
        Ok(_) => Ok(bytes),
        Err(error) => Err(read_fault(&error)),
    }
}

/// Reads the bytes that the reader has left, but no more than so many.
fn read_up_to<R: Read>(alloc: Global, reader: &mut R, most: u64) -> Result<Vec<u8>, Fault>
    ensures front { IfOk result (λ bytes. AreFront most (R.remaining reader.old) bytes.items) }
    ensures read { IfErr result (λ e. e ≢ Fault.Write) }
{
    let mut bytes = Vec::new(alloc);
    let mut front = reader.take(most);
    match front.read_to_end(&mut bytes) {
        Ok(_count) => Ok(bytes),
        Err(error) => Err(read_fault(&error)),
    }
}
