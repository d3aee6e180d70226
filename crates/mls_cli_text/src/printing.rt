//! Texts, printed one by one.

ghost use Rattle.std.specs.Prelude.{ℕ, List, ◌≡◌, ◌≢◌, IfOk, IfErr};
ghost use Rattle.std.specs.List.{flat_map};
ghost use Rattle.mls_cli_text.specs.TextLaws.{NoneIsEmpty};
ghost use Rattle.mls_cli_text.specs.InputOutput.{write_failed, Writes, WritesPart};

use crate::fault::Fault;
use crate::output::Output;
use std::alloc::{AllocError, Global};

/// What has a text, such as a line.
pub trait Printed {
    // Its text, the line feed with it.
    ghost text: { Self → List ℕ };

    // No text is empty.
    ghost nonempty: { NoneIsEmpty text };

    /// The bytes of its text.
    fn text_bytes(&self, alloc: Global) -> Result<Vec<u8>, AllocError>
        ensures { IfOk result (λ bytes. bytes.items ≡ text self.now) };
}

/// Writes a text.
pub fn print<T: Printed, O: Output>(alloc: Global, printed: &T, out: &mut O) -> Result<(), Fault>
    ensures whole { Writes O.contents out.old out.new (T.text printed.now) result }
    ensures part { WritesPart O.contents out.old out.new (T.text printed.now) result }
    ensures fault { O.failed out.new ≡ write_failed (O.failed out.old) result }
    ensures written { IfErr result (λ e. e ≢ Fault.Read) }
{
    let bytes = printed.text_bytes(alloc)?;
    out.put(bytes.as_slice())
}

/// Writes the texts in turn.
pub fn print_lines<T: Printed, O: Output>(
    alloc: Global,
    lines: &[T],
    out: &mut O,
) -> Result<(), Fault>
    ensures whole { Writes O.contents out.old out.new (flat_map T.text lines.now) result }
    ensures part { WritesPart O.contents out.old out.new (flat_map T.text lines.now) result }
    ensures fault { O.failed out.new ≡ write_failed (O.failed out.old) result }
    ensures written { IfErr result (λ e. e ≢ Fault.Read) }
{
    for line in lines {
        print(alloc, line, out)?;
    }
    Ok(())
}
