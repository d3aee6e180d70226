//! What the program says on the errors.

ghost use Rattle.std.specs.Prelude.{◌≡◌, IfErr};
ghost use Rattle.mls_cli_text.specs.InputOutput.{out_failed, write_failed};
ghost use Rattle.mls_cli_serve.specs.Saying.{BeginsError, Says, WritesError, fault_text, out_of_memory as memory_text, unreadable};

use mls_cli_text::{Fault, Out, Output};
use std::io::Write;

/// Says a text on the errors.
pub fn say<E: Write>(text: &[u8], err: &mut Out<E>)
    ensures { Says E.contents err.old err.new text.now }
{
    let _ = err.put(text);
}

/// Says why the program stopped.
pub fn say_fault<E: Write>(fault: Fault, file: &str, err: &mut Out<E>)
    ensures { Says E.contents err.old err.new (fault_text file.now fault) }
{
    match fault {
        Fault::OutOfMemory => say_out_of_memory(err),
        Fault::Read => say_unreadable(file, err),
        Fault::Write => {}
    }
}

/// Says that there is no memory, unless the errors fail.
pub fn say_out_of_memory<E: Write>(err: &mut Out<E>)
    ensures { Says E.contents err.old err.new memory_text }
{
    let _ = err.put(b"mls: out of memory\n");
}

fn say_unreadable<E: Write>(file: &str, err: &mut Out<E>)
    ensures { Says E.contents err.old err.new (unreadable file.now) }
{
    let _ = put_unreadable(file, err);
}

fn put_unreadable<E: Write>(file: &str, err: &mut Out<E>) -> Result<(), Fault>
    ensures whole { WritesError E.contents err.old err.new (unreadable file.now) result }
    ensures part { BeginsError E.contents err.old err.new (unreadable file.now) result }
    ensures fault { out_failed err.new ≡ write_failed (out_failed err.old) result }
    ensures written { IfErr result (λ e. e ≡ Fault.Write) }
{
    err.put(b"mls: cannot read ")?;
    err.put(file.as_bytes())?;
    err.put(b"\n")
}
