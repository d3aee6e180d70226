//! Pages: what a subcommand prints of a file, and its exit status.

ghost use Rattle.std.specs.Prelude.{[], ◌≡◌, ◌≢◌, ◌≤◌, IfOk, IfErr};
ghost use Rattle.mls_cli_text.specs.InputOutput.{write_failed, Writes, WritesPart};
ghost use Rattle.mls_cli_text.specs.MadePage.{PrintsMade};
ghost use Rattle.mls_cli_text.specs.Page.{PrintsPage, ending_status, ending_text};

use crate::fault::Fault;
use crate::output::Output;
use crate::printing::{Printed, print, print_lines};
use crate::text::{Field, line_of};
use std::alloc::{AllocError, Global};

/// How a page ends.
#[derive(Clone, Copy, Debug, PartialEq, Eq)]
pub enum Ending {
    /// The content is good: status 0.
    Good,
    /// The lines say that it isn't: status 1.
    Failed,
    /// It is refused with that number, which a last line says: status 1.
    Refused(u8),
}

impl Ending {
    /// The exit status.
    pub fn status(self) -> u8
        ensures status { result ≡ ending_status self }
        ensures small { result ≤ 1 }
    {
        match self {
            Ending::Good => 0,
            Ending::Failed | Ending::Refused(_) => 1,
        }
    }
}

/// What a subcommand prints of a file.
#[derive(Debug, Drop)]
pub struct Page<L> {
    /// The lines.
    pub lines: Vec<L>,
    /// How they end.
    pub ending: Ending,
}

/// Makes the page of a refusal alone, which takes no memory.
pub fn refused_page<L: Drop>(alloc: Global, number: u8) -> Page<L>
    ensures { (result.lines.items ≡ []) × (result.ending ≡ Ending.Refused number) }
{
    Page {
        lines: Vec::new(alloc),
        ending: Ending::Refused(number),
    }
}

/// Writes what stands behind the lines.
fn print_ending<O: Output>(alloc: Global, ending: Ending, out: &mut O) -> Result<(), Fault>
    ensures whole { Writes O.contents out.old out.new (ending_text ending) result }
    ensures part { WritesPart O.contents out.old out.new (ending_text ending) result }
    ensures fault { O.failed out.new ≡ write_failed (O.failed out.old) result }
    ensures written { IfErr result (λ e. e ≢ Fault.Read) }
{
    match ending {
        Ending::Good | Ending::Failed => Ok(()),
        Ending::Refused(number) => {
            let line = line_of("refused", Field::Refusal(number));
            print(alloc, &line, out)
        }
    }
}

/// Writes a page, and answers the exit status.
pub fn print_page<L: Printed + Drop, O: Output>(
    alloc: Global,
    page: &Page<L>,
    out: &mut O,
) -> Result<u8, Fault>
    // The output grows by the page's text, or on a fault by less than that.
    ensures prints { PrintsPage L.text (O.contents out.old) (O.contents out.new) page.now result }
    ensures status { IfOk result (λ status. status ≤ 1) }
    // A fault of the output comes exactly when a write fails.
    ensures fault { O.failed out.new ≡ write_failed (O.failed out.old) result }
    ensures written { IfErr result (λ e. e ≢ Fault.Read) }
{
    print_lines(alloc, page.lines.as_slice(), out)?;
    print_ending(alloc, page.ending, out)?;
    Ok(page.ending.status())
}

/// Writes a page, where there was memory for it, and answers the exit status.
pub fn print_made_page<L: Printed + Drop, O: Output>(
    alloc: Global,
    made: Result<Page<L>, AllocError>,
    out: &mut O,
) -> Result<u8, Fault>
    ensures prints { PrintsMade L.text (O.contents out.old) (O.contents out.new) made result }
    ensures status { IfOk result (λ status. status ≤ 1) }
    ensures fault { O.failed out.new ≡ write_failed (O.failed out.old) result }
    ensures written { IfErr result (λ e. e ≢ Fault.Read) }
{
    match made {
        Ok(page) => print_page(alloc, &page, out),
        // Want of memory: the error is an `AllocError`.
        Err(_) => Err(Fault::OutOfMemory),
    }
}
