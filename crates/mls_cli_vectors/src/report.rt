//! What is printed of verdicts.

ghost use Rattle.std.specs.Prelude.{◌≡◌, map, IfOk};
ghost use Rattle.mls_cli_text.specs.Page.{page_of};
ghost use Rattle.mls_cli_vectors.specs.ReportLaws.{report_line_nonempty};
ghost use Rattle.mls_cli_vectors.specs.VectorsReport.{entry_of, entry_text, passed_count, report_ending, report_entries, report_page, verdict_entries};

use mls_cli_text::{Ending, Page, Printed, push_number};
use std::alloc::{AllocError, Global};

/// A line of a report.
#[derive(Clone, Copy, Debug)]
pub enum ReportLine {
    /// Whether the vector with this number passed.
    Verdict { index: usize, passed: bool },
    /// How many passed of how many.
    Total { passed: usize, all: usize },
}

impl Printed for ReportLine {
    ghost text = { λ line. entry_text (entry_of line) };

    ghost nonempty = { report_line_nonempty };

    fn text_bytes(&self, alloc: Global) -> Result<Vec<u8>, AllocError> {
        let mut text = Vec::new(alloc);
        match *self {
            ReportLine::Verdict { index, passed } => {
                let word = if passed { "pass" } else { "fail" };
                push_number(alloc, &mut text, index as u64)?;
                text.extend_from_slice(b": ")?;
                text.extend_from_slice(word.as_bytes())?;
                text.push(b'\n')?;
                Ok(text)
            }
            ReportLine::Total { passed, all } => {
                text.extend_from_slice(b"passed ")?;
                push_number(alloc, &mut text, passed as u64)?;
                text.extend_from_slice(b" of ")?;
                push_number(alloc, &mut text, all as u64)?;
                text.push(b'\n')?;
                Ok(text)
            }
        }
    }
}

fn passed_count(verdicts: &[bool]) -> usize
    ensures { result ≡ passed_count verdicts.now }
{
    verdicts.iter().filter(|passed| **passed).count()
}

#[tactic(auto, unfolding(crate::specs::VectorsReport::verdict_entries))]
fn verdict_lines(alloc: Global, verdicts: &[bool]) -> Result<Vec<ReportLine>, AllocError>
    ensures { IfOk result (λ lines. map entry_of lines.items ≡ verdict_entries 0 verdicts.now) }
{
    let mut lines = Vec::new(alloc);
    for passed in verdicts {
        let index = lines.len();
        lines.push(ReportLine::Verdict {
            index,
            passed: *passed,
        })?;
    }
    Ok(lines)
}

/// The lines of a report: one for each verdict, and how many passed.
pub fn report_lines(alloc: Global, verdicts: &[bool]) -> Result<Vec<ReportLine>, AllocError>
    ensures { IfOk result (λ lines. map entry_of lines.items ≡ report_entries verdicts.now) }
{
    let mut lines = verdict_lines(alloc, verdicts)?;
    lines.push(ReportLine::Total {
        passed: passed_count(verdicts),
        all: verdicts.len(),
    })?;
    Ok(lines)
}

fn ending_of(verdicts: &[bool]) -> Ending
    ensures { result ≡ report_ending verdicts.now }
{
    if passed_count(verdicts) == verdicts.len() {
        Ending::Good
    } else {
        Ending::Failed
    }
}

/// The report on verdicts: good where all vectors passed.
#[tactic(auto, unfolding(crate::specs::VectorsReport::report_page))]
pub fn report(alloc: Global, verdicts: &[bool]) -> Result<Page<ReportLine>, AllocError>
    ensures { IfOk result (λ page. page_of entry_of page ≡ report_page verdicts.now) }
{
    Ok(Page {
        lines: report_lines(alloc, verdicts)?,
        ending: ending_of(verdicts),
    })
}
