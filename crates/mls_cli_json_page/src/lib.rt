//! Pages of lines `name: value` as JSON objects: another printing of what the subcommands of `mls` print.
#![tactic(auto)]

mod members;
mod values;

ghost use Rattle.std.specs.Prelude.{◌≡◌, IfOk};
ghost use Rattle.mls_cli_text.specs.Page.{page_of};
ghost use Rattle.mls_cli_text.specs.Text.{entry_of};
ghost use Rattle.mls_cli_json_page.specs.JsonLaws.{printed_nonempty};
ghost use Rattle.mls_cli_json_page.specs.JsonPage.{json_ending, json_page, printed, text_of, WritesAll, ending_member};

use json::Writer;
use members::put_members;
use mls_cli_text::{Ending, Line, Page, Printed};
use mls_wire::refusal_name;
use std::alloc::{AllocError, Global};
use values::put_named;

/// The text of a JSON object, the line feed at the end apart.
#[derive(Debug, Drop)]
pub struct JsonText {
    text: Vec<u8>,
}

impl Printed for JsonText {
    ghost text = { printed };

    ghost nonempty = { printed_nonempty };

    fn text_bytes(&self, alloc: Global) -> Result<Vec<u8>, AllocError> {
        let mut text = Vec::from_slice(alloc, self.text.as_slice())?;
        text.push(b'\n')?;
        Ok(text)
    }
}

/// Writes the member of a refusal, where a page ends with one.
fn put_ending(writer: &mut Writer, ending: Ending) -> Result<(), AllocError>
    ensures { WritesAll result writer.old writer.new (ending_member ending) }
{
    match ending {
        Ending::Good | Ending::Failed => Ok(()),
        Ending::Refused(number) => {
            writer.key("refused")?;
            put_named(writer, number, refusal_name(number))
        }
    }
}

/// How the page of a JSON object ends: a refusal stands in the object.
fn json_ending(ending: Ending) -> Ending
    ensures { result ≡ json_ending ending }
{
    match ending {
        Ending::Good => Ending::Good,
        Ending::Failed | Ending::Refused(_) => Ending::Failed,
    }
}

/// Makes the page of a JSON object that has a member for each name of a page's lines, in their order, and the refusal
/// that the page ends with; its exit status is the page's.
#[tactic(auto, unfolding(crate::specs::JsonPage::json_page))]
pub fn json_page(alloc: Global, page: &Page<Line>) -> Result<Page<JsonText>, AllocError>
    ensures { IfOk result (λ made. page_of text_of made
        ≡ json_page (page_of entry_of page.now)) }
{
    let mut writer = Writer::new(Vec::new(alloc));
    writer.begin_object()?;
    put_members(alloc, &mut writer, page.lines.as_slice())?;
    put_ending(&mut writer, page.ending)?;
    writer.end_object()?;
    let object = JsonText {
        text: writer.into_inner(),
    };
    Ok(Page {
        lines: vec![in alloc; object]?,
        ending: json_ending(page.ending),
    })
}
