//! Pages as JSON objects, in full.

use crate::rows::{gives, text_of};
use mls_cli_json_page::json_page;
use mls_cli_text::{Ending, Field, Line, Page, Prefix, line_of, line_with};
use mls_leaf::{Bytes, Items};
use std::alloc::{AllocError, Global};
use std::process::Abort;
use std::test::Fail;

/// What stands behind a name, as a field in no memory of its own.
#[derive(Clone, Copy)]
enum Value {
    Bytes(&'static [u8]),
    Numbers(&'static [u16]),
    Digits(u16),
    Number(u64),
    Indexes(&'static [u32]),
    Word(&'static str),
    Refusal(u8),
    Named(u8, &'static str),
    Extension(u16, &'static [u8]),
}

/// The field of a value.
fn field_of(alloc: Global, value: &Value) -> Result<Field, AllocError> {
    match value {
        Value::Bytes(bytes) => Ok(Field::Bytes(Bytes::from_slice(alloc, bytes)?)),
        Value::Numbers(numbers) => Ok(Field::Numbers(Items::from_vec(Vec::from_slice(
            alloc, numbers,
        )?))),
        Value::Digits(number) => Ok(Field::Digits(*number)),
        Value::Number(number) => Ok(Field::Number(*number)),
        Value::Indexes(indexes) => Ok(Field::Indexes(Vec::from_slice(alloc, indexes)?)),
        Value::Word(word) => Ok(Field::Word(word)),
        Value::Refusal(number) => Ok(Field::Refusal(*number)),
        Value::Named(number, name) => Ok(Field::Named(*number, name)),
        Value::Extension(kind, content) => Ok(Field::Extension(
            *kind,
            Bytes::from_slice(alloc, content)?,
        )),
    }
}

/// What stands before a name.
#[derive(Clone, Copy)]
enum Front {
    None,
    Word(&'static str),
    Item(&'static str, u64),
}

/// The line of these parts.
fn line(front: &Front, name: &'static str, field: Field) -> Line {
    match front {
        Front::None => line_of(name, field),
        Front::Word(word) => line_with(Prefix::of(word), name, field),
        Front::Item(word, item) => line_with(Prefix::of_item(word, *item), name, field),
    }
}

/// A line's front, name and value.
type Row = (Front, &'static str, Value);

/// The lines of these rows.
fn lines_of(alloc: Global, rows: &[Row]) -> Result<Vec<Line>, AllocError> {
    let mut lines = Vec::new(alloc);
    for (front, name, value) in rows {
        let field = field_of(alloc, value)?;
        lines.push(line(front, name, field))?;
    }
    Ok(lines)
}

/// The exit status of a page that ends so.
fn status_of(ending: Ending) -> &'static str {
    match ending {
        Ending::Good => "0",
        Ending::Failed => "1",
        Ending::Refused(_) => "?",
    }
}

/// The text that is printed of a page as a JSON object, and its exit status.
fn object_of(alloc: Global, page: &Page<Line>) -> Result<String, AllocError> {
    let made = json_page(alloc, page)?;
    let mut text = String::new(alloc);
    for object in &made.lines {
        text.push_str(text_of(alloc, object)?.as_str())?;
    }
    text.push_str(status_of(made.ending))?;
    Ok(text)
}

/// The text of the page that has these lines, and ends so.
fn text_with(alloc: Global, rows: &[Row], ending: Ending) -> Result<String, AllocError> {
    let lines = lines_of(alloc, rows)?;
    object_of(alloc, &Page { lines, ending })
}

/// Asserts that the page that has these lines, and ends so, is printed as this text.
fn prints(
    rt: &impl Abort,
    alloc: Global,
    rows: &[Row],
    ending: Ending,
    wanted: &str,
) -> Result<(), Fail> {
    gives(rt, text_with(alloc, rows, ending), wanted, "a page")
}

const KINDS: &[Row] = &[
    (Front::None, "bytes", Value::Bytes(&[0, 0xA9, 0xFF])),
    (Front::None, "none", Value::Bytes(&[])),
    (Front::None, "numbers", Value::Numbers(&[1, 0xF001])),
    (Front::None, "no_numbers", Value::Numbers(&[])),
    (Front::None, "digits", Value::Digits(0x0A0B)),
    (
        Front::None,
        "number",
        Value::Number(18_446_744_073_709_551_615),
    ),
    (Front::None, "indexes", Value::Indexes(&[0, 4_294_967_295])),
    (Front::None, "word", Value::Word("a \"word\" \\ of\nlines")),
    (Front::None, "refusal", Value::Refusal(51)),
    (Front::None, "named", Value::Named(7, "seven")),
    (Front::None, "extension", Value::Extension(0xF0F1, &[1, 2])),
];

#[test]
fn prints_each_kind_of_value(rt: HostRuntime) -> Result<(), Fail> {
    let wanted = concat!(
        r#"{"bytes":"00a9ff","none":"","numbers":["0001","f001"],"no_numbers":[],"#,
        r#""digits":"0a0b","number":18446744073709551615,"indexes":[0,4294967295],"#,
        r#""word":"a \"word\" \\ of\nlines","refusal":{"number":51,"name":"LeafSignature"},"#,
        r#""named":{"number":7,"name":"seven"},"extension":{"type":"f0f1","data":"0102"}}"#,
        "\n0"
    );
    prints(&rt, rt.alloc(), KINDS, Ending::Good, wanted)
}

const NEIGHBOURS: &[Row] = &[
    (Front::None, "one", Value::Number(1)),
    (Front::None, "two", Value::Number(2)),
    (Front::None, "two", Value::Number(3)),
    (Front::None, "two", Value::Number(4)),
    (Front::None, "on", Value::Number(5)),
    (Front::Word("leaf."), "on", Value::Number(6)),
    (Front::Item("node.", 12), "on", Value::Number(7)),
    (Front::Item("node.", 12), "on", Value::Number(8)),
    (Front::Item("node.", 13), "on", Value::Number(9)),
];

#[test]
fn gathers_neighbours_of_one_name(rt: HostRuntime) -> Result<(), Fail> {
    let wanted = concat!(
        r#"{"one":1,"two":[2,3,4],"on":5,"leaf.on":6,"node.12.on":[7,8],"node.13.on":9}"#,
        "\n1"
    );
    prints(&rt, rt.alloc(), NEIGHBOURS, Ending::Failed, wanted)
}

const LEAVES: &[Row] = &[(Front::None, "leaves", Value::Number(2))];

#[test]
fn ends_with_the_refusal(rt: HostRuntime) -> Result<(), Fail> {
    let alloc = rt.alloc();
    let alone = "{\"refused\":{\"number\":8,\"name\":\"NotHex\"}}\n1";
    prints(&rt, alloc, &[], Ending::Refused(8), alone)?;
    let behind = "{\"leaves\":2,\"refused\":{\"number\":25,\"name\":\"KeyRepeated\"}}\n1";
    prints(&rt, alloc, LEAVES, Ending::Refused(25), behind)?;
    prints(&rt, alloc, &[], Ending::Good, "{}\n0")
}
