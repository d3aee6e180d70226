//! What `mls show` prints, and what the program says of faults.

mod cases;
mod check;
mod drawings;
mod ends;
mod extensions;
mod faults;
mod json;
mod options;
mod places;
mod progress;
mod replay;
mod rows;
mod shown;
mod suite_0001;
mod vectors;
mod version_2;
mod views;

ghost use Rattle.std.specs.Prelude.{◌≡◌, IfSome, Some, false};

use crate::tests::cases::{FileCase, count_met_by};
use crate::tests::faults::is_cut_after;
use mls_cli_replay::Silent;
use mls_cli_serve::{NoJob, Request, no_text, request, serve};
use mls_cli_text::{Input, Out, Output};
use std::alloc::{AllocError, Global};
use std::io;
use std::io::{ErrorKind, Write};
use std::test::Fail;

const KEY_PACKAGE: &str =
    "000100050001f00101aa01bb01cc000103626f6202000102f0010000020001010000000000000000ffffffffffffffff0001dd0001ee";

const TEXT: &str =
    "message: key_package\nbytes: 54\ncipher_suite: f001\ninit_key: aa\nleaf.encryption_key: bb\nleaf.signature_key: cc\nleaf.identity: 626f62\nleaf.versions: 0001\nleaf.cipher_suites: f001\nleaf.extensions: -\nleaf.proposals: -\nleaf.credentials: 0001\nleaf.source: key_package\nleaf.not_before: 0\nleaf.not_after: 18446744073709551615\nleaf.signature: dd\nsignature: ee\n";

const USAGE: &str =
    "error: the following required arguments were not provided:\n  <FILE>\n\nUsage: mls show <FILE>\n\nFor more information, try '--help'.\n";

const UNKNOWN: &str =
    "error: unrecognized subcommand 'export'\n\nUsage: mls <COMMAND>\n       mls --explain <REFUSAL>\n\nFor more information, try '--help'.\n";

const HELP: &str =
    "Shows and checks messages of Messaging Layer Security (RFC 9420)\n\nUsage: mls <COMMAND>\n       mls --explain <REFUSAL>\n\nCommands:\n  show     Prints a message field by field\n  check    Checks a ratchet tree\n  replay   Replays a recording of groups\n  vectors  Judges test vectors\n  help     Print this message or the help of the given subcommand(s)\n\nOptions:\n      --explain <REFUSAL>  Tells what a refusal is, by its number or name\n  -h, --help               Print help\n  -V, --version            Print version\n\nExit status:\n  0  the content is good\n  1  it is refused, or vectors or expectations fail\n  2  the command line is wrong\n  3  a file, the output or memory failed\n";

const SHOW_HELP: &str =
    "Prints a message field by field\n\nUsage: mls show [OPTIONS] <FILE>\n\nArguments:\n  <FILE>  An MLSMessage in hex, or - for the standard input\n\nOptions:\n      --full   Prints each item of a list and a message's reference too\n      --raw    Reads bytes as they are, and not hex\n      --json   Prints one JSON object in place of lines\n      --where  Says on standard error where content is refused\n  -h, --help   Print help\n\nExample:\n  mls show examples/key_package.hex\n";

const CHECK_HELP: &str =
    "Checks a ratchet tree\n\nUsage: mls check [OPTIONS] <FILE>\n\nArguments:\n  <FILE>  A ratchet tree in hex, or - for the standard input\n\nOptions:\n      --suite <SUITE>  The group's cipher suite, f001 or 0001 [default: f001]\n      --group <HEX>    The group's id, empty by default\n      --signatures     Checks signatures and keys under suite 0001 too\n      --group-info     Checks a GroupInfo message, which has suite, id and tree\n      --raw            Reads bytes as they are, and not hex\n      --json           Prints one JSON object in place of lines\n      --where          Says on standard error where content is refused\n      --draw           Draws the tree, and checks nothing of it\n      --width <WIDTH>  Cuts each row of a drawing to so many columns\n      --svg            Makes a drawing an SVG file\n  -h, --help           Print help\n\nExample:\n  mls check examples/group_tree.hex --group 67\n";

const REPLAY_HELP: &str =
    "Replays a recording of groups\n\nUsage: mls replay [OPTIONS] <FILE>\n\nArguments:\n  <FILE>  A recording in JSON, or - for the standard input\n\nOptions:\n      --suite <SUITE>  The group's cipher suite, f001 or 0001 [default: f001]\n      --message <N>    Prints this message in hex, in place of the replies\n      --tree <K>       Prints this member's ratchet tree in hex, in place of the replies\n      --quiet          Leaves out replies that are as expected, or of which nothing is\n      --record         Prints the recording with these replies as those that it expects\n      --draw <MEMBER>  Draws this member's ratchet tree, in place of the replies\n      --width <WIDTH>  Cuts each row of a drawing to so many columns\n      --svg            Makes a drawing an SVG file\n      --progress       Says on standard error at each hundredth how many events are done\n      --where          Says on standard error where content is refused\n  -h, --help           Print help\n\nExample:\n  mls replay examples/group.json --quiet\n";

const VECTORS_HELP: &str =
    "Judges test vectors\n\nUsage: mls vectors [OPTIONS] <FILE>\n\nArguments:\n  <FILE>  A JSON array of vectors, or - for the standard input\n\nOptions:\n      --where  Says on standard error where content is refused\n  -h, --help   Print help\n\nExample:\n  mls vectors examples/vectors.json\n";

const NO_TEXT: &str =
    "error: invalid UTF-8 was detected in one or more arguments\n\nUsage: mls <COMMAND>\n       mls --explain <REFUSAL>\n\nFor more information, try '--help'.\n";

const OUT_OF_MEMORY: &str = "mls: out of memory\n";

/// What the program leaves: its status, its output and its errors.
#[derive(Drop)]
struct Outcome {
    status: u8,
    out: Vec<u8>,
    err: Vec<u8>,
}

/// Ends a test where the program found no memory: what it says then is right, but not what the test looks for.
fn unless_out_of_memory(status: u8, err: &[u8]) -> Result<(), AllocError> {
    if status == 3 && err == OUT_OF_MEMORY.as_bytes() {
        return Err(AllocError);
    }
    Ok(())
}

/// What these words ask for. It promises nothing.
pub fn request_of<'a>(alloc: Global, words: &'a [&str]) -> Result<Request<'a>, NoJob> {
    request(alloc, words)
}

/// The status of a request over these ends, where nobody takes what is reported of a replay.
pub fn serve_silently<I: Input, O: Output, E: Write>(
    alloc: Global,
    request: &Result<Request<'_>, NoJob>,
    file: &mut Option<I>,
    out: &mut O,
    errors: &mut E,
) -> u8
    requires fresh_file { IfSome file.old (λ reader. I.failed reader ≡ false) }
    requires fresh_out { O.failed out.old ≡ false }
{
    serve(
        alloc,
        request,
        file,
        out,
        &mut Out::new(errors),
        &mut Silent,
    )
}

/// What the program leaves for words or the lack of them, and a file, where it can be opened.
fn serve_words(
    alloc: Global,
    request: &Result<Request<'_>, NoJob>,
    file: Option<&[u8]>,
) -> Result<Outcome, AllocError> {
    let mut file = file;
    let mut out = Vec::new(alloc);
    let mut held = Vec::new(alloc);
    let status = serve_silently(alloc, request, &mut file, &mut out, &mut held);
    unless_out_of_memory(status, held.as_slice())?;
    Ok(Outcome {
        status,
        out,
        err: held,
    })
}

/// The status for words and a file, and what is printed: on the output, and behind it on the errors.
pub fn serve_file(alloc: Global, words: &[&str], file: &[u8]) -> Result<(u8, Vec<u8>), AllocError> {
    let mut left = serve_words(alloc, &request_of(alloc, words), Some(file))?;
    left.out.extend_from_slice(left.err.as_slice())?;
    Ok((left.status, left.out))
}

/// Takes so many bytes, and then fails.
#[derive(Drop)]
struct Full {
    held: Vec<u8>,
    room: usize,
}

impl Write for Full {
    ghost contents = { λ w. Some w.held.items };

    fn write(&mut self, bytes: &[u8]) -> io::Result<usize> {
        let n = bytes.len().min(self.room);
        if n == 0 {
            return Err(io::Error::from(ErrorKind::StorageFull));
        }
        self.held.extend_from_slice(&bytes[..n])?;
        self.room -= n;
        Ok(n)
    }

    fn flush(&mut self) -> io::Result<()> {
        Ok(())
    }
}

/// A writer with so much room, which wants no memory later.
fn with_room(alloc: Global, room: usize) -> Result<Full, AllocError> {
    let mut held = Vec::new(alloc);
    held.reserve(room)?;
    Ok(Full { held, room })
}

const SHOW: &[&str] = &["mls", "show", "FILE"];

/// The KeyPackage between blanks, with a byte behind it.
const LONGER: &str =
    "\r\n\t 000100050001f00101aa01bb01cc000103626f6202000102f0010000020001010000000000000000ffffffffffffffff0001dd0001ee00\n";

/// The KeyPackage without its last byte.
const CUT: &str =
    "000100050001f00101aa01bb01cc000103626f6202000102f0010000020001010000000000000000ffffffffffffffff0001dd0001";

const KEY_PACKAGES: &[FileCase] = &[
    (KEY_PACKAGE, 0, TEXT),
    (LONGER, 1, "refused: 3 Trailing\n"),
    (CUT, 1, "refused: 2 Truncated\n"),
    (
        "000100050002f00101aa01bb01cc000103626f6202000102f0010000020001010000000000000000ffffffffffffffff0001dd0001ee",
        1,
        "refused: 7 BadTag\n",
    ),
    (
        "000100050001f00101aa01bb01cc000203626f6202000102f0010000020001010000000000000000ffffffffffffffff0001dd0001ee",
        1,
        "refused: 11 UnsupportedCredential\n",
    ),
    ("0", 1, "refused: 8 NotHex\n"),
    ("zz", 1, "refused: 8 NotHex\n"),
];

#[test]
fn shows_and_refuses(rt: HostRuntime) -> Result<(), Fail> {
    assert_eq!(rt;
        count_met_by(rt.alloc(), SHOW, KEY_PACKAGES)?,
        KEY_PACKAGES.len()
    );
    Ok(())
}

const KINDS: &[FileCase] = &[
    (
        "00010001016700000000000000000100000002000200030000000501aa01bb",
        0,
        "message: public_message\nbytes: 31\ngroup_id: 67\nepoch: 0\nsender: 2\nauthenticated_data: -\ncontent: proposal\nproposal: remove\nremoved: 5\nsignature: aa\nmembership_tag: bb\n",
    ),
    (
        "00010001016700000000000000000200000002000200030000000501aa01bb",
        1,
        "refused: 7 BadTag\n",
    ),
    (
        "000100010167000000000000000001000000020003000001aa01cc01bb",
        0,
        "message: public_message\nbytes: 29\ngroup_id: 67\nepoch: 0\nsender: 2\nauthenticated_data: -\ncontent: commit\nproposals: 0\npath_nodes: none\nsignature: aa\nconfirmation_tag: cc\nmembership_tag: bb\n",
    ),
    (
        "00010001016700000000000000000100000002000102686901aa01bb",
        0,
        "message: public_message\nbytes: 28\ngroup_id: 67\nepoch: 0\nsender: 2\nauthenticated_data: -\ncontent: application\ndata: 6869\nsignature: aa\nmembership_tag: bb\n",
    ),
    (
        "000100010167000000000000000001000000020002000201bb01cc000103626f6202000102f00100000200010302abcd0001dd01aa01bb",
        0,
        "message: public_message\nbytes: 55\ngroup_id: 67\nepoch: 0\nsender: 2\nauthenticated_data: -\ncontent: proposal\nproposal: update\nleaf.encryption_key: bb\nleaf.signature_key: cc\nleaf.identity: 626f62\nleaf.versions: 0001\nleaf.cipher_suites: f001\nleaf.extensions: -\nleaf.proposals: -\nleaf.credentials: 0001\nleaf.source: commit\nleaf.parent_hash: abcd\nleaf.signature: dd\nsignature: aa\nmembership_tag: bb\n",
    ),
    (
        "00010001016700000000000000000100000002000200010001f00101aa01bb01cc000103626f6202000102f0010000020001010000000000000000ffffffffffffffff0001dd0001ee01aa01bb",
        0,
        "message: public_message\nbytes: 77\ngroup_id: 67\nepoch: 0\nsender: 2\nauthenticated_data: -\ncontent: proposal\nproposal: add\nadd.cipher_suite: f001\nadd.init_key: aa\nadd.leaf.encryption_key: bb\nadd.leaf.signature_key: cc\nadd.leaf.identity: 626f62\nadd.leaf.versions: 0001\nadd.leaf.cipher_suites: f001\nadd.leaf.extensions: -\nadd.leaf.proposals: -\nadd.leaf.credentials: 0001\nadd.leaf.source: key_package\nadd.leaf.not_before: 0\nadd.leaf.not_after: 18446744073709551615\nadd.leaf.signature: dd\nadd.signature: ee\nsignature: aa\nmembership_tag: bb\n",
    ),
    (
        "00010003f0010000",
        0,
        "message: welcome\nbytes: 8\ncipher_suite: f001\nnew_members: 0\ngroup_info_bytes: 0\n",
    ),
    (
        "00010003f0010702abcd01ee01ff03010203",
        0,
        "message: welcome\nbytes: 18\ncipher_suite: f001\nnew_members: 1\nnew_member: abcd\ngroup_info_bytes: 3\n",
    ),
    (
        "000100040001f0010167000000000000000020111111111111111111111111111111111111111111111111111111111111111100000001cc0000000301dd",
        0,
        "message: group_info\nbytes: 62\ncipher_suite: f001\ngroup_id: 67\nepoch: 0\ntree_hash: 1111111111111111111111111111111111111111111111111111111111111111\nconfirmed_transcript_hash: -\ntree_nodes: none\nconfirmation_tag: cc\nsigner: 3\nsignature: dd\n",
    ),
    (
        "000100040001f0010167000000000000000020111111111111111111111111111111111111111111111111111111111111111100002f00022c2b010101bb01cc000103626f6202000102f0010000020001010000000000000000ffffffffffffffff0001dd01cc0000000301dd",
        0,
        "message: group_info\nbytes: 109\ncipher_suite: f001\ngroup_id: 67\nepoch: 0\ntree_hash: 1111111111111111111111111111111111111111111111111111111111111111\nconfirmed_transcript_hash: -\ntree_nodes: 1\nconfirmation_tag: cc\nsigner: 3\nsignature: dd\n",
    ),
];

#[test]
fn shows_each_kind(rt: HostRuntime) -> Result<(), Fail> {
    assert_eq!(rt; count_met_by(rt.alloc(), SHOW, KINDS)?, KINDS.len());
    Ok(())
}

/// Words with no file: the status, what is printed, and what is said.
type Words<'a> = (&'a [&'a str], u8, &'a str, &'a str);

/// Whether this is left where no file can be opened.
fn is_left(
    alloc: Global,
    request: &Result<Request<'_>, NoJob>,
    status: u8,
    text: &str,
    said: &str,
) -> Result<bool, AllocError> {
    let left = serve_words(alloc, request, None)?;
    Ok(
        left.status == status
            && left.out.as_slice() == text.as_bytes()
            && left.err.as_slice() == said.as_bytes(),
    )
}

fn is_left_by(
    alloc: Global,
    words: &[&str],
    status: u8,
    text: &str,
    said: &str,
) -> Result<bool, AllocError> {
    is_left(alloc, &request_of(alloc, words), status, text, said)
}

/// How many leave what they should, from the first on.
fn count_left(alloc: Global, cases: &[Words<'_>]) -> Result<usize, AllocError> {
    for i in 0..cases.len() {
        let (words, status, text, said) = cases[i];
        if !is_left_by(alloc, words, status, text, said)? {
            return Ok(i);
        }
    }
    Ok(cases.len())
}

const WRONG: &[Words] = &[
    (&["mls", "show", "FILE"], 3, "", "mls: cannot read FILE\n"),
    (
        &["mls", "vectors", "FILE"],
        3,
        "",
        "mls: cannot read FILE\n",
    ),
    (&["mls", "show"], 2, "", USAGE),
    (&["mls", "replay", "FILE"], 3, "", "mls: cannot read FILE\n"),
    (&["mls", "export", "FILE"], 2, "", UNKNOWN),
];

#[test]
fn says_what_is_wrong(rt: HostRuntime) -> Result<(), Fail> {
    assert_eq!(rt; count_left(rt.alloc(), WRONG)?, WRONG.len());
    Ok(())
}

/// Whether it is said of words that are no text.
fn is_no_text(alloc: Global) -> Result<bool, AllocError> {
    is_left(alloc, &Err(no_text(alloc)), 2, "", NO_TEXT)
}

#[test]
fn says_what_is_no_text(rt: HostRuntime) -> Result<(), Fail> {
    assert!(rt; is_no_text(rt.alloc())?);
    Ok(())
}

const HELPS: &[Words] = &[
    (&["mls", "--help"], 0, HELP, ""),
    (&["mls", "help", "show"], 0, SHOW_HELP, ""),
    (&["mls", "show", "--help"], 0, SHOW_HELP, ""),
    (&["mls", "check", "--help"], 0, CHECK_HELP, ""),
    (&["mls", "replay", "--help"], 0, REPLAY_HELP, ""),
    (&["mls", "vectors", "-h"], 0, VECTORS_HELP, ""),
    (&["mls", "--version"], 0, "mls 0.1.0\n", ""),
    (&["mls", "-V"], 0, "mls 0.1.0\n", ""),
];

#[test]
fn prints_help(rt: HostRuntime) -> Result<(), Fail> {
    assert_eq!(rt; count_left(rt.alloc(), HELPS)?, HELPS.len());
    Ok(())
}

#[test]
fn stops_where_a_write_fails(rt: HostRuntime) -> Result<(), Fail> {
    assert!(rt; is_cut_after(rt.alloc(), SHOW, KEY_PACKAGE, TEXT, 10)?);
    Ok(())
}
