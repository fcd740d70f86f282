// The text form of a sheet (docs/TEXT.md), written: the two lists that the proved reader gives, into lent bytes, one item a line.
#![tactic(auto)]

ghost use Rattle.std.specs.Prelude.{◌≤◌, ◌≡◌, length, IfOk};
ghost use Rattle.rules.specs.Checks.{patch_limits, sheet_verdict};
ghost use Rattle.streams.specs.Counts.{IsPrefixLen};
ghost use Rattle.listing.specs.Said.{said};

use itoa::Buffer;
use sheet::fault::Fault;
use sheet::fields::LineType;
use sheet_reader::{Refusal, read};

// Text from `at` on, as much as there is room for. The place is handed on beside the bytes: with both in a struct (tried) a method may leave other bytes in its field for all that a caller knows, and the proof of `put_items` does not close.
fn put(out: &mut [u8], at: usize, text: &str) -> usize
    requires { at ≤ length out.old }
    ensures { result ≤ length out.new }
{
    let room = out.len() - at;
    let n = text.len().min(room);
    let bytes = text.as_bytes();
    out[at..at + n].copy_from_slice(&bytes[..n]);
    at + n
}

// A label and a number.
fn labelled(out: &mut [u8], at: usize, label: &str, n: u16) -> usize
    requires { at ≤ length out.old }
    ensures { result ≤ length out.new }
{
    let next = put(out, at, label);
    put(out, next, Buffer::new().format(n))
}

// What stands before a kind: its word.
fn kind_label(kind: u16) -> &'static str {
    match kind {
        0..=15 => " module ",
        16..=31 => " output ",
        32..=59 => " input ",
        _ => " blank ",
    }
}

// What stands before a line's first end: the word for its type. A sheet that is read has no other type.
fn type_label(sort: u16) -> &'static str {
    match LineType::try_from(sort) {
        Ok(LineType::Panel) => "panel ",
        Ok(LineType::Cable) => "cable ",
        Ok(LineType::Normalled) | Err(_) => "normalled ",
    }
}

// A vertex, by its number and its kind.
fn put_vertex(out: &mut [u8], at: usize, number: u16, kind: u16) -> usize
    requires { at ≤ length out.old }
    ensures { result ≤ length out.new }
{
    let next = labelled(out, at, "vertex ", number);
    let end = labelled(out, next, kind_label(kind), kind);
    put(out, end, "\n")
}

// A line, by its type and its ends.
fn put_line(out: &mut [u8], at: usize, line: [u16; 3]) -> usize
    requires { at ≤ length out.old }
    ensures { result ≤ length out.new }
{
    let [sort, first, second] = line;
    let next = labelled(out, at, type_label(sort), first);
    let end = labelled(out, next, " ", second);
    put(out, end, "\n")
}

// All vertices, then all lines.
fn put_items(out: &mut [u8], kinds: &[u16], lines: &[[u16; 3]]) -> usize
    ensures { result ≤ length out.new }
{
    let mut at = 0;
    for (number, kind) in (0..).zip(kinds) {
        at = put_vertex(out, at, number, *kind);
    }
    for line in lines {
        at = put_line(out, at, *line);
    }
    at
}

// The count of the bytes of a patch sheet's text: at most 47,616. It is lent room for any patch, so that what is refused is the sheet.
pub fn text_of(sheet: &[u8], out: &mut [u8]) -> Result<usize, Fault>
    ensures says { said result ≡ sheet_verdict patch_limits sheet.now }
    ensures counted { IfOk result (λ count. IsPrefixLen count out.new) }
{
    let mut kinds = [0u16; 512];
    let mut lines = [0u16; 6144];
    match read(sheet, &mut kinds, &mut lines) {
        Ok(counts) => {
            let n = usize::from(counts.vertices);
            let m = 3 * usize::from(counts.lines);
            let (threes, _) = lines[..m].as_chunks();
            Ok(put_items(out, &kinds[..n], threes))
        }
        Err(Refusal::Sheet(fault)) => Err(fault),
        Err(Refusal::Room) => unreachable!(),
    }
}
