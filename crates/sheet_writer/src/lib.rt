// The writer: the sheet that two lists say, into lent bytes.
#![tactic(auto)]

ghost use Rattle.std.specs.Prelude.{◌≡◌, ◌+◌, ◌*◌, ◌/◌, ◌≤◌, ◌<◌, ◌^◌, leb, length};
ghost use Rattle.std.proofs.Math.Option.{none};
ghost use Rattle.laws.specs.Lists.{all};
ghost use Rattle.rules.specs.Sheet.{kind_bits, line_bits, byte_length, written};
ghost use Rattle.rules.specs.Checks.{verdict, line_checks};
ghost use Rattle.rules.specs.Calls.{over, lines_of, sheet_of, writer};
ghost use Rattle.sheet.specs.Check.{lines_verdict};
ghost use Rattle.sheet.specs.Fields.{line_of};
ghost use Rattle.sheet_writer.specs.Answers.{as_written, check_verdict};
ghost use Rattle.sheet_writer.specs.Pen.{Able, Added};
ghost use Rattle.sheet_writer.specs.Writing.{line_in, KindsFit, LinesFit, list_checks};

mod pen;

use crate::pen::{Pen, put};
use sheet::check::check_lines;
use sheet::fault::{BadLine, Verdict, lineless};
use sheet::fields::{SheetLine, bit_length};

// Why the writer refuses: a line list that is no whole number of lines, counts outside a patch's limits, a kind above 63, a line, or too few bytes.
#[derive(Clone, Copy, Debug, PartialEq, Eq)]
pub enum Refusal {
    Uneven,
    Counts,
    Kind,
    At(BadLine),
    Room,
}

// A refusal in document 01's numbers.
impl From<Refusal> for Verdict {
    ghost use Rattle.std.specs.Prelude.{◌≡◌};
    ghost use Rattle.sheet.specs.Check.{verdict_of};
    ghost use Rattle.sheet_writer.specs.Answers.{refusal_verdict};

    ghost from_gives = { λ r v. verdict_of v ≡ refusal_verdict r };

    fn from(refusal: Refusal) -> Verdict {
        match refusal {
            Refusal::Uneven => lineless(34),
            Refusal::Counts => lineless(22),
            Refusal::Kind => lineless(35),
            Refusal::At(bad) => bad.verdict(20),
            Refusal::Room => lineless(33),
        }
    }
}

fn line_in(lines: &[u16], j: usize) -> SheetLine
    requires { j < length lines.now / 3 }
    ensures { line_of result ≡ line_in lines.now j }
{
    SheetLine {
        sort: lines[3 * j],
        first: lines[3 * j + 1],
        second: lines[3 * j + 2],
    }
}

fn kinds_fit(kinds: &[u16]) -> bool
    ensures { result ≡ all (λ k. leb k 63) kinds.now }
{
    kinds.iter().all(|kind| *kind <= 63)
}

// The checks of the lines of a list, among n vertices.
fn check_line_list(lines: &[u16], n: u16) -> Result<(), BadLine>
    requires { length lines.now / 3 ≤ 2048 }
    ensures { lines_verdict 20 result ≡ verdict (line_checks 20 n 0 none (lines_of lines.now)) }
{
    check_lines(n, (lines.len() / 3) as u16, |j| line_in(lines, j))
}

// The writer's checks before the one for room.
fn check_lists(kinds: &[u16], lines: &[u16]) -> Result<(), Refusal>
    ensures { check_verdict result ≡ verdict (list_checks kinds.now lines.now) }
{
    if lines.len() % 3 != 0 {
        return Err(Refusal::Uneven);
    }
    let n = kinds.len();
    let m = lines.len() / 3;
    if n == 0 || 512 < n || 2048 < m {
        return Err(Refusal::Counts);
    }
    if !kinds_fit(kinds) {
        return Err(Refusal::Kind);
    }
    if let Err(bad) = check_line_list(lines, n as u16) {
        return Err(Refusal::At(bad));
    }
    Ok(())
}

fn write_kinds(kinds: &[u16], bytes: &mut [u8], pen: Pen) -> Pen
    requires { (pen.count < 8) × KindsFit kinds.now × Able (6 * length kinds.now) pen bytes.old }
    ensures { (result.count < 8) × Added (kind_bits kinds.now) pen bytes.old result bytes.new }
{
    let mut pen = pen;
    for kind in kinds {
        pen = put(bytes, pen, u32::from(*kind), 6);
    }
    pen
}

// The 20 bits of a line as one number.
fn line_word(line: SheetLine) -> u32
    requires { (line.sort < 4) × (line.first < 512) × (line.second < 512) }
    ensures { (result ≡ line.sort * 262144 + line.first * 512 + line.second) × (result < 2 ^ 20) }
{
    u32::from(line.sort) * 262144 + u32::from(line.first) * 512 + u32::from(line.second)
}

fn write_lines(lines: &[u16], bytes: &mut [u8], pen: Pen) -> Pen
    requires { (pen.count < 8) × LinesFit lines.now × Able (20 * (length lines.now / 3)) pen bytes.old }
    ensures { (result.count < 8) × Added (line_bits (lines_of lines.now)) pen bytes.old result bytes.new }
{
    let mut pen = pen;
    for j in 0..lines.len() / 3 {
        pen = put(bytes, pen, line_word(line_in(lines, j)), 20);
    }
    pen
}

// The counts, the kinds, the lines, and zero bits that fill the last byte.
fn write_sheet(kinds: &[u16], lines: &[u16], bytes: &mut [u8])
    requires { (length kinds.now < 1024) × (length lines.now / 3 < 4096) × KindsFit kinds.now × LinesFit lines.now × (byte_length (length kinds.now) (length lines.now / 3) ≤ length bytes.old) }
    ensures { bytes.new ≡ over (written (sheet_of kinds.now lines.now)) bytes.old }
{
    let start = Pen {
        at: 0,
        held: 0,
        count: 0,
    };
    let vertices = put(bytes, start, kinds.len() as u32, 10);
    let counts = put(bytes, vertices, (lines.len() / 3) as u32, 12);
    let labels = write_kinds(kinds, bytes, counts);
    let ends = write_lines(lines, bytes, labels);
    put(bytes, ends, 0, (8 - ends.count) % 8);
}

// The count of the sheet's bytes.
pub fn write(kinds: &[u16], lines: &[u16], bytes: &mut [u8]) -> Result<usize, Refusal>
    ensures { as_written result bytes.new ≡ writer kinds.now lines.now bytes.old }
{
    check_lists(kinds, lines)?;
    let count = bit_length(kinds.len(), lines.len() / 3).div_ceil(8);
    if bytes.len() < count {
        return Err(Refusal::Room);
    }
    write_sheet(kinds, lines, bytes);
    Ok(count)
}
