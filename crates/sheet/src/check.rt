// A sheet whose checks passed: 11 to 15 for a figure's and 21 to 25 for a patch's, in one pass over its lines.
ghost use Rattle.std.specs.Prelude.{◌≡◌, ◌+◌, ◌*◌, ◌≤◌, ◌<◌, ℕ, List, IfOk};
ghost use Rattle.std.proofs.Math.Option.{none};
ghost use Rattle.rules.specs.Sheet as rules;
ghost use Rattle.rules.specs.Checks.{verdict, line_fits, comes_after, line_checks, sheet_verdict, Accepted};
ghost use Rattle.sheet.specs.Fields.{line_of};
ghost use Rattle.sheet.specs.Check.{check_verdict, lines_verdict, Gives};

use crate::fault::{BadLine, Fault, LineFault};
use crate::fields::{LineType, SheetLine, bit_length, counts, field, kind_at, line_at};
use std::marker::Model;

// Whether a line's type exists, and its ends are vertices in their order.
fn line_fits(line: SheetLine, n: u16) -> bool
    ensures { result ≡ line_fits n (line_of line) }
{
    LineType::try_from(line.sort).is_ok() && line.second < n && line.first < line.second
}

// Whether a line comes after another by (first, second), whatever their types.
fn comes_after(before: SheetLine, line: SheetLine) -> bool
    ensures { result ≡ comes_after (line_of before) (line_of line) }
{
    (before.first, before.second) < (line.first, line.second)
}

// The line before the first: every line that fits comes after it.
const NO_LINE: SheetLine = SheetLine {
    sort: 0,
    first: 0,
    second: 0,
};

// The checks of m lines among n vertices, each given by its number: its fit before its order.
pub fn check_lines<F: Fn(usize) -> SheetLine>(n: u16, m: u16, line: F) -> Result<(), BadLine>
    requires { (j : ℕ) → j < m → F.pre line j }
    ensures { (ten : ℕ) (ls : List rules.Line) → Gives F.post line m ls → lines_verdict ten result ≡ verdict (line_checks ten n 0 none ls) }
{
    let mut before = NO_LINE;
    for j in 0..m {
        let next = line(j as usize);
        let bad = move |fault| BadLine { line: j, fault };
        if !line_fits(next, n) {
            return Err(bad(LineFault::Unfit));
        }
        if !comes_after(before, next) {
            return Err(bad(LineFault::Unordered));
        }
        before = next;
    }
    Ok(())
}

// A sheet whose checks passed, with its counts. It may have so many vertices and lines, and its checks are numbered from a ten. A clause sees its bytes.
#[derive(Drop)]
pub struct Sheet<'a, const VERTICES: u16, const LINES: u16, const TEN: u16> {
    bytes: &'a [u8],
    vertices: u16,
    lines: u16,
}

impl<'a, const VERTICES: u16, const LINES: u16, const TEN: u16> Model
    for Sheet<'a, VERTICES, LINES, TEN> {
    ghost Value = { List ℕ };

    ghost view = { λ s. s.bytes.now };

    ghost invariant = { λ s. Accepted (record { vertices = VERTICES; lines = LINES; ten = TEN }) s.bytes.now × (s.vertices ≡ rules.vertex_count s.bytes.now) × (s.lines ≡ rules.line_count s.bytes.now) };
}

pub type FigureSheet<'a> = Sheet<'a, 32, 64, 10>;

pub type PatchSheet<'a> = Sheet<'a, 512, 2048, 20>;

impl<'a, const VERTICES: u16, const LINES: u16, const TEN: u16> Sheet<'a, VERTICES, LINES, TEN> {
    // The checks of a sheet: under 3 bytes, counts, length, filling, lines.
    pub fn check(bytes: &'a [u8]) -> Result<Self, Fault>
        ensures says { check_verdict TEN result ≡ sheet_verdict (record { vertices = VERTICES; lines = LINES; ten = TEN }) bytes.now }
        ensures same { IfOk result (λ sheet. sheet ≡ bytes.now) }
    {
        if bytes.len() < 3 {
            return Err(Fault::Length);
        }
        let c = counts(bytes);
        if c.vertices == 0 || VERTICES < c.vertices || LINES < c.lines {
            return Err(Fault::Counts);
        }
        let end = bit_length(c.vertices as usize, c.lines as usize);
        if bytes.len() != end.div_ceil(8) {
            return Err(Fault::Length);
        }
        if 0 < field(bytes, end, 8 * bytes.len() - end) {
            return Err(Fault::Filling);
        }
        let start = 22 + 6 * (c.vertices as usize);
        check_lines(c.vertices, c.lines, |j| line_at(bytes, start + 20 * j))?;
        Ok(Sheet {
            bytes,
            vertices: c.vertices,
            lines: c.lines,
        })
    }

    // Its vertices; and that the sheet is accepted, which this type stands for.
    pub fn vertices(&self) -> usize
        ensures value { result ≡ rules.vertex_count self.now }
        ensures accepted { Accepted (record { vertices = VERTICES; lines = LINES; ten = TEN }) self.now }
    {
        self.vertices as usize
    }

    // Its lines, no more than it may have.
    pub fn lines(&self) -> usize
        ensures value { result ≡ rules.line_count self.now }
        ensures few { result ≤ LINES }
        ensures accepted { Accepted (record { vertices = VERTICES; lines = LINES; ten = TEN }) self.now }
    {
        self.lines as usize
    }

    // The same sheet in a variable of one's own, so that a loop that writes elsewhere need not look behind a reference at every turn.
    pub fn own(&self) -> Self
        ensures { result ≡ self.now }
    {
        Sheet {
            bytes: self.bytes,
            vertices: self.vertices,
            lines: self.lines,
        }
    }

    // The kind of vertex `i`.
    pub fn kind(&self, i: usize) -> u16
        requires { i < 65536 }
        ensures { result ≡ rules.field self.now (22 + 6 * i) 6 }
    {
        kind_at(self.bytes, i)
    }

    // The kinds of vertex `i` and the three after it, in 24 bits.
    pub fn four_kinds(&self, i: usize) -> u32
        requires { i < 65536 }
        ensures { result ≡ rules.field self.now (22 + 6 * i) 24 }
    {
        field(self.bytes, 22 + 6 * i, 24)
    }

    // Line j.
    pub fn line(&self, j: usize) -> SheetLine
        requires { j < 65536 }
        ensures { line_of result ≡ rules.line_at self.now (22 + 6 * rules.vertex_count self.now + 20 * j) }
    {
        line_at(self.bytes, 22 + 6 * (self.vertices as usize) + 20 * j)
    }
}
