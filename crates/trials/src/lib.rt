// What the programs that run `find` share: a call on dirty memory and a dirty list, from bytes or from lists that are packed first, and whether what was to stay stayed. Proved safe; what `find` and `write` promise is theirs to say.
#![tactic(auto)]

ghost use Rattle.std.specs.Prelude.{◌≡◌, ◌≤◌, take};
ghost use Rattle.find.specs.Answers.{said};

use find::{Found, Refusal, find};
use matcher::Lists;
use sheet::fault::Verdict;
use sheet_writer::write;

// How many numbers of working memory and of the list are lent, at most 22,600 and 8,192, and the allowance.
#[derive(Clone, Copy)]
pub struct Limits {
    pub memory: usize,
    pub list: usize,
    pub allowance: u32,
}

// What memory and list hold before a call.
const DIRTY: u16 = 54321;

// What came back, with the list. `end` is where the rows end in it; `kept` says that the memory is as promised and that no number past the rows changed: a yes or no of its own, whatever came back.
#[derive(Drop)]
pub struct Ran {
    pub found: Result<Found, Refusal>,
    pub kept: bool,
    pub list: [u16; 8192],
    pub end: usize,
    ghost within: { end ≤ 8192 },
}

// A call's answer in document 01's numbers, as it is printed.
#[derive(Clone, Copy, PartialEq, Eq)]
pub struct Said {
    pub number: u16,
    pub rows: usize,
    pub tries: u32,
}

impl Ran {
    pub fn said(&self) -> Said
        ensures number { result.number ≡ (said self.now.found).number }
        ensures rows { result.rows ≡ (said self.now.found).rows }
        ensures tries { result.tries ≡ (said self.now.found).tries }
    {
        match self.found {
            Ok(found) => Said {
                number: u16::from(found.end),
                rows: found.rows,
                tries: found.tries,
            },
            Err(refusal) => Said {
                number: Verdict::from(refusal).number,
                rows: 0,
                tries: 0,
            },
        }
    }

    // The rows, one after the other.
    pub fn rows(&self) -> &[u16]
        ensures { result.now ≡ take self.now.end self.now.list }
    {
        &self.list[..self.end]
    }
}

// Whether every number of a list is x.
fn all(xs: &[u16], x: u16) -> bool {
    xs.iter().all(|y| *y == x)
}

// Where rows of n numbers end in a list of 8,192.
pub fn end_of(rows: usize, n: usize) -> usize
    ensures { result ≤ 8192 }
{
    rows.saturating_mul(n).min(8192)
}

// The call for a figure of n vertices.
pub fn run(figure: &[u8], patch: &[u8], n: usize, limits: Limits) -> Ran
    ensures { result.end ≤ 8192 }
{
    let mut memory = [DIRTY; 22600];
    let mut list = [DIRTY; 8192];
    let size = limits.memory.min(22600);
    let room = limits.list.min(8192);
    let found = find(
        figure,
        patch,
        &mut memory[..size],
        &mut list[..room],
        limits.allowance,
    );
    // a refusal leaves the memory as it was, and an accepted call zeroes what was lent
    let (rows, left) = match found {
        Ok(found) => (found.rows, 0),
        Err(_) => (0, DIRTY),
    };
    let end = end_of(rows, n);
    let kept = all(&memory[..size], left)
        && all(&memory[size..], DIRTY)
        && all(&list[end..], DIRTY);
    Ran {
        found,
        kept,
        list,
        end,
    }
}

// The call for a figure and a patch given as lists, whose sheets have at most 256 bytes; lists that the writer refuses come to no bytes.
pub fn run_lists(figure: &Lists<'_>, patch: &Lists<'_>, limits: Limits) -> Ran
    ensures { result.end ≤ 8192 }
{
    let mut figure_bytes = [0u8; 256];
    let mut patch_bytes = [0u8; 256];
    let f = write(figure.kinds, figure.lines, &mut figure_bytes).unwrap_or(0);
    let p = write(patch.kinds, patch.lines, &mut patch_bytes).unwrap_or(0);
    run(
        &figure_bytes[..f.min(256)],
        &patch_bytes[..p.min(256)],
        figure.kinds.len(),
        limits,
    )
}
