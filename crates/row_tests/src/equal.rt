// Whether a row equals an earlier one. Marks of the rows' digests spare the comparisons of most rows that equal none; they never decide that two rows are equal.
ghost use Rattle.std.specs.Prelude.{◌≡◌, ◌+◌, ◌*◌, ◌≤◌, ◌<◌, ℕ, List, length, replicate};
ghost use Rattle.rules.specs.RowCheck.{row_at, Repeats};
ghost use Rattle.row_tests.specs.Says.{Says};
ghost use Rattle.row_tests.specs.Marks.{digest_of, is_marked, marked_at, Noted};

use std::marker::Model;

// Row i of a list of rows of n entries each, as a part of the list. That it lies there is about three numbers, and stays a clause here and below.
pub fn row_of(rows: &[u16], n: usize, i: usize) -> &[u16]
    requires { i * n + n ≤ length rows.now }
    ensures { result.now ≡ row_at n rows.now i }
{
    let start = i * n;
    &rows[start..start + n]
}

// Whether two parts of rows that are equally many fours are equal.
fn same_fours(fours: &[[u16; 4]], others: &[[u16; 4]]) -> bool
    requires { length fours.now ≡ length others.now }
    ensures { Says result (fours.now ≡ others.now) }
{
    for k in 0..fours.len() {
        if fours[k] != others[k] {
            return false;
        }
    }
    true
}

// Whether two parts of rows of the same length are equal, entry by entry.
fn same_entries(entries: &[u16], others: &[u16]) -> bool
    requires { length entries.now ≡ length others.now }
    ensures { Says result (entries.now ≡ others.now) }
{
    entries.iter().zip(others).all(|(x, y)| x == y)
}

// Whether two rows of the same length are equal: the first entry, in which most differ, then four at a time and in place, since `==` of slices makes a call for each row that begins alike.
pub(crate) fn same_row(row: &[u16], other: &[u16]) -> bool
    requires { length row.now ≡ length other.now }
    ensures { Says result (row.now ≡ other.now) }
{
    if !row.is_empty() && row[0] != other[0] {
        return false;
    }
    let (fours, rest) = row.as_chunks::<4>();
    let (other_fours, other_rest) = other.as_chunks::<4>();
    same_fours(fours, other_fours) && same_entries(rest, other_rest)
}

// Whether row i equals one of the rows before it, by comparing it with each.
pub(crate) fn stands_before(rows: &[u16], n: usize, i: usize) -> bool
    requires { i * n + n ≤ length rows.now }
    ensures { Says result (Repeats n rows.now i) }
{
    let row = row_of(rows, n, i);
    for j in 0..i {
        if same_row(row_of(rows, n, j), row) {
            return true;
        }
    }
    false
}

// A row's digest, below 2^36: every entry, the last too, tells in its upper and in its lower half.
pub(crate) fn digest(row: &[u16]) -> usize
    ensures { (result ≡ digest_of row.now) × (result < 68_719_476_736) }
{
    let mut d: u64 = 0;
    for &x in row {
        d = (d + u64::from(x)) * 92821457 % 68719476731;
    }
    d as usize
}

// Two marks for the digest of each row met, among 262,144 bits. A clause sees the words, which may be any at first: more marks than rows cost comparisons alone.
#[derive(Drop)]
pub struct Marks {
    pub words: [u32; 8192],
}

impl Model for Marks {
    ghost Value = { List ℕ };

    ghost view = { λ m. m.words };
}

impl Marks {
    // No mark is set.
    pub fn new() -> Marks
        ensures { result ≡ replicate 8_192 0 }
    {
        Marks { words: [0; 8192] }
    }

    // Whether mark d is set.
    fn has(&self, d: usize) -> bool
        requires { d < 262_144 }
        ensures { result ≡ is_marked self.now d }
    {
        (self.words[d / 32] >> (d % 32)) % 2 == 1
    }

    // Mark d is set.
    fn set(&mut self, d: usize)
        requires { d < 262_144 }
        ensures { self.new ≡ marked_at self.old d }
    {
        self.words[d / 32] |= 1 << (d % 32);
    }
}

// Whether row i equals an earlier row, where the marks of every earlier row are set; its own are set afterwards too.
pub fn repeats(rows: &[u16], n: usize, i: usize, marks: &mut Marks) -> bool
    requires { (i * n + n ≤ length rows.now) × Noted n rows.now i marks.old }
    ensures { Says result (Repeats n rows.now i) × Noted n rows.now (i + 1) marks.new }
{
    let d = digest(row_of(rows, n, i));
    let low = d % 262144;
    let high = d / 262144;
    let met = marks.has(low) && marks.has(high);
    marks.set(low);
    marks.set(high);
    met && stands_before(rows, n, i)
}
