// Random graphs as lists: what is drawn is a function of a counter, so that nothing is handed on from draw to draw.
ghost use Rattle.std.specs.Prelude.{◌<◌, ◌≤◌};

use arrayvec::ArrayVec;
use matcher::Lists;

// The most vertices that a graph has here.
pub(crate) const MOST: u64 = 12;

// The kinds of a graph, and its lines as three numbers a line.
#[derive(Drop)]
pub(crate) struct Graph {
    kinds: ArrayVec<u16, 12>,
    lines: ArrayVec<u16, 198>,
}

impl Graph {
    pub(crate) fn lists(&self) -> Lists<'_> {
        Lists {
            kinds: self.kinds.as_slice(),
            lines: self.lines.as_slice(),
        }
    }
}

// A number of 32 bits for each t, by products and shifts.
fn scramble(t: u64) -> u64 {
    let a = t % 4294967296 * 2654435761 % 4294967296;
    let b = (a ^ (a >> 15)) % 4294967296 * 2246822519 % 4294967296;
    let c = (b ^ (b >> 13)) % 4294967296 * 3266489917 % 4294967296;
    c ^ (c >> 16)
}

// A number below `limit`.
pub(crate) fn below(t: u64, limit: u64) -> u64
    requires { 0 < limit }
    ensures { result < limit }
{
    scramble(t) % limit
}

// What is drawn of a graph: its number of vertices, how dense its lines are, in eighths, and how many kinds it has.
#[derive(Clone, Copy)]
pub(crate) struct Shape {
    pub size: u64,
    pub dense: u64,
    pub choice: u64,
    ghost few: { size ≤ 12 },
    ghost some: { 0 < choice },
    ghost small: { choice < 5 },
}

// A kind for each vertex, 21 times a number below the choice.
fn draw_kinds(t: u64, shape: Shape) -> ArrayVec<u16, 12> {
    let mut kinds = ArrayVec::new();
    for i in 0..shape.size {
        kinds.push((21 * below(t % 1000000000 + i, shape.choice)) as u16);
    }
    kinds
}

// Whether a and b are joined, where a < b: as b and the one earlier vertex that is drawn for it, with one in sixteen left out, or by chance.
fn joins(t: u64, a: u64, b: u64, dense: u64) -> bool
    requires { (a < b) × (b < 12) }
{
    let at = t % 1000000000;
    if below(at + 30 + b, b) == a {
        return below(at + 50 + b, 16) != 0;
    }
    below(at + 100 + 12 * a + b, 8) < dense
}

// The lines of a graph, ascending.
fn draw_lines(t: u64, shape: Shape) -> ArrayVec<u16, 198> {
    let mut lines = ArrayVec::new();
    for a in 0..shape.size {
        for b in a + 1..shape.size {
            if joins(t, a, b, shape.dense) {
                let sort = below(t % 1000000000 + 300 + 12 * a + b, 3);
                // there is always room: 12 vertices have 66 pairs
                let _ = lines.try_extend_from_slice(&[sort as u16, a as u16, b as u16]);
            }
        }
    }
    lines
}

// A graph, its kinds drawn from k on and its lines from t on.
pub(crate) fn draw_graph(t: u64, k: u64, shape: Shape) -> Graph {
    Graph {
        kinds: draw_kinds(k, shape),
        lines: draw_lines(t, shape),
    }
}
