// Numbers that look random, the lists of a sheet drawn out of them, and a digest of what came of it: for the trials.
#![tactic(auto)]

ghost use Rattle.std.specs.Prelude.{◌≡◌, ◌+◌, ◌*◌, ◌%◌, ◌<◌, ◌≤◌, length};

pub mod digest;

// The place in the sequence, and how many numbers were drawn into a list.
#[derive(Clone, Copy, Debug, PartialEq, Eq)]
pub struct Drawn {
    pub seed: u32,
    pub count: usize,
}

// Two ends of a line. Not the Ends of `row_tests`: what is tried is drawn by nothing of it.
#[derive(Clone, Copy, Debug, PartialEq, Eq)]
struct Ends {
    first: u16,
    second: u16,
}

// The next number of the sequence.
pub fn next(seed: u32) -> u32
    ensures { result ≡ (seed * 1_103_515_245 + 12_345) % 2_147_483_648 }
{
    ((u64::from(seed) * 1103515245 + 12345) % 2147483648) as u32
}

// A number below `limit` out of the upper bits.
pub fn below(seed: u32, limit: u16) -> u16
    requires { 0 < limit }
    ensures { result < limit }
{
    (seed / 32768 % u32::from(limit)) as u16
}

fn draw_kinds(kinds: &mut [u16], seed: u32) -> u32 {
    let mut s = seed;
    for kind in kinds {
        s = next(s);
        *kind = below(s, 64);
    }
    s
}

impl Ends {
    // The ends that come after these by a jump, or those that begin the next first end.
    fn after(self, n: u16, jump: u16) -> Ends {
        let second = self.second % 1024 + 1 + jump % 1024;
        if second < n {
            return Ends { second, ..self };
        }
        let first = self.first % 1024 + 1;
        Ends {
            first,
            second: first + 1,
        }
    }
}

// Lines among n vertices, ascending by jumps below `gap`, as many as there are or as the list holds. That a gap is not 0 stays a clause: the programs write it as a literal.
fn draw_lines(lines: &mut [u16], n: u16, gap: u16, seed: u32) -> Drawn
    requires { 0 < gap }
    ensures { result.count ≤ length lines.new }
{
    let mut s = seed;
    let mut ends = Ends {
        first: 0,
        second: 0,
    };
    let most = lines.len() / 3;
    for k in 0..most {
        s = next(s);
        ends = ends.after(n, below(s, gap));
        if n <= ends.second {
            return Drawn {
                seed: s,
                count: 3 * k,
            };
        }
        s = next(s);
        lines[3 * k] = below(s, 3);
        lines[3 * k + 1] = ends.first;
        lines[3 * k + 2] = ends.second;
    }
    Drawn {
        seed: s,
        count: 3 * most,
    }
}

// Kinds, and lines among the first n of their vertices by jumps below `gap`; the count is of the lines' numbers.
pub fn draw_lists(kinds: &mut [u16], lines: &mut [u16], n: u16, gap: u16, seed: u32) -> Drawn
    requires { 0 < gap }
    ensures { result.count ≤ length lines.new }
{
    let s = draw_kinds(kinds, seed);
    draw_lines(lines, n, gap, s)
}
