// Compares `find` with a matcher by the definition of a place over random graphs, whole calls and calls under small limits, on dirty memory and a dirty list, and prints how many cases agree.
// What it must print is worked out by tools/random_graphs.py, from document 01 and not from this code.
#![tactic(auto)]

mod draw;

ghost use Rattle.std.specs.Prelude.{◌<◌, ◌≤◌};

use crate::draw::{Shape, below, draw_graph};
use figure::checked::Refusal as FigureRefusal;
use find::{End, Found, Refusal};
use matcher::{Lists, are_places, count_places, first, is_connected};
use std::num::wrapping_add_u64;
use trials::{Limits, Ran, end_of, run_lists};

// What one case came to.
#[derive(Clone, Copy)]
enum Case {
    // the first call is not as the matcher has it
    Wrong,
    // the figure is in separate parts, and 16 came back
    Apart,
    // the first call agrees; whether the second, under limits, agrees with it, and how that ended
    Whole {
        found: Found,
        agreed: bool,
        under: Option<End>,
    },
}

// The room and the allowance of a call under limits: one of the two small, both, or both just enough.
#[derive(Clone, Copy)]
struct Small {
    room: usize,
    allowance: u32,
}

// The whole call's answer, if its list holds every place once.
fn whole_agrees(figure: &Lists<'_>, patch: &Lists<'_>, ran: &Ran) -> Option<Found> {
    let Ok(found) = ran.found else {
        return None;
    };
    let agrees = found.end == End::Complete
        && ran.kept
        && count_places(figure, patch) == Some(found.rows)
        && are_places(figure, patch, ran.rows());
    agrees.then_some(found)
}

// Whether the counts of a call under limits go with those of the whole call.
fn counts_agree(whole: Found, part: Found, small: Small) -> bool {
    if small.room < part.rows || small.allowance < part.tries {
        return false;
    }
    match part.end {
        End::Complete => part.rows == whole.rows && part.tries == whole.tries,
        End::Full => small.room < whole.rows && part.rows == small.room,
        End::Spent => small.allowance < whole.tries && part.tries == small.allowance,
    }
}

// Whether a call under limits agrees with the whole call: its rows are the first of the whole call's.
fn part_agrees(found: Found, whole: &Ran, part: &Ran, small: Small) -> bool {
    part.kept
        && part
            .found
            .is_ok_and(|under| counts_agree(found, under, small))
        && first(&whole.list, part.end) == part.rows()
}

// What a second call is lent: one of room and allowance ample and the other drawn, both drawn, or both just enough. The bound on t, here and below, keeps a program's own arithmetic in range.
fn drawn_small(t: u64, found: Found) -> Small
    requires { t < 1000000000 }
{
    let rows = found.rows % 10000;
    let room = below(t + 1, rows as u64 + 2) as usize;
    let allowance = below(t + 2, u64::from(found.tries) % 1000000000 + 2) as u32;
    // a drawn number, which stands for nothing else
    match below(t, 4) {
        0 => Small {
            room,
            allowance: 4000000000,
        },
        1 => Small {
            room: rows + 1,
            allowance,
        },
        2 => Small { room, allowance },
        _ => Small {
            room: rows,
            allowance: found.tries,
        },
    }
}

// How many numbers the list has beyond its rows: fewer than a row.
fn spare(t: u64, n: usize) -> usize
    requires { t < 1000000000 }
    ensures { result < 12 }
{
    if (1..=12).contains(&n) {
        below(t + 4, n as u64) as usize
    } else {
        0
    }
}

// What is lent where rows have n numbers.
fn drawn_limits(t: u64, small: Small, n: usize) -> Limits
    requires { t < 1000000000 }
{
    Limits {
        memory: 22528 + below(t + 3, 73) as usize,
        list: end_of(small.room, n) + spare(t, n),
        allowance: small.allowance,
    }
}

// The second call of a case, under limits that are drawn from t on.
fn try_limits(figure: &Lists<'_>, patch: &Lists<'_>, whole: &Ran, found: Found, t: u64) -> Case {
    let k = t % 1000000000;
    let small = drawn_small(k, found);
    let limits = drawn_limits(k, small, figure.kinds.len());
    let part = run_lists(figure, patch, limits);
    Case::Whole {
        found,
        agreed: part_agrees(found, whole, &part, small),
        under: match part.found {
            Ok(under) => Some(under.end),
            Err(_) => None,
        },
    }
}

// A whole call, and where it agrees with the matcher a call under limits.
fn try_lists(figure: &Lists<'_>, patch: &Lists<'_>, t: u64) -> Case {
    let ample = Limits {
        memory: 22600,
        list: 8192,
        allowance: 4000000000,
    };
    let whole = run_lists(figure, patch, ample);
    if !is_connected(figure.lines, figure.kinds.len()) {
        let refused = whole.found == Err(Refusal::Figure(FigureRefusal::Parts));
        return if refused && whole.kept {
            Case::Apart
        } else {
            Case::Wrong
        };
    }
    match whole_agrees(figure, patch, &whole) {
        Some(found) => try_limits(figure, patch, &whole, found, t),
        None => Case::Wrong,
    }
}

// The largest patch for a figure of n vertices, so that the tuples stay few.
fn most(n: u64) -> u64
    requires { n < 7 }
    ensures { (n ≤ result) × (result ≤ 12) }
{
    if n < 4 { 12 } else { 19 - 2 * n }
}

// How many vertices the patch for a figure of n has: at least one fewer than the figure.
fn drawn_size(t: u64, n: u64) -> u64
    requires { (0 < n) × (n < 7) }
    ensures { result ≤ 12 }
{
    if n < 2 {
        return 1 + below(t, 12);
    }
    n - 1 + below(t, most(n) - n + 2)
}

// The case of a number.
fn try_case(i: u64) -> Case
    requires { i < 10000 }
{
    let t = 20261115 + 4000 * i;
    let choice = 2 + below(t, 3);
    let n = 1 + below(t + 1000, 6);
    let same = 500 * below(t + 1, 2);
    let of_figure = Shape {
        size: n,
        dense: below(t + 1001, 5),
        choice,
    };
    let of_patch = Shape {
        size: drawn_size(t + 2000, n),
        dense: 1 + below(t + 2001, 5),
        choice,
    };
    let figure = draw_graph(t + 1000, t + 1010, of_figure);
    let patch = draw_graph(t + 2000, t + 1010 + same, of_patch);
    try_lists(&figure.lists(), &patch.lists(), t + 3000)
}

// What all cases came to.
#[derive(Clone, Copy, Default)]
struct Sums {
    agreed: u64,
    apart: u64,
    whole: u64,
    with_a_place: u64,
    places: u64,
    tries: u64,
    complete: u64,
    full: u64,
    spent: u64,
}

// One more, of so many.
fn add(sum: &mut u64, more: u64) {
    *sum = wrapping_add_u64(*sum, more);
}

impl Sums {
    fn add_case(&mut self, case: Case) {
        match case {
            Case::Wrong => {}
            Case::Apart => {
                add(&mut self.agreed, 1);
                add(&mut self.apart, 1);
            }
            Case::Whole {
                found,
                agreed,
                under,
            } => {
                add(&mut self.agreed, u64::from(agreed));
                self.add_whole(found);
                match under {
                    Some(End::Complete) => add(&mut self.complete, 1),
                    Some(End::Full) => add(&mut self.full, 1),
                    Some(End::Spent) => add(&mut self.spent, 1),
                    None => {}
                }
            }
        }
    }

    fn add_whole(&mut self, found: Found) {
        add(&mut self.whole, 1);
        add(&mut self.with_a_place, u64::from(0 < found.rows));
        add(&mut self.places, found.rows as u64);
        add(&mut self.tries, u64::from(found.tries));
    }
}

fn main(rt: HostRuntime) {
    let mut sums = Sums::default();
    for i in 0..4000 {
        sums.add_case(try_case(i));
    }
    // a write that fails is let go
    for (label, sum) in [
        ("seed", 20261115),
        ("cases", 4000),
        ("agreed", sums.agreed),
        ("16 not connected", sums.apart),
        ("0 whole", sums.whole),
        ("0, with a place", sums.with_a_place),
        ("places", sums.places),
        ("tries", sums.tries),
        ("0 under limits", sums.complete),
        ("1 under limits", sums.full),
        ("2 under limits", sums.spent),
    ] {
        let _ = println!(rt; "{label:18}{sum}");
    }
}
