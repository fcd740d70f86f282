// Runs the benches c to k of document 01 on dirty memory and a dirty list; j and k are not proved as theorems. `stdout` is written from the document by hand.
#![tactic(auto)]

ghost use Rattle.std.specs.Prelude.{◌≤◌};

use matcher::Lists;
use show::print_rows;
use trials::{Limits, Ran, run, run_lists};

// Ample room and this allowance.
fn allowed(allowance: u32) -> Limits {
    Limits {
        memory: 22528,
        list: 4096,
        allowance,
    }
}

// The letter, number, rows and tries on one line; the rows, of n entries each; whether memory and list are as promised. A write that fails is let go.
fn tell(rt: &impl Print, letter: char, ran: &Ran, n: usize) {
    let said = ran.said();
    let _ = println!(rt; "{letter} {} {} {}", said.number, said.rows, said.tries);
    print_rows(rt, &ran.list, said.rows, n);
    let _ = rt.println(if ran.kept {
        "as promised"
    } else {
        "not as promised"
    });
}

// A bench given by lists.
fn bench(rt: &impl Print, letter: char, figure: Lists<'_>, patch: Lists<'_>, limits: Limits) {
    let ran = run_lists(&figure, &patch, limits);
    tell(rt, letter, &ran, figure.kinds.len());
}

// Benches c, d and e: one figure and patch, under limits.
fn forked(rt: &impl Print, letter: char, limits: Limits) {
    bench(
        rt,
        letter,
        Lists {
            kinds: &[1, 2],
            lines: &[1, 0, 1],
        },
        Lists {
            kinds: &[1, 2, 2],
            lines: &[1, 0, 1, 1, 0, 2],
        },
        limits,
    );
}

// Bench e, with room for so many rows.
fn forked_in(rt: &impl Print, room: usize)
    requires { room ≤ 2 }
{
    let limits = Limits {
        memory: 22528,
        list: 2 * room,
        allowance: 1000000,
    };
    forked(rt, 'e', limits);
}

// Benches f to i: letter, figure and patch.
const WHOLE: [(char, Lists<'static>, Lists<'static>); 4] = [
    (
        'f',
        Lists {
            kinds: &[2, 2],
            lines: &[1, 0, 1],
        },
        Lists {
            kinds: &[2, 2],
            lines: &[1, 0, 1],
        },
    ),
    (
        'g',
        Lists {
            kinds: &[3, 3, 3],
            lines: &[1, 0, 1, 1, 0, 2, 1, 1, 2],
        },
        Lists {
            kinds: &[3, 3, 3, 3],
            lines: &[1, 0, 1, 1, 0, 3, 1, 1, 2, 1, 2, 3],
        },
    ),
    (
        'h',
        Lists {
            kinds: &[1, 2, 3, 2],
            lines: &[1, 0, 1, 1, 0, 2, 1, 0, 3],
        },
        Lists {
            kinds: &[1, 2, 3, 3, 3],
            lines: &[1, 0, 1, 1, 0, 2, 1, 0, 3, 1, 0, 4],
        },
    ),
    (
        'i',
        Lists {
            kinds: &[1, 2, 2, 4],
            lines: &[1, 0, 1, 1, 0, 2, 1, 2, 3],
        },
        Lists {
            kinds: &[1, 2, 2, 4],
            lines: &[1, 0, 1, 1, 0, 2, 1, 1, 3],
        },
    ),
];

// Bench j: a figure of one vertex.
fn single(rt: &impl Print, kind: u16, allowance: u32) {
    bench(
        rt,
        'j',
        Lists {
            kinds: &[kind],
            lines: &[],
        },
        Lists {
            kinds: &[5, 5, 5],
            lines: &[],
        },
        allowed(allowance),
    );
}

// Bench k: a figure of 33 vertices of kind 0 without lines.
fn too_many(rt: &impl Print) {
    let mut sheet = [0u8; 28];
    sheet[0] = 0x08;
    sheet[1] = 0x40;
    let ran = run(&sheet, &[0x00, 0x40, 0x00, 0x50], 33, allowed(1000000));
    tell(rt, 'k', &ran, 33);
}

// Bench k: two unjoined vertices.
fn apart(rt: &impl Print) {
    bench(
        rt,
        'k',
        Lists {
            kinds: &[5, 5],
            lines: &[],
        },
        Lists {
            kinds: &[5, 5, 5],
            lines: &[],
        },
        allowed(1000000),
    );
}

// Bench k: working memory one number too short, for the figure and the patch of c.
fn short(rt: &impl Print) {
    let limits = Limits {
        memory: 22527,
        list: 4096,
        allowance: 1000000,
    };
    forked(rt, 'k', limits);
}

fn main(rt: HostRuntime) {
    forked(&rt, 'c', allowed(1000000));
    for allowance in [2, 3] {
        forked(&rt, 'd', allowed(allowance));
    }
    for room in [1, 2] {
        forked_in(&rt, room);
    }
    for (letter, figure, patch) in WHOLE {
        bench(&rt, letter, figure, patch, allowed(1000000));
    }
    single(&rt, 5, 1000000);
    single(&rt, 6, 1000000);
    single(&rt, 6, 0);
    too_many(&rt);
    apart(&rt);
    short(&rt);
}
