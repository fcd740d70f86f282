// What the programs do: the places of the figure in figure.sheet in the patch in patch.sheet, printed, and on standard error the line that a refusal is about. Thin over the proved call `find`.
#![tactic(auto)]

ghost use Rattle.std.specs.Prelude.{◌+◌, ◌*◌, ◌≤◌, ◌<◌, length};
ghost use Rattle.show.specs.Numbers.{Known};

use find::find;
use sheet::fault::{Verdict, lineless};
use sheet::fields::counts;
use std::fs::File;
use std::rt::Files;
use streams::read_full;

// What a file holds, up to 5,508 bytes, in the bytes that are lent; a file that cannot be opened counts as empty.
fn read_sheet<'a>(rt: &impl Files, path: &str, bytes: &'a mut [u8; 5508]) -> &'a [u8]
    ensures { length result.now ≤ 5508 }
{
    let Ok(mut file) = File::open(rt, path) else {
        return &[];
    };
    let count = read_full(&mut file, bytes);
    &bytes[..count]
}

// One row on a line: its entries, single spaces between them. A write that fails is let go, here and below.
fn print_row(rt: &impl Print, row: &[u16]) {
    let Some((last, before)) = row.split_last() else {
        return;
    };
    for v in before {
        let _ = print!(rt; "{v} ");
    }
    let _ = println!(rt; "{last}");
}

// The first rows of a list, of n entries each, as far as the list reaches; how many were printed.
pub fn print_rows(rt: &impl Print, list: &[u16], rows: usize, n: usize) -> usize
    ensures { (result ≤ rows) × (result * n ≤ length list.now) × (result < rows → length list.now < result * n + n) }
{
    let mut rest = list;
    for done in 0..rows {
        let Some((row, after)) = rest.split_at_checked(n) else {
            return done;
        };
        print_row(rt, row);
        rest = after;
    }
    rows
}

// Number, rows and tries on one line, then one line a row; the number, which is one of document 01's.
pub fn find_and_print(rt: &(impl Files + Print + Eprint)) -> u16
    ensures { Known result }
{
    let mut figure_bytes = [0u8; 5508];
    let mut patch_bytes = [0u8; 5508];
    let figure = read_sheet(rt, "figure.sheet", &mut figure_bytes);
    let patch = read_sheet(rt, "patch.sheet", &mut patch_bytes);
    let mut memory = [0u16; 22528];
    let mut list = [0u16; 4096];
    match find(figure, patch, &mut memory, &mut list, 1000000) {
        Ok(found) => {
            let number = u16::from(found.end);
            let _ = println!(rt; "{number} {} {}", found.rows, found.tries);
            let c = counts(figure);
            print_rows(rt, &list, found.rows, c.vertices as usize);
            number
        }
        Err(refusal) => {
            let verdict = Verdict::from(refusal);
            let _ = println!(rt; "{} 0 0", verdict.number);
            if verdict != lineless(verdict.number) {
                let _ = eprintln!(rt; "line {}", verdict.line);
            }
            verdict.number
        }
    }
}
