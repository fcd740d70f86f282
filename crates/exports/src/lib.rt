// The library's calls for C and for Rust, under their plain names. Each is the proved function of
// the crate below it, with its answer laid out as in C.
#![tactic(auto)]

ghost use Rattle.std.specs.Prelude.{◌≡◌};
ghost use Rattle.rules.specs.Calls.{search, reader, writer};
ghost use Rattle.rules.specs.RowCheck.{RowsChecked};
ghost use Rattle.exports.specs.Answers.{as_searched, as_read, as_written};

use find::find;
use row_check::check_rows;
use sheet::fault::{Verdict, lineless};
use sheet_reader::read;
use sheet_writer::write;

// The four answers are numbers side by side, as C has them (outside/gelquorist.h).

// What the search returns: its number, the line that the number is about or 65,535, the rows written and the tries spent.
#[repr(C)]
#[derive(Clone, Copy)]
pub struct Found {
    pub number: u16,
    pub line: u16,
    pub rows: usize,
    pub tries: u32,
}

// What the reader returns: its number, the line, and the counts n and m.
#[repr(C)]
#[derive(Clone, Copy)]
pub struct Read {
    pub number: u16,
    pub line: u16,
    pub vertices: u16,
    pub lines: u16,
}

// What the writer returns: its number, the line, and the count of bytes.
#[repr(C)]
#[derive(Clone, Copy)]
pub struct Written {
    pub number: u16,
    pub line: u16,
    pub count: usize,
}

// What the check of rows returns: its number, the line, and the first bad row or 0.
#[repr(C)]
#[derive(Clone, Copy)]
pub struct Checked {
    pub number: u16,
    pub line: u16,
    pub row: usize,
}

#[unsafe(no_mangle)]
pub extern "C" fn gelquorist_find(
    figure: &[u8],
    patch: &[u8],
    memory: &mut [u16],
    list: &mut [u16],
    allowance: u32,
) -> Found
    ensures { as_searched result list.new memory.new ≡ search figure.now patch.now memory.old list.old allowance }
{
    match find(figure, patch, memory, list, allowance) {
        Ok(found) => {
            let Verdict { number, line } = lineless(u16::from(found.end));
            Found {
                number,
                line,
                rows: found.rows,
                tries: found.tries,
            }
        }
        Err(refusal) => {
            let Verdict { number, line } = Verdict::from(refusal);
            Found {
                number,
                line,
                rows: 0,
                tries: 0,
            }
        }
    }
}

#[unsafe(no_mangle)]
pub extern "C" fn gelquorist_read(sheet: &[u8], kinds: &mut [u16], lines: &mut [u16]) -> Read
    ensures { as_read result kinds.new lines.new ≡ reader sheet.now kinds.old lines.old }
{
    match read(sheet, kinds, lines) {
        Ok(counts) => {
            let Verdict { number, line } = lineless(0);
            Read {
                number,
                line,
                vertices: counts.vertices,
                lines: counts.lines,
            }
        }
        Err(refusal) => {
            let Verdict { number, line } = Verdict::from(refusal);
            Read {
                number,
                line,
                vertices: 0,
                lines: 0,
            }
        }
    }
}

#[unsafe(no_mangle)]
pub extern "C" fn gelquorist_write(kinds: &[u16], lines: &[u16], bytes: &mut [u8]) -> Written
    ensures { as_written result bytes.new ≡ writer kinds.now lines.now bytes.old }
{
    match write(kinds, lines, bytes) {
        Ok(count) => {
            let Verdict { number, line } = lineless(0);
            Written {
                number,
                line,
                count,
            }
        }
        Err(refusal) => {
            let Verdict { number, line } = Verdict::from(refusal);
            Written {
                number,
                line,
                count: 0,
            }
        }
    }
}

#[unsafe(no_mangle)]
pub extern "C" fn gelquorist_check_rows(figure: &[u8], patch: &[u8], rows: &[u16]) -> Checked
    ensures { RowsChecked figure.now patch.now rows.now (record { number = result.number; line = result.line }) result.row }
{
    match check_rows(figure, patch, rows) {
        Ok(()) => {
            let Verdict { number, line } = lineless(0);
            Checked {
                number,
                line,
                row: 0,
            }
        }
        Err(refusal) => {
            let Verdict { number, line } = Verdict::from(refusal);
            Checked {
                number,
                line,
                row: refusal.row(),
            }
        }
    }
}
