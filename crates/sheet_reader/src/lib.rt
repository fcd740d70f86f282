// The reader: what a patch sheet holds, into two lent lists.
#![tactic(auto)]

ghost use Rattle.std.specs.Prelude.{◌≡◌, ◌*◌, ◌≤◌, length};
ghost use Rattle.rules.specs.Sheet.{vertex_count, line_count, kinds_held, lines_held};
ghost use Rattle.rules.specs.Calls.{over, triples, reader};
ghost use Rattle.sheet_reader.specs.Answers.{as_read};
ghost use Rattle.sheet.specs.Check.{verdict_of};

use sheet::check::PatchSheet;
use sheet::fault::{Fault, Verdict, lineless};
use sheet::fields::SheetCounts;

// Why the reader refuses: a fault of the sheet, or a list that is too short for what it holds.
#[derive(Clone, Copy, Debug, PartialEq, Eq)]
pub enum Refusal {
    Sheet(Fault),
    Room,
}

impl From<Fault> for Refusal {
    ghost use Rattle.std.specs.Prelude.{◌≡◌};
    ghost use Rattle.sheet_reader.specs.declared.Refusal.TheVariants.{Sheet};

    ghost from_gives = { λ f r. r ≡ Sheet f };

    fn from(fault: Fault) -> Refusal {
        Refusal::Sheet(fault)
    }
}

// A refusal in document 01's numbers.
impl From<Refusal> for Verdict {
    ghost use Rattle.std.specs.Prelude.{◌≡◌};
    ghost use Rattle.sheet.specs.Check.{verdict_of};
    ghost use Rattle.sheet_reader.specs.Answers.{refusal_verdict};

    ghost from_gives = { λ r v. verdict_of v ≡ refusal_verdict r };

    fn from(refusal: Refusal) -> Verdict {
        match refusal {
            Refusal::Sheet(fault) => fault.verdict(20),
            Refusal::Room => lineless(33),
        }
    }
}

// The kinds of a sheet's vertices, from the start of the list.
fn read_kinds(sheet: &PatchSheet<'_>, kinds: &mut [u16])
    requires { vertex_count sheet.now ≤ length kinds.old }
    ensures { kinds.new ≡ over (kinds_held sheet.now (vertex_count sheet.now)) kinds.old }
{
    let n = sheet.vertices();
    for (v, kind) in kinds[..n].iter_mut().enumerate() {
        *kind = sheet.kind(v);
    }
}

// Its lines, three numbers each, from the start of the list.
fn read_lines(sheet: &PatchSheet<'_>, lines: &mut [u16])
    requires { 3 * line_count sheet.now ≤ length lines.old }
    ensures { lines.new ≡ over (triples (lines_held sheet.now (vertex_count sheet.now) (line_count sheet.now))) lines.old }
{
    let m = sheet.lines();
    for j in 0..m {
        let line = sheet.line(j);
        lines[3 * j..3 * j + 3].copy_from_slice(&[line.sort, line.first, line.second]);
    }
}

// The counts of what was read.
pub fn read(sheet: &[u8], kinds: &mut [u16], lines: &mut [u16]) -> Result<SheetCounts, Refusal>
    ensures { as_read result kinds.new lines.new ≡ reader sheet.now kinds.old lines.old }
{
    let checked = PatchSheet::check(sheet)?;
    let n = checked.vertices();
    let m = checked.lines();
    if kinds.len() < n || lines.len() < 3 * m {
        return Err(Refusal::Room);
    }
    read_kinds(&checked, kinds);
    read_lines(&checked, lines);
    Ok(SheetCounts {
        vertices: n as u16,
        lines: m as u16,
    })
}
