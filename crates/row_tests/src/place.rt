// Whether a row is a place: its entries and their kinds, that no two are the same, and the figure's lines one by one.
ghost use Rattle.std.specs.Prelude.{◌≤◌, length};
ghost use Rattle.rules.specs.Checks.{Accepted, figure_limits};
ghost use Rattle.rules.specs.Place.{Figure, Patch, Place};
ghost use Rattle.rules.specs.Calls.{figure_of};
ghost use Rattle.patch.specs.Tables.{Linked};
ghost use Rattle.row_tests.specs.Says.{Says};
ghost use Rattle.row_tests.specs.Against.{KindsFit, Apart, LinesKept, HoldsEnds, EndsBelow, Within, Against};

use arrayvec::ArrayVec;
use patch::{PatchSize, PatchTables, PatchVertex};
use sheet::check::FigureSheet;

// The ends of a figure's line.
#[derive(Clone, Copy, Debug, PartialEq, Eq, Default)]
pub struct Ends {
    pub first: u16,
    pub second: u16,
}

// The lines of a checked figure's sheet, read once for all rows.
pub fn ends_of(sheet: &FigureSheet<'_>) -> ArrayVec<Ends, 64>
    ensures holds { HoldsEnds (figure_of sheet.now) result.items }
    ensures accepted { Accepted figure_limits sheet.now }
{
    let mut ends = ArrayVec::new();
    for j in 0..sheet.lines() {
        let line = sheet.line(j);
        ends.push(Ends {
            first: line.first,
            second: line.second,
        });
    }
    ends
}

// Whether every entry is a patch vertex of its figure vertex's kind.
pub(crate) fn kinds_fit(
    tables: &PatchTables<'_>,
    size: PatchSize,
    kinds: &[u16; 32],
    row: &[u16],
) -> bool
    requires { length row.now ≤ 32 }
    ensures { Says result (KindsFit tables.now size kinds.now row.now) }
{
    for (u, &v) in row.iter().enumerate() {
        if size.get() <= v as usize || tables.kind_of(PatchVertex::new(v)) != kinds[u] {
            return false;
        }
    }
    true
}

// Whether no two entries are the same: each is marked as used.
pub(crate) fn apart(row: &[u16]) -> bool
    requires { Within row.now }
    ensures { Says result (Apart row.now) }
{
    let mut used = [false; 512];
    for &v in row {
        if used[v as usize] {
            return false;
        }
        used[v as usize] = true;
    }
    true
}

// Whether every one of the figure's lines lies on a patch line.
pub(crate) fn lines_kept(tables: &PatchTables<'_>, lines: &[Ends], row: &[u16]) -> bool
    requires { Linked tables.now × Within row.now × EndsBelow (length row.now) lines.now }
    ensures { Says result (LinesKept tables.now lines.now row.now) }
{
    for line in lines {
        let v = PatchVertex::new(row[line.first as usize]);
        let w = PatchVertex::new(row[line.second as usize]);
        if !tables.joined(v, w) {
            return false;
        }
    }
    true
}

// Whether a row is a place.
pub fn is_place(
    tables: &PatchTables<'_>,
    size: PatchSize,
    kinds: &[u16; 32],
    lines: &[Ends],
    row: &[u16],
) -> bool
    requires { (F : Figure) × ((P : Patch) × Against F P tables.now size kinds.now lines.now (length row.now)) }
    ensures { (F : Figure) (P : Patch) → Against F P tables.now size kinds.now lines.now (length row.now) → Says result (Place F P row.now) }
{
    kinds_fit(tables, size, kinds, row) && apart(row) && lines_kept(tables, lines, row)
}
