// The check of a list of rows, whoever made it: accepted exactly if every row is a place and no two rows are equal.
#![tactic(auto)]

ghost use Rattle.std.specs.Prelude.{◌≡◌, ◌/◌, length, IfOk};
ghost use Rattle.rules.specs.Checks.{verdict};
ghost use Rattle.rules.specs.Place.{Figure, Patch};
ghost use Rattle.rules.specs.Calls.{figure_of, figure_checks};
ghost use Rattle.rules.specs.RowCheck.{row_count, RowsTested, RowsChecked};
ghost use Rattle.figure.specs.FigureTables.{HoldsFigure};
ghost use Rattle.figure.specs.Checked.{check_verdict};
ghost use Rattle.patch.specs.Tables.{Holds};
ghost use Rattle.row_tests.specs.Against.{Against};
ghost use Rattle.row_check.specs.Answers.{row_of_refusal, bad_number, bad_row, rows_verdict, rows_row};

use figure::FigureArrays;
use figure::checked::{Refusal as FigureRefusal, load_connected};
use patch::{PatchSize, PatchTables};
use patch_loader::load;
use row_tests::equal::{Marks, repeats, row_of};
use row_tests::place::{Ends, ends_of, is_place};
use sheet::check::{FigureSheet, PatchSheet};
use sheet::fault::{Fault, Verdict, lineless};

// What is wrong with a row: it is not a place, or it is one and equals an earlier row.
#[derive(Clone, Copy, Debug, PartialEq, Eq)]
pub enum RowFault {
    NotAPlace,
    Repeated,
}

// The first bad row, counted from 0.
#[derive(Clone, Copy, Debug, PartialEq, Eq)]
pub struct BadRow {
    pub row: usize,
    pub fault: RowFault,
}

// Why a list of rows is refused: its figure, its patch, a length that is no whole number of rows, or its first bad row.
#[derive(Clone, Copy, Debug, PartialEq, Eq)]
pub enum Refusal {
    Figure(FigureRefusal),
    Patch(Fault),
    Uneven,
    Row(BadRow),
}

impl From<FigureRefusal> for Refusal {
    ghost use Rattle.std.specs.Prelude.{◌≡◌};
    ghost use Rattle.row_check.specs.declared.Refusal.TheVariants.{Figure as FigureRefused};

    ghost from_gives = { λ f r. r ≡ FigureRefused f };

    fn from(refusal: FigureRefusal) -> Refusal {
        Refusal::Figure(refusal)
    }
}

// A figure's faults come as the figure's refusal, so that what is left is a patch's.
impl From<Fault> for Refusal {
    ghost use Rattle.std.specs.Prelude.{◌≡◌};
    ghost use Rattle.row_check.specs.declared.Refusal.TheVariants.{Patch as PatchRefused};

    ghost from_gives = { λ f r. r ≡ PatchRefused f };

    fn from(fault: Fault) -> Refusal {
        Refusal::Patch(fault)
    }
}

impl From<BadRow> for Refusal {
    ghost use Rattle.std.specs.Prelude.{◌≡◌};
    ghost use Rattle.row_check.specs.declared.Refusal.TheVariants.{Row};

    ghost from_gives = { λ b r. r ≡ Row b };

    fn from(bad: BadRow) -> Refusal {
        Refusal::Row(bad)
    }
}

// A refusal in document 01's numbers.
impl From<Refusal> for Verdict {
    ghost use Rattle.std.specs.Prelude.{◌≡◌};
    ghost use Rattle.sheet.specs.Check.{verdict_of};
    ghost use Rattle.row_check.specs.Answers.{refusal_verdict};

    ghost from_gives = { λ r v. verdict_of v ≡ refusal_verdict r };

    fn from(refusal: Refusal) -> Verdict {
        match refusal {
            Refusal::Figure(refusal) => Verdict::from(refusal),
            Refusal::Patch(fault) => fault.verdict(20),
            Refusal::Uneven => lineless(42),
            Refusal::Row(bad) => match bad.fault {
                RowFault::NotAPlace => lineless(43),
                RowFault::Repeated => lineless(44),
            },
        }
    }
}

impl Refusal {
    // The first bad row, or 0 where no row is bad.
    pub fn row(self) -> usize
        ensures { result ≡ row_of_refusal self }
    {
        match self {
            Refusal::Row(bad) => bad.row,
            _ => 0,
        }
    }
}

// Each row in its turn: whether it is a place, then whether it equals an earlier row.
fn walk(
    tables: &PatchTables<'_>,
    size: PatchSize,
    figure: &FigureArrays,
    lines: &[Ends],
    rows: &[u16],
) -> Result<(), BadRow>
    requires { (F : Figure) × ((P : Patch) × Against F P tables.now size figure.now.kinds lines.now figure.now.n) }
    ensures { (F : Figure) (P : Patch) → Against F P tables.now size figure.now.kinds lines.now figure.now.n → RowsTested F P rows.now (length rows.now / figure.now.n) (bad_number result) (bad_row result) }
{
    let n = figure.n.get();
    let mut marks = Marks::new();
    for i in 0..rows.len() / n {
        if !is_place(tables, size, &figure.kinds, lines, row_of(rows, n, i)) {
            return Err(BadRow {
                row: i,
                fault: RowFault::NotAPlace,
            });
        }
        if repeats(rows, n, i, &mut marks) {
            return Err(BadRow {
                row: i,
                fault: RowFault::Repeated,
            });
        }
    }
    Ok(())
}

// The rows against a loaded patch of `size` vertices, for the loaded figure of a checked sheet, whose lines are read here.
fn test_rows(
    sheet: &FigureSheet<'_>,
    figure: &FigureArrays,
    tables: &PatchTables<'_>,
    size: PatchSize,
    rows: &[u16],
) -> Result<(), BadRow>
    requires figure { HoldsFigure (figure_of sheet.now) figure.now.n figure.now.kinds figure.now.near figure.now.degrees }
    requires patch { (P : Patch) × Holds P tables.now × (P.graph.size ≡ size) }
    ensures { (P : Patch) → Holds P tables.now → P.graph.size ≡ size → RowsTested (figure_of sheet.now) P rows.now (row_count sheet.now rows.now) (bad_number result) (bad_row result) }
{
    let lines = ends_of(sheet);
    walk(tables, size, figure, lines.as_slice(), rows)
}

// A figure's sheet and the figure, where the figure's checks pass.
fn checked_figure(bytes: &[u8]) -> Result<(FigureSheet<'_>, FigureArrays), FigureRefusal>
    ensures answers { check_verdict result ≡ verdict (figure_checks bytes.now) }
    ensures loaded { IfOk result (λ r. (r.0 ≡ bytes.now) × HoldsFigure (figure_of bytes.now) r.1.n r.1.kinds r.1.near r.1.degrees) }
{
    let sheet = FigureSheet::check(bytes)?;
    let arrays = load_connected(&sheet)?;
    Ok((sheet, arrays))
}

// Whether every row is a place and no two are equal.
pub fn check_rows(figure: &[u8], patch: &[u8], rows: &[u16]) -> Result<(), Refusal>
    ensures { RowsChecked figure.now patch.now rows.now (rows_verdict result) (rows_row result) }
{
    let (sheet, arrays) = checked_figure(figure)?;
    let patch = PatchSheet::check(patch)?;
    if rows.len() % arrays.n.get() != 0 {
        return Err(Refusal::Uneven);
    }
    let mut numbers = [0u16; 5122];
    load(&patch, &mut numbers);
    let tables = PatchTables::new(&numbers);
    let size = PatchSize::new(patch.vertices());
    test_rows(&sheet, &arrays, &tables, size, rows)?;
    Ok(())
}
