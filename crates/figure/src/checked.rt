// What a figure's checks answer: the figure, or why it is refused.
ghost use Rattle.std.specs.Prelude.{◌≡◌};
ghost use Rattle.figure.specs.Checked.{CheckedArrays};

use crate::{FigureArrays, load_figure};
use sheet::check::FigureSheet;
use sheet::fault::{Fault, Verdict, lineless};

// Why a figure is refused: a fault of its sheet, or that it is in separate parts.
#[derive(Clone, Copy, Debug, PartialEq, Eq)]
pub enum Refusal {
    Sheet(Fault),
    Parts,
}

impl From<Fault> for Refusal {
    ghost use Rattle.std.specs.Prelude.{◌≡◌};
    ghost use Rattle.figure.specs.declared.checked.Refusal.TheVariants.{Sheet};

    ghost from_gives = { λ f r. r ≡ Sheet f };

    fn from(fault: Fault) -> Refusal {
        Refusal::Sheet(fault)
    }
}

// A refusal in document 01's numbers.
impl From<Refusal> for Verdict {
    ghost use Rattle.std.specs.Prelude.{◌≡◌};
    ghost use Rattle.sheet.specs.Check.{verdict_of};
    ghost use Rattle.figure.specs.Checked.{refusal_verdict};

    ghost from_gives = { λ r v. verdict_of v ≡ refusal_verdict r };

    fn from(refusal: Refusal) -> Verdict {
        match refusal {
            Refusal::Sheet(fault) => fault.verdict(10),
            Refusal::Parts => lineless(16),
        }
    }
}

// The figure of a checked sheet, where it is connected.
pub fn load_connected(sheet: &FigureSheet<'_>) -> Result<FigureArrays, Refusal>
    ensures { CheckedArrays sheet.now result }
{
    let figure = load_figure(sheet);
    if !figure.connected() {
        return Err(Refusal::Parts);
    }
    Ok(figure)
}

// The figure of a sheet, where its sheet's checks pass and then that it is connected.
pub fn check_and_load(sheet: &[u8]) -> Result<FigureArrays, Refusal>
    ensures { CheckedArrays sheet.now result }
{
    let checked = FigureSheet::check(sheet)?;
    load_connected(&checked)
}
