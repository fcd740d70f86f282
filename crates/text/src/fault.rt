// What is wrong with a text, and its number.
ghost use Rattle.std.specs.Prelude.{◌≡◌};
ghost use Rattle.text.specs.Faults.{fault_number, reason_number};

use sheet::fault::Verdict;
use sheet_writer as writer;

// What is wrong with a text by itself, in the order of its numbers: what a line begins with, a number, the word for a kind, a word that does not fit the kind, more than the item, a vertex out of turn, the text's length.
#[derive(Clone, Copy, Debug, PartialEq, Eq)]
pub enum TextFault {
    Item,
    Number,
    Word,
    Misfit,
    More,
    Turn,
    Length,
}

impl TextFault {
    // Its number in docs/TEXT.md.
    pub fn number(self) -> u16
        ensures { result ≡ fault_number self }
    {
        match self {
            TextFault::Item => 71,
            TextFault::Number => 72,
            TextFault::Word => 73,
            TextFault::Misfit => 74,
            TextFault::More => 75,
            TextFault::Turn => 76,
            TextFault::Length => 77,
        }
    }
}

// Why a text is refused: for a fault of its own, or because the writer refuses what it lists.
#[derive(Clone, Copy, Debug, PartialEq, Eq)]
pub enum Reason {
    Text(TextFault),
    Sheet(writer::Refusal),
}

impl From<TextFault> for Reason {
    ghost use Rattle.std.specs.Prelude.{◌≡◌};
    ghost use Rattle.text.specs.declared.fault.Reason.TheVariants.{Text};

    ghost from_gives = { λ f r. r ≡ Text f };

    fn from(fault: TextFault) -> Reason {
        Reason::Text(fault)
    }
}

impl From<writer::Refusal> for Reason {
    ghost use Rattle.std.specs.Prelude.{◌≡◌};
    ghost use Rattle.text.specs.declared.fault.Reason.TheVariants.{Sheet};

    ghost from_gives = { λ w r. r ≡ Sheet w };

    fn from(refusal: writer::Refusal) -> Reason {
        Reason::Sheet(refusal)
    }
}

impl Reason {
    // Its number: the text's own, or document 01's.
    pub fn number(self) -> u16
        ensures { result ≡ reason_number self }
    {
        match self {
            Reason::Text(fault) => fault.number(),
            Reason::Sheet(refusal) => Verdict::from(refusal).number,
        }
    }
}

// A refusal of a text: why, and the line of the text that it is about, counted from 1.
#[derive(Clone, Copy, Debug, PartialEq, Eq)]
pub struct Refusal {
    pub line: usize,
    pub reason: Reason,
}
