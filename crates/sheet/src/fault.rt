// What is wrong with a sheet, and what an answer says of it in document 01's numbers.
ghost use Rattle.std.specs.Prelude.{◌≡◌, ◌≤◌};
ghost use Rattle.rules.specs.Checks.{lineless};
ghost use Rattle.sheet.specs.Check.{verdict_of, fault_verdict, bad_line_verdict};

// What a check answers in document 01's numbers: 0, or the number of the first check to fail; and the line that it is about, counted from 0, or 65,535. It stays two numbers, since the calls for C and what the programs print have them so; in the code a check answers a Result.
#[derive(Clone, Copy, Debug, PartialEq, Eq)]
pub struct Verdict {
    pub number: u16,
    pub line: u16,
}

// An answer that is about no line.
pub fn lineless(number: u16) -> Verdict
    ensures { verdict_of result ≡ lineless number }
{
    Verdict {
        number,
        line: 65535,
    }
}

// What is wrong with one line: its type or its ends, or that it does not come after the line before it.
#[derive(Clone, Copy, Debug, PartialEq, Eq)]
pub enum LineFault {
    Unfit,
    Unordered,
}

// The first line that something is wrong with, counted from 0.
#[derive(Clone, Copy, Debug, PartialEq, Eq)]
pub struct BadLine {
    pub line: u16,
    pub fault: LineFault,
}

impl BadLine {
    // Its number in document 01, where a sheet's checks are numbered from `ten`.
    pub fn verdict(self, ten: u16) -> Verdict
        requires { ten ≤ 20 }
        ensures { verdict_of result ≡ bad_line_verdict ten self }
    {
        let number = match self.fault {
            LineFault::Unfit => ten + 4,
            LineFault::Unordered => ten + 5,
        };
        Verdict {
            number,
            line: self.line,
        }
    }
}

// What the first check of a sheet to fail found: its length, its counts, a filling bit, or a line.
#[derive(Clone, Copy, Debug, PartialEq, Eq)]
pub enum Fault {
    Length,
    Counts,
    Filling,
    At(BadLine),
}

impl From<BadLine> for Fault {
    ghost use Rattle.std.specs.Prelude.{◌≡◌};
    ghost use Rattle.sheet.specs.declared.fault.Fault.TheVariants.{At};

    ghost from_gives = { λ b f. f ≡ At b };

    fn from(bad: BadLine) -> Fault {
        Fault::At(bad)
    }
}

impl Fault {
    // Its number in document 01, where the sheet's checks are numbered from `ten`.
    pub fn verdict(self, ten: u16) -> Verdict
        requires { ten ≤ 20 }
        ensures { verdict_of result ≡ fault_verdict ten self }
    {
        match self {
            Fault::Length => lineless(ten + 1),
            Fault::Counts => lineless(ten + 2),
            Fault::Filling => lineless(ten + 3),
            Fault::At(bad) => bad.verdict(ten),
        }
    }
}
