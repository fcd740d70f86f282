// Refusals in words, for standard error: the number, what it means, and the line that it is about, of a text counted from 1, of a sheet from 0. Numbers from 71 on are of the text alone (docs/TEXT.md), the others document 01's.
#![tactic(auto)]

ghost use Rattle.std.specs.Prelude.{◌≡◌};
ghost use Rattle.sheet.specs.Check.{fault_verdict};
ghost use Rattle.text.specs.Faults.{reason_number};

use sheet::fault::{BadLine, Fault, LineFault};
use sheet_writer as writer;
use std::fmt;
use text::fault::{Reason, Refusal, TextFault};

// A refusal of a sheet that is to become text.
#[derive(Clone, Copy, Debug, PartialEq, Eq)]
pub struct SheetRefused(pub Fault);

// A refusal of a text, about one of its lines.
#[derive(Clone, Copy, Debug, PartialEq, Eq)]
pub struct TextRefused(pub Refusal);

// What is wrong with a line.
fn line_words(fault: LineFault) -> &'static str {
    match fault {
        LineFault::Unfit => {
            "a line of a type above 2, with an end not below the vertex count, or whose first end is not below its second"
        }
        LineFault::Unordered => "a line that is not after the one before it",
    }
}

// What is wrong with a sheet.
fn sheet_words(fault: Fault) -> &'static str {
    match fault {
        Fault::Length => "the sheet is shorter than 3 bytes, or not the length its counts give",
        Fault::Counts => "a count outside the limits: 1 to 512 vertices, up to 2,048 lines",
        Fault::Filling => "a filling bit is set",
        Fault::At(bad) => line_words(bad.fault),
    }
}

// What is wrong with a text by itself.
fn text_words(fault: TextFault) -> &'static str {
    match fault {
        TextFault::Item => {
            "a line begins with vertex, panel, cable or normalled, or with # for a comment"
        }
        TextFault::Number => "a number from 0 to 65,535 belongs here",
        TextFault::Word => {
            "after a vertex's number comes its kind: module, output, input or blank, and a number"
        }
        TextFault::Misfit => {
            "the word does not fit the kind: module 0 to 15, output 16 to 31, input 32 to 59, blank 60 to 63"
        }
        TextFault::More => "the item is complete before the line ends; a comment begins with #",
        TextFault::Turn => {
            "vertices are numbered from 0 on, each one more than the one before it"
        }
        TextFault::Length => "the text is longer than 131,072 bytes",
    }
}

// Why the writer refuses. No text's lists are uneven, and `text_to_sheet` lends room for any sheet.
fn writer_words(refusal: writer::Refusal) -> &'static str {
    match refusal {
        writer::Refusal::Uneven => "a line list that is no whole number of lines",
        writer::Refusal::Counts => sheet_words(Fault::Counts),
        writer::Refusal::Kind => "a kind above 63",
        writer::Refusal::At(bad) => line_words(bad.fault),
        writer::Refusal::Room => "there are too few bytes for the sheet",
    }
}

impl SheetRefused {
    // The number that is said: a patch sheet's.
    pub fn number(self) -> u16
        ensures { result ≡ (fault_verdict 20 self.0).number }
    {
        self.0.verdict(20).number
    }
}

impl TextRefused {
    // The number that is said: the text's own, or the writer's.
    pub fn number(self) -> u16
        ensures { result ≡ reason_number self.0.reason }
    {
        self.0.reason.number()
    }
}

impl fmt::Display for SheetRefused {
    fn fmt<W: fmt::Write>(&self, f: &mut fmt::Formatter<W>) -> fmt::Result {
        let SheetRefused(fault) = *self;
        write!(f, "{}: ", self.number())?;
        if let Fault::At(BadLine { line, .. }) = fault {
            write!(f, "line {line} of the sheet, counted from 0: ")?;
        }
        f.write_str(sheet_words(fault))
    }
}

impl fmt::Display for TextRefused {
    fn fmt<W: fmt::Write>(&self, f: &mut fmt::Formatter<W>) -> fmt::Result {
        let TextRefused(Refusal { line, reason }) = *self;
        let words = match reason {
            Reason::Text(fault) => text_words(fault),
            Reason::Sheet(refusal) => writer_words(refusal),
        };
        write!(f, "line {line}: {}: {words}", self.number())
    }
}

// A refusal on standard error. A write that fails is let go: there is nowhere else to say it.
pub fn say(rt: &impl Eprint, refusal: impl fmt::Display + Drop) {
    let _ = eprintln!(rt; "{refusal}");
}

// A refusal of a sheet, and the line of it that it is about, if it is about one; the number said.
pub fn say_of_sheet(rt: &impl Eprint, fault: Fault) -> u16
    ensures { result ≡ (fault_verdict 20 fault).number }
{
    let refused = SheetRefused(fault);
    say(rt, refused);
    refused.number()
}

// A refusal of a text, about one of its lines; the number said.
pub fn say_line(rt: &impl Eprint, refusal: Refusal) -> u16
    ensures { result ≡ reason_number refusal.reason }
{
    let refused = TextRefused(refusal);
    say(rt, refused);
    refused.number()
}

#[cfg(test)]
mod tests {
    use super::*;
    use std::cell::Cell;
    use std::fmt::{Display, Formatter};
    use std::io;

    // What of a line is still to come; `None` once anything else came.
    #[derive(Drop)]
    struct Expected(Option<&'static str>);

    impl fmt::Write for Expected {
        fn write_str(&mut self, s: &str) -> fmt::Result {
            self.0 = self.0.and_then(|rest| rest.strip_prefix(s));
            Ok(())
        }
    }

    // A standard error on which every write fails; it counts the writes, and the lines that are the one expected.
    #[derive(Drop)]
    struct Ear {
        line: &'static str,
        writes: Cell<u32>,
        heard: Cell<u32>,
    }

    impl Eprint for Ear {
        fn eprint<D: Display + Drop>(&self, value: D) -> io::Result<()> {
            self.writes.set(self.writes.get().saturating_add(1));
            Err(io::ErrorKind::BrokenPipe.into())
        }

        fn eprintln<D: Display + Drop>(&self, value: D) -> io::Result<()> {
            let mut f = Formatter::new(Expected(Some(self.line)));
            let _ = f.write(&value);
            if f.into_inner().0 == Some("") {
                self.heard.set(self.heard.get().saturating_add(1));
            }
            self.eprint("")
        }
    }

    #[test]
    fn says_one_line_and_lets_a_failed_write_go(rt: HostRuntime) {
        let ear = Ear {
            line: "line 7: 77: the text is longer than 131,072 bytes",
            writes: Cell::new(0),
            heard: Cell::new(0),
        };
        let refusal = Refusal {
            line: 7,
            reason: Reason::Text(TextFault::Length),
        };
        say(&ear, TextRefused(refusal));
        assert_eq!(rt; (ear.writes.get(), ear.heard.get()), (1, 1));
    }
}
