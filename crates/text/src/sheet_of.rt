// A text's sheet, by the proved writer, or the refusal and the line of the text that it is about.
ghost use Rattle.std.specs.Prelude.{IfOk};
ghost use Rattle.rules.specs.Calls.{writer};
ghost use Rattle.streams.specs.Counts.{IsPrefixLen};
ghost use Rattle.text.specs.Sheets.{Wrote, Made};

use crate::fault::{Refusal, TextFault};
use crate::item::Item;
use crate::lines::{last_line, nth_line};
use crate::lists::Lists;
use sheet_writer as writer;
use sheet_writer::write;

// The line of the text that the writer's refusal is about: that of the first kind above 63, that of the line which it names, else the last.
fn line_of(text: &[u8], kinds: &[u16], refusal: writer::Refusal) -> usize {
    let found = match refusal {
        writer::Refusal::Kind => kinds
            .iter()
            .position(|kind| 63 < *kind)
            .and_then(|i| nth_line(text, i, Item::is_vertex)),
        writer::Refusal::At(bad) => nth_line(text, usize::from(bad.line), Item::is_line),
        _ => None,
    };
    found.unwrap_or_else(|| last_line(text))
}

// What the writer makes of two lists, and the line of the text that a refusal is about.
fn written(text: &[u8], kinds: &[u16], lines: &[u16], bytes: &mut [u8]) -> Result<usize, Refusal>
    ensures wrote { Wrote (writer kinds.now lines.now bytes.old) result bytes.new }
    ensures counted { IfOk result (λ count. IsPrefixLen count bytes.new) }
{
    write(kinds, lines, bytes).map_err(|refusal| Refusal {
        line: line_of(text, kinds, refusal),
        reason: refusal.into(),
    })
}

// The count of the bytes of a text's sheet. The text has up to 131,072 bytes.
pub fn sheet_of(text: &[u8], bytes: &mut [u8]) -> Result<usize, Refusal>
    ensures made { Made result bytes.old bytes.new }
    ensures counted { IfOk result (λ count. IsPrefixLen count bytes.new) }
{
    let mut lists = Lists::new();
    lists.read(text)?;
    if 131072 < text.len() {
        return Err(Refusal {
            line: last_line(text),
            reason: TextFault::Length.into(),
        });
    }
    written(text, &lists.kinds, &lists.lines, bytes)
}
