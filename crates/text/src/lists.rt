// A whole text into a kind list and a line list.
use crate::fault::{Reason, Refusal, TextFault};
use crate::item::{Item, item_of};
use crate::lines::ends_line;
use arrayvec::ArrayVec;
use sheet_writer as writer;

// The lists that the writer takes, as far as a text is read: the kinds, and three numbers a line.
#[derive(Drop)]
pub(crate) struct Lists {
    pub kinds: ArrayVec<u16, 512>,
    pub lines: ArrayVec<u16, 6144>,
}

impl Lists {
    pub(crate) fn new() -> Lists {
        Lists {
            kinds: ArrayVec::new(),
            lines: ArrayVec::new(),
        }
    }

    // One item more: a vertex has to bear the next number, and there are no more of either than a patch may have.
    fn add(&mut self, item: Item) -> Result<(), Reason> {
        let full = Reason::Sheet(writer::Refusal::Counts);
        match item {
            Item::Vertex(place, kind) => {
                if usize::from(place) != self.kinds.len() {
                    return Err(Reason::Text(TextFault::Turn));
                }
                self.kinds.try_push(kind).map_err(|_| full)
            }
            Item::Line(sort, first, second) => {
                let line = [u16::from(sort), first, second];
                self.lines.try_extend_from_slice(&line).map_err(|_| full)
            }
        }
    }

    // What a line of a text says, if anything.
    fn read_line(&mut self, line: &[u8]) -> Result<(), Reason> {
        match item_of(line)? {
            Some(item) => self.add(item),
            None => Ok(()),
        }
    }

    // All that a text says.
    pub(crate) fn read(&mut self, text: &[u8]) -> Result<(), Refusal> {
        for (line, row) in (1..).zip(text.split_inclusive(ends_line)) {
            self.read_line(row)
                .map_err(|reason| Refusal { line, reason })?;
        }
        Ok(())
    }
}
