// One line of text: an item, nothing, or what is wrong with it.
use crate::fault::TextFault;
use sheet::fields::LineType;

// A vertex with its number and kind, or a line with its type and ends.
#[derive(Clone, Copy, Debug, PartialEq, Eq)]
pub(crate) enum Item {
    Vertex(u16, u16),
    Line(LineType, u16, u16),
}

impl Item {
    pub(crate) fn is_vertex(self) -> bool {
        matches!(self, Item::Vertex(..))
    }

    pub(crate) fn is_line(self) -> bool {
        matches!(self, Item::Line(..))
    }
}

// The words for kinds.
#[derive(Clone, Copy, Debug, PartialEq, Eq)]
enum KindWord {
    Module,
    Output,
    Input,
    Blank,
}

impl KindWord {
    // The word that letters spell.
    fn named(word: &[u8]) -> Option<KindWord> {
        match word {
            b"module" => Some(KindWord::Module),
            b"output" => Some(KindWord::Output),
            b"input" => Some(KindWord::Input),
            b"blank" => Some(KindWord::Blank),
            _ => None,
        }
    }

    // The word of a kind. Kinds above 63 have none, and the writer refuses them.
    fn of(kind: u16) -> Option<KindWord> {
        match kind {
            0..=15 => Some(KindWord::Module),
            16..=31 => Some(KindWord::Output),
            32..=59 => Some(KindWord::Input),
            60..=63 => Some(KindWord::Blank),
            _ => None,
        }
    }
}

// The type that a word names.
fn type_named(word: &[u8]) -> Option<LineType> {
    match word {
        b"panel" => Some(LineType::Panel),
        b"cable" => Some(LineType::Cable),
        b"normalled" => Some(LineType::Normalled),
        _ => None,
    }
}

// A number with one digit more, where it stays within 65,535.
fn grown(number: u16, digit: u8) -> Option<u16> {
    if !digit.is_ascii_digit() {
        return None;
    }
    number.checked_mul(10)?.checked_add(u16::from(digit - b'0'))
}

// The number that a word is: digits alone.
fn number(word: Option<&[u8]>) -> Result<u16, TextFault> {
    word.ok_or(TextFault::Number)?
        .iter()
        .try_fold(0, |number, digit| grown(number, *digit))
        .ok_or(TextFault::Number)
}

// Whether a byte stands between words: space, tab, and what ends a line.
fn is_blank(byte: u8) -> bool {
    matches!(byte, b' ' | b'\t' | b'\r' | b'\n')
}

// The words of a line that were not taken yet. Each byte is looked at once, up to a comment, which ends them: `split` and `filter` over the part before a `#` (tried) took 2.2 times as long on empty lines.
#[derive(Drop)]
struct Words<'a> {
    rest: &'a [u8],
}

impl<'a> Words<'a> {
    // The next word, if there is one.
    fn next(&mut self) -> Option<&'a [u8]> {
        let start = self.rest.iter().position(|byte| !is_blank(*byte))?;
        let found = &self.rest[start..];
        if found[0] == b'#' {
            return None;
        }
        let end = found
            .iter()
            .position(|byte| is_blank(*byte) || *byte == b'#')
            .unwrap_or(found.len());
        let (word, rest) = found.split_at(end);
        self.rest = rest;
        Some(word)
    }
}

// The item of a line, if it has one.
pub(crate) fn item_of(line: &[u8]) -> Result<Option<Item>, TextFault> {
    let mut words = Words { rest: line };
    match words.next() {
        Some(head) => named(head, words).map(Some),
        None => Ok(None),
    }
}

// The item that a first word and those after it are. Never a part of its caller, where an empty line is to cost little.
#[inline(never)]
fn named(head: &[u8], mut words: Words<'_>) -> Result<Item, TextFault> {
    let found = if head == b"vertex".as_slice() {
        let place = number(words.next())?;
        let named = words
            .next()
            .and_then(KindWord::named)
            .ok_or(TextFault::Word)?;
        let kind = number(words.next())?;
        if KindWord::of(kind).is_some_and(|word| word != named) {
            return Err(TextFault::Misfit);
        }
        Item::Vertex(place, kind)
    } else {
        let sort = type_named(head).ok_or(TextFault::Item)?;
        let first = number(words.next())?;
        Item::Line(sort, first, number(words.next())?)
    };
    if words.next().is_some() {
        return Err(TextFault::More);
    }
    Ok(found)
}
