// The lines of a text, counted from 1.
ghost use Rattle.std.specs.Prelude.{◌≡◌};
ghost use Rattle.text.specs.Lines.{ends_line, last_line};

use crate::item::{Item, item_of};

// Whether a byte ends a line.
pub(crate) fn ends_line(byte: &u8) -> bool
    ensures { result ≡ ends_line byte.now }
{
    *byte == b'\n'
}

// The last line of a text, whether or not a newline ends it; the first of an empty one.
pub fn last_line(text: &[u8]) -> usize
    ensures { result ≡ last_line text.now }
{
    let whole = text.iter().filter(|byte| ends_line(byte)).count();
    match text.last() {
        Some(byte) if ends_line(byte) => whole,
        _ => whole + 1,
    }
}

// The line on which the n-th of the items wanted stands.
pub(crate) fn nth_line<F: Fn(Item) -> bool>(text: &[u8], n: usize, wanted: F) -> Option<usize>
    requires { F.IsAlwaysCallable wanted }
{
    (1..)
        .zip(text.split_inclusive(ends_line))
        .filter(|(_, row)| matches!(item_of(row), Ok(Some(item)) if wanted(item)))
        .nth(n)
        .map(|(line, _)| line)
}
