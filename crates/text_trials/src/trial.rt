// One trial: a drawn sheet into text and back, and the text damaged.
ghost use Rattle.std.specs.Prelude.{◌<◌, ◌≤◌, length};
ghost use Rattle.streams.specs.Counts.{IsPrefixLen};

use draws::digest::Digest;
use draws::{below, draw_lists, next};
use listing::text_of;
use sheet_writer::write;
use text::lines::last_line;
use text::sheet_of::sheet_of;

// The place in the sequence; how many sheets came back the same, and their texts; how many damaged texts were refused; a digest of every text, and of what came of every damaged one.
#[derive(Clone, Copy, Debug, PartialEq, Eq)]
pub(crate) struct Tally {
    pub seed: u32,
    pub sheets: u32,
    pub texts: u32,
    pub refused: u32,
    pub digest: Digest,
}

// A byte that text is made of, or that is out of place there.
fn letter(seed: u32) -> u8 {
    let letters = b" \t\r\n#vertxpanlcbiomdku0123456789A,";
    letters[usize::from(below(seed, 34))]
}

impl Tally {
    // The next number of the sequence.
    pub(crate) fn draw(&mut self) -> u32 {
        self.seed = next(self.seed);
        self.seed
    }

    // The sheet of n vertices that comes next in the sequence; the count of its bytes.
    fn draw_sheet(&mut self, n: u16, gap: u16, sheet: &mut [u8]) -> usize
        requires held { n ≤ 512 }
        requires gap { 0 < gap }
        ensures { IsPrefixLen result sheet.new }
    {
        let mut kinds = [0u16; 512];
        let mut lines = [0u16; 6144];
        let drawn = draw_lists(&mut kinds, &mut lines, n, gap, self.seed);
        self.seed = drawn.seed;
        write(&kinds[..usize::from(n)], &lines[..drawn.count], sheet).unwrap_or(0)
    }

    // The text with one byte changed, made into a sheet or refused: number and line join the digest.
    fn damage(&mut self, text: &mut [u8], p: usize, byte: u8)
        requires { p < length text.old }
    {
        let mut bytes = [0u8; 5507];
        let old = text[p];
        text[p] = byte;
        let (number, line) = match sheet_of(text, &mut bytes) {
            Ok(_) => (0, last_line(text)),
            Err(refusal) => {
                self.refused = self.refused.wrapping_add(1);
                (refusal.reason.number(), refusal.line)
            }
        };
        text[p] = old;
        self.digest.mix(number);
        self.digest.mix(line as u64);
    }

    // Twenty bytes of the text, each changed by itself.
    fn damages(&mut self, text: &mut [u8]) {
        if text.is_empty() {
            return;
        }
        for _ in 0..20 {
            let p = (self.draw() / 32) as usize % text.len();
            let byte = letter(self.draw());
            self.damage(text, p, byte);
        }
    }

    // A sheet into text, into a sheet, into text; and the text damaged.
    fn there_and_back(&mut self, sheet: &[u8]) {
        let mut text = [0u8; 49152];
        let mut bytes = [0u8; 5507];
        let mut again = [0u8; 49152];
        let k = text_of(sheet, &mut text).unwrap_or(0);
        let m = sheet_of(&text[..k], &mut bytes).unwrap_or(0);
        let j = text_of(&bytes[..m], &mut again).unwrap_or(0);
        let sheets = u32::from(sheet == &bytes[..m]);
        let texts = u32::from(&text[..k] == &again[..j]);
        self.sheets = self.sheets.wrapping_add(sheets);
        self.texts = self.texts.wrapping_add(texts);
        self.digest.mix_all(&text[..k]);
        self.damages(&mut text[..k]);
    }

    // One trial with a sheet of n vertices.
    pub(crate) fn trial(&mut self, n: u16, gap: u16)
        requires held { n ≤ 512 }
        requires gap { 0 < gap }
    {
        let mut sheet = [0u8; 5507];
        let count = self.draw_sheet(n, gap, &mut sheet);
        self.there_and_back(&sheet[..count]);
    }
}
