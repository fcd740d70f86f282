// Bit fields by bytes: a field of up to 25 bits lies in four bytes, whatever its offset.
ghost use Rattle.std.specs.Prelude.{◌≡◌, ◌+◌, ◌*◌, ◌≤◌, ◌<◌, ◌^◌, get_or};
ghost use Rattle.rules.specs.Sheet as rules;
ghost use Rattle.sheet.specs.Fields.{four_bytes, line_of};

// Byte `k`, or 0 past the end.
fn byte_or_zero(bytes: &[u8], k: usize) -> u8
    ensures { result ≡ get_or bytes.now k 0 }
{
    bytes.get(k).copied().unwrap_or(0)
}

// The four bytes from byte `k` on as one number, bytes past the end being 0.
fn four_bytes(bytes: &[u8], k: usize) -> u64
    requires { k < 2 ^ 63 }
    ensures { (result ≡ four_bytes bytes.now k) × (result < 2 ^ 32) }
{
    // each by itself, so that the four are read at once
    if k + 3 < bytes.len() {
        return u64::from(u32::from_be_bytes([bytes[k], bytes[k + 1], bytes[k + 2], bytes[k + 3]]));
    }
    u64::from(u32::from_be_bytes([
        byte_or_zero(bytes, k),
        byte_or_zero(bytes, k + 1),
        byte_or_zero(bytes, k + 2),
        byte_or_zero(bytes, k + 3),
    ]))
}

// The field of `width` bits at bit `at`, bits past the end being 0.
pub fn field(bytes: &[u8], at: usize, width: usize) -> u32
    requires { width ≤ 25 }
    ensures { result ≡ rules.field bytes.now at width }
{
    let above = at % 8 + width;
    let four = four_bytes(bytes, at / 8);
    ((four >> (32 - above)) & ((1 << width) - 1)) as u32
}

// A line of a sheet: its type (a word that the language keeps for itself) and its two ends.
#[derive(Clone, Copy, Debug, PartialEq, Eq)]
pub struct SheetLine {
    pub sort: u16,
    pub first: u16,
    pub second: u16,
}

// The types of lines; document 01 has no type 3.
#[derive(Clone, Copy, Debug, PartialEq, Eq)]
pub enum LineType {
    Panel,
    Cable,
    Normalled,
}

// A number that is no line's type.
#[derive(Clone, Copy, Debug, PartialEq, Eq)]
pub struct NoSuchType;

impl TryFrom<u16> for LineType {
    type Error = NoSuchType;

    ghost use Rattle.std.specs.Prelude.{◌≡◌, ◌<◌, MatchResult};
    ghost use Rattle.sheet.specs.Fields.{type_number};

    ghost try_from_gives = { λ n r. MatchResult r (λ t. type_number t ≡ n) (λ _. 2 < n) };

    fn try_from(number: u16) -> Result<LineType, NoSuchType> {
        match number {
            0 => Ok(LineType::Panel),
            1 => Ok(LineType::Cable),
            2 => Ok(LineType::Normalled),
            _ => Err(NoSuchType),
        }
    }
}

// Document 01's number of a type.
impl From<LineType> for u16 {
    ghost use Rattle.std.specs.Prelude.{◌≡◌};
    ghost use Rattle.sheet.specs.Fields.{type_number};

    ghost from_gives = { λ t n. n ≡ type_number t };

    fn from(line_type: LineType) -> u16 {
        match line_type {
            LineType::Panel => 0,
            LineType::Cable => 1,
            LineType::Normalled => 2,
        }
    }
}

// The counts n and m of a sheet.
#[derive(Clone, Copy, Debug, PartialEq, Eq)]
pub struct SheetCounts {
    pub vertices: u16,
    pub lines: u16,
}

// The 20 bits of a line are read as one field.
pub fn line_at(bytes: &[u8], at: usize) -> SheetLine
    ensures { line_of result ≡ rules.line_at bytes.now at }
{
    let whole = field(bytes, at, 20);
    SheetLine {
        sort: (whole >> 18) as u16,
        first: ((whole >> 9) % 512) as u16,
        second: (whole % 512) as u16,
    }
}

// The kind of vertex `i`, whether or not the sheet has it: the bound, here and in `Sheet`, keeps the place of its bits in range.
#[tactic(auto, using(crate::proofs::Words::field_lt))]
pub fn kind_at(bytes: &[u8], i: usize) -> u16
    requires { i < 65536 }
    ensures { result ≡ rules.field bytes.now (22 + 6 * i) 6 }
{
    field(bytes, 22 + 6 * i, 6) as u16
}

// The counts n and m, at the start of a sheet.
#[tactic(auto, using(crate::proofs::Words::field_lt))]
pub fn counts(bytes: &[u8]) -> SheetCounts
    ensures { (result.vertices ≡ rules.vertex_count bytes.now) × (result.lines ≡ rules.line_count bytes.now) }
{
    SheetCounts {
        vertices: field(bytes, 0, 10) as u16,
        lines: field(bytes, 10, 12) as u16,
    }
}

// The length of a sheet of n vertices and m lines in bits.
pub fn bit_length(n: usize, m: usize) -> usize
    requires { (n < 65536) × (m < 65536) }
    ensures { result ≡ rules.bit_length n m }
{
    22 + 6 * n + 20 * m
}
