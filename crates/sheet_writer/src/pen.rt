// A pen puts bits down by whole bytes and holds those that do not fill one yet.
ghost use Rattle.std.specs.Prelude.{◌≡◌, [], ◌+◌, ◌≤◌, ◌<◌, ◌^◌};
ghost use Rattle.rules.specs.Sheet.{bits};
ghost use Rattle.sheet_writer.specs.Pen.{Able, Added};

// The next byte, the bits that wait for it, and their number: fewer than eight between two fields, which stays a clause, since while bytes go out there are more.
#[derive(Clone, Copy)]
pub(crate) struct Pen {
    pub at: usize,
    pub held: u32,
    pub count: usize,
}

// One whole byte goes out.
fn emit(bytes: &mut [u8], pen: Pen) -> Pen
    requires { (8 ≤ pen.count) × (pen.count ≤ 31) × Able 0 pen bytes.old }
    ensures { (result.count + 8 ≡ pen.count) × Added [] pen bytes.old result bytes.new }
{
    let at = pen.at;
    let rest = pen.count - 8;
    bytes[at] = (pen.held >> rest) as u8;
    Pen {
        at: at + 1,
        held: pen.held & ((1 << rest) - 1),
        count: rest,
    }
}

// The lowest `width` bits of `value`, most significant first.
pub(crate) fn put(bytes: &mut [u8], pen: Pen, value: u32, width: usize) -> Pen
    requires { (pen.count < 8) × (width ≤ 20) × (value < 2 ^ width) × Able width pen bytes.old }
    ensures { (result.count < 8) × Added (bits width value) pen bytes.old result bytes.new }
{
    let mut next = Pen {
        at: pen.at,
        held: (pen.held << width) + value,
        count: pen.count + width,
    };
    // no count: the eight bits of a byte go out each turn
    while 8 <= next.count {
        next = emit(bytes, next);
    }
    next
}
