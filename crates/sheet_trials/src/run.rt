// One trial, and trials over damage of one sheet. What comes back goes into a log.
ghost use Rattle.std.specs.Prelude.{◌<◌, length};

use crate::log::Log;
use draws::{Drawn, below, draw_lists, next};
use sheet::check::{FigureSheet, PatchSheet};
use sheet::fault::{Verdict, lineless};
use sheet_reader::read;
use sheet_writer::write;

// The writer on two lists, and all that came back.
fn run_write(kinds: &[u16], lines: &[u16], out: &mut [u8], log: &mut Log) {
    let (verdict, count) = match write(kinds, lines, out) {
        Ok(count) => (lineless(0), count),
        Err(refusal) => (Verdict::from(refusal), 0),
    };
    log.note(verdict);
    log.digest.mix(count as u64);
    log.digest.mix_all(out);
}

// The same into o dirty bytes, at most 5,520.
fn write_dirty(kinds: &[u16], lines: &[u16], o: usize, log: &mut Log) {
    let mut out = [171u8; 5520];
    if let Some(part) = out.get_mut(..o) {
        run_write(kinds, lines, part, log);
    }
}

fn run_checks(sheet: &[u8], log: &mut Log) {
    log.note(match FigureSheet::check(sheet) {
        Ok(_) => lineless(0),
        Err(fault) => fault.verdict(10),
    });
    log.note(match PatchSheet::check(sheet) {
        Ok(_) => lineless(0),
        Err(fault) => fault.verdict(20),
    });
}

// The counts that the reader returned, and the lists that it left.
fn note_read(vertices: u16, line_count: u16, kinds: &[u16], lines: &[u16], log: &mut Log) {
    log.digest.mix(vertices);
    log.digest.mix(line_count);
    log.digest.mix_all(kinds);
    log.digest.mix_all(lines);
}

// The reader on a sheet, and the writer on what was read, into o bytes: all that came back.
fn run_read(sheet: &[u8], kinds: &mut [u16], lines: &mut [u16], o: usize, log: &mut Log) {
    match read(sheet, kinds, lines) {
        Ok(counts) => {
            log.note(lineless(0));
            note_read(counts.vertices, counts.lines, kinds, lines, log);
            let n = counts.vertices as usize;
            let m = 3 * (counts.lines as usize);
            if let (Some(kinds), Some(lines)) = (kinds.get(..n), lines.get(..m)) {
                write_dirty(kinds, lines, o, log);
            }
        }
        Err(refusal) => {
            log.note(Verdict::from(refusal));
            note_read(0, 0, kinds, lines, log);
        }
    }
}

// A trial with dirty lists of k and l numbers, at most 520 and 6,200.
fn run_dirty(sheet: &[u8], k: usize, l: usize, o: usize, log: &mut Log) {
    let mut kinds = [7001u16; 520];
    let mut lines = [7002u16; 6200];
    if let (Some(kinds), Some(lines)) = (kinds.get_mut(..k), lines.get_mut(..l)) {
        run_read(sheet, kinds, lines, o, log);
    }
}

// A trial with lists of k and l numbers, or with lists that hold any sheet where it is long.
fn trial(sheet: &[u8], k: usize, l: usize, log: &mut Log) {
    run_checks(sheet, log);
    if 128 < sheet.len() {
        run_dirty(sheet, 520, 6200, 5520, log);
    } else {
        run_dirty(sheet, k, l, 128, log);
    }
}

// A trial with the first e bytes.
fn cut(bytes: &[u8], e: usize, log: &mut Log) {
    if let Some(sheet) = bytes.get(..e) {
        trial(sheet, 40, 200, log);
    }
}

fn flip(sheet: &mut [u8], i: usize) {
    if let Some(byte) = sheet.get_mut(i / 8) {
        *byte ^= 128 >> (i % 8);
    }
}

// A trial with each bit flipped, or with `skip` bits left out between two.
fn flips(sheet: &mut [u8], skip: usize, log: &mut Log) {
    for i in 0..sheet.len().min(6000) * 8 {
        if i % (1 + skip % 1000) == 0 {
            flip(sheet, i);
            trial(sheet, 40, 200, log);
            flip(sheet, i);
        }
    }
}

// A trial with each shorter sheet, or with `skip` lengths left out between two.
fn cuts(sheet: &[u8], skip: usize, log: &mut Log) {
    for k in 0..sheet.len() {
        if k % (1 + skip % 1000) == 0 {
            cut(sheet, k, log);
        }
    }
}

// A trial with lists of every length up to 40 and 200.
fn lends(sheet: &[u8], log: &mut Log) {
    for k in 0..40 {
        trial(sheet, k, 200, log);
        trial(sheet, 40, 5 * k, log);
    }
}

// A sheet, and all damage to it.
pub(crate) fn damage(sheet: &mut [u8], log: &mut Log) {
    trial(sheet, 40, 200, log);
    flips(sheet, 0, log);
    cuts(sheet, 0, log);
    lends(sheet, log);
}

// The count of bytes that two lists come to, or 0.
fn made(kinds: Option<&[u16]>, lines: Option<&[u16]>, bytes: &mut [u8]) -> usize {
    match (kinds, lines) {
        (Some(kinds), Some(lines)) => write(kinds, lines, bytes).unwrap_or(0),
        _ => 0,
    }
}

// A drawn sheet, and its count of bytes.
fn drawn(seed: u32, bytes: &mut [u8]) -> Drawn {
    let mut kinds = [0u16; 20];
    let mut lines = [0u16; 120];
    let n = 1 + below(seed, 20);
    let c = draw_lists(&mut kinds, &mut lines, n, 3, next(seed));
    Drawn {
        seed: c.seed,
        count: made(kinds.get(..n as usize), lines.get(..c.count), bytes),
    }
}

// A drawn sheet, and all damage to it.
pub(crate) fn one_drawn(seed: u32, log: &mut Log) -> u32 {
    let mut bytes = [0u8; 128];
    let c = drawn(seed, &mut bytes);
    if let Some(sheet) = bytes.get_mut(..c.count) {
        damage(sheet, log);
    }
    c.seed
}

// Bytes that look random.
fn draw_bytes(bytes: &mut [u8], seed: u32) -> u32 {
    let mut s = seed;
    for byte in bytes {
        s = next(s);
        *byte = below(s, 256) as u8;
    }
    s
}

// The counts n and m in the first three bytes, the rest of the third as it was.
fn put_counts(bytes: &mut [u8], n: u8, m: u8)
    requires { (n < 16) × (m < 16) × (2 < length bytes.old) }
{
    bytes[0] = n / 4;
    bytes[1] = n % 4 * 64;
    bytes[2] = m * 4 + bytes[2] % 4;
}

// Random bytes under counts that give their length, or a byte more.
pub(crate) fn one_random(seed: u32, log: &mut Log) -> u32 {
    let mut bytes = [0u8; 64];
    let s = next(seed);
    let t = next(s);
    let u = next(t);
    let n = 1 + below(s, 8);
    let m = below(t, 6);
    let after = draw_bytes(&mut bytes, u);
    put_counts(&mut bytes, n as u8, m as u8);
    let e = (29 + 6 * n + 20 * m) / 8 + below(u, 8) / 7;
    cut(&bytes, e as usize, log);
    after
}

// Random bytes, 0 to 39 of them.
pub(crate) fn one_noise(seed: u32, log: &mut Log) -> u32 {
    let mut bytes = [0u8; 64];
    let s = next(seed);
    let after = draw_bytes(&mut bytes, s);
    cut(&bytes, below(s, 40) as usize, log);
    after
}

// A number of a list is set to x.
fn change(list: &mut [u16], i: u16, x: u16) {
    if let Some(number) = list.get_mut(i as usize) {
        *number = x;
    }
}

// One number of each list is changed.
fn change_both(kinds: &mut [u16], lines: &mut [u16], t: u32) {
    let u = next(t);
    change(kinds, below(t, 20), below(u, 66));
    change(lines, below(u, 120), below(next(u), 20));
}

// Drawn lists with one number of each changed, the line list one shorter now and then, and fewer bytes lent than are needed now and then.
pub(crate) fn one_written(seed: u32, log: &mut Log) -> u32 {
    let mut kinds = [0u16; 20];
    let mut lines = [0u16; 120];
    let n = below(seed, 21);
    let c = draw_lists(&mut kinds, &mut lines, n, 3, next(seed));
    let t = next(c.seed);
    let v = next(next(t));
    change_both(&mut kinds, &mut lines, t);
    let l = c.count.saturating_sub((below(t, 8) / 7) as usize);
    if let (Some(kinds), Some(lines)) = (kinds.get(..n as usize), lines.get(..l)) {
        write_dirty(kinds, lines, below(v, 129) as usize, log);
    }
    v
}

// The longest sheet, and the number that its writing gave.
fn longest(seed: u32, bytes: &mut [u8]) -> u16 {
    let mut kinds = [0u16; 512];
    let mut lines = [0u16; 6144];
    draw_lists(&mut kinds, &mut lines, 512, 3, seed);
    match write(&kinds, &lines, bytes) {
        Ok(_) => 0,
        Err(refusal) => Verdict::from(refusal).number,
    }
}

// The longest sheet, and some of the damage to it.
pub(crate) fn one_large(seed: u32, log: &mut Log) {
    let mut bytes = [0u8; 5507];
    log.count(longest(seed, &mut bytes));
    trial(&bytes, 40, 200, log);
    flips(&mut bytes, 330, log);
    cuts(&bytes, 418, log);
}
