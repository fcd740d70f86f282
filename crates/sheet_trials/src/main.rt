// Runs the checks, the reader and the writer over sheets good and damaged, and prints of each part a digest of all that came back and how often each number did.
// What it must print is worked out by tools/sheet_trials.py, from document 01 and not from this code.
#![tactic(auto)]

mod log;
mod run;

use crate::log::Log;
use crate::run::{damage, one_drawn, one_large, one_noise, one_random, one_written};
use draws::next;
use std::io;

// The sheets of benches a and b, with every bit flipped and every shorter sheet.
fn benches(rt: &impl Print) -> io::Result<()> {
    let mut log = Log::new(1);
    damage(&mut [0x00, 0x80, 0x04, 0x10, 0x90, 0x00, 0x04], &mut log);
    damage(&mut [0x00, 0x40, 0x00, 0x50], &mut log);
    log.print(rt)
}

// A part: so many trials of one kind, each beginning at the place in the sequence at which the one before it ended.
fn part<F: Fn(u32, &mut Log) -> u32>(rt: &impl Print, count: u32, one: F) -> io::Result<()>
    requires { F.IsAlwaysCallable one }
{
    let mut log = Log::new(2);
    let mut seed = 11;
    for _ in 0..count {
        seed = one(seed, &mut log);
    }
    log.print(rt)
}

// The longest sheet.
fn large(rt: &impl Print) -> io::Result<()> {
    let mut log = Log::new(6);
    one_large(next(15), &mut log);
    log.print(rt)
}

fn main(rt: HostRuntime) -> io::Result<()> {
    benches(&rt)?;
    part(&rt, 12, one_drawn)?;
    part(&rt, 3000, one_random)?;
    part(&rt, 2000, one_noise)?;
    part(&rt, 4000, one_written)?;
    large(&rt)
}
