// What the programs read, into lent bytes.
#![tactic(auto)]

ghost use Rattle.std.specs.Prelude.{take};
ghost use Rattle.std.specs.Io.KnownBytes.{Consumes};
ghost use Rattle.streams.specs.Counts.{IsPrefixLen};

use std::io::Read;

// Reads until `bytes` is full, the input ends or a read fails; how many bytes it put at their start, and they are what the input gave.
pub fn read_full<R: Read>(input: &mut R, bytes: &mut [u8]) -> usize
    ensures within { IsPrefixLen result bytes.new }
    ensures given { Consumes (R.remaining input.old) (R.remaining input.new) (take result bytes.new) }
{
    let mut done = 0;
    // no count: each turn adds what one read gave
    while done < bytes.len() {
        let Ok(n) = input.read(&mut bytes[done..]) else {
            break;
        };
        if n == 0 {
            break;
        }
        done += n;
    }
    done
}
