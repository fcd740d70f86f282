// Text on standard input, its sheet's bytes on standard output; or one message on standard error and no output.
#![tactic(auto)]

use refusal::say_line;
use std::io;
use streams::read_full;
use text::sheet_of::sheet_of;

fn main(rt: HostRuntime) -> io::Result<()> {
    let mut text = [0u8; 131073];
    let mut bytes = [0u8; 5507];
    let n = read_full(&mut rt.stdin(), &mut text);
    match sheet_of(&text[..n], &mut bytes) {
        Ok(count) => rt.write_all(&bytes[..count]),
        Err(refusal) => {
            say_line(&rt, refusal);
            Ok(())
        }
    }
}
