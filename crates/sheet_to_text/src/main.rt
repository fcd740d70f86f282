// A sheet on standard input, its text on standard output; or one message on standard error and no output.
#![tactic(auto)]

use listing::text_of;
use refusal::say_of_sheet;
use std::io;
use streams::read_full;

fn main(rt: HostRuntime) -> io::Result<()> {
    let mut sheet = [0u8; 5508];
    let mut text = [0u8; 49152];
    let n = read_full(&mut rt.stdin(), &mut sheet);
    match text_of(&sheet[..n], &mut text) {
        Ok(count) => rt.write_all(&text[..count]),
        Err(fault) => {
            say_of_sheet(&rt, fault);
            Ok(())
        }
    }
}
