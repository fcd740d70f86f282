// Random sheets into text and back, and damaged texts. It prints the seed, how many sheets and texts came back the same, how many damaged texts were refused, and a digest of all texts and refusals.
// What it must print is worked out by tools/text_trials.py, from docs/TEXT.md and not from this code.
#![tactic(auto)]

mod trial;

use crate::trial::Tally;
use draws::below;
use draws::digest::Digest;
use std::io;

// Small sheets of every density, one in eight of any size.
fn one(tally: &mut Tally, i: u32) {
    let a = tally.draw();
    let b = tally.draw();
    let most = if i % 8 == 0 { 512 } else { 40 };
    tally.trial(below(a, most) + 1, below(b, 40) + 1);
}

fn main(rt: HostRuntime) -> io::Result<()> {
    let mut tally = Tally {
        seed: 20261115,
        sheets: 0,
        texts: 0,
        refused: 0,
        digest: Digest(1),
    };
    println!(rt; "seed {}", tally.seed)?;
    for i in 0..160 {
        one(&mut tally, i);
    }
    // the largest sheet: 512 vertices, 2,048 lines
    tally.trial(512, 2);
    println!(rt; "sheets the same {}", tally.sheets)?;
    println!(rt; "texts the same {}", tally.texts)?;
    println!(rt; "damaged texts refused {}", tally.refused)?;
    println!(rt; "digest {}", tally.digest.0)
}
