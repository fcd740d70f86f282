// A log of what came back: how often each number did, and a digest of all of it.
use draws::digest::Digest;
use sheet::fault::Verdict;
use std::io;
use std::num::wrapping_add_u64;

// How often each number below 40 came back, and the digest.
#[derive(Drop)]
pub(crate) struct Log {
    counts: [u64; 40],
    pub digest: Digest,
}

impl Log {
    // Nothing came back yet; the digest begins with a number of its own for each part.
    pub(crate) fn new(start: u64) -> Log {
        Log {
            counts: [0; 40],
            digest: Digest(start),
        }
    }

    // One more of a number.
    pub(crate) fn count(&mut self, number: u16) {
        if let Some(count) = self.counts.get_mut(number as usize) {
            *count = wrapping_add_u64(*count, 1);
        }
    }

    // A number that came back, in the counts and in the digest, and the line beside it in the digest.
    pub(crate) fn note(&mut self, verdict: Verdict) {
        self.count(verdict.number);
        self.digest.mix(verdict.number);
        self.digest.mix(verdict.line);
    }

    // The digest of a part, then each number that came back with its count.
    pub(crate) fn print(&self, rt: &impl Print) -> io::Result<()> {
        rt.print(self.digest.0)?;
        for (number, count) in self.counts.iter().enumerate() {
            if 0 < *count {
                print!(rt; " {number}:{count}")?;
            }
        }
        rt.println("")
    }
}
