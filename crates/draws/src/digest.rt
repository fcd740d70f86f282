// A digest of numbers, in the order in which they come.

ghost use Rattle.std.specs.Prelude.{◌<◌};

// The digest so far: below 2,147,483,647 once a number was mixed in.
#[derive(Clone, Copy, Debug, PartialEq, Eq)]
pub struct Digest(pub u64);

impl Digest {
    // One number more.
    pub fn mix<T: Into<u64>>(&mut self, x: T)
        ensures { self.new.0 < 2147483647 }
    {
        self.0 = (self.0 % 2147483647 * 48271 + x.into() % 2147483647) % 2147483647;
    }

    // The numbers of a list, one after the other.
    pub fn mix_all<T: Copy + Into<u64>>(&mut self, xs: &[T])
        ensures { self.old.0 < 2147483647 → self.new.0 < 2147483647 }
    {
        for x in xs {
            self.mix(*x);
        }
    }
}
