// The digest of docs/RANDOM.md: of a log or a schedule, of several logs as one text, of the bytes of a state or of numbers.
ghost use Rattle.std.specs.Prelude.{◌<◌};

use std::fmt;

#[derive(Clone, Copy)]
pub struct Digest {
    h: u64,
    ghost in_range: { h < 4294967291 },
}

impl Digest {
    // Before the first byte.
    pub fn new() -> Digest {
        Digest { h: 7 }
    }

    // That of a log or a schedule.
    pub fn of(text: &[u8]) -> Digest {
        let mut digest = Digest::new();
        digest.add(text);
        digest
    }

    // So many bytes more.
    pub fn add(&mut self, bytes: &[u8]) {
        for b in bytes {
            self.h = (self.h * 257 + *b as u64 + 1) % 4294967291;
        }
    }

    // A number more, as four bytes, the highest first.
    pub fn add_number(&mut self, n: u32) {
        self.add(&n.to_be_bytes());
    }
}

impl fmt::Display for Digest {
    fn fmt<W: fmt::Write>(&self, f: &mut fmt::Formatter<W>) -> fmt::Result {
        self.h.fmt(f)
    }
}
