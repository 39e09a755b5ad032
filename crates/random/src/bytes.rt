// Every pair of bytes, and every byte of a line (docs/RANDOM.md): short schedules, in which a byte goes through all its values.
use crate::digest::Digest;
use std::convert::AsSlice;

// The places at which a byte is changed: those of the first two lines.
pub const PLACES: usize = 18;

// The logs of the schedules for each value of a byte: their length together, and their digest as one text.
#[derive(Clone, Copy)]
pub struct Logs {
    pub length: usize,
    pub digest: Digest,
}

impl Logs {
    pub fn swept<S: AsSlice<u8> + Drop, F: Fn(u8) -> S>(schedule: F, log: &mut [u8]) -> Logs
        requires { F.IsAlwaysCallable schedule }
    {
        let mut logs = Logs {
            length: 0,
            digest: Digest::new(),
        };
        for b in 0..=u8::MAX {
            logs.add(schedule(b).as_slice(), log);
        }
        logs
    }

    // One log more.
    fn add(&mut self, schedule: &[u8], log: &mut [u8]) {
        if let Ok(n) = bench::bench(schedule, log) {
            self.length = self.length.saturating_add(n);
            self.digest.add(&log[..n]);
        }
    }
}

// The pair is the processor of line 2. Where both bytes are digits the check is right, so that the line is read.
pub fn pair(a: u8, b: u8) -> [u8; 18] {
    let mut text = *b"010010EF\n0201..00\n";
    if let Some(high) = char::from(a).to_digit(16)
        && let Some(low) = char::from(b).to_digit(16)
    {
        let _ = frame::write_frame(&mut text[9..], 2, 1, (high * 16 + low) as u8);
    }
    text[13] = a;
    text[14] = b;
    text
}

// A schedule that is accepted whole, with another byte at that place.
pub fn place(at: usize, b: u8) -> [u8; 36] {
    let mut text = *b"010001FE\n020100FD\n020100FD\n020100FD\n";
    if let Some(byte) = text.get_mut(at) {
        *byte = b;
    }
    text
}
