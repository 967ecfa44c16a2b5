//! A number that stands for all results of a job.

use std::io;
use std::io::Write;

/// A sum over numbers and over bytes, whatever the pieces are that the bytes come in. It takes eight
/// bytes at a time, the first as the highest; a number is added before the bytes that wait.
#[derive(Drop)]
pub struct Digest {
    sum: u64,
    /// The bytes that wait for the next sum, and how many they are, at most seven.
    waiting: u64,
    count: usize,
}

impl Digest {
    pub fn new() -> Digest {
        Digest {
            sum: 0,
            waiting: 0,
            count: 0,
        }
    }

    /// The sum of all that was added.
    pub fn sum(&self) -> u64 {
        self.sum ^ self.waiting
    }

    /// Adds a number.
    pub fn add(&mut self, number: u64) {
        let mixed = (self.sum ^ number).wrapping_mul(0x9E37_79B9_7F4A_7C15);
        self.sum = mixed ^ (mixed >> 29);
    }

    /// Adds a byte.
    fn add_byte(&mut self, b: u8) {
        self.waiting = (self.waiting << 8) | u64::from(b);
        self.count = self.count.wrapping_add(1);
        if self.count >= 8 {
            self.add(self.waiting);
            self.waiting = 0;
            self.count = 0;
        }
    }

    /// Adds the bytes.
    pub fn add_bytes(&mut self, bytes: &[u8]) {
        let missing = 8usize.wrapping_sub(self.count) & 7;
        let (head, rest) = bytes.split_at(missing.min(bytes.len()));
        for b in head {
            self.add_byte(*b);
        }
        let (words, tail) = rest.as_chunks::<8>();
        for word in words {
            self.add(u64::from_be_bytes(*word));
        }
        for b in tail {
            self.add_byte(*b);
        }
    }
}

impl Write for Digest {
    fn write(&mut self, buf: &[u8]) -> io::Result<usize> {
        self.add_bytes(buf);
        Ok(buf.len())
    }

    fn flush(&mut self) -> io::Result<()> {
        Ok(())
    }
}
