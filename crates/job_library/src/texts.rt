//! Many texts in one buffer.

use std::alloc::{AllocError, Global};

/// Texts one after another.
#[derive(Drop)]
pub struct Texts {
    bytes: Vec<u8>,
    ends: Vec<usize>,
}

impl Texts {
    pub fn new(alloc: Global) -> Texts {
        Texts {
            bytes: Vec::new(alloc),
            ends: Vec::new(alloc),
        }
    }

    /// Appends to the text that is being written.
    pub fn put(&mut self, text: &[u8]) -> Result<(), AllocError> {
        self.bytes.extend_from_slice(text)
    }

    /// Ends the text that is being written.
    pub fn end(&mut self) -> Result<(), AllocError> {
        self.ends.push(self.bytes.len())?;
        Ok(())
    }

    /// Forgets all texts.
    pub fn clear(&mut self) {
        self.bytes.clear();
        self.ends.clear();
    }

    /// How many texts there are.
    pub fn count(&self) -> usize {
        self.ends.len()
    }

    /// All texts as one.
    pub fn whole(&self) -> &[u8] {
        &self.bytes
    }

    /// Where the text of this index begins.
    fn start_of(&self, index: usize) -> usize {
        match index.checked_sub(1) {
            Some(before) => self.ends.get(before).copied().unwrap_or(0),
            None => 0,
        }
    }

    /// The texts from one index up to another, as one text.
    pub fn run(&self, from: usize, to: usize) -> &[u8] {
        self.bytes
            .get(self.start_of(from)..self.start_of(to))
            .unwrap_or(&[])
    }

    /// The text of this index, or the empty one if there is none.
    pub fn text(&self, index: usize) -> &[u8] {
        self.run(index, index.saturating_add(1))
    }
}
