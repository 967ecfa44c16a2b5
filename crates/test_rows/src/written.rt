//! What a value writes, compared without allocating.

use std::fmt::{self, Display, Write};

/// A writer that takes one text and nothing else.
#[derive(Drop)]
struct Expected<'t> {
    rest: &'t str,
}

impl<'t> fmt::Write for Expected<'t> {
    fn write_str(&mut self, written: &str) -> fmt::Result {
        match self.rest.strip_prefix(written) {
            Some(rest) => {
                self.rest = rest;
                Ok(())
            }
            None => Err(fmt::Error),
        }
    }
}

/// Whether a value writes this text and no more.
pub fn writes<T: Display>(value: &T, text: &str) -> bool {
    let mut expected = Expected { rest: text };
    let written = write!(expected, "{value}");
    written.is_ok() && expected.rest.is_empty()
}
