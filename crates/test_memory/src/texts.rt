//! References with many tokens: `s://h`, a number of times `/` and a token, `?`, and a number of
//! times the token. Each text is put together here and not printed by the library.

use std::alloc::{AllocError, Global};
use test_rows::answer::{Answer, repeated, word};

/// Whether a test holds, or `AllocError`.
pub type Test = Result<bool, AllocError>;

/// How many segments the path has, and how many tokens the query.
#[derive(Clone, Copy)]
pub struct Sizes {
    pub segments: usize,
    pub tokens: usize,
}

/// The two numbers that a row names.
pub fn sizes_of(asked: &str) -> Sizes {
    let (segments, rest) = word(asked);
    Sizes {
        segments: segments.parse().unwrap_or(0),
        tokens: word(rest).0.parse().unwrap_or(0),
    }
}

/// The path of this many segments, each of which is the token.
pub fn path_text(alloc: Global, segments: usize, token: &str) -> Answer {
    let segment = format!(in alloc; "/{token}")?;
    repeated(alloc, segments, segment.as_str())
}

/// The text of the reference.
pub fn reference_text(alloc: Global, sizes: Sizes, token: &str) -> Answer {
    let path = path_text(alloc, sizes.segments, token)?;
    let query = repeated(alloc, sizes.tokens, token)?;
    format!(in alloc; "s://h{path}?{query}")
}

/// The text of the target of `~` against that reference.
pub fn target_text(alloc: Global, sizes: Sizes, token: &str) -> Answer {
    let path = path_text(alloc, sizes.segments.saturating_sub(1), token)?;
    format!(in alloc; "s://h{path}/~")
}

/// The text of its path with `~` as one more segment.
pub fn longer_text(alloc: Global, sizes: Sizes, token: &str) -> Answer {
    let path = path_text(alloc, sizes.segments, token)?;
    format!(in alloc; "{path}/~")
}
