//! Cuts of a text at delimiters.
ghost use Rattle.std.specs.Prelude.{◌≡◌, ◌==◌};
ghost use Rattle.std.specs.Option.{option_copied};
ghost use Rattle.uriparse_text.specs.Cuts.{up_to, from_first, part};

use super::scan::{Is, first};

/// The text before the first such delimiter, and the rest, which begins with it.
#[inline]
pub fn split_at_delimiter(text: &[u8], delimiter: u8) -> (&[u8], &[u8])
    ensures front { result.0.now ≡ up_to (λ b. b == delimiter) text.now }
    ensures rest { result.1.now ≡ from_first (λ b. b == delimiter) text.now }
{
    text.split_at(first(&Is(delimiter), text))
}

/// What follows the delimiter that the rest begins with, or `None` if the rest is empty.
#[inline]
pub fn without_delimiter(rest: &[u8]) -> Option<&[u8]>
    ensures { option_copied result ≡ part rest.now }
{
    match rest {
        [] => None,
        [_, following @ ..] => Some(following),
    }
}
