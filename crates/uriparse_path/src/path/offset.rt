//! Where the leftmost fault of a path is: RFC 3986, section 3.3.
ghost use Rattle.std.specs.Prelude.{◌≡◌, ℕ, ◌≤◌, length};
ghost use Rattle.uriparse_text.specs.declared.internal.class.Class.TheVariants as class;
ghost use Rattle.uriparse_text.specs.Faults.{begins_fine};
ghost use Rattle.uriparse_path.specs.Offset as spec;

use super::MAX_SEGMENTS;
use super::read::split_root;
use uriparse_text::internal::{Class, is_escape, offset_of_fault, split_at_delimiter};

/// Whether a token of a segment begins the text, or it is empty.
fn begins_token(text: &[u8]) -> bool
    ensures { result ≡ begins_fine class.Segment text.now }
{
    match text {
        [b, after @ ..] => Class::Segment.has(*b) || is_escape(*b, after),
        [] => true,
    }
}

/// The place of the leftmost fault of what follows a leading slash and has no slash too many, or its
/// length: a query's fault, whose bytes are tested sixteen at a time, or a `?` before it, which a
/// query may have.
fn offset_of_byte(text: &[u8]) -> usize
    ensures offset { (n : ℕ) → length text.now ≤ n → result ≡ spec.offset_within n text.now }
    ensures within { result ≤ length text.now }
{
    let (fine, _) = text.split_at(offset_of_fault(Class::Query, text));
    let (front, _) = split_at_delimiter(fine, b'?');
    front.len()
}

/// The place of the leftmost fault of what follows a leading slash, in which this many slashes may
/// stand, or its length. A text with no more bytes than that has no slash too many.
fn offset_within(slashes: usize, text: &[u8]) -> usize
    ensures offset { result ≡ spec.offset_within slashes text.now }
    ensures within { result ≤ length text.now }
{
    if text.len() <= slashes {
        return offset_of_byte(text);
    }
    offset_by_one(slashes, text)
}

/// The place of the leftmost fault of what follows a leading slash, in which this many slashes may
/// stand, or its length, byte by byte.
#[inline(never)]
fn offset_by_one(slashes: usize, text: &[u8]) -> usize
    ensures offset { result ≡ spec.offset_within slashes text.now }
    ensures within { result ≤ length text.now }
{
    let mut left = slashes;
    let mut rest = text;
    'bytes: while let Some((b, after)) = rest.split_first() {
        if !begins_token(rest) {
            if *b != b'/' || left == 0 {
                return text.len() - rest.len();
            }
            left -= 1;
        }
        rest = after;
    }
    text.len()
}

/// The place of the leftmost fault of a path's text, which is a wrong byte's or the slash's that
/// begins one segment too many, or the length. Takes linear time and does not allocate.
pub fn offset_of_path_fault(text: &[u8]) -> usize
    ensures offset { result ≡ spec.fault_offset text.now }
    ensures within { result ≤ length text.now }
{
    let (_, rest) = split_root(text);
    text.len() - rest.len() + offset_within(MAX_SEGMENTS - 1, rest)
}
