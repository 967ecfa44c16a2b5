//! One segment of a path: RFC 3986, section 3.3.
ghost use Rattle.std.specs.Prelude.{◌≡◌, [], IsTrue, true};
ghost use Rattle.uriparse_text.specs.declared.internal.class.Class.TheVariants as class;
ghost use Rattle.uriparse_text.specs.declared.internal.token.Case.TheVariants as case;
ghost use Rattle.uriparse_text.specs.Segment as spec;

mod ambiguous;
mod error;

use crate::internal::{Case, Class, Text, TextKind, text_from_checked};
pub use error::PathError;

/// The kind of text that a segment is.
pub struct SegmentKind;

impl TextKind for SegmentKind {
    type Error = PathError;

    ghost class = { class.Segment };

    ghost case = { case.Kept };

    ghost error_of = { spec.error_of };

    fn name() -> &'static str {
        "Segment"
    }

    fn class() -> Class {
        Class::Segment
    }

    fn case() -> Case {
        Case::Kept
    }

    #[inline]
    fn error_of(byte: u8) -> PathError {
        match byte {
            b'%' => PathError::InvalidPercentEncoding,
            _ => PathError::InvalidCharacter,
        }
    }
}

/// A segment of a path: a text of `pchar`, which has no slash and may be empty. RFC 3986, section
/// 3.3.
///
/// It borrows the text that it was read from, or owns its text. Its readers do not allocate. They
/// report the leftmost fault: [`InvalidPercentEncoding`](PathError::InvalidPercentEncoding) for a
/// `%` without two hexadecimal digits after it, else
/// [`InvalidCharacter`](PathError::InvalidCharacter), also for a slash. Two segments are equal if
/// their canonical spellings are. It has the calls of [`Text`] and those for dots below.
/// [`encode`](Text::encode) escapes a slash and keeps dots, so the bytes `..` become a dot segment.
///
/// ```
/// let segment = Segment::try_from_str("%4a")?;
/// assert!(segment == Segment::try_from_str("J")? && !segment.eq_str("j"));
/// ```
pub type Segment<'s> = Text<'s, SegmentKind>;

impl<'s> Segment<'s> {
    /// The empty segment. Does not allocate.
    pub fn empty() -> Segment<'static>
        ensures { result ≡ [] }
    {
        text_from_checked(b"", true)
    }

    /// Whether the segment may be a dot segment: it begins with a dot or a percent sign and is no
    /// longer than two escapes.
    fn may_be_dots(&self) -> bool
        ensures { spec.is_dot_segment self.now ≡ true → IsTrue result }
    {
        if self.as_bytes().len() > 6 {
            return false;
        }
        match self.as_bytes().first() {
            Some(&b) => b == b'.' || b == b'%',
            None => false,
        }
    }

    /// Whether the segment is `.`. The dot may be escaped. Does not allocate.
    pub fn is_single_dot_segment(&self) -> bool
        ensures { result ≡ spec.is_single_dot self.now }
    {
        if !self.may_be_dots() {
            return false;
        }
        self.eq_bytes(b".")
    }

    /// Whether the segment is `..`. Each dot may be escaped. Does not allocate.
    pub fn is_double_dot_segment(&self) -> bool
        ensures { result ≡ spec.is_double_dot self.now }
    {
        if !self.may_be_dots() {
            return false;
        }
        self.eq_bytes(b"..")
    }

    /// Whether the segment is `.` or `..`. Each dot may be escaped. Does not allocate.
    pub fn is_dot_segment(&self) -> bool
        ensures { result ≡ spec.is_dot_segment self.now }
    {
        self.is_single_dot_segment() || self.is_double_dot_segment()
    }
}
