//! The segments of a path: RFC 3986, section 3.3.
ghost use Rattle.std.specs.Prelude.{◌≡◌, ◌∷◌, [], true};
ghost use Rattle.std.proofs.Common.{rules};
ghost use Rattle.std.specs.List.{list_all};
ghost use Rattle.uriparse_text.specs.Bytes.{dot};
ghost use Rattle.uriparse_text.specs.Segment.{is_segment};
ghost use Rattle.uriparse_path.specs.Dots.{is_dot_segment, is_double_dot};
ghost use Rattle.uriparse_path.specs.Relative as relative;

use super::counts::Dotted;
use uriparse_text::internal::text_from_checked;
use uriparse_text::segment::Segment;

impl<'s> Dotted for Segment<'s> {
    ghost use Rattle.uriparse_path.specs.Counts.{counts as segment_counts};

    ghost counts = { segment_counts };

    ghost fits = { Prim.search rules };
}

/// Does nothing. Its contract states that each segment's bytes are those of a segment.
#[inline]
pub(super) fn each_is_segment(segments: &[Segment<'_>])
    ensures { list_all is_segment segments.now ≡ true }
{}

/// The segment `.`.
pub(super) fn single_dot() -> Segment<'static>
    ensures { result ≡ dot ∷ [] }
{
    text_from_checked(b".", true)
}

/// The segment `..`.
pub(super) fn double_dot() -> Segment<'static>
    ensures { result ≡ dot ∷ dot ∷ [] }
{
    text_from_checked(b"..", true)
}

/// Whether the bytes have a colon.
pub(super) fn has_colon(bytes: &[u8]) -> bool
    ensures { result ≡ relative.has_colon bytes.now }
{
    bytes.contains(&b':')
}

/// Whether a segment is `..`, unescaped.
#[inline(always)]
fn is_two_dots(segment: &[u8]) -> bool
    ensures { result ≡ true → is_double_dot segment.now ≡ true }
{
    matches!(segment, [b'.', b'.'])
}

/// Whether the text of a segment spells `.` or `..`. Each dot may be escaped; most are not.
pub(super) fn is_dots(segment: &[u8]) -> bool
    requires { is_segment segment.now ≡ true }
    ensures { result ≡ is_dot_segment segment.now }
{
    is_two_dots(segment) || segment_from_checked(segment).is_dot_segment()
}

/// Whether the text of a segment spells `..`. Each dot may be escaped; most are not.
pub(super) fn is_double_dots(segment: &[u8]) -> bool
    requires { is_segment segment.now ≡ true }
    ensures { result ≡ is_double_dot segment.now }
{
    is_two_dots(segment) || segment_from_checked(segment).is_double_dot_segment()
}

/// The segment of a checked text.
#[inline(always)]
fn segment_from_checked(text: &[u8]) -> Segment<'_>
    requires { is_segment text.now ≡ true }
    ensures { result ≡ text.now }
{
    text_from_checked(text, false)
}
