//! A path: RFC 3986, section 3.3.
ghost use Rattle.std.specs.Prelude.{◌≡◌, ◌↔◌, ◌∷◌, ◌++◌, fold, length, IsTrue, IfOk, Ok, IfSome, IsSome, IsErr, Some, true, not, bytes_eq, string_bytes};
ghost use Rattle.std.proofs.Common.{rules};
ghost use Rattle.std.specs.Ordering.{on};
ghost use Rattle.std.specs.Cmp.Rules.{comparing, hashing};
ghost use Rattle.std.specs.Fmt.{WritesOnOk, WritesStyledOnOk};
ghost use Rattle.std.specs.List.{flat_map, list_all};
ghost use Rattle.uriparse_text.specs.declared.internal.token.Case.TheVariants as case;
ghost use Rattle.uriparse_text.specs.Bytes.{slash};
ghost use Rattle.uriparse_text.specs.Cuts.{from_first, up_to};
ghost use Rattle.uriparse_text.specs.Canonical.{canonical, SpellsAlike};
ghost use Rattle.uriparse_text.specs.Readings.{IsUnless};
ghost use Rattle.uriparse_path.specs.Path.{IsListed, PathParts, fed, fed_piece, flag, is_rooted, is_slash, text};
ghost use Rattle.uriparse_text.specs.Segment.{is_segment};
ghost use Rattle.uriparse_path.specs.Faults.{reading};
ghost use Rattle.uriparse_path.specs.Normal.{is_canonical};
ghost use Rattle.uriparse_path.specs.Counts as spec;

use std::alloc::{AllocError, Global};
use std::fmt;
use std::fmt::Write;
use std::hash::{Hash, Hasher};
use std::marker::Model;
use uriparse_text::internal::{Case, feed_spelling, same_spelling, split_at_delimiter};
pub use uriparse_text::segment::{PathError, Segment};

mod copy;
mod count;
pub mod counts;
pub(crate) mod dots;
mod edit;
mod list;
pub(crate) mod merge;
pub(crate) mod normal;
pub(crate) mod offset;
pub(crate) mod read;
mod reduce;
pub(crate) mod relate;
pub(crate) mod rules;
mod segment;
mod segments;
pub(crate) mod start;
pub(crate) mod text;
pub(crate) mod within;

use counts::{Counts, Dotted};
use list::SegmentList;
use read::{count_segments, counted_path, split_root};
use rules::starts_with_empty_segment;
use segment::each_is_segment;
use start::most_path_bytes;
pub use text::Segments;

/// The maximum number of segments of a path.
pub const MAX_SEGMENTS: usize = 1_000_000;

/// A path over segments of any type that can be counted. Users name it [`Path`].
#[derive(Drop)]
pub struct PathOf<S: Dotted> {
    segments: SegmentList<S>,
    // 0 or 1 each: words, since a `bool` would be moved with its padding.
    absolute: u32,
    counts_known: u32,
    // The counts of the segments, if they are known.
    counts: Counts,
}

/// A path: its segments, at least one and at most [`MAX_SEGMENTS`], and whether a slash precedes
/// them. RFC 3986, section 3.3.
///
/// Its text is `/` if it is absolute, then the segments joined by `/`. So the empty path has one
/// empty segment. The segments borrow the text that was read, or own their texts. A list of more
/// than one is allocated; calls without `alloc` do not allocate. On an error an edit leaves the
/// path unchanged. Two paths are equal if the canonical spellings of their texts are.
///
/// ```
/// let path = Path::try_from_str(alloc, "/a/%7Eb")?;
/// assert!(path.is_absolute() && path.segments().len() == 2 && path.eq_str("/a/~b"));
/// ```
pub type Path<'p> = PathOf<Segment<'p>>;

/// The flag as a word.
#[inline(always)]
fn word_of(is_set: bool) -> u32
    ensures { flag result ≡ is_set }
{
    if is_set { 1 } else { 0 }
}

impl<S: Dotted> Model for PathOf<S> {
    ghost use Rattle.uriparse_path.specs.Path.{PartsOf, flag};
    ghost use Rattle.uriparse_path.specs.Counts.{CountsAreRight};

    ghost Value = { PartsOf S };

    ghost view = { λ p. record { absolute = flag p.absolute; segments = p.segments } };

    ghost invariant = { λ p. CountsAreRight S.counts p.segments (flag p.counts_known) p.counts };
}

impl<'p> Path<'p> {
    /// The path with this flag and these segments. `counts` are the segments' counts if
    /// `counts_known` is set.
    #[inline(always)]
    pub(crate) fn of(
        absolute: bool,
        segments: SegmentList<Segment<'p>>,
        counts: Counts,
        counts_known: bool,
    ) -> Path<'p>
        requires listed { IsListed segments }
        requires counted { counts_known ≡ true → counts ≡ spec.counts segments }
        ensures { result ≡ record { absolute = absolute; segments = segments.entry } }
    {
        Path {
            segments,
            absolute: word_of(absolute),
            counts_known: word_of(counts_known),
            counts,
        }
    }

    /// The counts of the segments, if they are known.
    fn known_counts(&self) -> Option<Counts>
        ensures { IfSome result (λ c. c ≡ spec.counts self.now.segments) }
    {
        if self.counts_known != 0 {
            Some(self.counts)
        } else {
            None
        }
    }

    /// Whether each segment is known to be canonical.
    fn is_known_canonical(&self) -> bool
        ensures { result ≡ true → list_all is_canonical self.now.segments ≡ true }
    {
        match self.known_counts() {
            Some(counts) => counts.all_canonical(),
            None => false,
        }
    }

    /// Reads a path. Its segments borrow the bytes.
    ///
    /// The error is the leftmost fault's:
    /// [`InvalidPercentEncoding`](PathError::InvalidPercentEncoding) at a `%` without two
    /// hexadecimal digits after it, [`ExceededMaximumLength`](PathError::ExceededMaximumLength) at
    /// the slash that would start one segment more than [`MAX_SEGMENTS`], else
    /// [`InvalidCharacter`](PathError::InvalidCharacter). For a text without fault that has more
    /// than one segment, their list is allocated once; if that fails, the error is
    /// [`OutOfMemory`](PathError::OutOfMemory).
    pub fn try_from_bytes(alloc: Global, bytes: &'p [u8]) -> Result<Path<'p>, PathError>
        ensures answer { IsUnless PathError.OutOfMemory result (reading bytes.now) }
        ensures always { IsErr (reading bytes.now) → result ≡ reading bytes.now }

        // A path of one segment takes no memory.
        ensures takes_no_memory { (p : PathParts) → reading bytes.now ≡ Ok p → length p.segments ≡ 1 → result ≡ Ok p }
    {
        let (_, rest) = split_root(bytes);
        let (count, _, escaped) = count_segments(MAX_SEGMENTS, false, rest)?;
        Ok(counted_path(alloc, count, escaped, bytes)?)
    }

    /// Like [`try_from_bytes`](Path::try_from_bytes), for a `str`.
    pub fn try_from_str(alloc: Global, text: &'p str) -> Result<Path<'p>, PathError>
        ensures answer { IsUnless PathError.OutOfMemory result (reading text.now) }
        ensures always { IsErr (reading text.now) → result ≡ reading text.now }
        ensures takes_no_memory { (p : PathParts) → reading text.now ≡ Ok p → length p.segments ≡ 1 → result ≡ Ok p }
    {
        Path::try_from_bytes(alloc, text.as_bytes())
    }

    /// The segments in order.
    pub fn segments(&self) -> &[Segment<'p>]
        ensures value { result.now ≡ self.now.segments }
        ensures listed { IsListed self.now.segments }
    {
        let segments = self.segments.as_slice();
        each_is_segment(segments);
        segments
    }

    /// Whether the path is absolute: a slash precedes its first segment. The text of a relative
    /// path also begins with a slash if its first segment is empty and others follow it.
    pub fn is_absolute(&self) -> bool
        ensures { result ≡ self.now.absolute }
    {
        self.absolute != 0
    }

    /// Whether the path is relative: no slash precedes its first segment.
    pub fn is_relative(&self) -> bool
        ensures { result ≡ not self.now.absolute }
    {
        self.absolute == 0
    }

    /// Whether the path's text begins with a slash.
    fn is_rooted(&self) -> bool
        ensures { result ≡ is_rooted (text self.now) }
    {
        self.is_absolute() || starts_with_empty_segment(self.segments())
    }

    /// A copy of the path's text. Allocates once.
    pub fn to_string(&self, alloc: Global) -> Result<String, AllocError>
        ensures { IfOk result (λ s. string_bytes s ≡ text self.now) }
    {
        let mut text = String::with_capacity(alloc, most_path_bytes(self))?;
        write!(text, "{self}")?;
        Ok(text)
    }

    /// What precedes the first slash of the path's text, and the segments that follow a slash each.
    #[inline]
    fn split_front(&self) -> (&str, &[Segment<'p>])
        ensures text { text self.now ≡ result.0.now ++ flat_map (λ s. slash ∷ s) result.1.now }
        ensures front { is_segment result.0.now ≡ true }
        ensures following { list_all is_segment result.1.now ≡ true }
    {
        let segments = self.segments();
        if self.is_absolute() {
            return ("", segments);
        }
        match segments.split_first() {
            Some((first, later)) => (first.as_str(), later),
            None => ("", segments),
        }
    }

    /// Whether the bytes have the same canonical spelling as the path's text. Bytes with a broken
    /// percent-encoding equal no path.
    pub fn eq_bytes(&self, bytes: &[u8]) -> bool
        ensures { IsTrue result ↔ SpellsAlike case.Kept bytes.now (text self.now) }
    {
        let (front, following) = self.split_front();
        match strip_piece(bytes, front.as_bytes()) {
            Some(rest) => spells_after_slashes(rest, following),
            None => false,
        }
    }

    /// Like [`eq_bytes`](Path::eq_bytes), for a `str`.
    pub fn eq_str(&self, other: &str) -> bool
        ensures { IsTrue result ↔ SpellsAlike case.Kept other.now (text self.now) }
    {
        self.eq_bytes(other.as_bytes())
    }
}

impl<'p> PartialEq for Path<'p> {
    ghost eq = { on (λ p. canonical (text p)) bytes_eq };

    ghost laws = { Prim.search (comparing, rules) };

    fn eq(&self, other: &Path<'p>) -> bool {
        let (front, following) = self.split_front();
        let (other_front, other_after) = other.split_front();
        same_spelling(Case::Kept, front.as_bytes(), other_front.as_bytes())
            && following == other_after
    }
}

impl<'p> Eq for Path<'p> {
    ghost laws = { Prim.search (comparing, rules) };
}

impl<'p> Hash for Path<'p> {
    ghost hash_input = { λ p. fed (canonical (text p)) };

    ghost respects_eq = { Prim.search (hashing, rules) };

    fn hash<H: Hasher>(&self, state: &mut H) {
        let (front, following) = self.split_front();
        feed_piece(front.as_bytes(), state);
        feed_pieces(following, state);
        state.write_u8(0xff);
    }
}

/// If the text before the first slash spells the segment, returns the rest of the text. If that is
/// the segment's own bytes, no slash is searched for.
#[inline(always)]
fn strip_piece<'t>(text: &'t [u8], segment: &[u8]) -> Option<&'t [u8]>
    requires { is_segment segment.now ≡ true }
    ensures alike { IsSome result ↔ SpellsAlike case.Kept (up_to is_slash text.now) segment.now }
    ensures rest { IfSome result (λ rest. rest.now ≡ from_first is_slash text.now) }
{
    if let Some(rest) = text.strip_prefix(segment) {
        if rest.is_empty() || rest[0] == b'/' {
            return Some(rest);
        }
    }
    let (piece, rest) = split_at_delimiter(text, b'/');
    if same_spelling(Case::Kept, piece, segment) {
        Some(rest)
    } else {
        None
    }
}

/// Whether the text spells these segments, each after a slash. Cuts the text at its slashes.
fn spells_after_slashes(text: &[u8], segments: &[Segment<'_>]) -> bool
    requires { list_all is_segment segments.now ≡ true }
    ensures { IsTrue result ↔ SpellsAlike case.Kept text.now (flat_map (λ s. slash ∷ s) segments.now) }
{
    let mut rest = text;
    for segment in segments {
        let (rooted, following) = split_root(rest);
        if !rooted {
            return false;
        }
        match strip_piece(following, segment.as_bytes()) {
            Some(later) => rest = later,
            None => return false,
        }
    }
    rest.is_empty()
}

/// Feeds a slash and the piece's canonical spelling to the hasher.
#[inline]
fn feed_piece<H: Hasher>(piece: &[u8], state: &mut H)
    ensures { state.new ≡ fold H.write state.old (fed_piece (canonical piece.now)) }
{
    state.write_u8(b'/');
    feed_spelling(Case::Kept, piece, state);
}

/// Feeds each segment to the hasher in the same way.
#[inline]
fn feed_pieces<H: Hasher>(segments: &[Segment<'_>], state: &mut H)
    ensures { state.new ≡ fold H.write state.old (flat_map (λ s. fed_piece (canonical s)) segments.now) }
{
    for segment in segments {
        feed_piece(segment.as_bytes(), state);
    }
}

/// Writes each segment after a slash.
fn write_after_slashes<W: fmt::Write>(
    segments: &[Segment<'_>],
    f: &mut fmt::Formatter<W>,
) -> fmt::Result
    ensures writes { WritesOnOk W.write_str_gives f.old result (flat_map (λ s. slash ∷ s) segments.now) f.new }
    ensures styled { WritesStyledOnOk W.write_str_gives f.old result (flat_map (λ s. slash ∷ s) segments.now) f.new }
{
    for segment in segments {
        f.write_str("/")?;
        f.write_str(segment.as_str())?;
    }
    Ok(())
}

impl<'p> fmt::Display for Path<'p> {
    ghost output = { λ p. Some (text p) };

    // The formatter's options do not change it.
    ghost styled_output = { λ p _. Some (text p) };

    fn fmt<W: fmt::Write>(&self, f: &mut fmt::Formatter<W>) -> fmt::Result {
        let (front, following) = self.split_front();
        f.write_str(front)?;
        write_after_slashes(following, f)
    }
}

impl<'p> fmt::Debug for Path<'p> {
    fn fmt<W: fmt::Write>(&self, f: &mut fmt::Formatter<W>) -> fmt::Result {
        f.debug_struct("Path")
            .field("absolute", &self.is_absolute())
            .field("segments", &self.segments.as_slice())
            .finish()
    }
}
