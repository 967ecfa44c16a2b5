//! What is done with the text of a path, without a list of its segments: RFC 3986, section 3.3.
ghost use Rattle.std.specs.Prelude.{◌≡◌, bytes_eq, fold};
ghost use Rattle.std.specs.Iterator.{YieldsFirst, item_count};
ghost use Rattle.uriparse_text.specs.Canonical.{canonical};
ghost use Rattle.uriparse_path.specs.Path.{IsPath, fed, pieces};

use super::read::split_root;
use super::rules::SegmentSequence;
use super::{Segment, feed_piece};
use backward::split_last;
use std::hash::Hasher;
use std::marker::Model;
use uriparse_text::internal::{
    Case, same_spelling, split_at_delimiter, text_from_checked, without_delimiter,
};

mod backward;
mod last;
pub(crate) mod normal;
pub(crate) mod order;
pub(crate) mod write;

/// The segments of a path's text, in order; each borrows the text. Does not allocate.
///
/// Contracts see it as the list of the segments that are left.
#[derive(Drop)]
pub struct Segments<'p> {
    // What follows the slash after the last segment that was returned; none after the last of all.
    rest: Option<&'p [u8]>,
}

impl<'p> Model for Segments<'p> {
    ghost use Rattle.std.specs.Prelude.{◌≡◌, ℕ, List, true};
    ghost use Rattle.std.specs.List.{list_all};
    ghost use Rattle.std.specs.Option.{option_copied};
    ghost use Rattle.uriparse_text.specs.Segment.{is_segment};
    ghost use Rattle.uriparse_path.specs.Text.{pieces_left};

    ghost Value = { List (List ℕ) };

    ghost view = { λ s. pieces_left (option_copied s.rest) };

    ghost invariant = { λ s. list_all is_segment (pieces_left (option_copied s.rest)) ≡ true };
}

impl<'p> Iterator for Segments<'p> {
    type Item = Segment<'p>;

    ghost next_gives = { YieldsFirst (λ left. left) };

    ghost remaining = { item_count (λ left. left) };

    fn next(&mut self) -> Option<Segment<'p>> {
        let rest = self.rest?;
        let (piece, following) = split_at_delimiter(rest, b'/');
        self.rest = without_delimiter(following);
        Some(text_from_checked(piece, false))
    }
}

impl<'p> SegmentSequence<'p> for Segments<'p> {
    ghost listed = { λ s. s };

    fn again(&self) -> Segments<'p> {
        Segments { rest: self.rest }
    }

    fn split(&self) -> Option<(Segment<'p>, Segments<'p>)> {
        let mut later = self.again();
        let first = later.next()?;
        Some((first, later))
    }

    fn split_last(&self) -> Option<(Segments<'p>, Segment<'p>)> {
        let (front, last) = split_last(self.rest?);
        Some((Segments { rest: front }, text_from_checked(last, false)))
    }
}

/// The segments of a path's text.
pub fn segments_of(text: &[u8]) -> Segments<'_>
    requires { IsPath text.now }
    ensures { result ≡ pieces text.now }
{
    let (_, rest) = split_root(text);
    Segments { rest: Some(rest) }
}

/// Whether the texts of two paths have the same canonical spelling.
pub fn are_path_texts_alike(left: &[u8], right: &[u8]) -> bool
    requires left { IsPath left.now }
    requires right { IsPath right.now }
    ensures { result ≡ bytes_eq (canonical left.now) (canonical right.now) }
{
    same_spelling(Case::Kept, left, right)
}

/// Feeds the canonical spelling of a path's text to the hasher, as a [`Path`](super::Path) with
/// this text does.
pub fn feed_path_text<H: Hasher>(text: &[u8], state: &mut H)
    requires { IsPath text.now }
    ensures { state.new ≡ fold H.write state.old (fed (canonical text.now)) }
{
    let mut left = Some(text);
    'pieces: while let Some(rest) = left {
        let (piece, following) = split_at_delimiter(rest, b'/');
        feed_piece(piece, state);
        left = without_delimiter(following);
    }
    state.write_u8(0xff);
}
