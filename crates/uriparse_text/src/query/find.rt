//! Pairs of a query by their names: RFC 3986, section 3.4.
ghost use Rattle.std.specs.Prelude.{◌≡◌, [], Bool, IfSome, is_some, unwrap_or};
ghost use Rattle.std.specs.List.{find, list_any};
ghost use Rattle.std.specs.Option.{option_map};
ghost use Rattle.uriparse_text.specs.Ahead.{Knows};
ghost use Rattle.uriparse_text.specs.Bytes.{ampersand};
ghost use Rattle.uriparse_text.specs.Cuts.{after, before};
ghost use Rattle.uriparse_text.specs.Pairs as spec;
ghost use Rattle.uriparse_text.specs.Written.{IsFirstAt};

use super::Query;
use super::ahead::Ahead;
use super::set::is_named;
use crate::internal::{
    checked_text, compare_represented, represents_prefix, split_at_delimiter, without_delimiter,
};

/// Names of at most this many bytes are walked again for each pair.
const FEW_BYTES: usize = 256;

/// A test of a pair, by its piece of a query.
pub trait PairTest {
    ghost passes: { Self → spec.Pair → Bool };

    // what an `Ahead` says of a pair
    ghost seen: { Self → spec.Pair → Bool };

    /// Whether the pair of the piece passes.
    fn has(&self, piece: &[u8]) -> bool
        ensures { result ≡ passes self.now (spec.pair_of piece.now) };

    /// Whether the first pair of what is left of a query passes, of which this is the piece. `ahead`
    /// keeps what is known of the next pairs. Default: nothing, and [`has`](PairTest::has).
    fn has_next(&self, left: &[u8], piece: &[u8], ahead: &mut Ahead) -> bool
        requires knows { Knows (seen self.now) ahead.old (spec.pairs left.now) }
        requires cut { piece.now ≡ before ampersand left.now }
        ensures answer { result ≡ passes self.now (spec.pair_of piece.now) }
        ensures knows { Knows (seen self.now) ahead.new (spec.pairs_left (after ampersand left.now)) }
    {
        ahead.forget();
        self.has(piece)
    }
}

/// The pair's name stands for these bytes.
#[derive(Clone, Copy)]
pub struct Named<'n>(pub &'n [u8]);

impl<'n> PairTest for Named<'n> {
    ghost passes = { λ s p. spec.is_named s.0.now p };

    ghost seen = { λ s p. spec.is_named s.0.now p };

    fn has(&self, piece: &[u8]) -> bool {
        is_named(piece, self.0)
    }
}

/// Whether the pattern stands for the name.
#[inline(always)]
pub(super) fn stands_for(pattern: &[u8], name: &[u8]) -> bool
    ensures { result ≡ spec.stands_for pattern.now name.now }
{
    if pattern.ends_with(b"*") {
        represents_prefix(name, &pattern[..pattern.len() - 1])
    } else {
        compare_represented(pattern, name).is_eq()
    }
}

/// The pair's name, as a pattern, stands for this name.
#[derive(Clone, Copy)]
struct StandsFor<'n>(&'n [u8]);

impl<'n> PairTest for StandsFor<'n> {
    ghost passes = { λ s p. spec.stands_for p.0 s.0.now };

    ghost seen = { λ s p. spec.stands_for p.0 s.0.now };

    fn has(&self, piece: &[u8]) -> bool {
        let (pattern, _) = split_at_delimiter(piece, b'=');
        stands_for(pattern, self.0)
    }
}

/// The pair's name is among the names of this query.
#[derive(Clone, Copy)]
pub struct Among<'n>(pub &'n [u8]);

impl<'n> PairTest for Among<'n> {
    ghost passes = { λ s p. spec.is_among_names (spec.pairs s.0.now) p };

    ghost seen = { λ s p. spec.is_among_names (spec.pairs s.0.now) p };

    fn has(&self, piece: &[u8]) -> bool {
        let (name, _) = split_at_delimiter(piece, b'=');
        find_pair(&StandsFor(name), self.0).is_some()
    }

    fn has_next(&self, left: &[u8], piece: &[u8], ahead: &mut Ahead) -> bool {
        if self.0.len() <= FEW_BYTES {
            ahead.forget();
            return self.has(piece);
        }
        ahead.next(left, self.0)
    }
}

/// What is left of the query from the first pair on that passes. Walks the query once.
pub fn find_pair<'q, T: PairTest>(test: &T, query: &'q [u8]) -> Option<&'q [u8]>
    ensures some { is_some result ≡ list_any (T.passes test.now) (spec.pairs query.now) }
    ensures place { IfSome result (λ left. IsFirstAt (T.passes test.now) query.now left.now) }
{
    let mut ahead = Ahead::nothing();
    let mut rest = Some(query);
    while let Some(left) = rest {
        let (piece, following) = split_at_delimiter(left, b'&');
        if test.has_next(left, piece, &mut ahead) {
            return Some(left);
        }
        rest = without_delimiter(following);
    }
    None
}

impl<'q> Query<'q> {
    /// The value of the first pair whose name stands for these bytes, or `None` if there is no such
    /// pair. The value is empty if the pair has no `=`. It borrows the query's text and is a query
    /// itself, to be [decoded](Text::decode). Does not allocate.
    ///
    /// Names are compared by the bytes that they stand for, so `%61` is `a`, and `+` is no space.
    ///
    /// ```
    /// let query = Query::try_from_str("q=a%20b&%70age=2&page=3&all")?;
    /// assert!(query.pair(b"page").is_some_and(|value| value.eq_str("2")));
    /// assert!(query.pair(b"all").is_some_and(|value| value.as_str() == ""));
    /// assert!(query.pair(b"a b").is_none());
    /// ```
    pub fn pair(&self, name: &[u8]) -> Option<Query<'_>>
        ensures { result ≡ option_map (λ p. unwrap_or p.1 []) (find (spec.is_named name.now) (spec.pairs self.now)) }
    {
        let left = find_pair(&Named(name), self.as_bytes())?;
        let (piece, _) = split_at_delimiter(left, b'&');
        let (_, rest) = split_at_delimiter(piece, b'=');
        Some(checked_text(without_delimiter(rest).unwrap_or(b"")))
    }

    /// Whether there is a pair whose name stands for these bytes. Does not allocate.
    ///
    /// Names are compared by the bytes that they stand for, so `%61` is `a`, and `+` is no space.
    ///
    /// ```
    /// let query = Query::try_from_str("q=a%20b&%70age=2")?;
    /// assert!(query.has_pair(b"page") && !query.has_pair(b"Page"));
    /// ```
    pub fn has_pair(&self, name: &[u8]) -> bool
        ensures { result ≡ list_any (spec.is_named name.now) (spec.pairs self.now) }
    {
        find_pair(&Named(name), self.as_bytes()).is_some()
    }
}
