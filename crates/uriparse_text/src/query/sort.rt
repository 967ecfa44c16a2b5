//! Queries with their pairs in the order of their names: RFC 3986, section 3.4.
ghost use Rattle.std.specs.Prelude.{◌≡◌, IfOk, map};
ghost use Rattle.std.specs.Cmp.Lexicographic.{slice_cmp};
ghost use Rattle.std.specs.List.Sorted.{IsPermutation};
ghost use Rattle.std.specs.Ordering.{nat_cmp};
ghost use Rattle.uriparse_text.specs.Coding.{decoded};
ghost use Rattle.uriparse_text.specs.Cuts.{before};
ghost use Rattle.uriparse_text.specs.Bytes.{equals_sign};
ghost use Rattle.uriparse_text.specs.Pairs as spec;
ghost use Rattle.uriparse_text.specs.Query.{IsQuery};
ghost use Rattle.uriparse_text.specs.Written.{ArePieces, ended};

use super::Query;
use super::set::query_of_pieces;
use crate::internal::{compare_represented, split_at_delimiter, without_delimiter};
use std::alloc::{AllocError, Global};
use std::cmp::Ordering;

/// The pieces of the query between its `&`.
fn pieces(alloc: Global, query: &[u8]) -> Result<Vec<&[u8]>, AllocError>
    requires { IsQuery query.now }
    ensures { IfOk result (λ v. ArePieces query.now (map (λ s. s.now) v.items)) }
{
    let mut pieces = Vec::new(alloc);
    let mut rest = Some(query);
    while let Some(left) = rest {
        let (piece, following) = split_at_delimiter(left, b'&');
        rest = without_delimiter(following);
        pieces.push(piece)?;
    }
    Ok(pieces)
}

/// Compares the bytes that the names of two pieces stand for.
fn compare_names(piece: &[u8], other: &[u8]) -> Ordering
    ensures { result ≡ slice_cmp nat_cmp (decoded (before equals_sign piece.now)) (decoded (before equals_sign other.now)) }
{
    let (name, _) = split_at_delimiter(piece, b'=');
    let (other_name, _) = split_at_delimiter(other, b'=');
    compare_represented(name, other_name)
}

/// The pieces, each with a `&` after it.
fn text_of(alloc: Global, len: usize, pieces: &[&[u8]]) -> Result<Vec<u8>, AllocError>
    ensures { IfOk result (λ v. v.items ≡ ended (map (λ s. s.now) pieces.now)) }
{
    let mut text = Vec::with_capacity(alloc, len)?;
    for piece in pieces {
        text.extend_from_slice(piece)?;
        text.push(b'&')?;
    }
    Ok(text)
}

impl<'q> Query<'q> {
    /// The query with its pairs in the order of their names, as a key of a cache needs it. Pairs of
    /// one name stay in order, as by `URLSearchParams.sort` of browsers, and each pair stays byte
    /// for byte. Allocates a list of the pairs, room to sort it, and the text.
    ///
    /// Names are compared by the bytes that they stand for, so `%61` is `a`, and `+` is no space,
    /// as it is for browsers; a prefix comes first.
    ///
    /// ```
    /// let query = Query::try_from_str("z=1&b=2&a&%62=1")?;
    /// assert_eq!(query.sorted_pairs(alloc)?.as_str(), "a&b=2&%62=1&z=1");
    /// ```
    pub fn sorted_pairs(&self, alloc: Global) -> Result<Query<'static>, AllocError>
        ensures pairs { IfOk result (λ q. spec.pairs q ≡ spec.sorted_pairs (spec.pairs self.now)) }

        // Decoded, the pairs are the same ones, in an order that exchanges reach.
        ensures back { IfOk result (λ q. IsPermutation (map spec.decoded_pair (spec.pairs self.now)) (map spec.decoded_pair (spec.pairs q))) }
    {
        let query = self.as_bytes();
        let mut pieces = pieces(alloc, query)?;
        pieces.sort_by(|piece, other| compare_names(piece, other))?;
        let text = text_of(alloc, query.len().saturating_add(1), &pieces)?;
        Ok(query_of_pieces(text))
    }
}
