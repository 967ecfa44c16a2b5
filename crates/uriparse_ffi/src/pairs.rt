//! Where the pairs of a query are in its text, one after another. Nothing here allocates.
ghost use Rattle.std.specs.Prelude.{◌≡◌, ◌+◌, ◌<◌, ◌∷◌, ◌^◌, ℕ, [], IfSome, IsSome, List, None, Some, length};
ghost use Rattle.std.specs.List.{find};
ghost use Rattle.uriparse_text.specs.Pairs.{Pair, is_named, pair_of, pairs, pairs_left};
ghost use Rattle.uriparse_text.specs.Starts.{most};
ghost use Rattle.uriparse_ffi.specs.Pairs.{IsFirstNamedAt, IsNextNamedAt, IsPairAt, left_from};

use crate::span::{UriSpan, offset_after, place};
use uriparse_text::internal::{Named, find_pair, split_at_delimiter, without_delimiter};

/// Where a pair of a query is, and where the next one begins.
#[repr(C)]
#[derive(Clone, Copy)]
pub struct UriPair {
    pub name: UriSpan,
    /// Absent if the pair has no `=`.
    pub value: UriSpan,
    /// The place after the byte that ends the pair. After the last pair it is greater than the
    /// length of the query.
    pub next: usize,
}

/// Where the pair of a piece that begins there is.
fn place_pair(at: usize, piece: &[u8]) -> UriPair
    requires { at + length piece.now < 2 ^ 64 }
    ensures { IsPairAt at (pair_of piece.now) result }
{
    let (name, rest) = split_at_delimiter(piece, b'=');
    let name = place(at, Some(name));
    UriPair {
        name,
        value: offset_after(name.end, without_delimiter(rest)),
        next: (at + piece.len()).saturating_add(1),
    }
}

/// Where the pair is that begins at this place of a query; `None` after the query's end.
pub fn pair_at(query: &[u8], at: usize) -> Option<UriPair>
    // The first of the pairs that are left from there is at that place, and the others follow `next`.
    ensures found { (p : Pair) (ps : List Pair) → pairs_left (left_from query.now at) ≡ p ∷ ps → IsSome result × IfSome result (λ o. IsPairAt at p o) }
    ensures others { (p : Pair) (ps : List Pair) → pairs_left (left_from query.now at) ≡ p ∷ ps → length query.now < most → IfSome result (λ o. pairs_left (left_from query.now o.next) ≡ ps) }

    // If no pair is left, there is none.
    ensures none { pairs_left (left_from query.now at) ≡ [] → result ≡ None }
{
    if at > query.len() {
        return None;
    }
    let (piece, _) = split_at_delimiter(&query[at..], b'&');
    Some(place_pair(at, piece))
}

/// Where the first pair of this name is that begins at this place of a query or later; `None` if there is
/// none.
pub fn next_named_pair(query: &[u8], at: usize, name: &[u8]) -> Option<UriPair>
    ensures found { (p : Pair) → find (is_named name.now) (pairs_left (left_from query.now at)) ≡ Some p → IsSome result × IfSome result (λ o. IsNextNamedAt name.now query.now at p o) }
    ensures none { find (is_named name.now) (pairs_left (left_from query.now at)) ≡ None → result ≡ None }
{
    if at > query.len() {
        return None;
    }
    let left = find_pair(&Named(name), &query[at..])?;
    pair_at(query, query.len() - left.len())
}

/// Where the first pair of this name is; `None` if there is none.
pub fn named_pair(query: &[u8], name: &[u8]) -> Option<UriPair>
    ensures found { (p : Pair) → find (is_named name.now) (pairs query.now) ≡ Some p → IsSome result × IfSome result (λ o. IsFirstNamedAt name.now query.now p o) }
    ensures none { find (is_named name.now) (pairs query.now) ≡ None → result ≡ None }
{
    let left = find_pair(&Named(name), query)?;
    pair_at(query, query.len() - left.len())
}
