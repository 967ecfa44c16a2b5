//! Queries with one pair of a name: RFC 3986, section 3.4.
ghost use Rattle.std.specs.Prelude.{◌≡◌, ◌<◌, ◌++◌, ◌∷◌, ◌||◌, [], List, ℕ, IfOk, OnOk, length, map, true};
ghost use Rattle.std.specs.List.{filter};
ghost use Rattle.std.specs.Option.{option_copied};
ghost use Rattle.uriparse_text.specs.Pairs as spec;
ghost use Rattle.uriparse_text.specs.Query.{IsQuery};
ghost use Rattle.uriparse_text.specs.Written.{ArePairsWritten, AreWritten, ended, makes_room, next_pieces};

use super::Query;
use super::pairs::{most_pair_bytes, pair_of, push_pair};
use crate::internal::{represents, split_at_delimiter, text_from_checked_vec, without_delimiter};
use std::alloc::{AllocError, Global};

/// Whether the name of the piece stands for these bytes.
pub(super) fn is_named(piece: &[u8], name: &[u8]) -> bool
    ensures { result ≡ spec.is_named name.now (spec.pair_of piece.now) }
{
    let (own, _) = split_at_delimiter(piece, b'=');
    represents(own, name)
}

/// Appends the pair and a `&`.
fn push_ended(text: &mut Vec<u8>, pair: (&[u8], Option<&[u8]>)) -> Result<(), AllocError>
    ensures bytes { OnOk result (spec.are_pair_bytes (spec.given pair.entry) ≡ true) }
    ensures text { OnOk result (text.new.items ≡ text.old.items ++ ended (spec.piece_of (spec.encoded_pair (spec.given pair.entry)) ∷ [])) }
{
    push_pair(text, pair)?;
    text.push(b'&')?;
    Ok(())
}

/// Appends what the piece becomes: the pair, if it is the first piece that makes room for it, or
/// nothing, if it is another of the name, or itself. Returns whether the pair is set then.
fn push_next(
    text: &mut Vec<u8>,
    piece: &[u8],
    pair: (&[u8], Option<&[u8]>),
    is_set: bool,
    is_last: bool,
) -> Result<bool, AllocError>
    ensures text { OnOk result (text.new.items ≡ text.old.items ++ ended (next_pieces pair.entry.0.now (spec.piece_of (spec.encoded_pair (spec.given pair.entry))) is_set is_last piece.now)) }
    ensures set { IfOk result (λ b. b ≡ (is_set || makes_room pair.entry.0.now is_last piece.now)) }
    ensures bytes { (is_set ≡ true → spec.are_pair_bytes (spec.given pair.entry) ≡ true) → IfOk result (λ b. b ≡ true → spec.are_pair_bytes (spec.given pair.entry) ≡ true) }
{
    let is_own = is_named(piece, pair.0);
    if !is_set && (is_own || is_last && piece.is_empty()) {
        push_ended(text, pair)?;
        return Ok(true);
    }
    if !is_own {
        text.extend_from_slice(piece)?;
        text.push(b'&')?;
    }
    Ok(is_set)
}

/// The pieces of the query with the pair in place of its name's, each with a `&` after it.
fn set_pieces(
    alloc: Global,
    query: &[u8],
    pair: (&[u8], Option<&[u8]>),
) -> Result<Vec<u8>, AllocError>
    requires { IsQuery query.now }
    ensures bytes { OnOk result (spec.are_pair_bytes (spec.given pair.entry) ≡ true) }
    ensures text { IfOk result (λ v. ArePairsWritten (spec.with_pair pair.entry.0.now (spec.encoded_pair (spec.given pair.entry)) (spec.pairs query.now)) v.items) }
{
    let most = query.len().saturating_add(most_pair_bytes(&[pair]));
    let mut text = Vec::with_capacity(alloc, most)?;
    let mut rest = Some(query);
    let mut is_set = false;
    while let Some(left) = rest {
        let (piece, following) = split_at_delimiter(left, b'&');
        rest = without_delimiter(following);
        is_set = push_next(&mut text, piece, pair, is_set, rest.is_none())?;
    }
    if is_set {
        return Ok(text);
    }
    push_ended(&mut text, pair)?;
    Ok(text)
}

/// The query of the pieces in the text, without the `&` after the last one.
pub(super) fn query_of_pieces(mut text: Vec<u8>) -> Query<'static>
    requires { (ss : List (List ℕ)) × AreWritten ss text.items × (0 < length ss) }
    ensures { (ss : List (List ℕ)) → AreWritten ss text.items → spec.pairs result ≡ map spec.pair_of ss }
{
    let _last = text.pop();
    text_from_checked_vec(text)
}

impl<'q> Query<'q> {
    /// The query with this pair in place of the first one whose name stands for the same bytes, and
    /// without the others of that name. If there is none, the pair follows all others, in the place
    /// of an empty piece at the end: the empty query becomes the pair alone, and `a=1&` has no empty
    /// piece before the new pair. The name and the value are encoded as by
    /// [`from_pairs`](Query::from_pairs). The other pairs stay in order, byte for byte. Reserves
    /// capacity once.
    ///
    /// Names are compared by the bytes that they stand for, so `%61` is `a`, and `+` is no space.
    ///
    /// ```
    /// let query = Query::try_from_str("p=1&lang=de&%70=2")?;
    /// let query = query.with_pair(alloc, b"p", Some(b"a&b"))?;
    /// assert_eq!(query.as_str(), "p=a%26b&lang=de");
    /// ```
    pub fn with_pair(
        &self,
        alloc: Global,
        name: &[u8],
        value: Option<&[u8]>,
    ) -> Result<Query<'static>, AllocError>
        ensures pairs { IfOk result (λ q. spec.pairs q ≡ spec.with_pair name.now (spec.encoded_pair (name.now, option_copied value.entry)) (spec.pairs self.now)) }

        // One pair of the result has the name. Decoded, it is the name and the value.
        ensures back { IfOk result (λ q. map spec.decoded_pair (filter (spec.is_named name.now) (spec.pairs q)) ≡ (name.now, option_copied value.entry) ∷ []) }
    {
        let text = set_pieces(alloc, self.as_bytes(), (name, value))?;
        Ok(query_of_pieces(text))
    }
}
