//! The pairs of a query, as `name=value`: RFC 3986, section 3.4.
ghost use Rattle.std.specs.Prelude.{◌≡◌, ◌<◌, ◌++◌, IfOk, OnOk, length, map, true};
ghost use Rattle.std.specs.Iterator.{YieldsFirst, item_count};
ghost use Rattle.std.specs.List.{list_all};
ghost use Rattle.uriparse_text.specs.Coding.{form_decoded};
ghost use Rattle.uriparse_text.specs.Pairs as spec;
ghost use Rattle.uriparse_text.specs.Query.{IsQuery};

use super::Query;
use crate::internal::{
    Class, checked_text, form_decoded_bytes, push_encoded, split_at_delimiter,
    text_from_checked_vec, without_delimiter,
};
use std::alloc::{AllocError, Global};
use std::marker::Model;

/// The pairs of a query that are left, in order.
#[derive(Drop)]
pub struct Pairs<'q> {
    /// What is left of the query; `None` after its last pair.
    rest: Option<&'q [u8]>,
}

impl<'q> Model for Pairs<'q> {
    ghost use Rattle.std.specs.Prelude.{List, IfSome};
    ghost use Rattle.std.specs.Option.{option_copied};
    ghost use Rattle.uriparse_text.specs.Pairs.{Pair, pairs_left};
    ghost use Rattle.uriparse_text.specs.Query.{IsQuery};

    ghost Value = { List Pair };

    ghost view = { λ p. pairs_left (option_copied p.rest) };

    ghost invariant = { λ p. IfSome (option_copied p.rest) IsQuery };
}

/// The pair of a piece of a query.
pub fn pair_of(piece: &[u8]) -> (Query<'_>, Option<Query<'_>>)
    requires { IsQuery piece.now }
    ensures { result ≡ spec.pair_of piece.now }
{
    let (name, rest) = split_at_delimiter(piece, b'=');
    let value = match without_delimiter(rest) {
        Some(value) => Some(checked_text(value)),
        None => None,
    };
    (checked_text(name), value)
}

impl<'q> Iterator for Pairs<'q> {
    type Item = (Query<'q>, Option<Query<'q>>);

    ghost next_gives = { YieldsFirst (λ rest. rest) };

    ghost remaining = { item_count (λ rest. rest) };

    fn next(&mut self) -> Option<(Query<'q>, Option<Query<'q>>)> {
        let rest = self.rest?;
        let (piece, following) = split_at_delimiter(rest, b'&');
        self.rest = without_delimiter(following);
        Some(pair_of(piece))
    }
}

/// An upper bound for the number of bytes of the query of these pairs: three for each byte, as an
/// escape needs, and two delimiters for each pair; or `usize::MAX`.
pub fn most_pair_bytes(pairs: &[(&[u8], Option<&[u8]>)]) -> usize {
    let mut most: usize = 0;
    for (name, value) in pairs {
        let count = name.len().saturating_add(value.unwrap_or(b"").len());
        most = most
            .saturating_add(count.saturating_mul(3))
            .saturating_add(2);
    }
    most
}

/// Appends a pair.
pub fn push_pair(text: &mut Vec<u8>, pair: (&[u8], Option<&[u8]>)) -> Result<(), AllocError>
    ensures text { OnOk result (text.new.items ≡ text.old.items ++ spec.piece_of (spec.encoded_pair (spec.given pair.entry))) }
    ensures bytes { OnOk result (spec.are_pair_bytes (spec.given pair.entry) ≡ true) }
{
    let (name, value) = pair;
    push_encoded(text, Class::Query, b"&=+*", name)?;
    if let Some(value) = value {
        text.push(b'=')?;
        push_encoded(text, Class::Query, b"&=+*", value)?;
    }
    Ok(())
}

/// Appends the pairs, with a `&` between each two.
fn push_pairs(text: &mut Vec<u8>, pairs: &[(&[u8], Option<&[u8]>)]) -> Result<(), AllocError>
    ensures text { OnOk result (text.new.items ≡ text.old.items ++ spec.joined_pairs (map spec.encoded_pair (map spec.given pairs.now))) }
    ensures bytes { OnOk result (list_all spec.are_pair_bytes (map spec.given pairs.now) ≡ true) }
{
    let Some((first, others)) = pairs.split_first() else {
        return Ok(());
    };
    push_pair(text, *first)?;
    for pair in others {
        text.push(b'&')?;
        push_pair(text, *pair)?;
    }
    Ok(())
}

impl<'q> Query<'q> {
    /// The pairs of the query, in order: the pieces between its `&`, each a name and, after its
    /// first `=`, a value. Both borrow the query's text and are queries themselves, to be decoded
    /// one by one. Does not allocate.
    ///
    /// RFC 3986 knows of such pairs only as a habit (section 3.4). Each query has at least one
    /// piece, and a piece may be empty: the pair of an empty name without a value. So the pieces,
    /// joined by `&`, are the query again.
    ///
    /// ```
    /// let query = Query::try_from_str("a=1&b=%26&c")?;
    /// assert_eq!(query.pairs().count(), 3);
    /// for (name, value) in query.pairs() {
    ///     assert!(value.is_some() || name.eq_str("c"));
    /// }
    /// ```
    pub fn pairs(&self) -> Pairs<'_>
        ensures pairs { result ≡ spec.pairs self.now }
        ensures joined { spec.joined_pairs (spec.pairs self.now) ≡ self.now }
    {
        Pairs {
            rest: Some(self.as_bytes()),
        }
    }

    /// Encodes pairs of a name and, if there is one, a value as a query: in a piece each, with `=`
    /// before the value and `&` between two pieces. In both, `&`, `=`, `+`, `#`, `%` and each byte
    /// that a query can't have become escapes, so [`pairs`](Query::pairs) and
    /// [`decode`](Text::decode) return the bytes again, and so does
    /// [`decode_form`](Query::decode_form). Reserves capacity once.
    ///
    /// Without pairs the result is the empty query, which one empty name has too.
    ///
    /// ```
    /// let query = Query::from_pairs(alloc, &[(b"q", Some(b"R&D")), (b"all", None)])?;
    /// assert_eq!(query.as_str(), "q=R%26D&all");
    /// ```
    pub fn from_pairs(
        alloc: Global,
        pairs: &[(&[u8], Option<&[u8]>)],
    ) -> Result<Query<'static>, AllocError>
        ensures text { IfOk result (λ q. q ≡ spec.joined_pairs (map spec.encoded_pair (map spec.given pairs.now))) }
        ensures back { 0 < length pairs.now → IfOk result (λ q. map spec.decoded_pair (spec.pairs q) ≡ map spec.given pairs.now) }
        ensures form_back { 0 < length pairs.now → IfOk result (λ q. map spec.form_decoded_pair (spec.pairs q) ≡ map spec.given pairs.now) }
    {
        let mut text = Vec::with_capacity(alloc, most_pair_bytes(pairs))?;
        push_pairs(&mut text, pairs)?;
        Ok(text_from_checked_vec(text))
    }

    /// Decodes the text as an HTML form's: like [`decode`](Text::decode), but a `+` is a
    /// space. Reserves capacity once.
    ///
    /// ```
    /// let bytes = Query::try_from_str("a+b%2Bc")?.decode_form(alloc)?;
    /// assert_eq!(bytes.as_slice(), b"a b+c".as_slice());
    /// ```
    pub fn decode_form(&self, alloc: Global) -> Result<Vec<u8>, AllocError>
        ensures { IfOk result (λ v. v.items ≡ form_decoded self.now) }
    {
        form_decoded_bytes(alloc, self.as_bytes())
    }
}
