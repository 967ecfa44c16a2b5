//! Queries with one pair more: RFC 3986, section 3.4.
ghost use Rattle.std.specs.Prelude.{◌≡◌, ◌↔◌, ◌++◌, ℕ, IfOk, IsTrue, List};
ghost use Rattle.std.specs.Option.{option_copied};
ghost use Rattle.uriparse_text.specs.Pairs as spec;
ghost use Rattle.uriparse_text.specs.Query.{IsQuery};
ghost use Rattle.uriparse_text.specs.Written.{EndsOpen};

use super::Query;
use super::pairs::{most_pair_bytes, push_pair};
use crate::internal::text_from_checked_vec;
use std::alloc::{AllocError, Global};

/// Whether an empty piece ends the query.
fn ends_open(query: &[u8]) -> bool
    ensures { IsTrue result ↔ EndsOpen query.now }
{
    match query.split_last() {
        None => true,
        Some((last, _)) => *last == b'&',
    }
}

/// What is between the query and a piece that follows its pieces, in the place of an empty piece at
/// the end: a `&`, or nothing if there is such a piece.
pub fn mark_after(query: &[u8]) -> &'static [u8]
    ensures pairs { (piece : List ℕ) → spec.pairs ((query.now ++ result.now) ++ piece) ≡ spec.without_empty_end (spec.pairs query.now) ++ spec.pairs piece }
    ensures query { (piece : List ℕ) → IsQuery query.now → IsQuery piece → IsQuery ((query.now ++ result.now) ++ piece) }
{
    if ends_open(query) { b"" } else { b"&" }
}

impl<'q> Query<'q> {
    /// The query with this pair after all others, in the place of an empty piece at the end: the
    /// empty query becomes the pair alone, and `a=1&` has no empty piece before the new pair. The
    /// name and the value are encoded as by [`from_pairs`](Query::from_pairs). The other pairs stay
    /// in order, byte for byte, also those of the same name. Reserves capacity once.
    ///
    /// ```
    /// let query = Query::try_from_str("tag=a&q=%2f")?;
    /// let query = query.with_appended_pair(alloc, b"tag", Some(b"b&c"))?;
    /// assert_eq!(query.as_str(), "tag=a&q=%2f&tag=b%26c");
    /// ```
    pub fn with_appended_pair(
        &self,
        alloc: Global,
        name: &[u8],
        value: Option<&[u8]>,
    ) -> Result<Query<'static>, AllocError>
        ensures pairs { IfOk result (λ q. spec.pairs q ≡ spec.with_appended (spec.encoded_pair (name.now, option_copied value.entry)) (spec.pairs self.now)) }

        // Decoded, the new pair is the name and the value.
        ensures back { IfOk result (λ _. spec.decoded_pair (spec.encoded_pair (name.now, option_copied value.entry)) ≡ (name.now, option_copied value.entry)) }
    {
        let query = self.as_bytes();
        let pair = (name, value);
        let most = query.len().saturating_add(most_pair_bytes(&[pair]));
        let mut text = Vec::with_capacity(alloc, most)?;
        text.extend_from_slice(query)?;
        text.extend_from_slice(mark_after(query))?;
        push_pair(&mut text, pair)?;
        Ok(text_from_checked_vec(text))
    }
}
