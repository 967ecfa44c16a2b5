//! The pairs of the query of a URI or a relative reference in a text that it owns: RFC 3986, section
//! 3.4.
ghost use Rattle.std.specs.Prelude.{◌≡◌, ◌∷◌, [], IfOk, IsOk, MatchResult, None, map};
ghost use Rattle.std.specs.List.{filter};
ghost use Rattle.std.specs.Option.{option_copied};
ghost use Rattle.uriparse_text.specs.Pairs.{decoded_pair, encoded_pair, is_named, pairs, with_appended, with_pair, without_names};
ghost use Rattle.uriparse_reference.specs.PairEdits as spec;
ghost use Rattle.uriparse_reference.specs.TextEdits.{with_query};

use super::TextOf;
use crate::kind::ReferenceKind;
use std::alloc::{AllocError, Global};
use uriparse_text::query::Query;

impl<K: ReferenceKind> TextOf<K> {
    /// The value of the query's first pair of this name, as [`Query::pair`] finds it: empty if the
    /// pair has no `=`, and `None` without such a pair or without a query. It borrows the string.
    /// Does not allocate.
    pub fn pair(&self, name: &[u8]) -> Option<Query<'_>>
        ensures { result ≡ spec.pair_in name.now self.now.parts }
    {
        self.text.pair(name)
    }

    /// Whether the query has a pair of this name, as [`Query::has_pair`] finds it. Does not allocate.
    pub fn has_pair(&self, name: &[u8]) -> bool
        ensures { result ≡ spec.has_pair_in name.now self.now.parts }
    {
        self.text.has_pair(name)
    }

    /// Sets the query's pair of this name, as [`Query::with_pair`] does; the rest of the string keeps
    /// its bytes. Without a query there is one of this pair then. Allocates the query and the new
    /// string. If memory runs out, the string is unchanged.
    pub fn set_pair(
        &mut self,
        alloc: Global,
        name: &[u8],
        value: Option<&[u8]>,
    ) -> Result<(), AllocError>
        ensures text { MatchResult result (λ _. self.new.text ≡ with_query self.old.text (spec.query_of (with_pair name.now (encoded_pair (name.now, option_copied value.entry)) (spec.pairs_of self.old.parts)))) (λ _. self.new ≡ self.old) }
        ensures parts { IfOk result (λ _. self.new.parts ≡ spec.with_pairs self.old.parts (with_pair name.now (encoded_pair (name.now, option_copied value.entry)) (spec.pairs_of self.old.parts))) }

        // One pair of the result has the name. Decoded, it is the name and the value.
        ensures back { IfOk result (λ _. map decoded_pair (filter (is_named name.now) (spec.pairs_of self.new.parts)) ≡ (name.now, option_copied value.entry) ∷ []) }
    {
        self.text.set_pair(alloc, name, value)?;
        Ok(())
    }

    /// Appends a pair to the query, as [`Query::with_appended_pair`] does; the rest of the string
    /// keeps its bytes. Without a query there is one of this pair then. Allocates the query and the
    /// new string. If memory runs out, the string is unchanged.
    pub fn append_pair(
        &mut self,
        alloc: Global,
        name: &[u8],
        value: Option<&[u8]>,
    ) -> Result<(), AllocError>
        ensures text { MatchResult result (λ _. self.new.text ≡ with_query self.old.text (spec.query_of (with_appended (encoded_pair (name.now, option_copied value.entry)) (spec.pairs_of self.old.parts)))) (λ _. self.new ≡ self.old) }
        ensures parts { IfOk result (λ _. self.new.parts ≡ spec.with_pairs self.old.parts (with_appended (encoded_pair (name.now, option_copied value.entry)) (spec.pairs_of self.old.parts))) }
    {
        self.text.append_pair(alloc, name, value)?;
        Ok(())
    }

    /// Removes the query's pairs of these names, as [`Query::without_pairs_named`] does, and the
    /// query itself if no pair is left; the rest of the string keeps its bytes. Allocates the query
    /// and the new string, or nothing without a query. If memory runs out, the string is unchanged.
    pub fn remove_pairs_named(&mut self, alloc: Global, names: &Query<'_>) -> Result<(), AllocError>
        ensures text { MatchResult result (λ _. self.new.text ≡ with_query self.old.text (spec.query_of (without_names (pairs names.now) (spec.pairs_of self.old.parts)))) (λ _. self.new ≡ self.old) }
        ensures parts { IfOk result (λ _. self.new.parts ≡ spec.with_pairs self.old.parts (without_names (pairs names.now) (spec.pairs_of self.old.parts))) }
        ensures takes_no_memory { self.old.parts.query ≡ None → IsOk result }
    {
        self.text.remove_pairs_named(alloc, names)?;
        Ok(())
    }
}
