//! The pairs of the query of a URI or a relative reference: RFC 3986, section 3.4.
ghost use Rattle.std.specs.Prelude.{◌≡◌, ◌∷◌, [], IfOk, IsOk, MatchResult, None, map};
ghost use Rattle.std.specs.List.{filter};
ghost use Rattle.std.specs.Option.{option_copied};
ghost use Rattle.uriparse_text.specs.Pairs.{decoded_pair, encoded_pair, is_named, pairs, sorted_pairs, with_appended, with_pair, without_names};
ghost use Rattle.uriparse_reference.specs.PairEdits as spec;

use super::ReferenceOf;
use crate::kind::ReferenceKind;
use std::alloc::{AllocError, Global};
use uriparse_text::query::Query;

impl<'r, K: ReferenceKind> ReferenceOf<'r, K> {
    /// The value of the query's first pair of this name, as [`Query::pair`] finds it: empty if the
    /// pair has no `=`, and `None` without such a pair or without a query. Does not allocate.
    pub fn pair(&self, name: &[u8]) -> Option<Query<'_>>
        ensures { result ≡ spec.pair_in name.now self.now }
    {
        self.reference.pair(name)
    }

    /// Whether the query has a pair of this name, as [`Query::has_pair`] finds it. Does not allocate.
    pub fn has_pair(&self, name: &[u8]) -> bool
        ensures { result ≡ spec.has_pair_in name.now self.now }
    {
        self.reference.has_pair(name)
    }

    /// Sets the query's pair of this name, as [`Query::with_pair`] does. A value without a query gets
    /// one of this pair. Allocates once. If memory runs out, the value is unchanged.
    pub fn set_pair(
        &mut self,
        alloc: Global,
        name: &[u8],
        value: Option<&[u8]>,
    ) -> Result<(), AllocError>
        ensures pairs { MatchResult result (λ _. self.new ≡ spec.with_pairs self.old (with_pair name.now (encoded_pair (name.now, option_copied value.entry)) (spec.pairs_of self.old))) (λ _. self.new ≡ self.old) }

        // One pair of the result has the name. Decoded, it is the name and the value.
        ensures back { IfOk result (λ _. map decoded_pair (filter (is_named name.now) (spec.pairs_of self.new)) ≡ (name.now, option_copied value.entry) ∷ []) }
    {
        self.reference.set_pair(alloc, name, value)
    }

    /// Appends a pair to the query, as [`Query::with_appended_pair`] does. A value without a query
    /// gets one of this pair. Allocates once. If memory runs out, the value is unchanged.
    pub fn append_pair(
        &mut self,
        alloc: Global,
        name: &[u8],
        value: Option<&[u8]>,
    ) -> Result<(), AllocError>
        ensures { MatchResult result (λ _. self.new ≡ spec.with_pairs self.old (with_appended (encoded_pair (name.now, option_copied value.entry)) (spec.pairs_of self.old))) (λ _. self.new ≡ self.old) }
    {
        self.reference.append_pair(alloc, name, value)
    }

    /// Removes the query's pairs of these names, as [`Query::without_pairs_named`] does, and the
    /// query itself if no pair is left. Allocates once, or not at all without a query. If memory runs
    /// out, the value is unchanged.
    pub fn remove_pairs_named(&mut self, alloc: Global, names: &Query<'_>) -> Result<(), AllocError>
        ensures pairs { MatchResult result (λ _. self.new ≡ spec.with_pairs self.old (without_names (pairs names.now) (spec.pairs_of self.old))) (λ _. self.new ≡ self.old) }

        // Without a query nothing changes.
        ensures takes_no_memory { self.old.query ≡ None → IsOk result × (self.new ≡ self.old) }
    {
        self.reference.remove_pairs_named(alloc, names)
    }

    /// Sorts the query's pairs by their names, as [`Query::sorted_pairs`] does. Allocates, but not
    /// without a query. If memory runs out, the value is unchanged.
    pub fn sort_pairs(&mut self, alloc: Global) -> Result<(), AllocError>
        ensures pairs { MatchResult result (λ _. self.new ≡ spec.with_pairs self.old (sorted_pairs (spec.pairs_of self.old))) (λ _. self.new ≡ self.old) }

        // Without a query nothing changes.
        ensures takes_no_memory { self.old.query ≡ None → IsOk result × (self.new ≡ self.old) }
    {
        self.reference.sort_pairs(alloc)
    }
}
