//! The pairs of the query of a reference: RFC 3986, section 3.4.
ghost use Rattle.std.specs.Prelude.{◌≡◌, ◌∷◌, [], IfOk, IsOk, MatchResult, None, Ok, map};
ghost use Rattle.std.specs.List.{filter};
ghost use Rattle.std.specs.Option.{option_copied};
ghost use Rattle.uriparse_text.specs.Pairs.{decoded_pair, encoded_pair, is_named, pairs, pairs_left, sorted_pairs, with_appended, with_pair, without_names};
ghost use Rattle.uriparse_reference.specs.PairEdits as spec;

use super::URIReference;
use std::alloc::{AllocError, Global};
use uriparse_text::query::Query;

/// The query of one pair.
fn query_of_pair(
    alloc: Global,
    name: &[u8],
    value: Option<&[u8]>,
) -> Result<Query<'static>, AllocError>
    ensures pairs { IfOk result (λ q. pairs q ≡ encoded_pair (name.now, option_copied value.entry) ∷ []) }
    ensures back { IfOk result (λ q. map decoded_pair (filter (is_named name.now) (pairs q)) ≡ (name.now, option_copied value.entry) ∷ []) }
{
    Query::from_pairs(alloc, &[(name, value)])
}

/// The query with this pair in place of those of its name, or of it alone.
pub(super) fn query_with(
    query: &Option<Query<'_>>,
    alloc: Global,
    name: &[u8],
    value: Option<&[u8]>,
) -> Result<Query<'static>, AllocError>
    ensures pairs { IfOk result (λ q. pairs q ≡ with_pair name.now (encoded_pair (name.now, option_copied value.entry)) (pairs_left query.now)) }
    ensures back { IfOk result (λ q. map decoded_pair (filter (is_named name.now) (pairs q)) ≡ (name.now, option_copied value.entry) ∷ []) }
{
    match query {
        Some(query) => query.with_pair(alloc, name, value),
        None => query_of_pair(alloc, name, value),
    }
}

/// The query with this pair after all others, or of it alone.
pub(super) fn query_with_appended(
    query: &Option<Query<'_>>,
    alloc: Global,
    name: &[u8],
    value: Option<&[u8]>,
) -> Result<Query<'static>, AllocError>
    ensures { IfOk result (λ q. pairs q ≡ with_appended (encoded_pair (name.now, option_copied value.entry)) (pairs_left query.now)) }
{
    match query {
        Some(query) => query.with_appended_pair(alloc, name, value),
        None => query_of_pair(alloc, name, value),
    }
}

/// The query without the pairs of these names, or `None` if no pair is left.
pub(super) fn query_without(
    query: &Option<Query<'_>>,
    alloc: Global,
    names: &Query<'_>,
) -> Result<Option<Query<'static>>, AllocError>
    ensures pairs { IfOk result (λ o. pairs_left o ≡ without_names (pairs names.now) (pairs_left query.now)) }
    ensures takes_no_memory { query.now ≡ None → result ≡ Ok None }
{
    match query {
        Some(query) => query.without_pairs_named(alloc, names),
        None => Ok(None),
    }
}

impl<'r> URIReference<'r> {
    /// Replaces the query.
    #[tactic(auto, using(crate::proofs::lemmas::edits::PairEditLemmas::query_is))]
    fn put_query(&mut self, query: Option<Query<'r>>)
        ensures { self.new ≡ spec.with_pairs self.old (pairs_left query.entry) }
    {
        self.query = query;
    }

    /// The value of the query's first pair of this name, as [`Query::pair`] finds it: empty if the
    /// pair has no `=`, and `None` without such a pair or without a query. It borrows the
    /// reference's text, to be decoded. Does not allocate.
    ///
    /// ```
    /// let reference = URIReference::try_from_str(alloc, "/search?q=a%20b&page=2")?;
    /// assert!(reference.pair(b"page").is_some_and(|value| value.as_str() == "2"));
    /// ```
    pub fn pair(&self, name: &[u8]) -> Option<Query<'_>>
        ensures { result ≡ spec.pair_in name.now self.now }
    {
        match &self.query {
            Some(query) => query.pair(name),
            None => None,
        }
    }

    /// Whether the query has a pair of this name, as [`Query::has_pair`] finds it. Does not allocate.
    pub fn has_pair(&self, name: &[u8]) -> bool
        ensures { result ≡ spec.has_pair_in name.now self.now }
    {
        match &self.query {
            Some(query) => query.has_pair(name),
            None => false,
        }
    }

    /// Sets the query's pair of this name, as [`Query::with_pair`] does: the first pair of the name
    /// becomes this one and the others of the name go, or else it follows all others. A reference
    /// without a query gets one of this pair. Allocates once. If memory runs out, the reference is
    /// unchanged.
    ///
    /// ```
    /// let mut reference = URIReference::try_from_str(alloc, "/search?q=a&page=2#end")?;
    /// reference.set_pair(alloc, b"page", Some(b"3"))?;
    /// assert_eq!(reference.to_string(alloc)?.as_str(), "/search?q=a&page=3#end");
    /// ```
    pub fn set_pair(
        &mut self,
        alloc: Global,
        name: &[u8],
        value: Option<&[u8]>,
    ) -> Result<(), AllocError>
        ensures pairs { MatchResult result (λ _. self.new ≡ spec.with_pairs self.old (with_pair name.now (encoded_pair (name.now, option_copied value.entry)) (spec.pairs_of self.old))) (λ _. self.new ≡ self.old) }

        // One pair of the result has the name. Decoded, it is the name and the value.
        ensures back { IfOk result (λ _. map decoded_pair (filter (is_named name.now) (spec.pairs_of self.new)) ≡ (name.now, option_copied value.entry) ∷ []) }
    {
        let query = query_with(&self.query, alloc, name, value)?;
        self.put_query(Some(query));
        Ok(())
    }

    /// Appends a pair to the query, as [`Query::with_appended_pair`] does, whatever pairs of this
    /// name it has. A reference without a query gets one of this pair. Allocates once. If memory runs
    /// out, the reference is unchanged.
    ///
    /// ```
    /// let mut reference = URIReference::try_from_str(alloc, "/search?tag=a")?;
    /// reference.append_pair(alloc, b"tag", Some(b"b&c"))?;
    /// assert_eq!(reference.to_string(alloc)?.as_str(), "/search?tag=a&tag=b%26c");
    /// ```
    pub fn append_pair(
        &mut self,
        alloc: Global,
        name: &[u8],
        value: Option<&[u8]>,
    ) -> Result<(), AllocError>
        ensures { MatchResult result (λ _. self.new ≡ spec.with_pairs self.old (with_appended (encoded_pair (name.now, option_copied value.entry)) (spec.pairs_of self.old))) (λ _. self.new ≡ self.old) }
    {
        let query = query_with_appended(&self.query, alloc, name, value)?;
        self.put_query(Some(query));
        Ok(())
    }

    /// Removes the query's pairs of these names, as [`Query::without_pairs_named`] does, and the
    /// query itself if no pair is left. Allocates once, or not at all without a query. If memory runs
    /// out, the reference is unchanged.
    ///
    /// ```
    /// let mut reference = URIReference::try_from_str(alloc, "/a?utm_id=1&q=2&gclid=3#f")?;
    /// let names = Query::try_from_str("utm_*&gclid")?;
    /// reference.remove_pairs_named(alloc, &names)?;
    /// assert_eq!(reference.to_string(alloc)?.as_str(), "/a?q=2#f");
    /// ```
    pub fn remove_pairs_named(&mut self, alloc: Global, names: &Query<'_>) -> Result<(), AllocError>
        ensures pairs { MatchResult result (λ _. self.new ≡ spec.with_pairs self.old (without_names (pairs names.now) (spec.pairs_of self.old))) (λ _. self.new ≡ self.old) }

        // Without a query nothing changes.
        ensures takes_no_memory { self.old.query ≡ None → IsOk result × (self.new ≡ self.old) }
    {
        let left = query_without(&self.query, alloc, names)?;
        self.put_query(left);
        Ok(())
    }

    /// Sorts the query's pairs by their names, as [`Query::sorted_pairs`] does. Allocates, but not
    /// without a query. If memory runs out, the reference is unchanged.
    ///
    /// ```
    /// let mut reference = URIReference::try_from_str(alloc, "/a?z=1&b=2&a")?;
    /// reference.sort_pairs(alloc)?;
    /// assert_eq!(reference.to_string(alloc)?.as_str(), "/a?a&b=2&z=1");
    /// ```
    pub fn sort_pairs(&mut self, alloc: Global) -> Result<(), AllocError>
        ensures pairs { MatchResult result (λ _. self.new ≡ spec.with_pairs self.old (sorted_pairs (spec.pairs_of self.old))) (λ _. self.new ≡ self.old) }

        // Without a query nothing changes.
        ensures takes_no_memory { self.old.query ≡ None → IsOk result × (self.new ≡ self.old) }
    {
        let Some(query) = &self.query else {
            return Ok(());
        };
        let sorted = query.sorted_pairs(alloc)?;
        self.put_query(Some(sorted));
        Ok(())
    }
}
