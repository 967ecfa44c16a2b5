//! Links without the pairs by which readers are tracked, and without a query.
//!
//! The tests are functions with names: the prover doesn't cover closures that take an owned `Option`.
ghost use Rattle.std.specs.List.{filter, starts_with};
ghost use Rattle.std.specs.Prelude.{◌≡◌, ◌==◌, IfOk, None, codes, not, true};
ghost use Rattle.uriparse.specs.Edit.TheVariants as edits;
ghost use Rattle.uriparse.specs.Edits.{edited};
ghost use Rattle.uriparse.specs.Kinds.{with_mapped_error};
ghost use Rattle.uriparse.specs.Pairs.{pairs, pairs_left};
ghost use Rattle.uriparse.specs.Uri.{map_error};

use std::alloc::{AllocError, Global};
use uriparse::{Query, URI, URIError};

/// Whether the pair's name begins as those of tracking parameters do.
fn is_tracking(name: Query<'_>, _value: Option<Query<'_>>) -> bool
    ensures { result ≡ starts_with ◌==◌ name.entry (codes "utm_") }
{
    name.as_bytes().starts_with(b"utm_")
}

/// The query without the pairs whose names begin with `utm_`, or `None` if no pair is left.
///
/// ```
/// let query = Query::try_from_str("utm_source=x&b=%7e&utm_id=1")?;
/// assert_eq!(without_tracking(alloc, &query)?.unwrap().as_str(), "b=%7e");
/// ```
pub fn without_tracking(
    alloc: Global,
    query: &Query<'_>,
) -> Result<Option<Query<'static>>, AllocError>
    ensures { IfOk result (λ q. pairs_left q ≡ filter (λ p. not (starts_with ◌==◌ p.0 (codes "utm_"))) (pairs query.now)) }
{
    query.without_pairs(alloc, is_tracking)
}

/// Whether the query, with `page` set to these bytes, has this page: it always has, if memory is found.
///
/// ```
/// let query = Query::try_from_str("q=a&%70age=1")?;
/// assert!(has_page_that_is_set(alloc, &query, b"2&3")?);
/// ```
pub fn has_page_that_is_set(
    alloc: Global,
    query: &Query<'_>,
    page: &[u8],
) -> Result<bool, AllocError>
    ensures { IfOk result (λ b. b ≡ true) }
{
    let query = query.with_pair(alloc, b"page", Some(page))?;
    match query.pair(b"page") {
        Some(value) => Ok(value.decode(alloc)?.as_slice() == page),
        None => Ok(false),
    }
}

/// No query, whatever it was.
fn no_query<'q>(_query: Option<Query<'q>>) -> Option<Query<'q>>
    ensures { result ≡ None }
{
    None
}

/// The URI without its query. Nothing else changes.
///
/// ```
/// let uri = URI::try_from_str(alloc, "http://h/a?b#c")?;
/// assert_eq!(without_query(uri)?.to_string(alloc)?.as_str(), "http://h/a#c");
/// ```
pub fn without_query(uri: URI<'_>) -> Result<URI<'_>, URIError>
    ensures { result ≡ with_mapped_error map_error (edited uri.entry (edits.Query None)) }
{
    uri.map_query(no_query)
}
