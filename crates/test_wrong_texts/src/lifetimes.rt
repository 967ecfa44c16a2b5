//! A query can't be used after the text that it was read from has ended.

ghost use Rattle.std.specs.Prelude.{◌≡◌, IfOk, Err, MatchResult, length};
ghost use Rattle.uriparse_text.specs.Query.{IsQuery, reading};

use std::alloc::{AllocError, Global};
use uriparse_text::query::{Query, QueryError};

/// The length of a query that is read from a copy of the text. The query goes before the copy.
pub fn query_len(alloc: Global, text: &str) -> Result<Result<usize, QueryError>, AllocError>
    ensures { IfOk result (λ r. MatchResult r (λ n. n ≡ length text.now) (λ e. reading text.now ≡ Err e)) }
{
    let copy = String::from_str(alloc, text)?;
    let query = match Query::try_from_str(copy.as_str()) {
        Ok(query) => query,
        Err(error) => return Ok(Err(error)),
    };
    let len = query.as_str().len();
    drop(query);
    drop(copy);
    Ok(Ok(len))
}
