//! A link rewriter: each URI gets another host, and loses its user information, its fragment and the pairs
//! of its query that track.

use crate::digest::Digest;
use crate::error::JobError;
use crate::make::put_like;
use crate::random::Random;
use crate::requests::request_models;
use crate::texts::Texts;
use std::alloc::{AllocError, Global};
use uriparse::{Change, Changes, Query, ReferenceView};

/// Edits `count` URIs.
pub fn edits(
    alloc: Global,
    count: u64,
    random: &mut Random,
    digest: &mut Digest,
) -> Result<(), JobError> {
    let models = request_models(alloc, random)?;
    let names = Query::try_from_str("utm_*&session")?;
    let mut texts = Texts::new(alloc);
    let mut out = [0; 1024];
    for _ in 0..count {
        texts.clear();
        put_like(&models, random, &mut texts)?;
        edit(alloc, texts.whole(), &names, &mut out, digest)?;
    }
    Ok(())
}

/// Edits one URI, and adds its string.
fn edit(
    alloc: Global,
    uri: &[u8],
    names: &Query<'_>,
    out: &mut [u8],
    digest: &mut Digest,
) -> Result<(), JobError> {
    let view = ReferenceView::try_from_bytes(uri)?;
    let query = view.query();
    let left = left_of(alloc, query.as_ref(), names)?;
    let len = view.change_into(&changes_to(left.as_ref()), out)?;
    digest.add_bytes(out.get(..len).unwrap_or(&[]));
    Ok(())
}

/// What is left of a query without the pairs of these names.
fn left_of<'q>(
    alloc: Global,
    query: Option<&Query<'q>>,
    names: &Query<'_>,
) -> Result<Option<Query<'q>>, AllocError> {
    match query {
        Some(query) => query.without_pairs_named(alloc, names),
        None => Ok(None),
    }
}

/// The changes that lead to this query.
fn changes_to<'q>(query: Option<&'q Query<'_>>) -> Changes<'q> {
    let mut changes = Changes::none();
    changes.username = Change::Remove;
    changes.host = Change::Set(b"example.com");
    changes.fragment = Change::Remove;
    changes.query = match query {
        Some(query) => Change::Set(query.as_bytes()),
        None => Change::Remove,
    };
    changes
}
