//! The store of schemas that `registry` keeps, with texts that are owned: identifiers are kept as their
//! texts, and references are resolved into one buffer and looked up as views, without memory.

use crate::digest::Digest;
use crate::error::JobError;
use crate::random::Random;
use crate::registry::make_schemas;
use crate::texts::Texts;
use std::alloc::Global;
use std::collections::HashSet;
use uriparse::{ReferenceKey, ReferenceView, URIText, URIView};

/// Keeps `count` identifiers, and looks up as many references.
pub fn store(
    alloc: Global,
    count: u64,
    random: &mut Random,
    digest: &mut Digest,
) -> Result<(), JobError> {
    let (names, links) = make_schemas(alloc, count, random)?;
    let known = keep_all(alloc, &names, digest)?;
    digest.add(known.len() as u64);
    look_up_all(&known, &links, digest)
}

/// Looks up the references.
fn look_up_all(
    known: &HashSet<ReferenceKey<'static>>,
    links: &Texts,
    digest: &mut Digest,
) -> Result<(), JobError> {
    let schema = URIView::try_from_bytes(b"https://schemas.example.org/main/index.json")?;
    let mut buffer = [0; 1024];
    for index in 0..links.count() {
        let link = ReferenceView::try_from_bytes(links.text(index))?;
        let len = schema.resolve_into(&link, &mut buffer)?;
        let target = buffer.get(..len).unwrap_or(&[]);
        digest.add(u64::from(is_known(known, target)?));
    }
    Ok(())
}

/// Whether the identifier with this text is kept.
fn is_known(known: &HashSet<ReferenceKey<'static>>, text: &[u8]) -> Result<bool, JobError> {
    let view = ReferenceView::try_from_bytes(text)?;
    Ok(known.contains(&ReferenceKey::View(&view)))
}

/// The identifiers, each kept once.
fn keep_all(
    alloc: Global,
    names: &Texts,
    digest: &mut Digest,
) -> Result<HashSet<ReferenceKey<'static>>, JobError> {
    let mut known = HashSet::new(alloc);
    for index in 0..names.count() {
        let name = URIText::try_from_bytes(alloc, names.text(index))?;
        digest.add(u64::from(known.insert(ReferenceKey::Text(name.into_reference_text()))?));
    }
    Ok(known)
}
