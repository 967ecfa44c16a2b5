//! A link rewriter: each link of a page is read, resolved against the page, normalized and printed.

use crate::digest::Digest;
use crate::error::JobError;
use crate::make::{put_like, put_link, put_page};
use crate::random::Random;
use crate::texts::Texts;
use std::alloc::{AllocError, Global};
use uriparse::{URI, URIReference};

/// Follows the links of `count` pages, of 100 links each.
pub fn links(
    alloc: Global,
    count: u64,
    random: &mut Random,
    digest: &mut Digest,
) -> Result<(), JobError> {
    let models = link_models(alloc, random)?;
    let mut texts = Texts::new(alloc);
    for _ in 0..count {
        put_links(&models, random, &mut texts)?;
        follow_all(alloc, &texts, digest)?;
    }
    Ok(())
}

/// Links of all kinds, for [`put_like`].
pub fn link_models(alloc: Global, random: &mut Random) -> Result<Texts, AllocError> {
    let mut models = Texts::new(alloc);
    for _ in 0..8_192 {
        put_link(random, &mut models)?;
        models.end()?;
    }
    Ok(models)
}

/// Makes a page's own text and its links.
pub fn put_links(models: &Texts, random: &mut Random, texts: &mut Texts) -> Result<(), AllocError> {
    texts.clear();
    put_page(random, texts)?;
    texts.end()?;
    for _ in 0..100 {
        put_like(models, random, texts)?;
        texts.end()?;
    }
    Ok(())
}

/// Follows all links of the page, which is the first text.
fn follow_all(alloc: Global, texts: &Texts, digest: &mut Digest) -> Result<(), JobError> {
    let page = URI::try_from_bytes(alloc, texts.text(0))?;
    for index in 1..texts.count() {
        follow(alloc, &page, texts.text(index), digest)?;
    }
    Ok(())
}

/// Adds the text of the normal form of the link's target.
fn follow(alloc: Global, page: &URI<'_>, link: &[u8], digest: &mut Digest) -> Result<(), JobError> {
    let link = URIReference::try_from_bytes(alloc, link)?;
    let mut target = page.resolve(alloc, &link)?;
    add_normal(alloc, &mut target, digest)
}

/// Adds the text of the normal form.
pub fn add_normal(alloc: Global, uri: &mut URI<'_>, digest: &mut Digest) -> Result<(), JobError> {
    uri.normalize(alloc)?;
    digest.add_bytes(uri.to_string(alloc)?.as_bytes());
    Ok(())
}
