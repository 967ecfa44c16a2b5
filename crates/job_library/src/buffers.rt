//! A crawler without memory: each link of a page is read as a view, resolved and normalized into
//! buffers, and compared with its normal form.

use crate::digest::Digest;
use crate::error::JobError;
use crate::links::{link_models, put_links};
use crate::random::Random;
use crate::texts::Texts;
use std::alloc::Global;
use uriparse::{ReferenceView, URIView};

/// Follows the links of `count` pages, of 100 links each.
pub fn buffers(
    alloc: Global,
    count: u64,
    random: &mut Random,
    digest: &mut Digest,
) -> Result<(), JobError> {
    let models = link_models(alloc, random)?;
    let mut texts = Texts::new(alloc);
    for _ in 0..count {
        put_links(&models, random, &mut texts)?;
        follow_all(&texts, digest)?;
    }
    Ok(())
}

/// Follows all links of the page, which is the first text.
fn follow_all(texts: &Texts, digest: &mut Digest) -> Result<(), JobError> {
    let page = URIView::try_from_bytes(texts.text(0))?;
    let mut target = [0; 1024];
    let mut normal = [0; 1024];
    for index in 1..texts.count() {
        follow(&page, texts.text(index), &mut target, &mut normal, digest)?;
    }
    Ok(())
}

/// Writes the link's target and its normal form to the buffers, and adds the form and whether both
/// are equal.
fn follow(
    page: &URIView<'_>,
    link: &[u8],
    target: &mut [u8],
    normal: &mut [u8],
    digest: &mut Digest,
) -> Result<(), JobError> {
    let link = ReferenceView::try_from_bytes(link)?;
    let len = page.resolve_into(&link, target)?;
    let target = ReferenceView::try_from_bytes(target.get(..len).unwrap_or(&[]))?;
    let len = target.normalize_into(normal)?;
    let normal = normal.get(..len).unwrap_or(&[]);
    digest.add_bytes(normal);
    let normal = ReferenceView::try_from_bytes(normal)?;
    digest.add(u64::from(target == normal));
    Ok(())
}
