//! A crawler of pages in many languages: their links are percent-encoded UTF-8, in a third of them
//! with small hexadecimal digits. Each link is escaped, decoded, encoded, normalized, compared and
//! hashed, and a relative link with `..` is resolved against a deep page.

use crate::digest::Digest;
use crate::error::JobError;
use crate::letters::{put_deep, put_escaped, put_upward, put_written};
use crate::links::add_normal;
use crate::make::put_like;
use crate::random::Random;
use crate::texts::Texts;
use std::alloc::{AllocError, Global};
use std::hash::{DefaultHasher, Hash, Hasher};
use uriparse::{
    Query, ReferenceView, Segment, URI, URIReference, URIView, escape_invalid, escape_invalid_into,
};

/// Links of the same count in three forms.
#[derive(Drop)]
struct Links {
    /// Absolute links as people write them, and the same links percent-encoded.
    written: Texts,
    encoded: Texts,
    /// Relative links that begin with `..`, percent-encoded.
    upward: Texts,
}

impl Links {
    fn new(alloc: Global) -> Links {
        Links {
            written: Texts::new(alloc),
            encoded: Texts::new(alloc),
            upward: Texts::new(alloc),
        }
    }

    /// Forgets all links.
    fn clear(&mut self) {
        self.written.clear();
        self.encoded.clear();
        self.upward.clear();
    }

    /// Adds a new link as it is written and encoded, and one that leads upward.
    fn put(&mut self, random: &mut Random, plain: &mut Texts) -> Result<(), AllocError> {
        plain.clear();
        put_written(random, plain)?;
        self.written.put(plain.whole())?;
        self.written.end()?;
        put_escaped(plain.whole(), digits(random), &mut self.encoded)?;
        self.encoded.end()?;
        plain.clear();
        put_upward(random, plain)?;
        put_escaped(plain.whole(), digits(random), &mut self.upward)?;
        self.upward.end()
    }

    /// Adds links like one of these; what is written and what is encoded get the same digits.
    fn put_like(&mut self, models: &Links, random: &mut Random) -> Result<(), AllocError> {
        let seed = random.next();
        put_like(&models.written, &mut Random::new(seed), &mut self.written)?;
        self.written.end()?;
        put_like(&models.encoded, &mut Random::new(seed), &mut self.encoded)?;
        self.encoded.end()?;
        put_like(&models.upward, random, &mut self.upward)?;
        self.upward.end()
    }

    /// Replaces all links by 20 like these.
    fn fill(&mut self, models: &Links, random: &mut Random) -> Result<(), AllocError> {
        self.clear();
        for _ in 0..20 {
            self.put_like(models, random)?;
        }
        Ok(())
    }
}

/// Follows the links of `count` pages, of 20 links each.
pub fn languages(
    alloc: Global,
    count: u64,
    random: &mut Random,
    digest: &mut Digest,
) -> Result<(), JobError> {
    let models = link_models(alloc, random)?;
    let pages = page_models(alloc, random)?;
    let mut page = Texts::new(alloc);
    let mut links = Links::new(alloc);
    let mut room = [0; 32_768];
    for _ in 0..count {
        page.clear();
        put_like(&pages, random, &mut page)?;
        links.fill(&models, random)?;
        follow_all(alloc, page.whole(), &links, &mut room, digest)?;
    }
    Ok(())
}

/// The digits of escapes: one text in three has small ones.
fn digits(random: &mut Random) -> &'static [u8; 16] {
    if random.one_in(3) {
        b"0123456789abcdef"
    } else {
        b"0123456789ABCDEF"
    }
}

/// Links of all sizes, for [`Links::fill`].
fn link_models(alloc: Global, random: &mut Random) -> Result<Links, AllocError> {
    let mut models = Links::new(alloc);
    let mut plain = Texts::new(alloc);
    for _ in 0..2_048 {
        models.put(random, &mut plain)?;
    }
    Ok(models)
}

/// Pages, for [`put_like`].
fn page_models(alloc: Global, random: &mut Random) -> Result<Texts, AllocError> {
    let mut models = Texts::new(alloc);
    let mut plain = Texts::new(alloc);
    for _ in 0..256 {
        plain.clear();
        put_deep(random, &mut plain)?;
        put_escaped(plain.whole(), digits(random), &mut models)?;
        models.end()?;
    }
    Ok(models)
}

/// Follows all links of the page.
fn follow_all(
    alloc: Global,
    page: &[u8],
    links: &Links,
    room: &mut [u8],
    digest: &mut Digest,
) -> Result<(), JobError> {
    let base = URI::try_from_bytes(alloc, page)?;
    let base_view = URIView::try_from_bytes(page)?;
    for index in 0..links.encoded.count() {
        rewrite(
            alloc,
            links.written.text(index),
            links.encoded.text(index),
            room,
            digest,
        )?;
        let upward = links.upward.text(index);
        resolve(alloc, &base, upward, digest)?;
        resolve_view(&base_view, upward, room, digest)?;
    }
    Ok(())
}

/// Does what needs no page: escapes what is written, and decodes, encodes and normalizes the link.
fn rewrite(
    alloc: Global,
    written: &[u8],
    link: &[u8],
    room: &mut [u8],
    digest: &mut Digest,
) -> Result<(), JobError> {
    escape(alloc, written, link, room, digest)?;
    decode(alloc, link, room, digest)?;
    normalize(alloc, link, digest)?;
    normalize_view(link, room, digest)
}

/// The hash by std's hasher with its fixed key.
fn hash_of<T: Hash>(value: &T) -> u64 {
    let mut state = DefaultHasher::new();
    value.hash(&mut state);
    state.finish()
}

/// Adds the first bytes of the buffer.
fn add_front(room: &[u8], len: usize, digest: &mut Digest) {
    digest.add_bytes(room.get(..len).unwrap_or(&[]));
}

/// Escapes what is written, as a `String` and in the buffer, and compares it with the link.
fn escape(
    alloc: Global,
    written: &[u8],
    link: &[u8],
    room: &mut [u8],
    digest: &mut Digest,
) -> Result<(), JobError> {
    let text = escape_invalid(alloc, written)?;
    digest.add_bytes(text.as_bytes());
    let len = escape_invalid_into(written, room)?;
    add_front(room, len, digest);
    compare(alloc, text.as_str(), link, digest)
}

/// Compares what was escaped with the link, and hashes that.
fn compare(alloc: Global, text: &str, link: &[u8], digest: &mut Digest) -> Result<(), JobError> {
    let escaped = URI::try_from_str(alloc, text)?;
    let link = URI::try_from_bytes(alloc, link)?;
    digest.add(u64::from(escaped == link));
    digest.add(hash_of(&link));
    Ok(())
}

/// Decodes the segments and encodes them again; the same of the query, in the buffer too.
fn decode(
    alloc: Global,
    link: &[u8],
    room: &mut [u8],
    digest: &mut Digest,
) -> Result<(), JobError> {
    let link = ReferenceView::try_from_bytes(link)?;
    for segment in link.segments() {
        decode_segment(alloc, &segment, digest)?;
    }
    match link.query() {
        Some(query) => decode_query(alloc, &query, room, digest),
        None => Ok(()),
    }
}

/// Decodes the segment and encodes it again.
fn decode_segment(
    alloc: Global,
    segment: &Segment<'_>,
    digest: &mut Digest,
) -> Result<(), JobError> {
    let bytes = segment.decode(alloc)?;
    digest.add_bytes(bytes.as_slice());
    digest.add_bytes(Segment::encode(alloc, bytes.as_slice())?.as_bytes());
    Ok(())
}

/// Decodes the query and encodes it again, as a value and in the buffer.
fn decode_query(
    alloc: Global,
    query: &Query<'_>,
    room: &mut [u8],
    digest: &mut Digest,
) -> Result<(), JobError> {
    let bytes = query.decode(alloc)?;
    digest.add_bytes(Query::encode(alloc, bytes.as_slice())?.as_bytes());
    let len = query.decode_into(room)?;
    add_front(room, len, digest);
    let len = Query::encode_into(bytes.as_slice(), room)?;
    add_front(room, len, digest);
    Ok(())
}

/// Normalizes the link as a value.
fn normalize(alloc: Global, link: &[u8], digest: &mut Digest) -> Result<(), JobError> {
    let mut uri = URI::try_from_bytes(alloc, link)?;
    add_normal(alloc, &mut uri, digest)
}

/// Normalizes the link in the buffer, and compares it with its normal form and hashes it.
fn normalize_view(link: &[u8], room: &mut [u8], digest: &mut Digest) -> Result<(), JobError> {
    let link = ReferenceView::try_from_bytes(link)?;
    let len = link.normalize_into(room)?;
    let normal = room.get(..len).unwrap_or(&[]);
    digest.add_bytes(normal);
    let normal = ReferenceView::try_from_bytes(normal)?;
    digest.add(u64::from(link == normal));
    digest.add(hash_of(&link));
    Ok(())
}

/// Resolves the link against the page as a value.
fn resolve(
    alloc: Global,
    base: &URI<'_>,
    link: &[u8],
    digest: &mut Digest,
) -> Result<(), JobError> {
    let link = URIReference::try_from_bytes(alloc, link)?;
    let target = base.resolve(alloc, &link)?;
    digest.add_bytes(target.to_string(alloc)?.as_bytes());
    Ok(())
}

/// Resolves the link against the page in the buffer.
fn resolve_view(
    base: &URIView<'_>,
    link: &[u8],
    room: &mut [u8],
    digest: &mut Digest,
) -> Result<(), JobError> {
    let link = ReferenceView::try_from_bytes(link)?;
    let len = base.resolve_into(&link, room)?;
    add_front(room, len, digest);
    Ok(())
}
