//! Texts of a size or a form that few have: long paths with and without `..`, texts full of escapes,
//! long queries, lists of a thousand edits, rejected texts, and deep trees of files. All but the edits
//! are cut at random from longer texts that are made once.

use crate::digest::Digest;
use crate::error::JobError;
use crate::links::add_normal;
use crate::make::{put_link, put_number, put_query, put_word};
use crate::random::Random;
use crate::texts::Texts;
use std::alloc::{AllocError, Global};
use std::io::Write;
use uriparse::{Edit, Fragment, Query, ReferenceView, URI, URIReference};

/// The long texts that others are cut from.
#[derive(Drop)]
struct Sources {
    /// Segments, each after a slash; the second list has `..` among them.
    path: Texts,
    dotted: Texts,
    /// Letters and escapes, four bytes each.
    escapes: Texts,
    /// Pieces of one to three pairs, each between a `?` and a `&`.
    query: Texts,
}

impl Sources {
    /// The segments, with `..` among them if that is wanted.
    fn path_of(&self, has_dots: bool) -> &Texts {
        if has_dots { &self.dotted } else { &self.path }
    }
}

/// Works on `count` texts of each form.
pub fn awkward(
    alloc: Global,
    count: u64,
    random: &mut Random,
    digest: &mut Digest,
) -> Result<(), JobError> {
    let sources = made_sources(alloc, random)?;
    let mut texts = Texts::new(alloc);
    for number in 0..count {
        let path = sources.path_of(number % 2 == 1);
        each_form(alloc, &sources, path, random, &mut texts, digest)?;
    }
    Ok(())
}

/// Works on one text of each form.
fn each_form(
    alloc: Global,
    sources: &Sources,
    path: &Texts,
    random: &mut Random,
    texts: &mut Texts,
    digest: &mut Digest,
) -> Result<(), JobError> {
    long_path(alloc, path, random, texts, digest)?;
    escapes(alloc, &sources.escapes, random, texts, digest)?;
    long_query(alloc, &sources.query, random, texts, digest)?;
    edits(alloc, random, texts, digest)?;
    faults(&sources.path, random, texts, digest)?;
    trees(alloc, &sources.path, random, texts, digest)
}

/// Makes the long texts, each piece as a text of its own.
fn made_sources(alloc: Global, random: &mut Random) -> Result<Sources, AllocError> {
    Ok(Sources {
        path: made_path(alloc, 0, random)?,
        dotted: made_path(alloc, 8, random)?,
        escapes: made_escapes(alloc, random)?,
        query: made_query(alloc, random)?,
    })
}

/// 30,000 segments, each after a slash; one in `dots` is `..`, or none if that is 0.
fn made_path(alloc: Global, dots: u64, random: &mut Random) -> Result<Texts, AllocError> {
    let mut path = Texts::new(alloc);
    for _ in 0..30_000 {
        path.put(b"/")?;
        if dots > 0 && random.one_in(dots) {
            path.put(b"..")?;
        } else {
            put_word(random, &mut path)?;
        }
        path.end()?;
    }
    Ok(path)
}

/// 30,000 pieces of four bytes.
fn made_escapes(alloc: Global, random: &mut Random) -> Result<Texts, AllocError> {
    let mut escapes = Texts::new(alloc);
    for _ in 0..30_000 {
        escapes.put(
            random
                .pick(&["a%C3", "b%a9", "-%7E", "/%61", "c%2F", "d%25"])
                .as_bytes(),
        )?;
        escapes.end()?;
    }
    Ok(escapes)
}

/// 30,000 pieces of a query, of one to three pairs.
fn made_query(alloc: Global, random: &mut Random) -> Result<Texts, AllocError> {
    let mut query = Texts::new(alloc);
    for _ in 0..30_000 {
        put_query(random, 3, &mut query)?;
        query.put(b"&")?;
        query.end()?;
    }
    Ok(query)
}

/// Writes `count` pieces of the source that follow one another, from a place on that is chosen at
/// random, and a number.
fn put_cut(
    source: &Texts,
    count: usize,
    random: &mut Random,
    texts: &mut Texts,
) -> Result<(), AllocError> {
    let start = random.below(10_000) as usize;
    texts.put(source.run(start, start.saturating_add(count)))?;
    put_number(random.next(), texts)
}

/// A path of 10,000 segments, read, normalized and printed.
fn long_path(
    alloc: Global,
    source: &Texts,
    random: &mut Random,
    texts: &mut Texts,
    digest: &mut Digest,
) -> Result<(), JobError> {
    texts.clear();
    texts.put(b"http://example.com")?;
    put_cut(source, 10_000, random, texts)?;
    let mut uri = URI::try_from_bytes(alloc, texts.whole())?;
    add_normal(alloc, &mut uri, digest)?;
    digest.add(uri.path().segments().len() as u64);
    Ok(())
}

/// A text of 30,000 bytes of which each second token is an escape, normalized and compared.
fn escapes(
    alloc: Global,
    source: &Texts,
    random: &mut Random,
    texts: &mut Texts,
    digest: &mut Digest,
) -> Result<(), JobError> {
    texts.clear();
    texts.put(b"http://example.com/")?;
    put_cut(source, 7_500, random, texts)?;
    let view = ReferenceView::try_from_bytes(texts.whole())?;
    let normal = view.normalize_to_string(alloc)?;
    digest.add_bytes(normal.as_bytes());
    let normal = ReferenceView::try_from_str(normal.as_str())?;
    digest.add(u64::from(view == normal));
    Ok(())
}

/// A query of about 85,000 bytes, of which the names' lengths are added, pairs are dropped, and which
/// is decoded.
fn long_query(
    alloc: Global,
    source: &Texts,
    random: &mut Random,
    texts: &mut Texts,
    digest: &mut Digest,
) -> Result<(), JobError> {
    texts.clear();
    put_cut(source, 2_500, random, texts)?;
    let query = Query::try_from_bytes(texts.whole())?;
    digest.add(sum_of_names(&query));
    add_changed(alloc, &query, digest)
}

/// The sum of the lengths of the names.
fn sum_of_names(query: &Query<'_>) -> u64 {
    let mut sum = 0u64;
    for (name, _) in query.pairs() {
        sum = sum.wrapping_add(name.as_bytes().len() as u64);
    }
    sum
}

/// Drops pairs of the query, and decodes it.
fn add_changed(alloc: Global, query: &Query<'_>, digest: &mut Digest) -> Result<(), JobError> {
    if let Some(rest) = query.without_name(alloc, b"session")? {
        digest.add_bytes(rest.as_bytes());
    }
    digest.add_bytes(query.decode(alloc)?.as_slice());
    Ok(())
}

/// A thousand edits of one reference.
fn edits(
    alloc: Global,
    random: &mut Random,
    texts: &mut Texts,
    digest: &mut Digest,
) -> Result<(), JobError> {
    put_parts(random, texts)?;
    let list = edits_of(alloc, texts)?;
    let mut reference = URIReference::try_from_bytes(alloc, texts.text(0))?;
    digest.add(u64::from(reference.apply_all(alloc, list).is_ok()));
    digest.add_bytes(reference.to_string(alloc)?.as_bytes());
    Ok(())
}

/// The edits of the texts after the first.
fn edits_of<'t>(alloc: Global, texts: &'t Texts) -> Result<Vec<Edit<'t>>, JobError> {
    let mut list = Vec::new(alloc);
    for index in 1..texts.count() {
        let edit = edit_of(index, texts.text(index))?;
        list.push(edit)?;
    }
    Ok(list)
}

/// The edit of this index: it sets the query or the fragment to the text, or normalizes.
fn edit_of(index: usize, text: &[u8]) -> Result<Edit<'_>, JobError> {
    if index % 2 == 0 {
        Ok(Edit::Query(Some(Query::try_from_bytes(text)?)))
    } else if index % 5 == 0 {
        Ok(Edit::Normalize)
    } else {
        Ok(Edit::Fragment(Fragment::try_from_bytes(text).ok()))
    }
}

/// A link, and a thousand texts for its query and its fragment.
fn put_parts(random: &mut Random, texts: &mut Texts) -> Result<(), AllocError> {
    texts.clear();
    put_link(random, texts)?;
    texts.end()?;
    for _ in 0..1_000 {
        texts.put(
            random
                .pick(&["~=%7E", "q=%c3%a9", "id=a&b=c", "x?y", "page=1"])
                .as_bytes(),
        )?;
        put_number(random.next(), texts)?;
        texts.end()?;
    }
    Ok(())
}

/// 100 rejected texts of up to about 4,500 bytes, each asked for its first fault and its place.
fn faults(
    source: &Texts,
    random: &mut Random,
    texts: &mut Texts,
    digest: &mut Digest,
) -> Result<(), JobError> {
    for _ in 0..100 {
        texts.clear();
        texts.put(b"https://example.com")?;
        let count = random.below(500) as usize + 1;
        put_cut(source, count, random, texts)?;
        texts.put(
            random
                .pick(&[" x", "%", "%x0", "\"y", "[", "?a#b#c"])
                .as_bytes(),
        )?;
        if let Some((place, error)) = URIReference::first_fault(texts.whole()) {
            digest.add(place as u64);
            write!(digest, "{error}")?;
        }
    }
    Ok(())
}

/// 20 files of a deep tree, each named relative to another one.
fn trees(
    alloc: Global,
    source: &Texts,
    random: &mut Random,
    texts: &mut Texts,
    digest: &mut Digest,
) -> Result<(), JobError> {
    for _ in 0..20 {
        put_files(source, random, texts)?;
        add_link(alloc, texts.text(0), texts.text(1), digest)?;
    }
    Ok(())
}

/// Writes two files that share folders.
fn put_files(source: &Texts, random: &mut Random, texts: &mut Texts) -> Result<(), AllocError> {
    texts.clear();
    let start = random.below(10_000) as usize;
    let shared = random.below(100) as usize;
    put_file(source, start, shared, random, texts)?;
    put_file(source, start, shared, random, texts)
}

/// Adds the link that leads from one file to the other.
fn add_link(alloc: Global, base: &[u8], file: &[u8], digest: &mut Digest) -> Result<(), JobError> {
    let base = URI::try_from_bytes(alloc, base)?;
    let file = URI::try_from_bytes(alloc, file)?;
    let link = base.relativize(alloc, &file)?;
    digest.add_bytes(link.to_string(alloc)?.as_bytes());
    Ok(())
}

/// A file below `shared` folders from `start` on, and up to 100 others.
fn put_file(
    source: &Texts,
    start: usize,
    shared: usize,
    random: &mut Random,
    texts: &mut Texts,
) -> Result<(), AllocError> {
    texts.put(b"file://")?;
    texts.put(source.run(start, start.saturating_add(shared)))?;
    let own = random.below(100) as usize + 1;
    put_cut(source, own, random, texts)?;
    texts.end()
}
