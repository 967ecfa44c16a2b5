//! A store of schemas: identifiers are read and kept once each, a tenth of them other spellings of
//! earlier ones; then references are resolved against an identifier and looked up.

use crate::digest::Digest;
use crate::error::JobError;
use crate::make::{put_digits, put_number, put_word};
use crate::random::Random;
use crate::texts::Texts;
use std::alloc::{AllocError, Global};
use std::collections::HashSet;
use uriparse::{URI, URIReference};

/// Scheme and host of the schemas.
const HOST: &[u8; 28] = b"https://schemas.example.org/";

/// Keeps `count` identifiers, and looks up as many references.
pub fn registry(
    alloc: Global,
    count: u64,
    random: &mut Random,
    digest: &mut Digest,
) -> Result<(), JobError> {
    let (names, links) = make_schemas(alloc, count, random)?;
    look_up_all(alloc, &names, &links, digest)
}

/// Makes so many identifiers, and as many references.
pub fn make_schemas(
    alloc: Global,
    count: u64,
    random: &mut Random,
) -> Result<(Texts, Texts), AllocError> {
    let seed = random.next();
    let stems = name_stems(alloc, random)?;
    let mut names = Texts::new(alloc);
    put_names(alloc, seed, count, &stems, random, &mut names)?;
    let mut links = Texts::new(alloc);
    for number in 0..count {
        put_reference(seed ^ number, &stems, &mut links)?;
        links.end()?;
    }
    Ok((names, links))
}

/// What identifiers begin with: half of them are schemas of one host.
fn name_stems(alloc: Global, random: &mut Random) -> Result<Texts, AllocError> {
    let mut stems = Texts::new(alloc);
    for _ in 0..4_096 {
        match random.below(4) {
            0 => stems.put(b"urn:uuid:")?,
            1 => stems.put(b"tag:registry.example.org,2024:")?,
            _ => stems.put(HOST)?,
        }
        put_word(random, &mut stems)?;
        stems.put(
            random
                .pick(&["/%C3%A9t%C3%A9-", "-", "/v1/", "/"])
                .as_bytes(),
        )?;
        stems.end()?;
    }
    Ok(stems)
}

/// Makes the identifiers: one in ten spells an earlier one otherwise.
fn put_names(
    alloc: Global,
    seed: u64,
    count: u64,
    stems: &Texts,
    random: &mut Random,
    names: &mut Texts,
) -> Result<(), AllocError> {
    let mut plain = Texts::new(alloc);
    for number in 0..count {
        if number > 0 && random.one_in(10) {
            plain.clear();
            put_name(seed ^ random.below(number), stems, &mut plain)?;
            put_other_spelling(plain.whole(), random, names)?;
        } else {
            put_name(seed ^ number, stems, names)?;
        }
        names.end()?;
    }
    Ok(())
}

/// The stem of the identifier of this number.
fn stem_of(mixed: u64, stems: &Texts) -> &[u8] {
    stems.text((mixed & 4_095) as usize)
}

/// Writes the identifier of this number.
fn put_name(number: u64, stems: &Texts, names: &mut Texts) -> Result<(), AllocError> {
    let mixed = Random::new(number).next();
    names.put(stem_of(mixed, stems))?;
    put_number(mixed >> 12, names)
}

/// Writes a reference from a schema to the identifier of this number, if that is a schema too.
fn put_reference(number: u64, stems: &Texts, links: &mut Texts) -> Result<(), AllocError> {
    let mixed = Random::new(number).next();
    let stem = stem_of(mixed, stems);
    links.put(b"../")?;
    links.put(stem.strip_prefix(HOST.as_slice()).unwrap_or(b"main/"))?;
    put_number(mixed >> 12, links)
}

/// Writes the text with escapes for about one letter or digit in six of those after the first nine
/// bytes.
fn put_other_spelling(
    text: &[u8],
    random: &mut Random,
    names: &mut Texts,
) -> Result<(), AllocError> {
    let (front, rest) = text.split_at(text.len().min(9));
    names.put(front)?;
    let mut follows_percent = 0u8;
    for b in rest {
        follows_percent = if *b == b'%' {
            3
        } else {
            follows_percent.saturating_sub(1)
        };
        if b.is_ascii_alphanumeric() && follows_percent == 0 && random.one_in(6) {
            put_escape(*b, names)?;
        } else {
            names.put(&[*b])?;
        }
    }
    Ok(())
}

/// Writes the byte as an escape with digits in lower case.
fn put_escape(b: u8, names: &mut Texts) -> Result<(), AllocError> {
    names.put(b"%")?;
    put_digits(u64::from(b >> 4), 1, names)?;
    put_digits(u64::from(b), 1, names)
}

/// Keeps the identifiers, and looks up the references.
fn look_up_all(
    alloc: Global,
    names: &Texts,
    links: &Texts,
    digest: &mut Digest,
) -> Result<(), JobError> {
    let mut known = HashSet::new(alloc);
    for index in 0..names.count() {
        keep(alloc, names.text(index), &mut known, digest)?;
    }
    digest.add(known.len() as u64);
    look_up_links(alloc, &known, links, digest)
}

/// Keeps the identifier, and adds whether it is a new one.
fn keep<'n>(
    alloc: Global,
    name: &'n [u8],
    known: &mut HashSet<URI<'n>>,
    digest: &mut Digest,
) -> Result<(), JobError> {
    let name = URI::try_from_bytes(alloc, name)?;
    digest.add(u64::from(known.insert(name)?));
    Ok(())
}

/// Looks up the references.
fn look_up_links(
    alloc: Global,
    known: &HashSet<URI<'_>>,
    links: &Texts,
    digest: &mut Digest,
) -> Result<(), JobError> {
    let schema = URI::try_from_bytes(alloc, b"https://schemas.example.org/main/index.json")?;
    for index in 0..links.count() {
        look_up(alloc, known, &schema, links.text(index), digest)?;
    }
    Ok(())
}

/// Adds whether the reference's target is kept.
fn look_up(
    alloc: Global,
    known: &HashSet<URI<'_>>,
    schema: &URI<'_>,
    link: &[u8],
    digest: &mut Digest,
) -> Result<(), JobError> {
    let target = target_of(alloc, schema, link)?;
    digest.add(u64::from(known.contains(&target)));
    Ok(())
}

/// Resolves the reference against a schema. The target owns its text.
fn target_of(alloc: Global, schema: &URI<'_>, link: &[u8]) -> Result<URI<'static>, JobError> {
    let link = URIReference::try_from_bytes(alloc, link)?;
    let target = schema.resolve(alloc, &link)?;
    Ok(target.into_owned(alloc)?)
}
