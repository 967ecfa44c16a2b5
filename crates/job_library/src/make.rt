//! Makes references of the kinds that pages, stores and logs have.
ghost use Rattle.std.specs.Prelude.{◌<◌, ◌≤◌};

use crate::random::Random;
use crate::texts::Texts;
use std::alloc::AllocError;

static WORDS: [&str; 64] = [
    "about",
    "account",
    "api",
    "archive",
    "article",
    "assets",
    "blog",
    "book",
    "cart",
    "catalog",
    "category",
    "checkout",
    "comments",
    "contact",
    "css",
    "data",
    "docs",
    "download",
    "edit",
    "en",
    "events",
    "faq",
    "feed",
    "files",
    "forum",
    "gallery",
    "help",
    "home",
    "images",
    "index",
    "item",
    "jobs",
    "js",
    "latest",
    "lib",
    "list",
    "login",
    "map",
    "media",
    "news",
    "order",
    "page",
    "photo",
    "policy",
    "post",
    "press",
    "product",
    "profile",
    "public",
    "reference",
    "report",
    "research",
    "search",
    "section",
    "service",
    "settings",
    "README",
    "v1",
    "static",
    "store",
    "user",
    "wiki",
    "LICENSE",
    "work",
];

static KEYS: [&str; 16] = [
    "q",
    "id",
    "page",
    "lang",
    "sort",
    "utm_source",
    "utm_medium",
    "ref",
    "token",
    "session",
    "from",
    "limit",
    "offset",
    "filter",
    "v",
    "sig",
];

static SUFFIXES: [&str; 8] = [
    ".com", ".org", ".net", ".de", ".co.uk", ".io", ".edu", ".jp",
];

static EXTENSIONS: [&str; 8] = [
    ".html", ".php", ".png", ".css", ".js", ".pdf", ".json", ".tar.gz",
];

/// Escapes in segments and values, some of them not in normal form.
static ESCAPED: [&str; 12] = [
    "%C3%A9t%C3%A9",
    "na%C3%AFve",
    "%E6%97%A5%E6%9C%AC",
    "M%C3%BCnchen",
    "a%20b",
    "50%25",
    "C%2B%2B",
    "%5Bx%5D",
    "x%2Fy",
    "caf%c3%a9",
    "%7Euser",
    "%61bc",
];

static DIGITS: &[u8; 16] = b"0123456789abcdef";

/// Writes the number's lowest hexadecimal digits, the lowest first.
pub fn put_digits(number: u64, count: u64, texts: &mut Texts) -> Result<(), AllocError> {
    let mut rest = number;
    for _ in 0..count {
        texts.put(&[DIGITS[(rest & 15) as usize]])?;
        rest >>= 4;
    }
    Ok(())
}

/// Writes the number's lowest twelve hexadecimal digits, the lowest first.
pub fn put_number(number: u64, texts: &mut Texts) -> Result<(), AllocError> {
    let mut digits = [b'0'; 12];
    let mut rest = number;
    for digit in &mut digits {
        *digit = DIGITS[(rest & 15) as usize];
        rest >>= 4;
    }
    texts.put(&digits)
}

/// Writes one of the models, and digits that no other text has: a new text for little work.
pub fn put_like(models: &Texts, random: &mut Random, texts: &mut Texts) -> Result<(), AllocError> {
    let number = random.next();
    let index = match models.count() as u64 {
        0 => 0,
        count => number % count,
    };
    texts.put(models.text(index as usize))?;
    put_number(number >> 16, texts)
}

/// Writes a port of two to four digits.
fn put_port(random: &mut Random, texts: &mut Texts) -> Result<(), AllocError> {
    texts.put(b":")?;
    for _ in 0..random.below(3) + 2 {
        texts.put(&[DIGITS[(random.below(9) + 1) as usize]])?;
    }
    Ok(())
}

/// Writes one or two words, or one and a number.
pub fn put_word(random: &mut Random, texts: &mut Texts) -> Result<(), AllocError> {
    texts.put(random.pick(&WORDS).as_bytes())?;
    match random.below(6) {
        0 | 1 => {
            texts.put(b"-")?;
            texts.put(random.pick(&WORDS).as_bytes())
        }
        2 => put_digits(random.next(), 4, texts),
        _ => Ok(()),
    }
}

/// Writes a name of a host, one in twelve in upper case.
fn put_name(random: &mut Random, texts: &mut Texts) -> Result<(), AllocError> {
    if random.one_in(12) {
        texts.put(b"WWW.")?;
    } else if random.one_in(3) {
        texts.put(b"www.")?;
    }
    put_word(random, texts)?;
    texts.put(random.pick(&SUFFIXES).as_bytes())
}

/// Writes a host: a name, or in one of `addresses` cases an address.
pub fn put_host(random: &mut Random, addresses: u64, texts: &mut Texts) -> Result<(), AllocError>
    requires { 0 < addresses }
{
    if !random.one_in(addresses) {
        return put_name(random, texts);
    }
    if random.one_in(2) {
        texts.put(b"[2001:db8:")?;
        put_digits(random.next(), 4, texts)?;
        texts.put(b"::")?;
        put_digits(random.next(), 3, texts)?;
        return texts.put(b"]");
    }
    texts.put(b"192.0.")?;
    texts.put(&[DIGITS[(random.below(9) + 1) as usize]])?;
    texts.put(b".1")?;
    texts.put(&[DIGITS[random.below(10) as usize]])
}

/// Writes a segment: one in `escapes` with escapes, one in thirty `..` or `.`.
fn put_segment(random: &mut Random, escapes: u64, texts: &mut Texts) -> Result<(), AllocError>
    requires { 0 < escapes }
{
    if random.one_in(escapes) {
        texts.put(random.pick(&ESCAPED).as_bytes())
    } else if random.one_in(30) {
        texts.put(random.pick(&["..", ".", ".."]).as_bytes())
    } else {
        put_word(random, texts)
    }
}

/// Writes an absolute path of `least` to `most` segments, and an end of the last one.
pub fn put_path(
    random: &mut Random,
    least: u64,
    most: u64,
    escapes: u64,
    texts: &mut Texts,
) -> Result<(), AllocError>
    requires escapes { 0 < escapes }
    requires order { least ≤ most }
    requires bound { most < 100000 }
{
    let count = least + random.below(most - least + 1);
    for _ in 0..count {
        texts.put(b"/")?;
        put_segment(random, escapes, texts)?;
    }
    match random.below(3) {
        _ if count == 0 => Ok(()),
        0 => texts.put(random.pick(&EXTENSIONS).as_bytes()),
        1 => texts.put(b"/"),
        _ => Ok(()),
    }
}

/// Writes a pair's value.
fn put_value(random: &mut Random, texts: &mut Texts) -> Result<(), AllocError> {
    match random.below(8) {
        0 => texts.put(random.pick(&ESCAPED).as_bytes()),
        1 | 2 => put_digits(random.next(), 16, texts),
        3 => put_digits(random.next(), 5, texts),
        _ => put_word(random, texts),
    }
}

/// Writes a query of one to `most` pairs.
pub fn put_query(random: &mut Random, most: u64, texts: &mut Texts) -> Result<(), AllocError>
    requires { 0 < most }
{
    let mut mark: &[u8] = b"?";
    for _ in 0..random.below(most) + 1 {
        texts.put(mark)?;
        texts.put(random.pick(&KEYS).as_bytes())?;
        texts.put(b"=")?;
        put_value(random, texts)?;
        mark = b"&";
    }
    Ok(())
}

/// Writes a fragment in one of eight cases.
pub fn put_fragment(random: &mut Random, texts: &mut Texts) -> Result<(), AllocError> {
    if random.one_in(8) {
        texts.put(b"#")?;
        put_word(random, texts)?;
    }
    Ok(())
}

/// Writes scheme, host and path.
fn put_front(random: &mut Random, texts: &mut Texts) -> Result<(), AllocError> {
    texts.put(
        random
            .pick(&["https", "http", "https", "HTTPS", "https"])
            .as_bytes(),
    )?;
    texts.put(b"://")?;
    put_host(random, 10, texts)?;
    if random.one_in(8) {
        put_port(random, texts)?;
    }
    put_path(random, 1, 5, 12, texts)
}

/// Writes an absolute URI as links have it.
pub fn put_absolute(random: &mut Random, texts: &mut Texts) -> Result<(), AllocError> {
    put_front(random, texts)?;
    if random.one_in(2) {
        put_query(random, 3, texts)?;
    }
    put_fragment(random, texts)
}

/// Writes the URI of a page, with its path's last segment.
pub fn put_page(random: &mut Random, texts: &mut Texts) -> Result<(), AllocError> {
    texts.put(b"https://")?;
    put_host(random, 20, texts)?;
    put_path(random, 2, 5, 20, texts)?;
    texts.put(b"/index.html")
}

/// Writes a link that begins with `../`.
fn put_upward(random: &mut Random, texts: &mut Texts) -> Result<(), AllocError> {
    for _ in 0..random.below(3) + 1 {
        texts.put(b"../")?;
    }
    put_word(random, texts)?;
    put_path(random, 0, 2, 10, texts)
}

/// Writes an address of a person.
fn put_mail(random: &mut Random, texts: &mut Texts) -> Result<(), AllocError> {
    texts.put(b"mailto:")?;
    put_word(random, texts)?;
    texts.put(b".")?;
    put_digits(random.next(), 5, texts)?;
    texts.put(b"@")?;
    put_name(random, texts)
}

/// Writes a link of a page: a third are absolute, a third begin with a slash.
pub fn put_link(random: &mut Random, texts: &mut Texts) -> Result<(), AllocError> {
    match random.below(100) {
        0..=32 => put_absolute(random, texts),
        33..=65 => {
            put_path(random, 1, 4, 12, texts)?;
            put_query(random, 3, texts)
        }
        66..=75 => put_upward(random, texts),
        76..=85 => {
            put_word(random, texts)?;
            put_path(random, 1, 2, 10, texts)
        }
        86..=90 => {
            texts.put(b"#")?;
            put_word(random, texts)?;
            put_digits(random.next(), 6, texts)
        }
        91..=95 => put_query(random, 3, texts),
        _ => put_mail(random, texts),
    }
}

/// Writes a URI as requests have it: with user information, ports, addresses, and queries of up to
/// 20 pairs.
pub fn put_request(random: &mut Random, texts: &mut Texts) -> Result<(), AllocError> {
    texts.put(
        random
            .pick(&["https://", "http://", "ws://", "ftp://"])
            .as_bytes(),
    )?;
    if random.one_in(4) {
        put_word(random, texts)?;
        texts.put(b":s3cret@")?;
    }
    put_host(random, 4, texts)?;
    if random.one_in(2) {
        put_port(random, texts)?;
    }
    put_path(random, 1, 6, 10, texts)?;
    let most = if random.one_in(4) { 20 } else { 4 };
    put_query(random, most, texts)?;
    put_fragment(random, texts)
}
