//! Makes words of many languages, as people write them and percent-encoded.
ghost use Rattle.std.specs.Prelude.{◌<◌};

use crate::make::put_host;
use crate::random::Random;
use crate::texts::Texts;
use std::alloc::AllocError;

/// A letter of one of twelve scripts, which are ranges of Unicode.
fn letter(script: u64, random: &mut Random) -> char {
    let number = match script {
        0 => 0x61 + random.below(26) as u32,
        1 => 0xE0 + random.below(23) as u32,
        2 => 0x100 + random.below(128) as u32,
        3 => 0x3B1 + random.below(25) as u32,
        4 => 0x430 + random.below(32) as u32,
        5 => 0x5D0 + random.below(27) as u32,
        6 => 0x627 + random.below(20) as u32,
        7 => 0x905 + random.below(50) as u32,
        8 => 0xE01 + random.below(46) as u32,
        9 => 0x3041 + random.below(86) as u32,
        10 => 0x4E00 + random.below(5_000) as u32,
        _ => 0x1F300 + random.below(256) as u32,
    };
    char::from_u32(number).unwrap_or('?')
}

/// Writes a word of two to eight letters of one script.
fn put_letters(random: &mut Random, texts: &mut Texts) -> Result<(), AllocError> {
    let script = random.below(12);
    let mut buffer = [0; 4];
    for _ in 0..random.below(7) + 2 {
        let text = letter(script, random).encode_utf8(&mut buffer);
        texts.put(text.as_bytes())?;
    }
    Ok(())
}

/// Writes one or two words.
fn put_phrase(random: &mut Random, texts: &mut Texts) -> Result<(), AllocError> {
    put_letters(random, texts)?;
    if random.one_in(2) {
        texts.put(random.pick(&[" ", "-", "_", " ", "^", "% "]).as_bytes())?;
        put_letters(random, texts)?;
    }
    Ok(())
}

/// Writes this many segments, each after a slash.
fn put_segments(count: u64, random: &mut Random, texts: &mut Texts) -> Result<(), AllocError> {
    for _ in 0..count {
        texts.put(b"/")?;
        put_phrase(random, texts)?;
    }
    Ok(())
}

/// Writes a query of this many pairs.
fn put_pairs(count: u64, random: &mut Random, texts: &mut Texts) -> Result<(), AllocError> {
    let mut mark: &[u8] = b"?";
    for _ in 0..count {
        texts.put(mark)?;
        put_letters(random, texts)?;
        texts.put(b"=")?;
        put_phrase(random, texts)?;
        mark = b"&";
    }
    Ok(())
}

/// Writes a link as people write it: most have two segments and a pair, one in eight has seven
/// segments and six pairs, and one in 64 has so many that it takes more than 4,096 bytes encoded.
pub fn put_written(random: &mut Random, texts: &mut Texts) -> Result<(), AllocError> {
    let count = match random.below(64) {
        0 => 60,
        1..=8 => 6,
        _ => 1,
    };
    texts.put(b"https://")?;
    put_host(random, 20, texts)?;
    put_segments(count + 1, random, texts)?;
    put_pairs(count, random, texts)
}

/// Writes a page as people write it, with a path of 10 to 40 segments.
pub fn put_deep(random: &mut Random, texts: &mut Texts) -> Result<(), AllocError> {
    texts.put(b"https://")?;
    put_host(random, 20, texts)?;
    put_segments(random.below(31) + 10, random, texts)
}

/// Writes a link as people write it that leads up to twelve folders above its page.
pub fn put_upward(random: &mut Random, texts: &mut Texts) -> Result<(), AllocError> {
    texts.put(b"..")?;
    for _ in 0..random.below(12) {
        texts.put(b"/..")?;
    }
    put_segments(2, random, texts)
}

/// Whether a link may have the byte as it stands; the texts here have no other delimiters.
fn stays(b: u8) -> bool {
    b.is_ascii_alphanumeric()
        || matches!(
            b,
            b'-' | b'.' | b'_' | b':' | b'/' | b'?' | b'=' | b'&' | b'[' | b']'
        )
}

/// Writes the text with an escape for each byte that a link may not have.
pub fn put_escaped(text: &[u8], digits: &[u8; 16], texts: &mut Texts) -> Result<(), AllocError> {
    for b in text {
        if stays(*b) {
            texts.put(&[*b])?;
        } else {
            let high = digits[(b >> 4) as usize];
            let low = digits[(b & 15) as usize];
            texts.put(&[b'%', high, low])?;
        }
    }
    Ok(())
}
