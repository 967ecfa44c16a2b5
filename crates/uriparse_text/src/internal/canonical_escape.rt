//! Escapes in canonical spelling: which two digits make one that isn't canonical, whether a text has
//! such an escape, the digits that are upper-cased in place, and the escapes of unreserved bytes,
//! which become shorter. RFC 3986, sections 6.2.2.1 and 6.2.2.2.
ghost use Rattle.std.specs.Int.{bit_at};
ghost use Rattle.std.specs.Prelude.{◌≡◌, ◌≤◌, ◌<◌, ◌+◌, ℕ, drop, false, length, true, ◌≢◌, if◌then◌else◌};
ghost use Rattle.uriparse_text.specs.Bytes.{is_hex};
ghost use Rattle.uriparse_text.specs.Canonical.{canonical_in};
ghost use Rattle.uriparse_text.specs.Escapes as spec;
ghost use Rattle.uriparse_text.specs.declared.internal.token.Case.TheVariants.{Kept};

use super::bits::{lowest, shifted_down, without_lowest};
use super::scan::{ByteTest, Is, by_high, by_low};
use super::token::is_escape;
use std::simd::prelude::*;

// Kinds of digits, one bit each, by the low half and the high half of a byte. Two digits make an
// escape that isn't canonical if they are of one kind, the first as first and the second as second.
//
//   1  `2`, and then `D` or `E`
//   2  `3`, `5` or `7`, and then a decimal digit
//   4  `4` or `6`, and then a decimal digit but `0`
//   8  `5`, and then `A` or `F`
//  16  `7`, and then `A` or `E`
//  32  a lower-case letter, and then a digit that isn't one
//  64  any digit, and then a lower-case letter
// 128  `4` or `6`, and then a letter
const FIRST_LOW: [u8; 16] = [64, 96, 97, 98, 228, 106, 228, 82, 64, 64, 0, 0, 0, 0, 0, 0];

const FIRST_HIGH: [u8; 16] = [0, 0, 0, 223, 64, 0, 96, 0, 0, 0, 0, 0, 0, 0, 0, 0];

const SECOND_LOW: [u8; 16] = [
    34, 254, 230, 230, 231, 247, 238, 38, 38, 38, 0, 0, 0, 0, 0, 0,
];

const SECOND_HIGH: [u8; 16] = [0, 0, 0, 38, 185, 0, 217, 0, 0, 0, 0, 0, 0, 0, 0, 0];

// The high halves without the kinds 32 and 64, which tell of the case of digits alone: two digits of
// one of the other kinds make an escape of an unreserved byte.
const SHRUNK_FIRST_HIGH: [u8; 16] = [0, 0, 0, 159, 0, 0, 0, 0, 0, 0, 0, 0, 0, 0, 0, 0];

const SHRUNK_SECOND_HIGH: [u8; 16] = [0, 0, 0, 6, 153, 0, 153, 0, 0, 0, 0, 0, 0, 0, 0, 0];

/// Whether an escape with these digits is canonical: they are in upper case, and it does not stand
/// for an unreserved byte. Without a branch, since which escapes a text has cannot be guessed.
#[inline(always)]
pub(super) fn is_canonical_escape(high: u8, low: u8) -> bool
    requires high { is_hex high ≡ true }
    requires low { is_hex low ≡ true }
    ensures { result ≡ spec.is_canonical_escape high low }
{
    let first = FIRST_LOW[(high & 15) as usize] & FIRST_HIGH[(high >> 4) as usize];
    let second = SECOND_LOW[(low & 15) as usize] & SECOND_HIGH[(low >> 4) as usize];
    first & second == 0
}

/// Marks those of the sixteen bytes from `at` on that may begin an escape which isn't canonical. A
/// `%` that begins no escape may have a mark, too. Reads the two bytes after them.
#[inline(always)]
pub(super) fn marks_of_changed(text: &[u8], at: usize) -> u64
    requires { at + 18 ≤ length text.now }
    ensures { (k : ℕ) → k < 16 → bit_at result k ≡ 0 → spec.begins_changed (drop (at + k) text.now) ≡ false }
{
    let signs = Is(b'%').marks(u8x16::from_slice(&text[at..]));
    let high = u8x16::from_slice(&text[at + 1..]);
    let low = u8x16::from_slice(&text[at + 2..]);
    let first = by_low(FIRST_LOW, high) & by_high(FIRST_HIGH, high);
    let second = by_low(SECOND_LOW, low) & by_high(SECOND_HIGH, low);
    signs & (first & second).simd_ne(u8x16::splat(0)).to_bitmask()
}

/// Whether each escape is surely canonical: sixteen bytes are tested at once, by the tables of
/// [`is_canonical_escape`]. Escapes need not be told from one another, since no digit is a `%`. The
/// last sixteen bytes may overlap those before them, and the two after them begin no escape.
#[inline(always)]
pub(super) fn lacks_changes(text: &[u8]) -> bool
    requires { 18 ≤ length text.now }
    ensures { result ≡ true → canonical_in Kept text.now ≡ text.now }
{
    let len = text.len();
    let mut at = 0;
    'runs: while len - at > 18 {
        if marks_of_changed(text, at) != 0 {
            return false;
        }
        at += 16;
    }
    marks_of_changed(text, len - 18) == 0
}

/// Upper-cases the digits of the escape that begins at this place, if one does.
#[inline(always)]
fn raise(text: &mut [u8], at: usize)
    requires { length (canonical_in Kept text.old) ≡ length text.old }
    ensures raises { spec.Raises text.old text.new }
    ensures fewer { (k : ℕ) → spec.begins_changed (drop k text.new) ≡ true → (k ≢ at) × (spec.begins_changed (drop k text.old) ≡ true) }
{
    if at < text.len() && is_escape(text[at], &text[at + 1..]) {
        text[at + 1] = text[at + 1].to_ascii_uppercase();
        text[at + 2] = text[at + 2].to_ascii_uppercase();
    }
}

/// Upper-cases the digits of the marked escapes. Bit k marks the place `at + k`.
#[inline(always)]
fn raise_marked(text: &mut [u8], at: usize, marks: u64)
    requires room { at + 16 ≤ length text.old }
    requires whole { length (canonical_in Kept text.old) ≡ length text.old }
    requires marks { spec.AreMarked text.old at marks }
    ensures raises { spec.Raises text.old text.new }
    ensures none { spec.NoneChanged text.new (at + 16) }
{
    let mut left = marks;
    'marks: while left != 0 {
        raise(text, at + lowest(left));
        left = without_lowest(left);
    }
}

/// Turns the text into its canonical spelling, if that is as long: no escape of an unreserved byte is
/// in it. Only escapes that change are looked at one by one; the last sixteen places may overlap those
/// before them.
pub(super) fn raise_digits(text: &mut [u8])
    requires long { 18 ≤ length text.old }
    requires whole { length (canonical_in Kept text.old) ≡ length text.old }
    ensures { text.new ≡ canonical_in Kept text.old }
{
    let len = text.len();
    let mut at = 0;
    'runs: while len - at > 18 {
        let marks = marks_of_changed(text, at);
        raise_marked(text, at, marks);
        at += 16;
    }
    let marks = marks_of_changed(text, len - 18);
    raise_marked(text, len - 18, marks);
}

/// Marks those of the sixteen places from `at` on at which an escape of an unreserved byte begins.
/// Reads the two bytes after them.
#[inline(always)]
fn marks_of_shrunk(text: &[u8], at: usize) -> u64
    requires { at + 18 ≤ length text.now }
    ensures marks { (k : ℕ) → k < 16 → bit_at result k ≡ (if spec.begins_shrunk (drop (at + k) text.now) then 1 else 0) }
    ensures few { (k : ℕ) → 16 ≤ k → bit_at result k ≡ 0 }
{
    let signs = Is(b'%').marks(u8x16::from_slice(&text[at..]));
    if signs == 0 {
        return 0;
    }
    let high = u8x16::from_slice(&text[at + 1..]);
    let low = u8x16::from_slice(&text[at + 2..]);
    let first = by_low(FIRST_LOW, high) & by_high(SHRUNK_FIRST_HIGH, high);
    let second = by_low(SECOND_LOW, low) & by_high(SHRUNK_SECOND_HIGH, low);
    signs & (first & second).simd_ne(u8x16::splat(0)).to_bitmask()
}

/// How many escapes stand for unreserved bytes. Sixteen places are counted at once. Escapes
/// need not be told from one another, since no digit is a `%`, and the last two bytes begin none.
#[inline(always)]
pub(super) fn shrunk_count(text: &[u8]) -> usize
    requires { 18 ≤ length text.now }
    ensures { result ≡ spec.shrunk_count text.now }
{
    let len = text.len();
    let mut count = 0;
    let mut at = 0;
    'runs: while len - at > 18 {
        count += marks_of_shrunk(text, at).count_ones() as usize;
        at += 16;
    }
    let last = shifted_down(marks_of_shrunk(text, len - 18), at - (len - 18));
    count + last.count_ones() as usize
}
