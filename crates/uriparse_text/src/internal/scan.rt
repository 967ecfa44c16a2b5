//! Searches that test sixteen bytes at a time, for bytes and for pairs of neighbouring bytes.
ghost use Rattle.std.specs.Int.{bit_at};
ghost use Rattle.std.specs.List.{position_or_len};
ghost use Rattle.std.specs.Prelude.{◌≡◌, ◌==◌, ◌+◌, ◌-◌, ◌<◌, ◌≤◌, ◌/◌, ◌||◌, ◌++◌, if◌then◌else◌, ℕ, Bool, map, length, slice_index, bit_and, ◌&&◌};
ghost use Rattle.std.specs.Simd.Lanes.{mask_l, chunk};
ghost use Rattle.uriparse_text.specs.Bytes.{is_hex};
ghost use Rattle.uriparse_text.specs.Marks.{AreMarks};

use super::bits::{joined_ends, lowest, shifted_down};
use std::simd::prelude::*;

/// A test of one byte, and of sixteen at once.
pub trait ByteTest {
    ghost passes: { Self → ℕ → Bool };

    /// Whether the byte passes.
    fn has(&self, b: u8) -> bool
        ensures { result ≡ passes self.now b };

    /// Bit k is set if lane k passes.
    fn marks(&self, lanes: u8x16) -> u64
        ensures { result ≡ mask_l (map (passes self.now) lanes) };
}

/// The byte is this one.
#[derive(Clone, Copy)]
pub struct Is(pub u8);

impl ByteTest for Is {
    ghost passes = { λ s b. b == s.0 };

    #[inline(always)]
    fn has(&self, b: u8) -> bool {
        b == self.0
    }

    #[inline(always)]
    fn marks(&self, lanes: u8x16) -> u64 {
        lanes.simd_eq(u8x16::splat(self.0)).to_bitmask()
    }
}

/// The byte is one of these three.
#[derive(Clone, Copy)]
pub struct IsAny(pub u8, pub u8, pub u8);

#[inline(always)]
fn ones_at(lanes: u8x16, byte: u8) -> u8x16
    ensures { result ≡ map (λ b. if b == byte then 1 else 0) lanes }
{
    lanes
        .simd_eq(u8x16::splat(byte))
        .select(u8x16::splat(1), u8x16::splat(0))
}

impl ByteTest for IsAny {
    ghost passes = { λ s b. b == s.0 || b == s.1 || b == s.2 };

    #[inline(always)]
    fn has(&self, b: u8) -> bool {
        b == self.0 || b == self.1 || b == self.2
    }

    #[inline(always)]
    fn marks(&self, lanes: u8x16) -> u64 {
        let found = ones_at(lanes, self.0) | ones_at(lanes, self.1) | ones_at(lanes, self.2);
        found.simd_ne(u8x16::splat(0)).to_bitmask()
    }
}

#[inline(always)]
pub(super) fn by_low(table: [u8; 16], lanes: u8x16) -> u8x16
    ensures { result ≡ map (λ b. slice_index table (bit_and b 15)) lanes }
{
    u8x16::from_array(table).swizzle_dyn(lanes & u8x16::splat(15))
}

#[inline(always)]
pub(super) fn by_high(table: [u8; 16], lanes: u8x16) -> u8x16
    ensures { result ≡ map (λ b. slice_index table (b / 16)) lanes }
{
    u8x16::from_array(table).swizzle_dyn(lanes >> u8x16::splat(4))
}

/// The byte is a hexadecimal digit.
#[derive(Clone, Copy)]
pub struct IsHex;

// Two kinds of digits, one bit each, by the low half and the high half of a byte: 1 `0` to `9`, 2 `A` to `F` and `a` to `f`.
const HEX_LOW: [u8; 16] = [1, 3, 3, 3, 3, 3, 3, 1, 1, 1, 0, 0, 0, 0, 0, 0];

const HEX_HIGH: [u8; 16] = [0, 0, 0, 1, 2, 0, 2, 0, 0, 0, 0, 0, 0, 0, 0, 0];

impl ByteTest for IsHex {
    ghost passes = { λ _ b. is_hex b };

    #[inline(always)]
    fn has(&self, b: u8) -> bool {
        b.is_ascii_hexdigit()
    }

    #[inline(always)]
    fn marks(&self, lanes: u8x16) -> u64 {
        let found = by_low(HEX_LOW, lanes) & by_high(HEX_HIGH, lanes);
        found.simd_ne(u8x16::splat(0)).to_bitmask()
    }
}

/// The first eight bytes and then the last eight.
#[inline(always)]
fn ends(text: &[u8]) -> u8x16
    requires { 8 ≤ length text.now }
    ensures { result ≡ chunk 0 8 text.now ++ chunk (length text.now - 8) 8 text.now }
{
    let front = u8x8::from_slice(text);
    let back = u8x8::from_slice(&text[text.len() - 8..]);
    front.shuffle(back, [0, 1, 2, 3, 4, 5, 6, 7, 8, 9, 10, 11, 12, 13, 14, 15])
}

/// The marks of a text of 8 to 16 bytes.
#[inline(always)]
pub fn marks_of_short<T: ByteTest>(test: &T, text: &[u8]) -> u64
    requires least { 8 ≤ length text.now }
    requires most { length text.now ≤ 16 }
    ensures { AreMarks (T.passes test.now) text.now 0 (length text.now) result }
{
    joined_ends(test.marks(ends(text)), text.len())
}

/// The marks of the sixteen bytes from `at` on, without those before `from`.
#[inline(always)]
pub fn marks_of_run<T: ByteTest>(test: &T, text: &[u8], at: usize, from: usize) -> u64
    requires least { at ≤ from }
    requires most { from ≤ at + 16 }
    requires room { at + 16 ≤ length text.now }
    ensures { AreMarks (T.passes test.now) text.now from (at + 16 - from) result }
{
    shifted_down(test.marks(u8x16::from_slice(&text[at..])), from - at)
}

/// The place of the first byte that passes, or the length.
#[inline(always)]
pub fn first<T: ByteTest>(test: &T, text: &[u8]) -> usize
    ensures offset { result ≡ position_or_len (T.passes test.now) text.now }
    ensures within { result ≤ length text.now }
{
    let len = text.len();
    if len < 8 {
        first_by_one(test, text)
    } else if len < 16 {
        first_of_short(test, text)
    } else {
        first_by_runs(test, text)
    }
}

/// The place of the first of 8 to 16 bytes that passes, or the length, all at once.
#[inline(always)]
fn first_of_short<T: ByteTest>(test: &T, text: &[u8]) -> usize
    requires least { 8 ≤ length text.now }
    requires most { length text.now ≤ 16 }
    ensures { result ≡ position_or_len (T.passes test.now) text.now }
{
    let marks = marks_of_short(test, text);
    if marks == 0 {
        return text.len();
    }
    lowest(marks)
}

/// The place of the first of sixteen bytes or more that passes, or the length. The last run may
/// overlap the one before it.
#[inline(always)]
fn first_by_runs<T: ByteTest>(test: &T, text: &[u8]) -> usize
    requires { 16 ≤ length text.now }
    ensures { result ≡ position_or_len (T.passes test.now) text.now }
{
    let len = text.len();
    let mut at = 0;
    'blocks: while len - at > 16 {
        let found = first_in(test, text, at);
        if found < 16 {
            return at + found;
        }
        at += 16;
    }
    len - 16 + first_in(test, text, len - 16)
}

/// The marks of the next sixteen bytes, or of the remaining ones, and how many bytes those are.
#[inline(always)]
pub fn next_mask<T: ByteTest>(test: &T, text: &[u8], at: usize) -> (u64, usize)
    requires { at ≤ length text.now }
    ensures marks { AreMarks (T.passes test.now) text.now at result.1 result.0 }
    ensures room { at + result.1 ≤ length text.now }
    ensures some { at < length text.now → 0 < result.1 }
    ensures few { result.1 ≤ 16 }
{
    let len = text.len();
    if len - at >= 16 {
        (marks_of_run(test, text, at, at), 16)
    } else if len >= 16 {
        (marks_of_run(test, text, len - 16, at), len - at)
    } else if len >= 8 {
        (shifted_down(marks_of_short(test, text), at), len - at)
    } else {
        (marks_by_one(test, text, at), len - at)
    }
}

/// The marks by two tests of the next sixteen bytes, or of the remaining ones, and how many bytes
/// those are.
#[inline(always)]
pub fn next_mask_by_two<T: ByteTest, U: ByteTest>(
    test: &T,
    other: &U,
    text: &[u8],
    at: usize,
) -> (u64, u64, usize)
    requires { at ≤ length text.now }
    ensures marks { AreMarks (T.passes test.now) text.now at result.2 result.0 }
    ensures others { AreMarks (U.passes other.now) text.now at result.2 result.1 }
    ensures room { at + result.2 ≤ length text.now }
    ensures some { at < length text.now → 0 < result.2 }
    ensures few { result.2 ≤ 16 }
{
    let len = text.len();
    if len - at >= 16 {
        (
            marks_of_run(test, text, at, at),
            marks_of_run(other, text, at, at),
            16,
        )
    } else if len >= 16 {
        let marks = marks_of_run(test, text, len - 16, at);
        (marks, marks_of_run(other, text, len - 16, at), len - at)
    } else if len >= 8 {
        let marks = shifted_down(marks_of_short(test, text), at);
        let others = shifted_down(marks_of_short(other, text), at);
        (marks, others, len - at)
    } else {
        let (marks, others) = marks_by_one_by_two(test, other, text, at);
        (marks, others, len - at)
    }
}

/// The marks of a short text's bytes from a place on, byte by byte.
#[inline(always)]
fn marks_by_one<T: ByteTest>(test: &T, text: &[u8], from: usize) -> u64
    requires few { length text.now ≤ 16 }
    requires within { from ≤ length text.now }
    ensures { AreMarks (T.passes test.now) text.now from (length text.now - from) result }
{
    let mut marks: u64 = 0;
    let mut at = text.len();
    'bytes: while at > from {
        at -= 1;
        marks *= 2;
        if test.has(text[at]) {
            marks += 1;
        }
    }
    marks
}

/// The marks by two tests of a short text's bytes from a place on, byte by byte.
#[inline(always)]
fn marks_by_one_by_two<T: ByteTest, U: ByteTest>(
    test: &T,
    other: &U,
    text: &[u8],
    from: usize,
) -> (u64, u64)
    requires few { length text.now ≤ 16 }
    requires within { from ≤ length text.now }
    ensures marks { AreMarks (T.passes test.now) text.now from (length text.now - from) result.0 }
    ensures others { AreMarks (U.passes other.now) text.now from (length text.now - from) result.1 }
{
    let mut marks: u64 = 0;
    let mut others: u64 = 0;
    let mut at = text.len();
    'bytes: while at > from {
        at -= 1;
        let b = text[at];
        marks *= 2;
        if test.has(b) {
            marks += 1;
        }
        others *= 2;
        if other.has(b) {
            others += 1;
        }
    }
    (marks, others)
}

/// The place of the first byte of a short text that passes, or the length, byte by byte.
#[inline(always)]
pub(super) fn first_by_one<T: ByteTest>(test: &T, text: &[u8]) -> usize
    ensures { result ≡ position_or_len (T.passes test.now) text.now }
{
    let mut at = 0;
    'bytes: while at < text.len() {
        if test.has(text[at]) {
            return at;
        }
        at += 1;
    }
    at
}

/// How many of these sixteen bytes precede the first that passes.
#[inline(always)]
fn first_in<T: ByteTest>(test: &T, text: &[u8], at: usize) -> usize
    requires { at + 16 ≤ length text.now }
    ensures { result ≡ position_or_len (T.passes test.now) (chunk at 16 text.now) }
{
    let marks = test.marks(u8x16::from_slice(&text[at..]));
    if marks == 0 {
        return 16;
    }
    marks.trailing_zeros() as usize
}

/// Marks those of the sixteen bytes from `at` on that pass `later` right after a byte that passes
/// `earlier`. Without one of these, the others are not tested.
#[inline(always)]
pub fn marks_of_pairs<T: ByteTest, U: ByteTest>(
    earlier: &T,
    later: &U,
    text: &[u8],
    at: usize,
) -> u64
    requires after { 0 < at }
    requires room { at + 16 ≤ length text.now }
    ensures others { (k : ℕ) → 16 ≤ k → bit_at result k ≡ 0 }
    ensures marks { (k : ℕ) → k < 16 → bit_at result k ≡ (if T.passes earlier.now (slice_index text.now (at - 1 + k)) && U.passes later.now (slice_index text.now (at + k)) then 1 else 0) }
{
    let before = marks_of_run(earlier, text, at - 1, at - 1);
    if before == 0 {
        return 0;
    }
    before & marks_of_run(later, text, at, at)
}
