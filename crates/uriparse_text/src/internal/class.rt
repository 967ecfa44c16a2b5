//! The classes of bytes, by one table of flags, and where the leftmost fault of a text is: RFC 3986,
//! sections 2.2, 2.3 and 3.2.1 to 3.5.
ghost use Rattle.std.specs.Prelude.{◌≡◌, ◌+◌, ◌≤◌, length, not, MatchOption};
ghost use Rattle.uriparse_text.specs.Bytes as spec;
ghost use Rattle.uriparse_text.specs.Classes.{is_plain};
ghost use Rattle.uriparse_text.specs.Faults.{fault, AllFine, AreInDoubt, IsFaultFrom, IsFaultOffset};
ghost use Rattle.uriparse_text.specs.Offset as places;

use super::bits::{lowest, without_lowest, without_triples};
use super::scan::{ByteTest, Is, IsHex, by_high, by_low, marks_of_run, marks_of_short};
use super::token::is_escape;
use std::simd::prelude::*;

/// Which bytes a component may have unescaped. Escapes are allowed in each class.
#[derive(Clone, Copy)]
pub enum Class {
    /// A registered name or a user name: unreserved bytes and sub-delimiters.
    Name,
    /// A password or an address of a later version: the bytes of a name, and `:`.
    UserInfo,
    /// A segment of a path: the bytes of a password, and `@`.
    Segment,
    /// A query or a fragment: the bytes of a segment, `/` and `?`.
    Query,
}

const NAME: u8 = 1;

const USER_INFO: u8 = 2;

const SEGMENT: u8 = 4;

const QUERY: u8 = 8;

const UNRESERVED: u8 = 16;

// The flags of a byte that is in no class.
const X: u8 = 0;

// The flags of `/` and `?`.
const Q: u8 = QUERY;

// The flags of `@`.
const S: u8 = SEGMENT + Q;

// The flags of `:`.
const P: u8 = USER_INFO + S;

// The flags of a sub-delimiter.
const D: u8 = NAME + P;

// The flags of an unreserved byte.
const U: u8 = UNRESERVED + D;

#[rattlefmt::skip]
static FLAGS: [u8; 256] = [
    X, X, X, X, X, X, X, X, X, X, X, X, X, X, X, X,
    X, X, X, X, X, X, X, X, X, X, X, X, X, X, X, X,
    X, D, X, X, D, X, D, D, D, D, D, D, D, U, U, Q,
    U, U, U, U, U, U, U, U, U, U, P, D, X, D, X, Q,
    S, U, U, U, U, U, U, U, U, U, U, U, U, U, U, U,
    U, U, U, U, U, U, U, U, U, U, U, X, X, X, X, U,
    X, U, U, U, U, U, U, U, U, U, U, U, U, U, U, U,
    U, U, U, U, U, U, U, U, U, U, U, X, X, X, U, X,
    X, X, X, X, X, X, X, X, X, X, X, X, X, X, X, X,
    X, X, X, X, X, X, X, X, X, X, X, X, X, X, X, X,
    X, X, X, X, X, X, X, X, X, X, X, X, X, X, X, X,
    X, X, X, X, X, X, X, X, X, X, X, X, X, X, X, X,
    X, X, X, X, X, X, X, X, X, X, X, X, X, X, X, X,
    X, X, X, X, X, X, X, X, X, X, X, X, X, X, X, X,
    X, X, X, X, X, X, X, X, X, X, X, X, X, X, X, X,
    X, X, X, X, X, X, X, X, X, X, X, X, X, X, X, X,
];

/// Whether the byte is a letter, a digit, `-`, `.`, `_` or `~`.
#[inline]
pub fn is_unreserved(b: u8) -> bool
    ensures { result ≡ spec.is_unreserved b }
{
    FLAGS[b as usize] & UNRESERVED != 0
}

impl Class {
    /// Whether texts of this class may have the byte unescaped.
    #[inline]
    pub fn has(self, b: u8) -> bool
        ensures { result ≡ is_plain self b }
    {
        let flag = match self {
            Class::Name => NAME,
            Class::UserInfo => USER_INFO,
            Class::Segment => SEGMENT,
            Class::Query => QUERY,
        };
        FLAGS[b as usize] & flag != 0
    }
}

/// The byte is not in this class.
#[derive(Clone, Copy)]
pub struct Outside(pub Class);

// Eight kinds of bytes, one bit each. A byte is of a kind if both tables have its bit: LOW at the
// byte's low half, HIGH at its high half.
//
//   1  `A` to `O`, `a` to `o`
//   2  `P` to `Z`, `_`
//   4  `p` to `z`, `~`
//   8  `!`, `$`, `&` to `.`
//  16  the digits, `;`, `=`
//  32  `:`
//  64  `@`
// 128  `/`, `?`
const LOW: [u8; 16] = [
    86, 31, 23, 23, 31, 23, 31, 31, 31, 31, 47, 25, 9, 25, 13, 131,
];

const HIGH: [u8; 16] = [0, 0, 136, 176, 65, 2, 1, 4, 0, 0, 0, 0, 0, 0, 0, 0];

impl ByteTest for Outside {
    ghost passes = { λ s b. not (is_plain s.0 b) };

    #[inline(always)]
    fn has(&self, b: u8) -> bool {
        !self.0.has(b)
    }

    #[inline(always)]
    fn marks(&self, lanes: u8x16) -> u64 {
        let kinds: u8 = match self.0 {
            Class::Name => 31,
            Class::UserInfo => 63,
            Class::Segment => 127,
            Class::Query => 255,
        };
        let found = by_low(LOW, lanes) & by_high(HIGH, lanes) & u8x16::splat(kinds);
        found.simd_eq(u8x16::splat(0)).to_bitmask()
    }
}

/// The place of the leftmost fault, the first byte at which no token of the class begins, or the
/// length. The byte there is a `%` if an escape is broken. Walks the text once, sixteen bytes at a
/// time.
#[inline]
pub(super) fn fault_offset(class: Class, text: &[u8]) -> usize
    ensures { IsFaultOffset class text.now result }
{
    if text.len() < 8 {
        fault_by_one(class, text)
    } else if text.len() < 16 {
        fault_of_short(class, text)
    } else {
        fault_by_runs(class, text)
    }
}

/// The place of the leftmost fault of a short text, or the length, byte by byte. An escape's digits
/// are in each class, so no byte has to be skipped.
#[inline(always)]
fn fault_by_one(class: Class, text: &[u8]) -> usize
    ensures { IsFaultOffset class text.now result }
{
    let mut at = 0;
    'bytes: while at < text.len() {
        let b = text[at];
        if !class.has(b) && !is_escape(b, &text[at + 1..]) {
            return at;
        }
        at += 1;
    }
    at
}

/// The place of the leftmost fault of 8 to 16 bytes, or the length, all at once.
#[inline(never)]
fn fault_of_short(class: Class, text: &[u8]) -> usize
    requires least { 8 ≤ length text.now }
    requires most { length text.now ≤ 16 }
    ensures { IsFaultOffset class text.now result }
{
    let outside = marks_of_short(&Outside(class), text);
    if outside == 0 {
        return text.len();
    }
    let signs = marks_of_short(&Is(b'%'), text);
    let digits = marks_of_short(&IsHex, text);
    let left = without_triples(outside, signs, digits);
    fault_at_marks(class, text, 0, text.len(), left).unwrap_or(text.len())
}

/// The place of the leftmost fault of sixteen bytes or more, or the length. The last run may
/// overlap the one before it.
#[inline(never)]
fn fault_by_runs(class: Class, text: &[u8]) -> usize
    requires { 16 ≤ length text.now }
    ensures { IsFaultOffset class text.now result }
{
    let len = text.len();
    let mut at = 0;
    'runs: while len - at > 16 {
        if let Some(offset) = fault_in(class, text, at, at) {
            return offset;
        }
        at += 16;
    }
    fault_in(class, text, len - 16, at).unwrap_or(len)
}

/// The place of the leftmost fault among the sixteen bytes from `at` on, from `from` on.
#[inline(always)]
fn fault_in(class: Class, text: &[u8], at: usize, from: usize) -> Option<usize>
    requires least { at ≤ from }
    requires most { from ≤ at + 16 }
    requires room { at + 16 ≤ length text.now }
    ensures { MatchOption result (AllFine class text.now from (at + 16)) (λ offset. IsFaultFrom class text.now from offset) }
{
    let outside = marks_of_run(&Outside(class), text, at, from);
    if outside == 0 {
        return None;
    }
    let signs = marks_of_run(&Is(b'%'), text, at, from);
    let digits = marks_of_run(&IsHex, text, at, from);
    let left = without_triples(outside, signs, digits);
    fault_at_marks(class, text, from, at + 16 - from, left)
}

/// The place of the leftmost fault among the next bytes, of which those without a mark are fine.
#[inline(always)]
fn fault_at_marks(class: Class, text: &[u8], from: usize, len: usize, marks: u64) -> Option<usize>
    requires short { len ≤ 16 }
    requires room { from + len ≤ length text.now }
    requires marks { AreInDoubt class text.now from len marks }
    ensures { MatchOption result (AllFine class text.now from (from + len)) (λ offset. IsFaultFrom class text.now from offset) }
{
    let mut left = marks;
    'marks: while left != 0 {
        let k = lowest(left);
        if !is_escape(text[from + k], &text[from + k + 1..]) {
            return Some(from + k);
        }
        left = without_lowest(left);
    }
    None
}

/// The place of the leftmost fault, the first byte at which no token of the class begins, or the
/// length if there is none. The byte there is a `%` if an escape is broken.
pub fn offset_of_fault(class: Class, text: &[u8]) -> usize
    ensures offset { result ≡ places.fault_offset class text.now }
    ensures within { result ≤ length text.now }
{
    fault_offset(class, text)
}
