//! Whether two texts have one canonical spelling, and which of two is less by it: RFC 3986, sections
//! 6.2.2.1 and 6.2.2.2. Equal bytes are skipped sixteen at a time; tokens are read only where the
//! texts differ.
ghost use Rattle.std.specs.Cmp.Lexicographic.{slice_cmp};
ghost use Rattle.std.specs.Int.{bit_at};
ghost use Rattle.std.specs.Ordering.{nat_cmp};
ghost use Rattle.std.specs.Prelude.{◌≡◌, ◌↔◌, ◌+◌, ◌<◌, ◌≤◌, ◌∷◌, ◌==◌, [], ℕ, IsTrue, IfSome, MatchOption, Some, None, true, false, if◌then◌else◌, bytes_eq, length, slice_index};
ghost use Rattle.uriparse_text.specs.Alike.{AreCommon, Follow, token_of, rank_of};
ghost use Rattle.uriparse_text.specs.Bytes.{percent};
ghost use Rattle.uriparse_text.specs.Canonical as spec;
ghost use Rattle.uriparse_text.specs.Canonical.{canonical_in};
ghost use Rattle.uriparse_text.specs.Coding.{decoded};
ghost use Rattle.uriparse_text.specs.Tokens as tokens;
ghost use Rattle.uriparse_text.specs.Tokens.{is_well_formed};

use super::bits::lowest;
use super::class::is_unreserved;
use super::token::{Case, is_escape, octet_of};
use std::cmp::Ordering;
use std::simd::prelude::*;

/// Whether the bytes are tokens whose canonical spelling is the text's.
#[inline]
pub fn same_spelling(case: Case, bytes: &[u8], text: &[u8]) -> bool
    requires { tokens.is_well_formed text.now ≡ true }
    ensures { IsTrue result ↔ spec.SpellsAlike case bytes.now text.now }
{
    bytes == text || same_tokens(case, bytes, text)
}

/// Whether two texts have the same canonical tokens.
#[inline(never)]
fn same_tokens(case: Case, bytes: &[u8], text: &[u8]) -> bool
    ensures { IsTrue result ↔ (spec.canonical_tokens case bytes.now ≡ spec.canonical_tokens case text.now) }
{
    let (mut left, mut right) = after_common(bytes, text);
    'tokens: while let Some((x, after_x)) = split_code(case, left) {
        let Some((y, after_y)) = split_code(case, right) else {
            return false;
        };
        if x != y {
            return false;
        }
        let (later_x, later_y) = after_common(after_x, after_y);
        left = later_x;
        right = later_y;
    }
    right.is_empty()
}

/// What follows the bytes that two texts have in common and that are no `%`. If escapes follow one
/// another there is nothing to compare.
#[inline(always)]
pub(super) fn after_common<'l, 'r>(left: &'l [u8], right: &'r [u8]) -> (&'l [u8], &'r [u8])
    ensures same { (case : Case) → (spec.canonical_tokens case result.0.now ≡ spec.canonical_tokens case result.1.now) ↔ (spec.canonical_tokens case left.now ≡ spec.canonical_tokens case right.now) }
    ensures represents { bytes_eq (decoded result.0.now) result.1.now ≡ bytes_eq (decoded left.now) right.now }
    ensures compared { slice_cmp nat_cmp (decoded result.0.now) (decoded result.1.now) ≡ slice_cmp nat_cmp (decoded left.now) (decoded right.now) }
    ensures front { (case : Case) → Follow case left.now right.now result.0.now result.1.now }
    ensures shorter { length result.0.now ≤ length left.now }
{
    if left.first() == Some(&b'%') {
        return (left, right);
    }
    let common = common_run(left, right);
    (&left[common..], &right[common..])
}

/// The number of leading bytes that are the same in both texts, none of them `%`.
#[inline(always)]
fn common_run(left: &[u8], right: &[u8]) -> usize
    ensures within { (result ≤ length left.now) × (result ≤ length right.now) }
    ensures common { AreCommon left.now right.now result }
{
    let len = left.len().min(right.len());
    let mut at = 0;
    'runs: while len - at >= 16 {
        let marks = marks_of_pair::<16>(left, right, at);
        if marks != 0 {
            return at + lowest(marks);
        }
        at += 16;
    }
    if len - at >= 8 {
        let marks = marks_of_pair::<8>(left, right, at);
        if marks != 0 {
            return at + lowest(marks);
        }
        at += 8;
    }
    common_by_one(left, right, at)
}

/// Marks those of the next bytes that differ or are `%`.
#[inline(always)]
fn marks_of_pair<const N: usize>(left: &[u8], right: &[u8], at: usize) -> u64
    requires some { 0 < N }
    requires few { N ≤ 64 }
    requires left { at + N ≤ length left.now }
    requires right { at + N ≤ length right.now }
    ensures within { (k : ℕ) → bit_at result k ≡ 1 → k < N }
    ensures common { (k : ℕ) → k < N → bit_at result k ≡ 0 → (slice_index left.now (at + k) ≡ slice_index right.now (at + k)) × ((slice_index left.now (at + k) == percent) ≡ false) }
{
    let x = Simd::<u8, N>::from_slice(&left[at..]);
    let y = Simd::<u8, N>::from_slice(&right[at..]);
    x.simd_ne(y).to_bitmask() | x.simd_eq(Simd::splat(b'%')).to_bitmask()
}

/// The number of leading bytes that are the same in both texts, none of them `%`, byte by byte from
/// a place up to which they are known to be.
#[inline(always)]
fn common_by_one(left: &[u8], right: &[u8], from: usize) -> usize
    requires left { from ≤ length left.now }
    requires right { from ≤ length right.now }
    requires common { AreCommon left.now right.now from }
    ensures within { (result ≤ length left.now) × (result ≤ length right.now) }
    ensures common { AreCommon left.now right.now result }
{
    let mut at = from;
    'bytes: while at < left.len() && at < right.len() {
        if left[at] != right[at] || left[at] == b'%' {
            return at;
        }
        at += 1;
    }
    at
}

/// The code of the first token's canonical form, and what follows that token.
#[inline(always)]
pub(super) fn split_code(case: Case, text: &[u8]) -> Option<(u16, &[u8])>
    ensures cut { MatchOption result (text.now ≡ []) (λ x. spec.canonical_tokens case text.now ≡ token_of x.0 ∷ spec.canonical_tokens case x.1.now) }
    ensures code { IfSome result (λ x. x.0 < 512) }
    ensures shorter { IfSome result (λ x. length x.1.now < length text.now) }
{
    let (&b, after) = text.split_first()?;
    match escaped_byte(b, after) {
        Some(v) => {
            if is_unreserved(v) {
                Some((case.of(v) as u16, &after[2..]))
            } else {
                Some((256 + v as u16, &after[2..]))
            }
        }
        None => Some((case.of(b) as u16, after)),
    }
}

/// The byte that an escape represents, if `b` and the bytes `after` it begin with an escape.
#[inline(always)]
fn escaped_byte(b: u8, after: &[u8]) -> Option<u8>
    ensures { result ≡ (if tokens.is_escape b after.now then Some (spec.escaped_byte (slice_index after.now 0) (slice_index after.now 1)) else None) }
{
    if is_escape(b, after) {
        Some(octet_of(after[0], after[1]))
    } else {
        None
    }
}

/// Compares two texts by the bytes of their canonical spellings, which are not built. Walks both
/// once.
pub fn compare_spelling(case: Case, left: &[u8], right: &[u8]) -> Ordering
    requires left { is_well_formed left.now ≡ true }
    requires right { is_well_formed right.now ≡ true }
    ensures { result ≡ slice_cmp nat_cmp (canonical_in case left.now) (canonical_in case right.now) }
{
    let (mut rest, mut other) = after_common(left, right);
    'tokens: while let Some((x, after)) = split_code(case, rest) {
        let Some((y, later)) = split_code(case, other) else {
            return Ordering::Greater;
        };
        if x != y {
            return rank(x).cmp(&rank(y));
        }
        let (after_both, later_both) = after_common(after, later);
        rest = after_both;
        other = later_both;
    }
    match split_code(case, other) {
        None => Ordering::Equal,
        Some(_) => Ordering::Less,
    }
}

/// A number for a canonical token's code, which is less if the token's bytes are.
#[inline(always)]
fn rank(code: u16) -> u16
    requires { code < 512 }
    ensures { result ≡ rank_of code }
{
    if code < 256 {
        256 * code
    } else {
        256 * b'%' as u16 + (code - 256)
    }
}
