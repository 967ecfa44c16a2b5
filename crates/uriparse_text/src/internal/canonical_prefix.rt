//! Runs of bytes that are of a class and do not change in a canonical spelling. Most texts are one
//! such run, so reading them also finds that they are canonical.
ghost use Rattle.std.specs.Prelude.{◌≡◌, ◌≤◌, ◌++◌, MatchResult, None, Some, not, length, map, true};
ghost use Rattle.std.specs.List.{position_or_len};
ghost use Rattle.uriparse_text.specs.Faults.{fault, AllFine, IsFaultOffset};
ghost use Rattle.uriparse_text.specs.Spelling as spec;

use super::canonical::MayChange;
use super::class::{Class, Outside, fault_offset};
use super::scan::{ByteTest, first, first_by_one};
use super::token::Case;
use std::simd::prelude::*;

/// The byte isn't of the class, or changes in a canonical spelling.
#[derive(Clone, Copy)]
struct NotCanonical(Class, Case);

impl ByteTest for NotCanonical {
    ghost passes = { λ s b. not (spec.is_canonical_byte s.0 s.1 b) };

    #[inline(always)]
    fn has(&self, b: u8) -> bool {
        !self.0.has(b) || self.1.of(b) != b
    }

    #[inline(always)]
    fn marks(&self, lanes: u8x16) -> u64 {
        let outside = Outside(self.0).marks(lanes);
        match self.1 {
            Case::Kept => outside,
            Case::Lowered => outside | MayChange(self.1).marks(lanes),
        }
    }
}

/// How many leading bytes are of the class and do not change.
#[inline(always)]
pub(super) fn canonical_prefix_len(class: Class, case: Case, text: &[u8]) -> usize
    ensures offset { result ≡ position_or_len (λ b. not (spec.is_canonical_byte class case b)) text.now }
    ensures within { result ≤ length text.now }
{
    if text.len() < 8 {
        first_by_one(&NotCanonical(class, case), text)
    } else {
        canonical_prefix_by_lanes(class, case, text)
    }
}

/// How many leading bytes are of the class and do not change, found sixteen bytes at a time.
#[inline(never)]
fn canonical_prefix_by_lanes(class: Class, case: Case, text: &[u8]) -> usize
    ensures { result ≡ position_or_len (λ b. not (spec.is_canonical_byte class case b)) text.now }
{
    first(&NotCanonical(class, case), text)
}

/// The leading bytes that are of the class and do not change, and what follows them.
#[inline]
pub fn split_canonical_prefix(class: Class, case: Case, bytes: &[u8]) -> (&[u8], &[u8])
    ensures whole { result.0.now ++ result.1.now ≡ bytes.now }
    ensures front { spec.IsValidText class case true result.0.now }
{
    bytes.split_at(canonical_prefix_len(class, case, bytes))
}

/// The place of the leftmost fault, or the length, if the first `len` bytes are canonical.
#[inline(always)]
pub(super) fn fault_following(class: Class, case: Case, text: &[u8], len: usize) -> usize
    requires offset { len ≡ position_or_len (λ b. not (spec.is_canonical_byte class case b)) text.now }
    requires within { len ≤ length text.now }
    ensures { IsFaultOffset class text.now result }
{
    if len == text.len() {
        return len;
    }
    if text[len] != b'%' && !class.has(text[len]) {
        return len;
    }
    fault_after(class, text, len)
}

/// The place of the leftmost fault, or the length, if the first `len` bytes are fine, and an escape
/// or a letter of the other case follows them. A call of its own, since few texts need it.
#[inline(never)]
fn fault_after(class: Class, text: &[u8], len: usize) -> usize
    requires fine { AllFine class text.now 0 len }
    requires within { len ≤ length text.now }
    ensures { IsFaultOffset class text.now result }
{
    len + fault_offset(class, &text[len..])
}

/// Whether a text is known to be canonical, or the byte of its leftmost fault. Walks the text once
/// and does not allocate.
#[inline(always)]
pub fn check_bytes(class: Class, case: Case, text: &[u8]) -> Result<bool, u8>
    ensures { MatchResult result (λ known. (fault class text.now ≡ None) × spec.IsValidText class case known text.now) (λ byte. fault class text.now ≡ Some byte) }
{
    let len = canonical_prefix_len(class, case, text);
    if len == text.len() {
        return Ok(true);
    }
    let offset = fault_following(class, case, text, len);
    if offset < text.len() {
        return Err(text[offset]);
    }
    Ok(false)
}
