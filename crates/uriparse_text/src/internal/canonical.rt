//! Canonical spelling, its length, and the runs of bytes that do not change in it, found sixteen bytes
//! at a time: RFC 3986, sections 6.2.2.1 and 6.2.2.2.
ghost use Rattle.std.specs.List.{position_or_len};
ghost use Rattle.std.specs.Prelude.{◌≡◌, ◌≤◌, ◌++◌, length, map, ◌+◌, true, ◌∷◌, ◌↔◌, ◌<◌, ℕ, List, IsTrue, IfOk, fold, take};
ghost use Rattle.uriparse_text.specs.Canonical as spec;
ghost use Rattle.uriparse_text.specs.Canonical.{canonical_in, canonical_token};
ghost use Rattle.uriparse_text.specs.Tokens.{has_digits, spell};
ghost use Rattle.uriparse_text.specs.declared.internal.token.Case.TheVariants.{Kept};

use super::canonical_escape::{lacks_changes, raise_digits, shrunk_count};
use super::class::is_unreserved;
use super::rewrite::{self, Rewriting, push_rewritten};
use super::scan::{ByteTest, Is, by_high, by_low, first};
use super::token::{Case, Token, first_token, split_token};
use std::alloc::{AllocError, Global};
use std::hash::Hasher;
use std::simd::prelude::*;

/// The byte may change in a canonical spelling.
#[derive(Clone, Copy)]
pub(super) struct MayChange(pub(super) Case);

// The kinds of bytes, one bit each, by the low half and the high half of a byte: 1 `%`, 2 and 4
// upper-case letters.
const CHANGE_LOW: [u8; 16] = [4, 6, 6, 6, 6, 7, 6, 6, 6, 6, 6, 2, 2, 2, 2, 2];

const CHANGE_HIGH: [u8; 16] = [0, 0, 1, 0, 2, 4, 0, 0, 0, 0, 0, 0, 0, 0, 0, 0];

impl ByteTest for MayChange {
    ghost passes = { λ s b. spec.may_change s.0 b };

    #[inline(always)]
    fn has(&self, b: u8) -> bool {
        b == b'%' || self.0.of(b) != b
    }

    #[inline(always)]
    fn marks(&self, lanes: u8x16) -> u64 {
        match self.0 {
            Case::Kept => Is(b'%').marks(lanes),
            Case::Lowered => {
                let found = by_low(CHANGE_LOW, lanes) & by_high(CHANGE_HIGH, lanes);
                found.simd_ne(u8x16::splat(0)).to_bitmask()
            }
        }
    }
}

impl Rewriting for MayChange {
    ghost rewritten = { λ s text. spec.canonical_in s.0 text };

    #[inline(always)]
    fn token(&self, b: u8, after: &[u8]) -> (Token, usize) {
        let (token, more) = first_token(b, after);
        (token.canonical(self.0), more)
    }
}

/// The bytes before the first `%` or letter that changes in the canonical spelling, and the rest.
#[inline(always)]
fn split_run(case: Case, text: &[u8]) -> (&[u8], &[u8])
    ensures whole { text.now ≡ result.0.now ++ result.1.now }
    ensures spelled { spec.canonical_in case text.now ≡ result.0.now ++ spec.canonical_in case result.1.now }
{
    // If escapes follow one another there is nothing to search for.
    if text.first() == Some(&b'%') {
        return (b"", text);
    }
    text.split_at(first(&MayChange(case), text))
}

/// How many bytes fewer the canonical form of a token has: an escape of an unreserved byte becomes
/// that byte.
#[inline(always)]
fn saved(token: Token) -> usize
    requires { has_digits token ≡ true }
    ensures { (case : Case) → result + length (spell (canonical_token case token)) ≡ length (spell token) }
{
    match token {
        Token::Byte(_) => 0,
        Token::Escape(_, _) => { if is_unreserved(token.value()) { 2 } else { 0 } }
    }
}

/// The length of the text's canonical spelling. The case of letters does not change it, so only
/// escapes of unreserved bytes are counted.
pub(super) fn spelling_len(case: Case, text: &[u8]) -> usize
    ensures { result ≡ length (canonical_in case text.now) }
{
    if text.len() < 18 {
        short_spelling_len(case, text)
    } else {
        text.len() - 2 * shrunk_count(text)
    }
}

/// The length of a short text's canonical spelling, escape by escape.
#[inline(always)]
fn short_spelling_len(case: Case, text: &[u8]) -> usize
    ensures { result ≡ length (canonical_in case text.now) }
{
    let mut len = text.len();
    let mut rest = text;
    'pieces: while let Some((&b, after)) = rest.split_first() {
        if b == b'%' {
            let (token, more) = first_token(b, after);
            len -= saved(token);
            rest = &after[more..];
        } else {
            let (_, later) = rewrite::split_run(&MayChange(Case::Kept), rest);
            rest = later;
        }
    }
    len
}

/// Whether escapes are tested and upper-cased sixteen bytes at a time: letters keep their case, and
/// the text is not short. Short texts are walked as quickly.
#[inline(always)]
fn may_raise(case: Case, text: &[u8]) -> bool
    ensures case { result ≡ true → case ≡ Kept }
    ensures long { result ≡ true → 18 ≤ length text.now }
{
    match case {
        Case::Kept => text.len() >= 18,
        Case::Lowered => false,
    }
}

/// Whether the text, which is not short, differs from its canonical spelling of `len` bytes only in
/// lower-case digits: letters keep their case, and no escape becomes a byte.
#[inline(always)]
pub(super) fn only_raises(case: Case, text: &[u8], len: usize) -> bool
    ensures case { result ≡ true → case ≡ Kept }
    ensures long { result ≡ true → 18 ≤ length text.now }
    ensures whole { result ≡ true → len ≡ length text.now }
{
    may_raise(case, text) && len == text.len()
}

/// How many bytes a hasher is fed at a time.
const BLOCK: usize = 64;

/// Feeds bytes to the hasher.
#[inline]
fn feed_bytes<H: Hasher>(bytes: &[u8], state: &mut H)
    ensures { state.new ≡ fold H.write state.old (spec.fed_bytes bytes.now) }
{
    let (blocks, last) = bytes.as_chunks::<BLOCK>();
    for block in blocks {
        state.write(block);
    }
    state.write(last);
}

/// Appends a byte to the `len` bytes that wait in the block, and feeds the hasher the block once it
/// is full. Returns how many bytes wait then.
#[inline]
fn hold<H: Hasher>(b: u8, block: &mut [u8; BLOCK], len: usize, state: &mut H) -> usize
    requires { len < 64 }
    ensures few { result < 64 }
    ensures fed { (later : List ℕ) → fold H.write state.new (spec.fed_bytes (take result block.new ++ later)) ≡ fold H.write state.old (spec.fed_bytes (take len block.old ++ b ∷ later)) }
{
    block[len] = b;
    if len + 1 < BLOCK {
        return len + 1;
    }
    state.write(block);
    0
}

/// Appends the bytes of a token to those that wait in the block, as [`hold`] does with a byte.
#[inline]
fn hold_token<H: Hasher>(token: Token, block: &mut [u8; BLOCK], len: usize, state: &mut H) -> usize
    requires { len < 64 }
    ensures few { result < 64 }
    ensures fed { (later : List ℕ) → fold H.write state.new (spec.fed_bytes (take result block.new ++ later)) ≡ fold H.write state.old (spec.fed_bytes (take len block.old ++ (spell token ++ later))) }
{
    match token {
        Token::Byte(b) => hold(b, block, len, state),
        Token::Escape(high, low) => {
            let len = hold(b'%', block, len, state);
            let len = hold(high, block, len, state);
            hold(low, block, len, state)
        }
    }
}

/// Feeds the bytes of a text's canonical spelling to the hasher, token by token.
#[inline(never)]
fn feed_tokens<H: Hasher>(case: Case, text: &[u8], state: &mut H)
    ensures { state.new ≡ fold H.write state.old (spec.fed_bytes (spec.canonical_in case text.now)) }
{
    let mut block = [0u8; BLOCK];
    let mut len = 0;
    let mut rest = text;
    'tokens: while let Some((token, after)) = split_token(rest) {
        len = hold_token(token.canonical(case), &mut block, len, state);
        rest = after;
    }
    state.write(&block[..len]);
}

/// Feeds the bytes of the text's canonical spelling to the hasher, sixty-four at a time, and then
/// the remaining ones. A canonical text is fed as it is.
#[inline]
pub fn feed_spelling<H: Hasher>(case: Case, text: &[u8], state: &mut H)
    ensures { state.new ≡ fold H.write state.old (spec.fed_bytes (spec.canonical_in case text.now)) }
{
    if is_canonical(case, text) {
        feed_bytes(text, state);
    } else {
        feed_tokens(case, text, state);
    }
}

/// Feeds the bytes of the text's canonical spelling to the hasher, and then 0xFF.
#[inline]
pub fn feed_text<H: Hasher>(case: Case, text: &[u8], state: &mut H)
    ensures { state.new ≡ fold H.write state.old (spec.fed_text (spec.canonical_in case text.now)) }
{
    feed_spelling(case, text, state);
    state.write_u8(0xff);
}

/// Feeds the bytes of a text that is known to be canonical to the hasher, and then 0xFF.
#[inline]
pub(super) fn feed_known<H: Hasher>(text: &[u8], state: &mut H)
    ensures { state.new ≡ fold H.write state.old (spec.fed_text text.now) }
{
    feed_bytes(text, state);
    state.write_u8(0xff);
}

/// Whether the text is its own canonical spelling. Most texts are one run of bytes that do not
/// change.
#[inline]
pub fn is_canonical(case: Case, text: &[u8]) -> bool
    ensures { IsTrue result ↔ (spec.canonical_in case text.now ≡ text.now) }
{
    let (_, rest) = split_run(case, text);
    if rest.is_empty() {
        return true;
    }
    begins_canonical(case, rest)
}

/// Whether the text, which may begin with a token that isn't canonical, is its own canonical
/// spelling. Most escapes are canonical, so all are tested at once before they are walked. A
/// separate call keeps the inlined test before it small.
#[inline(never)]
fn begins_canonical(case: Case, text: &[u8]) -> bool
    ensures { IsTrue result ↔ (spec.canonical_in case text.now ≡ text.now) }
{
    is_kept_whole(case, text) || walks_canonical(case, text)
}

/// Whether a text surely has no escape that changes, and its letters keep their case.
#[inline(always)]
fn is_kept_whole(case: Case, text: &[u8]) -> bool
    ensures { result ≡ true → spec.canonical_in case text.now ≡ text.now }
{
    may_raise(case, text) && lacks_changes(text)
}

/// Whether the text is its own canonical spelling, token by token up to the first that isn't.
#[inline(always)]
fn walks_canonical(case: Case, text: &[u8]) -> bool
    ensures { IsTrue result ↔ (spec.canonical_in case text.now ≡ text.now) }
{
    let mut rest = text;
    'tokens: while let Some((token, after)) = split_token(rest) {
        if !token.is_canonical(case) {
            return false;
        }
        let (_, later) = split_run(case, after);
        rest = later;
    }
    true
}

/// The canonical spelling of a text. Reserves capacity once. A text that differs only in lower-case
/// digits is copied whole, and others run by run.
pub fn canonical_bytes(alloc: Global, case: Case, text: &[u8]) -> Result<Vec<u8>, AllocError>
    ensures { IfOk result (λ v. v.items ≡ spec.canonical_in case text.now) }
{
    let mut bytes = Vec::with_capacity(alloc, text.len())?;
    if may_raise(case, text) && only_raises(case, text, spelling_len(case, text)) {
        bytes.extend_from_slice(text)?;
        raise_digits(&mut bytes);
    } else {
        push_rewritten(&mut bytes, &MayChange(case), text)?;
    }
    Ok(bytes)
}
