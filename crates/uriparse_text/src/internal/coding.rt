//! Decoding texts to bytes, encoding bytes as texts, and escaping what a text may not have: RFC
//! 3986, section 2.
ghost use Rattle.std.specs.Prelude.{◌≡◌, [], ◌∷◌, ◌++◌, ◌||◌, ◌==◌, bytes_eq, not, IfOk, IfSome, OnOk, true};
ghost use Rattle.std.specs.Cmp.Lexicographic.{slice_cmp};
ghost use Rattle.std.specs.List.{starts_with};
ghost use Rattle.std.specs.Ordering.{nat_cmp};
ghost use Rattle.uriparse_text.specs.Bytes.{is_among, percent, plus_sign};
ghost use Rattle.uriparse_text.specs.Classes.{is_plain};
ghost use Rattle.uriparse_text.specs.Coding.{are_bytes, decoded, encoded, encoded_without, escape_of, escaped_in, form_decoded, form_value_of, value_of};
ghost use Rattle.uriparse_text.specs.declared.internal.token.Token.TheVariants.{Escape};
ghost use Rattle.uriparse_text.specs.Tokens.{has_digits, is_escape};

use super::class::{Class, Outside};
use super::equivalence::after_common;
use super::rewrite::{Rewriting, push_rewritten};
use super::scan::{ByteTest, Is, next_mask};
use super::token::{
    Token, are_hex_digits, first_token, is_escape, octet_of, split_token, upper_digit,
};
use std::alloc::{AllocError, Global};
use std::cmp::Ordering;
use std::simd::prelude::*;

impl Token {
    /// The byte that the token represents.
    #[inline]
    pub(super) fn value(self) -> u8
        requires { has_digits self ≡ true }
        ensures { result ≡ value_of self }
    {
        match self {
            Token::Byte(b) => b,
            Token::Escape(high, low) => octet_of(high, low),
        }
    }

    /// The byte that the token represents in the text of a form: a `+` is a space.
    #[inline]
    fn form_value(self) -> u8
        requires { has_digits self ≡ true }
        ensures { result ≡ form_value_of self }
    {
        match self {
            Token::Byte(b'+') => b' ',
            _ => self.value(),
        }
    }

    /// The escape that represents a byte, in upper case.
    #[inline]
    fn escaping(b: u8) -> Token
        ensures { result ≡ escape_of b }
    {
        Token::Escape(upper_digit(b / 16), upper_digit(b % 16))
    }
}

/// The byte that an escape of these three bytes represents, if they are one.
#[inline(always)]
fn byte_of_escape(b: u8, high: u8, low: u8) -> Option<u8>
    ensures { IfSome result (λ value. (is_escape b (high ∷ low ∷ []) ≡ true) × (value ≡ value_of (Escape high low))) }
{
    if b == b'%' && are_hex_digits(high, low) {
        Some(octet_of(high, low))
    } else {
        None
    }
}

/// Decoding: an escape becomes the byte that it represents.
#[derive(Clone, Copy)]
pub(super) struct Decoding;

impl ByteTest for Decoding {
    ghost passes = { λ _ b. b == percent };

    #[inline(always)]
    fn has(&self, b: u8) -> bool {
        b == b'%'
    }

    #[inline(always)]
    fn marks(&self, lanes: u8x16) -> u64 {
        Is(b'%').marks(lanes)
    }
}

impl Rewriting for Decoding {
    ghost rewritten = { λ _ text. decoded text };

    #[inline(always)]
    fn escaped_byte(&self, b: u8, high: u8, low: u8) -> Option<u8> {
        byte_of_escape(b, high, low)
    }

    #[inline(always)]
    fn token(&self, b: u8, after: &[u8]) -> (Token, usize) {
        let (token, more) = first_token(b, after);
        (Token::Byte(token.value()), more)
    }
}

/// The bytes that the text's tokens represent. Walks the text once and reserves capacity once.
pub fn decoded_bytes(alloc: Global, text: &[u8]) -> Result<Vec<u8>, AllocError>
    ensures { IfOk result (λ v. v.items ≡ decoded text.now) }
{
    let mut bytes = Vec::with_capacity(alloc, text.len())?;
    push_rewritten(&mut bytes, &Decoding, text)?;
    Ok(bytes)
}

/// Whether the text's tokens represent these bytes. Walks both once; bytes that they have in common
/// are passed sixteen at a time.
pub fn represents(text: &[u8], bytes: &[u8]) -> bool
    ensures { result ≡ bytes_eq (decoded text.now) bytes.now }
{
    let (mut rest, mut left) = after_common(text, bytes);
    'tokens: while let Some((token, after)) = split_token(rest) {
        let Some((&b, later)) = left.split_first() else {
            return false;
        };
        if token.value() != b {
            return false;
        }
        let (after_both, later_both) = after_common(after, later);
        rest = after_both;
        left = later_both;
    }
    left.is_empty()
}

/// Compares the bytes that two texts represent. Walks both once; bytes that they have in common are
/// passed sixteen at a time.
pub fn compare_represented(text: &[u8], other: &[u8]) -> Ordering
    ensures { result ≡ slice_cmp nat_cmp (decoded text.now) (decoded other.now) }
{
    let (mut rest, mut left) = after_common(text, other);
    'tokens: while let Some((token, after)) = split_token(rest) {
        let Some((next, later)) = split_token(left) else {
            return Ordering::Greater;
        };
        match token.value().cmp(&next.value()) {
            Ordering::Equal => {}
            order => return order,
        }
        let (after_both, later_both) = after_common(after, later);
        rest = after_both;
        left = later_both;
    }
    match split_token(left) {
        None => Ordering::Equal,
        Some(_) => Ordering::Less,
    }
}

/// Whether the bytes that the text represents begin with those that the prefix represents. Walks no
/// more of the text than of the prefix.
pub fn represents_prefix(text: &[u8], prefix: &[u8]) -> bool
    ensures { result ≡ starts_with (λ b c. b == c) (decoded text.now) (decoded prefix.now) }
{
    let mut rest = text;
    let mut left = prefix;
    'tokens: while let Some((next, later)) = split_token(left) {
        let Some((token, after)) = split_token(rest) else {
            return false;
        };
        if next.value() != token.value() {
            return false;
        }
        rest = after;
        left = later;
    }
    true
}

/// The text that represents the bytes. Walks them once and reserves capacity once: three bytes for
/// each, as an escape needs.
pub(super) fn encoded_bytes(
    alloc: Global,
    class: Class,
    bytes: &[u8],
) -> Result<Vec<u8>, AllocError>
    ensures text { IfOk result (λ v. v.items ≡ encoded class bytes.now) }
    ensures bytes { IfOk result (λ _. are_bytes bytes.now ≡ true) }
{
    let mut text = Vec::with_capacity(alloc, bytes.len().saturating_mul(3))?;
    push_rewritten(&mut text, &EncodingWithout(class, b""), bytes)?;
    Ok(text)
}

/// Decoding of the text of a form: a `+` becomes a space, too.
#[derive(Clone, Copy)]
struct FormDecoding;

impl ByteTest for FormDecoding {
    ghost passes = { λ _ b. b == percent || b == plus_sign };

    #[inline(always)]
    fn has(&self, b: u8) -> bool {
        b == b'%' || b == b'+'
    }

    #[inline(always)]
    fn marks(&self, lanes: u8x16) -> u64 {
        Is(b'%').marks(lanes) | Is(b'+').marks(lanes)
    }
}

impl Rewriting for FormDecoding {
    ghost rewritten = { λ _ text. form_decoded text };

    #[inline(always)]
    fn escaped_byte(&self, b: u8, high: u8, low: u8) -> Option<u8> {
        byte_of_escape(b, high, low)
    }

    #[inline(always)]
    fn token(&self, b: u8, after: &[u8]) -> (Token, usize) {
        let (token, more) = first_token(b, after);
        (Token::Byte(token.form_value()), more)
    }
}

/// Like [`decoded_bytes`], for the text of a form: a `+` is a space.
pub fn form_decoded_bytes(alloc: Global, text: &[u8]) -> Result<Vec<u8>, AllocError>
    ensures { IfOk result (λ v. v.items ≡ form_decoded text.now) }
{
    let mut bytes = Vec::with_capacity(alloc, text.len())?;
    push_rewritten(&mut bytes, &FormDecoding, text)?;
    Ok(bytes)
}

/// Encoding for which some bytes of the class become escapes, too.
#[derive(Clone, Copy)]
pub(super) struct EncodingWithout<'w>(pub(super) Class, pub(super) &'w [u8]);

impl<'w> ByteTest for EncodingWithout<'w> {
    ghost passes = { λ s b. not (is_plain s.0 b) || is_among s.1.now b };

    #[inline(always)]
    fn has(&self, b: u8) -> bool {
        !self.0.has(b) || self.1.contains(&b)
    }

    #[inline(always)]
    fn marks(&self, lanes: u8x16) -> u64 {
        let mut marks = Outside(self.0).marks(lanes);
        for &b in self.1 {
            marks |= Is(b).marks(lanes);
        }
        marks
    }
}

impl<'w> Rewriting for EncodingWithout<'w> {
    ghost rewritten = { λ s bytes. encoded_without s.0 s.1.now bytes };

    #[inline(always)]
    fn token(&self, b: u8, _: &[u8]) -> (Token, usize) {
        (Token::escaping(b), 0)
    }
}

/// Appends the text that represents the bytes. A byte of the class stays unless it is one of
/// `without`; any other becomes an escape. Walks them once.
#[inline(always)]
pub fn push_encoded(
    text: &mut Vec<u8>,
    class: Class,
    without: &[u8],
    bytes: &[u8],
) -> Result<(), AllocError>
    ensures text { OnOk result (text.new.items ≡ text.old.items ++ encoded_without class without.now bytes.now) }
    ensures bytes { OnOk result (are_bytes bytes.now ≡ true) }
{
    push_rewritten(text, &EncodingWithout(class, without), bytes)
}

/// Escaping: a byte that is neither in the class nor one of these becomes an escape, unless it
/// begins one.
#[derive(Clone, Copy)]
pub(super) struct Escaping<'m>(pub(super) Class, pub(super) &'m [u8]);

impl<'m> ByteTest for Escaping<'m> {
    ghost passes = { λ s b. not (is_plain s.0 b) };

    #[inline(always)]
    fn has(&self, b: u8) -> bool {
        !self.0.has(b)
    }

    #[inline(always)]
    fn marks(&self, lanes: u8x16) -> u64 {
        Outside(self.0).marks(lanes)
    }
}

impl<'m> Rewriting for Escaping<'m> {
    ghost rewritten = { λ s text. escaped_in s.0 s.1.now text };

    #[inline(always)]
    fn token(&self, b: u8, after: &[u8]) -> (Token, usize) {
        if self.1.contains(&b) {
            (Token::Byte(b), 0)
        } else if is_escape(b, after) {
            (Token::Escape(after[0], after[1]), 2)
        } else {
            (Token::escaping(b), 0)
        }
    }
}

/// Appends the text with an escape for each byte that is neither in the class nor one of `more`,
/// and begins no escape. Walks the text once.
pub fn push_escaped(
    escaped: &mut Vec<u8>,
    class: Class,
    more: &[u8],
    text: &[u8],
) -> Result<(), AllocError>
    ensures { OnOk result (escaped.new.items ≡ escaped.old.items ++ escaped_in class more.now text.now) }
{
    push_rewritten(escaped, &Escaping(class, more), text)
}

/// The number of bytes that the text has with an escape for each byte outside the class, or
/// `usize::MAX`: never less than `push_escaped` appends.
pub fn most_escaped_bytes(class: Class, text: &[u8]) -> usize {
    let mut most = text.len();
    let mut at = 0;
    'runs: while at < text.len() {
        let (marks, len) = next_mask(&Outside(class), text, at);
        most = most.saturating_add(2 * marks.count_ones() as usize);
        at += len;
    }
    most
}
