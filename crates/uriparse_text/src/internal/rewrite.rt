//! Texts that are rewritten in one walk, piece by piece: a run of bytes that stay, then a token that
//! something is written for, and so on.
ghost use Rattle.std.specs.Prelude.{◌≡◌, ◌≤◌, ◌++◌, ◌∷◌, ℕ, List, ◌<◌, OnOk, drop, false, IfSome, length, slice_index, true};
ghost use Rattle.std.specs.List.{position_or_len};
ghost use Rattle.uriparse_text.specs.Cuts.{from_first, up_to};
ghost use Rattle.uriparse_text.specs.Pieces.{Keeps};
ghost use Rattle.uriparse_text.specs.Tokens.{spell};

use super::scan::{ByteTest, first};
use super::token::Token;
use std::alloc::AllocError;

/// A way to rewrite texts. The bytes that pass its test are looked at, and the others stay.
pub(super) trait Rewriting: ByteTest {
    ghost rewritten: { Self → List ℕ → List ℕ };

    /// Fast path: the single byte that an escape decodes to. Must agree with `token`. Default: `None`.
    #[inline(always)]
    fn escaped_byte(&self, b: u8, high: u8, low: u8) -> Option<u8>
        ensures { IfSome result (λ value. (after : List ℕ) → rewritten self.now (b ∷ high ∷ low ∷ after) ≡ value ∷ rewritten self.now after) }
    {
        None
    }

    /// What is written for the token that begins with a byte that passes, and how many of the bytes
    /// after it the token has.
    fn token(&self, b: u8, after: &[u8]) -> (Token, usize)
        requires { Self.passes self.now b ≡ true }
        ensures within { result.1 ≤ length after.now }
        ensures written { rewritten self.now (b ∷ after.now) ≡ spell result.0 ++ rewritten self.now (drop result.1 after.now) };
}

/// How many bytes of a run are looked at one by one. A run of less is also copied one by one, which
/// takes a test and a call less.
const FEW: usize = 4;

/// The place of the first byte that passes, or the length. A few bytes are looked at one by one
/// before the others are searched sixteen at a time, since many runs are short.
#[inline(always)]
fn run_len<T: ByteTest>(test: &T, text: &[u8]) -> usize
    requires some { 0 < length text.now }
    requires first { T.passes test.now (slice_index text.now 0) ≡ false }
    ensures offset { result ≡ position_or_len (T.passes test.now) text.now }
    ensures some { 0 < result }
    ensures within { result ≤ length text.now }
{
    let mut at = 1;
    'few: while at < FEW {
        if at == text.len() || test.has(text[at]) {
            return at;
        }
        at += 1;
    }
    FEW + first(test, &text[FEW..])
}

/// Cuts a text at the end of the run that it begins with. The run stays as it is.
#[inline(always)]
pub(super) fn split_run<'t, R: Rewriting>(way: &R, text: &'t [u8]) -> (&'t [u8], &'t [u8])
    requires keeps { Keeps (R.passes way.now) (R.rewritten way.now) }
    requires some { 0 < length text.now }
    requires first { R.passes way.now (slice_index text.now 0) ≡ false }
    ensures run { result.0.now ≡ up_to (R.passes way.now) text.now }
    ensures rest { result.1.now ≡ from_first (R.passes way.now) text.now }
    ensures kept { R.rewritten way.now text.now ≡ result.0.now ++ R.rewritten way.now result.1.now }
    ensures shorter { length result.1.now < length text.now }
{
    text.split_at(run_len(way, text))
}

/// Appends the bytes of a run.
#[inline(always)]
fn push_run(bytes: &mut Vec<u8>, run: &[u8]) -> Result<(), AllocError>
    ensures { OnOk result (bytes.new.items ≡ bytes.old.items ++ run.now) }
{
    if run.len() >= FEW {
        return bytes.extend_from_slice(run);
    }
    for &b in run {
        bytes.push(b)?;
    }
    Ok(())
}

/// Appends the bytes of a token.
#[inline(always)]
fn push_spelled(bytes: &mut Vec<u8>, token: Token) -> Result<(), AllocError>
    ensures { OnOk result (bytes.new.items ≡ bytes.old.items ++ spell token) }
{
    match token {
        Token::Byte(b) => bytes.push(b)?,
        Token::Escape(high, low) => bytes.extend_from_slice(&[b'%', high, low])?,
    }
    Ok(())
}

/// Appends the rewritten text. Walks the text once.
#[inline(always)]
pub(super) fn push_rewritten<R: Rewriting>(
    bytes: &mut Vec<u8>,
    way: &R,
    text: &[u8],
) -> Result<(), AllocError>
    requires { Keeps (R.passes way.now) (R.rewritten way.now) }
    ensures { OnOk result (bytes.new.items ≡ bytes.old.items ++ R.rewritten way.now text.now) }
{
    let mut rest = text;
    'pieces: while let Some((&b, after)) = rest.split_first() {
        if way.has(b) {
            if let [high, low, later @ ..] = after {
                if let Some(value) = way.escaped_byte(b, *high, *low) {
                    bytes.push(value)?;
                    rest = later;
                    continue;
                }
            }
            let (token, more) = way.token(b, after);
            push_spelled(bytes, token)?;
            rest = &after[more..];
        } else {
            let (run, later) = split_run(way, rest);
            push_run(bytes, run)?;
            rest = later;
        }
    }
    Ok(())
}
