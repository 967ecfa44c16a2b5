//! A text that is written to the start of a buffer. If it is longer than the buffer, only its length
//! is counted.
ghost use Rattle.std.specs.Prelude.{◌≡◌, ◌≤◌, ◌∷◌, [], length, true};
ghost use Rattle.uriparse_text.specs.Coding.{decoded, encoded, encoded_without, escaped_in};
ghost use Rattle.uriparse_text.specs.Pieces.{Keeps};
ghost use Rattle.uriparse_text.specs.Starts.{Appends, LeavesRest, Writes};
ghost use Rattle.uriparse_text.specs.Tokens as tokens;

use super::class::Class;
use super::coding::{Decoding, EncodingWithout, Escaping};
use super::rewrite::{Rewriting, split_run};
use super::token::Token;
use thiserror::Error;

/// A buffer has too little room for a text, and is unchanged.
#[derive(Clone, Copy, Debug, PartialEq, Eq, Hash, Error)]
#[error("buffer too small for {needed} bytes")]
pub struct TooSmall {
    /// The length of the text in bytes, or `usize::MAX` if it is longer.
    pub needed: usize,
}

/// Copies a run over bytes of its length. Many runs are short, and are copied byte by byte, which
/// takes a test and a call less.
#[inline(always)]
fn copy_run(run: &[u8], out: &mut [u8])
    requires { length out.old ≡ length run.now }
    ensures { out.new ≡ run.now }
{
    match run {
        [] => {}
        [a] => out[0] = *a,
        [a, b] => {
            out[0] = *a;
            out[1] = *b;
        }
        [a, b, c] => {
            out[0] = *a;
            out[1] = *b;
            out[2] = *c;
        }
        _ => out.copy_from_slice(run),
    }
}

/// Appends bytes to a text of `len` bytes. Returns the length of both.
#[inline(always)]
pub fn append(bytes: &[u8], out: &mut [u8], len: usize) -> usize
    ensures room { length out.new ≡ length out.old }
    ensures appends { Appends bytes.now out.old len out.new result }
    ensures rest { LeavesRest out.old len out.new result }
{
    let total = len.saturating_add(bytes.len());
    if total <= out.len() {
        copy_run(bytes, &mut out[len..total]);
    }
    total
}

/// Appends a byte.
#[inline(always)]
fn append_byte(b: u8, out: &mut [u8], len: usize) -> usize
    ensures room { length out.new ≡ length out.old }
    ensures appends { Appends (b ∷ []) out.old len out.new result }
    ensures rest { LeavesRest out.old len out.new result }
{
    if len < out.len() {
        out[len] = b;
        return len + 1;
    }
    len.saturating_add(1)
}

/// Appends a token.
#[inline(always)]
fn append_token(token: Token, out: &mut [u8], len: usize) -> usize
    ensures room { length out.new ≡ length out.old }
    ensures appends { Appends (tokens.spell token) out.old len out.new result }
    ensures rest { LeavesRest out.old len out.new result }
{
    match token {
        Token::Byte(b) => append_byte(b, out, len),
        Token::Escape(high, low) => append(&[b'%', high, low], out, len),
    }
}

/// Appends the rewritten text. Walks the text once.
#[inline(always)]
pub(super) fn append_rewritten<R: Rewriting>(
    way: &R,
    text: &[u8],
    out: &mut [u8],
    len: usize,
) -> usize
    requires { Keeps (R.passes way.now) (R.rewritten way.now) }
    ensures room { length out.new ≡ length out.old }
    ensures appends { Appends (R.rewritten way.now text.now) out.old len out.new result }
    ensures rest { LeavesRest out.old len out.new result }
{
    let mut total = len;
    let mut rest = text;
    'pieces: while let Some((&b, after)) = rest.split_first() {
        if way.has(b) {
            if let [high, low, later @ ..] = after {
                if let Some(value) = way.escaped_byte(b, *high, *low) {
                    total = append_byte(value, out, total);
                    rest = later;
                    continue;
                }
            }
            let (token, more) = way.token(b, after);
            total = append_token(token, out, total);
            rest = &after[more..];
        } else {
            let (run, later) = split_run(way, rest);
            total = append(run, out, total);
            rest = later;
        }
    }
    total
}

/// Writes the rewritten text to the start of the buffer, if it has room for it, and returns its
/// length. `fits` says that there surely is room, which saves the walk that counts.
#[inline(always)]
fn write_rewritten<R: Rewriting>(
    way: &R,
    text: &[u8],
    fits: bool,
    out: &mut [u8],
) -> Result<usize, TooSmall>
    requires keeps { Keeps (R.passes way.now) (R.rewritten way.now) }
    requires fits { fits ≡ true → length (R.rewritten way.now text.now) ≤ length out.old }
    ensures { Writes (R.rewritten way.now text.now) result out.old out.new }
{
    if !fits {
        let needed = append_rewritten(way, text, &mut [], 0);
        if needed > out.len() {
            return Err(TooSmall { needed });
        }
    }
    Ok(append_rewritten(way, text, out, 0))
}

/// Appends the text with an escape for each byte that is neither in the class nor one of `more`,
/// and begins no escape. Walks the text once.
pub fn append_escaped(class: Class, more: &[u8], text: &[u8], out: &mut [u8], len: usize) -> usize
    ensures room { length out.new ≡ length out.old }
    ensures appends { Appends (escaped_in class more.now text.now) out.old len out.new result }
    ensures rest { LeavesRest out.old len out.new result }
{
    append_rewritten(&Escaping(class, more), text, out, len)
}

/// Appends the text that represents the bytes. A byte of the class stays unless it is one of
/// `without`; any other becomes an escape. Walks them once.
pub fn append_encoded(
    class: Class,
    without: &[u8],
    bytes: &[u8],
    out: &mut [u8],
    len: usize,
) -> usize
    ensures room { length out.new ≡ length out.old }
    ensures appends { Appends (encoded_without class without.now bytes.now) out.old len out.new result }
    ensures rest { LeavesRest out.old len out.new result }
{
    append_rewritten(&EncodingWithout(class, without), bytes, out, len)
}

/// Writes the bytes that the text's tokens represent to the start of the buffer, if it has room for
/// them, and returns their number. They are no more than the text's bytes.
pub(super) fn decode_into(text: &[u8], out: &mut [u8]) -> Result<usize, TooSmall>
    ensures { Writes (decoded text.now) result out.old out.new }
{
    write_rewritten(&Decoding, text, text.len() <= out.len(), out)
}

/// Writes the text of the class that represents the bytes to the start of the buffer, if it has room
/// for it, and returns its length. That is at most three times the number of bytes.
pub fn encode_into(class: Class, bytes: &[u8], out: &mut [u8]) -> Result<usize, TooSmall>
    ensures { Writes (encoded class bytes.now) result out.old out.new }
{
    let fits = bytes.len() <= out.len() / 3;
    write_rewritten(&EncodingWithout(class, b""), bytes, fits, out)
}
