//! Texts that are put together from their end, in a buffer of the caller or in a `String`.
ghost use Rattle.std.specs.Prelude.{◌≡◌, ℕ, ◌≤◌, IfOk, List, MatchOption, length, string_bytes};
ghost use Rattle.std.specs.Str.{IsUtf8};
ghost use Rattle.uriparse_text.specs.Ends.{EndsWith};
ghost use Rattle.uriparse_reference.specs.Into as spec;

use super::super::error::BufferError;
use std::alloc::{AllocError, Global};

/// A text that is put together from its end in a buffer.
pub trait PutText {
    // What has to hold to put it.
    ghost can_be_put: { Self → Type 0 };

    // The text.
    ghost text: { Self → List ℕ };

    /// Puts the text at the end of the buffer. Returns its length. If there is no room, only the
    /// length is counted.
    fn put(&self, out: &mut [u8]) -> usize
        requires { can_be_put self.now }
        ensures room { length out.new ≡ length out.old }
        ensures ends { EndsWith out.new result (text self.now) }
        ensures utf8 { IsUtf8 (text self.now) };
}

/// The number of bytes of the block on the stack in which a short text is put together.
const BLOCK: usize = 256;

/// The number of bytes of the block for a longer text.
const LONG_BLOCK: usize = 2_048;

/// Whether a block of this length serves a text of about `len` bytes: it is to be written, not only
/// measured, and is not likely to be longer than the block.
#[inline(always)]
fn serves_block(block: usize, len: usize, out: &[u8]) -> bool {
    len <= block && !out.is_empty()
}

/// Copies a text to the start of the buffer, and returns its length, if there is room.
pub(super) fn copy_into(text: &[u8], out: &mut [u8]) -> Result<usize, BufferError>
    ensures { spec.Writes text.now result out.old out.new }
{
    if text.len() > out.len() {
        return Err(BufferError::TooSmall(text.len()));
    }
    out[..text.len()].copy_from_slice(text);
    Ok(text.len())
}

/// Copies the text of `len` bytes that the block ends with to the start of the buffer, and returns
/// its length, if there is room.
#[inline(always)]
fn copy_end(block: &[u8], len: usize, out: &mut [u8]) -> Result<usize, BufferError>
    requires { len ≤ length block.now }
    ensures { (t : List ℕ) → EndsWith block.now len t → spec.Writes t result out.old out.new }
{
    copy_into(&block[block.len() - len..], out)
}

/// Puts the text together in the block and copies it, or does nothing if it is longer.
#[inline(always)]
fn write_by<T: PutText>(
    text: &T,
    block: &mut [u8],
    out: &mut [u8],
) -> Option<Result<usize, BufferError>>
    requires { T.can_be_put text.now }
    ensures { MatchOption result (out.new ≡ out.old) (λ written. spec.Writes (T.text text.now) written out.old out.new) }
{
    let needed = text.put(block);
    if needed > block.len() {
        return None;
    }
    Some(copy_end(block, needed, out))
}

/// Writes a longer text. Only this call takes the long block's room on the stack.
#[inline(never)]
fn write_long<T: PutText>(text: &T, out: &mut [u8]) -> Option<Result<usize, BufferError>>
    requires { T.can_be_put text.now }
    ensures { MatchOption result (out.new ≡ out.old) (λ written. spec.Writes (T.text text.now) written out.old out.new) }
{
    write_by(text, &mut [0; LONG_BLOCK], out)
}

/// Writes a text to the start of the buffer. `len` estimates its length. Most texts are put together
/// once, in a block whose end then has the text, and copied; a text that is longer than the block, or
/// whose length alone is wanted, is measured first.
pub fn write<T: PutText>(text: &T, len: usize, out: &mut [u8]) -> Result<usize, BufferError>
    requires { T.can_be_put text.now }
    ensures { spec.Writes (T.text text.now) result out.old out.new }
{
    let written = if serves_block(BLOCK, len, out) {
        write_by(text, &mut [0; BLOCK], out)
    } else if serves_block(LONG_BLOCK, len, out) {
        write_long(text, out)
    } else {
        None
    };
    if let Some(result) = written {
        return result;
    }
    let needed = text.put(&mut []);
    if needed > out.len() {
        return Err(BufferError::TooSmall(needed));
    }
    Ok(text.put(&mut out[..needed]))
}

/// The text in a `String`. Allocates once, exactly its length.
pub fn make_string<T: PutText>(alloc: Global, text: &T) -> Result<String, AllocError>
    requires { T.can_be_put text.now }
    ensures { IfOk result (λ s. string_bytes s ≡ T.text text.now) }
{
    let mut bytes = vec![in alloc; 0u8; text.put(&mut [])]?;
    text.put(&mut bytes);
    Ok(unsafe { String::from_utf8_unchecked(bytes) })
}
