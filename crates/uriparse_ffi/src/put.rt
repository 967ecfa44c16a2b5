//! What a call reports of a text in a caller's buffer.
ghost use Rattle.std.specs.Prelude.{◌≡◌, ℕ, List, length};
ghost use Rattle.uriparse_text.specs.Starts.{Writes};
ghost use Rattle.uriparse_ffi.specs.Put.{IsPut, needed_for, written_code};

use crate::code::{ACCEPTED, IN_BASE, NO_ROOM, NO_SCHEME, TOO_MANY_SEGMENTS};
use uriparse::{BufferError, TooSmall};
use uriparse_text::internal::{Appending, append, write_text};

/// Returns an error's code, and sets `needed` to 0.
pub fn refuse(code: u32, needed: &mut usize) -> u32
    ensures code { result ≡ code }
    ensures needed { needed.new ≡ 0 }
{
    *needed = 0;
    code
}

/// Returns the code of a text that was written to a buffer, or was not, and sets `needed` to its
/// length.
pub fn answer(written: Result<usize, BufferError>, needed: &mut usize) -> u32
    ensures code { result ≡ written_code written }
    ensures needed { needed.new ≡ needed_for written }
{
    match written {
        Ok(len) => {
            *needed = len;
            ACCEPTED
        }
        Err(BufferError::TooSmall(len)) => {
            *needed = len;
            NO_ROOM
        }
        Err(BufferError::RelativeBase) => refuse(IN_BASE + NO_SCHEME, needed),
        Err(BufferError::TooManySegments) => refuse(TOO_MANY_SEGMENTS, needed),
    }
}

/// The same of a text that may be too long for the buffer, and has no other fault.
pub fn answer_room(written: Result<usize, TooSmall>, needed: &mut usize) -> u32
    ensures { (text old new : List ℕ) → length new ≡ length old → Writes text written old new → IsPut text old new needed.new result }
{
    match written {
        Ok(len) => {
            *needed = len;
            ACCEPTED
        }
        Err(TooSmall { needed: len }) => {
            *needed = len;
            NO_ROOM
        }
    }
}

/// Bytes that are written as they are.
#[derive(Clone, Copy)]
struct Plain<'b>(&'b [u8]);

impl<'b> Appending for Plain<'b> {
    ghost text = { λ s. s.0.now };

    fn append_to(&self, out: &mut [u8], len: usize) -> usize {
        append(self.0, out, len)
    }
}

/// Writes the bytes.
pub fn write_plain(bytes: &[u8], out: &mut [u8], needed: &mut usize) -> u32
    ensures { IsPut bytes.now out.old out.new needed.new result }
{
    answer_room(write_text(&Plain(bytes), out), needed)
}
