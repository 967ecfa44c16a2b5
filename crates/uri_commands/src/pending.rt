//! Output that is kept in a buffer before it is written.

ghost use Rattle.std.specs.Prelude.{◌≡◌, ◌<◌, ◌≤◌, [], IfErr, IfOk, IsOk, OnErr, OnOk, Some, length};
ghost use Rattle.std.specs.Io.KnownBytes.{WriteAppends};
ghost use Rattle.uri_commands.specs.Output.{EndsWork};
ghost use Rattle.uri_commands.specs.Outputs.{Sends};

use crate::failure::Failure;
use std::alloc::Global;
use std::io;
use std::io::Write;

/// How many bytes each buffer of `--lines` has: of the input, the output and the reports. Only the output
/// of a longer line makes one grow.
pub const CAPACITY: usize = 65_536;

/// Output that is put together in memory. A write is one copy here; `Vec` has the loop that any other
/// writer needs.
#[derive(Drop)]
pub struct Buffer {
    pub bytes: Vec<u8>,
}

impl Buffer {
    pub fn new(alloc: Global) -> Buffer
        ensures { result.bytes.items ≡ [] }
    {
        Buffer {
            bytes: Vec::new(alloc),
        }
    }
}

impl Write for Buffer {
    ghost contents = { λ b. Some b.bytes.items };

    fn write(&mut self, bytes: &[u8]) -> io::Result<usize> {
        self.bytes.extend_from_slice(bytes)?;
        Ok(bytes.len())
    }

    #[inline(always)]
    fn write_all(&mut self, bytes: &[u8]) -> io::Result<()> {
        Ok(self.bytes.extend_from_slice(bytes)?)
    }

    fn flush(&mut self) -> io::Result<()> {
        Ok(())
    }
}

/// Writes some of the bytes, and returns how many were taken: none if the write was interrupted.
#[tactic(auto, using(crate::proofs::OutputsLemmas::took_none, crate::proofs::OutputsLemmas::kept_none))]
fn write_some<O: Write>(bytes: &[u8], out: &mut O) -> io::Result<usize>
    ensures bound { IfOk result (λ count. count ≤ length bytes.now) }
    ensures bytes { WriteAppends (O.contents out.old) (O.contents out.new) result bytes.now }
{
    match out.write(bytes) {
        Ok(0) => Err(io::Error::from(io::ErrorKind::WriteZero)),
        Err(error) if error.kind() == io::ErrorKind::Interrupted => Ok(0),
        written => written,
    }
}

/// Writes the pending bytes, and removes those that are taken. If a write fails, the others stay: it fails
/// only before the last byte is taken.
#[tactic(auto, using(crate::proofs::OutputsLemmas::sends_none, crate::proofs::OutputsLemmas::sends_front, crate::proofs::OutputsLemmas::sends_whole, crate::proofs::OutputsLemmas::sends_kept, crate::proofs::OutputsLemmas::left_some))]
pub fn send<O: Write>(pending: &mut Vec<u8>, out: &mut O) -> io::Result<()>
    ensures sends { Sends (O.contents out.old) (O.contents out.new) pending.old.items pending.new.items [] }
    ensures all { OnOk result (pending.new.items ≡ []) }
    ensures some { OnErr result (0 < length pending.new.items) }
    ensures none { pending.old.items ≡ [] → IsOk result × (out.new ≡ out.old) }
{
    if pending.is_empty() {
        return Ok(());
    }
    'writes: for _ in 0..u64::MAX {
        let count = write_some(pending, out)?;
        if count == pending.len() {
            pending.clear();
            return Ok(());
        }
        pending.drain(..count);
    }
    Err(io::Error::from(io::ErrorKind::Interrupted))
}

/// Writes the pending bytes, and flushes the output.
#[tactic(auto, using(crate::proofs::OutputsLemmas::sends_kept))]
pub fn flush<O: Write>(pending: &mut Vec<u8>, out: &mut O) -> io::Result<()>
    ensures sends { Sends (O.contents out.old) (O.contents out.new) pending.old.items pending.new.items [] }
    ensures all { OnOk result (pending.new.items ≡ []) }
{
    send(pending, out)?;
    out.flush()
}

/// Writes the pending bytes if the buffer has no room for this many more.
#[tactic(auto, using(crate::proofs::OutputsLemmas::sends_none))]
fn make_room<O: Write>(count: usize, pending: &mut Vec<u8>, out: &mut O) -> io::Result<()>
    ensures { Sends (O.contents out.old) (O.contents out.new) pending.old.items pending.new.items [] }
{
    if pending.len().saturating_add(count) <= CAPACITY {
        return Ok(());
    }
    send(pending, out)
}

/// Appends the output of a line to the pending bytes, which are written first if it has no room.
#[tactic(auto, using(crate::proofs::OutputsLemmas::sends_more, crate::proofs::OutputsLemmas::sends_same))]
pub fn put<O: Write>(printed: &[u8], pending: &mut Vec<u8>, out: &mut O) -> Result<(), Failure>
    ensures ok { OnOk result (Sends (O.contents out.old) (O.contents out.new) pending.old.items pending.new.items printed.now) }
    ensures err { IfErr result (λ f. EndsWork f × Sends (O.contents out.old) (O.contents out.new) pending.old.items pending.new.items []) }
{
    make_room(printed.len(), pending, out)?;
    Ok(pending.extend_from_slice(printed)?)
}
