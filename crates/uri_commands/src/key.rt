//! `uri key TEXT`: bytes that are equal, and sort, as references do.

ghost use Rattle.std.specs.Prelude.{◌≡◌, ◌≤◌, IfErr, IfOk, length, take};
ghost use Rattle.uriparse.specs.SortKey.{sort_key};
ghost use Rattle.uri_commands.specs.Output as spec;

use crate::failure::Failure;
use crate::print::print_bytes;
use crate::topic::Topic;
use std::alloc::Global;
use std::io::Write;
use uriparse::{BufferError, KeyForm, ReferenceView, sort_key_into};

pub static ABOUT: Topic = (
    "key",
    "\
Prints the sort key of a reference: equal references have equal keys.

Usage: uri key TEXT
       uri --lines key

Use it to sort, join or group references by programs that compare bytes, such as
LC_ALL=C sort -u. Bytes order keys as references are ordered, and keys are equal
exactly if uri equal says equal. A key is not a URI: keep the URI next to it, as
--append does. To ignore dot segments, normalize first.

A key has the bytes 01 and 02, which a terminal does not show.

Exit status: 0 on success, 1 if TEXT is not a reference, 2 on a usage error.

Example:
    uri key 'HTTP://h/%7Ea' | tr '\\001\\002' '.+'
prints
    1+http.+..1h../~a...
",
);

/// Prints the reference's sort key.
pub fn key<O: Write>(alloc: Global, text: &[u8], out: &mut O) -> Result<(), Failure>
    ensures { spec.Does (spec.Keys text.now) (O.contents out.old) (O.contents out.new) result }
{
    key_with(&mut Vec::new(alloc), text, out)
}

/// Prints the reference's sort key, which is put together in a buffer that grows to its length.
#[tactic(auto, using(crate::proofs::OutputLemmas::keyed, crate::proofs::OutputLemmas::rejected_reference, crate::proofs::OutputLemmas::ended))]
pub fn key_with<O: Write>(buffer: &mut Vec<u8>, text: &[u8], out: &mut O) -> Result<(), Failure>
    ensures { spec.Does (spec.Keys text.now) (O.contents out.old) (O.contents out.new) result }
{
    let reference = ReferenceView::try_from_bytes(text)?;
    let len = put_key(&reference, buffer)?;
    print_bytes(&buffer[..len], out)
}

/// Puts the sort key at the start of the buffer, and returns its length.
#[tactic(auto, using(crate::proofs::OutputLemmas::front_written, crate::proofs::OutputLemmas::too_small))]
fn put_key(reference: &ReferenceView<'_>, buffer: &mut Vec<u8>) -> Result<usize, Failure>
    ensures fits { IfOk result (λ len. len ≤ length buffer.new.items) }
    ensures text { IfOk result (λ len. take len buffer.new.items ≡ sort_key reference.now.parts) }
    ensures ends { IfErr result spec.EndsWork }
{
    match sort_key_into(reference, KeyForm::EXACT, buffer) {
        Err(BufferError::TooSmall(len)) => {
            buffer.resize(len, 0)?;
            Ok(sort_key_into(reference, KeyForm::EXACT, buffer)?)
        }
        result => Ok(result?),
    }
}
