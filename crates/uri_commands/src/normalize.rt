//! `uri normalize TEXT`: a reference in its normal form.

ghost use Rattle.std.specs.Prelude.{◌≡◌, ◌≤◌, IfErr, IfOk, length, take};
ghost use Rattle.uriparse.specs.Normal.{normal};
ghost use Rattle.uriparse.specs.Reference.{print};
ghost use Rattle.uri_commands.specs.Output as spec;

use crate::failure::Failure;
use crate::print::{print_bytes, print_line};
use crate::topic::Topic;
use std::alloc::Global;
use std::io::Write;
use uriparse::{BufferError, ReferenceView, URIReference};

pub static ABOUT: Topic = (
    "normalize",
    "\
Prints the normal form of a reference.

Usage: uri normalize TEXT
       uri --drop-default-port normalize TEXT
       uri --lines normalize
       uri --lines --drop-default-port normalize

Use it before you compare, sort or count links. In the normal form, scheme
and host are in lower case, escapes stand only where they are needed and have
upper-case digits, and dot segments are removed. To leave out a default port see
uri help --drop-default-port.

Exit status: 0 on success, 1 if TEXT is not a reference, 2 on a usage error.

Example:
    uri normalize 'HTTP://EXAMPLE.com/a/../%7Eb'
prints
    http://example.com/~b
",
);

pub static ABOUT_DROP_DEFAULT_PORT: Topic = (
    "--drop-default-port",
    "\
Leaves out the port in a normal form if it is the scheme's default one.

Usage: uri --drop-default-port normalize TEXT
       uri --lines --drop-default-port normalize

Use it to compare web links: 443 is the default port of https (RFC 3986, section
6.2.3). A scheme without a default port keeps its ports.

Exit status: 0 on success, 1 if TEXT is not a reference, 2 on a usage error.

Example:
    uri --drop-default-port normalize 'HTTPS://h:443/%7Ea'
prints
    https://h/~a
",
);

/// Prints the reference's normal form.
pub fn normalize<O: Write>(alloc: Global, text: &[u8], out: &mut O) -> Result<(), Failure>
    ensures { spec.Does (spec.Normalizes text.now) (O.contents out.old) (O.contents out.new) result }
{
    normalize_with(&mut Vec::new(alloc), text, out)
}

/// Prints the reference's normal form, which is put together in a buffer that grows to its length.
#[tactic(auto, using(crate::proofs::OutputLemmas::normalized, crate::proofs::OutputLemmas::rejected_reference, crate::proofs::OutputLemmas::ended))]
pub fn normalize_with<O: Write>(
    buffer: &mut Vec<u8>,
    text: &[u8],
    out: &mut O,
) -> Result<(), Failure>
    ensures { spec.Does (spec.Normalizes text.now) (O.contents out.old) (O.contents out.new) result }
{
    let reference = ReferenceView::try_from_bytes(text)?;
    let len = put_normal(&reference, buffer)?;
    print_bytes(&buffer[..len], out)
}

/// Prints the reference's normal form without a port that is its scheme's default one.
#[tactic(auto, using(crate::proofs::OutputLemmas::normalized_port, crate::proofs::OutputLemmas::rejected_unless, crate::proofs::OutputLemmas::ended))]
pub fn normalize_port<O: Write>(alloc: Global, text: &[u8], out: &mut O) -> Result<(), Failure>
    ensures { spec.Does (spec.NormalizesPort text.now) (O.contents out.old) (O.contents out.new) result }
{
    let mut reference = URIReference::try_from_bytes(alloc, text)?;
    reference.normalize(alloc)?;
    reference.normalize_port();
    print_line(&reference, out)
}

/// Puts the text of the normal form at the start of the buffer, and returns its length.
#[tactic(auto, using(crate::proofs::OutputLemmas::front_written, crate::proofs::OutputLemmas::too_small))]
fn put_normal(reference: &ReferenceView<'_>, buffer: &mut Vec<u8>) -> Result<usize, Failure>
    ensures fits { IfOk result (λ len. len ≤ length buffer.new.items) }
    ensures text { IfOk result (λ len. take len buffer.new.items ≡ print (normal reference.now.parts)) }
    ensures ends { IfErr result spec.EndsWork }
{
    match reference.normalize_into(buffer) {
        Err(BufferError::TooSmall(len)) => {
            buffer.resize(len, 0)?;
            Ok(reference.normalize_into(buffer)?)
        }
        result => Ok(result?),
    }
}
