//! `uri resolve BASE REF`: the target of a reference against a base.

ghost use Rattle.std.specs.Prelude.{◌≡◌, ◌≤◌, IfErr, IfOk, MatchOption, length, take};
ghost use Rattle.uriparse.specs.Reference.{print};
ghost use Rattle.uriparse.specs.Target.{target};
ghost use Rattle.uri_commands.specs.Output as spec;

use crate::failure::Failure;
use crate::print::print_bytes;
use crate::topic::Topic;
use std::alloc::Global;
use std::io::Write;
use uriparse::{BufferError, ReferenceView, URIView};

pub static ABOUT: Topic = (
    "resolve",
    "\
Prints the target of a reference against a base.

Usage: uri resolve BASE REF
       uri --explain resolve BASE REF
       uri --lines resolve BASE
       uri --lines --explain resolve BASE

Use it to make URIs of the links of a page: BASE is the page's URI. The target
is the one of RFC 3986, section 5.2. See uri help --explain.

Exit status: 0 on success, 1 if BASE is not a URI, REF is not a reference or the
merged path is too long, 2 on a usage error.

Example:
    uri resolve 'http://a/b/c/d;p?q' '../g#s'
prints
    http://a/b/g#s
",
);

/// Prints the target of the reference against the base, which is read first.
#[tactic(auto, using(crate::proofs::OutputLemmas::resolved_first, crate::proofs::OutputLemmas::rejected_uri))]
pub fn resolve<O: Write>(
    alloc: Global,
    base: &[u8],
    reference: &[u8],
    out: &mut O,
) -> Result<(), Failure>
    ensures { spec.Does (spec.Resolves base.now reference.now) (O.contents out.old) (O.contents out.new) result }
{
    let base = URIView::try_from_bytes(base)?;
    resolve_with(&mut Vec::new(alloc), &base, reference, out)
}

/// Reads the reference, and prints its target against the base, which is put together in a buffer
/// that grows to its length.
#[tactic(auto, using(crate::proofs::OutputLemmas::resolved, crate::proofs::OutputLemmas::unresolved, crate::proofs::OutputLemmas::rejected_reference))]
pub fn resolve_with<O: Write>(
    buffer: &mut Vec<u8>,
    base: &URIView<'_>,
    reference: &[u8],
    out: &mut O,
) -> Result<(), Failure>
    ensures { spec.Does (spec.ResolvesAgainst base.now.parts reference.now) (O.contents out.old) (O.contents out.new) result }
{
    let reference = ReferenceView::try_from_bytes(reference)?;
    let len = put_target(base, &reference, buffer)?;
    print_bytes(&buffer[..len], out)
}

/// Puts the text of the target at the start of the buffer, and returns its length.
#[tactic(auto, using(crate::proofs::OutputLemmas::target_written, crate::proofs::OutputLemmas::target_lacking))]
fn put_target(
    base: &URIView<'_>,
    reference: &ReferenceView<'_>,
    buffer: &mut Vec<u8>,
) -> Result<usize, Failure>
    ensures fits { IfOk result (λ len. len ≤ length buffer.new.items) }
    ensures text { IfOk result (λ len. MatchOption (target base.now.parts reference.now.parts) ⊥ (λ t. take len buffer.new.items ≡ print t)) }
    ensures fails { IfErr result (λ f. spec.LacksTarget base.now.parts reference.now.parts f) }
{
    match base.resolve_into(reference, buffer) {
        Err(BufferError::TooSmall(len)) => {
            buffer.resize(len, 0)?;
            Ok(base.resolve_into(reference, buffer)?)
        }
        result => Ok(result?),
    }
}
