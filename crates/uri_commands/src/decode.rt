//! `uri decode TEXT`: the bytes that a component stands for.

ghost use Rattle.uri_commands.specs.Output as spec;

use crate::failure::Failure;
use crate::print::print_bytes;
use crate::topic::Topic;
use std::alloc::Global;
use std::io::Write;
use uriparse::Query;
use uriparse_text::internal::Held;

pub static ABOUT: Topic = (
    "decode",
    "\
Prints the bytes that a component stands for.

Usage: uri decode TEXT

Use it to read what uri encode made, or a segment, a query or one of its pairs.
The bytes of escapes are printed as they are, control characters and invalid
UTF-8 too. A `+` is a `+`.

Exit status: 0 on success, 1 if TEXT can't be a query, 2 on a usage error.

Example:
    uri decode 'caf%C3%A9%2Fa?b'
prints
    caf\u{e9}/a?b
",
);

/// Decodes the text of a query, and prints the bytes unchanged and then a newline. Each text that
/// `uri encode` prints can be decoded in this way, since it is the text of a query too.
#[tactic(auto, using(crate::proofs::OutputLemmas::decoded_out, crate::proofs::OutputLemmas::not_decoded, crate::proofs::OutputLemmas::ended))]
pub fn decode<O: Write>(alloc: Global, text: &[u8], out: &mut O) -> Result<(), Failure>
    ensures { spec.Does (spec.Decodes text.now) (O.contents out.old) (O.contents out.new) result }
{
    let query = Held(Query::try_from_bytes(text)?);
    let bytes = Held(query.0.decode(alloc)?);
    print_bytes(&bytes.0, out)
}
