//! `uri encode KIND TEXT`: a text as a component with escapes.

ghost use Rattle.std.specs.Prelude.{IfSome, MatchResult};
ghost use Rattle.uri_commands.specs.Output as spec;

use crate::failure::Failure;
use crate::print::print_line;
use crate::topic::Topic;
use std::alloc::{AllocError, Global};
use std::fmt::Display;
use std::io::Write;
use uriparse::{Fragment, Password, Query, Segment, Username};

pub static ABOUT: Topic = (
    "encode",
    "\
Prints any text as one component.

Usage: uri encode KIND TEXT

Use it to put data into a URI. KIND is segment, query, fragment, username or
password. Each byte that the component can't have is percent-encoded: a space as
%20, a slash in a segment as %2F. A `%` always becomes %25, so encode once. A
query keeps its `&` and `=`.

Exit status: 0 on success, 1 if TEXT is not UTF-8, 2 on a usage error.

Example:
    uri encode segment 'a/b c'
prints
    a%2Fb%20c
",
);

/// Encodes the bytes as a component of this kind, and prints it.
#[tactic(auto, using(crate::proofs::OutputLemmas::encoded_out, crate::proofs::OutputLemmas::no_kind))]
pub fn encode<O: Write>(alloc: Global, kind: &str, bytes: &[u8], out: &mut O) -> Result<(), Failure>
    ensures { spec.Does (spec.Encodes kind.now bytes.now) (O.contents out.old) (O.contents out.new) result }
{
    match kind {
        "segment" => print_encoded(Segment::encode(alloc, bytes), out),
        "query" => print_encoded(Query::encode(alloc, bytes), out),
        "fragment" => print_encoded(Fragment::encode(alloc, bytes), out),
        "username" => print_encoded(Username::encode(alloc, bytes), out),
        "password" => print_encoded(Password::encode(alloc, bytes), out),
        _ => Err(Failure::Usage),
    }
}

/// Prints the component, unless memory ran out.
fn print_encoded<T: Display + Drop, O: Write>(
    encoded: Result<T, AllocError>,
    out: &mut O,
) -> Result<(), Failure>
    ensures { MatchResult encoded (λ c. IfSome (T.output c) (λ t. spec.Writes (spec.line t) (O.contents out.old) (O.contents out.new) result)) (λ _. spec.Ended result) }
{
    let component = encoded?;
    print_line(&component, out)
}
