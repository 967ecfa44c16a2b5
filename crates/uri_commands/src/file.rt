//! `uri file PATH` and `uri get file URI`: between the paths of files and their URIs.

ghost use Rattle.uri_commands.specs.Output as spec;

use crate::failure::Failure;
use crate::print::{print_bytes, print_line};
use crate::topic::Topic;
use std::alloc::Global;
use std::io::Write;
use uriparse::URI;
use uriparse::file::{from_path, to_path};

pub static ABOUT: Topic = (
    "file",
    "\
Prints the URI of a file, and of such a URI the file's path.

Usage: uri file PATH
       uri get file URI

Use it to hand a path to a program that takes URIs, and back (RFC 8089). PATH is
absolute. Nothing is looked up, and `.`, `..` and empty names remain. Each byte
that the path of a URI can't have is percent-encoded, a `%` too.

uri get file prints the path that a file URI names. Its host is absent, empty or
localhost. A user name, another host, a port, a query, a fragment, a %2F and a
%00 are rejected.

Exit status: 0 on success, 1 if PATH or URI is rejected, 2 on a usage error.

Example:
    uri file '/tmp/a b%.txt'
    uri get file 'file:///tmp/a%20b%25.txt'
prints
    file:///tmp/a%20b%25.txt
    /tmp/a b%.txt
",
);

/// Prints the URI of the path.
#[tactic(auto, using(crate::proofs::OutputLemmas::filed, crate::proofs::OutputLemmas::not_filed, crate::proofs::OutputLemmas::ended))]
pub fn file<O: Write>(alloc: Global, path: &[u8], out: &mut O) -> Result<(), Failure>
    ensures { spec.Does (spec.Files path.now) (O.contents out.old) (O.contents out.new) result }
{
    let uri = from_path(alloc, path)?;
    print_line(&uri, out)
}

/// Prints the bytes of the path that the URI names, and then a newline.
#[tactic(auto, using(crate::proofs::OutputLemmas::file_path, crate::proofs::OutputLemmas::no_file_path, crate::proofs::OutputLemmas::rejected_uri_unless))]
pub fn get_file<O: Write>(alloc: Global, text: &[u8], out: &mut O) -> Result<(), Failure>
    ensures { spec.Does (spec.GetsFile text.now) (O.contents out.old) (O.contents out.new) result }
{
    let uri = URI::try_from_bytes(alloc, text)?;
    let path = to_path(alloc, &uri)?;
    print_bytes(&path, out)
}
