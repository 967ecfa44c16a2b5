//! `uri tail TEXT`: the components of a reference after its authority.

ghost use Rattle.std.specs.Prelude.{◌≡◌, ◌⊎◌, MatchResult};
ghost use Rattle.std.specs.Option.{option_copied};
ghost use Rattle.uriparse.specs.Fragment as fragment;
ghost use Rattle.uriparse.specs.PathError.TheVariants.{OutOfMemory};
ghost use Rattle.uriparse.specs.Query as query;
ghost use Rattle.uriparse.specs.TextCuts.{after, before};
ghost use Rattle.uriparse.specs.URIReferenceError.TheVariants as references;
ghost use Rattle.uri_commands.specs.Output as spec;
ghost use Rattle.uri_commands.specs.Output.{Printed, Rejected};

use crate::failure::Failure;
use crate::print::{print_line, print_part};
use crate::topic::Topic;
use std::alloc::Global;
use std::io::Write;
use uriparse::{Fragment, FragmentError, Path, Query, QueryError, URIReferenceError};
use uriparse_text::internal::{Held, split_at_delimiter, without_delimiter};

pub static ABOUT: Topic = (
    "tail",
    "\
Prints a path, query and fragment, then each of them.

Usage: uri tail TEXT

Use it for what follows an authority, such as the target of a request. TEXT has
no scheme and no host: a colon or two slashes at its start are part of the path.
Each component that is present is a line NAME=VALUE.

Exit status: 0 on success, 1 if TEXT is rejected, 2 on a usage error.

Example:
    uri tail 'a/b?q#f'
prints
    a/b?q#f
    path=a/b
    query=q
    fragment=f
",
);

/// A path, a query and a fragment.
type Tail<'t> = (Path<'t>, Option<Query<'t>>, Option<Fragment<'t>>);

/// The bytes before the first such delimiter, and what follows it, if it is present.
fn cut(text: &[u8], mark: u8) -> (&[u8], Option<&[u8]>)
    ensures front { result.0.now ≡ before mark text.now }
    ensures back { option_copied result.1 ≡ after mark text.now }
{
    let (front, rest) = split_at_delimiter(text, mark);
    (front, without_delimiter(rest))
}

/// Reads a query, if it is present.
fn read_query(text: Option<&[u8]>) -> Result<Option<Query<'_>>, QueryError>
    ensures { result ≡ spec.if_present query.reading (option_copied text.entry) }
{
    match text {
        Some(text) => Ok(Some(Query::try_from_bytes(text)?)),
        None => Ok(None),
    }
}

/// Reads a fragment, if it is present.
fn read_fragment(text: Option<&[u8]>) -> Result<Option<Fragment<'_>>, FragmentError>
    ensures { result ≡ spec.if_present fragment.reading (option_copied text.entry) }
{
    match text {
        Some(text) => Ok(Some(Fragment::try_from_bytes(text)?)),
        None => Ok(None),
    }
}

/// Reads the components, from the left.
fn read_tail(alloc: Global, text: &[u8]) -> Result<Tail<'_>, URIReferenceError>
    ensures { MatchResult result (λ tail. spec.Tails text.now (Printed (spec.tail_lines text.now tail.0 tail.1 tail.2))) (λ error. (error ≡ references.Path OutOfMemory) ⊎ spec.Tails text.now Rejected) }
{
    let (front, fragment) = cut(text, b'#');
    let (path, query) = cut(front, b'?');
    let path = Held(Path::try_from_bytes(alloc, path)?);
    let query = Held(read_query(query)?);
    let fragment = read_fragment(fragment)?;
    Ok((path.take(), query.take(), fragment))
}

/// Prints the text, its path, and its query and its fragment if present, a line each.
#[tactic(auto, using(crate::proofs::RunLemmas::tail_printed, crate::proofs::RunLemmas::tail_rejected))]
pub fn tail<O: Write>(alloc: Global, text: &str, out: &mut O) -> Result<(), Failure>
    ensures { spec.Does (spec.Tails text.now) (O.contents out.old) (O.contents out.new) result }
{
    let tail = Held(read_tail(alloc, text.as_bytes())?);
    print_tail(text, &tail.0, out)
}

/// Prints the text and its components.
fn print_tail<O: Write>(text: &str, tail: &Tail<'_>, out: &mut O) -> Result<(), Failure>
    ensures { spec.Writes (spec.tail_lines text.now tail.now.0 tail.now.1 tail.now.2) (O.contents out.old) (O.contents out.new) result }
{
    let (path, query, fragment) = tail;
    print_line(&text, out)?;
    print_part("path", Some(path), out)?;
    print_part("query", query.as_ref(), out)?;
    print_part("fragment", fragment.as_ref(), out)
}
