//! `uri get PART TEXT`: one component of a reference, alone.

ghost use Rattle.std.specs.Prelude.{◌≡◌, ◌⊎◌, IfSome, MatchOption, MatchResult, None, OnOk, Some, string_bytes};
ghost use Rattle.std.specs.Io.KnownBytes.{Appends};
ghost use Rattle.std.specs.Option.{option_map};
ghost use Rattle.uriparse.specs.Origin.{text};
ghost use Rattle.uriparse.specs.Origin as origin;
ghost use Rattle.uri_commands.specs.Output as spec;
ghost use Rattle.uri_commands.specs.declared.failure.Failure.TheVariants.{Usage};

use crate::failure::Failure;
use crate::print::print_bytes;
use crate::topic::Topic;
use std::alloc::Global;
use std::fmt::Display;
use std::io;
use std::io::Write;
use uriparse::{Origin, ReferenceView, URIView};
use uriparse_text::internal::Held;

pub static ABOUT: Topic = (
    "get",
    "\
Prints components of a reference.

Usage: uri get PART[,PART..] TEXT
       uri --lines get PART[,PART..]

Use it in scripts, to take out a host or a path. PART is scheme, authority,
username, password, host, port, path, query, fragment or origin. Several parts
are separated by tabs; then, and with --lines, an absent part is empty and the
status is 0. For uri get file URI see uri help file.

A host keeps its case, and an IPv6 address its brackets. A scheme is printed in
lower case if it is registered, a port without leading zeros, and an IPv6
address as RFC 5952 writes it. An empty port is absent.

The origin is scheme, host and port, by which RFC 6454 compares URIs, in one
spelling: scheme and host in lower case, with no escape that isn't needed, and
without a port that is the scheme's default one. It is absent without a host,
and if neither the URI has a port nor its scheme a default one, such as file.

Exit status: 0 on success, 1 if TEXT is not a reference, 2 on a usage error,
3 if the part is absent; nothing is printed then.

Example:
    uri get host 'http://example.com:8080/a?b&c#d'
    uri get host,port 'http://example.com:8080/a?b&c#d'
prints
    example.com
    example.com\t8080
",
);

/// A component of a reference that can be printed alone.
#[derive(Clone, Copy)]
pub enum Part {
    Scheme,
    Authority,
    Username,
    Password,
    Host,
    Port,
    Path,
    Query,
    Fragment,
    Origin,
}

/// The component of this name.
pub fn read_part(name: &str) -> Result<Part, Failure>
    ensures { MatchResult result (λ part. spec.part_of name.now ≡ Some part) (λ failure. (spec.part_of name.now ≡ None) × (failure ≡ Usage)) }
{
    match name {
        "scheme" => Ok(Part::Scheme),
        "authority" => Ok(Part::Authority),
        "username" => Ok(Part::Username),
        "password" => Ok(Part::Password),
        "host" => Ok(Part::Host),
        "port" => Ok(Part::Port),
        "path" => Ok(Part::Path),
        "query" => Ok(Part::Query),
        "fragment" => Ok(Part::Fragment),
        "origin" => Ok(Part::Origin),
        _ => Err(Failure::Usage),
    }
}

/// Prints the component of this name, or fails with `Failure::Absent` if the reference has none. Several
/// names with commas between them are for a line with tabs, where an absent component is empty. The names
/// are checked before the text is read. Allocates their list, and the string of an origin.
#[tactic(auto, using(crate::proofs::RunLemmas::got_several))]
pub fn get<O: Write>(alloc: Global, names: &str, text: &[u8], out: &mut O) -> Result<(), Failure>
    ensures { spec.Does (spec.GetsNames names.now text.now) (O.contents out.old) (O.contents out.new) result }
{
    let parts = read_parts(alloc, names)?;
    match parts.as_slice() {
        [part] => get_part(alloc, *part, text, out),
        parts => get_parts(alloc, parts, text, out),
    }
}

/// Reads the text, and prints the component, or fails with `Failure::Absent`.
#[tactic(auto, using(crate::proofs::OutputLemmas::got, crate::proofs::OutputLemmas::not_got, crate::proofs::OutputLemmas::nothing_got, crate::proofs::OutputLemmas::not_written, crate::proofs::OutputLemmas::rejected_reference))]
fn get_part<O: Write>(alloc: Global, part: Part, text: &[u8], out: &mut O) -> Result<(), Failure>
    ensures { spec.Does (spec.Gets part text.now) (O.contents out.old) (O.contents out.new) result }
{
    let reference = ReferenceView::try_from_bytes(text)?;
    if write_part(alloc, &reference, part, out)? {
        print_bytes(b"", out)
    } else {
        Err(Failure::Absent)
    }
}

/// Prints the component of a line's reference, or an empty line if it is absent.
#[tactic(auto, using(crate::proofs::OutputLemmas::got_or_empty, crate::proofs::OutputLemmas::not_written, crate::proofs::OutputLemmas::rejected_reference))]
pub fn get_or_empty<O: Write>(
    alloc: Global,
    part: Part,
    line: &[u8],
    out: &mut O,
) -> Result<(), Failure>
    ensures { spec.Does (spec.GetsOrEmpty part line.now) (O.contents out.old) (O.contents out.new) result }
{
    let reference = ReferenceView::try_from_bytes(line)?;
    write_part(alloc, &reference, part, out)?;
    print_bytes(b"", out)
}

/// The components of these names, which commas separate.
pub fn read_parts(alloc: Global, names: &str) -> Result<Vec<Part>, Failure>
    ensures { MatchResult result (λ parts. spec.parts_named names.now ≡ Some parts.items) (λ failure. spec.EndsWork failure ⊎ ((spec.parts_named names.now ≡ None) × (failure ≡ Usage))) }
{
    let mut parts = Vec::new(alloc);
    for name in names.split(',') {
        parts.push(read_part(name)?)?;
    }
    Ok(parts)
}

/// Prints the components of a line's reference, with tabs between them. One that is absent is empty.
#[tactic(auto, using(crate::proofs::OutputLemmas::parts_start, crate::proofs::OutputLemmas::not_written, crate::proofs::OutputLemmas::rejected_reference))]
pub fn get_parts<O: Write>(
    alloc: Global,
    parts: &[Part],
    line: &[u8],
    out: &mut O,
) -> Result<(), Failure>
    ensures { spec.Does (spec.GetsParts parts.now line.now) (O.contents out.old) (O.contents out.new) result }
{
    let reference = ReferenceView::try_from_bytes(line)?;
    let mut separator: &[u8] = b"";
    for part in parts {
        out.write_all(separator)?;
        write_part(alloc, &reference, *part, out)?;
        separator = b"\t";
    }
    print_bytes(b"", out)
}

/// Writes the component, and returns whether it is present.
fn write_part<O: Write>(
    alloc: Global,
    reference: &ReferenceView<'_>,
    part: Part,
    out: &mut O,
) -> Result<bool, Failure>
    ensures { spec.WritesIfPresent (spec.part_text part reference.now.parts) (O.contents out.old) (O.contents out.new) result }
{
    match part {
        Part::Scheme => write_present(reference.scheme(), out),
        Part::Authority => write_present(reference.authority(), out),
        Part::Username => write_present(reference.username(), out),
        Part::Password => write_present(reference.password(), out),
        Part::Host => write_present(reference.host(), out),
        Part::Port => write_present(reference.port(), out),
        Part::Path => write_present(Some(reference.path()), out),
        Part::Query => write_present(reference.query(), out),
        Part::Fragment => write_present(reference.fragment(), out),
        Part::Origin => write_origin(alloc, reference, out),
    }
}

/// Writes the value if it is present, and returns whether it is.
fn write_present<T: Display + Drop, O: Write>(
    value: Option<T>,
    out: &mut O,
) -> Result<bool, Failure>
    ensures { MatchOption value (spec.WritesIfPresent None (O.contents out.old) (O.contents out.new) result) (λ v. IfSome (T.output v) (λ t. spec.WritesIfPresent (Some t) (O.contents out.old) (O.contents out.new) result)) }
{
    match value {
        Some(value) => {
            write!(out, "{value}")?;
            Ok(true)
        }
        None => Ok(false),
    }
}

/// Writes the origin if the reference is a URI that has one, and returns whether it is.
#[tactic(auto, using(crate::proofs::OutputLemmas::no_origin))]
fn write_origin<O: Write>(
    alloc: Global,
    reference: &ReferenceView<'_>,
    out: &mut O,
) -> Result<bool, Failure>
    ensures { spec.WritesIfPresent (option_map origin.text (origin.origin reference.now.parts)) (O.contents out.old) (O.contents out.new) result }
{
    if !reference.is_uri() {
        return Ok(false);
    }
    match URIView::try_from_str(reference.as_str()) {
        Ok(uri) => write_present_origin(alloc, uri.origin(), out),
        Err(_) => Ok(false),
    }
}

/// Writes the origin if it is present, and returns whether it is.
#[tactic(auto, using(crate::proofs::OutputLemmas::present_origin, crate::proofs::OutputLemmas::absent_origin))]
fn write_present_origin<O: Write>(
    alloc: Global,
    origin: Option<Origin<'_>>,
    out: &mut O,
) -> Result<bool, Failure>
    ensures { spec.WritesIfPresent (option_map text origin.entry) (O.contents out.old) (O.contents out.new) result }
{
    match Held(origin).0.as_ref() {
        Some(origin) => {
            write_bytes(origin.to_string(alloc)?, out)?;
            Ok(true)
        }
        None => Ok(false),
    }
}

/// Writes the text.
fn write_bytes<O: Write>(text: String, out: &mut O) -> io::Result<()>
    ensures { OnOk result (Appends (O.contents out.old) (O.contents out.new) (string_bytes text)) }
{
    out.write_all(text.as_bytes())
}
