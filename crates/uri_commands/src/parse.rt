//! `uri parse TEXT`: the components of a reference.

ghost use Rattle.std.specs.Prelude.{◌≡◌, Some};
ghost use Rattle.std.specs.Option.{option_copied};
ghost use Rattle.uri_commands.specs.Output as spec;

use crate::failure::Failure;
use crate::print::{print_line, print_part};
use crate::topic::Topic;
use std::alloc::Global;
use std::io::Write;
use uriparse::{Authority, Host, URIReference};

pub static ABOUT: Topic = (
    "parse",
    "\
Prints a reference, then each of its components.

Usage: uri parse TEXT
       uri --json parse TEXT
       uri --quiet parse TEXT
       uri --explain parse TEXT
       uri --lines parse
       uri --lines --quiet parse
       uri --lines --explain parse

Use it to check input, or to see what it is made of. Each component that is
present is a line NAME=VALUE: scheme, username, password, host, port, path,
query and fragment. The name of a host says its kind: host.ipv4, host.ipv6,
host.ipvfuture or host.name. With --lines, parse prints a JSON object for each
line. See uri help --json, --quiet, --explain and --lines.

Exit status: 0 on success, 1 if TEXT is not a reference, 2 on a usage error.

Example:
    uri parse 'HTTP://u@h:80/%7Eb?q#f'
prints
    http://u@h:80/%7Eb?q#f
    scheme=http
    username=u
    host.name=h
    port=80
    path=/%7Eb
    query=q
    fragment=f
",
);

/// Prints the reference, its path, and its other components if present, a line each.
#[tactic(auto, using(crate::proofs::ComponentLemmas::parsed, crate::proofs::OutputLemmas::rejected_unless))]
pub fn parse<O: Write>(alloc: Global, text: &str, out: &mut O) -> Result<(), Failure>
    ensures { spec.Does (spec.Parses text.now) (O.contents out.old) (O.contents out.new) result }
{
    let reference = URIReference::try_from_str(alloc, text)?;
    print_reference(&reference, out)
}

/// Prints the reference and its components.
fn print_reference<O: Write>(reference: &URIReference<'_>, out: &mut O) -> Result<(), Failure>
    ensures { spec.Writes (spec.reference_lines reference.now) (O.contents out.old) (O.contents out.new) result }
{
    print_line(reference, out)?;
    print_part("scheme", reference.scheme(), out)?;
    print_authority(reference.authority(), out)?;
    print_part("path", Some(reference.path()), out)?;
    print_part("query", reference.query(), out)?;
    print_part("fragment", reference.fragment(), out)
}

/// Prints the authority's components, if there is an authority.
#[tactic(auto, using(crate::proofs::ComponentLemmas::authority_line, crate::proofs::ComponentLemmas::no_authority_line))]
fn print_authority<O: Write>(authority: Option<&Authority<'_>>, out: &mut O) -> Result<(), Failure>
    ensures { spec.Writes (spec.authority_components (option_copied authority.entry)) (O.contents out.old) (O.contents out.new) result }
{
    match authority {
        Some(authority) => print_components(authority, out),
        None => Ok(()),
    }
}

/// Prints the host, and the authority's other components if present, a line each.
fn print_components<O: Write>(authority: &Authority<'_>, out: &mut O) -> Result<(), Failure>
    ensures { spec.Writes (spec.authority_components (Some authority.now)) (O.contents out.old) (O.contents out.new) result }
{
    print_part("username", authority.username(), out)?;
    print_part("password", authority.password(), out)?;
    let host = authority.host();
    print_part(host_name(host), Some(host), out)?;
    print_part("port", authority.port().as_ref(), out)
}

/// The name of a line for a host of this kind.
fn host_name(host: &Host<'_>) -> &'static str
    ensures { result.now ≡ spec.host_name host.now }
{
    match host {
        Host::IPv4Address(_) => "host.ipv4",
        Host::IPv6Address(_) => "host.ipv6",
        Host::IPvFuture(_) => "host.ipvfuture",
        Host::RegisteredName(_) => "host.name",
    }
}
