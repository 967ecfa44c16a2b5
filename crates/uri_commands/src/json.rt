//! `uri --json parse TEXT`: a reference as a JSON object, on a line of its own.
//!
//! The object is written by hand. Its members are, always in this order, `text`, `scheme`,
//! `username`, `password`, `host`, `host_kind`, `port`, `path`, `query`, `fragment` and `segments`.
//! The port is a number and the segments are a list; all else is a string, or `null` if it is
//! absent.

ghost use Rattle.std.specs.Prelude.{◌≡◌, ◌<◌, ◌∷◌, ◌++◌, ℕ, List, [], IfErr, IfSome, OnOk, codes, length, true};
ghost use Rattle.std.specs.Io.KnownBytes.{Appends};
ghost use Rattle.std.specs.List.{list_all};
ghost use Rattle.std.specs.Option.{option_copied, option_map};
ghost use Rattle.uriparse.specs.Host as spec;
ghost use Rattle.uriparse.specs.Reading.{fault};
ghost use Rattle.uriparse.specs.Reference.{Parts, Spells};
ghost use Rattle.uriparse.specs.Scheme as scheme;
ghost use Rattle.uriparse.specs.URIReferenceError.{URIReferenceError};
ghost use Rattle.uri_commands.specs.Json.{back_members, escaped, followers, scheme_and_userinfo_members, host_members, needs_no_json_escape, kind_name, member, member_text, name_of, object, opening, port_members, segment_members, string_or_null};
ghost use Rattle.uri_commands.specs.Json as json;
ghost use Rattle.uri_commands.specs.Output as output;
ghost use Rattle.uri_commands.specs.Lines.{newline};
ghost use Rattle.uri_commands.specs.declared.failure.Failure.TheVariants as failures;
ghost use Rattle.uri_commands.specs.declared.failure.StreamError.{StreamError};

pub mod laws;

use crate::failure::Failure;
use crate::topic::Topic;
use std::io;
use std::io::Write;
use uriparse::{Host, ReferenceView, Scheme, Segments, Text, TextKind};
use uriparse_text::internal::Held;

pub static ABOUT: Topic = (
    "--json",
    "\
Prints the reference as a JSON object on one line.

Usage: uri --json parse TEXT
       uri --lines --json parse

Use it to hand components to programs that read JSON. The members are, in this
order, text, scheme, username, password, host, host_kind, port, path, query,
fragment and segments. The text is the input. The host_kind is ipv4, ipv6,
ipvfuture or name, the port is a number, and segments are the parts of the path
between its slashes. What is absent is null, what is empty is \"\". With --lines
the option changes nothing, since parse prints objects then.

Exit status: 0 on success, 1 if TEXT is not a reference, 2 on a usage error.

Example:
    uri --json parse '//h/a?' | tr ',' '\\n'
prints
    {\"text\":\"//h/a?\"
    \"scheme\":null
    \"username\":null
    \"password\":null
    \"host\":\"h\"
    \"host_kind\":\"name\"
    \"port\":null
    \"path\":\"/a\"
    \"query\":\"\"
    \"fragment\":null
    \"segments\":[\"a\"]}
",
);

/// Writes a text that a JSON string holds unchanged, as each text of a reference and each address:
/// none has a quote, a `\` or a control character (RFC 3986, section 2). So no byte is tested.
#[tactic(auto, using(crate::proofs::JsonLemmas::escaped_plain))]
fn write_plain<O: Write>(text: &[u8], out: &mut O) -> io::Result<()>
    requires { list_all needs_no_json_escape text.now ≡ true }
    ensures { OnOk result (Appends (O.contents out.old) (O.contents out.new) (escaped text.now)) }
{
    out.write_all(text)
}

/// A member that isn't the first and whose value is a string or absent.
#[derive(Clone, Copy, Drop)]
enum Name {
    Scheme,
    Username,
    Password,
    Path,
    Query,
    Fragment,
}

impl Name {
    /// What precedes the text: the name, and the quote that begins the text.
    fn opening(self) -> &'static [u8]
        ensures { result.now ≡ opening (name_of self) }
    {
        match self {
            Name::Scheme => b",\"scheme\":\"",
            Name::Username => b",\"username\":\"",
            Name::Password => b",\"password\":\"",
            Name::Path => b",\"path\":\"",
            Name::Query => b",\"query\":\"",
            Name::Fragment => b",\"fragment\":\"",
        }
    }

    /// The whole member, if the value is absent.
    fn absent(self) -> &'static [u8]
        ensures { result.now ≡ followers (member (name_of self) json.Null ∷ []) }
    {
        match self {
            Name::Scheme => b",\"scheme\":null",
            Name::Username => b",\"username\":null",
            Name::Password => b",\"password\":null",
            Name::Path => b",\"path\":null",
            Name::Query => b",\"query\":null",
            Name::Fragment => b",\"fragment\":null",
        }
    }
}

/// Writes the member of this name, in three pieces, or in one if it is absent.
fn write_member<O: Write>(name: Name, text: Option<&[u8]>, out: &mut O) -> io::Result<()>
    requires { IfSome text (λ t. list_all needs_no_json_escape t.now ≡ true) }
    ensures { OnOk result (Appends (O.contents out.old) (O.contents out.new) (followers (member (name_of name) (string_or_null (option_copied text.entry)) ∷ []))) }
{
    match text {
        Some(text) => {
            out.write_all(name.opening())?;
            write_plain(text, out)?;
            out.write_all(b"\"")
        }
        None => out.write_all(name.absent()),
    }
}

/// Writes the member `text`, the first, after the brace.
fn write_text<O: Write>(text: &[u8], out: &mut O) -> io::Result<()>
    requires { list_all needs_no_json_escape text.now ≡ true }
    ensures { OnOk result (Appends (O.contents out.old) (O.contents out.new) (codes "{" ++ member_text (member (codes "text") (json.String text.now)))) }
{
    out.write_all(b"{\"text\":\"")?;
    write_plain(text, out)?;
    out.write_all(b"\"")
}

/// The bytes of a scheme, if it is present.
#[tactic(auto, using(crate::proofs::JsonLemmas::plain_scheme))]
fn scheme_bytes<'c>(found: Option<&'c Scheme<'_>>) -> Option<&'c [u8]>
    ensures value { option_copied result ≡ option_map scheme.text (option_copied found.entry) }
    ensures plain { IfSome result (λ t. list_all needs_no_json_escape t.now ≡ true) }
{
    match found {
        Some(scheme) => Some(scheme.as_bytes()),
        None => None,
    }
}

/// The bytes of a component, if it is present.
fn text_bytes<'c, K: TextKind>(found: Option<&'c Text<'_, K>>) -> Option<&'c [u8]>
    ensures value { option_copied result ≡ option_copied found.entry }
    ensures plain { IfSome result (λ t. list_all needs_no_json_escape t.now ≡ true) }
{
    match found {
        Some(text) => Some(text.as_bytes()),
        None => None,
    }
}

/// Writes the members `scheme`, `username` and `password`.
fn write_scheme_and_userinfo<O: Write>(reference: &ReferenceView<'_>, out: &mut O) -> io::Result<()>
    ensures { OnOk result (Appends (O.contents out.old) (O.contents out.new) (followers (scheme_and_userinfo_members reference.now.parts))) }
{
    let scheme = Held(reference.scheme());
    let scheme = scheme_bytes(scheme.0.as_ref());
    write_member(Name::Scheme, scheme, out)?;
    let username = Held(reference.username());
    let username = text_bytes(username.0.as_ref());
    write_member(Name::Username, username, out)?;
    let password = Held(reference.password());
    let password = text_bytes(password.0.as_ref());
    write_member(Name::Password, password, out)
}

/// What the object calls a host of this kind.
fn host_kind(host: &Host<'_>) -> &'static str
    ensures value { result.now ≡ kind_name (spec.kind host.now) }
    ensures plain { list_all needs_no_json_escape result.now ≡ true }
{
    match host {
        Host::IPv4Address(_) => "ipv4",
        Host::IPv6Address(_) => "ipv6",
        Host::IPvFuture(_) => "ipvfuture",
        Host::RegisteredName(_) => "name",
    }
}

/// Writes a host that is present, with the brackets that it has in the text. Only IPv4 and IPv6
/// addresses are formatted.
fn write_host_text<O: Write>(host: &Host<'_>, out: &mut O) -> io::Result<()>
    ensures { OnOk result (Appends (O.contents out.old) (O.contents out.new) (escaped (spec.text host.now))) }
{
    match host {
        Host::IPv4Address(address) => write!(out, "{address}"),
        Host::IPv6Address(address) => write!(out, "[{address}]"),
        Host::IPvFuture(address) => {
            out.write_all(b"[")?;
            write_plain(address.as_bytes(), out)?;
            out.write_all(b"]")
        }
        Host::RegisteredName(name) => write_plain(name.as_bytes(), out),
    }
}

/// Writes the members `host` and `host_kind`.
fn write_host<O: Write>(host: Option<&Host<'_>>, out: &mut O) -> io::Result<()>
    ensures { OnOk result (Appends (O.contents out.old) (O.contents out.new) (followers (host_members (option_copied host.entry)))) }
{
    match host {
        Some(host) => {
            out.write_all(b",\"host\":\"")?;
            write_host_text(host, out)?;
            out.write_all(b"\",\"host_kind\":\"")?;
            write_plain(host_kind(host).as_bytes(), out)?;
            out.write_all(b"\"")
        }
        None => out.write_all(b",\"host\":null,\"host_kind\":null"),
    }
}

/// Writes the member `port`, a number.
fn write_port<O: Write>(port: Option<u16>, out: &mut O) -> io::Result<()>
    ensures { OnOk result (Appends (O.contents out.old) (O.contents out.new) (followers (port_members port))) }
{
    match port {
        Some(port) => write!(out, ",\"port\":{port}"),
        None => out.write_all(b",\"port\":null"),
    }
}

/// Writes the member `segments`, a list of at least one text.
fn write_segments<O: Write>(segments: Segments<'_>, out: &mut O) -> io::Result<()>
    requires { 0 < length segments }
    ensures { OnOk result (Appends (O.contents out.old) (O.contents out.new) (followers (segment_members segments.entry))) }
{
    let mut separator: &[u8] = b",\"segments\":[\"";
    for segment in segments {
        let segment = Held(segment);
        out.write_all(separator)?;
        write_plain(segment.0.as_bytes(), out)?;
        separator = b"\",\"";
    }
    out.write_all(b"\"]")
}

/// Writes the members of the path, the query and the fragment.
#[tactic(auto, using(crate::proofs::JsonLemmas::plain_path))]
fn write_back<O: Write>(reference: &ReferenceView<'_>, out: &mut O) -> io::Result<()>
    ensures { OnOk result (Appends (O.contents out.old) (O.contents out.new) (followers (back_members reference.now.parts))) }
{
    let path = Held(reference.path());
    let path = Some(path.0.as_bytes());
    write_member(Name::Path, path, out)?;
    let query = Held(reference.query());
    let query = text_bytes(query.0.as_ref());
    write_member(Name::Query, query, out)?;
    let fragment = Held(reference.fragment());
    let fragment = text_bytes(fragment.0.as_ref());
    write_member(Name::Fragment, fragment, out)
}

/// Writes the object, and a newline.
fn write_object<O: Write>(reference: &ReferenceView<'_>, out: &mut O) -> io::Result<()>
    ensures { OnOk result (Appends (O.contents out.old) (O.contents out.new) (object reference.now.text reference.now.parts ++ newline ∷ [])) }
{
    write_text(reference.as_str().as_bytes(), out)?;
    write_scheme_and_userinfo(reference, out)?;
    write_host(Held(reference.host()).0.as_ref(), out)?;
    write_port(reference.port(), out)?;
    write_back(reference, out)?;
    write_segments(reference.segments(), out)?;
    out.write_all(b"}\n")
}

/// Prints the reference that the text spells as a JSON object, with the text as it was given. Does
/// not allocate.
#[tactic(auto, using(crate::proofs::OutputLemmas::object_printed, crate::proofs::OutputLemmas::rejected_reference))]
pub fn parse_json<O: Write>(text: &[u8], out: &mut O) -> Result<(), Failure>
    // What is printed is the object of the text and of the components that it spells.
    ensures object { OnOk result ((p : Parts) × Spells text.now p × Appends (O.contents out.old) (O.contents out.new) (object text.now p ++ newline ∷ [])) }

    // Such a text fails only if a write does.
    ensures only { (p : Parts) → Spells text.now p → IfErr result (λ f. (e : StreamError) × (f ≡ failures.Output e)) }

    // Any other text is rejected with its fault, and nothing is printed.
    ensures fault { (e : URIReferenceError) → fault text.now ≡ Some e → (result ≡ Err (failures.Reference e)) × (out.new ≡ out.old) }
    ensures answer { output.Does (output.ParsesJson text.now) (O.contents out.old) (O.contents out.new) result }
{
    match ReferenceView::try_from_bytes(text) {
        Ok(reference) => match write_object(&reference, out) {
            Ok(()) => Ok(()),
            Err(error) => Err(Failure::Output(error.into())),
        },
        Err(error) => Err(Failure::Reference(error)),
    }
}
