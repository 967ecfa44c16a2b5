//! Promises of `URI` and of its builder. `must-fail` has wrong bodies, as in `test_wrong_texts`.
#![tactic(auto)]

ghost use Rattle.std.specs.Prelude.{◌≡◌, ◌↔◌, Err, IfOk, IsOk, IsTrue, MatchOption, Ok, OnOk, Some, is_some, length, string_bytes, true};
ghost use Rattle.uriparse_text.specs.Readings.{IsUnless};
ghost use Rattle.uriparse_text.specs.declared.segment.error.PathError.TheVariants as paths;
ghost use Rattle.uriparse_reference.specs.Normal.{canonical_texts, normal};
ghost use Rattle.uriparse_reference.specs.Into.{Writes};
ghost use Rattle.uriparse_reference.specs.Ports.{port_or_default};
ghost use Rattle.uriparse_reference.specs.Reference.{Parts, Spells, host_of, print};
ghost use Rattle.uriparse_reference.specs.Relate.{relative};
ghost use Rattle.uriparse_reference.specs.Target.{target};
ghost use Rattle.uriparse.specs.Disagreement as readers;
ghost use Rattle.uriparse.specs.File as files;
ghost use Rattle.uriparse.specs.Kinds.{fault_of, of_kind};
ghost use Rattle.uriparse.specs.Origin as origins;
ghost use Rattle.uriparse.specs.PlaceKey as places;
ghost use Rattle.uriparse.specs.SortKey as keys;
ghost use Rattle.uriparse.specs.Uri.{base as without_fragment, map_error};
ghost use Rattle.uriparse.specs.Within as within;
ghost use Rattle.uriparse.specs.declared.file.error.FileError.TheVariants as file_errors;
ghost use Rattle.uriparse.specs.declared.uri.error.URIError.{URIError};
ghost use Rattle.uriparse.specs.declared.uri.error.URIError.TheVariants as errors;

use std::alloc::{AllocError, Global};
use uriparse::file::{FileError, from_path, to_path};
use uriparse::{
    BufferError, Disagreement, Host, KeyForm, Origin, Query, ReferenceView, URI, URIBuilder,
    URIError, URIReference, URIView, base_prefix_into, domain_prefix_into, place_key_into,
    sort_key_into, sort_key_to_string,
};

/// Reads a URI. A fault, or that there is no scheme, is returned whatever memory there is, and a path
/// of one segment takes none.
pub fn read(alloc: Global, bytes: &[u8]) -> Result<URI<'_>, URIError>
    ensures always { (e : URIError) → fault_of true map_error errors.NotURI bytes.now ≡ Some e → result ≡ Err e }
    ensures takes_no_memory { (p : Parts) → Spells bytes.now p → is_some p.scheme ≡ true → length p.path.segments ≡ 1 → result ≡ Ok p }
{
    URI::try_from_bytes(alloc, bytes)
}

/// Sets a builder's query.
pub fn build_query<'b>(builder: &mut URIBuilder<'b>, query: Option<Query<'b>>)
    ensures { builder.new ≡ record builder.old { query = query.entry } }
{
    builder.query(query);
}

/// Takes a reference for the URI that it is.
pub fn as_uri(reference: URIReference<'_>) -> Result<URI<'_>, URIError>
    ensures { result ≡ of_kind true errors.NotURI reference.entry }
{
    URI::try_from(reference)
}

/// Brings a URI into its normal form. Does not allocate where each text is canonical.
pub fn normalize(uri: &mut URI<'_>, alloc: Global) -> Result<(), AllocError>
    ensures ok { OnOk result (uri.new ≡ normal uri.old) }
    ensures takes_no_memory { canonical_texts uri.old ≡ uri.old → IsOk result }
{
    uri.normalize(alloc)
}

/// The port of a view, or the default port of its scheme.
pub fn port(uri: &URIView<'_>) -> Option<u16>
    ensures { result ≡ port_or_default uri.now.parts }
{
    uri.port_or_default()
}

/// The host of a view of a URI, which is read as a view of any reference is.
pub fn host<'t>(uri: &URIView<'t>) -> Option<Host<'t>>
    ensures { result ≡ host_of uri.now.parts }
{
    uri.host()
}

/// The target of a reference against a base.
pub fn resolve<'a>(
    alloc: Global,
    base: &'a URI<'_>,
    reference: &'a URIReference<'_>,
) -> Result<URI<'a>, URIError>
    ensures answer { MatchOption (target base.now reference.now) (result ≡ Err (errors.Path paths.ExceededMaximumLength)) (λ t. IsUnless (errors.Path paths.OutOfMemory) result (Ok t)) }
    ensures takes_no_memory { length base.now.path.segments ≡ 1 → length reference.now.path.segments ≡ 1 → IsOk result }
{
    base.resolve(alloc, reference)
}

/// The reference that leads from a base to a URI.
pub fn relativize<'a>(
    alloc: Global,
    base: &URI<'_>,
    uri: &'a URI<'_>,
) -> Result<URIReference<'a>, AllocError>
    ensures { IfOk result (λ r. target base.now r ≡ target base.now uri.now) }
{
    base.relativize(alloc, uri)
}

/// The text of the reference that leads from a base to a URI.
pub fn relativize_into(
    base: &URIView<'_>,
    uri: &URIView<'_>,
    out: &mut [u8],
) -> Result<usize, BufferError>
    ensures { Writes (print (relative base.now.parts uri.now.parts)) result out.old out.new }
{
    base.relativize_into(uri, out)
}

/// The URI without its fragment.
pub fn into_base_uri(uri: URI<'_>) -> URI<'_>
    ensures { result ≡ without_fragment uri.entry }
{
    uri.into_base_uri()
}

/// Whether two URIs have the same origin.
pub fn same_origin(left: &URI<'_>, right: &URI<'_>) -> bool
    ensures { result ≡ origins.have_same_origin left.now right.now }
{
    left.same_origin(right)
}

/// Whether a URI is below another one.
pub fn is_within(uri: &URIView<'_>, base: &URIView<'_>) -> bool
    ensures { IsTrue result ↔ within.IsWithin uri.now.parts base.now.parts }
{
    uri.is_within(base)
}

/// The text of an origin, in a buffer.
pub fn write_origin_into(origin: &Origin<'_>, out: &mut [u8]) -> Result<usize, BufferError>
    ensures { Writes (origins.text origin.now) result out.old out.new }
{
    origin.write_into(out)
}

/// The text of an origin.
pub fn write_origin(alloc: Global, origin: &Origin<'_>) -> Result<String, AllocError>
    ensures { IfOk result (λ s. string_bytes s ≡ origins.text origin.now) }
{
    origin.to_string(alloc)
}

/// The URI of a file's path.
pub fn uri_of_path(alloc: Global, path: &[u8]) -> Result<URI<'static>, FileError>
    ensures { IsUnless (file_errors.Path paths.OutOfMemory) result (files.uri_of_path path.now) }
{
    from_path(alloc, path)
}

/// The path of the file that a URI names.
pub fn path_of_uri(alloc: Global, uri: &URI<'_>) -> Result<Vec<u8>, FileError>
    ensures { IfOk result (λ v. files.path_of_uri uri.now ≡ Ok v.items) }
{
    to_path(alloc, uri)
}

/// Writes the sort key of a reference.
pub fn write_key(
    view: &ReferenceView<'_>,
    form: KeyForm,
    out: &mut [u8],
) -> Result<usize, BufferError>
    ensures { Writes (keys.sort_key (keys.in_form form view.now.parts)) result out.old out.new }
{
    sort_key_into(view, form, out)
}

/// The sort key of a reference as it is.
pub fn exact_key(alloc: Global, view: &ReferenceView<'_>) -> Result<String, AllocError>
    ensures { IfOk result (λ s. string_bytes s ≡ keys.sort_key view.now.parts) }
{
    sort_key_to_string(alloc, view, KeyForm::EXACT)
}

/// Whether readers may disagree on a URI for this reason.
pub fn disagrees(uri: &URIView<'_>, reason: Disagreement) -> bool
    ensures { result ≡ readers.disagrees reason uri.now.parts }
{
    uri.disagrees(reason)
}

/// The first reason for which readers may disagree on a URI.
pub fn disagreement(uri: &URIView<'_>) -> Option<Disagreement>
    ensures { result ≡ readers.disagreement uri.now.parts }
{
    uri.disagreement()
}

/// The same of a value.
pub fn disagreement_of_value(value: &URI<'_>) -> Option<Disagreement>
    ensures { result ≡ readers.disagreement value.now }
{
    value.disagreement()
}

/// Whether readers agree on where a reference leads.
pub fn leads_alike(base: &URIView<'_>, reference: &ReferenceView<'_>) -> bool
    ensures { result ≡ readers.leads_alike base.now.parts reference.now.parts }
{
    base.leads_alike(reference)
}

/// Writes the place key of a URI.
pub fn write_place_key(uri: &URIView<'_>, out: &mut [u8]) -> Result<usize, BufferError>
    ensures { Writes (places.place_key uri.now.parts) result out.old out.new }
{
    place_key_into(uri, out)
}

/// Writes what the keys of all URIs within a domain begin with.
pub fn write_domain_prefix(domain: &Host<'_>, out: &mut [u8]) -> Result<usize, BufferError>
    ensures { Writes (places.domain_prefix domain.now) result out.old out.new }
{
    domain_prefix_into(domain, out)
}

/// Writes what the keys of all URIs below a base begin with.
pub fn write_base_prefix(base: &URIView<'_>, out: &mut [u8]) -> Result<usize, BufferError>
    ensures { Writes (places.base_prefix base.now.parts) result out.old out.new }
{
    base_prefix_into(base, out)
}
