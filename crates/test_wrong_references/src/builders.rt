//! Promises of builders.

ghost use Rattle.std.specs.Prelude.{◌≡◌, Some};
ghost use Rattle.uriparse_reference.specs.Builder as spec;

use uriparse_authority::authority::Authority;
use uriparse_path::path::Path;
use uriparse_reference::uri_reference::{URIReference, URIReferenceBuilder, URIReferenceError};
use uriparse_scheme::scheme::Scheme;
use uriparse_text::fragment::Fragment;

/// Sets the scheme.
pub fn set_scheme<'b>(builder: &mut URIReferenceBuilder<'b>, scheme: Option<Scheme<'b>>)
    ensures { builder.new ≡ record builder.old { scheme = scheme.entry } }
{
    builder.scheme(scheme);
}

/// Sets the authority.
pub fn set_authority<'b>(builder: &mut URIReferenceBuilder<'b>, authority: Option<Authority<'b>>)
    ensures { builder.new ≡ record builder.old { authority = authority.entry } }
{
    builder.authority(authority);
}

/// Sets the path.
pub fn set_path<'b>(builder: &mut URIReferenceBuilder<'b>, path: Path<'b>)
    ensures { builder.new ≡ record builder.old { path = Some path.entry } }
{
    builder.path(path);
}

/// Sets the fragment.
pub fn set_fragment<'b>(builder: &mut URIReferenceBuilder<'b>, fragment: Option<Fragment<'b>>)
    ensures { builder.new ≡ record builder.old { fragment = fragment.entry } }
{
    builder.fragment(fragment);
}

/// Builds the reference.
pub fn build(builder: URIReferenceBuilder<'_>) -> Result<URIReference<'_>, URIReferenceError>
    ensures { result ≡ spec.built builder.entry }
{
    builder.build()
}
