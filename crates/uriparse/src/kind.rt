//! The two kinds of references, those with a scheme and those without: RFC 3986, section 4.1.
ghost use Rattle.std.specs.Prelude.{◌≡◌, Bool};
ghost use Rattle.uriparse_reference.specs.declared.uri_reference.error.URIReferenceError.{URIReferenceError};
ghost use Rattle.uriparse.specs.Kinds.{with_mapped_error};

use uriparse_reference::uri_reference::URIReferenceError;

/// A kind of reference: whether its references have a scheme, and how errors are mapped to its own.
pub trait ReferenceKind {
    type Error;

    ghost has_scheme: { Bool };

    // The error of a reference, mapped to the kind's.
    ghost map_error: { URIReferenceError → Self.Error };

    // The error of a reference of the other kind.
    ghost other: { Self.Error };

    /// What `Debug` calls a reference of this kind.
    fn name() -> &'static str;

    fn has_scheme() -> bool
        ensures { result ≡ has_scheme };

    fn map_error(error: URIReferenceError) -> Self::Error
        ensures { result ≡ map_error error };

    fn other() -> Self::Error
        ensures { result ≡ other };
}

/// The result, its error mapped to the kind's.
pub(crate) fn map_error<K: ReferenceKind, T>(
    answer: Result<T, URIReferenceError>,
) -> Result<T, K::Error>
    ensures { result ≡ with_mapped_error K.map_error answer }
{
    match answer {
        Ok(value) => Ok(value),
        Err(error) => Err(K::map_error(error)),
    }
}
