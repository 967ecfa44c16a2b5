//! Why a URI is rejected.
ghost use Rattle.std.specs.Prelude.{◌≡◌, ◌↔◌, IsTrue};
ghost use Rattle.uriparse_text.specs.declared.segment.error.PathError.TheVariants.{OutOfMemory};
ghost use Rattle.uriparse.specs.declared.uri.error.URIError.TheVariants as errors;

use std::alloc::{AllocError, AllocFailed};
use thiserror::Error;
use uriparse_authority::authority::AuthorityError;
use uriparse_path::path::PathError;
use uriparse_reference::uri_reference::URIReferenceError;
use uriparse_scheme::scheme::SchemeError;
use uriparse_text::fragment::FragmentError;
use uriparse_text::query::QueryError;

/// Why a text or a set of components is not a URI: the fault of its first faulty component.
#[derive(Clone, Copy, Debug, PartialEq, Eq, Hash, Error)]
pub enum URIError {
    /// Without an authority the path would begin with two slashes. Reading never returns this.
    #[error("absolute path URI starts with two slashes")]
    AbsolutePathStartsWithTwoSlashes,
    /// A builder has no path. Reading never returns this.
    #[error("missing path")]
    MissingPath,
    /// A builder has no scheme. Reading never returns this.
    #[error("missing scheme")]
    MissingScheme,
    /// The text or the reference has no scheme.
    #[error("not URI")]
    NotURI,
    /// The authority's fault.
    #[error(transparent)]
    Authority(AuthorityError),
    /// The path's fault, out of memory or, from `resolve`, merged paths that are too long.
    #[error(transparent)]
    Path(PathError),
    /// The query's fault.
    #[error(transparent)]
    Query(QueryError),
    /// The fragment's fault.
    #[error(transparent)]
    Fragment(FragmentError),
    /// The scheme's fault, from a builder. Reading never returns this: a text that does not begin
    /// with a scheme has none.
    #[error(transparent)]
    Scheme(SchemeError),
}

impl URIError {
    /// Whether memory ran out, so that the input is not at fault and the same call may succeed later.
    pub fn is_out_of_memory(&self) -> bool
        ensures { IsTrue result ↔ (self.now ≡ errors.Path OutOfMemory) }
    {
        matches!(self, URIError::Path(PathError::OutOfMemory))
    }
}

impl From<AuthorityError> for URIError {
    ghost from_gives = { λ x e. e ≡ errors.Authority x };

    fn from(error: AuthorityError) -> URIError {
        URIError::Authority(error)
    }
}

impl From<PathError> for URIError {
    ghost from_gives = { λ x e. e ≡ errors.Path x };

    fn from(error: PathError) -> URIError {
        URIError::Path(error)
    }
}

impl From<QueryError> for URIError {
    ghost from_gives = { λ x e. e ≡ errors.Query x };

    fn from(error: QueryError) -> URIError {
        URIError::Query(error)
    }
}

impl From<FragmentError> for URIError {
    ghost from_gives = { λ x e. e ≡ errors.Fragment x };

    fn from(error: FragmentError) -> URIError {
        URIError::Fragment(error)
    }
}

impl From<SchemeError> for URIError {
    ghost from_gives = { λ x e. e ≡ errors.Scheme x };

    fn from(error: SchemeError) -> URIError {
        URIError::Scheme(error)
    }
}

/// The error of a reference as the error of a URI, or `Err` for `SchemelessPathStartsWithColonSegment`,
/// which no URI has.
impl TryFrom<URIReferenceError> for URIError {
    type Error = ();

    ghost use Rattle.std.specs.Prelude.{◌≡◌};
    ghost use Rattle.std.specs.Option.{ok_or};
    ghost use Rattle.uriparse.specs.Uri.{uri_error};

    ghost try_from_gives = { λ e answer. answer ≡ ok_or (uri_error e) tt };

    fn try_from(error: URIReferenceError) -> Result<URIError, ()> {
        match error {
            URIReferenceError::AbsolutePathStartsWithTwoSlashes => {
                Ok(URIError::AbsolutePathStartsWithTwoSlashes)
            }
            URIReferenceError::SchemelessPathStartsWithColonSegment => Err(()),
            URIReferenceError::MissingPath => Ok(URIError::MissingPath),
            URIReferenceError::Authority(error) => Ok(URIError::Authority(error)),
            URIReferenceError::Path(error) => Ok(URIError::Path(error)),
            URIReferenceError::Query(error) => Ok(URIError::Query(error)),
            URIReferenceError::Fragment(error) => Ok(URIError::Fragment(error)),
            URIReferenceError::Scheme(error) => Ok(URIError::Scheme(error)),
        }
    }
}

/// The error of a reference as the error of a URI: `SchemelessPathStartsWithColonSegment`, which no
/// URI has, is mapped to [`NotURI`](URIError::NotURI).
impl From<URIReferenceError> for URIError {
    ghost use Rattle.uriparse.specs.Uri.{map_error};

    ghost from_gives = { λ x e. e ≡ map_error x };

    fn from(error: URIReferenceError) -> URIError {
        URIError::try_from(error).unwrap_or(URIError::NotURI)
    }
}

impl From<AllocError> for URIError {
    ghost from_gives = { λ _ e. e ≡ errors.Path OutOfMemory };

    fn from(_error: AllocError) -> URIError {
        URIError::Path(PathError::OutOfMemory)
    }
}

impl<T: Drop> From<AllocFailed<T>> for URIError {
    ghost from_gives = { λ _ e. e ≡ errors.Path OutOfMemory };

    fn from(_error: AllocFailed<T>) -> URIError {
        URIError::Path(PathError::OutOfMemory)
    }
}
