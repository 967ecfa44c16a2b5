//! Why a relative reference is rejected.
ghost use Rattle.std.specs.Prelude.{◌≡◌, ◌↔◌, IsTrue};
ghost use Rattle.uriparse_text.specs.declared.segment.error.PathError.TheVariants.{OutOfMemory};
ghost use Rattle.uriparse.specs.declared.relative_reference.error.RelativeReferenceError.TheVariants as errors;

use std::alloc::{AllocError, AllocFailed};
use thiserror::Error;
use uriparse_authority::authority::AuthorityError;
use uriparse_path::path::PathError;
use uriparse_reference::uri_reference::URIReferenceError;
use uriparse_text::fragment::FragmentError;
use uriparse_text::query::QueryError;

/// Why a text or a set of components is not a relative reference: the fault of its first faulty
/// component.
#[derive(Clone, Copy, Debug, PartialEq, Eq, Hash, Error)]
pub enum RelativeReferenceError {
    /// Without an authority the path would begin with two slashes. Reading never returns this.
    #[error("absolute path starts with two slashes")]
    AbsolutePathStartsWithTwoSlashes,
    /// Without an authority the first segment of a relative path has a colon.
    #[error("relative reference schemeless path starts with colon segment")]
    SchemelessPathStartsWithColonSegment,
    /// A builder has no path. Reading never returns this.
    #[error("missing path")]
    MissingPath,
    /// The text or the reference has a scheme.
    #[error("not relative reference")]
    NotRelativeReference,
    /// The authority's fault.
    #[error(transparent)]
    Authority(AuthorityError),
    /// The path's fault, or out of memory.
    #[error(transparent)]
    Path(PathError),
    /// The query's fault.
    #[error(transparent)]
    Query(QueryError),
    /// The fragment's fault.
    #[error(transparent)]
    Fragment(FragmentError),
}

impl RelativeReferenceError {
    /// Whether memory ran out, so that the input is not at fault and the same call may succeed later.
    pub fn is_out_of_memory(&self) -> bool
        ensures { IsTrue result ↔ (self.now ≡ errors.Path OutOfMemory) }
    {
        matches!(self, RelativeReferenceError::Path(PathError::OutOfMemory))
    }
}

impl From<AuthorityError> for RelativeReferenceError {
    ghost from_gives = { λ x e. e ≡ errors.Authority x };

    fn from(error: AuthorityError) -> RelativeReferenceError {
        RelativeReferenceError::Authority(error)
    }
}

impl From<PathError> for RelativeReferenceError {
    ghost from_gives = { λ x e. e ≡ errors.Path x };

    fn from(error: PathError) -> RelativeReferenceError {
        RelativeReferenceError::Path(error)
    }
}

impl From<QueryError> for RelativeReferenceError {
    ghost from_gives = { λ x e. e ≡ errors.Query x };

    fn from(error: QueryError) -> RelativeReferenceError {
        RelativeReferenceError::Query(error)
    }
}

impl From<FragmentError> for RelativeReferenceError {
    ghost from_gives = { λ x e. e ≡ errors.Fragment x };

    fn from(error: FragmentError) -> RelativeReferenceError {
        RelativeReferenceError::Fragment(error)
    }
}

/// The error of a reference as the error of a relative reference, or `Err` for a fault of a scheme,
/// which no relative reference has.
impl TryFrom<URIReferenceError> for RelativeReferenceError {
    type Error = ();

    ghost use Rattle.std.specs.Prelude.{◌≡◌};
    ghost use Rattle.std.specs.Option.{ok_or};
    ghost use Rattle.uriparse.specs.RelativeReference.{relative_error};

    ghost try_from_gives = { λ e answer. answer ≡ ok_or (relative_error e) tt };

    fn try_from(error: URIReferenceError) -> Result<RelativeReferenceError, ()> {
        match error {
            URIReferenceError::AbsolutePathStartsWithTwoSlashes => {
                Ok(RelativeReferenceError::AbsolutePathStartsWithTwoSlashes)
            }
            URIReferenceError::SchemelessPathStartsWithColonSegment => {
                Ok(RelativeReferenceError::SchemelessPathStartsWithColonSegment)
            }
            URIReferenceError::MissingPath => Ok(RelativeReferenceError::MissingPath),
            URIReferenceError::Authority(error) => Ok(RelativeReferenceError::Authority(error)),
            URIReferenceError::Path(error) => Ok(RelativeReferenceError::Path(error)),
            URIReferenceError::Query(error) => Ok(RelativeReferenceError::Query(error)),
            URIReferenceError::Fragment(error) => Ok(RelativeReferenceError::Fragment(error)),
            URIReferenceError::Scheme(_) => Err(()),
        }
    }
}

/// The error of a reference as the error of a relative reference: a fault of a scheme, which
/// no relative reference has, is mapped to
/// [`NotRelativeReference`](RelativeReferenceError::NotRelativeReference).
impl From<URIReferenceError> for RelativeReferenceError {
    ghost use Rattle.uriparse.specs.RelativeReference.{map_error};

    ghost from_gives = { λ x e. e ≡ map_error x };

    fn from(error: URIReferenceError) -> RelativeReferenceError {
        RelativeReferenceError::try_from(error).unwrap_or(
            RelativeReferenceError::NotRelativeReference,
        )
    }
}

impl From<AllocError> for RelativeReferenceError {
    ghost from_gives = { λ _ e. e ≡ errors.Path OutOfMemory };

    fn from(_error: AllocError) -> RelativeReferenceError {
        RelativeReferenceError::Path(PathError::OutOfMemory)
    }
}

impl<T: Drop> From<AllocFailed<T>> for RelativeReferenceError {
    ghost from_gives = { λ _ e. e ≡ errors.Path OutOfMemory };

    fn from(_error: AllocFailed<T>) -> RelativeReferenceError {
        RelativeReferenceError::Path(PathError::OutOfMemory)
    }
}
