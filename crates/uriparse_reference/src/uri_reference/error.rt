//! Why a text is not a reference, or is not written to a buffer.
ghost use Rattle.std.specs.Prelude.{◌≡◌, ◌↔◌, IsTrue};
ghost use Rattle.uriparse_text.specs.declared.segment.error.PathError.TheVariants.{OutOfMemory};
ghost use Rattle.uriparse_reference.specs.declared.uri_reference.error.BufferError.TheVariants as buffers;
ghost use Rattle.uriparse_reference.specs.declared.uri_reference.error.TargetError.TheVariants as targets;
ghost use Rattle.uriparse_reference.specs.declared.uri_reference.error.URIReferenceError.TheVariants as errors;

use std::alloc::{AllocError, AllocFailed};
use thiserror::Error;
use uriparse_authority::authority::AuthorityError;
use uriparse_path::path::PathError;
use uriparse_scheme::scheme::SchemeError;
use uriparse_text::fragment::FragmentError;
use uriparse_text::internal::TooSmall;
use uriparse_text::query::QueryError;

/// Why a text or a set of components is not a reference: the fault of the first component with one.
#[derive(Clone, Copy, Debug, PartialEq, Eq, Hash, Error)]
pub enum URIReferenceError {
    /// Without an authority the path would start with `//`. Reading never returns this.
    #[error("absolute path URI reference starts with two slashes")]
    AbsolutePathStartsWithTwoSlashes,
    /// With neither a scheme nor an authority, the first segment of a relative path has a colon.
    #[error("schemeless path URI reference starts with colon segment")]
    SchemelessPathStartsWithColonSegment,
    /// A builder has no path. Reading never returns this.
    #[error("URI reference missing path")]
    MissingPath,
    /// The authority is not valid.
    #[error(transparent)]
    Authority(AuthorityError),
    /// The path is not valid, or memory ran out.
    #[error(transparent)]
    Path(PathError),
    /// The query is not valid.
    #[error(transparent)]
    Query(QueryError),
    /// The fragment is not valid.
    #[error(transparent)]
    Fragment(FragmentError),
    /// The scheme is not valid. Reading never returns this: a text without a valid scheme has none.
    #[error(transparent)]
    Scheme(SchemeError),
}

/// A text that was given away to be read, and its fault: both come back.
#[derive(Drop)]
pub struct RejectedText<E> {
    /// The text, as it was given.
    pub text: String,
    /// Why it was rejected.
    pub error: E,
}

/// Why a text is not written to a buffer, which is then unchanged.
#[derive(Clone, Copy, Debug, PartialEq, Eq, Hash, Error)]
pub enum BufferError {
    /// The buffer is too small for the text, whose length in bytes this is, or `usize::MAX` if it
    /// is longer.
    #[error("buffer too small for {0} bytes")]
    TooSmall(usize),
    /// The base of a target has no scheme.
    #[error("base without a scheme")]
    RelativeBase,
    /// The merged paths of a target have more segments than a path may have.
    #[error("merged path with too many segments")]
    TooManySegments,
}

impl From<TooSmall> for BufferError {
    ghost from_gives = { λ x e. e ≡ buffers.TooSmall x.needed };

    fn from(error: TooSmall) -> BufferError {
        BufferError::TooSmall(error.needed)
    }
}

/// Why there is no text of a target.
#[derive(Clone, Copy, Debug, PartialEq, Eq, Hash, Error)]
pub enum TargetError {
    /// The base has no scheme.
    #[error("base without a scheme")]
    RelativeBase,
    /// The merged paths have more segments than a path may have.
    #[error("merged path with too many segments")]
    TooManySegments,
    /// Out of memory, for the text.
    #[error("out of memory")]
    OutOfMemory,
}

impl URIReferenceError {
    /// Whether memory ran out, so that the input is not at fault and the same call may succeed later.
    pub fn is_out_of_memory(&self) -> bool
        ensures { IsTrue result ↔ (self.now ≡ errors.Path OutOfMemory) }
    {
        matches!(self, URIReferenceError::Path(PathError::OutOfMemory))
    }
}

impl TargetError {
    /// Whether memory ran out, so that the input is not at fault and the same call may succeed later.
    pub fn is_out_of_memory(&self) -> bool
        ensures { IsTrue result ↔ (self.now ≡ targets.OutOfMemory) }
    {
        matches!(self, TargetError::OutOfMemory)
    }
}

impl From<AuthorityError> for URIReferenceError {
    ghost from_gives = { λ x e. e ≡ errors.Authority x };

    fn from(error: AuthorityError) -> URIReferenceError {
        URIReferenceError::Authority(error)
    }
}

impl From<PathError> for URIReferenceError {
    ghost from_gives = { λ x e. e ≡ errors.Path x };

    fn from(error: PathError) -> URIReferenceError {
        URIReferenceError::Path(error)
    }
}

impl From<QueryError> for URIReferenceError {
    ghost from_gives = { λ x e. e ≡ errors.Query x };

    fn from(error: QueryError) -> URIReferenceError {
        URIReferenceError::Query(error)
    }
}

impl From<FragmentError> for URIReferenceError {
    ghost from_gives = { λ x e. e ≡ errors.Fragment x };

    fn from(error: FragmentError) -> URIReferenceError {
        URIReferenceError::Fragment(error)
    }
}

impl From<SchemeError> for URIReferenceError {
    ghost from_gives = { λ x e. e ≡ errors.Scheme x };

    fn from(error: SchemeError) -> URIReferenceError {
        URIReferenceError::Scheme(error)
    }
}

impl From<AllocError> for URIReferenceError {
    ghost from_gives = { λ _ e. e ≡ errors.Path OutOfMemory };

    fn from(_error: AllocError) -> URIReferenceError {
        URIReferenceError::Path(PathError::OutOfMemory)
    }
}

impl<T: Drop> From<AllocFailed<T>> for URIReferenceError {
    ghost from_gives = { λ _ e. e ≡ errors.Path OutOfMemory };

    fn from(_error: AllocFailed<T>) -> URIReferenceError {
        URIReferenceError::Path(PathError::OutOfMemory)
    }
}
