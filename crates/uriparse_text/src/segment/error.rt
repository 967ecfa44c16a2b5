//! Errors of paths and segments.
ghost use Rattle.std.specs.Prelude.{◌≡◌, ◌↔◌, IsTrue};
ghost use Rattle.uriparse_text.specs.declared.segment.error.PathError.TheVariants.{OutOfMemory};

use std::alloc::{AllocError, AllocFailed};
use thiserror::Error;

/// Why a text is rejected as a path or a segment. The error is the leftmost fault's.
#[derive(Clone, Copy, Debug, PartialEq, Eq, Hash, Error)]
pub enum PathError {
    /// More segments than a path may have. The fault is at the slash that would start the first one
    /// too many.
    #[error("exceeded maximum path length")]
    ExceededMaximumLength,
    /// A byte that a path cannot have. In a segment, a slash too.
    #[error("invalid path character")]
    InvalidCharacter,
    /// A `%` without two hexadecimal digits after it.
    #[error("invalid path percent encoding")]
    InvalidPercentEncoding,
    /// Out of memory: for the list of segments or, in a list of edits, for a normal form.
    #[error("out of memory")]
    OutOfMemory,
}

impl PathError {
    /// Whether memory ran out, so that the input is not at fault and the same call may succeed later.
    pub fn is_out_of_memory(&self) -> bool
        ensures { IsTrue result ↔ (self.now ≡ OutOfMemory) }
    {
        matches!(self, PathError::OutOfMemory)
    }
}

impl From<AllocError> for PathError {
    ghost from_gives = { λ _ e. e ≡ OutOfMemory };

    fn from(_error: AllocError) -> PathError {
        PathError::OutOfMemory
    }
}

impl<T: Drop> From<AllocFailed<T>> for PathError {
    ghost from_gives = { λ _ e. e ≡ OutOfMemory };

    fn from(_error: AllocFailed<T>) -> PathError {
        PathError::OutOfMemory
    }
}
