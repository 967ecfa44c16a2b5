//! Why a path has no file URI, or a URI names no file's path.
ghost use Rattle.std.specs.Prelude.{◌≡◌, ◌↔◌, IsTrue};
ghost use Rattle.uriparse_text.specs.declared.segment.error.PathError.TheVariants.{OutOfMemory};
ghost use Rattle.uriparse.specs.declared.file.error.FileError.TheVariants as errors;

use std::alloc::{AllocError, AllocFailed};
use thiserror::Error;
use uriparse_path::path::PathError;

/// Why a path has no file URI, or a URI names no path.
#[derive(Clone, Copy, Debug, PartialEq, Eq, Hash, Error)]
pub enum FileError {
    /// The path does not begin with a slash.
    #[error("file path is not absolute")]
    NotAbsolute,
    /// The path has a NUL byte, in a URI `%00`, which no file's path has.
    #[error("file path contains NUL byte")]
    ContainsNul,
    /// The URI's scheme is not `file`.
    #[error("not file URI")]
    NotFile,
    /// The URI has a user name.
    #[error("file URI has user name")]
    HasUsername,
    /// The URI's host is neither empty nor `localhost`, so the file is on another machine.
    #[error("file URI names another host")]
    NotLocal,
    /// The URI has a port.
    #[error("file URI has port")]
    HasPort,
    /// The URI has a query.
    #[error("file URI has query")]
    HasQuery,
    /// The URI has a fragment.
    #[error("file URI has fragment")]
    HasFragment,
    /// A segment of the URI's path has a slash as `%2F`, which no file's name has.
    #[error("file URI has escaped slash")]
    EscapedSlash,
    /// The path has more segments than a URI's may have, or memory ran out.
    #[error(transparent)]
    Path(PathError),
}

impl FileError {
    /// Whether memory ran out, so that the input is not at fault and the same call may succeed later.
    pub fn is_out_of_memory(&self) -> bool
        ensures { IsTrue result ↔ (self.now ≡ errors.Path OutOfMemory) }
    {
        matches!(self, FileError::Path(PathError::OutOfMemory))
    }
}

impl From<PathError> for FileError {
    ghost from_gives = { λ x e. e ≡ errors.Path x };

    fn from(error: PathError) -> FileError {
        FileError::Path(error)
    }
}

impl From<AllocError> for FileError {
    ghost from_gives = { λ _ e. e ≡ errors.Path OutOfMemory };

    fn from(_error: AllocError) -> FileError {
        FileError::Path(PathError::OutOfMemory)
    }
}

impl<T: Drop> From<AllocFailed<T>> for FileError {
    ghost from_gives = { λ _ e. e ≡ errors.Path OutOfMemory };

    fn from(_error: AllocFailed<T>) -> FileError {
        FileError::Path(PathError::OutOfMemory)
    }
}
