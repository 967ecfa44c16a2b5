//! How a command fails.

ghost use Rattle.std.specs.Prelude.{◌≡◌, ◌≤◌, ◌↔◌, ◌⊎◌, IsTrue, false};
ghost use Rattle.std.specs.IoError.{error_kind, raw_os_error};
ghost use Rattle.uri_commands.specs.Output as spec;
ghost use Rattle.uri_commands.specs.declared.failure.EditError.TheVariants as edits;
ghost use Rattle.uri_commands.specs.declared.failure.Failure.TheVariants as failures;

use std::alloc::{AllocError, AllocFailed};
use std::fmt::Display;
use std::{fmt, io};
use thiserror::Error;
use uriparse::file::FileError;
use uriparse::{BufferError, ChangeError, PathError, QueryError, URIError, URIReferenceError};

/// Why an edit is rejected.
#[derive(Clone, Copy, Debug, Error)]
pub enum EditError {
    /// A component that is not allowed, or memory ran out.
    #[error(transparent)]
    Reference(URIReferenceError),
    /// A part of an authority without a host.
    #[error(transparent)]
    Change(ChangeError),
    #[error("out of memory")]
    Memory(AllocError),
}

impl From<URIReferenceError> for EditError {
    ghost from_gives = { λ x e. e ≡ edits.Reference x };

    fn from(error: URIReferenceError) -> EditError {
        EditError::Reference(error)
    }
}

impl From<ChangeError> for EditError {
    ghost from_gives = { λ x e. e ≡ edits.Change x };

    fn from(error: ChangeError) -> EditError {
        EditError::Change(error)
    }
}

impl From<AllocError> for EditError {
    ghost from_gives = { λ x e. e ≡ edits.Memory x };

    fn from(error: AllocError) -> EditError {
        EditError::Memory(error)
    }
}

impl EditError {
    /// Whether memory ran out.
    pub fn is_out_of_memory(&self) -> bool
        ensures { IsTrue result ↔ spec.RunsOut self.now }
    {
        match self {
            EditError::Reference(error) => error.is_out_of_memory(),
            EditError::Change(error) => matches!(error, ChangeError::OutOfMemory),
            EditError::Memory(_) => true,
        }
    }
}

/// Why a read or a write failed: an [`io::Error`] without its message, for whose 80 bytes each result
/// of a command would have room.
#[derive(Clone, Copy, Debug)]
pub struct StreamError {
    kind: io::ErrorKind,
    /// The system's number, if the system returned the error.
    code: Option<i32>,
}

impl From<io::Error> for StreamError {
    ghost from_gives = { λ x e. e ≡ record { kind = error_kind x; code = raw_os_error x } };

    fn from(error: io::Error) -> StreamError {
        StreamError {
            kind: error.kind(),
            code: error.raw_os_error(),
        }
    }
}

impl fmt::Display for StreamError {
    fn fmt<W: fmt::Write>(&self, f: &mut fmt::Formatter<W>) -> fmt::Result {
        match self.code {
            Some(code) => io::Error::from_raw_os_error(code).fmt(f),
            None => self.kind.fmt(f),
        }
    }
}

/// Why a command printed nothing, or not all of its output.
#[derive(Debug, Drop, Error)]
pub enum Failure {
    /// No such command or edit, or a wrong number of words.
    #[error("usage: uri COMMAND TEXT..\nuri help lists the commands")]
    Usage,
    /// A text that is no reference, or no part of one.
    #[error(transparent)]
    Reference(URIReferenceError),
    /// A text that is no URI, or a reference that has no target against its base.
    #[error(transparent)]
    Uri(URIError),
    /// A rejected edit, by its index.
    #[error("edit {index}: {refusal}")]
    Edit { index: usize, refusal: EditError },
    /// A text that is no query.
    #[error(transparent)]
    Query(QueryError),
    /// A path that has no file URI, or a URI that names no file's path.
    #[error(transparent)]
    File(FileError),
    /// A line that should hold two texts.
    #[error("no tab between two texts")]
    NoTab,
    /// A line without the fields that a command reads.
    #[error("too few fields")]
    TooFewFields,
    /// A part that the reference doesn't have. The status alone reports it.
    #[error("absent")]
    Absent,
    /// References that differ, when the status alone reports it.
    #[error("different")]
    Different,
    /// A URI that is not below a base, or a host that is not within a domain. The status alone reports it.
    #[error("not within")]
    Outside,
    #[error("out of memory")]
    Memory(AllocError),
    /// Memory ran out for this line of the input.
    #[error("line {0}: out of memory")]
    MemoryAtLine(u64),
    /// A read that failed.
    #[error("standard input: {0}")]
    Input(StreamError),
    /// A write that failed.
    #[error("standard output: {0}")]
    Output(StreamError),
}

impl From<URIReferenceError> for Failure {
    ghost from_gives = { λ x f. f ≡ failures.Reference x };

    fn from(error: URIReferenceError) -> Failure {
        Failure::Reference(error)
    }
}

impl From<URIError> for Failure {
    ghost from_gives = { λ x f. f ≡ failures.Uri x };

    fn from(error: URIError) -> Failure {
        Failure::Uri(error)
    }
}

impl From<QueryError> for Failure {
    ghost from_gives = { λ x f. f ≡ failures.Query x };

    fn from(error: QueryError) -> Failure {
        Failure::Query(error)
    }
}

impl From<FileError> for Failure {
    ghost from_gives = { λ x f. f ≡ failures.File x };

    fn from(error: FileError) -> Failure {
        Failure::File(error)
    }
}

impl From<AllocError> for Failure {
    ghost from_gives = { λ x f. spec.EndsWork f };

    fn from(error: AllocError) -> Failure {
        Failure::Memory(error)
    }
}

impl From<io::Error> for Failure {
    ghost from_gives = { λ x f. spec.EndsWork f };

    fn from(error: io::Error) -> Failure {
        Failure::Output(error.into())
    }
}

impl<T: Drop> From<AllocFailed<T>> for Failure {
    ghost from_gives = { λ x f. spec.EndsWork f };

    fn from(_error: AllocFailed<T>) -> Failure {
        Failure::Memory(AllocError)
    }
}

/// A buffer that is too small has to grow, and merged paths that are too long are reported as
/// [`URI::resolve`](uriparse::URI) reports them.
impl From<BufferError> for Failure {
    ghost from_gives = { λ x f. spec.IsOfBuffer x f };

    fn from(error: BufferError) -> Failure {
        match error {
            BufferError::TooSmall(_) => Failure::Memory(AllocError),
            BufferError::RelativeBase => Failure::Uri(URIError::NotURI),
            BufferError::TooManySegments => {
                Failure::Uri(URIError::Path(PathError::ExceededMaximumLength))
            }
        }
    }
}

impl Failure {
    /// The exit status of the program.
    pub fn status(&self) -> u8
        ensures is { result ≡ spec.exit_status (spec.answer_of self.now) }
        ensures fails { 1 ≤ result }
        ensures bound { result ≤ 3 }
    {
        match self {
            Failure::Usage => 2,
            Failure::Absent | Failure::Different | Failure::Outside => 3,
            _ => 1,
        }
    }

    /// Whether nobody reads the output any more, as after `head`. The status alone reports it.
    pub fn is_closed_pipe(&self) -> bool {
        match self {
            Failure::Output(error) => error.kind == io::ErrorKind::BrokenPipe,
            _ => false,
        }
    }

    /// Whether memory ran out, also for a buffer in memory that is written to.
    pub fn is_out_of_memory(&self) -> bool
        ensures ends { IsTrue result → spec.EndsWork self.now }
        ensures stream { result ≡ false → spec.EndsWork self.now → spec.IsOfStream self.now }
    {
        match self {
            Failure::Output(error) => error.kind == io::ErrorKind::OutOfMemory,
            Failure::Memory(_) | Failure::MemoryAtLine(_) => true,
            Failure::Reference(error) => error.is_out_of_memory(),
            Failure::Edit { refusal, .. } => refusal.is_out_of_memory(),
            Failure::Uri(error) => error.is_out_of_memory(),
            Failure::File(error) => error.is_out_of_memory(),
            _ => false,
        }
    }

    /// Whether it ends the work on many lines: memory ran out, or a read or a write failed.
    pub fn ends_work(&self) -> bool
        ensures { IsTrue result ↔ spec.EndsWork self.now }
    {
        match self {
            Failure::Input(_) | Failure::Output(_) => true,
            _ => self.is_out_of_memory(),
        }
    }

    /// Whether a path has more segments than [`Path::MAX_SEGMENTS`](uriparse::Path::MAX_SEGMENTS).
    pub fn is_too_long(&self) -> bool {
        matches!(
            self,
            Failure::Reference(URIReferenceError::Path(PathError::ExceededMaximumLength))
                | Failure::Uri(URIError::Path(PathError::ExceededMaximumLength))
        )
    }

    /// The failure of a command that prints to memory, where a write fails only if memory runs out.
    pub fn in_memory(self) -> Failure
        ensures { (result ≡ self) ⊎ (spec.EndsWork self × spec.EndsWork result) }
    {
        match self {
            Failure::Output(_) => Failure::Memory(AllocError),
            failure => failure,
        }
    }

    /// The failure of the work on this line of the input: if memory ran out, it names the line.
    pub fn at_line(self, number: u64) -> Failure
        ensures { spec.EndsWork self → spec.EndsWork result }
    {
        if self.is_out_of_memory() {
            Failure::MemoryAtLine(number)
        } else {
            self
        }
    }

    /// The failure of a read of this line of the input: memory ran out, or the stream failed.
    pub fn of_read(error: io::Error, number: u64) -> Failure
        ensures { spec.EndsWork result }
    {
        match error.kind() {
            io::ErrorKind::OutOfMemory => Failure::MemoryAtLine(number),
            _ => Failure::Input(error.into()),
        }
    }
}
