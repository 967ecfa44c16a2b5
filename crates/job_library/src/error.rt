//! How a job fails.

use std::alloc::{AllocError, AllocFailed};
use std::io;
use thiserror::Error;
use uriparse::{BufferError, ChangeError, QueryError, TooSmall, URIError, URIReferenceError};

/// Why a job ends before its end.
#[derive(Debug, Drop, Error)]
pub enum JobError {
    #[error("usage: jobs JOB COUNT SEED")]
    Usage,
    #[error("out of memory")]
    Memory(#[from] AllocError),
    #[error(transparent)]
    Io(#[from] io::Error),
    #[error(transparent)]
    Reference(#[from] URIReferenceError),
    #[error(transparent)]
    Uri(#[from] URIError),
    #[error(transparent)]
    Query(#[from] QueryError),
    #[error(transparent)]
    Buffer(#[from] BufferError),
    #[error(transparent)]
    Size(#[from] TooSmall),
    #[error(transparent)]
    Change(#[from] ChangeError),
}

impl<T: Drop> From<AllocFailed<T>> for JobError {
    fn from(_error: AllocFailed<T>) -> JobError {
        JobError::Memory(AllocError)
    }
}
