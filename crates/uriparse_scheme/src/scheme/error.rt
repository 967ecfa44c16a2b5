//! Why a text is not a scheme.

use thiserror::Error;

/// Why a text is not a scheme: RFC 3986, section 3.1. The leftmost fault is returned.
#[derive(Clone, Copy, Debug, PartialEq, Eq, Hash, Error)]
pub enum SchemeError {
    /// The text is empty.
    #[error("scheme is empty")]
    Empty,
    /// The first byte is not a letter.
    #[error("scheme starts with non-alphabetic character")]
    StartsWithNonAlphabetic,
    /// A later byte, such as a `:`, is not a letter, a digit, `+`, `-` or `.`.
    #[error("invalid scheme character")]
    InvalidCharacter,
}

/// Why a text is not an unregistered scheme: it is not a scheme, or it is the name of a registered
/// one.
#[derive(Clone, Copy, Debug, PartialEq, Eq, Hash, Error)]
#[error("invalid unregistered scheme")]
pub struct UnregisteredSchemeError;
