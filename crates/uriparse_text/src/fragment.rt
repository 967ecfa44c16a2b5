//! The fragment of a URI or reference: RFC 3986, section 3.5.
ghost use Rattle.uriparse_text.specs.declared.internal.class.Class.TheVariants as class;
ghost use Rattle.uriparse_text.specs.declared.internal.token.Case.TheVariants as case;
ghost use Rattle.uriparse_text.specs.Fragment as spec;

use crate::internal::{Case, Class, Text, TextKind};
use thiserror::Error;

/// Why a text is not a fragment: its leftmost fault.
#[derive(Clone, Copy, Debug, PartialEq, Eq, Hash, Error)]
pub enum FragmentError {
    /// A byte that is not allowed in a fragment.
    #[error("invalid fragment character")]
    InvalidCharacter,
    /// A `%` without two hexadecimal digits after it.
    #[error("invalid fragment percent encoding")]
    InvalidPercentEncoding,
}

/// The kind of text that a fragment is.
pub struct FragmentKind;

impl TextKind for FragmentKind {
    type Error = FragmentError;

    ghost class = { class.Query };

    ghost case = { case.Kept };

    ghost error_of = { spec.error_of };

    fn name() -> &'static str {
        "Fragment"
    }

    fn class() -> Class {
        Class::Query
    }

    fn case() -> Case {
        Case::Kept
    }

    fn error_of(byte: u8) -> FragmentError {
        match byte {
            b'%' => FragmentError::InvalidPercentEncoding,
            _ => FragmentError::InvalidCharacter,
        }
    }
}

/// The fragment of a URI or reference, without its `#`: a text of `pchar`, `/` and `?`, possibly
/// empty. RFC 3986, section 3.5.
///
/// It borrows the text that it was read from, or owns its text. Its readers do not allocate. They
/// report the leftmost fault: [`InvalidPercentEncoding`](FragmentError::InvalidPercentEncoding) for
/// a `%` without two hexadecimal digits after it, else
/// [`InvalidCharacter`](FragmentError::InvalidCharacter). Two fragments are equal if their
/// canonical spellings are. It has the calls of [`Text`].
///
/// ```
/// let fragment = Fragment::try_from_str("k=%7e")?;
/// assert!(fragment.eq_str("k=~") && fragment.as_str() == "k=%7e");
/// ```
pub type Fragment<'f> = Text<'f, FragmentKind>;
