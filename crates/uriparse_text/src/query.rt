//! The query of a URI or reference: RFC 3986, section 3.4.
ghost use Rattle.uriparse_text.specs.declared.internal.class.Class.TheVariants as class;
ghost use Rattle.uriparse_text.specs.declared.internal.token.Case.TheVariants as case;
ghost use Rattle.uriparse_text.specs.Query as spec;

use crate::internal::{Case, Class, Text, TextKind};
use thiserror::Error;

mod ahead;
pub(crate) mod append;
pub(crate) mod find;
mod pairs;
pub(crate) mod put;
mod set;
mod sort;
mod without;

pub use pairs::Pairs;

/// Why a text is not a query: its leftmost fault.
#[derive(Clone, Copy, Debug, PartialEq, Eq, Hash, Error)]
pub enum QueryError {
    /// A byte that is not allowed in a query.
    #[error("invalid query character")]
    InvalidCharacter,
    /// A `%` without two hexadecimal digits after it.
    #[error("invalid query percent encoding")]
    InvalidPercentEncoding,
}

/// The kind of text that a query is.
pub struct QueryKind;

impl TextKind for QueryKind {
    type Error = QueryError;

    ghost class = { class.Query };

    ghost case = { case.Kept };

    ghost error_of = { spec.error_of };

    fn name() -> &'static str {
        "Query"
    }

    fn class() -> Class {
        Class::Query
    }

    fn case() -> Case {
        Case::Kept
    }

    fn error_of(byte: u8) -> QueryError {
        match byte {
            b'%' => QueryError::InvalidPercentEncoding,
            _ => QueryError::InvalidCharacter,
        }
    }
}

/// The query of a URI or reference, without its `?`: a text of `pchar`, `/` and `?`, possibly
/// empty. RFC 3986, section 3.4.
///
/// It borrows the text that it was read from, or owns its text. Its readers do not allocate. They
/// report the leftmost fault: [`InvalidPercentEncoding`](QueryError::InvalidPercentEncoding) for a
/// `%` without two hexadecimal digits after it, else
/// [`InvalidCharacter`](QueryError::InvalidCharacter). Two queries are equal if their canonical
/// spellings are. It has the calls of [`Text`], and
/// [`pairs`](Query::pairs), [`from_pairs`](Query::from_pairs),
/// [`pair`](Query::pair), [`has_pair`](Query::has_pair),
/// [`without_pairs`](Query::without_pairs), [`without_name`](Query::without_name),
/// [`without_pairs_named`](Query::without_pairs_named), [`with_pair`](Query::with_pair),
/// [`with_appended_pair`](Query::with_appended_pair), [`sorted_pairs`](Query::sorted_pairs) and
/// [`decode_form`](Query::decode_form).
///
/// ```
/// let query = Query::try_from_str("k=%7e")?;
/// assert!(query.eq_str("k=~") && query.as_str() == "k=%7e");
/// ```
pub type Query<'q> = Text<'q, QueryKind>;
