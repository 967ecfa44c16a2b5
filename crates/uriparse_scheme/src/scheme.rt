//! The scheme of a URI or reference: RFC 3986, section 3.1.
ghost use Rattle.std.specs.Prelude.{◌≡◌, ◌↔◌, IsTrue, IfOk, OnOk, OnErr, IsOk, Some, true, bytes_eq, string_bytes};
ghost use Rattle.std.proofs.Common.{rules};
ghost use Rattle.std.specs.Ordering.{on};
ghost use Rattle.std.specs.Str.{str_to_ascii_lowercase};
ghost use Rattle.std.specs.Cmp.Rules.{comparing, hashing};
ghost use Rattle.uriparse_text.specs.Canonical.{fed_text};
ghost use Rattle.uriparse_scheme.specs.Scheme as spec;
ghost use Rattle.uriparse_scheme.specs.Normal.{canonical_scheme};
ghost use Rattle.uriparse_scheme.specs.declared.scheme.status.SchemeStatus.TheVariants.{Unregistered};

use std::alloc::{AllocError, Global};
use std::fmt;
use std::hash::{Hash, Hasher};

mod constants;
mod equality;
mod error;
mod find;
mod microsoft;
mod order;
mod port;
pub(crate) mod read;
mod registered;
mod rows;
mod spelling;
pub(crate) mod split;
mod status;
mod table;
mod unregistered;

pub use error::{SchemeError, UnregisteredSchemeError};
use find::registered_named;
pub use microsoft::MicrosoftScheme;
use read::fault_of;
pub use registered::RegisteredScheme;
use spelling::{feed_lowered, same_lowered};
pub use status::SchemeStatus;
pub use unregistered::UnregisteredScheme;

/// The scheme of a URI or reference, without its `:`: RFC 3986, section 3.1.
///
/// Its text is a letter, followed by letters, digits, `+`, `-` and `.`. A registered scheme is
/// recognized in any case, is held by value and prints in lower case; each has a constant. Any
/// other scheme keeps its spelling, and borrows it from the text that was read, or owns it. Reading
/// does not allocate; [`SchemeError`] lists what it rejects. Two schemes are equal if their texts
/// differ only in the case of letters, and equal schemes have equal hashes: section 6.2.2.1.
///
/// ```
/// let scheme = Scheme::try_from_str("HTTP")?;
/// assert!(scheme == Scheme::HTTP);
/// assert_eq!(scheme.as_str(), "http");
/// assert!(scheme.status().is_permanent());
/// ```
#[derive(Drop)]
pub enum Scheme<'s> {
    /// A scheme in the table of registered schemes.
    Registered(RegisteredScheme),
    /// Any other scheme, by its text.
    Unregistered(UnregisteredScheme<'s>),
}

impl<'s> Scheme<'s> {
    /// Reads a scheme: RFC 3986, section 3.1. An unregistered scheme borrows the bytes. Does not
    /// allocate.
    ///
    /// Rejects an empty text, a text that does not begin with a letter, and a text with a byte that
    /// no scheme has, such as a `:`. Returns the [`SchemeError`] of the leftmost fault.
    pub fn try_from_bytes(bytes: &'s [u8]) -> Result<Scheme<'s>, SchemeError>
        ensures { result ≡ spec.reading bytes.now }
    {
        match fault_of(bytes) {
            Some(error) => Err(error),
            None => Ok(Scheme::of_checked(bytes)),
        }
    }

    /// The scheme that these bytes spell. The caller knows that they are one.
    pub(crate) fn of_checked(bytes: &'s [u8]) -> Scheme<'s>
        requires { spec.is_scheme bytes.now ≡ true }
        ensures { result ≡ spec.named bytes.now }
    {
        match registered_named(bytes) {
            Some(scheme) => Scheme::Registered(scheme),
            None => Scheme::Unregistered(UnregisteredScheme::of_checked(bytes)),
        }
    }

    /// Like `try_from_bytes`, for a `str`.
    pub fn try_from_str(text: &'s str) -> Result<Scheme<'s>, SchemeError>
        ensures { result ≡ spec.reading text.now }
    {
        Scheme::try_from_bytes(text.as_bytes())
    }

    /// The status of the scheme in this library's table. Does not allocate.
    pub fn status(&self) -> SchemeStatus
        ensures { result ≡ spec.status self.now }
    {
        match self {
            Scheme::Registered(scheme) => scheme.status(),
            Scheme::Unregistered(_) => SchemeStatus::Unregistered,
        }
    }

    /// The text, in lower case if the scheme is registered. Does not allocate.
    pub fn as_str(&self) -> &str
        ensures value { result.now ≡ spec.text self.now }
        ensures valid { spec.Valid self.now }
        ensures grammar { spec.is_scheme (spec.text self.now) ≡ true }
    {
        match self {
            Scheme::Registered(scheme) => scheme.name(),
            Scheme::Unregistered(scheme) => scheme.as_str(),
        }
    }

    /// The text as bytes. Does not allocate.
    pub fn as_bytes(&self) -> &[u8]
        ensures value { result.now ≡ spec.text self.now }
        ensures valid { spec.Valid self.now }
        ensures grammar { spec.is_scheme (spec.text self.now) ≡ true }
    {
        self.as_str().as_bytes()
    }

    /// A copy that borrows this scheme's text. Does not allocate.
    pub fn as_borrowed(&self) -> Scheme<'_>
        ensures { result ≡ self.now }
    {
        match self {
            Scheme::Registered(scheme) => Scheme::Registered(*scheme),
            Scheme::Unregistered(scheme) => Scheme::Unregistered(scheme.as_borrowed()),
        }
    }

    /// The scheme, owning its text. Copies borrowed text, which allocates; if memory runs out,
    /// the scheme is lost. A registered scheme is never lost: it has no text to copy.
    pub fn into_owned(self, alloc: Global) -> Result<Scheme<'static>, AllocError>
        // As two clauses this takes more memory than the prover has.
        ensures { IfOk result (λ s. s ≡ self.entry) × ((spec.status self.entry ≡ Unregistered → ⊥) → IsOk result) }
    {
        match self {
            Scheme::Registered(scheme) => Ok(Scheme::Registered(scheme)),
            Scheme::Unregistered(scheme) => Ok(Scheme::Unregistered(scheme.into_owned(alloc)?)),
        }
    }

    /// A copy that owns its text, in one call. Allocates, but not for a registered scheme.
    pub fn to_owned(&self, alloc: Global) -> Result<Scheme<'static>, AllocError>
        ensures { IfOk result (λ s. s ≡ self.now) × ((spec.status self.now ≡ Unregistered → ⊥) → IsOk result) }
    {
        self.as_borrowed().into_owned(alloc)
    }

    /// Copies the text into a new `String`. Allocates.
    pub fn to_string(&self, alloc: Global) -> Result<String, AllocError>
        ensures { IfOk result (λ s. string_bytes s ≡ spec.text self.now) }
    {
        String::from_str(alloc, self.as_str())
    }

    /// Whether the text is in its canonical spelling, lower case: RFC 3986, section 6.2.2.1. A
    /// registered scheme always is. Does not allocate.
    pub fn is_normalized(&self) -> bool
        ensures { IsTrue result ↔ (spec.canonical_text self.now ≡ spec.text self.now) }
    {
        match self {
            Scheme::Registered(_) => true,
            Scheme::Unregistered(scheme) => scheme.is_normalized(),
        }
    }

    /// Converts the text to lower case: RFC 3986, section 6.2.2.1. Allocates only if that changes
    /// the text, which it never does for a registered scheme. If memory runs out, the scheme is
    /// unchanged. A second call changes nothing.
    pub fn normalize(&mut self, alloc: Global) -> Result<(), AllocError>
        ensures ok { OnOk result (self.new ≡ canonical_scheme self.old) }
        ensures err { OnErr result (self.new ≡ self.old) }
        ensures takes_no_memory { spec.canonical_text self.old ≡ spec.text self.old → IsOk result }
    {
        match self {
            Scheme::Registered(_) => Ok(()),
            Scheme::Unregistered(scheme) => scheme.normalize(alloc),
        }
    }

    /// Whether the bytes are this scheme in any case. Escapes are not decoded: a scheme has
    /// none. Does not allocate.
    pub fn eq_bytes(&self, bytes: &[u8]) -> bool
        ensures { IsTrue result ↔ (str_to_ascii_lowercase bytes.now ≡ str_to_ascii_lowercase (spec.text self.now)) }
    {
        bytes.eq_ignore_ascii_case(self.as_bytes())
    }

    /// Like `eq_bytes`, for a `str`.
    pub fn eq_str(&self, text: &str) -> bool
        ensures { IsTrue result ↔ (str_to_ascii_lowercase text.now ≡ str_to_ascii_lowercase (spec.text self.now)) }
    {
        self.eq_bytes(text.as_bytes())
    }
}

impl<'s> PartialEq for Scheme<'s> {
    ghost eq = { on spec.canonical_text bytes_eq };

    ghost laws = { Prim.search (comparing, rules) };

    fn eq(&self, other: &Scheme<'s>) -> bool {
        match (self, other) {
            (Scheme::Registered(left), Scheme::Registered(right)) => left == right,
            _ => same_lowered(self.as_bytes(), other.as_bytes()),
        }
    }
}

impl<'s> Eq for Scheme<'s> {
    ghost laws = { Prim.search (comparing, rules) };
}

impl<'s> Hash for Scheme<'s> {
    ghost hash_input = { λ s. fed_text (spec.canonical_text s) };

    ghost respects_eq = { Prim.search (hashing, rules) };

    fn hash<H: Hasher>(&self, state: &mut H) {
        feed_lowered(self.as_bytes(), state);
    }
}

impl<'s> fmt::Display for Scheme<'s> {
    ghost output = { λ s. Some (spec.text s) };

    // The formatter's options do not change the output.
    ghost styled_output = { λ s _. Some (spec.text s) };

    fn fmt<W: fmt::Write>(&self, f: &mut fmt::Formatter<W>) -> fmt::Result {
        f.write_str(self.as_str())
    }
}

impl<'s> fmt::Debug for Scheme<'s> {
    fn fmt<W: fmt::Write>(&self, f: &mut fmt::Formatter<W>) -> fmt::Result {
        f.debug_tuple("Scheme").field(&self.as_str()).finish()
    }
}
