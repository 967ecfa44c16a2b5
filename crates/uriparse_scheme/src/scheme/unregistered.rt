//! A scheme that is not in the table: RFC 3986, section 3.1.
ghost use Rattle.std.specs.Prelude.{◌≡◌, ◌↔◌, IsTrue, IfOk, OnOk, OnErr, IsOk, Some, true, bytes_eq, string_bytes};
ghost use Rattle.std.proofs.Common.{rules};
ghost use Rattle.std.specs.Ordering.{on};
ghost use Rattle.std.specs.Str.{str_to_ascii_lowercase};
ghost use Rattle.std.specs.Cmp.Rules.{comparing, hashing};
ghost use Rattle.uriparse_text.specs.Canonical.{canonical_lowered, fed_text};
ghost use Rattle.uriparse_scheme.specs.Grammar as grammar;
ghost use Rattle.uriparse_scheme.specs.Unregistered.{reading};

use super::error::UnregisteredSchemeError;
use super::find::registered_named;
use super::read::is_scheme;
use super::spelling::{feed_lowered, same_lowered};
use std::alloc::{AllocError, Global};
use std::borrow::CowStr;
use std::hash::{Hash, Hasher};
use std::marker::Model;
use std::{fmt, str};
use uriparse_text::internal::{Case, canonical_bytes, is_canonical};

/// A scheme that is not registered: a letter, followed by letters, digits, `+`, `-` and `.`, which
/// in no case is the name of a registered scheme. RFC 3986, section 3.1.
///
/// It borrows the text that was read, or owns its text, and keeps its spelling until it is
/// normalized. Reading does not allocate, and rejects any other text with
/// [`UnregisteredSchemeError`]. Two are equal if they differ only in the case of letters, and equal
/// ones have equal hashes: section 6.2.2.1.
///
/// ```
/// let scheme = UnregisteredScheme::try_from_str("X-Files")?;
/// assert!(scheme.eq_str("x-files") && scheme.as_str() == "X-Files");
/// assert!(UnregisteredScheme::try_from_str("HTTP").is_err());
/// ```
#[derive(Drop)]
pub struct UnregisteredScheme<'s> {
    text: CowStr<'s>,
}

impl<'s> Model for UnregisteredScheme<'s> {
    ghost use Rattle.std.specs.Prelude.{ℕ, List};
    ghost use Rattle.std.specs.Cow.{cow_str_bytes};
    ghost use Rattle.uriparse_scheme.specs.Grammar.{IsUnregistered};

    ghost Value = { List ℕ };

    ghost view = { λ s. cow_str_bytes s.text };

    ghost invariant = { λ s. IsUnregistered (cow_str_bytes s.text) };
}

impl<'s> UnregisteredScheme<'s> {
    /// Reads an unregistered scheme, which borrows the bytes. Does not allocate.
    ///
    /// Rejects a text that is no scheme, and the name of a registered scheme in any case.
    pub fn try_from_bytes(
        bytes: &'s [u8],
    ) -> Result<UnregisteredScheme<'s>, UnregisteredSchemeError>
        ensures { result ≡ reading bytes.now }
    {
        if !is_scheme(bytes) || registered_named(bytes).is_some() {
            return Err(UnregisteredSchemeError);
        }
        Ok(UnregisteredScheme::of_checked(bytes))
    }

    /// Like `try_from_bytes`, for a `str`.
    pub fn try_from_str(text: &'s str) -> Result<UnregisteredScheme<'s>, UnregisteredSchemeError>
        ensures { result ≡ reading text.now }
    {
        UnregisteredScheme::try_from_bytes(text.as_bytes())
    }

    /// The scheme that these bytes spell, borrowing them. The caller knows that they are one.
    pub(super) fn of_checked(bytes: &'s [u8]) -> UnregisteredScheme<'s>
        requires { grammar.IsUnregistered bytes.now }
        ensures { result ≡ bytes.now }
    {
        UnregisteredScheme {
            text: CowStr::Borrowed(unsafe { str::from_utf8_unchecked(bytes) }),
        }
    }

    /// The text, as it was spelled. Does not allocate.
    pub fn as_str(&self) -> &str
        ensures value { result.now ≡ self.now }
        ensures valid { grammar.IsUnregistered self.now }
        ensures grammar { grammar.is_scheme self.now ≡ true }
    {
        self.text.as_str()
    }

    /// The text as bytes. Does not allocate.
    pub fn as_bytes(&self) -> &[u8]
        ensures value { result.now ≡ self.now }
        ensures valid { grammar.IsUnregistered self.now }
        ensures grammar { grammar.is_scheme self.now ≡ true }
    {
        self.as_str().as_bytes()
    }

    /// The same scheme, borrowing this one's text. Does not allocate.
    pub fn as_borrowed(&self) -> UnregisteredScheme<'_>
        ensures { result ≡ self.now }
    {
        UnregisteredScheme {
            text: CowStr::Borrowed(self.text.as_str()),
        }
    }

    /// The same scheme, owning its text. Copies borrowed text, which allocates; if memory runs out,
    /// the scheme is lost.
    pub fn into_owned(self, alloc: Global) -> Result<UnregisteredScheme<'static>, AllocError>
        ensures { IfOk result (λ s. s ≡ self.entry) }
    {
        Ok(UnregisteredScheme {
            text: CowStr::Owned(self.text.into_owned(alloc)?),
        })
    }

    /// A copy that owns its text, in one call. Allocates.
    pub fn to_owned(&self, alloc: Global) -> Result<UnregisteredScheme<'static>, AllocError>
        ensures { IfOk result (λ s. s ≡ self.now) }
    {
        self.as_borrowed().into_owned(alloc)
    }

    /// Copies the text into a new `String`. Allocates.
    pub fn to_string(&self, alloc: Global) -> Result<String, AllocError>
        ensures { IfOk result (λ s. string_bytes s ≡ self.now) }
    {
        String::from_str(alloc, self.as_str())
    }

    /// Whether the text is in its canonical spelling, lower case: RFC 3986, section 6.2.2.1. Does
    /// not allocate.
    pub fn is_normalized(&self) -> bool
        ensures { IsTrue result ↔ (canonical_lowered self.now ≡ self.now) }
    {
        is_canonical(Case::Lowered, self.as_bytes())
    }

    /// Converts the text to lower case: RFC 3986, section 6.2.2.1. Allocates only if that changes
    /// the text. If memory runs out, the scheme is unchanged. A second call changes nothing.
    pub fn normalize(&mut self, alloc: Global) -> Result<(), AllocError>
        ensures ok { OnOk result (self.new ≡ canonical_lowered self.old) }
        ensures err { OnErr result (self.new ≡ self.old) }
        ensures takes_no_memory { canonical_lowered self.old ≡ self.old → IsOk result }
    {
        if self.is_normalized() {
            return Ok(());
        }
        *self = self.to_normalized(alloc)?;
        Ok(())
    }

    /// The same scheme in canonical spelling, owning its text. Allocates.
    pub(crate) fn to_normalized(
        &self,
        alloc: Global,
    ) -> Result<UnregisteredScheme<'static>, AllocError>
        ensures { IfOk result (λ s. s ≡ canonical_lowered self.now) }
    {
        let bytes = canonical_bytes(alloc, Case::Lowered, self.as_bytes())?;
        Ok(UnregisteredScheme {
            text: CowStr::Owned(unsafe { String::from_utf8_unchecked(bytes) }),
        })
    }

    /// Whether the bytes are this scheme in any case. Percent-encoded octets are not decoded: a
    /// scheme has none. Does not allocate.
    pub fn eq_bytes(&self, bytes: &[u8]) -> bool
        ensures { IsTrue result ↔ (str_to_ascii_lowercase bytes.now ≡ str_to_ascii_lowercase self.now) }
    {
        bytes.eq_ignore_ascii_case(self.as_bytes())
    }

    /// Like `eq_bytes`, for a `str`.
    pub fn eq_str(&self, text: &str) -> bool
        ensures { IsTrue result ↔ (str_to_ascii_lowercase text.now ≡ str_to_ascii_lowercase self.now) }
    {
        self.eq_bytes(text.as_bytes())
    }
}

impl<'s> PartialEq for UnregisteredScheme<'s> {
    ghost eq = { on canonical_lowered bytes_eq };

    ghost laws = { Prim.search (comparing, rules) };

    fn eq(&self, other: &UnregisteredScheme<'s>) -> bool {
        same_lowered(self.as_bytes(), other.as_bytes())
    }
}

impl<'s> Eq for UnregisteredScheme<'s> {
    ghost laws = { Prim.search (comparing, rules) };
}

impl<'s> Hash for UnregisteredScheme<'s> {
    ghost hash_input = { λ s. fed_text (canonical_lowered s) };

    ghost respects_eq = { Prim.search (hashing, rules) };

    fn hash<H: Hasher>(&self, state: &mut H) {
        feed_lowered(self.as_bytes(), state);
    }
}

impl<'s> fmt::Display for UnregisteredScheme<'s> {
    ghost output = { λ s. Some s };

    // The formatter's options do not change the output.
    ghost styled_output = { λ s _. Some s };

    fn fmt<W: fmt::Write>(&self, f: &mut fmt::Formatter<W>) -> fmt::Result {
        f.write_str(self.as_str())
    }
}

impl<'s> fmt::Debug for UnregisteredScheme<'s> {
    fn fmt<W: fmt::Write>(&self, f: &mut fmt::Formatter<W>) -> fmt::Result {
        f.debug_tuple("UnregisteredScheme")
            .field(&self.as_str())
            .finish()
    }
}
