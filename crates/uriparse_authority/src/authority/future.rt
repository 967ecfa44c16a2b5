//! The address of a later version of IP: RFC 3986, section 3.2.2.
ghost use Rattle.std.specs.Prelude.{◌≡◌, ◌↔◌, ◌&&◌, IsTrue, IsOk, IfOk, OnOk, OnErr, Some, bytes_eq, fold, string_bytes, true, refl};
ghost use Rattle.std.proofs.Common.{rules};
ghost use Rattle.std.specs.List.{list_all};
ghost use Rattle.std.specs.Option.{option_copied};
ghost use Rattle.std.specs.Cmp.{on_po};
ghost use Rattle.std.specs.Cmp.Lexicographic.{on_texts, slice_cmp, texts_po, texts_ties};
ghost use Rattle.std.specs.Ordering.{as_partial_cmp, nat_cmp, on};
ghost use Rattle.std.specs.Str.{str_to_ascii_lowercase};
ghost use Rattle.std.specs.Cmp.Rules.{comparing, hashing};
ghost use Rattle.uriparse_text.specs.Bytes.{dot, is_hex};
ghost use Rattle.uriparse_text.specs.Cuts.{before, after};
ghost use Rattle.uriparse_text.specs.declared.internal.class.Class.TheVariants as class;
ghost use Rattle.uriparse_text.specs.declared.internal.token.Case.TheVariants as case;
ghost use Rattle.uriparse_text.specs.Canonical.{canonical_lowered, fed_text};
ghost use Rattle.uriparse_authority.specs.declared.authority.error.HostError.TheVariants as errors;
ghost use Rattle.uriparse_authority.specs.Future as spec;

use super::error::HostError;
use std::alloc::{AllocError, Global};
use std::cmp::Ordering;
use std::fmt;
use std::hash::{Hash, Hasher};
use std::marker::Model;
use uriparse_text::internal::{
    Case, Class, Text, TextKind, checked_text, normalized_text, split_at_delimiter,
    without_delimiter,
};

/// The kind of text that such an address is. It has no escapes.
struct FutureKind;

impl TextKind for FutureKind {
    type Error = HostError;

    ghost class = { class.UserInfo };

    ghost case = { case.Lowered };

    ghost error_of = { λ byte. errors.InvalidIPvFutureCharacter };

    fn name() -> &'static str {
        "IPvFuture"
    }

    fn class() -> Class {
        Class::UserInfo
    }

    fn case() -> Case {
        Case::Lowered
    }

    fn error_of(_byte: u8) -> HostError {
        HostError::InvalidIPvFutureCharacter
    }
}

#[tactic(auto, unfolding(uriparse_text::specs::Classes::is_plain))]
fn is_future_byte(b: u8) -> bool
    ensures { result ≡ spec.is_future_byte b }
{
    Class::UserInfo.has(b)
}

fn are_future_bytes(bytes: &[u8]) -> bool
    ensures { result ≡ list_all spec.is_future_byte bytes.now }
{
    bytes.iter().all(|b| is_future_byte(*b))
}

/// Whether the text begins with `v` or `V`.
pub(super) fn begins_future(bytes: &[u8]) -> bool
    ensures { result ≡ spec.begins_future bytes.now }
{
    matches!(bytes, [b'v' | b'V', ..])
}

fn are_digits(bytes: &[u8]) -> bool
    ensures { result ≡ list_all is_hex bytes.now }
{
    bytes.iter().all(|b| b.is_ascii_hexdigit())
}

/// Whether there is a hexadecimal digit, and nothing but such digits.
fn is_version(bytes: &[u8]) -> bool
    ensures { result ≡ spec.is_some_of is_hex bytes.now }
{
    match bytes.split_first() {
        Some((first, rest)) => first.is_ascii_hexdigit() && are_digits(rest),
        None => false,
    }
}

/// Whether there is a text and it isn't empty.
fn has_address(text: Option<&[u8]>) -> bool
    ensures { result ≡ spec.has_address (option_copied text.entry) }
{
    match text {
        Some([_, ..]) => true,
        _ => false,
    }
}

/// Whether a version, a dot and more follow.
fn has_version(text: &[u8]) -> bool
    ensures { result ≡ spec.is_some_of is_hex (before dot text.now) && spec.has_address (after dot text.now) }
{
    let (version, rest) = split_at_delimiter(text, b'.');
    is_version(version) && has_address(without_delimiter(rest))
}

/// Whether the text begins with `v`, a version and a dot, and goes on.
fn has_form(bytes: &[u8]) -> bool
    ensures { result ≡ spec.has_form bytes.now }
{
    match bytes.split_first() {
        Some((first, text)) => matches!(*first, b'v' | b'V') && has_version(text),
        None => false,
    }
}

/// Why the bytes are not such an address, if they are not.
pub(super) fn future_fault(bytes: &[u8]) -> Option<HostError>
    ensures { result ≡ spec.fault bytes.now }
{
    if !are_future_bytes(bytes) {
        return Some(HostError::InvalidIPvFutureCharacter);
    }
    if !has_form(bytes) {
        return Some(HostError::InvalidIPvFutureFormat);
    }
    None
}

/// The address of a later version of IP, without its brackets: `v`, the version in hexadecimal
/// digits, a dot, and the address, which is one or more unreserved bytes, sub-delimiters and
/// colons. RFC 3986, section 3.2.2.
///
/// It borrows the text that it was read from, or owns its text. It has no escapes. Two of them are
/// equal if they differ at most in the case of letters (section 6.2.2.1), and equal ones feed a
/// hasher the same bytes.
///
/// ```
/// let address = IPvFuture::try_from_str("v1F.Fe80::A")?;
/// assert!(address.eq_str("V1f.fe80::a") && address.as_str() == "v1F.Fe80::A");
/// assert!(IPvFuture::try_from_str("v1").is_err());
/// ```
#[derive(Drop)]
pub struct IPvFuture<'host> {
    text: Text<'host, FutureKind>,
}

impl<'host> Model for IPvFuture<'host> {
    ghost use Rattle.std.specs.Prelude.{ℕ, List};
    ghost use Rattle.uriparse_authority.specs.Future.{IsFuture};

    ghost Value = { List ℕ };

    ghost view = { λ f. f.text };

    ghost invariant = { λ f. IsFuture f.text };
}

impl<'host> IPvFuture<'host> {
    /// Reads such an address, which borrows the bytes. Does not allocate.
    ///
    /// Fails with [`InvalidIPvFutureCharacter`](HostError::InvalidIPvFutureCharacter) if a byte is
    /// neither unreserved nor a sub-delimiter nor a colon, else with
    /// [`InvalidIPvFutureFormat`](HostError::InvalidIPvFutureFormat) if the form is wrong.
    pub fn try_from_bytes(bytes: &'host [u8]) -> Result<IPvFuture<'host>, HostError>
        ensures { result ≡ spec.reading bytes.now }
    {
        match future_fault(bytes) {
            Some(error) => Err(error),
            None => Ok(IPvFuture::of_checked(bytes)),
        }
    }

    /// Like [`try_from_bytes`](IPvFuture::try_from_bytes), for a `str`.
    pub fn try_from_str(text: &'host str) -> Result<IPvFuture<'host>, HostError>
        ensures { result ≡ spec.reading text.now }
    {
        IPvFuture::try_from_bytes(text.as_bytes())
    }

    /// The address with these bytes, which are known to be one.
    pub(super) fn of_checked(bytes: &'host [u8]) -> IPvFuture<'host>
        requires { spec.IsFuture bytes.now }
        ensures { result ≡ bytes.now }
    {
        IPvFuture {
            text: checked_text(bytes),
        }
    }

    /// The text.
    pub fn as_str(&self) -> &str
        ensures value { result.now ≡ self.now }
        ensures valid { spec.IsFuture self.now }
    {
        self.text.as_str()
    }

    /// The text as bytes.
    pub fn as_bytes(&self) -> &[u8]
        ensures value { result.now ≡ self.now }
        ensures valid { spec.IsFuture self.now }
    {
        self.text.as_bytes()
    }

    /// The same address, borrowed from this one.
    pub fn as_borrowed(&self) -> IPvFuture<'_>
        ensures { result ≡ self.now }
    {
        IPvFuture {
            text: self.text.as_borrowed(),
        }
    }

    /// The same address, owned. Borrowed text is copied, which allocates; if memory runs out, the
    /// address is dropped.
    pub fn into_owned(self, alloc: Global) -> Result<IPvFuture<'static>, AllocError>
        ensures { IfOk result (λ f. f ≡ self.entry) }
    {
        Ok(IPvFuture {
            text: self.text.into_owned(alloc)?,
        })
    }

    /// A copy that owns its text, in one call. Allocates.
    pub fn to_owned(&self, alloc: Global) -> Result<IPvFuture<'static>, AllocError>
        ensures { IfOk result (λ f. f ≡ self.now) }
    {
        self.as_borrowed().into_owned(alloc)
    }

    /// A copy of the text. Allocates.
    pub fn to_string(&self, alloc: Global) -> Result<String, AllocError>
        ensures { IfOk result (λ s. string_bytes s ≡ self.now) }
    {
        self.text.to_string(alloc)
    }

    /// Whether the text is in lower case: RFC 3986, section 6.2.2.1. Does not allocate.
    pub fn is_normalized(&self) -> bool
        ensures { IsTrue result ↔ (canonical_lowered self.now ≡ self.now) }
    {
        self.text.is_normalized()
    }

    /// The lower case of this address, owned. Allocates.
    pub(super) fn to_normalized(&self, alloc: Global) -> Result<IPvFuture<'static>, AllocError>
        ensures { IfOk result (λ f. f ≡ canonical_lowered self.now) }
    {
        Ok(IPvFuture {
            text: normalized_text(alloc, &self.text)?,
        })
    }

    /// Puts the text in lower case: RFC 3986, section 6.2.2.1. A second call changes nothing.
    /// Allocates only if the text changes; if memory runs out, the address is unchanged.
    pub fn normalize(&mut self, alloc: Global) -> Result<(), AllocError>
        ensures ok { OnOk result (self.new ≡ canonical_lowered self.old) }
        ensures err { OnErr result (self.new ≡ self.old) }
        ensures takes_no_memory { canonical_lowered self.old ≡ self.old → IsOk result }
    {
        self.text.normalize(alloc)
    }

    /// Whether the bytes are this address in any case. Escapes are not read: an address has none.
    /// Does not allocate.
    pub fn eq_bytes(&self, bytes: &[u8]) -> bool
        ensures { IsTrue result ↔ (str_to_ascii_lowercase bytes.now ≡ str_to_ascii_lowercase self.now) }
    {
        bytes.eq_ignore_ascii_case(self.as_bytes())
    }

    /// Like [`eq_bytes`](IPvFuture::eq_bytes), for a `str`.
    pub fn eq_str(&self, text: &str) -> bool
        ensures { IsTrue result ↔ (str_to_ascii_lowercase text.now ≡ str_to_ascii_lowercase self.now) }
    {
        self.eq_bytes(text.as_bytes())
    }
}

impl<'host> PartialEq for IPvFuture<'host> {
    ghost eq = { on canonical_lowered bytes_eq };

    ghost laws = { Prim.search (comparing, rules) };

    fn eq(&self, other: &IPvFuture<'host>) -> bool {
        self.text == other.text
    }
}

impl<'host> Eq for IPvFuture<'host> {
    ghost laws = { Prim.search (comparing, rules) };
}

impl<'host> PartialOrd for IPvFuture<'host> {
    ghost partial_cmp = { as_partial_cmp (on canonical_lowered (slice_cmp nat_cmp)) };

    ghost laws = { on_po canonical_lowered texts_po };

    fn partial_cmp(&self, other: &IPvFuture<'host>) -> Option<Ordering> {
        Some(self.cmp(other))
    }
}

impl<'host> Ord for IPvFuture<'host> {
    ghost cmp = { on canonical_lowered (slice_cmp nat_cmp) };

    ghost total = { on_texts canonical_lowered };

    ghost matches_partial_cmp = { λ s t. refl };

    ghost matches_eq = { λ s t. texts_ties (canonical_lowered s) (canonical_lowered t) };

    fn cmp(&self, other: &IPvFuture<'host>) -> Ordering {
        self.text.cmp(&other.text)
    }
}

impl<'host> Hash for IPvFuture<'host> {
    ghost hash_input = { λ f. fed_text (canonical_lowered f) };

    ghost respects_eq = { Prim.search (hashing, rules) };

    fn hash<H: Hasher>(&self, state: &mut H)
        ensures fed { state.new ≡ fold H.write state.old (fed_text (canonical_lowered self.now)) }
        ensures valid { spec.IsFuture self.now }
    {
        self.text.hash(state);
    }
}

impl<'host> fmt::Display for IPvFuture<'host> {
    ghost output = { λ f. Some f };

    // The formatter's options have no effect.
    ghost styled_output = { λ f _. Some f };

    fn fmt<W: fmt::Write>(&self, f: &mut fmt::Formatter<W>) -> fmt::Result {
        fmt::Display::fmt(&self.text, f)
    }
}

impl<'host> fmt::Debug for IPvFuture<'host> {
    fn fmt<W: fmt::Write>(&self, f: &mut fmt::Formatter<W>) -> fmt::Result {
        f.debug_tuple("IPvFuture").field(&self.as_str()).finish()
    }
}
