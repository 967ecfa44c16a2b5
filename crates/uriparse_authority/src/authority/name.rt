//! A registered name: RFC 3986, section 3.2.2.
ghost use Rattle.std.specs.Prelude.{◌≡◌, ◌↔◌, IsTrue, IsOk, IfOk, OnOk, OnErr, Some, bytes_eq, string_bytes, true, refl};
ghost use Rattle.std.proofs.Common.{rules};
ghost use Rattle.std.specs.Cmp.{on_po};
ghost use Rattle.std.specs.Cmp.Lexicographic.{on_texts, slice_cmp, texts_po, texts_ties};
ghost use Rattle.std.specs.Ordering.{as_partial_cmp, nat_cmp, on};
ghost use Rattle.std.specs.Cmp.Rules.{comparing, hashing};
ghost use Rattle.uriparse_text.specs.declared.internal.class.Class.TheVariants as class;
ghost use Rattle.uriparse_text.specs.declared.internal.token.Case.TheVariants as case;
ghost use Rattle.uriparse_text.specs.Canonical.{canonical_lowered, fed_text, SpellsAlike};
ghost use Rattle.uriparse_text.specs.Coding.{decoded};
ghost use Rattle.uriparse_text.specs.Tokens.{is_well_formed};
ghost use Rattle.uriparse_text.specs.Readings.{reading_in};
ghost use Rattle.uriparse_text.specs.Spelling.{IsValidText};
ghost use Rattle.uriparse_text.specs.Starts.{Writes};
ghost use Rattle.uriparse_authority.specs.Name as spec;

use super::error::RegisteredNameError;
use std::alloc::{AllocError, Global};
use std::cmp::Ordering;
use std::fmt;
use std::hash::{Hash, Hasher};
use std::marker::Model;
use uriparse_text::address::Ipv4Addr;
use uriparse_text::internal::{
    Case, Class, Text, TextKind, TooSmall, normalized_text, text_from_checked,
};

/// The kind of text that a name is.
struct NameKind;

impl TextKind for NameKind {
    type Error = RegisteredNameError;

    ghost class = { class.Name };

    ghost case = { case.Lowered };

    ghost error_of = { spec.error_of };

    fn name() -> &'static str {
        "RegisteredName"
    }

    fn class() -> Class {
        Class::Name
    }

    fn case() -> Case {
        Case::Lowered
    }

    fn error_of(_byte: u8) -> RegisteredNameError {
        RegisteredNameError
    }
}

/// A registered name: a text of unreserved bytes, escapes and sub-delimiters, possibly empty. RFC
/// 3986, section 3.2.2. No reader accepts the text of an IPv4 address as a name.
///
/// It borrows the text that it was read from, or owns its text. Its readers do not allocate. They
/// reject a text with other bytes or a broken escape, and the text of an IPv4 address, with
/// [`RegisteredNameError`]. Two names are equal if their canonical spellings are, in which letters
/// are lower case.
///
/// ```
/// let name = RegisteredName::try_from_str("EXAMPLE.com")?;
/// assert!(name.eq_str("example.com") && name.as_str() == "EXAMPLE.com");
/// ```
#[derive(Drop)]
pub struct RegisteredName<'n> {
    text: Text<'n, NameKind>,
}

impl<'n> Model for RegisteredName<'n> {
    ghost use Rattle.std.specs.Prelude.{ℕ, List};

    ghost Value = { List ℕ };

    ghost view = { λ n. n.text };
}

impl<'n> RegisteredName<'n> {
    /// Reads a name, which borrows the bytes. Does not allocate.
    ///
    /// Rejects a byte that is not allowed in a name, a `%` without two hexadecimal digits after it,
    /// and a text that spells an IPv4 address.
    pub fn try_from_bytes(bytes: &'n [u8]) -> Result<RegisteredName<'n>, RegisteredNameError>
        ensures { result ≡ spec.reading bytes.now }
    {
        if Ipv4Addr::parse_bytes(bytes).is_some() {
            return Err(RegisteredNameError);
        }
        RegisteredName::of_class(bytes)
    }

    /// The name with these bytes, canonical if so marked.
    #[inline(always)]
    pub(super) fn from_checked(bytes: &'n [u8], canonical: bool) -> RegisteredName<'n>
        requires { IsValidText class.Name case.Lowered canonical bytes.now }
        ensures { result ≡ bytes.now }
    {
        RegisteredName {
            text: text_from_checked(bytes, canonical),
        }
    }

    /// Reads a text of the class of names, also the text of an address.
    fn of_class(bytes: &'n [u8]) -> Result<RegisteredName<'n>, RegisteredNameError>
        ensures { result ≡ reading_in class.Name spec.error_of bytes.now }
    {
        Ok(RegisteredName {
            text: Text::try_from_bytes(bytes)?,
        })
    }

    /// Like [`try_from_bytes`](RegisteredName::try_from_bytes), for a `str`.
    pub fn try_from_str(text: &'n str) -> Result<RegisteredName<'n>, RegisteredNameError>
        ensures { result ≡ spec.reading text.now }
    {
        RegisteredName::try_from_bytes(text.as_bytes())
    }

    /// The text.
    pub fn as_str(&self) -> &str
        ensures value { result.now ≡ self.now }
        ensures class { spec.IsName self.now }
    {
        self.text.as_str()
    }

    /// The text as bytes.
    pub fn as_bytes(&self) -> &[u8]
        ensures value { result.now ≡ self.now }
        ensures class { spec.IsName self.now }
        ensures formed { is_well_formed self.now ≡ true }
    {
        self.text.as_bytes()
    }

    /// Decodes the name: each escape becomes its byte, and each other byte stays. Letters keep
    /// their case. Reserves capacity once.
    ///
    /// No call encodes bytes as a name, since the text could spell an IPv4 address.
    pub fn decode(&self, alloc: Global) -> Result<Vec<u8>, AllocError>
        ensures { IfOk result (λ v. v.items ≡ decoded self.now) }
    {
        self.text.decode(alloc)
    }

    /// Writes the bytes that [`decode`](RegisteredName::decode) returns to the start of the buffer
    /// and returns their number; what follows them is unchanged. If the buffer is too small, it is
    /// unchanged, and the error has the number of bytes needed. Does not allocate.
    ///
    /// ```
    /// let name = RegisteredName::try_from_str("a%7Eb")?;
    /// let mut buffer = [0; 8];
    /// let len = name.decode_into(&mut buffer)?;
    /// assert!(&buffer[..len] == b"a~b".as_slice());
    /// ```
    pub fn decode_into(&self, out: &mut [u8]) -> Result<usize, TooSmall>
        ensures { Writes (decoded self.now) result out.old out.new }
    {
        self.text.decode_into(out)
    }

    /// The same name, borrowed from this one.
    pub fn as_borrowed(&self) -> RegisteredName<'_>
        ensures { result ≡ self.now }
    {
        RegisteredName {
            text: self.text.as_borrowed(),
        }
    }

    /// The same name, owned. Borrowed text is copied, which allocates; if memory runs out, the name
    /// is dropped.
    pub fn into_owned(self, alloc: Global) -> Result<RegisteredName<'static>, AllocError>
        ensures { IfOk result (λ n. n ≡ self.entry) }
    {
        Ok(RegisteredName {
            text: self.text.into_owned(alloc)?,
        })
    }

    /// A copy that owns its text, in one call. Allocates.
    pub fn to_owned(&self, alloc: Global) -> Result<RegisteredName<'static>, AllocError>
        ensures { IfOk result (λ n. n ≡ self.now) }
    {
        self.as_borrowed().into_owned(alloc)
    }

    /// A copy of the text. Allocates.
    pub fn to_string(&self, alloc: Global) -> Result<String, AllocError>
        ensures { IfOk result (λ s. string_bytes s ≡ self.now) }
    {
        self.text.to_string(alloc)
    }

    /// Whether the name is its own canonical spelling, in which letters are lower case: RFC 3986,
    /// sections 6.2.2.1 and 6.2.2.2. Does not allocate.
    pub fn is_normalized(&self) -> bool
        ensures { IsTrue result ↔ (canonical_lowered self.now ≡ self.now) }
    {
        self.text.is_normalized()
    }

    /// The canonical spelling of this name, owned. Allocates.
    pub(super) fn to_normalized(&self, alloc: Global) -> Result<RegisteredName<'static>, AllocError>
        ensures { IfOk result (λ n. n ≡ canonical_lowered self.now) }
    {
        Ok(RegisteredName {
            text: normalized_text(alloc, &self.text)?,
        })
    }

    /// Replaces the name by its canonical spelling. It stays a name, even if it then spells an IPv4
    /// address. A second call changes nothing. Allocates only if they differ; if memory runs out,
    /// the name is unchanged.
    pub fn normalize(&mut self, alloc: Global) -> Result<(), AllocError>
        ensures ok { OnOk result (self.new ≡ canonical_lowered self.old) }
        ensures err { OnErr result (self.new ≡ self.old) }
        ensures takes_no_memory { canonical_lowered self.old ≡ self.old → IsOk result }
    {
        self.text.normalize(alloc)
    }

    /// Whether the bytes have the same canonical spelling as this name. Bytes with a broken escape
    /// equal no name. Does not allocate.
    pub fn eq_bytes(&self, bytes: &[u8]) -> bool
        ensures { IsTrue result ↔ SpellsAlike case.Lowered bytes.now self.now }
    {
        self.text.eq_bytes(bytes)
    }

    /// Like [`eq_bytes`](RegisteredName::eq_bytes), for a `str`.
    pub fn eq_str(&self, text: &str) -> bool
        ensures { IsTrue result ↔ SpellsAlike case.Lowered text.now self.now }
    {
        self.text.eq_bytes(text.as_bytes())
    }
}

impl<'n> PartialEq for RegisteredName<'n> {
    ghost eq = { on canonical_lowered bytes_eq };

    ghost laws = { Prim.search (comparing, rules) };

    fn eq(&self, other: &RegisteredName<'n>) -> bool {
        self.text == other.text
    }
}

impl<'n> Eq for RegisteredName<'n> {
    ghost laws = { Prim.search (comparing, rules) };
}

impl<'n> PartialOrd for RegisteredName<'n> {
    ghost partial_cmp = { as_partial_cmp (on canonical_lowered (slice_cmp nat_cmp)) };

    ghost laws = { on_po canonical_lowered texts_po };

    fn partial_cmp(&self, other: &RegisteredName<'n>) -> Option<Ordering> {
        Some(self.cmp(other))
    }
}

impl<'n> Ord for RegisteredName<'n> {
    ghost cmp = { on canonical_lowered (slice_cmp nat_cmp) };

    ghost total = { on_texts canonical_lowered };

    ghost matches_partial_cmp = { λ s t. refl };

    ghost matches_eq = { λ s t. texts_ties (canonical_lowered s) (canonical_lowered t) };

    fn cmp(&self, other: &RegisteredName<'n>) -> Ordering {
        self.text.cmp(&other.text)
    }
}

impl<'n> Hash for RegisteredName<'n> {
    ghost hash_input = { λ n. fed_text (canonical_lowered n) };

    ghost respects_eq = { Prim.search (hashing, rules) };

    fn hash<H: Hasher>(&self, state: &mut H) {
        self.text.hash(state);
    }
}

impl<'n> fmt::Display for RegisteredName<'n> {
    ghost output = { λ n. Some n };

    // The formatter's options have no effect.
    ghost styled_output = { λ n _. Some n };

    fn fmt<W: fmt::Write>(&self, f: &mut fmt::Formatter<W>) -> fmt::Result {
        fmt::Display::fmt(&self.text, f)
    }
}

impl<'n> fmt::Debug for RegisteredName<'n> {
    fn fmt<W: fmt::Write>(&self, f: &mut fmt::Formatter<W>) -> fmt::Result {
        f.debug_tuple("RegisteredName")
            .field(&self.as_str())
            .finish()
    }
}
