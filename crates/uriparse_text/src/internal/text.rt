//! A text whose tokens are in one class: what user names, segments, queries and the like share.
ghost use Rattle.std.specs.Prelude.{◌≡◌, ◌↔◌, ℕ, List, [], IsTrue, IfOk, OnOk, OnErr, IsOk, Some, true, bytes_eq, length, refl, string_bytes, take, unwrap_or};
ghost use Rattle.std.proofs.Common.{rules};
ghost use Rattle.std.specs.Cmp.{on_po};
ghost use Rattle.std.specs.Cmp.Lexicographic.{on_texts, slice_cmp, texts_po, texts_ties};
ghost use Rattle.std.specs.Ordering.{as_partial_cmp, nat_cmp, on};
ghost use Rattle.std.specs.Cmp.Rules.{comparing, hashing};
ghost use Rattle.uriparse_text.specs.declared.internal.class.Class.{Class};
ghost use Rattle.uriparse_text.specs.declared.internal.token.Case.{Case};
ghost use Rattle.uriparse_text.specs.Tokens.{is_well_formed};
ghost use Rattle.uriparse_text.specs.Faults.{IsIn};
ghost use Rattle.uriparse_text.specs.Canonical.{canonical_in, fed_text, SpellsAlike};
ghost use Rattle.uriparse_text.specs.Spelling.{IsValidText};
ghost use Rattle.uriparse_text.specs.Readings.{reading_in};
ghost use Rattle.uriparse_text.specs.Coding.{decoded, encoded};
ghost use Rattle.uriparse_text.specs.Starts.{Writes};
ghost use Rattle.uriparse_text.specs.declared.internal.token.Case.TheVariants.{Kept};

use super::canonical::{canonical_bytes, feed_known, feed_text, is_canonical};
use super::canonical_prefix::check_bytes;
use super::class::Class;
use super::coding::{decoded_bytes, encoded_bytes};
use super::equivalence::{compare_spelling, same_spelling};
use super::forward_buffer;
use super::forward_buffer::TooSmall;
use super::spelling::Spelling;
use super::token::Case;
use std::alloc::{AllocError, Global};
use std::cmp::Ordering;
use std::hash::{Hash, Hasher};
use std::marker::{Model, PhantomData};
use std::{fmt, mem, str};

/// A kind of text: its name, its class, what its canonical spelling does to letters, and its
/// errors.
pub trait TextKind {
    type Error;

    ghost class: { Class };

    ghost case: { Case };

    // The error of a text whose leftmost fault is at this byte.
    ghost error_of: { ℕ → Self.Error };

    /// What `Debug` calls a text of this kind.
    fn name() -> &'static str;

    fn class() -> Class
        ensures { result ≡ class };

    fn case() -> Case
        ensures { result ≡ case };

    fn error_of(byte: u8) -> Self::Error
        ensures { result ≡ error_of byte };
}

/// The text of bytes that are in a class.
fn text_in(class: Class, bytes: &[u8]) -> &str
    requires { IsIn class bytes.now }
    ensures { result.now ≡ bytes.now }
{
    unsafe { str::from_utf8_unchecked(bytes) }
}

/// A text of one kind, whose tokens are all in the kind's class: a query, a fragment, a user name,
/// a password, a segment, a registered name or an address of a later version. RFC 3986, section 2.
///
/// It borrows the bytes that it was read from, which outlive it, or owns its text. Contracts see it
/// as its bytes. Two texts of a kind are equal if their canonical spellings are. In these no
/// unreserved byte is escaped, other escapes have upper-case digits, and the last two have
/// lower-case letters (sections 6.2.2.1 and 6.2.2.2). Equal texts feed a hasher the same bytes.
#[derive(Drop)]
pub struct Text<'t, K: TextKind> {
    text: Spelling<'t>,
    kind: PhantomData<K>,
}

impl<'t, K: TextKind> Model for Text<'t, K> {
    ghost use Rattle.std.specs.Prelude.{ℕ, List};
    ghost use Rattle.uriparse_text.specs.Spelling.{spelled, is_known, IsValidText};

    ghost Value = { List ℕ };

    ghost view = { λ t. spelled t.text };

    ghost invariant = { λ t. IsValidText K.class K.case (is_known t.text) (spelled t.text) };
}

/// The text with these bytes, which are in the kind's class, and canonical if so marked. Borrows
/// them and does not allocate.
#[inline(always)]
pub fn text_from_checked<K: TextKind>(bytes: &[u8], canonical: bool) -> Text<'_, K>
    requires { IsValidText K.class K.case canonical bytes.now }
    ensures { result ≡ bytes.now }
{
    Text {
        text: Spelling::borrowed(text_in(K::class(), bytes), canonical),
        kind: PhantomData,
    }
}

/// The text with these bytes, which are in the kind's class. Borrows them and does not allocate.
pub fn checked_text<K: TextKind>(bytes: &[u8]) -> Text<'_, K>
    requires { IsIn K.class bytes.now }
    ensures { result ≡ bytes.now }
{
    text_from_checked(bytes, false)
}

/// The text of these bytes, which are in the kind's class. Takes them and does not allocate.
pub fn text_from_checked_vec<K: TextKind>(bytes: Vec<u8>) -> Text<'static, K>
    requires { IsIn K.class bytes.items }
    ensures { result ≡ bytes.items }
{
    Text {
        text: Spelling::owned(unsafe { String::from_utf8_unchecked(bytes) }, false),
        kind: PhantomData,
    }
}

/// The canonical spelling of this text, owned. Allocates.
pub fn normalized_text<K: TextKind>(
    alloc: Global,
    text: &Text<'_, K>,
) -> Result<Text<'static, K>, AllocError>
    ensures { IfOk result (λ t. t ≡ canonical_in K.case text.now) }
{
    let bytes = canonical_bytes(alloc, K::case(), text.as_bytes())?;
    Ok(Text {
        text: Spelling::owned(unsafe { String::from_utf8_unchecked(bytes) }, true),
        kind: PhantomData,
    })
}

impl<'t, K: TextKind> Text<'t, K> {
    /// Reads a text of this kind, which borrows the bytes. Does not allocate, and walks the bytes
    /// once.
    ///
    /// Fails with the kind's error for the leftmost fault: a `%` without two hexadecimal digits
    /// after it, or a byte that is not in the class.
    pub fn try_from_bytes(bytes: &'t [u8]) -> Result<Text<'t, K>, K::Error>
        ensures { result ≡ reading_in K.class K.error_of bytes.now }
    {
        match check_bytes(K::class(), K::case(), bytes) {
            Ok(canonical) => Ok(text_from_checked(bytes, canonical)),
            Err(byte) => Err(K::error_of(byte)),
        }
    }

    /// Like [`try_from_bytes`](Text::try_from_bytes), for a `str`.
    pub fn try_from_str(text: &'t str) -> Result<Text<'t, K>, K::Error>
        ensures { result ≡ reading_in K.class K.error_of text.now }
    {
        Text::try_from_bytes(text.as_bytes())
    }

    /// The text.
    pub fn as_str(&self) -> &str
        ensures value { result.now ≡ self.now }
        ensures class { IsIn K.class self.now }
    {
        self.text.as_str()
    }

    /// The text as bytes.
    pub fn as_bytes(&self) -> &[u8]
        ensures value { result.now ≡ self.now }
        ensures class { IsIn K.class self.now }
        ensures formed { is_well_formed self.now ≡ true }
    {
        self.as_str().as_bytes()
    }

    /// A copy that borrows this text. Does not allocate.
    pub fn as_borrowed(&self) -> Text<'_, K>
        ensures { result ≡ self.now }
    {
        Text {
            text: Spelling::borrowed(self.text.as_str(), self.text.is_known()),
            kind: PhantomData,
        }
    }

    /// The text, owned. Borrowed bytes are copied, which allocates; if memory runs out, the
    /// text is dropped.
    pub fn into_owned(self, alloc: Global) -> Result<Text<'static, K>, AllocError>
        ensures { IfOk result (λ t. t ≡ self.entry) }
    {
        Ok(Text {
            text: self.text.into_owned(alloc)?,
            kind: PhantomData,
        })
    }

    /// A copy that owns its text, in one call. Allocates.
    pub fn to_owned(&self, alloc: Global) -> Result<Text<'static, K>, AllocError>
        ensures { IfOk result (λ t. t ≡ self.now) }
    {
        self.as_borrowed().into_owned(alloc)
    }

    /// A copy of the text. Allocates.
    pub fn to_string(&self, alloc: Global) -> Result<String, AllocError>
        ensures { IfOk result (λ s. string_bytes s ≡ self.now) }
    {
        String::from_str(alloc, self.as_str())
    }

    /// Decodes the text: each escape becomes its byte, and each other byte stays. Reserves capacity
    /// once.
    ///
    /// Equal texts decode to the same bytes, if the kind keeps the case of letters. Texts that
    /// aren't equal may do so too, such as `%2F` and `/` in a query.
    pub fn decode(&self, alloc: Global) -> Result<Vec<u8>, AllocError>
        ensures bytes { IfOk result (λ v. v.items ≡ decoded self.now) }
        ensures alike { (other : List ℕ) → IsIn K.class other → canonical_in Kept other ≡ canonical_in Kept self.now → decoded other ≡ decoded self.now }
    {
        decoded_bytes(alloc, self.as_bytes())
    }

    /// Encodes the bytes as a text of this kind: a byte of the class stays, and any other becomes
    /// an escape with upper-case digits, such as `#` in a query. The result is canonical, and
    /// [`decode`](Text::decode) returns the bytes again. Reserves capacity once.
    ///
    /// The kind must keep the case of letters, so registered names are not encoded.
    pub fn encode(alloc: Global, bytes: &[u8]) -> Result<Text<'static, K>, AllocError>
        requires { K.case ≡ Kept }
        ensures text { IfOk result (λ t. t ≡ encoded K.class bytes.now) }
        ensures back { IfOk result (λ t. decoded t ≡ bytes.now) }
        ensures canonical { IfOk result (λ t. canonical_in K.case t ≡ t) }
    {
        let text = encoded_bytes(alloc, K::class(), bytes)?;
        Ok(Text {
            text: Spelling::owned(unsafe { String::from_utf8_unchecked(text) }, true),
            kind: PhantomData,
        })
    }

    /// Writes the bytes that [`decode`](Text::decode) returns to the start of the buffer and returns
    /// their number; what follows them in the buffer is unchanged.
    ///
    /// If the buffer is too small, it is unchanged, and the error has the number of bytes needed; so
    /// a call with an empty buffer returns that. Does not allocate.
    ///
    /// ```
    /// let query = Query::try_from_str("a%20b")?;
    /// let mut buffer = [0; 8];
    /// let len = query.decode_into(&mut buffer)?;
    /// assert!(&buffer[..len] == b"a b".as_slice());
    /// assert!(query.decode_into(&mut []) == Err(TooSmall { needed: 3 }));
    /// ```
    pub fn decode_into(&self, out: &mut [u8]) -> Result<usize, TooSmall>
        ensures { Writes (decoded self.now) result out.old out.new }
    {
        forward_buffer::decode_into(self.as_bytes(), out)
    }

    /// Writes the text that [`encode`](Text::encode) returns to the start of the buffer and returns
    /// its length, as [`decode_into`](Text::decode_into) does. The kind must keep the case of
    /// letters. Does not allocate.
    ///
    /// ```
    /// let mut buffer = [0; 8];
    /// let len = Fragment::encode_into(b"a #", &mut buffer)?;
    /// assert!(&buffer[..len] == b"a%20%23".as_slice());
    /// ```
    pub fn encode_into(bytes: &[u8], out: &mut [u8]) -> Result<usize, TooSmall>
        requires { K.case ≡ Kept }
        ensures text { Writes (encoded K.class bytes.now) result out.old out.new }
        ensures back { IfOk result (λ n. decoded (take n out.new) ≡ bytes.now) }
    {
        forward_buffer::encode_into(K::class(), bytes, out)
    }

    /// Whether the text is its own canonical spelling. Does not allocate.
    #[inline]
    pub fn is_normalized(&self) -> bool
        ensures { IsTrue result ↔ (canonical_in K.case self.now ≡ self.now) }
    {
        self.text.is_known() || is_canonical(K::case(), self.as_bytes())
    }

    /// Records that the text is canonical.
    fn set_canonical(&mut self)
        requires { canonical_in K.case self.old ≡ self.old }
        ensures { self.new ≡ self.old }
    {
        let text = mem::replace(&mut self.text, Spelling::Borrowed("", 0));
        self.text = text.into_canonical();
    }

    /// Replaces the text by its canonical spelling. A second call changes nothing. Allocates only
    /// if they differ, once; if memory runs out, the text is unchanged.
    pub fn normalize(&mut self, alloc: Global) -> Result<(), AllocError>
        ensures ok { OnOk result (self.new ≡ canonical_in K.case self.old) }
        ensures err { OnErr result (self.new ≡ self.old) }
        ensures takes_no_memory { canonical_in K.case self.old ≡ self.old → IsOk result }
    {
        if self.is_normalized() {
            self.set_canonical();
            return Ok(());
        }
        *self = normalized_text(alloc, self)?;
        Ok(())
    }

    /// Whether the bytes have the same canonical spelling as this text. Bytes with a broken escape
    /// equal no text. Does not allocate.
    pub fn eq_bytes(&self, bytes: &[u8]) -> bool
        ensures { IsTrue result ↔ SpellsAlike K.case bytes.now self.now }
    {
        same_spelling(K::case(), bytes, self.as_bytes())
    }

    /// Like [`eq_bytes`](Text::eq_bytes), for a `str`.
    pub fn eq_str(&self, text: &str) -> bool
        ensures { IsTrue result ↔ SpellsAlike K.case text.now self.now }
    {
        self.eq_bytes(text.as_bytes())
    }
}

impl<'t, K: TextKind> PartialEq for Text<'t, K> {
    ghost eq = { on (canonical_in K.case) bytes_eq };

    ghost laws = { Prim.search (comparing, rules) };

    fn eq(&self, other: &Text<'t, K>) -> bool {
        if self.text.is_known() && other.text.is_known() {
            return self.as_bytes() == other.as_bytes();
        }
        same_spelling(K::case(), self.as_bytes(), other.as_bytes())
    }
}

impl<'t, K: TextKind> Eq for Text<'t, K> {
    ghost laws = { Prim.search (comparing, rules) };
}

impl<'t, K: TextKind> PartialOrd for Text<'t, K> {
    ghost partial_cmp = { as_partial_cmp (on (canonical_in K.case) (slice_cmp nat_cmp)) };

    ghost laws = { on_po (canonical_in K.case) texts_po };

    fn partial_cmp(&self, other: &Text<'t, K>) -> Option<Ordering> {
        Some(self.cmp(other))
    }
}

impl<'t, K: TextKind> Ord for Text<'t, K> {
    ghost cmp = { on (canonical_in K.case) (slice_cmp nat_cmp) };

    ghost total = { on_texts (canonical_in K.case) };

    ghost matches_partial_cmp = { λ s t. refl };

    ghost matches_eq = { λ s t. texts_ties (canonical_in K.case s) (canonical_in K.case t) };

    fn cmp(&self, other: &Text<'t, K>) -> Ordering {
        if self.text.is_known() && other.text.is_known() {
            return self.as_bytes().cmp(other.as_bytes());
        }
        compare_spelling(K::case(), self.as_bytes(), other.as_bytes())
    }
}

impl<'t, K: TextKind> Hash for Text<'t, K> {
    ghost hash_input = { λ t. fed_text (canonical_in K.case t) };

    ghost respects_eq = { Prim.search (hashing, rules) };

    fn hash<H: Hasher>(&self, state: &mut H) {
        if self.text.is_known() {
            return feed_known(self.as_bytes(), state);
        }
        feed_text(K::case(), self.as_bytes(), state);
    }
}

impl<'t, K: TextKind> fmt::Display for Text<'t, K> {
    ghost output = { λ t. Some t };

    // The formatter's options have no effect.
    ghost styled_output = { λ t _. Some t };

    fn fmt<W: fmt::Write>(&self, f: &mut fmt::Formatter<W>) -> fmt::Result {
        f.write_str(self.as_str())
    }
}

impl<'t, K: TextKind> fmt::Debug for Text<'t, K> {
    fn fmt<W: fmt::Write>(&self, f: &mut fmt::Formatter<W>) -> fmt::Result {
        f.debug_tuple(K::name()).field(&self.as_str()).finish()
    }
}

/// The number of bytes of a text, or 0 if there is none.
pub fn len_of<K: TextKind>(text: &Option<Text<'_, K>>) -> usize
    ensures { result ≡ length (unwrap_or text.now []) }
{
    match text {
        Some(text) => text.as_str().len(),
        None => 0,
    }
}
