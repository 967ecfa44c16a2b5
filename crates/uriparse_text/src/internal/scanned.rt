//! The parts of the input before a component is built from them: slices and flags without a
//! destructor, so that a later fault can still be returned cheaply.
ghost use Rattle.std.specs.Prelude.{◌≡◌, ◌==◌, MatchResult, None, Ok, Err, Some, is_none};
ghost use Rattle.std.specs.Option.{option_copied};
ghost use Rattle.uriparse_text.specs.Cuts.{after, before};
ghost use Rattle.uriparse_text.specs.Faults.{EndsClass};
ghost use Rattle.uriparse_text.specs.Readings.{if_present, reading_in};
ghost use Rattle.uriparse_text.specs.Scanned.{AreWords, if_there};
ghost use Rattle.uriparse_text.specs.Spelling.{IsValidText};

use super::canonical_prefix::{canonical_prefix_len, check_bytes, fault_following};
use super::text::{Text, TextKind, text_from_checked};
use std::marker::{Model, PhantomData};

/// The bytes of an optional text of this kind, known to be in its class. Contracts see it as these
/// bytes, if present.
#[derive(Drop)]
pub struct ScannedText<'t, K: TextKind> {
    // 0 if there is no text, 2 if it is canonical, and 1 if it may not be: a word, since a narrow
    // tag would be moved with its padding.
    present: usize,
    bytes: &'t [u8],
    kind: PhantomData<K>,
}

impl<'t, K: TextKind> Model for ScannedText<'t, K> {
    ghost use Rattle.std.specs.Prelude.{ℕ, ◌==◌, List, Option};
    ghost use Rattle.uriparse_text.specs.Scanned.{if_there};
    ghost use Rattle.uriparse_text.specs.Spelling.{IsValidText};

    ghost Value = { Option (List ℕ) };

    ghost view = { λ f. if_there f.present f.bytes.now };

    ghost invariant = { λ f. IsValidText K.class K.case (f.present == 2) f.bytes.now };
}

/// A text with these bytes, canonical if so marked.
#[inline(always)]
fn scanned_text<K: TextKind>(bytes: &[u8], canonical: bool) -> ScannedText<'_, K>
    requires { IsValidText K.class K.case canonical bytes.now }
    ensures { result ≡ Some bytes.now }
{
    ScannedText {
        present: if canonical { 2 } else { 1 },
        bytes,
        kind: PhantomData,
    }
}

/// There is no text.
#[inline(always)]
pub fn no_text<K: TextKind>() -> ScannedText<'static, K>
    ensures { result ≡ None }
{
    ScannedText {
        present: 0,
        bytes: b"",
        kind: PhantomData,
    }
}

impl<'t, K: TextKind> ScannedText<'t, K> {
    /// The text, if there is one, borrowed from the bytes. Does not allocate.
    #[inline(always)]
    pub fn to_text(&self) -> Option<Text<'t, K>>
        ensures { result ≡ self.now }
    {
        if self.present == 0 {
            None
        } else {
            Some(text_from_checked(self.bytes, self.present == 2))
        }
    }

    /// Whether there is none.
    #[inline(always)]
    pub fn is_none(&self) -> bool
        ensures { result ≡ is_none self.now }
    {
        self.present == 0
    }

    /// What [`scanned_again`] finds the text by without reading it: 0 if there is none, 2 if it is known
    /// to be canonical, else 1; and its length.
    #[inline(always)]
    pub fn words(&self) -> (u8, usize)
        ensures { AreWords K.class K.case result.0 result.1 self.now }
    {
        match self.present {
            0 => (0, 0),
            2 => (2, self.bytes.len()),
            _ => (1, self.bytes.len()),
        }
    }
}

/// The text of these bytes, of which [`words`](ScannedText::words) said whether it is there and canonical.
#[inline(always)]
pub fn scanned_again<K: TextKind>(present: u8, bytes: &[u8]) -> ScannedText<'_, K>
    requires { IsValidText K.class K.case (present == 2) bytes.now }
    ensures { result ≡ if_there present bytes.now }
{
    ScannedText {
        present: usize::from(present),
        bytes,
        kind: PhantomData,
    }
}

/// Finds a text of this kind, if there is one. Does not allocate.
///
/// Rejects the leftmost fault with the kind's error.
#[inline(always)]
pub fn find_text_if<'t, K: TextKind>(text: Option<&'t [u8]>) -> Result<ScannedText<'t, K>, K::Error>
    ensures { result ≡ if_present (reading_in K.class K.error_of) (option_copied text.entry) }
{
    match text {
        Some(bytes) => match check_bytes(K::class(), K::case(), bytes) {
            Ok(canonical) => Ok(scanned_text(bytes, canonical)),
            Err(byte) => Err(K::error_of(byte)),
        },
        None => Ok(no_text()),
    }
}

/// Finds the text of this kind that ends at the first such delimiter, and returns what follows the
/// delimiter, if it is present. No text of the kind contains the delimiter. Walks the bytes once,
/// up to the delimiter or the leftmost fault before it. Does not allocate.
///
/// Rejects that fault with the kind's error; what follows the delimiter is not examined.
#[inline(always)]
pub fn find_text_before<'t, K: TextKind>(
    bytes: &'t [u8],
    delimiter: u8,
) -> Result<(ScannedText<'t, K>, Option<&'t [u8]>), K::Error>
    requires { EndsClass K.class delimiter }
    ensures { let read = if_present (reading_in K.class K.error_of) (Some (before delimiter bytes.now)) in
        MatchResult result (λ r. (read ≡ Ok r.0) × (option_copied r.1 ≡ after delimiter bytes.now)) (λ e. read ≡ Err e) }
{
    let class = K::class();
    let case = K::case();
    let canonical_len = canonical_prefix_len(class, case, bytes);
    let offset = fault_following(class, case, bytes, canonical_len);
    if offset == bytes.len() {
        return Ok((scanned_text(bytes, offset == canonical_len), None));
    }
    let (front, rest) = bytes.split_at(offset);
    if bytes[offset] == delimiter {
        Ok((
            scanned_text(front, offset == canonical_len),
            Some(&rest[1..]),
        ))
    } else {
        Err(K::error_of(bytes[offset]))
    }
}
