//! The bytes of a text, and whether they are known to be its canonical spelling.
ghost use Rattle.std.specs.Prelude.{◌≡◌, IfOk, string_bytes, true};
ghost use Rattle.uriparse_text.specs.Spelling as spec;

use std::alloc::{AllocError, Global};

/// Text that is borrowed or owned, and known to be canonical or not. Keeping the latter takes no
/// extra space.
#[derive(Drop)]
pub enum Spelling<'t> {
    /// Borrowed text, with 1 if it is known to be canonical. That is a word and not a variant, so
    /// the variant is known where a component is built and moved.
    Borrowed(&'t str, usize),
    /// Owned text, whose spelling is unknown.
    Owned(String),
    /// Owned text that is canonical.
    OwnedCanonical(String),
}

impl<'t> Spelling<'t> {
    /// Borrowed text.
    #[inline(always)]
    pub(super) fn borrowed(text: &'t str, canonical: bool) -> Spelling<'t>
        ensures text { spec.spelled result ≡ text.now }
        ensures known { spec.is_known result ≡ canonical }
    {
        Spelling::Borrowed(text, usize::from(canonical))
    }

    /// Owned text.
    #[inline(always)]
    pub(super) fn owned(text: String, canonical: bool) -> Spelling<'static>
        ensures text { spec.spelled result ≡ string_bytes text }
        ensures known { spec.is_known result ≡ canonical }
    {
        if canonical {
            Spelling::OwnedCanonical(text)
        } else {
            Spelling::Owned(text)
        }
    }

    /// The text.
    #[inline]
    pub(super) fn as_str(&self) -> &str
        ensures { result.now ≡ spec.spelled self.now }
    {
        match self {
            Spelling::Borrowed(text, _) => text,
            Spelling::Owned(text) | Spelling::OwnedCanonical(text) => text.as_str(),
        }
    }

    /// Whether the text is known to be canonical.
    #[inline(always)]
    pub(super) fn is_known(&self) -> bool
        ensures { result ≡ spec.is_known self.now }
    {
        match self {
            Spelling::Borrowed(_, known) => *known == 1,
            Spelling::Owned(_) => false,
            Spelling::OwnedCanonical(_) => true,
        }
    }

    /// The text, owned. Borrowed text is copied, which allocates.
    pub(super) fn into_owned(self, alloc: Global) -> Result<Spelling<'static>, AllocError>
        ensures { IfOk result (λ s. (spec.spelled s ≡ spec.spelled self.entry) × (spec.is_known s ≡ spec.is_known self.entry)) }
    {
        match self {
            Spelling::Borrowed(text, known) => {
                Ok(Spelling::owned(String::from_str(alloc, text)?, known == 1))
            }
            Spelling::Owned(text) => Ok(Spelling::Owned(text)),
            Spelling::OwnedCanonical(text) => Ok(Spelling::OwnedCanonical(text)),
        }
    }

    /// The text, marked as canonical.
    pub(super) fn into_canonical(self) -> Spelling<'t>
        ensures text { spec.spelled result ≡ spec.spelled self.entry }
        ensures known { spec.is_known result ≡ true }
    {
        match self {
            Spelling::Borrowed(text, _) => Spelling::Borrowed(text, 1),
            Spelling::Owned(text) => Spelling::OwnedCanonical(text),
            Spelling::OwnedCanonical(text) => Spelling::OwnedCanonical(text),
        }
    }
}
