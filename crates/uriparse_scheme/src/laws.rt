//! Laws about the definitions in `specs/`. The functions have no body: the contract is the law.
ghost use Rattle.std.specs.Prelude.{◌≡◌, ◌↔◌, ℕ, List, [], map, Some, None, Ok, Err, true, codes, slice_get};
ghost use Rattle.std.specs.Cmp.Lexicographic.{slice_cmp};
ghost use Rattle.std.specs.Ordering.{nat_cmp};
ghost use Rattle.std.specs.Str.{str_to_ascii_lowercase};
ghost use Rattle.std.specs.List.Sorted.{IsStrictlySortedBy};
ghost use Rattle.uriparse_text.specs.Tokens.{is_well_formed};
ghost use Rattle.uriparse_text.specs.Canonical.{canonical_lowered};
ghost use Rattle.uriparse_scheme.specs.declared.scheme.registered.RegisteredScheme.{RegisteredScheme};
ghost use Rattle.uriparse_scheme.specs.declared.scheme.registered.RegisteredScheme.TheVariants.{AAA, ACCT, HTTP, MicrosoftWindowsCameraMultiPicker, Microsoft, Z3950, Z3950S};
ghost use Rattle.uriparse_scheme.specs.declared.scheme.microsoft.MicrosoftScheme.TheVariants.{MSGameBarServices, MSWord};
ghost use Rattle.uriparse_scheme.specs.declared.scheme.status.SchemeStatus.TheVariants as statuses;
ghost use Rattle.uriparse_scheme.specs.declared.scheme.Scheme.{Scheme};
ghost use Rattle.uriparse_scheme.specs.declared.scheme.Scheme.TheVariants.{Registered, Unregistered};
ghost use Rattle.uriparse_scheme.specs.declared.scheme.error.SchemeError.TheVariants.{Empty, StartsWithNonAlphabetic, InvalidCharacter};
ghost use Rattle.uriparse_scheme.specs.declared.scheme.error.UnregisteredSchemeError.{UnregisteredSchemeError};
ghost use Rattle.uriparse_scheme.specs.SchemeTable.{variants};
ghost use Rattle.uriparse_scheme.specs.Registered.{names, registered_named, name_of};
ghost use Rattle.uriparse_scheme.specs.Grammar.{is_scheme, IsUnregistered};
ghost use Rattle.uriparse_scheme.specs.Scheme.{BeginsWithNoLetter, HasStrayByte, Spells, Valid, canonical_text, fault, reading, status, text};
ghost use Rattle.uriparse_scheme.specs.Unregistered as unregistered;
ghost use Rattle.uriparse_scheme.specs.Normal.{canonical_scheme};

/// Reading returns the scheme that a text spells. A text spells at most one scheme, and that one is
/// valid. The text of a valid scheme spells the scheme.
pub fn one_reading()
    ensures reads { (t : List ℕ) (s : Scheme) → (reading t ≡ Ok s) ↔ Spells t s }
    ensures one { (t : List ℕ) (r s : Scheme) → Spells t r → Spells t s → r ≡ s }
    ensures valid { (t : List ℕ) (s : Scheme) → Spells t s → Valid s }
    ensures back { (s : Scheme) → Valid s → Spells (text s) s }
{}

/// A text is a scheme, or it is empty, or its first byte is not a letter, or a later byte may not
/// appear in a scheme. The fault says which.
pub fn one_fault()
    ensures none { (t : List ℕ) → (fault t ≡ None) ↔ (is_scheme t ≡ true) }
    ensures empty { (t : List ℕ) → (fault t ≡ Some Empty) ↔ (t ≡ []) }
    ensures first { (t : List ℕ) → (fault t ≡ Some StartsWithNonAlphabetic) ↔ BeginsWithNoLetter t }
    ensures later { (t : List ℕ) → (fault t ≡ Some InvalidCharacter) ↔ HasStrayByte t }
{}

/// A text is read as an unregistered scheme exactly if it is a scheme and, in any case, not a name
/// in the table.
pub fn one_unregistered_reading()
    ensures { (t : List ℕ) → (unregistered.reading t ≡ Ok t) ↔ IsUnregistered t }
{}

/// A scheme is a concatenation of tokens. Its canonical spelling is its text in lower case, and the
/// canonical spelling of the scheme that the text spells.
pub fn canonical_is_lower_case()
    ensures formed { (t : List ℕ) → is_scheme t ≡ true → is_well_formed t ≡ true }
    ensures lowered { (t : List ℕ) → is_scheme t ≡ true → canonical_lowered t ≡ str_to_ascii_lowercase t }
    ensures spelled { (t : List ℕ) (s : Scheme) → Spells t s → canonical_text s ≡ canonical_lowered t }
{}

/// The names in the table are sorted, distinct, and schemes in lower case. Each registered scheme
/// is in the table once, and its name, in any case, names that scheme alone.
pub fn table_is_one_to_one()
    ensures sorted { IsStrictlySortedBy (slice_cmp nat_cmp) names }
    ensures lowered { map str_to_ascii_lowercase names ≡ names }
    ensures listed { (s : RegisteredScheme) → (k : ℕ) × (slice_get variants k ≡ Some s) }
    ensures once { (j k : ℕ) (s : RegisteredScheme) → slice_get variants j ≡ Some s → slice_get variants k ≡ Some s → j ≡ k }
    ensures distinct { (r s : RegisteredScheme) → name_of r ≡ name_of s → r ≡ s }
    ensures grammar { (s : RegisteredScheme) → is_scheme (name_of s) ≡ true }
    ensures named { (t : List ℕ) (s : RegisteredScheme) → (registered_named (str_to_ascii_lowercase t) ≡ Some s) ↔ (str_to_ascii_lowercase t ≡ name_of s) }
{}

/// The normal form of a valid scheme is valid, is its own normal form and has the canonical text. A
/// scheme with the text of its normal form is in normal form.
pub fn one_normal_form()
    ensures valid { (s : Scheme) → Valid s → Valid (canonical_scheme s) }
    ensures twice { (s : Scheme) → Valid s → canonical_scheme (canonical_scheme s) ≡ canonical_scheme s }
    ensures text { (s : Scheme) → text (canonical_scheme s) ≡ canonical_text s }
    ensures kept { (s : Scheme) → text (canonical_scheme s) ≡ text s → canonical_scheme s ≡ s }
{}

/// Examples of reading, printing and normalizing.
pub fn examples()
    ensures any_case { reading (codes "hTTp") ≡ Ok (Registered HTTP) }
    ensures acat { reading (codes "acat") ≡ Ok (Registered ACCT) }
    ensures acct { reading (codes "acct") ≡ Ok (Unregistered (codes "acct")) }
    ensures first_row { reading (codes "aaa") ≡ Ok (Registered AAA) }
    ensures last_row { reading (codes "Z39.50S") ≡ Ok (Registered Z3950S) }
    ensures shorter { reading (codes "z39.5") ≡ Ok (Unregistered (codes "z39.5")) }
    ensures longest { reading (codes "microsoft.windows.camera.multipicker") ≡ Ok (Registered MicrosoftWindowsCameraMultiPicker) }
    ensures longer { reading (codes "microsoft.windows.camera.multipickers") ≡ Ok (Unregistered (codes "microsoft.windows.camera.multipickers")) }
    ensures kept { reading (codes "a+-.9Z") ≡ Ok (Unregistered (codes "a+-.9Z")) }
    ensures nothing { reading (codes "") ≡ Err Empty }
    ensures digit { reading (codes "1a:") ≡ Err StartsWithNonAlphabetic }
    ensures colon { reading (codes "a:") ≡ Err InvalidCharacter }
    ensures underscore { reading (codes "http_") ≡ Err InvalidCharacter }
    ensures taken { unregistered.reading (codes "Http") ≡ Err (record {}) }
    ensures free { unregistered.reading (codes "httq") ≡ Ok (codes "httq") }
    ensures printed { text (Registered (Microsoft MSGameBarServices)) ≡ codes "ms-gamebaresrvices" }
    ensures normal { canonical_scheme (Unregistered (codes "SCHEME")) ≡ Unregistered (codes "scheme") }
    ensures permanent { status (Registered HTTP) ≡ statuses.Permanent }
    ensures provisional { status (Registered (Microsoft MSWord)) ≡ statuses.Provisional }
    ensures historical { status (Registered Z3950) ≡ statuses.Historical }
    ensures unregistered { status (Unregistered (codes "scheme")) ≡ statuses.Unregistered }
{}
