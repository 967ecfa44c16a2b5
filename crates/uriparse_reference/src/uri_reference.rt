//! A URI reference: RFC 3986, section 4.1.
ghost use Rattle.std.specs.Prelude.{◌≡◌, ◌↔◌, ◌⊎◌, ◌&&◌, IfOk, IfErr, IsTrue, Ok, Err, IfSome, Some, ◌<◌, ◌≤◌, bytes_eq, fold, is_some, length, option_copied, string_bytes};
ghost use Rattle.std.proofs.Common.{rules};
ghost use Rattle.std.specs.Ordering.{on};
ghost use Rattle.std.specs.Cmp.Rules.{comparing, hashing};
ghost use Rattle.uriparse_text.specs.Canonical.{canonical};
ghost use Rattle.uriparse_text.specs.Readings.{IsUnless, unless_fault};
ghost use Rattle.uriparse_path.specs.Path.{text};
ghost use Rattle.uriparse_text.specs.declared.segment.error.PathError.TheVariants.{OutOfMemory};
ghost use Rattle.uriparse_reference.specs.declared.uri_reference.error.URIReferenceError.TheVariants as errors;
ghost use Rattle.uriparse_reference.specs.Key.{each_alike, ends_alike, fed, fed_key, key, authority_and_path_alike};
ghost use Rattle.uriparse_reference.specs.Offset.{first_fault};
ghost use Rattle.uriparse_reference.specs.Reading.{fault};
ghost use Rattle.uriparse_reference.specs.Reference.{Same, host_of, password_of, port_of, print, username_of};

use std::alloc::{AllocError, Global};
use std::fmt;
use std::fmt::Write;
use std::hash::{Hash, Hasher};
use std::marker::Model;
use uriparse_authority::authority::{Authority, Host, Password, Username};
use uriparse_path::internal::most_path_bytes;
use uriparse_path::path::Path;
use uriparse_scheme::scheme::Scheme;
use uriparse_text::fragment::Fragment;
use uriparse_text::internal::len_of;
use uriparse_text::query::Query;

mod builder;
mod change;
mod classify;
mod copy;
mod edit;
mod error;
mod escape;
mod last_segment;
mod masked;
mod normal;
mod offset;
mod pairs;
mod parts;
mod port;
mod print;
pub(crate) mod read;
pub(crate) mod relate;
pub(crate) mod resolve;
mod same;
pub(crate) mod text;
pub(crate) mod view;

pub use builder::URIReferenceBuilder;
pub use change::{Change, ChangeError, Changes};
pub use edit::Edit;
pub use error::{BufferError, RejectedText, TargetError, URIReferenceError};
pub use escape::{escape_invalid, escape_invalid_into};
pub use masked::WithoutPassword;
use offset::{first_byte_fault, offset_of};
use print::{len_of_scheme, most_of_authority, write_authority, write_back, write_scheme};
use read::find_pieces;
pub use text::{ReferenceKey, ReferenceText};
pub use view::ReferenceView;

/// A URI reference by its five components: a URI or a relative reference. RFC 3986, section 4.1.
///
/// The components borrow the text that was read, or own their texts. Reading allocates only for the
/// list of the path's segments, if there is more than one; a copy that owns its texts and a normal
/// form allocate for texts too. Each value is valid, and its printed text reads back as an equal value, unless its host is
/// a name that spells an IPv4 address, which reading never returns. Two references are equal if the
/// canonical spellings of their texts agree and their hosts, if any, are of one kind. Dot segments
/// count.
///
/// ```
/// let reference = URIReference::try_from_str(alloc, "//h/%7Ea?q#f")?;
/// assert!(reference.has_authority() && reference.scheme().is_none());
/// assert!(reference == URIReference::try_from_str(alloc, "//H/~a?q#f")?);
/// assert_eq!(reference.to_string(alloc)?.as_str(), "//h/%7Ea?q#f");
/// ```
pub struct URIReference<'r> {
    scheme: Option<Scheme<'r>>,
    authority: Option<Authority<'r>>,
    path: Path<'r>,
    query: Option<Query<'r>>,
    fragment: Option<Fragment<'r>>,
}

// By hand, so that a proof treats letting a reference go as one call: a derived destructor is
// written out for all components at each exit of a caller.
impl<'r> Drop for URIReference<'r> {
    #[inline(always)]
    fn drop(self) {
        let URIReference {
            scheme: _scheme,
            authority: _authority,
            path: _path,
            query: _query,
            fragment: _fragment,
        } = self;
    }
}

impl<'r> Model for URIReference<'r> {
    ghost use Rattle.uriparse_reference.specs.Reference.{Parts, Valid};

    ghost Value = { Parts };

    ghost view = { λ r. record { scheme = r.scheme; authority = r.authority; path = r.path; query = r.query; fragment = r.fragment } };

    ghost invariant = { λ r. Valid (record { scheme = r.scheme; authority = r.authority; path = r.path; query = r.query; fragment = r.fragment }) };
}

impl<'r> URIReference<'r> {
    ghost use Rattle.uriparse_reference.specs.Reference.{Parts, ReadsBack, Spells, Valid};
    ghost use Rattle.uriparse_reference.specs.declared.uri_reference.error.URIReferenceError.{URIReferenceError};

    /// Reads a reference, which borrows the bytes: RFC 3986, section 4.1. Allocates only for the
    /// list of the path's segments, if there is more than one.
    ///
    /// Returns the first fault, in the order authority, path, colon rule, query, fragment. By the
    /// colon rule (section 4.2), a reference with neither a scheme nor an authority has no colon
    /// before the path's first slash; else the error is
    /// [`SchemelessPathStartsWithColonSegment`](URIReferenceError::SchemelessPathStartsWithColonSegment).
    /// Each other fault is in the variant of its component. If there is no fault but memory runs
    /// out, the error is [`Path`](URIReferenceError::Path) with
    /// [`OutOfMemory`](uriparse_path::path::PathError::OutOfMemory).
    pub fn try_from_bytes(
        alloc: Global,
        bytes: &'r [u8],
    ) -> Result<URIReference<'r>, URIReferenceError>
        // The text spells the result.
        ensures found { IfOk result (λ r. Spells bytes.now r) }

        // A text that spells a reference is accepted, unless memory runs out.
        ensures only { (p : Parts) → Spells bytes.now p → IsUnless (errors.Path OutOfMemory) result (Ok p) }

        // An error is the text's fault, or memory ran out.
        ensures fault { IfErr result (λ e. (fault bytes.now ≡ Some e) ⊎ (e ≡ errors.Path OutOfMemory)) }

        // A fault is returned even if memory has run out.
        ensures always { (e : URIReferenceError) → fault bytes.now ≡ Some e → result ≡ Err e }

        // A path of one segment takes no memory.
        ensures takes_no_memory { (p : Parts) → Spells bytes.now p → length p.path.segments ≡ 1 → result ≡ Ok p }
    {
        let pieces = find_pieces(bytes)?;
        let path = pieces.make_path(alloc)?;
        Ok(pieces.to_reference(path))
    }

    /// Like [`try_from_bytes`](URIReference::try_from_bytes), for a `str`.
    pub fn try_from_str(alloc: Global, text: &'r str) -> Result<URIReference<'r>, URIReferenceError>
        ensures found { IfOk result (λ r. Spells text.now r) }
        ensures only { (p : Parts) → Spells text.now p → IsUnless (errors.Path OutOfMemory) result (Ok p) }
        ensures fault { IfErr result (λ e. (fault text.now ≡ Some e) ⊎ (e ≡ errors.Path OutOfMemory)) }
        ensures always { (e : URIReferenceError) → fault text.now ≡ Some e → result ≡ Err e }
        ensures takes_no_memory { (p : Parts) → Spells text.now p → length p.path.segments ≡ 1 → result ≡ Ok p }
    {
        URIReference::try_from_bytes(alloc, text.as_bytes())
    }

    /// Checks that a text is a reference, as [`try_from_bytes`](URIReference::try_from_bytes) reads
    /// it, and returns its fault if it is not. Does not allocate, so it never runs out of memory.
    pub fn check(bytes: &[u8]) -> Result<(), URIReferenceError>
        ensures { result ≡ unless_fault (fault bytes.now) tt }
    {
        match find_pieces(bytes) {
            Ok(_) => Ok(()),
            Err(error) => Err(error),
        }
    }

    /// Where a text is wrong, and why: the fault that [`check`](URIReference::check) and the readers
    /// return, after the number of bytes that precede it. `None` if the text is a reference.
    ///
    /// A wrong byte has its own place, a broken escape the place of its `%`, and one segment too
    /// many the place of the slash that begins it. An address of a wrong form, a port that is too
    /// large and a path that may not follow what precedes it are wrong where they begin: at the `[`,
    /// at the first digit, at the first byte. Precedes the end of the text. Walks the text again if
    /// it is faulty. Does not allocate.
    ///
    /// ```
    /// assert!(URIReference::first_fault(b"http://h/a%20b").is_none());
    /// assert!(matches!(URIReference::first_fault(b"http://h/a b"), Some((10, URIReferenceError::Path(_)))));
    /// assert!(matches!(URIReference::first_fault(b"//h:65536"), Some((4, URIReferenceError::Authority(_)))));
    /// ```
    pub fn first_fault(bytes: &[u8]) -> Option<(usize, URIReferenceError)>
        ensures fault { result ≡ first_fault bytes.now }
        ensures within { IfSome result (λ f. f.0 < length bytes.now) }
    {
        if let Some(error) = first_byte_fault(bytes) {
            return Some((0, URIReferenceError::Path(error)));
        }
        match URIReference::check(bytes) {
            Ok(()) => None,
            Err(error) => Some((offset_of(&error, bytes), error)),
        }
    }

    /// The scheme, if there is one.
    pub fn scheme(&self) -> Option<&Scheme<'r>>
        ensures { option_copied result ≡ self.now.scheme }
    {
        self.scheme.as_ref()
    }

    /// The authority, if there is one.
    pub fn authority(&self) -> Option<&Authority<'r>>
        ensures { option_copied result ≡ self.now.authority }
    {
        self.authority.as_ref()
    }

    /// The user name, if there is one.
    pub fn username(&self) -> Option<&Username<'r>>
        ensures { option_copied result ≡ username_of self.now }
    {
        match &self.authority {
            Some(authority) => authority.username(),
            None => None,
        }
    }

    /// The password, if there is one.
    pub fn password(&self) -> Option<&Password<'r>>
        ensures { option_copied result ≡ password_of self.now }
    {
        match &self.authority {
            Some(authority) => authority.password(),
            None => None,
        }
    }

    /// The host, if there is an authority.
    pub fn host(&self) -> Option<&Host<'r>>
        ensures { option_copied result ≡ host_of self.now }
    {
        match &self.authority {
            Some(authority) => Some(authority.host()),
            None => None,
        }
    }

    /// The port, if there is one.
    pub fn port(&self) -> Option<u16>
        ensures { result ≡ port_of self.now }
    {
        match &self.authority {
            Some(authority) => authority.port(),
            None => None,
        }
    }

    /// Whether there is a user name.
    pub fn has_username(&self) -> bool
        ensures { result ≡ is_some (username_of self.now) }
    {
        self.username().is_some()
    }

    /// Whether there is a password.
    pub fn has_password(&self) -> bool
        ensures { result ≡ is_some (password_of self.now) }
    {
        self.password().is_some()
    }

    /// Whether there is a port.
    pub fn has_port(&self) -> bool
        ensures { result ≡ is_some (port_of self.now) }
    {
        self.port().is_some()
    }

    /// The path.
    pub fn path(&self) -> &Path<'r>
        ensures path { result.now ≡ self.now.path }
        ensures valid { Valid self.now }
    {
        &self.path
    }

    /// The query, if there is one.
    pub fn query(&self) -> Option<&Query<'r>>
        ensures { option_copied result ≡ self.now.query }
    {
        self.query.as_ref()
    }

    /// The fragment, if there is one.
    pub fn fragment(&self) -> Option<&Fragment<'r>>
        ensures { option_copied result ≡ self.now.fragment }
    {
        self.fragment.as_ref()
    }

    /// An upper bound for the number of bytes of the reference's text: its components' bytes, a
    /// `:`, two slashes, a `?` and a `#`; or `usize::MAX`.
    fn most_bytes(&self) -> usize
        ensures { length (print self.now) ≤ result ⊎ result ≡ usize.MAX }
    {
        5usize
            .saturating_add(len_of_scheme(&self.scheme))
            .saturating_add(len_of(&self.query))
            .saturating_add(len_of(&self.fragment))
            .saturating_add(most_of_authority(&self.authority))
            .saturating_add(most_path_bytes(&self.path))
    }

    /// Writes the reference's text into a new `String`. Allocates.
    pub fn to_string(&self, alloc: Global) -> Result<String, AllocError>
        ensures printed { IfOk result (λ s. string_bytes s ≡ print self.now) }

        // The string spells the reference, unless its host is a name that reads as an address.
        ensures back { IfOk result (λ s. ReadsBack self.now → Spells (string_bytes s) self.now) }
    {
        let _path = self.path();
        let mut text = String::with_capacity(alloc, self.most_bytes())?;
        write!(text, "{self}")?;
        Ok(text)
    }

    /// Whether the schemes, fragments and queries are equal, each in canonical spelling.
    fn has_ends_alike(&self, other: &URIReference<'r>) -> bool
        ensures valid { Valid self.now × Valid other.now }
        ensures test { result ≡ ends_alike self.now other.now }
    {
        self.scheme == other.scheme && self.fragment == other.fragment && self.query == other.query
    }

    /// Whether the authorities and paths are equal, each in canonical spelling.
    fn eq_authority_and_path(&self, other: &URIReference<'r>) -> bool
        ensures { result ≡ authority_and_path_alike self.now other.now }
    {
        self.authority == other.authority && self.path == other.path
    }

    /// Whether the components are equal, each in canonical spelling. Compares the shortest first.
    fn is_each_alike(&self, other: &URIReference<'r>) -> bool
        ensures test { result ≡ each_alike self.now other.now }
        ensures valid { Valid self.now × Valid other.now }
    {
        self.has_ends_alike(other) && self.eq_authority_and_path(other)
    }
}

impl<'r> PartialEq for URIReference<'r> {
    ghost eq = { on key bytes_eq };

    ghost laws = { Prim.search (comparing, rules) };

    fn eq(&self, other: &URIReference<'r>) -> bool
        ensures key { result ≡ bytes_eq (key self.now) (key other.now) }
        ensures same { IsTrue result ↔ Same self.now other.now }
    {
        self.is_each_alike(other)
    }
}

impl<'r> Eq for URIReference<'r> {
    ghost laws = { Prim.search (comparing, rules) };
}

impl<'r> Hash for URIReference<'r> {
    ghost hash_input = { λ r. fed_key (key r) };

    ghost respects_eq = { Prim.search (hashing, rules) };

    fn hash<H: Hasher>(&self, state: &mut H)
        ensures fed { state.new ≡ fold H.write state.old (fed self.now) }
        ensures key { state.new ≡ fold H.write state.old (fed_key (key self.now)) }
    {
        self.scheme.hash(state);
        self.authority.hash(state);
        self.path.hash(state);
        self.query.hash(state);
        self.fragment.hash(state);
    }
}

impl<'r> fmt::Display for URIReference<'r> {
    ghost output = { λ r. Some (print r) };

    // The formatter's options do not change the output.
    ghost styled_output = { λ r _. Some (print r) };

    fn fmt<W: fmt::Write>(&self, f: &mut fmt::Formatter<W>) -> fmt::Result {
        write_scheme(&self.scheme, f)?;
        write_authority(&self.authority, f)?;
        write_back(&self.path, &self.query, &self.fragment, f)
    }
}

impl<'r> fmt::Debug for URIReference<'r> {
    fn fmt<W: fmt::Write>(&self, f: &mut fmt::Formatter<W>) -> fmt::Result {
        f.debug_struct("URIReference")
            .field("scheme", &self.scheme)
            .field("authority", &self.authority)
            .field("path", &self.path)
            .field("query", &self.query)
            .field("fragment", &self.fragment)
            .finish()
    }
}
