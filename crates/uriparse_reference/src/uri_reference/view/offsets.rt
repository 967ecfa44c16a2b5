//! Where the components of a reference lie in its text, as numbers, so that a text that is owned is
//! viewed again without reading it: RFC 3986, sections 3 and 4.1.
ghost use Rattle.std.specs.Prelude.{◌≡◌, ◌-◌, ◌==◌, ℕ, IfSome, List, Ok, Option, drop, if◌then◌else◌};
ghost use Rattle.uriparse_authority.specs.Authority as authority;
ghost use Rattle.uriparse_reference.specs.OwnedText.{AreOffsets, IsAuthorityOf, viewed_in};

use super::super::read::{Pieces, ScannedTail};
use super::ReferenceView;
use uriparse_authority::internal::{ScannedAuthority, find_authority, scanned_named};
use uriparse_scheme::scheme::RegisteredScheme;
use uriparse_text::internal::scanned_again;

/// Where the components of a text lie, and what reading learned of them.
#[derive(Clone, Copy)]
pub(in crate::uri_reference) struct Offsets {
    /// Where the scheme ends, which is 0 if there is none.
    scheme: u32,
    /// Where the path begins.
    path: u32,
    /// Where the path ends, and the query begins with its `?`, if it is present.
    query: u32,
    /// Where the query ends, and the fragment begins with its `#`, if it is present.
    fragment: u32,
    /// The number of the path's segments.
    count: u32,
    /// The length of the name that the authority begins with.
    name: u32,
    port: Option<u16>,
    known: Option<RegisteredScheme>,
    /// What the authority is: 0 none, 1 a name and at most a port, 2 the same and the name is
    /// canonical, 3 one that is to be read again, because it has user information or an address.
    authority_kind: u8,
    has_query: u8,
    has_fragment: u8,
    escaped: u8,
}

/// The number, if it has at most 32 bits.
#[inline(always)]
fn narrow(number: usize) -> Option<u32>
    ensures { IfSome result (λ n. n ≡ number) }
{
    u32::try_from(number).ok()
}

/// What follows the first `len` bytes of a text.
#[inline(always)]
pub(super) fn skip(len: usize, text: &[u8]) -> &[u8]
    ensures { result.now ≡ drop len text.now }
{
    text.get(len..).unwrap_or(b"")
}

/// How many bytes stand between a scheme and an authority.
#[inline(always)]
fn gap(scheme: u32) -> usize
    ensures { result ≡ (if scheme == 0 then 2 else 3) }
{
    if scheme == 0 { 2 } else { 3 }
}

/// What [`Offsets::authority`] finds the authority by.
#[inline(always)]
fn authority_words(found: &Option<ScannedAuthority<'_>>) -> (u8, usize, Option<u16>)
    ensures { (text : List ℕ) → IfSome found.now (λ a. authority.reading text ≡ Ok a) → IsAuthorityOf result.0 result.1 result.2 text found.now }
{
    let Some(found) = found else {
        return (0, 0, None);
    };
    match found.name_words() {
        Some((len, canonical)) => (if canonical { 2 } else { 1 }, len, found.port()),
        None => (3, 0, None),
    }
}

impl Offsets {
    /// The authority with this text, if there is one. Only one with user information or an address
    /// is read.
    #[inline(always)]
    fn authority<'t>(&self, text: &'t [u8]) -> Option<ScannedAuthority<'t>>
        requires { (a : Option authority.AuthorityParts) × IsAuthorityOf self.now.authority_kind self.now.name self.now.port text.now a }
        ensures { (a : Option authority.AuthorityParts) → IsAuthorityOf self.now.authority_kind self.now.name self.now.port text.now a → result ≡ a }
    {
        if self.authority_kind == 0 {
            return None;
        }
        if self.authority_kind == 3 {
            return match find_authority(text) {
                Ok((found, _)) => Some(found),
                Err(_) => None,
            };
        }
        let name = &text[..self.name as usize];
        Some(scanned_named(name, self.authority_kind == 2, self.port))
    }

    /// The view of the text. No byte is read, but for an authority with user information or an
    /// address.
    #[inline(always)]
    pub(in crate::uri_reference) fn view<'t>(&self, text: &'t [u8]) -> ReferenceView<'t>
        requires { AreOffsets text.now self.now }
        ensures { result ≡ viewed_in text.now }
    {
        let (text_before, fragment) = text.split_at(self.fragment as usize);
        let (front_and_path, query) = text_before.split_at(self.query as usize);
        let (front, path) = front_and_path.split_at(self.path as usize);
        let (scheme, following) = front.split_at(self.scheme as usize);
        ReferenceView {
            text,
            pieces: Pieces {
                scheme,
                known: self.known,
                authority: self.authority(skip(gap(self.scheme), following)),
                tail: ScannedTail {
                    path,
                    count: self.count as usize,
                    escaped: usize::from(self.escaped),
                    query: scanned_again(self.has_query, skip(1, query)),
                    fragment: scanned_again(self.has_fragment, skip(1, fragment)),
                },
            },
        }
    }
}

impl<'t> ReferenceView<'t> {
    /// Where the components lie, if the text is shorter than 4 GiB.
    pub(in crate::uri_reference) fn offsets(&self) -> Option<Offsets>
        ensures { IfSome result (λ c. AreOffsets self.now.text c) }
    {
        let tail = &self.pieces.tail;
        let (has_query, query_len) = tail.query.words();
        let (has_fragment, fragment_len) = tail.fragment.words();
        let (authority_kind, name, port) = authority_words(&self.pieces.authority);
        let fragment = start_of(has_fragment, fragment_len, self.text.len());
        let query = start_of(has_query, query_len, fragment);
        Some(Offsets {
            scheme: narrow(self.pieces.scheme.len())?,
            path: narrow(query.saturating_sub(tail.path.len()))?,
            query: narrow(query)?,
            fragment: narrow(fragment)?,
            count: narrow(tail.count)?,
            name: narrow(name)?,
            port,
            known: self.pieces.known,
            authority_kind,
            has_query,
            has_fragment,
            escaped: u8::from(tail.escaped != 0),
        })
    }
}

/// Where a text of this length begins with its delimiter, if it is present, before this end.
#[inline(always)]
fn start_of(present: u8, len: usize, end: usize) -> usize
    ensures { result ≡ (if present == 0 then end else end - len - 1) }
{
    if present == 0 {
        end
    } else {
        end.saturating_sub(len).saturating_sub(1)
    }
}
