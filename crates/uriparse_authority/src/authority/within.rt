//! Whether a host is a domain or within it, and whether a name may be taken for an address: RFC
//! 1034, section 3.1, RFC 1123, section 2.1, and RFC 3986, section 7.4.
ghost use Rattle.std.specs.Prelude.{◌≡◌, ◌↔◌, ℕ, ◌<◌, ◌≤◌, ◌++◌, ◌&&◌, [], List, IsTrue, MatchOption, IfSome, drop, length, not, true};
ghost use Rattle.std.specs.List.{Any, count_by, list_any, slice_split};
ghost use Rattle.uriparse_text.specs.declared.internal.token.Case.TheVariants as case;
ghost use Rattle.uriparse_text.specs.Bytes.{is_hex};
ghost use Rattle.uriparse_text.specs.Canonical.{canonical_lowered, canonical_token};
ghost use Rattle.uriparse_text.specs.Tokens.{is_well_formed, spell};
ghost use Rattle.uriparse_text.specs.declared.internal.token.Token.TheVariants.{Escape};
ghost use Rattle.uriparse_authority.specs.Within as spec;

use super::Host;
use uriparse_text::address::Ipv4Addr;
use uriparse_text::internal::{
    Case, Form, is_escape, is_unreserved, octet_of, prepend_formed, same_spelling,
};

/// The unreserved byte that an escape stands for, else `%`.
fn octet_of_escape(high: u8, low: u8) -> u8
    requires high { is_hex high ≡ true }
    requires low { is_hex low ≡ true }
    ensures { spec.HasOctet result (spell (canonical_token case.Lowered (Escape high low))) }
{
    let octet = octet_of(high, low);
    if is_unreserved(octet) { octet } else { b'%' }
}

/// The first byte of a name's text, or the unreserved byte that a first escape stands for, and what
/// follows.
fn split_octet(text: &[u8]) -> Option<(u8, &[u8])>
    ensures cut { MatchOption result (text.now ≡ []) (λ x. spec.BeginsWithOctet x.0 text.now x.1.now) }
    ensures formed { is_well_formed text.now ≡ true → IfSome result (λ x. is_well_formed x.1.now ≡ true) }
    ensures shorter { IfSome result (λ x. length x.1.now < length text.now) }
{
    let (&b, after) = text.split_first()?;
    if is_escape(b, after) {
        Some((octet_of_escape(after[0], after[1]), &after[2..]))
    } else {
        Some((b, after))
    }
}

/// The text without a dot at its end, plain or escaped.
fn without_end_dot(text: &[u8]) -> &[u8]
    requires { is_well_formed text.now ≡ true }
    ensures spelled { canonical_lowered result.now ≡ spec.without_end_dot (canonical_lowered text.now) }
    ensures formed { is_well_formed result.now ≡ true }
{
    if let Some(front) = text.strip_suffix(b".") {
        return front;
    }
    if let Some(front) = text.strip_suffix(b"%2E") {
        return front;
    }
    match text.strip_suffix(b"%2e") {
        Some(front) => front,
        None => text,
    }
}

/// The number of dots in a name's text, plain and escaped.
fn dot_count(text: &[u8]) -> usize
    ensures { result ≡ count_by spec.is_dot (canonical_lowered text.now) }
{
    let mut count = 0;
    let mut rest = text;
    'octets: while let Some((octet, after)) = split_octet(rest) {
        if octet == b'.' {
            count += 1;
        }
        rest = after;
    }
    count
}

/// Whether a dot is first or last, or follows another one, or the text is empty.
fn has_empty_label(text: &[u8]) -> bool
    ensures { result ≡ list_any spec.is_empty (slice_split spec.is_dot (canonical_lowered text.now)) }
{
    let mut begins = true;
    let mut rest = text;
    'octets: while let Some((octet, after)) = split_octet(rest) {
        let is_dot = octet == b'.';
        if begins && is_dot {
            return true;
        }
        begins = is_dot;
        rest = after;
    }
    begins
}

/// What follows this many dots.
fn skip_labels(text: &[u8], count: usize) -> &[u8]
    requires formed { is_well_formed text.now ≡ true }
    requires within { count ≤ count_by spec.is_dot (canonical_lowered text.now) }
    ensures left { slice_split spec.is_dot (canonical_lowered result.now) ≡ drop count (slice_split spec.is_dot (canonical_lowered text.now)) }
    ensures formed { is_well_formed result.now ≡ true }
{
    let mut left = count;
    let mut rest = text;
    'octets: while left > 0 {
        let Some((octet, after)) = split_octet(rest) else {
            return rest;
        };
        if octet == b'.' {
            left -= 1;
        }
        rest = after;
    }
    rest
}

/// Whether the canonical spelling of a text is an IPv4 address, which has at most 15 bytes.
fn spells_address(text: &[u8]) -> bool
    ensures { result ≡ spec.is_address (canonical_lowered text.now) }
{
    let mut buffer = [0; 15];
    let len = prepend_formed(Form::Canonical, Case::Lowered, text, &mut buffer, 0);
    len <= 15 && Ipv4Addr::parse_bytes(&buffer[15 - len..]).is_some()
}

/// Whether the labels of the one text end with all labels of the other.
fn ends_with_labels(name: &[u8], domain: &[u8]) -> bool
    requires name { is_well_formed name.now ≡ true }
    requires domain { is_well_formed domain.now ≡ true }
    ensures { IsTrue result ↔ ((front : List (List ℕ)) × (slice_split spec.is_dot (canonical_lowered name.now) ≡ front ++ slice_split spec.is_dot (canonical_lowered domain.now))) }
{
    match dot_count(name).checked_sub(dot_count(domain)) {
        Some(more) => same_spelling(Case::Lowered, skip_labels(name, more), domain),
        None => false,
    }
}

/// Whether the canonical spelling of a name has an escape.
fn has_escape(text: &[u8]) -> bool
    ensures { result ≡ spec.has_escape (canonical_lowered text.now) }
{
    let mut rest = text;
    'octets: while let Some((octet, after)) = split_octet(rest) {
        if octet == b'%' {
            return true;
        }
        rest = after;
    }
    false
}

/// Whether neither of two names is an address.
fn are_no_addresses(name: &[u8], domain: &[u8]) -> bool
    ensures { result ≡ (not (spec.is_address (canonical_lowered name.now)) && not (spec.is_address (canonical_lowered domain.now))) }
{
    !spells_address(name) && !spells_address(domain)
}

/// Whether a name without a dot at its end has no empty label, and neither it nor the domain has an
/// escape or is an address.
fn are_plain(name: &[u8], domain: &[u8]) -> bool
    ensures { result ≡ spec.are_plain (canonical_lowered name.now) (canonical_lowered domain.now) }
{
    !has_empty_label(name)
        && !has_escape(name)
        && !has_escape(domain)
        && are_no_addresses(name, domain)
}

/// Whether the one name is within the other, as [`Host::is_within`] says.
fn is_name_within(name: &[u8], domain: &[u8]) -> bool
    requires name { is_well_formed name.now ≡ true }
    requires domain { is_well_formed domain.now ≡ true }
    ensures { IsTrue result ↔ spec.IsNameWithin (canonical_lowered name.now) (canonical_lowered domain.now) }
{
    let name = without_end_dot(name);
    let domain = without_end_dot(domain);
    ends_with_labels(name, domain) && are_plain(name, domain)
}

/// Whether the last label of a name begins with a digit.
fn ends_in_number(name: &[u8]) -> bool
    requires { is_well_formed name.now ≡ true }
    ensures { result ≡ spec.begins_with_digit (spec.last_label (spec.labels (canonical_lowered name.now))) }
{
    let name = without_end_dot(name);
    match split_octet(skip_labels(name, dot_count(name))) {
        Some((octet, _)) => octet.is_ascii_digit(),
        None => false,
    }
}

impl<'h> Host<'h> {
    /// Whether the host is the domain or within it: the hosts are equal, or both are names and the
    /// labels of this one end with all labels of `domain`. Labels are what dots separate: RFC 1034,
    /// section 3.1. Does not allocate.
    ///
    /// Names are compared by their canonical spelling, so letters of either case are equal, and so
    /// are a byte and its escape. A dot at the end of either name is ignored. A name with an empty
    /// label, such as `a..b` or the empty name, is within nothing but its equals, and nothing else is
    /// within it. The same holds for an address, for a name whose canonical spelling is the text of an
    /// IPv4 address, and for a name that [has escapes](Host::has_escapes). Sub-delimiters are allowed:
    /// `a;b.example.com` is within `example.com`.
    ///
    /// ```
    /// let domain = Host::try_from_str("example.com")?;
    /// assert!(Host::try_from_str("WWW.Example.com.")?.is_within(&domain));
    /// assert!(!Host::try_from_str("evilexample.com")?.is_within(&domain));
    /// assert!(!Host::try_from_str("example.com.evil.org")?.is_within(&domain));
    /// ```
    pub fn is_within(&self, domain: &Host<'_>) -> bool
        ensures { IsTrue result ↔ spec.IsWithin self.now domain.now }
    {
        if self == domain {
            return true;
        }
        match (self, domain) {
            (Host::RegisteredName(name), Host::RegisteredName(domain)) => {
                is_name_within(name.as_bytes(), domain.as_bytes())
            }
            _ => false,
        }
    }

    /// Whether the host [is within](Host::is_within) one of the domains. Does not allocate.
    ///
    /// ```
    /// let domains = [Host::try_from_str("example.com")?, Host::try_from_str("example.org")?];
    /// assert!(Host::try_from_str("www.example.org")?.is_within_any(&domains));
    /// assert!(!Host::try_from_str("www.example.net")?.is_within_any(&domains));
    /// ```
    pub fn is_within_any(&self, domains: &[Host<'_>]) -> bool
        ensures { IsTrue result ↔ Any (λ d. spec.IsWithin self.now d) domains.now }
    {
        domains.iter().any(|domain| self.is_within(domain))
    }

    /// Whether the host is a name whose canonical spelling is the text of an IPv4 address, as
    /// `%31.2.3.4`. Such a name becomes an address when its text is normalized and read again:
    /// RFC 3986, section 7.4. Does not allocate.
    ///
    /// ```
    /// assert!(Host::try_from_str("%31.2.3.4")?.hides_address());
    /// assert!(!Host::try_from_str("1.2.3.4")?.hides_address());
    /// ```
    pub fn hides_address(&self) -> bool
        ensures { result ≡ spec.hides_address self.now }
    {
        match self {
            Host::RegisteredName(name) => spells_address(name.as_bytes()),
            _ => false,
        }
    }

    /// Whether the host is a name whose canonical spelling has an escape: one of a byte that is not
    /// unreserved, such as `%2F` or a byte of a character that is not ASCII. Readers disagree on such
    /// a name. Some decode it, so `evil.org%2F.example.com` leads them to `evil.org`, and a name
    /// with full-width digits to an address. RFC 3986, sections 3.2.2 and 7.3. Does not allocate.
    ///
    /// ```
    /// assert!(Host::try_from_str("evil.org%2F.example.com")?.has_escapes());
    /// assert!(!Host::try_from_str("www.%65xample.com")?.has_escapes());
    /// ```
    pub fn has_escapes(&self) -> bool
        ensures { result ≡ spec.has_escapes self.now }
    {
        match self {
            Host::RegisteredName(name) => has_escape(name.as_bytes()),
            _ => false,
        }
    }

    /// Whether the host is a name whose last label begins with a digit, apart from a dot at its
    /// end. No top-level domain does, RFC 1123, section 2.1, and resolvers take such names for
    /// addresses: `2130706433`, `0x7f.1` and `127.1` are `127.0.0.1` for many. RFC 3986, section
    /// 7.4. Does not allocate.
    ///
    /// ```
    /// assert!(Host::try_from_str("0x7f.1")?.may_be_numeric());
    /// assert!(!Host::try_from_str("1.example.com")?.may_be_numeric());
    /// ```
    pub fn may_be_numeric(&self) -> bool
        ensures { result ≡ spec.may_be_numeric self.now }
    {
        match self {
            Host::RegisteredName(name) => ends_in_number(name.as_bytes()),
            _ => false,
        }
    }
}
