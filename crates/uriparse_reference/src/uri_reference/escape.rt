//! Escaping what the text of a reference may not have: RFC 3986, section 2.1, and RFC 3987, section
//! 3.1.
ghost use Rattle.std.specs.Prelude.{◌≡◌, ◌++◌, IfOk, None, OnOk, string_bytes, true};
ghost use Rattle.std.specs.Option.{option_copied, option_map};
ghost use Rattle.uriparse_text.specs.Bytes.{colon};
ghost use Rattle.uriparse_text.specs.Cuts.{ahead, following};
ghost use Rattle.uriparse_text.specs.Tokens.{is_well_formed};
ghost use Rattle.uriparse_scheme.specs.Cuts.{if_some};
ghost use Rattle.uriparse_reference.specs.Escaped as spec;
ghost use Rattle.uriparse_reference.specs.Reading.{fault};
ghost use Rattle.uriparse_reference.specs.Reference.{after_slashes};

mod write;

use super::read::split_authority;
use std::alloc::{AllocError, Global};
use uriparse_scheme::internal::split_scheme;
use uriparse_text::internal::{
    Case, Class, most_escaped_bytes, push_escaped, split_at_delimiter, split_canonical_prefix,
    without_delimiter,
};
pub use write::escape_invalid_into;

/// Appends the scheme and its colon, if it is present: its text is not empty.
fn push_scheme(escaped: &mut Vec<u8>, scheme: &[u8]) -> Result<(), AllocError>
    ensures { OnOk result (escaped.new.items ≡ escaped.old.items ++ ahead colon (if_some scheme.now)) }
{
    if !scheme.is_empty() {
        escaped.extend_from_slice(scheme)?;
        escaped.push(b':')?;
    }
    Ok(())
}

/// Appends two slashes and the escaped authority, if it is present.
fn push_authority(escaped: &mut Vec<u8>, authority: Option<&[u8]>) -> Result<(), AllocError>
    ensures { OnOk result (escaped.new.items ≡ escaped.old.items ++ after_slashes (option_map spec.escaped_authority (option_copied authority.entry))) }
{
    if let Some(authority) = authority {
        escaped.extend_from_slice(b"//")?;
        push_escaped(escaped, Class::UserInfo, b"@[]", authority)?;
    }
    Ok(())
}

/// Appends a delimiter and the escaped component that follows it, if it is present.
fn push_following(
    escaped: &mut Vec<u8>,
    delimiter: u8,
    component: Option<&[u8]>,
) -> Result<(), AllocError>
    ensures { OnOk result (escaped.new.items ≡ escaped.old.items ++ following delimiter (option_map spec.escaped_component (option_copied component.entry))) }
{
    if let Some(component) = component {
        escaped.push(delimiter)?;
        push_escaped(escaped, Class::Query, b"", component)?;
    }
    Ok(())
}

/// Appends the escaped path, query and fragment. Most are bytes that a query may have: these are found
/// and copied at once, and no `#` is among them. A `?` may stand in a query, so path and query are
/// escaped as one.
fn push_end(escaped: &mut Vec<u8>, end: &[u8]) -> Result<(), AllocError>
    ensures { OnOk result (escaped.new.items ≡ escaped.old.items ++ spec.escaped_end end.now) }
{
    let (plain, later) = split_canonical_prefix(Class::Query, Case::Kept, end);
    escaped.extend_from_slice(plain)?;
    let (front, fragment) = split_at_delimiter(later, b'#');
    push_escaped(escaped, Class::Query, b"", front)?;
    push_following(escaped, b'#', without_delimiter(fragment))
}

/// Appends the text with its components escaped.
fn push_components(escaped: &mut Vec<u8>, text: &[u8]) -> Result<(), AllocError>
    ensures { OnOk result (escaped.new.items ≡ escaped.old.items ++ spec.escaped text.now) }
{
    let cut = split_scheme(text);
    let (authority, rest) = split_authority(cut.rest);
    push_scheme(escaped, cut.scheme)?;
    push_authority(escaped, authority)?;
    push_end(escaped, rest)
}

/// The text of a reference, made of any text: each byte that RFC 3986 does not allow where it
/// stands becomes an escape with upper-case digits, but for the delimiters of an authority, and all
/// else stays byte for byte. So a text without a fault stays as it is, and a second call changes
/// nothing. Bytes that aren't ASCII become escapes, as RFC 3987, section 3.1, has it for IRIs in
/// UTF-8, also in the name of a host, which is not turned into Punycode. Reserves capacity once.
///
/// The text is cut at its delimiters like any reference's. Spaces, `"`, `<`, `>`, `\`, `^`, `` ` ``,
/// `{`, `|`, `}`, control characters and bytes above 127 are escaped everywhere, `[` and `]` outside
/// of an authority, and `#` in a fragment. A `%` without two hexadecimal digits after it becomes
/// `%25`; one with them is an escape already. To write data that may have a `%` of its own, use
/// `encode` of the component. Fails only if memory runs out.
///
/// The result is a reference, unless its authority is invalid, its path has more than
/// [`MAX_SEGMENTS`](uriparse_path::path::MAX_SEGMENTS) segments, or it has neither scheme nor
/// authority and a colon precedes the first slash of its path. An authority keeps its delimiters
/// `:`, `@`, `[` and `]`, since an escape in place of one would make another host of it.
///
/// ```
/// let text = escape_invalid(alloc, "http://h/a b?q=100%&r=ü#[x]".as_bytes())?;
/// assert_eq!(text.as_str(), "http://h/a%20b?q=100%25&r=%C3%BC#%5Bx%5D");
/// ```
pub fn escape_invalid(alloc: Global, text: &[u8]) -> Result<String, AllocError>
    // The result is the text with its components escaped.
    ensures text { IfOk result (λ s. string_bytes s ≡ spec.escaped text.now) }

    // The text of a reference is returned unchanged.
    ensures kept { fault text.now ≡ None → IfOk result (λ s. string_bytes s ≡ text.now) }

    // A second call changes nothing.
    ensures again { IfOk result (λ s. spec.escaped (string_bytes s) ≡ string_bytes s) }

    // Each `%` of the result begins an escape.
    ensures formed { IfOk result (λ s. is_well_formed (string_bytes s) ≡ true) }

    // The fault of the result, if it has one.
    ensures left { IfOk result (λ s. fault (string_bytes s) ≡ spec.fault_left text.now) }
{
    let most = most_escaped_bytes(Class::Query, text);
    let mut escaped = Vec::with_capacity(alloc, most)?;
    push_components(&mut escaped, text)?;
    Ok(unsafe { String::from_utf8_unchecked(escaped) })
}
