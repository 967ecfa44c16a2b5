//! A reference as it stands in running text: RFC 3986, appendix C.
ghost use Rattle.std.specs.Prelude.{◌≡◌, true};
ghost use Rattle.std.specs.Char.{is_ascii_whitespace};
ghost use Rattle.std.specs.Option.{option_copied};
ghost use Rattle.uriparse_text.specs.Cuts.{lacks, none_pass};
ghost use Rattle.uriparse_text.specs.Link as spec;

/// The text without the white space at its ends.
fn trimmed(text: &[u8]) -> &[u8]
    ensures { result.now ≡ spec.trimmed text.now }
{
    text.trim_ascii()
}

/// What stands between two angle brackets, if the text begins and ends with them.
fn in_brackets(text: &[u8]) -> Option<&[u8]>
    ensures { option_copied result ≡ spec.in_brackets text.now }
{
    match text {
        [b'<', inside @ .., b'>'] => Some(inside),
        _ => None,
    }
}

/// The text without the prefix `URL:`, in any case.
fn without_label(text: &[u8]) -> &[u8]
    ensures { result.now ≡ spec.without_label text.now }
{
    match text.split_at_checked(4) {
        Some((label, rest)) if label.eq_ignore_ascii_case(b"URL:") => rest,
        _ => text,
    }
}

/// The reference in a text that was cut out of a page or a letter: the text without the white space
/// at its ends and, if what is left begins with `<` and ends with `>`, without these two, the white
/// space at the ends of what they hold, and a prefix `URL:` in any case with the white space after
/// it. RFC 3986, appendix C. White space is space, tab, line feed, form feed and carriage return.
/// Does not allocate.
///
/// All else stays: a bracket without the other, a second pair of brackets, quotation marks, and
/// `URL:` without brackets, where it is a scheme. Appendix C also ignores white space within a
/// reference in brackets. This needs memory, so it is left to the caller; `escape_invalid` would
/// escape it.
///
/// The result need not be a reference. The text of a reference is returned unchanged, since it has
/// neither white space nor `<`.
///
/// ```
/// assert_eq!(trim_link(b" <URL:http://a/b>\n"), b"http://a/b".as_slice());
/// assert_eq!(trim_link(b"<http://a/b"), b"<http://a/b".as_slice());
/// ```
pub fn trim_link(text: &[u8]) -> &[u8]
    ensures link { result.now ≡ spec.link text.now }

    // A text without white space and `<` is returned unchanged.
    ensures kept { none_pass is_ascii_whitespace text.now ≡ true → lacks spec.less_than text.now ≡ true → result.now ≡ text.now }
{
    let text = trimmed(text);
    match in_brackets(text) {
        Some(inside) => trimmed(without_label(trimmed(inside))),
        None => text,
    }
}
