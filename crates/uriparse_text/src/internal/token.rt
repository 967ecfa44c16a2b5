//! Tokens, single bytes and escapes, the digits of escapes, and the canonical form of one token: RFC
//! 3986, sections 2.1, 6.2.2.1 and 6.2.2.2.
ghost use Rattle.std.specs.Char.{digit_value};
ghost use Rattle.std.specs.Prelude.{◌≡◌, ◌≤◌, ◌++◌, ◌∷◌, [], true, drop, length, MatchOption, IfSome, ◌<◌, ◌&&◌, if◌then◌else◌, ◌↔◌, IsTrue};
ghost use Rattle.uriparse_text.specs.Alike.{upper_digit_of};
ghost use Rattle.uriparse_text.specs.Bytes.{is_hex};
ghost use Rattle.uriparse_text.specs.Canonical as canonical;
ghost use Rattle.uriparse_text.specs.Tokens as spec;
ghost use Rattle.uriparse_text.specs.Tokens.{has_digits};

use super::canonical_escape::is_canonical_escape;
use super::class::is_unreserved;

/// A single byte, or an escape by its two digits.
#[derive(Clone, Copy)]
pub enum Token {
    Byte(u8),
    Escape(u8, u8),
}

/// Whether `b` and the bytes `after` it begin with an escape.
#[inline(always)]
pub fn is_escape(b: u8, after: &[u8]) -> bool
    ensures { result ≡ spec.is_escape b after.now }
{
    if b != b'%' {
        return false;
    }
    match after {
        [high, low, ..] => are_hex_digits(*high, *low),
        _ => false,
    }
}

/// The token that begins with `b`, and how many of the bytes after it the token has.
#[inline(always)]
pub(super) fn first_token(b: u8, after: &[u8]) -> (Token, usize)
    ensures cut { spec.tokens (b ∷ after.now) ≡ result.0 ∷ spec.tokens (drop result.1 after.now) }
    ensures digits { spec.has_digits result.0 ≡ true }
    ensures within { result.1 ≤ length after.now }
{
    if is_escape(b, after) {
        (Token::Escape(after[0], after[1]), 2)
    } else {
        (Token::Byte(b), 0)
    }
}

/// The first token and what follows it. A `%` without two hexadecimal digits after it is a byte by
/// itself.
#[inline]
pub fn split_token(text: &[u8]) -> Option<(Token, &[u8])>
    ensures cut { MatchOption result (text.now ≡ []) (λ x. spec.tokens text.now ≡ x.0 ∷ spec.tokens x.1.now) }
    ensures spelled { MatchOption result (text.now ≡ []) (λ x. text.now ≡ spec.spell x.0 ++ x.1.now) }
    ensures digits { IfSome result (λ x. spec.has_digits x.0 ≡ true) }
{
    let (&b, after) = text.split_first()?;
    if is_escape(b, after) {
        Some((Token::Escape(after[0], after[1]), &after[2..]))
    } else {
        Some((Token::Byte(b), after))
    }
}

// What a byte that is no hexadecimal digit has in the table of values: more than two digits' values
// add up to.
const X: u8 = 31;

#[rattlefmt::skip]
static VALUES: [u8; 256] = [
    X, X, X, X, X, X, X, X, X, X, X, X, X, X, X, X,
    X, X, X, X, X, X, X, X, X, X, X, X, X, X, X, X,
    X, X, X, X, X, X, X, X, X, X, X, X, X, X, X, X,
    0, 1, 2, 3, 4, 5, 6, 7, 8, 9, X, X, X, X, X, X,
    X, 10, 11, 12, 13, 14, 15, X, X, X, X, X, X, X, X, X,
    X, X, X, X, X, X, X, X, X, X, X, X, X, X, X, X,
    X, 10, 11, 12, 13, 14, 15, X, X, X, X, X, X, X, X, X,
    X, X, X, X, X, X, X, X, X, X, X, X, X, X, X, X,
    X, X, X, X, X, X, X, X, X, X, X, X, X, X, X, X,
    X, X, X, X, X, X, X, X, X, X, X, X, X, X, X, X,
    X, X, X, X, X, X, X, X, X, X, X, X, X, X, X, X,
    X, X, X, X, X, X, X, X, X, X, X, X, X, X, X, X,
    X, X, X, X, X, X, X, X, X, X, X, X, X, X, X, X,
    X, X, X, X, X, X, X, X, X, X, X, X, X, X, X, X,
    X, X, X, X, X, X, X, X, X, X, X, X, X, X, X, X,
    X, X, X, X, X, X, X, X, X, X, X, X, X, X, X, X,
];

/// The value of a hexadecimal digit of either case, or 31 for any other byte, from a table: no call
/// and no branch.
#[inline(always)]
fn value_in_table(b: u8) -> u8
    ensures value { result ≡ (if is_hex b then digit_value b else 31) }
    ensures small { is_hex b ≡ true → result < 16 }
{
    VALUES[b as usize]
}

/// Whether both bytes are hexadecimal digits, by one test of both: a byte that is none has more in
/// the table than two digits.
#[inline(always)]
pub(super) fn are_hex_digits(high: u8, low: u8) -> bool
    ensures { result ≡ (is_hex high && is_hex low) }
{
    value_in_table(high) + value_in_table(low) < X
}

/// The byte that an escape with these digits represents.
#[inline(always)]
pub fn octet_of(high: u8, low: u8) -> u8
    requires high { is_hex high ≡ true }
    requires low { is_hex low ≡ true }
    ensures { result ≡ canonical.escaped_byte high low }
{
    16 * value_in_table(high) + value_in_table(low)
}

static UPPER_DIGITS: [u8; 16] = *b"0123456789ABCDEF";

/// The upper-case hexadecimal digit of a value.
#[inline(always)]
pub(super) fn upper_digit(n: u8) -> u8
    requires { n < 16 }
    ensures { result ≡ upper_digit_of n }
{
    UPPER_DIGITS[n as usize]
}

/// What a canonical spelling does to letters. The digits of escapes are always in upper case.
#[derive(Clone, Copy)]
pub enum Case {
    /// They keep their case.
    Kept,
    /// They become lower case, as in schemes and in hosts that are texts.
    Lowered,
}

impl Case {
    #[inline]
    pub(super) fn of(self, b: u8) -> u8
        ensures { result ≡ canonical.in_case self b }
    {
        match self {
            Case::Kept => b,
            Case::Lowered => b.to_ascii_lowercase(),
        }
    }
}

impl Token {
    /// The token's canonical form.
    #[inline]
    pub fn canonical(self, case: Case) -> Token
        requires { has_digits self ≡ true }
        ensures { result ≡ canonical.canonical_token case self }
    {
        match self {
            Token::Byte(b) => Token::Byte(case.of(b)),
            Token::Escape(high, low) => {
                let b = octet_of(high, low);
                if is_unreserved(b) {
                    Token::Byte(case.of(b))
                } else {
                    Token::Escape(high.to_ascii_uppercase(), low.to_ascii_uppercase())
                }
            }
        }
    }

    /// Whether the token is its own canonical form.
    #[inline]
    pub(super) fn is_canonical(self, case: Case) -> bool
        requires { has_digits self ≡ true }
        ensures { IsTrue result ↔ (canonical.canonical_token case self ≡ self) }
    {
        match self {
            Token::Byte(b) => case.of(b) == b,
            Token::Escape(high, low) => is_canonical_escape(high, low),
        }
    }
}
