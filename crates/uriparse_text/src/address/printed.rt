//! The texts of numbers and of addresses, put together from their end: RFC 3986, sections 3.2.2 and
//! 3.2.3.
ghost use Rattle.std.specs.Prelude.{◌≡◌, ◌+◌, ◌++◌, ◌<◌, ◌≤◌, codes, length, decimal, flat_map};
ghost use Rattle.std.specs.Char.{digit_char};
ghost use Rattle.std.specs.Net.Text as net_text;
ghost use Rattle.uriparse_text.specs.Address.{ipv4_text, ipv6_text};
ghost use Rattle.uriparse_text.specs.Ends.{Puts};

use super::{Ipv4Addr, Ipv6Addr};
use crate::internal::prepend;
use std::net;

/// Puts a number in decimal digits.
pub fn prepend_decimal(number: u16, out: &mut [u8], len: usize) -> usize
    ensures room { length out.new ≡ length out.old }
    ensures puts { Puts (decimal number) out.old len out.new result }
{
    let mut left = number;
    let mut total = len;
    'digits: while left >= 10 {
        total = prepend(&[b'0' + (left % 10) as u8], out, total);
        left /= 10;
    }
    prepend(&[b'0' + left as u8], out, total)
}

/// Puts four numbers, with dots between them.
fn prepend_dotted(a: u8, b: u8, c: u8, d: u8, out: &mut [u8], len: usize) -> usize
    ensures room { length out.new ≡ length out.old }
    ensures puts { Puts (net_text.dotted_text a b c d) out.old len out.new result }
{
    let len = prepend_decimal(u16::from(d), out, len);
    let len = prepend(b".", out, len);
    let len = prepend_decimal(u16::from(c), out, len);
    let len = prepend(b".", out, len);
    let len = prepend_decimal(u16::from(b), out, len);
    let len = prepend(b".", out, len);
    prepend_decimal(u16::from(a), out, len)
}

/// Puts the text of an IPv4 address.
pub fn prepend_ipv4(address: Ipv4Addr, out: &mut [u8], len: usize) -> usize
    ensures room { length out.new ≡ length out.old }
    ensures puts { Puts (ipv4_text address) out.old len out.new result }
{
    let [a, b, c, d] = address.octets();
    prepend_dotted(a, b, c, d, out, len)
}

/// The hexadecimal digit of a number, in lower case.
fn hex_digit(number: u16) -> u8
    requires { number < 16 }
    ensures { result ≡ digit_char number }
{
    if number < 10 {
        b'0' + number as u8
    } else {
        b'a' + (number - 10) as u8
    }
}

/// How many of a segment's four hexadecimal digits are leading zeros, apart from the last digit.
fn leading_zeros(segment: u16) -> usize
    ensures value { result ≡ net_text.leading_zero_digits segment }
    ensures within { result < 4 }
{
    match segment {
        0x1000.. => 0,
        0x100.. => 1,
        0x10.. => 2,
        _ => 3,
    }
}

/// Puts a segment of an IPv6 address.
fn prepend_hex(segment: u16, out: &mut [u8], len: usize) -> usize
    ensures room { length out.new ≡ length out.old }
    ensures puts { Puts (net_text.hex segment) out.old len out.new result }
{
    let digits = [
        hex_digit(segment / 0x1000),
        hex_digit(segment / 0x100 % 16),
        hex_digit(segment / 0x10 % 16),
        hex_digit(segment % 16),
    ];
    prepend(&digits[leading_zeros(segment)..], out, len)
}

/// Puts a colon and a segment, for each of them.
fn prepend_after_colons(segments: &[u16], out: &mut [u8], len: usize) -> usize
    ensures room { length out.new ≡ length out.old }
    ensures puts { Puts (flat_map (λ s. codes ":" ++ net_text.hex s) segments.now) out.old len out.new result }
{
    let mut total = len;
    for i in (0..segments.len()).rev() {
        total = prepend_hex(segments[i], out, total);
        total = prepend(b":", out, total);
    }
    total
}

/// Puts segments, with colons between them.
fn prepend_groups(segments: &[u16], out: &mut [u8], len: usize) -> usize
    ensures room { length out.new ≡ length out.old }
    ensures puts { Puts (net_text.groups_text segments.now) out.old len out.new result }
{
    match segments {
        [first, rest @ ..] => {
            let len = prepend_after_colons(rest, out, len);
            prepend_hex(*first, out, len)
        }
        [] => len,
    }
}

/// The start and the length of the longest run of zeros, the first one of that length.
fn longest_zero_run(segments: &[u16]) -> (usize, usize)
    ensures value { result ≡ net_text.longest_zero_run segments.now }
    ensures within { result.0 + result.1 ≤ length segments.now }
{
    let mut start = segments.len();
    let mut len = 0;
    let mut run = 0;
    for i in (0..segments.len()).rev() {
        run = if segments[i] == 0 { run + 1 } else { 0 };
        if run >= len {
            start = i;
            len = run;
        }
    }
    (start, len)
}

/// Puts segments, with `::` in place of the longest run of at least two zeros.
fn prepend_shortened(segments: &[u16], out: &mut [u8], len: usize) -> usize
    ensures room { length out.new ≡ length out.old }
    ensures puts { Puts (net_text.hex_groups_text segments.now) out.old len out.new result }
{
    let (start, zeros) = longest_zero_run(segments);
    if zeros > 1 {
        let len = prepend_groups(&segments[start + zeros..], out, len);
        let len = prepend(b"::", out, len);
        prepend_groups(&segments[..start], out, len)
    } else {
        prepend_groups(segments, out, len)
    }
}

/// Puts the text of an IPv6 address, without brackets.
pub fn prepend_ipv6(address: Ipv6Addr, out: &mut [u8], len: usize) -> usize
    ensures room { length out.new ≡ length out.old }
    ensures puts { Puts (ipv6_text address) out.old len out.new result }
{
    let segments = address.segments();
    match net::Ipv6Addr::from_segments(segments).to_ipv4_mapped() {
        Some(mapped) => {
            let [a, b, c, d] = mapped.octets();
            let len = prepend_dotted(a, b, c, d, out, len);
            prepend(b"::ffff:", out, len)
        }
        None => prepend_shortened(&segments, out, len),
    }
}
