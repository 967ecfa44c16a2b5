//! `uri audit TEXT`: whether readers agree on a URI.

ghost use Rattle.std.specs.Prelude.{◌≡◌};
ghost use Rattle.uriparse.specs.Disagreement.{disagreement};
ghost use Rattle.uri_commands.specs.Output as spec;

use crate::failure::Failure;
use crate::print::print_bytes;
use crate::topic::Topic;
use std::io::Write;
use uriparse::{Disagreement, ReferenceView, URIView};

pub static ABOUT: Topic = (
    "audit",
    "\
Prints `agree` if readers agree on a URI, else why they may not.

Usage: uri audit TEXT
       uri --lines audit

Use it before a URI goes to a program of another kind: one program checks the
host, and another one connects. `agree` means that browsers and other readers
by the URL Standard have the same scheme, host, port, path, query and fragment,
and that there is no user information. Else the first of these is printed:

  scheme            not http, https, ws, wss or ftp
  no-host           no authority or an empty host, as in http:///example.com/
  later-address     an address in brackets that is neither IPv6 nor known
  escaped-name      a name of a host with an escape, which some decode
  numeric-name      a name that many take for an address: 0x7f.1, 2130706433
  encoded-name      a name with a label that begins with xn--
  escaped-dots      a dot segment with an escape: %2e%2e
  user-information  what precedes an @, which people take for the host

Where a host leads is another question: reject names and addresses of your own
network by your own list.

Exit status: 0 on success, 1 if TEXT is not a reference, 2 on a usage error.

Example:
    uri audit 'http://0x7f.1/'
prints
    numeric-name
",
);

/// Prints whether readers agree on the reference, or the first reason why they may not. Does not
/// allocate.
#[tactic(auto, using(crate::proofs::OutputLemmas::audited, crate::proofs::OutputLemmas::rejected_reference))]
pub fn audit<O: Write>(text: &[u8], out: &mut O) -> Result<(), Failure>
    ensures { spec.Does (spec.Audits text.now) (O.contents out.old) (O.contents out.new) result }
{
    let reference = ReferenceView::try_from_bytes(text)?;
    print_bytes(word(reason_of(reference)).as_bytes(), out)
}

/// The first reason why readers may disagree on the reference.
fn reason_of(reference: ReferenceView<'_>) -> Option<Disagreement>
    ensures { result ≡ disagreement reference.entry.parts }
{
    match URIView::try_from(reference) {
        Ok(uri) => uri.disagreement(),
        Err(_) => Some(Disagreement::Scheme),
    }
}

/// The word for a reason, or for none.
fn word(reason: Option<Disagreement>) -> &'static str
    ensures { result.now ≡ spec.reason_word reason }
{
    match reason {
        None => "agree",
        Some(Disagreement::Scheme) => "scheme",
        Some(Disagreement::NoHost) => "no-host",
        Some(Disagreement::LaterAddress) => "later-address",
        Some(Disagreement::EscapedName) => "escaped-name",
        Some(Disagreement::NumericName) => "numeric-name",
        Some(Disagreement::EncodedName) => "encoded-name",
        Some(Disagreement::EscapedDots) => "escaped-dots",
        Some(Disagreement::UserInformation) => "user-information",
    }
}
