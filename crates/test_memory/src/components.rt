//! Components of many tokens that are normalized, printed and copied. Each answer is exact.

use crate::long::told;
use crate::texts::Test;
use std::alloc::Global;
use std::test::Fail;
use test_rows::answer::{Answer, repeated};
use test_rows::{Layer, wrong_rows};
use uriparse_authority::authority::{
    Authority, Host, IPvFuture, Password, RegisteredName, Username,
};
use uriparse_scheme::scheme::{Scheme, UnregisteredScheme};
use uriparse_text::fragment::Fragment;
use uriparse_text::internal::{Text, TextKind};
use uriparse_text::query::Query;
use uriparse_text::segment::Segment;

/// Whether the normal form of a text of this kind, what it prints and a copy are this text.
fn text_becomes<K: TextKind>(alloc: Global, value: &mut Text<'_, K>, normal: &str) -> Test {
    value.normalize(alloc)?;
    let printed = value.to_string(alloc)?;
    let copy = value.as_borrowed().into_owned(alloc)?;
    Ok(value.as_str() == normal && printed.as_str() == normal && copy.as_str() == normal)
}

/// Whether the normal form of a registered name, what it prints and a copy are this text.
fn name_becomes(alloc: Global, value: &mut RegisteredName<'_>, normal: &str) -> Test {
    value.normalize(alloc)?;
    let printed = value.to_string(alloc)?;
    let copy = value.as_borrowed().into_owned(alloc)?;
    Ok(value.as_str() == normal && printed.as_str() == normal && copy.as_str() == normal)
}

/// Whether the normal form of a scheme, what it prints and a copy are this text.
fn scheme_becomes(alloc: Global, value: &mut Scheme<'_>, normal: &str) -> Test {
    value.normalize(alloc)?;
    let printed = value.to_string(alloc)?;
    let copy = value.as_borrowed().into_owned(alloc)?;
    Ok(value.as_str() == normal && printed.as_str() == normal && copy.as_str() == normal)
}

/// Whether the normal form of an unregistered scheme, what it prints and a copy are this text.
fn unregistered_becomes(alloc: Global, value: &mut UnregisteredScheme<'_>, normal: &str) -> Test {
    value.normalize(alloc)?;
    let printed = value.to_string(alloc)?;
    let copy = value.as_borrowed().into_owned(alloc)?;
    Ok(value.as_str() == normal && printed.as_str() == normal && copy.as_str() == normal)
}

/// Whether the normal form of an address of a later version, what it prints and a copy are this
/// text.
fn future_becomes(alloc: Global, value: &mut IPvFuture<'_>, normal: &str) -> Test {
    value.normalize(alloc)?;
    let printed = value.to_string(alloc)?;
    let copy = value.as_borrowed().into_owned(alloc)?;
    Ok(value.as_str() == normal && printed.as_str() == normal && copy.as_str() == normal)
}

/// Whether a host prints this text.
fn host_prints(alloc: Global, value: &Host<'_>, text: &str) -> Test {
    let printed = value.to_string(alloc)?;
    Ok(printed.as_str() == text)
}

/// Whether the normal form of a host and a copy print this text.
fn host_becomes(alloc: Global, value: &mut Host<'_>, normal: &str) -> Test {
    value.normalize(alloc)?;
    if !host_prints(alloc, value, normal)? {
        return Ok(false);
    }
    let copy = value.as_borrowed().into_owned(alloc)?;
    host_prints(alloc, &copy, normal)
}

/// Whether an authority prints this text.
fn authority_prints(alloc: Global, value: &Authority<'_>, text: &str) -> Test {
    let printed = value.to_string(alloc)?;
    Ok(printed.as_str() == text)
}

/// Whether the normal form of an authority and a copy print this text.
fn authority_becomes(alloc: Global, value: &mut Authority<'_>, normal: &str) -> Test {
    value.normalize(alloc)?;
    if !authority_prints(alloc, value, normal)? {
        return Ok(false);
    }
    let copy = value.as_borrowed().into_owned(alloc)?;
    authority_prints(alloc, &copy, normal)
}

fn query(alloc: Global, text: &str, normal: &str) -> Test {
    match Query::try_from_str(text) {
        Ok(mut value) => text_becomes(alloc, &mut value, normal),
        Err(_) => Ok(false),
    }
}

fn fragment(alloc: Global, text: &str, normal: &str) -> Test {
    match Fragment::try_from_str(text) {
        Ok(mut value) => text_becomes(alloc, &mut value, normal),
        Err(_) => Ok(false),
    }
}

fn username(alloc: Global, text: &str, normal: &str) -> Test {
    match Username::try_from_str(text) {
        Ok(mut value) => text_becomes(alloc, &mut value, normal),
        Err(_) => Ok(false),
    }
}

fn password(alloc: Global, text: &str, normal: &str) -> Test {
    match Password::try_from_str(text) {
        Ok(mut value) => text_becomes(alloc, &mut value, normal),
        Err(_) => Ok(false),
    }
}

fn segment(alloc: Global, text: &str, normal: &str) -> Test {
    match Segment::try_from_str(text) {
        Ok(mut value) => text_becomes(alloc, &mut value, normal),
        Err(_) => Ok(false),
    }
}

fn name(alloc: Global, text: &str, normal: &str) -> Test {
    match RegisteredName::try_from_str(text) {
        Ok(mut value) => name_becomes(alloc, &mut value, normal),
        Err(_) => Ok(false),
    }
}

fn scheme(alloc: Global, text: &str, normal: &str) -> Test {
    match Scheme::try_from_str(text) {
        Ok(mut value) => scheme_becomes(alloc, &mut value, normal),
        Err(_) => Ok(false),
    }
}

fn unregistered(alloc: Global, text: &str, normal: &str) -> Test {
    match UnregisteredScheme::try_from_str(text) {
        Ok(mut value) => unregistered_becomes(alloc, &mut value, normal),
        Err(_) => Ok(false),
    }
}

fn future(alloc: Global, text: &str, normal: &str) -> Test {
    match IPvFuture::try_from_str(text) {
        Ok(mut value) => future_becomes(alloc, &mut value, normal),
        Err(_) => Ok(false),
    }
}

fn host(alloc: Global, text: &str, normal: &str) -> Test {
    match Host::try_from_str(text) {
        Ok(mut value) => host_becomes(alloc, &mut value, normal),
        Err(_) => Ok(false),
    }
}

fn authority(alloc: Global, text: &str, normal: &str) -> Test {
    match Authority::try_from_str(text) {
        Ok(mut value) => authority_becomes(alloc, &mut value, normal),
        Err(_) => Ok(false),
    }
}

/// What has many tokens.
#[derive(Clone, Copy)]
enum Component {
    Query,
    Fragment,
    Username,
    Password,
    Segment,
    Name,
    NamedHost,
    Scheme,
    Unregistered,
    Future,
    FutureHost,
    Authority,
}

/// A component's text, of which the token stands in its middle.
fn text_of(alloc: Global, component: Component, tokens: &str) -> Answer {
    match component {
        Component::Future => format!(in alloc; "v1.{tokens}"),
        Component::FutureHost => format!(in alloc; "[v1.{tokens}]"),
        Component::Authority => format!(in alloc; "{tokens}:{tokens}@{tokens}:8"),
        _ => format!(in alloc; "{tokens}"),
    }
}

/// The token of a component, and its canonical spelling.
fn tokens_of(component: Component) -> (&'static str, &'static str) {
    match component {
        Component::Scheme | Component::Unregistered | Component::Future | Component::FutureHost => (
            "A", "a",
        ),
        _ => ("%7e", "~"),
    }
}

/// Whether the component of this text has the other one as its normal form.
fn becomes(alloc: Global, component: Component, text: &str, normal: &str) -> Test {
    match component {
        Component::Query => query(alloc, text, normal),
        Component::Fragment => fragment(alloc, text, normal),
        Component::Username => username(alloc, text, normal),
        Component::Password => password(alloc, text, normal),
        Component::Segment => segment(alloc, text, normal),
        Component::Name => name(alloc, text, normal),
        Component::Scheme => scheme(alloc, text, normal),
        Component::Unregistered => unregistered(alloc, text, normal),
        Component::Future => future(alloc, text, normal),
        Component::NamedHost | Component::FutureHost => host(alloc, text, normal),
        Component::Authority => authority(alloc, text, normal),
    }
}

/// The text of a component with the token this many times.
fn long_text(alloc: Global, component: Component, count: usize, token: &str) -> Answer {
    let tokens = repeated(alloc, count, token)?;
    text_of(alloc, component, tokens.as_str())
}

/// Whether the component of this many tokens has the normal form that it is to have.
fn is_right(alloc: Global, component: Component, count: usize) -> Test {
    let (token, canonical) = tokens_of(component);
    let text = long_text(alloc, component, count, token)?;
    let normal = long_text(alloc, component, count, canonical)?;
    becomes(alloc, component, text.as_str(), normal.as_str())
}

impl Layer for Component {
    fn rows(&self) -> (&'static str, &'static str) {
        ("components", ROWS)
    }

    fn answer(&self, alloc: Global, asked: &str) -> Answer {
        told(alloc, is_right(alloc, *self, asked.parse().unwrap_or(0))?)
    }
}

static COMPONENTS: [Component; 12] = [
    Component::Query,
    Component::Fragment,
    Component::Username,
    Component::Password,
    Component::Segment,
    Component::Name,
    Component::NamedHost,
    Component::Scheme,
    Component::Unregistered,
    Component::Future,
    Component::FutureHost,
    Component::Authority,
];

#[test]
fn long_components_are_answered(rt: HostRuntime) -> Result<(), Fail> {
    let wrong = wrong_rows(rt.alloc(), &COMPONENTS)?;
    assert!(rt; wrong.is_empty(), "{wrong}");
    Ok(())
}

/// How many tokens.
pub const ROWS: &str = "\
1 -> right
2 -> right
4 -> right
8 -> right
16 -> right
32 -> right
64 -> right
128 -> right
256 -> right
512 -> right
1024 -> right
2048 -> right
4096 -> right
8192 -> right
16384 -> right
32768 -> right
1048576 -> right";
