//! A proxy: each request's URI is read, asked for its parts, changed and printed.

use crate::digest::Digest;
use crate::error::JobError;
use crate::make::{put_like, put_request};
use crate::random::Random;
use crate::texts::Texts;
use std::alloc::{AllocError, Global};
use uriparse::{Host, Scheme, Segment, URI};

/// Answers `count` requests.
pub fn requests(
    alloc: Global,
    count: u64,
    random: &mut Random,
    digest: &mut Digest,
) -> Result<(), JobError> {
    let models = request_models(alloc, random)?;
    let mut texts = Texts::new(alloc);
    for number in 0..count {
        texts.clear();
        put_like(&models, random, &mut texts)?;
        request(alloc, number, texts.whole(), digest)?;
    }
    Ok(())
}

/// Answers the request of this number for the URI.
fn request(alloc: Global, number: u64, uri: &[u8], digest: &mut Digest) -> Result<(), JobError> {
    let mut uri = URI::try_from_bytes(alloc, uri)?;
    digest.add(sum_of_parts(&uri));
    change(alloc, number, &mut uri)?;
    digest.add_bytes(uri.to_string(alloc)?.as_bytes());
    Ok(())
}

/// Requests of all kinds, for [`put_like`].
pub(crate) fn request_models(alloc: Global, random: &mut Random) -> Result<Texts, AllocError> {
    let mut models = Texts::new(alloc);
    for _ in 0..8_192 {
        put_request(random, &mut models)?;
        models.end()?;
    }
    Ok(models)
}

/// A number of the kind of the host.
fn sum_of_host(host: Option<&Host<'_>>) -> u64 {
    match host {
        Some(Host::RegisteredName(name)) => name.as_str().len() as u64,
        Some(Host::IPv4Address(address)) => u64::from(address.octets()[3]),
        Some(Host::IPv6Address(address)) => u64::from(address.segments()[7]),
        Some(Host::IPvFuture(_)) => 1,
        None => 0,
    }
}

/// Asks for scheme, host, port, segments and pairs, and returns a number of all of them.
fn sum_of_parts(uri: &URI<'_>) -> u64 {
    let mut sum = u64::from(uri.scheme().default_port().unwrap_or(0));
    sum = sum.wrapping_add(sum_of_host(uri.host()));
    sum = sum.wrapping_add(u64::from(uri.port().unwrap_or(0)) << 16);
    for segment in uri.path().segments() {
        sum = sum
            .wrapping_mul(31)
            .wrapping_add(segment.as_bytes().len() as u64);
    }
    if let Some(query) = uri.query() {
        for (name, value) in query.pairs() {
            sum = sum
                .wrapping_mul(31)
                .wrapping_add(name.as_bytes().len() as u64);
            sum = sum.wrapping_add(u64::from(value.is_some()));
        }
    }
    sum
}

/// Sets a pair of the query, if there is one.
fn set_token(alloc: Global, uri: &mut URI<'_>) -> Result<(), JobError> {
    let with = match uri.query() {
        Some(query) => Some(query.with_pair(alloc, b"token", Some(b"a b&c"))?),
        None => None,
    };
    uri.set_query(with)?;
    Ok(())
}

/// Drops the pairs of a name from the query, if there is one.
fn drop_session(alloc: Global, uri: &mut URI<'_>) -> Result<(), JobError> {
    let without = match uri.query() {
        Some(query) => query.without_name(alloc, b"session")?,
        None => None,
    };
    uri.set_query(without)?;
    Ok(())
}

/// Changes one part.
fn change<'u>(alloc: Global, number: u64, uri: &mut URI<'u>) -> Result<(), JobError> {
    match number % 5 {
        0 => set_token(alloc, uri)?,
        1 => uri.push_segment(alloc, Segment::encode(alloc, b"index of /")?)?,
        2 => drop_session(alloc, uri)?,
        3 => uri.set_scheme(Scheme::HTTPS)?,
        _ => uri.set_fragment(None)?,
    }
    Ok(())
}
