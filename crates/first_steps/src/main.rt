//! The first steps with `uriparse`: read a page and a link, and print where the link leads.
#![tactic(auto)]

mod promises;
mod words;

use std::alloc::Global;
use std::io;
use std::io::Write;
use uriparse::{URI, URIError, URIReference};

fn main(rt: HostRuntime) -> io::Result<()> {
    let alloc = rt.alloc();
    let out = &mut rt.stdout();
    print(alloc, "http://example.com/a/b?q", "../c#top", out)?;
    print(alloc, "http://example.com/%7Ea", "/~a", out)?;
    print(alloc, "example.com/a", "b", out)
}

/// Prints where a page's link leads, or why one of the texts is rejected.
fn print<O: Write>(alloc: Global, page: &str, link: &str, out: &mut O) -> io::Result<()> {
    match follow(alloc, page, link) {
        Ok(target) => writeln!(out, "{target}"),
        Err(error) => writeln!(out, "{page}, {link}: {error}"),
    }
}

fn follow(alloc: Global, page: &str, link: &str) -> Result<String, URIError> {
    let page = URI::try_from_str(alloc, page)?;
    target(alloc, &page, link)
}

fn target(alloc: Global, page: &URI<'_>, link: &str) -> Result<String, URIError> {
    let link = URIReference::try_from_str(alloc, link)?;
    Ok(page.resolve(alloc, &link)?.to_string(alloc)?)
}
