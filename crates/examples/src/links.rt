//! A link rewriter: the target of a link as people write it, the targets of a page's links, and
//! relative links in place of absolute ones.
ghost use Rattle.std.specs.Prelude.{◌≡◌, ◌++◌, ◌∷◌, [], IfOk, IfErr, IfSome, MatchResult, None, Ok, OnOk};
ghost use Rattle.uriparse.specs.PathError.TheVariants.{OutOfMemory};
ghost use Rattle.uriparse.specs.Readings.{IsUnless};
ghost use Rattle.uriparse.specs.Reference.{Parts};
ghost use Rattle.uriparse.specs.Target.{target};
ghost use Rattle.uriparse.specs.declared.uri.error.URIError.TheVariants as uris;
ghost use Rattle.examples.specs.Links.{AreLinks, AreTargets, Gains, GainsLink, IsRefusal, IsRefused, IsRejected, Reaches, Resolves};

use std::alloc::{AllocError, Global};
use uriparse::{PathError, URI, URIError, URIReference, escape_invalid, trim_link};

/// The target of a link as people write it, against the page's base: the link is trimmed, escaped,
/// read and resolved.
///
/// Fails with the fault of the text if the link is no reference even so, with the error of the length
/// if it has no target, or if memory runs out.
///
/// ```
/// let base = URI::try_from_str(alloc, "http://a/b/c")?;
/// let uri = read_link(alloc, &base, " <../d e?100%>\n".as_bytes())?;
/// assert_eq!(uri.to_string(alloc)?.as_str(), "http://a/d%20e?100%25");
/// ```
pub fn read_link(alloc: Global, base: &URI<'_>, link: &[u8]) -> Result<URI<'static>, URIError>
    // What is returned is where the link leads.
    ensures reached { IfOk result (λ u. Reaches base.now link.now u) }

    // A link that leads somewhere is followed, unless memory runs out.
    ensures only { (u : Parts) → Reaches base.now link.now u → IsUnless (uris.Path OutOfMemory) result (Ok u) }

    // Each error has its own reason.
    ensures refused { IfErr result (λ e. IsRejected base.now link.now e) }
{
    let text = escape_invalid(alloc, trim_link(link))?;
    let reference = URIReference::try_from_str(alloc, text.as_str())?;
    target_of(alloc, base, &reference)
}

/// The target of a link that was read, with texts of its own.
fn target_of(
    alloc: Global,
    base: &URI<'_>,
    link: &URIReference<'_>,
) -> Result<URI<'static>, URIError>
    ensures { Resolves (target base.now link.now) result }
{
    Ok(base.resolve(alloc, link)?.into_owned(alloc)?)
}

/// Where a link of a page leads, or `None` if it leads nowhere, so that a rewriter keeps it as it
/// stands. Fails only if memory runs out: then nothing is known of the link.
///
/// ```
/// let base = URI::try_from_str(alloc, "http://a/b/c")?;
/// assert!(find_target(alloc, &base, b"../d")?.is_some());
/// assert!(find_target(alloc, &base, b"http://a:port/")?.is_none());
/// ```
pub fn find_target(
    alloc: Global,
    base: &URI<'_>,
    link: &[u8],
) -> Result<Option<URI<'static>>, AllocError>
    ensures reached { IfOk result (λ found. IfSome found (Reaches base.now link.now)) }
    ensures kept { IfOk result (λ found. found ≡ None → (u : Parts) → Reaches base.now link.now u → ⊥) }
{
    match read_link(alloc, base, link) {
        Ok(uri) => Ok(Some(uri)),
        Err(error) if error.is_out_of_memory() => Err(AllocError),
        Err(_) => Ok(None),
    }
}

/// Where each link of a page leads, in order: its target against the page's base, RFC 3986, section
/// 5.2.2. The targets borrow the texts of the base and the links.
///
/// Fails with the index of the first link that has no target, since its path and the base's
/// together have too many segments. Each target allocates its path; if memory runs out, it is
/// the current link's.
///
/// ```
/// let base = URI::try_from_str(alloc, "http://a/b/c")?;
/// let mut links = Vec::new(alloc);
/// links.push(URIReference::try_from_str(alloc, "../d")?)?;
/// links.push(URIReference::try_from_str(alloc, "?q")?)?;
/// let targets = rewrite(alloc, &base, &links)?;
/// assert_eq!(targets[0].to_string(alloc)?.as_str(), "http://a/d");
/// assert_eq!(targets[1].to_string(alloc)?.as_str(), "http://a/b/c?q");
/// ```
pub fn rewrite<'l>(
    alloc: Global,
    base: &'l URI<'_>,
    links: &'l [URIReference<'_>],
) -> Result<Vec<URI<'l>>, (usize, URIError)>
    ensures targets { IfOk result (λ ts. AreTargets base.now links.now ts.items) }
    ensures refused { IfErr result (λ e. IsRefused base.now links.now e.0 e.1) }
{
    let mut targets = Vec::new(alloc);
    for (index, link) in links.iter().enumerate() {
        if let Err(error) = rewrite_one(alloc, base, link, &mut targets) {
            return Err((index, error));
        }
    }
    Ok(targets)
}

/// Appends the link's target to the others.
fn rewrite_one<'l>(
    alloc: Global,
    base: &'l URI<'_>,
    link: &'l URIReference<'_>,
    targets: &mut Vec<URI<'l>>,
) -> Result<(), URIError>
    ensures ok { OnOk result (Gains base.now link.now targets.old.items targets.new.items) }
    ensures err { IfErr result (λ e. IsRefusal base.now link.now e) }
{
    match base.resolve(alloc, link) {
        Ok(target) => {
            put_last(targets, target)?;
            Ok(())
        }
        Err(error) => Err(error),
    }
}

/// Appends the target to the others.
fn put_last<'l>(targets: &mut Vec<URI<'l>>, target: URI<'l>) -> Result<(), PathError>
    ensures { MatchResult result (λ _. targets.new.items ≡ targets.old.items ++ target.entry ∷ []) (λ e. e ≡ OutOfMemory) }
{
    targets.push(target)?;
    Ok(())
}

/// Relative links for the absolute ones of a page, in order: each resolves against the page's base
/// to what the absolute link resolves to, and leaves out what it has in common with the base, as
/// [`URI::relativize`] does. The links borrow the texts of the absolute ones.
///
/// Reserves capacity for the links once, and each link allocates its path. Fails only if memory
/// runs out.
///
/// ```
/// let base = URI::try_from_str(alloc, "http://a/b/c")?;
/// let mut uris = Vec::new(alloc);
/// uris.push(URI::try_from_str(alloc, "http://a/d?q")?)?;
/// uris.push(URI::try_from_str(alloc, "https://a/b/c")?)?;
/// let links = make_relative(alloc, &base, &uris)?;
/// assert_eq!(links[0].to_string(alloc)?.as_str(), "../d?q");
/// assert_eq!(links[1].to_string(alloc)?.as_str(), "https://a/b/c");
/// ```
pub fn make_relative<'l>(
    alloc: Global,
    base: &URI<'_>,
    uris: &'l [URI<'_>],
) -> Result<Vec<URIReference<'l>>, AllocError>
    ensures { IfOk result (λ links. AreLinks base.now uris.now links.items) }
{
    let mut links = Vec::with_capacity(alloc, uris.len())?;
    for uri in uris {
        push_link(alloc, base, uri, &mut links)?;
    }
    Ok(links)
}

/// Appends the link that leads from the base to the URI.
fn push_link<'l>(
    alloc: Global,
    base: &URI<'_>,
    uri: &'l URI<'_>,
    links: &mut Vec<URIReference<'l>>,
) -> Result<(), AllocError>
    ensures { OnOk result (GainsLink base.now uri.now links.old.items links.new.items) }
{
    let link = base.relativize(alloc, uri)?;
    links.push(link)?;
    Ok(())
}
