//! Laws of the definitions that contracts cite. Each function does nothing: its contract is the
//! law. Call it where a proof needs the law.
ghost use Rattle.std.specs.Prelude.{◌≡◌, ◌↔◌, ◌⊎◌, ◌∷◌, ◌++◌, ◌<◌, [], ℕ, List, Option, Err, Ok, Some, None, codes, false, is_some, length, true};
ghost use Rattle.std.specs.List.{list_any};
ghost use Rattle.uriparse_text.specs.Ambiguous.{is_ambiguous};
ghost use Rattle.uriparse_text.specs.Bytes.{slash};
ghost use Rattle.uriparse_text.specs.Coding.{are_bytes};
ghost use Rattle.std.specs.Option.{option_and_then, option_map};
ghost use Rattle.uriparse_reference.specs.Builder.{held};
ghost use Rattle.uriparse_reference.specs.Change.{Strings, after_authority, authority_whole, changed, changed_strings, changing, strings};
ghost use Rattle.uriparse_reference.specs.Cuts.{authority_text, fragment_text, path_text, query_text, scheme_text};
ghost use Rattle.uriparse_reference.specs.View.{Viewed};
ghost use Rattle.uriparse_reference.specs.Wanted.{Wanted, unchanged};
ghost use Rattle.uriparse_reference.specs.Edits.{edited, of_parts};
ghost use Rattle.uriparse_reference.specs.declared.uri_reference.edit.Edit.TheVariants as edits;
ghost use Rattle.uriparse_reference.specs.Beside.{with_host, with_password, with_port, with_username};
ghost use Rattle.uriparse_reference.specs.TextEdits.{with_fragment, with_query};
ghost use Rattle.uriparse_reference.specs.Ports.{without_default_port};
ghost use Rattle.uriparse_reference.specs.Normal.{normal};
ghost use Rattle.uriparse_reference.specs.Reference.{Parts, Same, Spells, Valid, host_of, print};
ghost use Rattle.uriparse.specs.Apart.{AreApart, Replaces, WantsOwn, changed_text, changed_twice};
ghost use Rattle.uriparse.specs.File.{file_uri, path_named, path_of_uri, uri_of_path};
ghost use Rattle.uriparse.specs.declared.file.error.FileError.TheVariants as errors;
ghost use Rattle.uriparse.specs.Kinds.{IsOfKind, with_mapped_error};
ghost use Rattle.uriparse.specs.Origin.{are_alike, fed, have_same_origin, origin, printed_origin, share_origin, text};
ghost use Rattle.uriparse.specs.declared.uri.origin.Origin.{Origin};
ghost use Rattle.uriparse_authority.specs.Authority as authority;
ghost use Rattle.uriparse_authority.specs.Authority.{AuthorityParts, password_after, with_empty};
ghost use Rattle.uriparse_authority.specs.Host as host;
ghost use Rattle.uriparse_authority.specs.Normal.{canonical_host};
ghost use Rattle.uriparse_authority.specs.declared.authority.host.Host.{Host};
ghost use Rattle.uriparse_scheme.specs.Scheme as scheme;
ghost use Rattle.uriparse.specs.RelativeReference as relative;
ghost use Rattle.std.specs.declared.cmp.Ordering.TheVariants.{Equal, Less};
ghost use Rattle.uriparse.specs.SortKey.{AreKeyBytes, compared_keys, exact, key_order, in_form, page, shown_key, sort_key};
ghost use Rattle.uriparse.specs.declared.sort_key.KeyForm.{KeyForm};
ghost use Rattle.uriparse.specs.PlaceKey.{BeginsWith, IsBetween, IsClearBelow, IsSamePage, base_prefix, domain_prefix, place_key, shown_base, shown_begins, shown_domain, shown_place, successor};
ghost use Rattle.uriparse_authority.specs.Within as domains;
ghost use Rattle.uriparse_reference.specs.Order.{reference_cmp};
ghost use Rattle.uriparse.specs.Uri as uri;
ghost use Rattle.uriparse.specs.Within.{IsWithin, is_within, shown_within, target_within};
ghost use Rattle.uriparse_path.specs.Dots.{all_but_last, is_double_dot};
ghost use Rattle.uriparse_path.specs.Normal.{pnormal};
ghost use Rattle.uriparse_path.specs.Path as path;
ghost use Rattle.uriparse_path.specs.Relative.{is_last};
ghost use Rattle.uriparse_path.specs.Within.{between_slashes, has_ambiguous, removes_unclear};
ghost use Rattle.uriparse_reference.specs.Target.{is_empty, is_merged, target};

mod readers;

pub use readers::{
    examples_of_disagreements, examples_of_leading, examples_of_web_readings, readers_agree,
};
pub use uriparse_authority::laws::within_domains;
pub use uriparse_path::laws::{fewest_double_dots, one_check_of_segments};
pub use uriparse_reference::laws::{
    equal_in_equal_out, faults_of_reading, normalising_commutes, one_build, one_cut,
    one_default_port, one_edit, one_escaping, one_key, one_merge, one_normal_form,
    one_offset_of_fault, one_reading, one_relative, one_run, one_target, order_of_references,
    reading_back, reading_what_is_written,
};
pub use uriparse_text::laws::{
    exact_address_readings, no_pair_of_a_name, no_pair_of_several_names, one_address,
    one_canonical_spelling, one_encoding, one_link, one_list_of_pairs, one_order_of_pairs,
    one_pair_found, one_pair_of_a_name,
};

/// The components of a URI build it again, passed to `from_parts` or held by a builder.
pub fn one_uri()
    ensures parts { (p : Parts) → Valid p → IsOfKind true p → with_mapped_error uri.map_error (of_parts p) ≡ Ok p }
    ensures built { (p : Parts) → Valid p → IsOfKind true p → uri.uri_built (held p) ≡ Ok p }
{}

/// The components of a relative reference build it again, passed to `from_parts` or held by a
/// builder.
pub fn one_relative_reference()
    ensures parts { (p : Parts) → Valid p → IsOfKind false p → with_mapped_error relative.map_error (of_parts p) ≡ Ok p }
    ensures built { (p : Parts) → Valid p → IsOfKind false p → relative.relative_built (held p) ≡ Ok p }
{}

/// Sort keys are equal exactly if the references are, and bytes order keys as references are ordered.
/// A key has bytes from 0x01 to 0x7E alone, and no reference has the text of one. What a key of a
/// form is of is valid, so that all of this holds for keys of one form.
pub fn one_sort_key()
    ensures order { (p q : Parts) → Valid p → Valid q → key_order (sort_key p) (sort_key q) ≡ reference_cmp p q }
    ensures same { (p q : Parts) → Valid p → Valid q → (sort_key p ≡ sort_key q) ↔ Same p q }
    ensures bytes { (p : Parts) → Valid p → AreKeyBytes (sort_key p) }
    ensures apart { (p q : Parts) → Spells (sort_key p) q → ⊥ }
    ensures valid { (f : KeyForm) (p : Parts) → Valid p → Valid (in_form f p) }
{}

/// The place key of a URI begins with the prefix of a domain exactly if its host is within the domain. A
/// URI is below a base exactly if its place key begins with the prefix of the base, no segment after the
/// base's directory is ambiguous, and no `..` in its path removes a segment on which readers disagree.
/// What begins with a prefix is what isn't less than it, and less than its successor; of keys, also less
/// than the prefix with the byte 0x7F after it. Place keys are equal exactly if the URIs have the same
/// normal form, with the ports that they use. Keys and prefixes have bytes from 0x01 to 0x7E alone.
pub fn one_place_key()
    ensures domain { (p : Parts) (d : Host) → Valid p → host.Valid d → BeginsWith (place_key p) (domain_prefix d) ↔ ((h : Host) × (host_of p ≡ Some h) × domains.IsWithin h d) }
    ensures base { (p b : Parts) → Valid p → Valid b → IsWithin p b ↔ (BeginsWith (place_key p) (base_prefix b) × IsClearBelow p b) }
    ensures between { (t u : List ℕ) → 0 < length u → BeginsWith t u ↔ IsBetween t u (successor u) }
    ensures between_keys { (t u : List ℕ) → AreKeyBytes t → BeginsWith t u ↔ IsBetween t u (u ++ 127 ∷ []) }
    ensures same { (p q : Parts) → Valid p → Valid q → (place_key p ≡ place_key q) ↔ IsSamePage p q }
    ensures bytes { (p : Parts) → Valid p → AreKeyBytes (place_key p) }
    ensures domain_bytes { (d : Host) → host.Valid d → AreKeyBytes (domain_prefix d) }
    ensures base_bytes { (b : Parts) → Valid b → AreKeyBytes (base_prefix b) }
{}

/// A URI has the origin that it has without its scheme's default port. Two URIs have the same origin
/// if both have one, and these are alike: in the canonical spelling of their schemes, in the kind and
/// the canonical spelling of their hosts, and in their ports. A hasher is fed the same for both then, and
/// they have one string. Origins with one string are alike, unless one has as a name what the other has as
/// an IPv4 address. A URI with an empty host has no origin.
pub fn one_origin()
    ensures port { (p : Parts) → origin (without_default_port p) ≡ origin p }
    ensures hostless { (p : Parts) (h : Host) → host_of p ≡ Some h → host.is_empty h ≡ true → origin p ≡ None }
    ensures none { (p q : Parts) → origin p ≡ None → (have_same_origin p q ≡ false) × (have_same_origin q p ≡ false) }
    ensures same { (p q : Parts) (a b : Origin) → origin p ≡ Some a → origin q ≡ Some b → have_same_origin p q ≡ are_alike a b }
    ensures parts { (a b : Origin) → (are_alike a b ≡ true) ↔ ((scheme.canonical_text a.scheme ≡ scheme.canonical_text b.scheme) × (host.key a.host ≡ host.key b.host) × (a.port ≡ b.port)) }
    ensures hash { (a b : Origin) → are_alike a b ≡ true → fed a ≡ fed b }
    ensures text { (p q : Parts) (a b : Origin) → Valid p → Valid q → origin p ≡ Some a → origin q ≡ Some b → are_alike a b ≡ true → text a ≡ text b }
    ensures back { (p q : Parts) (a b : Origin) → Valid p → Valid q → origin p ≡ Some a → origin q ≡ Some b → text a ≡ text b → (are_alike a b ≡ true) ⊎ host.OneHidesAddress (canonical_host a.host) (canonical_host b.host) }
{}

/// Being below a URI: each URI is below itself, if the last segment of its path's normal form is not
/// ambiguous and no `..` in its path removes a segment on which readers disagree, and below what a URI
/// that it is below is below. Two URIs of which each is below the other have the same directory. The
/// normal form of a URI is below what the URI is below; the URI is below what its normal form is
/// below, if no `..` removes such a segment. The same URIs are below a URI and its normal form. Equal
/// URIs are below the same URIs, and the same URIs are below them. The test computes it. A URI below one
/// that has an origin has the same origin.
pub fn within_uris()
    ensures itself { (p : Parts) (front : List (List ℕ)) (last : List ℕ) → between_slashes (pnormal p.path false) ≡ front ++ last ∷ [] → is_ambiguous last ≡ false → removes_unclear p.path ≡ false → IsWithin p p }
    ensures again { (p q r : Parts) → IsWithin p q → IsWithin q r → IsWithin p r }
    ensures directories { (p b : Parts) → IsWithin p b → IsWithin b p → all_but_last (between_slashes (pnormal p.path false)) ≡ all_but_last (between_slashes (pnormal b.path false)) }
    ensures normal { (p b : Parts) → Valid p → IsOfKind true p → IsWithin p b → IsWithin (normal p) b }
    ensures normal_back { (p b : Parts) → Valid p → IsOfKind true p → removes_unclear p.path ≡ false → IsWithin (normal p) b → IsWithin p b }
    ensures normal_base { (p b : Parts) → Valid b → IsOfKind true b → IsWithin p b ↔ IsWithin p (normal b) }
    ensures target { (b r t : Parts) → Valid b → Valid r → is_merged r ≡ true → is_last is_double_dot b.path.segments ≡ false → 1 < length (between_slashes (pnormal b.path false)) → list_any is_double_dot (pnormal r.path true).segments ≡ false → has_ambiguous (pnormal r.path true).segments ≡ false → target b r ≡ Some t → IsWithin t b }
    ensures own { (b r t : Parts) (front : List (List ℕ)) (last : List ℕ) → Valid b → r.scheme ≡ None → r.authority ≡ None → is_empty (path.text r.path) ≡ true → between_slashes (pnormal b.path false) ≡ front ++ last ∷ [] → is_ambiguous last ≡ false → removes_unclear b.path ≡ false → target b r ≡ Some t → IsWithin t b }
    ensures equals { (p q b c : Parts) → Valid p → Valid q → Valid b → Valid c → IsOfKind true p → IsOfKind true q → IsOfKind true b → IsOfKind true c → Same p q → Same b c → IsWithin p b → IsWithin q c }
    ensures tested { (p b : Parts) → (is_within p b ≡ true) ↔ IsWithin p b }
    ensures origin { (p b : Parts) (o : Origin) → Valid p → Valid b → IsWithin p b → origin b ≡ Some o → have_same_origin p b ≡ true }
{}

/// URIs below another one, and URIs that only look so.
pub fn examples_below()
    ensures below { shown_within (codes "HTTPS://EXAMPLE.com:443/x/../app/a?b#c") (codes "https://example.com/app/") ≡ Some true }
    ensures directory { shown_within (codes "https://example.com/app/") (codes "https://example.com/app/") ≡ Some true }
    ensures longer_name { shown_within (codes "https://example.com/appX") (codes "https://example.com/app/") ≡ Some false }
    ensures no_slash { shown_within (codes "https://example.com/app") (codes "https://example.com/app/") ≡ Some false }
    ensures up { shown_within (codes "https://example.com/app/%2e%2e/admin") (codes "https://example.com/app/") ≡ Some false }
    ensures other_scheme { shown_within (codes "http://example.com/app/a") (codes "https://example.com/app/") ≡ Some false }
    ensures other_host { shown_within (codes "https://example.org/app/a") (codes "https://example.com/app/") ≡ Some false }
    ensures other_port { shown_within (codes "https://example.com:8443/app/a") (codes "https://example.com/app/") ≡ Some false }
    ensures user { shown_within (codes "https://u@example.com/app/a") (codes "https://example.com/app/") ≡ Some false }
    ensures ambiguous { shown_within (codes "https://example.com/app/..;/admin") (codes "https://example.com/app/") ≡ Some false }
    ensures escaped_end { shown_within (codes "https://example.com/app/..%3B/admin") (codes "https://example.com/app/") ≡ Some false }
    ensures removed_dots { shown_within (codes "https://example.com/app/..;/../a") (codes "https://example.com/app/") ≡ Some false }
    ensures removed_later { shown_within (codes "https://example.com/app/x/..;/../admin") (codes "https://example.com/app/") ≡ Some false }
    ensures removed_escape { shown_within (codes "https://example.com/app/..%2fadmin%2fx/../") (codes "https://example.com/app/") ≡ Some false }
    ensures removed_slash { shown_within (codes "https://example.com/app/%2f../../admin") (codes "https://example.com/app/") ≡ Some false }
    ensures removed_empty { shown_within (codes "https://example.com/app//../admin") (codes "https://example.com/app/") ≡ Some false }
    ensures removed_plain { shown_within (codes "https://example.com/app/x/../a") (codes "https://example.com/app/") ≡ Some true }
    ensures kept_empty { shown_within (codes "https://example.com/app//a") (codes "https://example.com/app/") ≡ Some true }
    ensures file_of_base { shown_within (codes "https://example.com/app/b") (codes "https://example.com/app/index") ≡ Some true }
    ensures no_slash_itself { shown_within (codes "mailto:a@b") (codes "mailto:%61@b") ≡ Some true }
    ensures no_slash_other { shown_within (codes "urn:x") (codes "urn:a:b") ≡ Some false }
{}

/// URIs and references that show what the laws of being below need: a last segment and removed segments
/// that are plain, a base with a slash that doesn't end in `..`, and a reference without `..` and
/// ambiguous segments.
pub fn limits_of_below()
    ensures ambiguous_itself { shown_within (codes "http://h/..;") (codes "http://h/..;") ≡ Some false }
    ensures unclear_itself { shown_within (codes "http://h/a//..") (codes "http://h/a//..") ≡ Some false }
    ensures unclear { shown_within (codes "http://h/a//../b") (codes "http://h/a/") ≡ Some false }
    ensures unclear_normal { shown_within (codes "http://h/a/b") (codes "http://h/a/") ≡ Some true }
    ensures relative_path { target_within (codes "http://h/a/b") (codes "c") ≡ Some true }
    ensures double_dot_in_base { target_within (codes "http://h/.;q/..") (codes "x") ≡ Some false }
    ensures no_slash_in_base { target_within (codes "s:b") (codes "a") ≡ Some false }
    ensures double_dot { target_within (codes "http://h/a/b") (codes "../c") ≡ Some false }
    ensures ambiguous_segment { target_within (codes "http://h/a/b") (codes "..;") ≡ Some false }
    ensures no_path { target_within (codes "http://h/a/b") (codes "?q") ≡ Some true }
    ensures no_path_ambiguous { target_within (codes "http://h/..;") (codes "?q") ≡ Some false }
    ensures no_path_unclear { target_within (codes "http://h/a//..") (codes "#f") ≡ Some false }
{}

/// A change that keeps every component changes nothing, and so does one that sets a component to the
/// string that it has, or removes an absent one. Making a change again changes nothing more. After a
/// change that another one replaces, the other makes what it makes alone. Two changes of different components make the same string in either order, if both orders are
/// accepted. The user name and the password count as one component there, and so do the host and the
/// path.
///
/// The string of a changed reference spells its components. Its scheme, host, query and fragment are
/// the wanted ones or byte for byte the old ones, and so are the port, the user name and the password
/// beside a host, except that a kept password goes with a removed user name, and that a password
/// without a user name brings an empty one. The string is cut into the changed strings. After an
/// authority its path starts with a slash, unless it is empty. A component that two changes name is
/// what the second wants, and one that a change doesn't name is what it was.
pub fn one_change()
    ensures unchanged { (t : List ℕ) (p : Parts) → Spells t p → changing unchanged t ≡ Ok (record { text = t; parts = p }) }
    ensures spelled { (c : Wanted) (t : List ℕ) (v : Viewed) → changing c t ≡ Ok v → Spells v.text v.parts }
    ensures scheme { (c : Wanted) (t : List ℕ) (v : Viewed) → changing c t ≡ Ok v → scheme_text v.text ≡ changed c.scheme (scheme_text t) }
    ensures query { (c : Wanted) (t : List ℕ) (v : Viewed) → changing c t ≡ Ok v → query_text v.text ≡ changed c.query (query_text t) }
    ensures fragment { (c : Wanted) (t : List ℕ) (v : Viewed) → changing c t ≡ Ok v → fragment_text v.text ≡ changed c.fragment (fragment_text t) }
    ensures authority { (c : Wanted) (t : List ℕ) (v : Viewed) → changing c t ≡ Ok v → (x : Strings) × (changed_strings c (strings t) ≡ Ok x) × (authority_text v.text ≡ option_map authority_whole x.authority) × (path_text v.text ≡ after_authority (is_some x.authority) x.path) }
    ensures components { (c : Wanted) (t : List ℕ) (v : Viewed) → changing c t ≡ Ok v → (x : Strings) × (changed_strings c (strings t) ≡ Ok x) × (strings v.text ≡ record x { path = after_authority (is_some x.authority) x.path }) }
    ensures host { (c : Wanted) (t : List ℕ) (v : Viewed) → changing c t ≡ Ok v → option_map authority.host_text (authority_text v.text) ≡ changed c.host (option_map authority.host_text (authority_text t)) }
    ensures port { (c : Wanted) (t : List ℕ) (v : Viewed) (a : List ℕ) → changing c t ≡ Ok v → authority_text v.text ≡ Some a → authority.port_text a ≡ changed c.port (option_and_then authority.port_text (authority_text t)) }
    ensures username { (c : Wanted) (t : List ℕ) (v : Viewed) (a : List ℕ) → changing c t ≡ Ok v → authority_text v.text ≡ Some a → authority.username_text a ≡ with_empty (changed c.username (option_and_then authority.username_text (authority_text t))) (authority.password_text a) }
    ensures password { (c : Wanted) (t : List ℕ) (v : Viewed) (a : List ℕ) → changing c t ≡ Ok v → authority_text v.text ≡ Some a → authority.password_text a ≡ changed c.password (password_after (changed c.username (option_and_then authority.username_text (authority_text t))) (option_and_then authority.password_text (authority_text t))) }
    ensures again { (c : Wanted) (t : List ℕ) (v : Viewed) → changing c t ≡ Ok v → changing c v.text ≡ Ok v }
    ensures commuting { (c d : Wanted) (t : List ℕ) (u v w x : Viewed) → AreApart c d → changing c t ≡ Ok u → changing d u.text ≡ Ok v → changing d t ≡ Ok w → changing c w.text ≡ Ok x → v ≡ x }
    ensures twice { (c d : Wanted) (t : List ℕ) (v w : Viewed) → changing c t ≡ Ok v → changing d v.text ≡ Ok w → query_text w.text ≡ changed d.query (changed c.query (query_text t)) }
    ensures own { (c : Wanted) (t : List ℕ) (p : Parts) → Spells t p → WantsOwn c (strings t) → changing c t ≡ Ok (record { text = t; parts = p }) }
    ensures last { (c d : Wanted) (t : List ℕ) (v : Viewed) → Replaces d c → changing c t ≡ Ok v → changing d v.text ≡ changing d t }
{}

/// A change of one component makes what the edit of that component makes of the components, or the
/// setter of a value: for a scheme, a query and a fragment, and for a host, a user name, a password and
/// a port. With another query or another fragment, the string is the one that `set_query` and
/// `set_fragment` of owned strings make.
pub fn changes_and_edits()
    ensures scheme { (n : Option (List ℕ)) (t : List ℕ) (p : Parts) (v : Viewed) → Spells t p → changing (record unchanged { scheme = Some n }) t ≡ Ok v → edited p (edits.Scheme v.parts.scheme) ≡ Ok v.parts }
    ensures query { (q : Option (List ℕ)) (t : List ℕ) (p : Parts) (v : Viewed) → Spells t p → changing (record unchanged { query = Some q }) t ≡ Ok v → (edited p (edits.Query q) ≡ Ok v.parts) × (v.text ≡ with_query t q) }
    ensures fragment { (f : Option (List ℕ)) (t : List ℕ) (p : Parts) (v : Viewed) → Spells t p → changing (record unchanged { fragment = Some f }) t ≡ Ok v → (edited p (edits.Fragment f) ≡ Ok v.parts) × (v.text ≡ with_fragment t f) }
    ensures host { (g : List ℕ) (t : List ℕ) (p : Parts) (v : Viewed) → Spells t p → changing (record unchanged { host = Some (Some g) }) t ≡ Ok v → (h : Host) × (host.reading g ≡ Ok h) × (v.parts ≡ with_host p h) }
    ensures username { (u : Option (List ℕ)) (t : List ℕ) (p : Parts) (v : Viewed) → Spells t p → changing (record unchanged { username = Some u }) t ≡ Ok v → with_username p u ≡ Ok v.parts }
    ensures password { (w : Option (List ℕ)) (t : List ℕ) (p : Parts) (v : Viewed) → Spells t p → changing (record unchanged { password = Some w }) t ≡ Ok v → with_password p w ≡ Ok v.parts }
    ensures port { (n : Option (List ℕ)) (t : List ℕ) (p : Parts) (v : Viewed) → Spells t p → changing (record unchanged { port = Some n }) t ≡ Ok v → with_port p (option_and_then (λ (a : AuthorityParts). a.port) v.parts.authority) ≡ Ok v.parts }
{}

/// Strings before and after changes. The last two pairs show why a removed host and the path, and a removed
/// user name and the password, count as one component for two changes in either order.
pub fn examples_of_changes()
    ensures host { changed_text (record unchanged { host = Some (Some (codes "h2")) }) (codes "HTTP://u@h:8/%7e?q#f") ≡ Some (codes "HTTP://u@h2:8/%7e?q#f") }
    ensures query { changed_text (record unchanged { query = Some (Some (codes "a=1")) }) (codes "b#f") ≡ Some (codes "b?a=1#f") }
    ensures no_fragment { changed_text (record unchanged { fragment = Some None }) (codes "b?q#f") ≡ Some (codes "b?q") }
    ensures port { changed_text (record unchanged { port = Some (Some (codes "080")) }) (codes "//h/a") ≡ Some (codes "//h:080/a") }
    ensures path_after_a_new_host { changed_text (record unchanged { host = Some (Some (codes "h")) }) (codes "a") ≡ Some (codes "//h/a") }
    ensures wrong_host { changed_text (record unchanged { host = Some (Some (codes "a/b")) }) (codes "//h") ≡ None }
    ensures port_without_a_host { changed_text (record unchanged { port = Some (Some (codes "1")) }) (codes "a") ≡ None }
    ensures host_then_path { changed_twice (record unchanged { host = Some None }) (record unchanged { path = Some (Some []) }) (codes "//h/x") ≡ Some [] }
    ensures path_then_host { changed_twice (record unchanged { path = Some (Some []) }) (record unchanged { host = Some None }) (codes "//h/x") ≡ Some (codes "/") }
    ensures username_then_password { changed_twice (record unchanged { username = Some None }) (record unchanged { password = Some (Some (codes "q")) }) (codes "//u:p@h") ≡ Some (codes "//:q@h") }
    ensures password_then_username { changed_twice (record unchanged { password = Some (Some (codes "q")) }) (record unchanged { username = Some None }) (codes "//u:p@h") ≡ Some (codes "//h") }
    ensures own_host { changed_text (record unchanged { host = Some (Some (codes "h")) }) (codes "//u:p@h:8") ≡ Some (codes "//u:p@h:8") }
    ensures own_path { changed_text (record unchanged { path = Some (Some (codes "/a")); fragment = Some None }) (codes "//h/a?q") ≡ Some (codes "//h/a?q") }
    ensures not_a_reference { changed_text unchanged (codes "a b") ≡ None }
    ensures last_host { changed_twice (record unchanged { host = Some (Some (codes "h2")) }) (record unchanged { host = Some (Some (codes "h3")); path = Some (Some (codes "/")) }) (codes "//u@h") ≡ Some (codes "//u@h3/") }
    ensures removed_host { changed_twice (record unchanged { host = Some None }) (record unchanged { host = Some (Some (codes "h3")); path = Some (Some (codes "/")) }) (codes "//u@h") ≡ Some (codes "//h3/") }
    ensures last_username { changed_twice (record unchanged { username = Some None }) (record unchanged { username = Some (Some (codes "v")) }) (codes "//u:p@h") ≡ Some (codes "//v@h") }
    ensures username_alone { changed_text (record unchanged { username = Some (Some (codes "v")) }) (codes "//u:p@h") ≡ Some (codes "//v:p@h") }
    ensures kept_host_path { changed_twice (record unchanged { host = Some (Some (codes "h")) }) (record unchanged { host = Some None }) (codes "x") ≡ Some (codes "/x") }
{}

/// Origins: of one spelling each, and of URIs that have none.
pub fn examples_of_origins()
    ensures plain { printed_origin (codes "https://h") ≡ Some (codes "https://h") }
    ensures spelled { printed_origin (codes "HTTPS://u@%48:443/a?b#c") ≡ Some (codes "https://h") }
    ensures other_port { printed_origin (codes "http://h:443") ≡ Some (codes "http://h:443") }
    ensures address { printed_origin (codes "ws://[::FFFF:1.2.3.4]:80") ≡ Some (codes "ws://[::ffff:1.2.3.4]") }
    ensures unregistered { printed_origin (codes "X-Y://h:1") ≡ Some (codes "x-y://h:1") }
    ensures no_port { printed_origin (codes "x-y://h") ≡ None }
    ensures file { printed_origin (codes "file:///a") ≡ None }
    ensures empty_host { printed_origin (codes "http:///a") ≡ None }
    ensures port_alone { printed_origin (codes "https://u@:8443/a") ≡ None }
    ensures no_authority { printed_origin (codes "mailto:y") ≡ None }
    ensures one { share_origin (codes "https://h/a") (codes "HTTPS://%48:443") ≡ Some true }
    ensures two_without { share_origin (codes "file:///x") (codes "mailto:y") ≡ Some false }
    ensures one_without { share_origin (codes "file:///x") (codes "file:///x") ≡ Some false }
    ensures two_hostless { share_origin (codes "http:///x") (codes "http:///x") ≡ Some false }
    ensures two_schemes { share_origin (codes "http://h:1") (codes "https://h:1") ≡ Some false }
    ensures two_hosts { share_origin (codes "http://h") (codes "http://h.") ≡ Some false }
    ensures two_kinds { share_origin (codes "http://1.2.3.4") (codes "http://%31.2.3.4") ≡ Some false }
    ensures two_ports { share_origin (codes "http://h") (codes "http://h:8080") ≡ Some false }
{}

/// The URI of a path names the path. The path that a URI names has a URI, which names it too.
pub fn one_file_path()
    ensures back { (path : List ℕ) (u : Parts) → are_bytes path ≡ true → uri_of_path path ≡ Ok u → path_of_uri u ≡ Ok path }
    ensures forth { (u : Parts) (path : List ℕ) → Valid u → path_of_uri u ≡ Ok path → uri_of_path path ≡ Ok (file_uri path) }
    ensures again { (u : Parts) (path : List ℕ) → Valid u → path_of_uri u ≡ Ok path → path_of_uri (file_uri path) ≡ Ok path }
    ensures bytes { (u : Parts) (path : List ℕ) → Valid u → path_of_uri u ≡ Ok path → are_bytes path ≡ true }
{}

/// Paths and the texts of their URIs, and URIs and the paths that they name: RFC 8089, section 2 and
/// appendix B.
pub fn examples_of_files()
    ensures traditional { print (file_uri (codes "/path/to/file")) ≡ codes "file:///path/to/file" }
    ensures root { print (file_uri (codes "/")) ≡ codes "file:///" }
    ensures escaped { print (file_uri (codes "/a b%41?#[]")) ≡ codes "file:///a%20b%2541%3F%23%5B%5D" }
    ensures not_text { print (file_uri (slash ∷ 255 ∷ 195 ∷ [])) ≡ codes "file:///%FF%C3" }
    ensures empty_names { print (file_uri (codes "//a//")) ≡ codes "file:////a//" }
    ensures dots { print (file_uri (codes "/./../a")) ≡ codes "file:///./../a" }
    ensures relative { uri_of_path (codes "a/b") ≡ Err errors.NotAbsolute }
    ensures no_path { uri_of_path [] ≡ Err errors.NotAbsolute }
    ensures nul { uri_of_path (slash ∷ 0 ∷ []) ≡ Err errors.ContainsNul }
    ensures named { path_named (codes "file:///path/to/file") ≡ Some (Ok (codes "/path/to/file")) }
    ensures minimal { path_named (codes "file:/path/to/file") ≡ Some (Ok (codes "/path/to/file")) }
    ensures local { path_named (codes "FILE://LOCAL%48ost/a%20b%2541") ≡ Some (Ok (codes "/a b%41")) }
    ensures empty { path_named (codes "file://") ≡ Some (Ok (codes "/")) }
    ensures kept { path_named (codes "file:///a//./../%2E/") ≡ Some (Ok (codes "/a//./.././")) }
    ensures rootless { path_named (codes "file:a") ≡ Some (Err errors.NotAbsolute) }
    ensures other_scheme { path_named (codes "http:/a") ≡ Some (Err errors.NotFile) }
    ensures username { path_named (codes "file://u@localhost/a") ≡ Some (Err errors.HasUsername) }
    ensures host { path_named (codes "file://host.example.com/a") ≡ Some (Err errors.NotLocal) }
    ensures address { path_named (codes "file://127.0.0.1/a") ≡ Some (Err errors.NotLocal) }
    ensures port { path_named (codes "file://localhost:1/a") ≡ Some (Err errors.HasPort) }
    ensures query { path_named (codes "file:///a?") ≡ Some (Err errors.HasQuery) }
    ensures fragment { path_named (codes "file:///a#") ≡ Some (Err errors.HasFragment) }
    ensures escaped_slash { path_named (codes "file:///a%2fb%00") ≡ Some (Err errors.EscapedSlash) }
    ensures escaped_nul { path_named (codes "file:///%00/%2F") ≡ Some (Err errors.ContainsNul) }
{}

/// Sort keys, with `|` for the byte that ends a text or stands for an absent component, and `^` for
/// the one that precedes a present component.
pub fn examples_of_sort_keys()
    ensures nothing { shown_key exact [] ≡ Some (codes "1|||||") }
    ensures plain { shown_key exact (codes "http://h/%7e?q") ≡ Some (codes "1^http|^||1h||/~|^q||") }
    ensures spelled { shown_key exact (codes "HTTP://%48/~?%71") ≡ Some (codes "1^http|^||1h||/~|^q||") }
    ensures whole { shown_key exact (codes "//u:p@1.2.3.4:80#f") ≡ Some (codes "1|^^u|^p|401020304^00080/||^f|") }
    ensures ipv6 { shown_key exact (codes "//[2001:DB8::1]") ≡ Some (codes "1|^||620010db8000000000000000000000001|/|||") }
    ensures future { shown_key exact (codes "//[vF.A:b]") ≡ Some (codes "1|^||7vf.a:b||/|||") }
    ensures hidden { shown_key exact (codes "//%31.2.3.4") ≡ Some (codes "1|^||11.2.3.4||/|||") }
    ensures empty { shown_key exact (codes "a?") ≡ Some (codes "1||a|^||") }
    ensures absent { shown_key exact (codes "a") ≡ Some (codes "1||a|||") }
    ensures of_page { shown_key page (codes "HTTP://H:80/a/./b/../c?#f") ≡ Some (codes "1^http|^||1h||/a/c|^||") }
    ensures page_of_hidden { shown_key page (codes "http://%31.2.3.4/#f") ≡ Some (codes "1^http|^||11.2.3.4||/|||") }
    ensures other_port { shown_key page (codes "https://h:80") ≡ Some (codes "1^https|^||1h|^00080/|||") }
    ensures ports { compared_keys exact (codes "//h:9") (codes "//h:10") ≡ Some Less }
    ensures addresses { compared_keys exact (codes "//9.0.0.0") (codes "//10.0.0.0") ≡ Some Less }
    ensures kinds { compared_keys exact (codes "//z") (codes "//1.2.3.4") ≡ Some Less }
    ensures prefix { compared_keys exact (codes "//a/z") (codes "//a.b/c") ≡ Some Less }
    ensures queries { compared_keys exact (codes "a#z") (codes "a?") ≡ Some Less }
    ensures fragments { compared_keys page (codes "a#z") (codes "a") ≡ Some Equal }
{}

/// Place keys and prefixes, with `|` for the byte that ends a part or stands for an absent component, `^`
/// for the one that precedes a present component or ends a host, and `{` for the one that ends a name with
/// a dot at its end.
pub fn examples_of_place_keys()
    ensures nothing { shown_place (codes "http:") ≡ Some (codes "p|^http||||") }
    ensures plain { shown_place (codes "http://www.example.com/a?q") ≡ Some (codes "p^1com|example|www|^^00080||^http|/a|^q||") }
    ensures spelled { shown_place (codes "HTTP://%57WW.Example.COM:80/b/../%61?%71") ≡ Some (codes "p^1com|example|www|^^00080||^http|/a|^q||") }
    ensures escaped_dot { shown_place (codes "http://www%2Eexample.com/a?q") ≡ Some (codes "p^1com|example|www|^^00080||^http|/a|^q||") }
    ensures end_dot { shown_place (codes "http://example.com./") ≡ Some (codes "p^1com|example|{^00080||^http|/|||") }
    ensures whole { shown_place (codes "ftp://u:p@example.com:2121/a/b#f") ≡ Some (codes "p^1com|example|^^02121^u|^p|^ftp|/a/b||^f|") }
    ensures ipv4 { shown_place (codes "http://192.0.2.1/") ≡ Some (codes "p^4c0000201|^^00080||^http|/|||") }
    ensures ipv6 { shown_place (codes "http://[2001:DB8::1]/") ≡ Some (codes "p^620010db8000000000000000000000001|^^00080||^http|/|||") }
    ensures future { shown_place (codes "http://[vF.A:b]/") ≡ Some (codes "p^7vf.a:b|^^00080||^http|/|||") }
    ensures hidden { shown_place (codes "http://%31.2.3.4/") ≡ Some (codes "p^21.2.3.4|^^00080||^http|/|||") }
    ensures hidden_dot { shown_place (codes "http://1.2.3.4./") ≡ Some (codes "p^21.2.3.4.|{^00080||^http|/|||") }
    ensures empty_label { shown_place (codes "http://a..b/") ≡ Some (codes "p^2a..b|^^00080||^http|/|||") }
    ensures escape { shown_place (codes "http://a%2fb/") ≡ Some (codes "p^2a%2Fb|^^00080||^http|/|||") }
    ensures no_port { shown_place (codes "foo://h/") ≡ Some (codes "p^1h|^|||^foo|/|||") }
    ensures no_host { shown_place (codes "file:///a") ≡ Some (codes "p^2|^|||^file|/a|||") }
    ensures no_authority { shown_place (codes "mailto:a@b") ≡ Some (codes "p|^mailto|a@b|||") }
    ensures two_slashes { shown_place (codes "urn:/.//a") ≡ Some (codes "p|^urn|//a|||") }
    ensures domain { shown_domain (codes "//Example.com") ≡ Some (codes "p^1com|example|") }
    ensures domain_dot { shown_domain (codes "//example.com.") ≡ Some (codes "p^1com|example|") }
    ensures domain_address { shown_domain (codes "//192.0.2.1") ≡ Some (codes "p^4c0000201|") }
    ensures domain_hidden { shown_domain (codes "//%31.2.3.4") ≡ Some (codes "p^21.2.3.4|") }
    ensures base { shown_base (codes "https://Example.com:443/app/index?q#f") ≡ Some (codes "p^1com|example|^^00443||^https|/app/") }
    ensures base_slash { shown_base (codes "https://example.com/app/") ≡ Some (codes "p^1com|example|^^00443||^https|/app/") }
    ensures base_dot { shown_base (codes "https://example.com/app/x/%2e%2e") ≡ Some (codes "p^1com|example|^^00443||^https|/app/") }
    ensures base_alone { shown_base (codes "mailto:a@b") ≡ Some (codes "p|^mailto|a@b|") }
    ensures base_rooted { shown_base (codes "urn:a/../b") ≡ Some (codes "p|^urn|/") }
    ensures begins_below { shown_begins (codes "HTTPS://EXAMPLE.com:443/x/../app/a?b#c") (codes "https://example.com/app/") ≡ Some true }
    ensures begins_directory { shown_begins (codes "https://example.com/app/") (codes "https://example.com/app/") ≡ Some true }
    ensures begins_longer_name { shown_begins (codes "https://example.com/appX") (codes "https://example.com/app/") ≡ Some false }
    ensures begins_no_slash { shown_begins (codes "https://example.com/app") (codes "https://example.com/app/") ≡ Some false }
    ensures begins_user { shown_begins (codes "https://u@example.com/app/a") (codes "https://example.com/app/") ≡ Some false }
    ensures begins_end_dot_host { shown_begins (codes "https://example.com./app/a") (codes "https://example.com/app/") ≡ Some false }
{}

/// What the laws of place keys need: a key can begin with the prefix of a base that the URI isn't below, if a
/// segment is ambiguous or a `..` removes an empty one; an empty prefix has no successor; and a byte string
/// that is no key can begin with a prefix and 0x7F.
pub fn limits_of_place_keys()
    ensures ambiguous { (shown_begins (codes "https://example.com/app/..;/admin") (codes "https://example.com/app/") ≡ Some true) × (shown_within (codes "https://example.com/app/..;/admin") (codes "https://example.com/app/") ≡ Some false) }
    ensures removed { (shown_begins (codes "https://example.com/app//../a") (codes "https://example.com/app/") ≡ Some true) × (shown_within (codes "https://example.com/app//../a") (codes "https://example.com/app/") ≡ Some false) }
    ensures empty { IsBetween [] [] (successor []) → ⊥ }
    ensures other_byte { IsBetween (127 ∷ []) [] ([] ++ 127 ∷ []) → ⊥ }
{}
