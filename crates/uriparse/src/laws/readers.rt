//! Laws of what readers of a URI agree on.
ghost use Rattle.std.specs.Prelude.{◌≡◌, ◌∷◌, [], ℕ, List, None, Option, Some, codes, false, true};
ghost use Rattle.uriparse_reference.specs.Normal.{normal};
ghost use Rattle.uriparse_reference.specs.Reference.{Parts, Spells, Valid};
ghost use Rattle.uriparse_reference.specs.Target.{target};
ghost use Rattle.uriparse.specs.Disagreement.{disagreement, disagrees, leads_alike, shown_disagreement, shown_leads_alike};
ghost use Rattle.uriparse.specs.Web as standard;
ghost use Rattle.uriparse.specs.Web.{ReadsAlike, WebUrl, web, web_host_of, web_path_of};
ghost use Rattle.uriparse.specs.declared.uri.disagreement.Disagreement.TheVariants as reasons;

/// If readers have no reason to disagree on a URI, the URL Standard reads a URL in it, and that has
/// the same scheme, host, port, path without dot segments, query and fragment, whatever the tables of
/// Unicode are. Then readers have no reason to disagree on its normal form either, and none on the
/// target of a reference that leads alike from it. A URL never agrees with a reference without a host,
/// or with one at an address of a later version.
pub fn readers_agree()
    ensures alike { (idna : List ℕ → Option (List ℕ)) (t : List ℕ) (p : Parts) → Spells t p → disagreement p ≡ None → (u : WebUrl) × (web idna t ≡ Some u) × ReadsAlike p u }
    ensures normal { (p : Parts) → Valid p → disagreement p ≡ None → disagreement (normal p) ≡ None }
    ensures target { (b r t : Parts) → Valid b → Valid r → leads_alike b r ≡ true → target b r ≡ Some t → disagreement t ≡ None }
    ensures no_host { (idna : List ℕ → Option (List ℕ)) (t : List ℕ) (p : Parts) (u : WebUrl) → disagrees reasons.NoHost p ≡ true → web idna t ≡ Some u → ReadsAlike p u → ⊥ }
    ensures later_address { (p : Parts) (u : WebUrl) → disagrees reasons.LaterAddress p ≡ true → ReadsAlike p u → ⊥ }
{}

/// What the URL Standard reads in strings, next to the cases in which RFC 3986 reads another host or
/// another path there. No tables of Unicode are used.
pub fn examples_of_web_readings()
    ensures plain { web_host_of (codes "HTTPS://Example.COM:443/a") ≡ Some (standard.Domain (codes "example.com")) }
    ensures end_dot { web_host_of (codes "http://example.com./") ≡ Some (standard.Domain (codes "example.com.")) }
    ensures no_slashes { web_host_of (codes "http:example.com/a") ≡ Some (standard.Domain (codes "example.com")) }
    ensures one_slash { web_host_of (codes "http:/example.com/a") ≡ Some (standard.Domain (codes "example.com")) }
    ensures three_slashes { web_host_of (codes "http:///example.com/a") ≡ Some (standard.Domain (codes "example.com")) }
    ensures nothing { web_host_of (codes "http://?q") ≡ None }
    ensures port_alone { web_host_of (codes "http://:80/") ≡ None }
    ensures user_alone { web_host_of (codes "http://u@/") ≡ None }
    ensures user { web_host_of (codes "https://example.com@evil.example:8/") ≡ Some (standard.Domain (codes "evil.example")) }
    ensures address { web_host_of (codes "http://127.0.0.1/") ≡ Some (standard.Ipv4 2130706433) }
    ensures address_end_dot { web_host_of (codes "http://127.0.0.1./") ≡ Some (standard.Ipv4 2130706433) }
    ensures number { web_host_of (codes "http://2130706433/") ≡ Some (standard.Ipv4 2130706433) }
    ensures hexadecimal { web_host_of (codes "http://0X7f.1/") ≡ Some (standard.Ipv4 2130706433) }
    ensures octal { web_host_of (codes "http://0177.0.0.01/") ≡ Some (standard.Ipv4 2130706433) }
    ensures two_parts { web_host_of (codes "http://127.1/") ≡ Some (standard.Ipv4 2130706433) }
    ensures hidden { web_host_of (codes "http://%31.2.3.4/") ≡ Some (standard.Ipv4 16909060) }
    ensures no_octal { web_host_of (codes "http://1.2.3.08/") ≡ None }
    ensures too_large { web_host_of (codes "http://1.2.3.256/") ≡ None }
    ensures five_parts { web_host_of (codes "http://1.2.3.4.5/") ≡ None }
    ensures name_and_number { web_host_of (codes "http://a.1/") ≡ None }
    ensures name_and_digit { web_host_of (codes "http://a.1b/") ≡ Some (standard.Domain (codes "a.1b")) }
    ensures number_and_name { web_host_of (codes "http://1.2.3.a/") ≡ Some (standard.Domain (codes "1.2.3.a")) }
    ensures escape { web_host_of (codes "http://ex%41mple.com/") ≡ Some (standard.Domain (codes "example.com")) }
    ensures escaped_slash { web_host_of (codes "http://evil.example%2f.example.com/") ≡ None }
    ensures encoded { web_host_of (codes "http://a.XN--bcher-kva/") ≡ None }
    ensures ipv6 { web_host_of (codes "http://[::A]/") ≡ Some (standard.Ipv6 (0 ∷ 0 ∷ 0 ∷ 0 ∷ 0 ∷ 0 ∷ 0 ∷ 10 ∷ [])) }
    ensures future { web_host_of (codes "http://[v1.a]/") ≡ None }
    ensures other_scheme { web_host_of (codes "mailto:a@example.com") ≡ None }
    ensures dots { web_path_of (codes "http://h/a/./b/../c") ≡ Some (codes "a" ∷ codes "c" ∷ []) }
    ensures escaped_dots { web_path_of (codes "http://h/a/%2e%2E/b/%2e") ≡ Some (codes "b" ∷ [] ∷ []) }
    ensures empty_path { web_path_of (codes "http://h?q") ≡ Some ([] ∷ []) }
{}

/// URIs on which readers agree, and one for each reason to disagree.
pub fn examples_of_disagreements()
    ensures name { shown_disagreement (codes "https://Example.com:443/a/../b?c#d") ≡ Some None }
    ensures address { shown_disagreement (codes "ws://127.0.0.1:080") ≡ Some None }
    ensures ipv6 { shown_disagreement (codes "ftp://[::1]/%20?%2e%2e") ≡ Some None }
    ensures digits { shown_disagreement (codes "http://1.2.3.a_b~;c/") ≡ Some None }
    ensures not_a_reference { shown_disagreement (codes "http://a b/") ≡ None }
    ensures scheme { shown_disagreement (codes "file://h/a") ≡ Some (Some reasons.Scheme) }
    ensures no_scheme { shown_disagreement (codes "//h/a") ≡ Some (Some reasons.Scheme) }
    ensures no_authority { shown_disagreement (codes "http:example.com/a") ≡ Some (Some reasons.NoHost) }
    ensures no_host { shown_disagreement (codes "http:///example.com/a") ≡ Some (Some reasons.NoHost) }
    ensures port_alone { shown_disagreement (codes "http://:80/a") ≡ Some (Some reasons.NoHost) }
    ensures future { shown_disagreement (codes "http://[v1.a]/") ≡ Some (Some reasons.LaterAddress) }
    ensures escape { shown_disagreement (codes "http://ex%41mple.com/") ≡ Some (Some reasons.EscapedName) }
    ensures hidden { shown_disagreement (codes "http://%31.2.3.4/") ≡ Some (Some reasons.EscapedName) }
    ensures number { shown_disagreement (codes "http://2130706433/") ≡ Some (Some reasons.NumericName) }
    ensures end_dot { shown_disagreement (codes "http://127.0.0.1./") ≡ Some (Some reasons.NumericName) }
    ensures cautious_number { shown_disagreement (codes "http://a.1b/") ≡ Some (Some reasons.NumericName) }
    ensures encoded { shown_disagreement (codes "http://a.XN--bcher-kva/") ≡ Some (Some reasons.EncodedName) }
    ensures dots { shown_disagreement (codes "http://h/a/%2E./b") ≡ Some (Some reasons.EscapedDots) }
    ensures user { shown_disagreement (codes "https://example.com@evil.example/") ≡ Some (Some reasons.UserInformation) }
    ensures first { shown_disagreement (codes "https://u@127.1/%2e") ≡ Some (Some reasons.NumericName) }
{}

/// References that lead all readers to one place, and some that don't.
pub fn examples_of_leading()
    ensures path { shown_leads_alike (codes "https://example.com/a/b") (codes "../c?d#e") ≡ Some true }
    ensures host { shown_leads_alike (codes "https://example.com/a/b") (codes "//example.org/c") ≡ Some true }
    ensures scheme { shown_leads_alike (codes "https://example.com/a/b") (codes "http://example.org") ≡ Some true }
    ensures fragment { shown_leads_alike (codes "https://example.com/a/b") (codes "#c") ≡ Some true }
    ensures three_slashes { shown_leads_alike (codes "https://example.com/a/b") (codes "///evil.example/c") ≡ Some false }
    ensures same_scheme { shown_leads_alike (codes "https://example.com/a/b") (codes "https:c") ≡ Some false }
    ensures number { shown_leads_alike (codes "https://example.com/a/b") (codes "//127.1/") ≡ Some false }
    ensures dots { shown_leads_alike (codes "https://example.com/a/b") (codes "%2e%2e/c") ≡ Some false }
    ensures other_scheme { shown_leads_alike (codes "https://example.com/a/b") (codes "mailto:c") ≡ Some false }
    ensures base { shown_leads_alike (codes "https://127.1/a/b") (codes "c") ≡ Some false }
{}
