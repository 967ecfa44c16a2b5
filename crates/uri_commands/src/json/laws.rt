//! Laws of the JSON object of a reference. Each function does nothing: its contract is the law.

ghost use Rattle.std.specs.Prelude.{◌≡◌, ◌++◌, ℕ, List, Ok, codes, true};
ghost use Rattle.uriparse.specs.Class.{Class};
ghost use Rattle.uriparse.specs.Host as host;
ghost use Rattle.uriparse.specs.HostValue.{Host};
ghost use Rattle.uriparse.specs.Path.{IsPath};
ghost use Rattle.uriparse.specs.Reference.{Parts, Spells};
ghost use Rattle.uriparse.specs.SchemeGrammar.{is_scheme};
ghost use Rattle.uriparse.specs.TextFaults.{IsIn};
ghost use Rattle.uri_commands.specs.Json.{escaped, object, object_of};

/// A JSON string has each byte of a reference, and of its components and printed host, as it is.
#[tactic(auto, using(crate::proofs::JsonLemmas::escaped_plain, crate::proofs::JsonLemmas::escaped_host, crate::proofs::JsonLemmas::plain_spelled, crate::proofs::JsonLemmas::plain_scheme, crate::proofs::JsonLemmas::plain_in_class, crate::proofs::JsonLemmas::plain_path))]
pub fn one_string()
    ensures reference { (t : List ℕ) (p : Parts) → Spells t p → escaped t ≡ t }
    ensures scheme { (t : List ℕ) → is_scheme t ≡ true → escaped t ≡ t }
    ensures host { (h : Host) → host.Valid h → escaped (host.text h) ≡ host.text h }
    ensures path { (t : List ℕ) → IsPath t → escaped t ≡ t }
    ensures class { (c : Class) (t : List ℕ) → IsIn c t → escaped t ≡ t }
{}

/// References with equal objects have equal strings, so an object can be read in one way alone.
pub fn one_object()
    ensures { (t u : List ℕ) (p q : Parts) → Spells t p → Spells u q → object t p ≡ object u q → t ≡ u }
{}

/// Objects of references.
pub fn examples_of_objects()
    ensures empty { object_of (codes "")
        ≡ Ok (codes "{\"text\":\"\",\"scheme\":null,\"username\":null,\"password\":null,\"host\":null,\"host_kind\":null,\"port\":null,"
        ++ codes "\"path\":\"\",\"query\":null,\"fragment\":null,\"segments\":[\"\"]}") }
    ensures whole { object_of (codes "HTTP://u:p@h:80/a/b?q#f")
        ≡ Ok (codes "{\"text\":\"HTTP://u:p@h:80/a/b?q#f\",\"scheme\":\"http\",\"username\":\"u\",\"password\":\"p\",\"host\":\"h\",\"host_kind\":\"name\",\"port\":80,"
        ++ codes "\"path\":\"/a/b\",\"query\":\"q\",\"fragment\":\"f\",\"segments\":[\"a\",\"b\"]}") }
    ensures address { object_of (codes "//[::FFFF:1.2.3.4]:")
        ≡ Ok (codes "{\"text\":\"//[::FFFF:1.2.3.4]:\",\"scheme\":null,\"username\":null,\"password\":null,\"host\":\"[::ffff:1.2.3.4]\",\"host_kind\":\"ipv6\",\"port\":null,"
        ++ codes "\"path\":\"/\",\"query\":null,\"fragment\":null,\"segments\":[\"\"]}") }
{}
