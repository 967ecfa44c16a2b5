//! Laws of the definitions that contracts cite. Each function does nothing: its contract is the
//! law.
ghost use Rattle.std.specs.Prelude.{◌≡◌, ◌∷◌, ℕ, [], List, None, Some, bytes_eq, codes, true};
ghost use Rattle.uriparse_reference.specs.Key.{key};
ghost use Rattle.uriparse_reference.specs.Masked.{masked};
ghost use Rattle.uriparse_reference.specs.Ports.{without_default_port};
ghost use Rattle.uriparse_reference.specs.Reference.{Parts, Spells};
ghost use Rattle.uriparse_reference.specs.declared.uri_reference.error.URIReferenceError.{URIReferenceError};
ghost use Rattle.uriparse.specs.declared.uri.error.URIError.{URIError};
ghost use Rattle.uriparse_ffi.specs.Code as spec;
ghost use Rattle.uriparse_ffi.specs.Domains.{domains};
ghost use Rattle.uriparse_ffi.specs.Hash.{hash_of};
ghost use Rattle.uriparse_ffi.specs.Hidden.{masked_text, shown, text_without_default_port};
ghost use Rattle.uriparse_ffi.specs.Requests.{origin_form};
ghost use Rattle.uriparse_ffi.specs.Segments.{segment_begin, segments_left};

/// Codes and errors match one to one: errors with the same code are equal, also a base's errors. No
/// error of a reference has the code of success, or of a buffer that is too small.
pub fn one_code()
    ensures one { (e f : URIReferenceError) → spec.code_of e ≡ spec.code_of f → e ≡ f }
    ensures one_uri { (e f : URIError) → spec.uri_code e ≡ spec.uri_code f → e ≡ f }
    ensures one_base { (c d : ℕ) → spec.base_code c ≡ spec.base_code d → c ≡ d }
    ensures not_accepted { (e : URIReferenceError) → spec.code_of e ≡ spec.accepted → ⊥ }
    ensures not_no_room { (e : URIReferenceError) → spec.code_of e ≡ spec.no_room → ⊥ }
{}

/// Equal references have equal hashes.
pub fn equal_hashes()
    ensures { (p q : Parts) → bytes_eq (key p) (key q) ≡ true → hash_of (key p) ≡ hash_of (key q) }
{}

/// A string without its default port, and one with its password hidden, spells the reference that the
/// library makes so.
pub fn what_is_hidden()
    ensures port { (t : List ℕ) (p : Parts) → Spells t p → Spells (text_without_default_port t p) (without_default_port p) }
    ensures password { (t : List ℕ) (p : Parts) → Spells t p → Spells (masked_text t p) (masked p) }
{}

/// Strings without a default port, and with a password hidden.
pub fn examples_of_hidden()
    ensures port { shown text_without_default_port (codes "HTTP://u@H:080/%7e#f") ≡ Some (codes "HTTP://u@H/%7e#f") }
    ensures other_port { shown text_without_default_port (codes "https://h:80") ≡ Some (codes "https://h:80") }
    ensures empty_port { shown text_without_default_port (codes "http://h:") ≡ Some (codes "http://h:") }
    ensures no_scheme { shown text_without_default_port (codes "//h:80") ≡ Some (codes "//h:80") }
    ensures password { shown masked_text (codes "ftp://u:p:q@H/a") ≡ Some (codes "ftp://u:***@H/a") }
    ensures empty_password { shown masked_text (codes "//u:@h") ≡ Some (codes "//u:***@h") }
    ensures no_password { shown masked_text (codes "//u@h:80") ≡ Some (codes "//u@h:80") }
    ensures not_a_reference { shown masked_text (codes "a b") ≡ None }
{}

/// Segments that are left of paths, and the domains of strings.
pub fn examples_of_pieces()
    ensures rooted { segments_left (codes "/a/b") 0 ≡ codes "a" ∷ codes "b" ∷ [] }
    ensures relative { segments_left (codes "a/") 0 ≡ codes "a" ∷ [] ∷ [] }
    ensures root { segments_left (codes "/") 0 ≡ [] ∷ [] }
    ensures empty { segments_left [] 0 ≡ [] ∷ [] }
    ensures later { segments_left (codes "/a//b") 3 ≡ [] ∷ codes "b" ∷ [] }
    ensures end { segments_left (codes "/a/") 3 ≡ [] ∷ [] }
    ensures after { segments_left (codes "/a/") 4 ≡ [] }
    ensures begin { segment_begin (codes "/a") 0 ≡ 1 }
    ensures same_begin { segment_begin (codes "/a") 1 ≡ 1 }
    ensures domains { domains (codes " a  b ") ≡ codes "a" ∷ codes "b" ∷ [] }
    ensures no_domain { domains (codes " ") ≡ [] }
{}

/// Targets of requests.
pub fn examples_of_requests()
    ensures whole { origin_form (codes "/a/b") (Some (codes "c?d")) ≡ codes "/a/b?c?d" }
    ensures two_slashes { origin_form (codes "//a") None ≡ codes "//a" }
    ensures empty_path { origin_form [] (Some (codes "q")) ≡ codes "/?q" }
    ensures empty_query { origin_form (codes "/") (Some []) ≡ codes "/?" }
    ensures nothing { origin_form [] None ≡ codes "/" }
{}
