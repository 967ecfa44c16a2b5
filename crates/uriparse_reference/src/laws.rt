//! Laws about the definitions in `specs/`. The functions have no body: the contract is the law.
ghost use Rattle.std.specs.Cmp.{IsTotalOrder};
ghost use Rattle.std.specs.Option.{option_map};
ghost use Rattle.std.specs.declared.cmp.Ordering.TheVariants.{Equal, Greater, Less};
ghost use Rattle.std.specs.Prelude.{◌≡◌, ◌↔◌, ◌⊎◌, ◌<◌, ◌≤◌, ◌∷◌, ◌++◌, ℕ, List, [], Option, None, Some, Ok, IfSome, IsSomeAnd, is_some, length, slice_get, true, false, codes};
ghost use Rattle.uriparse_text.specs.Bytes.{slash, question_mark, number_sign};
ghost use Rattle.uriparse_text.specs.Cuts.{lacks, none_pass};
ghost use Rattle.uriparse_text.specs.Tokens.{is_well_formed};
ghost use Rattle.uriparse_path.specs.Path.{max_segments, pieces, spelled, text};
ghost use Rattle.uriparse_path.specs.Merge.{merged};
ghost use Rattle.uriparse_path.specs.Dots.{LacksSlash, has_dot_segment};
ghost use Rattle.uriparse_authority.specs.Authority.{ends_authority};
ghost use Rattle.uriparse_authority.specs.declared.authority.error.AuthorityError.TheVariants as authority_errors;
ghost use Rattle.uriparse_authority.specs.declared.authority.error.HostError.TheVariants.{AddressMechanismNotSupported};
ghost use Rattle.uriparse_authority.specs.declared.authority.error.PasswordError.{PasswordError};
ghost use Rattle.uriparse_authority.specs.declared.authority.error.UsernameError.{UsernameError};
ghost use Rattle.uriparse_authority.specs.declared.authority.error.UsernameError.TheVariants.{ContainsColon};
ghost use Rattle.uriparse_text.specs.declared.fragment.FragmentError.{FragmentError};
ghost use Rattle.uriparse_text.specs.declared.query.QueryError.{QueryError};
ghost use Rattle.uriparse_text.specs.declared.segment.error.PathError.{PathError};
ghost use Rattle.uriparse_scheme.specs.Scheme.{is_scheme};
ghost use Rattle.uriparse_scheme.specs.declared.scheme.error.SchemeError.{SchemeError};
ghost use Rattle.uriparse_text.specs.declared.segment.error.PathError.TheVariants.{OutOfMemory};
ghost use Rattle.uriparse_reference.specs.Reference.{Parts, Spells, Valid, ReadsBack, HidesAddress, OneHidesAddress, Same, joined, print, kind};
ghost use Rattle.uriparse_reference.specs.Cuts.{scheme_text, authority_text, path_text, query_text, fragment_text};
ghost use Rattle.uriparse_reference.specs.Escaped.{escaped, escaped_authority, escaped_component, escaped_path, fault_left};
ghost use Rattle.uriparse_reference.specs.Edits.{IsOutOfMemory, Run, edited, of_parts, replaced};
ghost use Rattle.uriparse_reference.specs.Ports.{port_or_default, without_default_port};
ghost use Rattle.uriparse_reference.specs.Builder.{built, held};
ghost use Rattle.uriparse_reference.specs.Examples.{are_equal, compared, hold, is_normalised, lengthened, normal_form_rows, normalised, normalised_first, normal_rows, portless, related, relative_form_rows, abnormal_rows, resolved, resolved_first, rfc_base, shown, used_port};
ghost use Rattle.uriparse_reference.specs.Key.{fed, fed_key, key};
ghost use Rattle.uriparse_reference.specs.Order.{reference_cmp};
ghost use Rattle.uriparse_reference.specs.declared.uri_reference.edit.Edit.{Edit};
ghost use Rattle.uriparse_reference.specs.declared.uri_reference.error.URIReferenceError.{URIReferenceError};
ghost use Rattle.uriparse_reference.specs.declared.uri_reference.error.URIReferenceError.TheVariants as errors;
ghost use Rattle.uriparse_reference.specs.Reading.{reading, fault};
ghost use Rattle.uriparse_reference.specs.Offset.{IsAtPercentIff, IsWrongByte, fault_offset, first_fault};
ghost use Rattle.uriparse_path.specs.Offset.{offset_within};
ghost use Rattle.uriparse_text.specs.declared.segment.error.PathError.TheVariants as path_errors;
ghost use Rattle.uriparse_text.specs.declared.query.QueryError.TheVariants as query_errors;
ghost use Rattle.uriparse_text.specs.declared.fragment.FragmentError.TheVariants as fragment_errors;
ghost use Rattle.uriparse_authority.specs.declared.authority.error.HostError.TheVariants as host_errors;
ghost use Rattle.uriparse_authority.specs.declared.authority.error.PasswordError.TheVariants as password_errors;
ghost use Rattle.uriparse_authority.specs.declared.authority.error.PortError.TheVariants as port_errors;
ghost use Rattle.uriparse_authority.specs.declared.authority.error.UsernameError.TheVariants as username_errors;
ghost use Rattle.uriparse_reference.specs.Normal.{normal, is_normal};
ghost use Rattle.uriparse_reference.specs.Relate.{Relates, relative};
ghost use Rattle.uriparse_reference.specs.Target.{through_last_slash, merge, target, is_merged, MergesAlike, NormalizesAlike, AreSame};

/// A text spells at most one reference. Reading returns that reference if there is one, and a fault
/// otherwise. What a text spells is valid.
pub fn one_reading()
    ensures one { (t : List ℕ) (p q : Parts) → Spells t p → Spells t q → p ≡ q }
    ensures reads { (t : List ℕ) (p : Parts) → (reading t ≡ Ok p) ↔ Spells t p }
    ensures none { (t : List ℕ) → (fault t ≡ None) ↔ ((p : Parts) × Spells t p) }
    ensures valid { (t : List ℕ) (p : Parts) → Spells t p → Valid p }
{}

/// The order of references is total. Two of them are as great as each other exactly if they are the
/// same.
pub fn order_of_references()
    ensures total { IsTotalOrder reference_cmp }
    ensures same { (p q : Parts) → Valid p → Valid q → (reference_cmp p q ≡ Equal) ↔ Same p q }
{}

/// Examples of the order: the first component that differs decides, an absent one is less than any
/// that is present, and spellings and the case of hosts don't count.
pub fn order_examples()
    ensures equal { compared (codes "http://h/%7e") (codes "HTTP://H/~") ≡ Some Equal }
    ensures schemes { (compared (codes "http:b") (codes "https:a") ≡ Some Less) × (compared (codes "b") (codes "s:a") ≡ Some Less) }
    ensures addresses { (compared (codes "//2.0.0.0") (codes "//10.0.0.0") ≡ Some Less) × (compared (codes "//z") (codes "//1.2.3.4") ≡ Some Less) }
    ensures hosts { (compared (codes "//Z") (codes "//a") ≡ Some Greater) × (compared (codes "//h/b") (codes "//h:1/a") ≡ Some Less) }
    ensures spelled { (compared (codes "%42") (codes "A") ≡ Some Greater) × (compared (codes "%5b") (codes "%5C") ≡ Some Less) }
    ensures absent { (compared (codes "a#z") (codes "a?") ≡ Some Less) × (compared (codes "a") (codes "a#") ≡ Some Less) }
{}

/// The fault of a text never concerns the scheme, a missing path or a path with two leading
/// slashes: a text without a scheme begins with its authority or path, each text has a path, and
/// two slashes begin an authority. It is never `OutOfMemory` either, nor one of the two errors that
/// no authority has.
pub fn faults_of_reading()
    ensures slashes { (t : List ℕ) → fault t ≡ Some errors.AbsolutePathStartsWithTwoSlashes → ⊥ }
    ensures missing { (t : List ℕ) → fault t ≡ Some errors.MissingPath → ⊥ }
    ensures scheme { (t : List ℕ) (e : SchemeError) → fault t ≡ Some (errors.Scheme e) → ⊥ }
    ensures memory { (t : List ℕ) → fault t ≡ Some (errors.Path OutOfMemory) → ⊥ }
    ensures unsupported { (t : List ℕ) → fault t ≡ Some (errors.Authority (authority_errors.Host AddressMechanismNotSupported)) → ⊥ }
    ensures colon { (t : List ℕ) → fault t ≡ Some (errors.Authority (authority_errors.Username ContainsColon)) → ⊥ }
{}

/// The place of a text's fault precedes the end of the text, and the byte there is one at which the
/// error may be, as the laws of the components say of theirs. For an error of a user name, a password,
/// a path, a query or a fragment it is a `%` exactly if the error is about a percent-encoding; for one
/// of a host, or of a path that needs a scheme before it, it may be one too.
pub fn one_offset_of_fault()
    ensures byte { (t : List ℕ) (e : URIReferenceError) → fault t ≡ Some e → IsSomeAnd (slice_get t (fault_offset e t)) (IsWrongByte e) }
    ensures username_escape { (t : List ℕ) (e : UsernameError) → IsAtPercentIff t (errors.Authority (authority_errors.Username e)) (e ≡ username_errors.InvalidPercentEncoding) }
    ensures password_escape { (t : List ℕ) (e : PasswordError) → IsAtPercentIff t (errors.Authority (authority_errors.Password e)) (e ≡ password_errors.InvalidPercentEncoding) }
    ensures path_escape { (t : List ℕ) (e : PathError) → IsAtPercentIff t (errors.Path e) (e ≡ path_errors.InvalidPercentEncoding) }
    ensures query_escape { (t : List ℕ) (e : QueryError) → IsAtPercentIff t (errors.Query e) (e ≡ query_errors.InvalidPercentEncoding) }
    ensures fragment_escape { (t : List ℕ) (e : FragmentError) → IsAtPercentIff t (errors.Fragment e) (e ≡ fragment_errors.InvalidPercentEncoding) }
    ensures within { (t : List ℕ) (e : URIReferenceError) → fault t ≡ Some e → fault_offset e t < length t }
{}

/// Where texts are wrong, and why: an example of each error that a text may have. The one that takes
/// a million segments is the error of a path of two, by the word for any number.
pub fn examples_of_first_faults()
    ensures none { first_fault (codes "http://h/a%20b") ≡ None }
    ensures username { first_fault (codes "//u[@h") ≡ Some (3, errors.Authority (authority_errors.Username username_errors.InvalidCharacter)) }
    ensures username_escape { first_fault (codes "//u%@h") ≡ Some (3, errors.Authority (authority_errors.Username username_errors.InvalidPercentEncoding)) }
    ensures password { first_fault (codes "//u:p[@h") ≡ Some (5, errors.Authority (authority_errors.Password password_errors.InvalidCharacter)) }
    ensures password_escape { first_fault (codes "//u:%4g@h") ≡ Some (4, errors.Authority (authority_errors.Password password_errors.InvalidPercentEncoding)) }
    ensures name { first_fault (codes "s://u@h<") ≡ Some (7, errors.Authority (authority_errors.Host host_errors.InvalidIPv4OrRegisteredNameCharacter)) }
    ensures name_escape { first_fault (codes "//u@h%4x") ≡ Some (5, errors.Authority (authority_errors.Host host_errors.InvalidIPv4OrRegisteredNameCharacter)) }
    ensures ipv6 { first_fault (codes "//[::g]") ≡ Some (5, errors.Authority (authority_errors.Host host_errors.InvalidIPv6Character)) }
    ensures ipv6_form { first_fault (codes "//u@[1:2]:80") ≡ Some (4, errors.Authority (authority_errors.Host host_errors.InvalidIPv6Format)) }
    ensures future { first_fault (codes "//[v1.%]") ≡ Some (6, errors.Authority (authority_errors.Host host_errors.InvalidIPvFutureCharacter)) }
    ensures future_form { first_fault (codes "//[v1]") ≡ Some (2, errors.Authority (authority_errors.Host host_errors.InvalidIPvFutureFormat)) }
    ensures port { first_fault (codes "//u@h:8x") ≡ Some (7, errors.Authority (authority_errors.Port port_errors.InvalidCharacter)) }
    ensures port_range { first_fault (codes "//h:65536") ≡ Some (4, errors.Authority (authority_errors.Port port_errors.Overflow)) }
    ensures path { first_fault (codes "http://h/a b") ≡ Some (10, errors.Path path_errors.InvalidCharacter) }
    ensures path_escape { first_fault (codes "/a%4") ≡ Some (2, errors.Path path_errors.InvalidPercentEncoding) }
    ensures colon { first_fault (codes "1:b/c?[") ≡ Some (0, errors.SchemelessPathStartsWithColonSegment) }
    ensures query { first_fault (codes "?a[") ≡ Some (2, errors.Query query_errors.InvalidCharacter) }
    ensures query_escape { first_fault (codes "s:p?%") ≡ Some (4, errors.Query query_errors.InvalidPercentEncoding) }
    ensures fragment { first_fault (codes "s:p?q#a#") ≡ Some (7, errors.Fragment fragment_errors.InvalidCharacter) }
    ensures fragment_escape { first_fault (codes "#%1") ≡ Some (1, errors.Fragment fragment_errors.InvalidPercentEncoding) }
    ensures segments { offset_within 1 (codes "a/b/c") ≡ 3 }
{}

/// Every text is the concatenation of its components: a scheme before a `:`, if it is one; after
/// two slashes an authority without the bytes that end one; a path without `?` and `#`; a query
/// without `#`; a fragment.
pub fn one_cut()
    ensures whole { (t : List ℕ) → t ≡ joined (scheme_text t) (authority_text t) (path_text t) (query_text t) (fragment_text t) }
    ensures scheme { (t : List ℕ) → IfSome (scheme_text t) (λ s. is_scheme s ≡ true) }
    ensures authority { (t : List ℕ) → IfSome (authority_text t) (λ a. none_pass ends_authority a ≡ true) }
    ensures path { (t : List ℕ) → (lacks question_mark (path_text t) ≡ true) × (lacks number_sign (path_text t) ≡ true) }
    ensures query { (t : List ℕ) → IfSome (query_text t) (λ q. lacks number_sign q ≡ true) }
{}

/// A text with escapes has the components of the text that was escaped, each with escapes.
/// The text of a reference stays, escaping again changes nothing, and each `%` begins an escape. A
/// fault that is left is the authority's, too many segments, or the colon rule's.
pub fn one_escaping()
    ensures scheme { (t : List ℕ) → scheme_text (escaped t) ≡ scheme_text t }
    ensures authority { (t : List ℕ) → authority_text (escaped t) ≡ option_map escaped_authority (authority_text t) }
    ensures path { (t : List ℕ) → path_text (escaped t) ≡ escaped_path (path_text t) }
    ensures query { (t : List ℕ) → query_text (escaped t) ≡ option_map escaped_component (query_text t) }
    ensures fragment { (t : List ℕ) → fragment_text (escaped t) ≡ option_map escaped_component (fragment_text t) }
    ensures kept { (t : List ℕ) → fault t ≡ None → escaped t ≡ t }
    ensures twice { (t : List ℕ) → escaped (escaped t) ≡ escaped t }
    ensures formed { (t : List ℕ) → is_well_formed (escaped t) ≡ true }
    ensures left { (t : List ℕ) → fault (escaped t) ≡ fault_left t }
    ensures never { (t : List ℕ) → fault_left t ≡ Some errors.AbsolutePathStartsWithTwoSlashes → ⊥ }
{}

/// What a text spells reads back: its own printed text spells it. The same holds for each valid
/// reference, unless its host is a name whose text spells an IPv4 address. Two valid references
/// with the same printed text are equal, unless one has as a name what the other has as an IPv4
/// address.
pub fn reading_back()
    ensures spelled { (t : List ℕ) (p : Parts) → Spells t p → ReadsBack p }
    ensures back { (p : Parts) → Valid p → ReadsBack p → Spells (print p) p }
    ensures plain { (p : Parts) → Valid p → (HidesAddress p → ⊥) → Spells (print p) p }
    ensures one { (p q : Parts) → Valid p → Valid q → print p ≡ print q → (p ≡ q) ⊎ OneHidesAddress p q }
{}

/// What is written is read back. The text of a valid reference spells one with this text. The text of
/// a normal form spells a reference whose normal form has this text. The text of a target spells the
/// target, if the texts of base and reference spell them, as they do if both were read.
pub fn reading_what_is_written()
    ensures text { (p : Parts) → Valid p → (q : Parts) × Spells (print p) q × (print q ≡ print p) }
    ensures normal { (p : Parts) → Valid p → (q : Parts) × Spells (print (normal p)) q × (print (normal q) ≡ print (normal p)) }
    ensures target { (b r t : Parts) → Valid b → Valid r → ReadsBack b → ReadsBack r → is_some b.scheme ≡ true → target b r ≡ Some t → Spells (print t) t }
{}

/// Two references have the same key if and only if they are the same: their canonical texts agree,
/// and they have no host or hosts of one kind. For a valid reference the key alone determines what
/// a `Hasher` is fed, component by component.
pub fn one_key()
    ensures same { (p q : Parts) → (key p ≡ key q) ↔ Same p q }
    ensures fed { (p : Parts) → Valid p → fed_key (key p) ≡ fed p }
{}

/// The normal form of a valid reference is valid and its own normal form. It has a host of the same
/// kind and no more segments. A reference prints as its normal form if and only if it is normal,
/// and then it is equal to that form.
pub fn one_normal_form()
    ensures valid { (p : Parts) → Valid p → Valid (normal p) }
    ensures twice { (p : Parts) → Valid p → normal (normal p) ≡ normal p }
    ensures print { (p : Parts) → Valid p → (is_normal p ≡ true) ↔ (print (normal p) ≡ print p) }
    ensures no_longer { (p : Parts) → Valid p → length (normal p).path.segments ≤ length p.path.segments }
    ensures kinds { (p : Parts) → kind (normal p) ≡ kind p }
    ensures kept { (p : Parts) → Valid p → is_normal p ≡ true → normal p ≡ p }
{}

/// The target of a valid reference against a valid base with a scheme is valid. The target of a
/// reference with a scheme does not depend on the base. There is no target if and only if paths are
/// merged and the result has too many segments. The part of the base's path that is merged ends
/// with its last slash.
pub fn one_target()
    ensures valid { (b r : Parts) → Valid b → Valid r → is_some b.scheme ≡ true → IfSome (target b r) Valid }
    ensures alone { (b c r : Parts) → is_some r.scheme ≡ true → target b r ≡ target c r }
    ensures none { (b r : Parts) → (target b r ≡ None) ↔ ((is_merged r ≡ true) × (max_segments < length (pieces (merge b r)))) }
    ensures last_slash { (t s : List ℕ) → LacksSlash s → through_last_slash (t ++ slash ∷ s) ≡ t ++ slash ∷ [] }
    ensures no_slash { (s : List ℕ) → LacksSlash s → through_last_slash s ≡ [] }
{}

/// If paths are merged, the text of section 5.2.3 has the base's segments except the last
/// one, followed by the reference's segments, and spells these.
pub fn one_merge()
    ensures text { (b r : Parts) → Valid b → Valid r → is_merged r ≡ true → merge b r ≡ text (merged b.path r.path) }
    ensures path { (b r : Parts) → Valid b → Valid r → is_merged r ≡ true → spelled (merge b r) ≡ merged b.path r.path }
    ensures row { through_last_slash (codes "/b/c//d;p") ++ codes "../g" ≡ text (merged (spelled (codes "/b/c//d;p")) (spelled (codes "../g"))) }
{}

/// The reference that leads from a valid base to a valid target is valid, and its text spells it if
/// the target's does. If the target has a scheme, the reference resolves to what the target itself
/// resolves to, and leaves out what `LeavesOut` says. That is the target again, if its path has no
/// dot segments.
pub fn one_relative()
    ensures valid { (b t : Parts) → Valid b → Valid t → Valid (relative b t) }
    ensures spelled { (b t : Parts) → Valid b → Valid t → ReadsBack t → Spells (print (relative b t)) (relative b t) }
    ensures relates { (b t : Parts) → Valid b → Valid t → is_some t.scheme ≡ true → Relates b t (relative b t) }
    ensures back { (b t : Parts) → Valid b → Valid t → is_some t.scheme ≡ true → has_dot_segment t.path.segments ≡ false → target b (relative b t) ≡ Some t }
{}

/// Equal references have equal targets against equal bases, or both have none. Their normal forms
/// have the same printed text and hosts of one kind: they have one normal form.
pub fn equal_in_equal_out()
    ensures targets { (b c r q : Parts) → Valid b → Valid c → Valid r → Valid q → Same b c → Same r q → AreSame (target b r) (target c q) }
    ensures normal { (p q : Parts) → Valid p → Valid q → Same p q → (print (normal p) ≡ print (normal q)) × (kind (normal p) ≡ kind (normal q)) }
    ensures one { (p q : Parts) → Valid p → Valid q → Same p q → normal p ≡ normal q }
{}

/// Normalizing commutes with resolving. If a reference has a target against a base, its normal form
/// has one against the base's normal form, and the two targets have the same normal form. If paths
/// are merged, this holds only if the base's path begins with a slash and does not end in a double
/// dot segment, and the path of the reference's normal form is not empty.
pub fn normalising_commutes()
    ensures { (b r t : Parts) → Valid b → Valid r → is_some b.scheme ≡ true → (is_merged r ≡ true → MergesAlike b r) → target b r ≡ Some t → NormalizesAlike b r t }
{}

/// The components of a valid reference build that reference. An edit returns what the components
/// build with one of them replaced, or the same error.
pub fn one_edit()
    ensures own { (p : Parts) → Valid p → of_parts p ≡ Ok p }
    ensures replaced { (p : Parts) (e : Edit) → Valid p → edited p e ≡ of_parts (replaced p e) }
{}

/// Without a port that is its scheme's default one, a reference is valid and has the same port in
/// use. To leave that port out twice is to leave it out once.
pub fn one_default_port()
    ensures valid { (p : Parts) → Valid p → Valid (without_default_port p) }
    ensures port { (p : Parts) → port_or_default (without_default_port p) ≡ port_or_default p }
    ensures twice { (p : Parts) → without_default_port (without_default_port p) ≡ without_default_port p }
{}

/// Examples of ports, of segments appended, and of hidden passwords.
pub fn change_examples()
    ensures port { used_port (codes "HTTP://h/") ≡ Some (Some 80) }
    ensures own_port { used_port (codes "https://h:8443/") ≡ Some (Some 8443) }
    ensures no_port { (used_port (codes "x-y://h/") ≡ Some None) × (used_port (codes "http:/a") ≡ Some None) }
    ensures default { portless (codes "http://u@h:0080/a") ≡ Some (codes "http://u@h/a") }
    ensures other { (portless (codes "https://h:80/a") ≡ Some (codes "https://h:80/a")) × (portless (codes "//h:80/a") ≡ Some (codes "//h:80/a")) }
    ensures password { shown (codes "ftp://u:secret@h/a") ≡ Some (codes "ftp://u:***@h/a") }
    ensures no_password { shown (codes "ftp://u@h/a") ≡ Some (codes "ftp://u@h/a") }
    ensures appended { (lengthened (codes "http://h/a?q") (codes "b") ≡ Some (codes "http://h/a/b?q")) × (lengthened (codes "s:") (codes "a:b") ≡ Some (codes "s:a:b")) }
    ensures misplaced { (lengthened (codes "") (codes "a:b") ≡ None) × (lengthened (codes "s:/") (codes "") ≡ None) }
{}

/// A builder with the components of a valid reference builds that reference.
pub fn one_build()
    ensures { (p : Parts) → Valid p → built (held p) ≡ Ok p }
{}

/// A list of edits has one outcome: the number of accepted edits, the resulting components, and the
/// error of the next edit, if any; except that normalizing may run out of memory.
pub fn one_run()
    ensures { (p q r : Parts) (es : List Edit) (n m : ℕ) (o u : Option URIReferenceError) → Run p es n q o → Run p es m r u → IsOutOfMemory o ⊎ (IsOutOfMemory u ⊎ ((n ≡ m) × (q ≡ r) × (o ≡ u))) }
{}

/// Examples of targets: the RFC's, of sections 5.4.1 and 5.4.2, and others.
pub fn target_examples()
    ensures normal { hold (resolved rfc_base) normal_rows ≡ true }
    ensures abnormal { hold (resolved rfc_base) abnormal_rows ≡ true }
    // Merging keeps empty segments, and a path that would start with `//` gets a leading `/.`.
    ensures empty_segment { resolved (codes "http://a//x") (codes "g") ≡ Some (codes "http://a//g") }
    ensures two_slashes { resolved (codes "s:/a/b") (codes "..//c") ≡ Some (codes "s:/.//c") }
    // The base's path is kept unchanged, and its fragment is dropped.
    ensures kept_dots { resolved (codes "http://a/b/../c") (codes "") ≡ Some (codes "http://a/b/../c") }
    ensures no_fragment { resolved (codes "http://a/b#z") (codes "") ≡ Some (codes "http://a/b") }
    ensures empty_path { resolved (codes "http://h") (codes "?y") ≡ Some (codes "http://h/?y") }
    // Escaped dots are dots, and nothing else is normalized.
    ensures escaped_dots { resolved (codes "http://a/b/c") (codes "%2E%2e/g") ≡ Some (codes "http://a/g") }
    ensures not_normalised { resolved (codes "http://a/") (codes "%7e") ≡ Some (codes "http://a/%7e") }
    // A base's path without a slash contributes nothing to the merge.
    ensures no_slash { resolved (codes "s:a") (codes "..") ≡ Some (codes "s:") }
    ensures colon { resolved (codes "s:a") (codes "./c:d") ≡ Some (codes "s:c:d") }
    ensures relative_base { resolved (codes "s:a/b") (codes "c") ≡ Some (codes "s:a/c") }
    ensures above_relative_base { resolved (codes "s:a/b") (codes "..") ≡ Some (codes "s:/") }
{}

/// Examples of references that lead from a base to a URI.
pub fn relative_examples()
    ensures directories { related (codes "http://a/b/c/d;p?q") (codes "http://a/b/g#s") ≡ Some (codes "../g#s") }
    ensures below { related (codes "http://a/b/c") (codes "http://a/b/d/e?y") ≡ Some (codes "d/e?y") }
    // The same path: a query, unless it is the base's. A query that has to go needs a path.
    ensures fragment { related (codes "http://a/b?q") (codes "http://a/b?q#s") ≡ Some (codes "#s") }
    ensures query { related (codes "http://a/b?q") (codes "http://a/b?y") ≡ Some (codes "?y") }
    ensures no_query { related (codes "http://a/b?q") (codes "http://a/b") ≡ Some (codes "b") }
    // A leading `.` precedes a first segment that is empty or has a colon.
    ensures empty { related (codes "http://a/b") (codes "http://a/") ≡ Some (codes "./") }
    ensures colon { related (codes "http://a/b") (codes "http://a/c:d") ≡ Some (codes "./c:d") }
    // The whole path, if one of them has dot segments.
    ensures dots { related (codes "http://a/b") (codes "http://a/x/../c") ≡ Some (codes "/x/../c") }
    ensures authority { related (codes "http://a/b") (codes "http://c/b") ≡ Some (codes "//c/b") }
    ensures scheme { related (codes "http://a/b") (codes "ftp://a/b") ≡ Some (codes "ftp://a/b") }
    // Spellings count: an authority in upper case is another one.
    ensures spelling { related (codes "http://a/b") (codes "http://A/b") ≡ Some (codes "//A/b") }
    // The scheme stays, if no path leads there and there is no authority.
    ensures no_slash { related (codes "s:x") (codes "s:y/../z") ≡ Some (codes "s:y/../z") }
    ensures two_slashes { related (codes "s:/a/../b") (codes "s:/.//c") ≡ Some (codes "/.//c") }
{}

/// Examples of normal forms and of equality. Dot segments count for equality. A name does not equal
/// the address that its normal form spells.
pub fn normal_examples()
    ensures forms { hold normalised normal_form_rows ≡ true }
    ensures relative_forms { hold normalised relative_form_rows ≡ true }
    ensures dot_prefixed { is_normalised (codes "s:/.//b") ≡ Some true }
    ensures with_leading_dot { is_normalised (codes "./c:d") ≡ Some true }
    ensures authority { is_normalised (codes "http://example.com") ≡ Some true }
    ensures dots { is_normalised (codes "a/.") ≡ Some false }
    ensures equal { are_equal (codes "http://h/%7e") (codes "HTTP://H/~") ≡ Some true }
    ensures equal_path { are_equal (codes "http://h") (codes "http://h/") ≡ Some true }
    ensures unequal_dots { are_equal (codes "a/./b") (codes "a/b") ≡ Some false }
    ensures unequal_hosts { are_equal (codes "//%31.2.3.4") (codes "//1.2.3.4") ≡ Some false }
    ensures unequal_slash { are_equal (codes "/a") (codes "a") ≡ Some false }
{}

/// Examples of the law of commutation, and counterexamples without one of its three premises: a
/// base's path that does not begin with a slash, one that ends in a double dot segment, and a
/// reference's path whose normal form is empty.
pub fn commutation_examples()
    ensures target { resolved_first (codes "http://a/b/./c") (codes "../%7e/./g") ≡ Some (codes "http://a/~/g") }
    ensures target_again { normalised_first (codes "http://a/b/./c") (codes "../%7e/./g") ≡ Some (codes "http://a/~/g") }
    ensures dot_prefixed { resolved_first (codes "s:/a/..//b/c") (codes "./d:e") ≡ Some (codes "s:/.//b/d:e") }
    ensures shielded_again { normalised_first (codes "s:/a/..//b/c") (codes "./d:e") ≡ Some (codes "s:/.//b/d:e") }
    ensures not_rooted { resolved_first (codes "s:b") (codes "a/../g") ≡ Some (codes "s:/g") }
    ensures not_rooted_again { normalised_first (codes "s:b") (codes "a/../g") ≡ Some (codes "s:g") }
    ensures double_dot { resolved_first (codes "http://a/b/..") (codes "g") ≡ Some (codes "http://a/b/g") }
    ensures double_dot_again { normalised_first (codes "http://a/b/..") (codes "g") ≡ Some (codes "http://a/g") }
    ensures empty { resolved_first (codes "http://a/b/c") (codes ".") ≡ Some (codes "http://a/b/") }
    ensures empty_again { normalised_first (codes "http://a/b/c") (codes ".") ≡ Some (codes "http://a/b/c") }
{}

/// Texts as people write them, and the references that are made of them. The last three are the
/// example of RFC 3987, section 3.1, in UTF-8, a text that is rejected for its host, and one that
/// is rejected by the colon rule.
pub fn escaping_examples()
    ensures empty { escaped [] ≡ [] }
    ensures space { escaped (codes "a b") ≡ codes "a%20b" }
    ensures sign { escaped (codes "100%") ≡ codes "100%25" }
    ensures broken { escaped (codes "%zz%4") ≡ codes "%25zz%254" }
    ensures escape { escaped (codes "a%2fb") ≡ codes "a%2fb" }
    ensures brackets { escaped (codes "[x]") ≡ codes "%5Bx%5D" }
    ensures address { escaped (codes "http://[::1]/[x]") ≡ codes "http://[::1]/%5Bx%5D" }
    ensures number_sign { escaped (codes "?#?#") ≡ codes "?#?%23" }
    ensures others { escaped (codes "/<>^`{|}") ≡ codes "/%3C%3E%5E%60%7B%7C%7D" }
    ensures iri { escaped (codes "http://r" ++ 195 ∷ 169 ∷ codes "sum" ++ 195 ∷ 169 ∷ codes ".example.org") ≡ codes "http://r%C3%A9sum%C3%A9.example.org" }
    ensures host { escaped (codes "//a[b c]:x y/") ≡ codes "//a[b%20c]:x%20y/" }
    ensures colon { escaped (codes "a b:c") ≡ codes "a%20b:c" }
{}
