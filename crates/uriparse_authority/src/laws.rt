//! Laws of the definitions that contracts cite. Each function does nothing: its contract is the
//! law.
ghost use Rattle.std.specs.Prelude.{◌≡◌, ◌↔◌, ◌⊎◌, ◌∷◌, ◌++◌, true, false, ℕ, ◌<◌, codes, length, slice_get, IfSome, IsSomeAnd, List, [], Err, None, Ok, Option, Some, decimal};
ghost use Rattle.uriparse_text.specs.Bytes.{at_sign, colon, right_bracket};
ghost use Rattle.uriparse_text.specs.Cuts.{lacks, none_pass};
ghost use Rattle.uriparse_authority.specs.declared.authority.error.AuthorityError.{AuthorityError};
ghost use Rattle.uriparse_authority.specs.declared.authority.error.PasswordError.{PasswordError};
ghost use Rattle.uriparse_authority.specs.declared.authority.error.PortError.TheVariants.{InvalidCharacter, Overflow};
ghost use Rattle.uriparse_authority.specs.declared.authority.error.UsernameError.{UsernameError};
ghost use Rattle.uriparse_authority.specs.declared.authority.host.Host.{Host};
ghost use Rattle.uriparse_authority.specs.declared.authority.host.Host.TheVariants.{IPv4Address, IPv6Address, IPvFuture, RegisteredName};
ghost use Rattle.uriparse_authority.specs.declared.authority.error.AuthorityError.TheVariants as errors;
ghost use Rattle.uriparse_authority.specs.declared.authority.error.HostError.TheVariants as host_errors;
ghost use Rattle.uriparse_authority.specs.declared.authority.error.PasswordError.TheVariants as password_errors;
ghost use Rattle.uriparse_authority.specs.declared.authority.error.UsernameError.TheVariants as username_errors;
ghost use Rattle.uriparse_authority.specs.Username as username;
ghost use Rattle.uriparse_authority.specs.Name as name;
ghost use Rattle.uriparse_authority.specs.Future.{IsFuture};
ghost use Rattle.uriparse_authority.specs.Future as future;
ghost use Rattle.uriparse_authority.specs.Host as host;
ghost use Rattle.uriparse_authority.specs.Port as port;
ghost use Rattle.uriparse_authority.specs.Normal.{canonical_host, canonical_authority};
ghost use Rattle.uriparse_authority.specs.Offset.{IsAtPercentIff, IsWrongByte, fault_offset};
ghost use Rattle.uriparse_authority.specs.Authority.{AuthorityParts, Spells, Valid, ReadsBack, canonical_text, ends_authority, fault, fed, fed_key, host_text, joined, key, kind, password_text, port_text, print, reading, rest_error, username_text, whole_authority, whole_reading};
ghost use Rattle.uriparse_text.specs.Reach.{ip_reach};
ghost use Rattle.uriparse_text.specs.declared.address.IpAddr.{IpAddr};
ghost use Rattle.uriparse_text.specs.declared.address.reach.Reach.TheVariants.{Global};
ghost use Rattle.uriparse_authority.specs.Public.{IsPublic, IsPublicName, address_of};
ghost use Rattle.uriparse_authority.specs.Within.{EndsWithName, IsNameWithin, IsWithin, has_escapes, hides_address, labels, may_be_numeric, without_end_dot};

/// Reading returns exactly what a text spells: a host, a name by itself, an address of a later
/// version by itself, a port, an authority, and an authority that is the whole text. A text spells
/// one authority at most, and has a fault exactly if it spells none. What is spelled is valid.
pub fn one_reading()
    ensures hosts { (t : List ℕ) (h : Host) → (host.reading t ≡ Ok h) ↔ host.Spells t h }
    ensures names { (t n : List ℕ) → (name.reading t ≡ Ok n) ↔ host.Spells t (RegisteredName n) }
    ensures futures { (t f : List ℕ) → (future.reading t ≡ Ok f) ↔ ((f ≡ t) × IsFuture t) }
    ensures ports { (t : List ℕ) (n : Option ℕ) → (port.reading t ≡ Ok n) ↔ port.Spells t n }
    ensures reads { (a : List ℕ) (p : AuthorityParts) → (reading a ≡ Ok p) ↔ Spells a p }
    ensures whole { (t : List ℕ) (p : AuthorityParts) → (whole_reading t ≡ Ok p) ↔ Spells t p }
    ensures one { (a : List ℕ) (p q : AuthorityParts) → Spells a p → Spells a q → p ≡ q }
    ensures none { (a : List ℕ) → (fault a ≡ None) ↔ ((p : AuthorityParts) × Spells a p) }
    ensures valid { (a : List ℕ) (p : AuthorityParts) → Spells a p → Valid p }
{}

/// Which fault is returned. What is between brackets is read as an address; a port's fault is a
/// byte that is not a digit, or the digit with which the number exceeds the largest, whichever
/// comes first. The fault of an authority is returned whatever follows the byte that ends it; after
/// a faultless authority that byte decides. Two errors are never an authority's fault, and the first
/// is never a host's: each kind of address is supported, and the user name ends before its first
/// colon.
pub fn first_fault()
    ensures brackets { (t inner : List ℕ) → (host.in_brackets t ≡ Some inner) ↔ (t ≡ host.bracketed inner) }
    ensures other { (t : List ℕ) → (port.fault t ≡ Some InvalidCharacter) ↔ port.HasOther t }
    ensures passes { (t : List ℕ) → (port.fault t ≡ Some Overflow) ↔ port.Passes t }
    ensures front { (a : List ℕ) (b : ℕ) (u : List ℕ) (e : AuthorityError) → none_pass ends_authority a ≡ true → ends_authority b ≡ true → fault a ≡ Some e → whole_reading (a ++ b ∷ u) ≡ Err e }
    ensures rest { (a : List ℕ) (b : ℕ) (u : List ℕ) (p : AuthorityParts) → Spells a p → ends_authority b ≡ true → whole_reading (a ++ b ∷ u) ≡ Err (rest_error p.port (kind p)) }
    ensures unsupported_host { (t : List ℕ) → host.reading t ≡ Err host_errors.AddressMechanismNotSupported → ⊥ }
    ensures unsupported { (a : List ℕ) → fault a ≡ Some (errors.Host host_errors.AddressMechanismNotSupported) → ⊥ }
    ensures colon { (a : List ℕ) → fault a ≡ Some (errors.Username username_errors.ContainsColon) → ⊥ }
{}

/// The place of an authority's fault precedes the end of the text, and the byte there is one at which
/// the error may be: a byte that may not stand in its component, the bracket before an address of a
/// wrong form, or the first digit of too large a port. For an error of the user name or the password
/// it is a `%` exactly if the error is about a percent-encoding; for one of a host it may be one too.
pub fn one_offset_of_fault()
    ensures byte { (a : List ℕ) (e : AuthorityError) → fault a ≡ Some e → IsSomeAnd (slice_get a (fault_offset e a)) (IsWrongByte e) }
    ensures username_escape { (a : List ℕ) (e : UsernameError) → IsAtPercentIff a (errors.Username e) (e ≡ username_errors.InvalidPercentEncoding) }
    ensures password_escape { (a : List ℕ) (e : PasswordError) → IsAtPercentIff a (errors.Password e) (e ≡ password_errors.InvalidPercentEncoding) }
    ensures within { (a : List ℕ) (e : AuthorityError) → fault a ≡ Some e → fault_offset e a < length a }
{}

/// Every text is the concatenation of its components. The user name has none of the delimiters that
/// end it, the password no `@`; without a user name the text has no `@`. The port has none of the
/// delimiters that would end a host before it; without a port, a `]` follows each colon of the
/// host.
pub fn one_cut()
    ensures whole { (a : List ℕ) → a ≡ joined (username_text a) (password_text a) (host_text a) (port_text a) }
    ensures username_at { (a : List ℕ) → IfSome (username_text a) (λ t. lacks at_sign t ≡ true) }
    ensures username_colon { (a : List ℕ) → IfSome (username_text a) (λ t. lacks colon t ≡ true) }
    ensures password_at { (a : List ℕ) → IfSome (password_text a) (λ t. lacks at_sign t ≡ true) }
    ensures no_username { (a : List ℕ) → username_text a ≡ None → lacks at_sign a ≡ true }
    ensures port_colon { (a : List ℕ) → IfSome (port_text a) (λ t. lacks colon t ≡ true) }
    ensures port_bracket { (a : List ℕ) → IfSome (port_text a) (λ t. lacks right_bracket t ≡ true) }
    ensures no_port { (a u v : List ℕ) → port_text a ≡ None → host_text a ≡ u ++ colon ∷ v → lacks right_bracket v ≡ false }
{}

/// What a text spells reads back: its own printed text spells it. So does the printed text of each
/// valid host and authority, unless the host is a name whose text spells an IPv4 address. A port is
/// read back from its decimal text. Two valid authorities with one printed text are equal, unless
/// one holds as a name what the other holds as an IPv4 address.
pub fn reading_back()
    ensures host_spelled { (t : List ℕ) (h : Host) → host.Spells t h → host.ReadsBack h }
    ensures host { (h : Host) → host.Valid h → (host.IsHiddenAddress h → ⊥) → host.ReadsBack h }
    ensures port { (n : ℕ) → port.IsPort n → port.Spells (decimal n) (Some n) }
    ensures spelled { (a : List ℕ) (p : AuthorityParts) → Spells a p → ReadsBack p }
    ensures back { (p : AuthorityParts) → Valid p → ReadsBack p → Spells (print p) p }
    ensures plain { (p : AuthorityParts) → Valid p → (host.IsHiddenAddress p.host → ⊥) → Spells (print p) p }
    ensures hosts { (g h : Host) → host.Valid g → host.Valid h → host.text g ≡ host.text h → (g ≡ h) ⊎ host.OneHidesAddress g h }
    ensures one { (p q : AuthorityParts) → Valid p → Valid q → print p ≡ print q → (p ≡ q) ⊎ host.OneHidesAddress p.host q.host }
{}

/// Two hosts, or two authorities, have one key exactly if their canonical texts agree and their
/// hosts are of one kind. The key alone determines what a hasher is fed for a valid one, part by
/// part.
pub fn one_key()
    ensures hosts { (g h : Host) → (host.key g ≡ host.key h) ↔ ((host.canonical_text g ≡ host.canonical_text h) × (host.kind g ≡ host.kind h)) }
    ensures authorities { (p q : AuthorityParts) → (key p ≡ key q) ↔ ((canonical_text p ≡ canonical_text q) × (kind p ≡ kind q)) }
    ensures hosts_fed { (h : Host) → host.Valid h → host.fed_key (host.key h) ≡ host.fed h }
    ensures authorities_fed { (p : AuthorityParts) → Valid p → fed_key (key p) ≡ fed p }
{}

/// The normal form of a valid host or authority is valid and its own normal form, has the canonical
/// text, and keeps the host's kind. An authority that prints as its normal form is that form.
pub fn one_normal_form()
    ensures host_valid { (h : Host) → host.Valid h → host.Valid (canonical_host h) }
    ensures host_twice { (h : Host) → host.Valid h → canonical_host (canonical_host h) ≡ canonical_host h }
    ensures host_text { (h : Host) → host.text (canonical_host h) ≡ host.canonical_text h }
    ensures host_kind { (h : Host) → host.kind (canonical_host h) ≡ host.kind h }
    ensures valid { (p : AuthorityParts) → Valid p → Valid (canonical_authority p) }
    ensures twice { (p : AuthorityParts) → Valid p → canonical_authority (canonical_authority p) ≡ canonical_authority p }
    ensures text { (p : AuthorityParts) → print (canonical_authority p) ≡ canonical_text p }
    ensures kinds { (p : AuthorityParts) → kind (canonical_authority p) ≡ kind p }
    ensures kept { (p : AuthorityParts) → Valid p → print (canonical_authority p) ≡ print p → canonical_authority p ≡ p }
{}

/// Worked examples: hosts, ports, user names and whole authorities, and the results of reading
/// them.
pub fn examples()
    ensures address { host.reading (codes "1.2.3.4") ≡ Ok (IPv4Address (1 ∷ 2 ∷ 3 ∷ 4 ∷ [])) }
    ensures leading_zero { host.reading (codes "01.2.3.4") ≡ Ok (RegisteredName (codes "01.2.3.4")) }
    ensures large_octet { host.reading (codes "256.1.1.1") ≡ Ok (RegisteredName (codes "256.1.1.1")) }
    ensures no_name { name.reading (codes "1.2.3.4") ≡ Err (record {}) }
    ensures empty_brackets { host.reading (codes "[]") ≡ Err host_errors.InvalidIPv6Format }
    ensures nine_groups { host.reading (codes "[1:2:3:4:5:6:7:8::]") ≡ Err host_errors.InvalidIPv6Format }
    ensures no_group { host.reading (codes "[::g]") ≡ Err host_errors.InvalidIPv6Character }
    ensures later_version { host.reading (codes "[vFF.a.b]") ≡ Ok (IPvFuture (codes "vFF.a.b")) }
    ensures later_version_colon { host.reading (codes "[V1.X:y]") ≡ Ok (IPvFuture (codes "V1.X:y")) }
    ensures no_version { host.reading (codes "[v]") ≡ Err host_errors.InvalidIPvFutureFormat }
    ensures no_dot { host.reading (codes "[v1]") ≡ Err host_errors.InvalidIPvFutureFormat }
    ensures nothing_after_dot { host.reading (codes "[v1.]") ≡ Err host_errors.InvalidIPvFutureFormat }
    ensures no_digit { host.reading (codes "[v.x]") ≡ Err host_errors.InvalidIPvFutureFormat }
    ensures other_digit { host.reading (codes "[v1x.y]") ≡ Err host_errors.InvalidIPvFutureFormat }
    ensures later_version_escape { host.reading (codes "[v1.%41]") ≡ Err host_errors.InvalidIPvFutureCharacter }
    ensures later_version_bracket { host.reading (codes "[v1.[]") ≡ Err host_errors.InvalidIPvFutureCharacter }
    ensures digit_first { host.reading (codes "[1v.x]") ≡ Err host_errors.InvalidIPv6Character }
    ensures digit_first_alone { future.reading (codes "1v.x") ≡ Err host_errors.InvalidIPvFutureFormat }
    ensures empty_alone { future.reading [] ≡ Err host_errors.InvalidIPvFutureFormat }
    ensures open_bracket { host.reading (codes "[::1") ≡ Err host_errors.InvalidIPv4OrRegisteredNameCharacter }
    ensures no_port { port.reading (codes "") ≡ Ok None }
    ensures zeros { port.reading (codes "0080") ≡ Ok (Some 80) }
    ensures largest { port.reading (codes "65535") ≡ Ok (Some 65535) }
    ensures overflow { port.reading (codes "65536") ≡ Err Overflow }
    ensures byte_first { port.reading (codes "6553x") ≡ Err InvalidCharacter }
    ensures overflow_first { port.reading (codes "99999x") ≡ Err Overflow }
    ensures username_colon { username.reading (codes "a:%") ≡ Err username_errors.ContainsColon }
    ensures username_escape { username.reading (codes "%:") ≡ Err username_errors.InvalidPercentEncoding }
    ensures first_at { fault (codes "a@b@c") ≡ Some (errors.Host host_errors.InvalidIPv4OrRegisteredNameCharacter) }
    ensures first_part { fault (codes "a b@h:99999") ≡ Some (errors.Username username_errors.InvalidCharacter) }
    ensures password_escape { fault (codes "u:%zz@h") ≡ Some (errors.Password password_errors.InvalidPercentEncoding) }
    ensures after_port { whole_reading (codes "h:80/x") ≡ Err (errors.Port InvalidCharacter) }
    ensures after_address { whole_reading (codes "[::1]/") ≡ Err (errors.Host host_errors.InvalidIPv6Character) }
    ensures after_later_version { whole_reading (codes "[v1.x]/") ≡ Err (errors.Host host_errors.InvalidIPvFutureCharacter) }
    ensures after_name { whole_reading (codes "h?") ≡ Err (errors.Host host_errors.InvalidIPv4OrRegisteredNameCharacter) }
    ensures last_colon { reading (codes "u:p:w@[::1]:8") ≡ Ok (whole_authority (codes "u") (codes "p:w") (IPv6Address (0 ∷ 0 ∷ 0 ∷ 0 ∷ 0 ∷ 0 ∷ 0 ∷ 1 ∷ [])) 8) }
{}

/// Worked examples of normal forms: names, one of which becomes the text of an address and stays a
/// name, an address of a later version, and a whole authority, whose user name and password keep
/// the case of their letters.
pub fn normal_examples()
    ensures letters { canonical_host (RegisteredName (codes "EXAMPLE.%43om")) ≡ RegisteredName (codes "example.com") }
    ensures escape { canonical_host (RegisteredName (codes "a%2fB")) ≡ RegisteredName (codes "a%2Fb") }
    ensures hidden { canonical_host (RegisteredName (codes "%31.2.3.4")) ≡ RegisteredName (codes "1.2.3.4") }
    ensures empty { canonical_host (RegisteredName []) ≡ RegisteredName [] }
    ensures later_version { canonical_host (IPvFuture (codes "V1.X:y")) ≡ IPvFuture (codes "v1.x:y") }
    ensures whole { canonical_authority (whole_authority (codes "%7eU") (codes "%7E%3a") (RegisteredName (codes "H")) 80) ≡ whole_authority (codes "~U") (codes "~%3A") (RegisteredName (codes "h")) 80 }
{}

/// Being within a domain: each host is within itself, and within what a domain that it is within is
/// within. Equal hosts are within the same hosts, and the same hosts are within them. Two hosts are
/// of one kind if one is within the other, and equal if one of them hides an address or has escapes.
/// The labels of a name end with those of each domain that it is within, and the bytes of its canonical spelling,
/// apart from a dot at the end, with a dot and the domain's.
pub fn within_domains()
    ensures itself { (h : Host) → IsWithin h h }
    ensures again { (g h d : Host) → IsWithin g h → IsWithin h d → IsWithin g d }
    ensures equals { (g h c d : Host) → host.key g ≡ host.key h → host.key c ≡ host.key d → IsWithin g c → IsWithin h d }
    ensures kinds { (h d : Host) → IsWithin h d → host.kind h ≡ host.kind d }
    ensures hidden { (h d : Host) → (hides_address h ≡ true) ⊎ (hides_address d ≡ true) → IsWithin h d → host.key h ≡ host.key d }
    ensures escaped { (h d : Host) → (has_escapes h ≡ true) ⊎ (has_escapes d ≡ true) → IsWithin h d → host.key h ≡ host.key d }
    ensures labels { (h d : Host) → host.kind d ≡ host.Kind.Name → IsWithin h d → (front : List (List ℕ)) × (labels (host.canonical_text h) ≡ front ++ labels (host.canonical_text d)) }
    ensures bytes { (h d : Host) → IsWithin h d → (host.key h ≡ host.key d) ⊎ EndsWithName (without_end_dot (host.canonical_text h)) (without_end_dot (host.canonical_text d)) }
{}

/// Names within domains, and names that only look so. All are in canonical spelling.
pub fn examples_of_names_within()
    ensures below { IsNameWithin (codes "www.example.com") (codes "example.com") }
    ensures itself { IsNameWithin (codes "example.com") (codes "example.com") }
    ensures dot_at_the_end { IsNameWithin (codes "www.example.com.") (codes "example.com") }
    ensures dot_after_the_domain { IsNameWithin (codes "www.example.com") (codes "example.com.") }
    ensures sub_delimiter { IsNameWithin (codes "a;b.example.com") (codes "example.com") }
    ensures no_dot { IsNameWithin (codes "evilexample.com") (codes "example.com") → ⊥ }
    ensures in_front { IsNameWithin (codes "example.com.evil.org") (codes "example.com") → ⊥ }
    ensures above { IsNameWithin (codes "com") (codes "example.com") → ⊥ }
    ensures empty_label { IsNameWithin (codes "a..example.com") (codes "example.com") → ⊥ }
    ensures empty_first_label { IsNameWithin (codes ".example.com") (codes "example.com") → ⊥ }
    ensures address { IsNameWithin (codes "1.2.3.4") (codes "3.4") → ⊥ }
    ensures escaped_slash { IsNameWithin (codes "evil.org%2F.example.com") (codes "example.com") → ⊥ }
    ensures escaped_nul { IsNameWithin (codes "evil.org%00.example.com") (codes "example.com") → ⊥ }
    ensures escaped_domain { IsNameWithin (codes "a.%2F.com") (codes "%2F.com") → ⊥ }
{}

/// Names that readers may take for something else: hidden addresses, numbers, names with escapes.
#[tactic(auto, unfolding(uriparse_text::specs::Address::ipv4_reading, std::specs::Net::Reader::read_ipv4, std::specs::Net::Reader::read_octet, std::specs::Net::Reader::read_number, uriparse_text::specs::Canonical::canonical_in, uriparse_text::specs::Tokens::tokens, uriparse_text::specs::Bytes::is_unreserved))]
pub fn examples_of_taken_names()
    ensures hidden { hides_address (RegisteredName (codes "%31.2.3.4")) ≡ true }
    ensures hidden_with_a_dot { hides_address (RegisteredName (codes "%31.2.3.4.")) ≡ false }
    ensures not_hidden { hides_address (IPv4Address (1 ∷ 2 ∷ 3 ∷ 4 ∷ [])) ≡ false }
    ensures number { may_be_numeric (RegisteredName (codes "2130706433")) ≡ true }
    ensures hexadecimal { may_be_numeric (RegisteredName (codes "0x7f.1")) ≡ true }
    ensures escaped_digit { may_be_numeric (RegisteredName (codes "127.%31")) ≡ true }
    ensures dot_at_the_end { may_be_numeric (RegisteredName (codes "127.1.")) ≡ true }
    ensures name { may_be_numeric (RegisteredName (codes "1.example.com")) ≡ false }
    ensures address { may_be_numeric (IPv4Address (127 ∷ 0 ∷ 0 ∷ 1 ∷ [])) ≡ false }
    ensures full_width { may_be_numeric (RegisteredName (codes "127.0.0.%EF%BC%91")) ≡ false }
    ensures full_width_escapes { has_escapes (RegisteredName (codes "127.0.0.%EF%BC%91")) ≡ true }
    ensures delimiter { has_escapes (RegisteredName (codes "evil.org%2f.example.com")) ≡ true }
    ensures percent { has_escapes (RegisteredName (codes "a%2541")) ≡ true }
    ensures unreserved { has_escapes (RegisteredName (codes "www.%65xample%2Ecom")) ≡ false }
    ensures no_name { has_escapes (IPvFuture (codes "v1.a")) ≡ false }
{}

/// Public hosts. A host that is an address is public exactly if the address is global. A public name
/// isn't empty, has no escapes, hides no address and isn't numeric. An address of a later version isn't
/// public. Equal hosts are both public or neither is. A public host stays public in canonical spelling, and
/// the canonical spelling reads as the same host, and not as an address that was hidden.
pub fn public_hosts()
    ensures is_address { (h : Host) (a : IpAddr) → (address_of h ≡ Some a) ↔ (h ≡ host.host_at a) }
    ensures address { (a : IpAddr) → IsPublic (host.host_at a) ↔ (ip_reach a ≡ Global) }
    ensures name { (n : List ℕ) → IsPublic (RegisteredName n) → IsPublicName (RegisteredName n) }
    ensures later_version { (f : List ℕ) → IsPublic (IPvFuture f) → ⊥ }
    ensures equals { (g h : Host) → host.Valid g → host.Valid h → host.key g ≡ host.key h → IsPublic g → IsPublic h }
    ensures normal { (h : Host) → host.Valid h → IsPublic h → IsPublic (canonical_host h) }
    ensures back { (h : Host) → host.Valid h → IsPublic h → host.reading (host.canonical_text h) ≡ Ok (canonical_host h) }
{}

/// Hosts that are public, and hosts that are not. The last clauses show that the premises of the laws are
/// needed: a name that is not valid, and octets that are no address.
#[tactic(auto, unfolding(uriparse_text::specs::Reach::ipv4_reach, uriparse_text::specs::Reach::ipv4_rows, uriparse_text::specs::Reach::ipv6_reach, uriparse_text::specs::Reach::ipv6_rows, uriparse_text::specs::Address::ipv4_reading, std::specs::Net::Reader::read_ipv4, std::specs::Net::Reader::read_octet, std::specs::Net::Reader::read_number, uriparse_text::specs::Canonical::canonical_in, uriparse_text::specs::Tokens::tokens, uriparse_text::specs::Bytes::is_unreserved, uriparse_text::specs::Bytes::is_sub_delim, uriparse_text::specs::Classes::is_plain, uriparse_text::specs::Faults::fault))]
pub fn examples_of_public_hosts()
    ensures address { IsPublic (IPv4Address (8 ∷ 8 ∷ 8 ∷ 8 ∷ [])) }
    ensures later_address { IsPublic (IPv6Address (0x2606 ∷ 0x4700 ∷ 0x4700 ∷ 0 ∷ 0 ∷ 0 ∷ 0 ∷ 0x1111 ∷ [])) }
    ensures translated { IsPublic (IPv6Address (0x64 ∷ 0xff9b ∷ 0 ∷ 0 ∷ 0 ∷ 0 ∷ 0x808 ∷ 0x808 ∷ [])) }
    ensures name { IsPublic (RegisteredName (codes "example.com")) }
    ensures unreserved { IsPublic (RegisteredName (codes "www.%65xample.com.")) }
    ensures localhost { IsPublic (RegisteredName (codes "localhost")) }
    ensures loopback { IsPublic (IPv4Address (127 ∷ 0 ∷ 0 ∷ 1 ∷ [])) → ⊥ }
    ensures mapped { IsPublic (IPv6Address (0 ∷ 0 ∷ 0 ∷ 0 ∷ 0 ∷ 0xffff ∷ 0xa00 ∷ 1 ∷ [])) → ⊥ }
    ensures translated_private { IsPublic (IPv6Address (0x64 ∷ 0xff9b ∷ 0 ∷ 0 ∷ 0 ∷ 0 ∷ 0xa00 ∷ 1 ∷ [])) → ⊥ }
    ensures tunnelled { IsPublic (IPv6Address (0x2002 ∷ 0x7f00 ∷ 1 ∷ 0 ∷ 0 ∷ 0 ∷ 0 ∷ 0 ∷ [])) → ⊥ }
    ensures link_local { IsPublic (IPv6Address (0xfe80 ∷ 0 ∷ 0 ∷ 0 ∷ 0 ∷ 0 ∷ 0 ∷ 1 ∷ [])) → ⊥ }
    ensures later_version { IsPublic (IPvFuture (codes "v1.a")) → ⊥ }
    ensures empty { IsPublic (RegisteredName []) → ⊥ }
    ensures hidden { IsPublic (RegisteredName (codes "%31.2.3.4")) → ⊥ }
    ensures hidden_global { IsPublic (RegisteredName (codes "%38.8.8.8")) → ⊥ }
    ensures hexadecimal { IsPublic (RegisteredName (codes "0x7f.1")) → ⊥ }
    ensures number { IsPublic (RegisteredName (codes "2130706433")) → ⊥ }
    ensures dot_at_the_end { IsPublic (RegisteredName (codes "127.0.0.1.")) → ⊥ }
    ensures escape { IsPublic (RegisteredName (codes "a%2Fb")) → ⊥ }
    ensures space { IsPublic (RegisteredName (codes "a b")) }
    ensures space_is_rejected { host.reading (codes "a b") ≡ Err host_errors.InvalidIPv4OrRegisteredNameCharacter }
    ensures no_octets { IsPublic (IPv4Address []) }
    ensures four_octets { IsPublic (IPv4Address (0 ∷ 0 ∷ 0 ∷ 0 ∷ [])) → ⊥ }
    ensures one_text { host.key (IPv4Address []) ≡ host.key (IPv4Address (0 ∷ 0 ∷ 0 ∷ 0 ∷ [])) }
{}
