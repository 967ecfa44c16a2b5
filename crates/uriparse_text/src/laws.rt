//! Laws of the definitions that contracts cite. Each function does nothing: its contract is the
//! law.
ghost use Rattle.std.specs.Prelude.{◌≡◌, ◌==◌, ◌↔◌, ◌<◌, ◌∷◌, ◌++◌, ℕ, List, [], Option, Result, Ok, Err, Some, None, true, false, flat_map, length, map, not, codes, drop, take, slice_get};
ghost use Rattle.std.specs.Char.{is_ascii_whitespace};
ghost use Rattle.std.specs.List.{Contains, ends_with, filter, find, list_all, list_any};
ghost use Rattle.std.specs.Net.Addr.{octets_of};
ghost use Rattle.std.specs.List.Sorted.{IsPermutation, IsSortedBy};
ghost use Rattle.uriparse_text.specs.declared.internal.token.Token.{Token};
ghost use Rattle.uriparse_text.specs.declared.internal.class.Class.{Class};
ghost use Rattle.uriparse_text.specs.declared.internal.class.Class.TheVariants as class;
ghost use Rattle.uriparse_text.specs.declared.internal.token.Case.{Case};
ghost use Rattle.uriparse_text.specs.declared.internal.token.Case.TheVariants as case;
ghost use Rattle.uriparse_text.specs.Ambiguous.{is_ambiguous};
ghost use Rattle.uriparse_text.specs.Bytes.{asterisk, is_among, left_bracket, right_bracket};
ghost use Rattle.uriparse_text.specs.Tokens.{is_well_formed, spell, IsConcatenation};
ghost use Rattle.uriparse_text.specs.Faults.{fault, IsIn, IsOfClass, HasFaultAt};
ghost use Rattle.uriparse_text.specs.Offset.{fault_offset};
ghost use Rattle.uriparse_text.specs.Canonical.{canonical_token, canonical_in, fed_bytes};
ghost use Rattle.uriparse_text.specs.Coding.{are_bytes, decoded, encoded, escaped_in, form_decoded};
ghost use Rattle.uriparse_text.specs.Cuts.{lacks, none_pass};
ghost use Rattle.uriparse_text.specs.Link.{in_brackets, less_than, link, trimmed};
ghost use Rattle.uriparse_text.specs.Pairs.{Pair, are_pair_bytes, decoded_pair, encoded_in_pair, encoded_pair, form_decoded_pair, has_less_name, is_among_names, is_named, joined_pairs, pairs, sorted_pairs, with_appended, with_pair, without_empty_end, without_name, without_names};
ghost use Rattle.uriparse_text.specs.Starts.{Writes, too_small};
ghost use Rattle.uriparse_text.specs.declared.internal.forward_buffer.TooSmall.{TooSmall};
ghost use Rattle.uriparse_text.specs.Address.{IsOctets, IsSegments, SpellsIpv4, SpellsIpv6, ipv4_text, ipv6_text, ipv4_reading, ipv6_reading, IsPrintedIpv6, is_ipv4_byte, is_ipv6_byte};
ghost use Rattle.uriparse_text.specs.Reach.{IsLongest, Row, are_distinct, ipv4_reach, ipv4_rows, inverted, ipv6_reach, ipv6_rows, is_in, reach_of, row_of};
ghost use Rattle.uriparse_text.specs.declared.address.reach.Reach.TheVariants as reach;

/// A text has no fault exactly if it is a concatenation of tokens of the class; else its fault is
/// at the least place where no such token begins.
pub fn one_leftmost_fault()
    ensures class { (class : Class) (text : List ℕ) → IsIn class text ↔ IsOfClass class text }
    ensures none { (class : Class) (text : List ℕ) → (fault class text ≡ None) ↔ IsOfClass class text }
    ensures offset { (class : Class) (text : List ℕ) (byte : ℕ) → (fault class text ≡ Some byte) ↔ HasFaultAt class text byte }
{}

/// The fault is the byte's at its place, and what precedes this place has none.
pub fn one_offset_of_fault()
    ensures byte { (class : Class) (text : List ℕ) → fault class text ≡ slice_get (drop (fault_offset class text) text) 0 }
    ensures before { (class : Class) (text : List ℕ) → fault class (take (fault_offset class text) text) ≡ None }
    ensures within { (class : Class) (text : List ℕ) (byte : ℕ) → fault class text ≡ Some byte → fault_offset class text < length text }
{}

/// A text is well formed exactly if it is a concatenation of tokens, which are then unique.
pub fn one_list_of_tokens()
    ensures some { (text : List ℕ) → (is_well_formed text ≡ true) ↔ ((ts : List Token) × IsConcatenation ts text) }
    ensures one { (text : List ℕ) (ts us : List Token) → IsConcatenation ts text → IsConcatenation us text → ts ≡ us }
{}

/// The canonical spelling of a concatenation of tokens is its tokens'; it is in the classes
/// of its text, and its own canonical spelling.
pub fn one_canonical_spelling()
    ensures tokens { (case : Case) (ts : List Token) (text : List ℕ) → IsConcatenation ts text → canonical_in case text ≡ flat_map (λ t. spell (canonical_token case t)) ts }
    ensures border { (case : Case) (front rest : List ℕ) → is_well_formed front ≡ true → canonical_in case (front ++ rest) ≡ canonical_in case front ++ canonical_in case rest }
    ensures twice { (case : Case) (text : List ℕ) → is_well_formed text ≡ true → canonical_in case (canonical_in case text) ≡ canonical_in case text }
    ensures class { (class : Class) (case : Case) (text : List ℕ) → IsIn class text → IsIn class (canonical_in case text) }
{}

/// What a hasher is fed for a list of bytes: blocks of 64, and then the remaining bytes, which may
/// be none.
pub fn one_list_of_writes()
    ensures { (blocks : List (List ℕ)) (last : List ℕ) → list_all (λ b. length b == 64) blocks ≡ true → length last < 64 → fed_bytes (flat_map (λ b. b) blocks ++ last) ≡ blocks ++ last ∷ [] }
{}

/// The reading of a text is the address that it spells by the grammar, if it spells one.
pub fn exact_address_readings()
    ensures ipv4 { (text a : List ℕ) → (ipv4_reading text ≡ Some a) ↔ SpellsIpv4 text a }
    ensures ipv6 { (text a : List ℕ) → (ipv6_reading text ≡ Some a) ↔ SpellsIpv6 text a }
{}

/// No text spells two addresses, of one kind or of both.
pub fn one_address()
    ensures ipv4 { (text a b : List ℕ) → SpellsIpv4 text a → SpellsIpv4 text b → a ≡ b }
    ensures ipv6 { (text a b : List ℕ) → SpellsIpv6 text a → SpellsIpv6 text b → a ≡ b }
    ensures kinds { (text a b : List ℕ) → SpellsIpv4 text a → ¬ (SpellsIpv6 text b) }
{}

/// The bytes that the spellings of addresses are made of. They contain no other byte, and an IPv4
/// address also has the form of a registered name.
pub fn spelled_bytes()
    ensures ipv4 { (text a : List ℕ) → SpellsIpv4 text a → list_all is_ipv4_byte text ≡ true }
    ensures ipv6 { (text a : List ℕ) → SpellsIpv6 text a → list_all is_ipv6_byte text ≡ true }
    ensures ipv4_lacks { (text a : List ℕ) → SpellsIpv4 text a → (b : ℕ) → is_ipv4_byte b ≡ false → lacks b text ≡ true }
    ensures ipv6_lacks { (text a : List ℕ) → SpellsIpv6 text a → (b : ℕ) → is_ipv6_byte b ≡ false → lacks b text ≡ true }
    ensures name { (text a : List ℕ) → SpellsIpv4 text a → IsIn class.Name text }
{}

/// The printed text of an address is one of its spellings, of an IPv4 address the only one, of an
/// IPv6 address the one that RFC 5952 recommends.
pub fn printed_spells()
    ensures ipv4 { (a : List ℕ) → IsOctets a → SpellsIpv4 (ipv4_text a) a }
    ensures ipv4_alone { (text a : List ℕ) → SpellsIpv4 text a → IsOctets a × (text ≡ ipv4_text a) }
    ensures ipv6 { (a : List ℕ) → IsSegments a → SpellsIpv6 (ipv6_text a) a }
    ensures form { (a : List ℕ) → IsPrintedIpv6 a (ipv6_text a) }
{}

/// Addresses with the same printed text are equal, and of one kind.
pub fn one_printed_text()
    ensures ipv4 { (a b : List ℕ) → IsOctets a → IsOctets b → ipv4_text a ≡ ipv4_text b → a ≡ b }
    ensures ipv6 { (a b : List ℕ) → IsSegments a → IsSegments b → ipv6_text a ≡ ipv6_text b → a ≡ b }
    ensures kinds { (a b : List ℕ) → IsOctets a → IsSegments b → ¬ (ipv4_text a ≡ ipv6_text b) }
{}

/// The printed text of an address is its own canonical spelling. So is an IPv6 address's in
/// brackets.
pub fn printed_is_canonical()
    ensures ipv4 { (case : Case) (a : List ℕ) → IsOctets a → canonical_in case (ipv4_text a) ≡ ipv4_text a }
    ensures ipv6 { (case : Case) (a : List ℕ) → IsSegments a → canonical_in case (ipv6_text a) ≡ ipv6_text a }
    ensures bracketed { (case : Case) (a : List ℕ) → IsSegments a → canonical_in case (left_bracket ∷ ipv6_text a ++ right_bracket ∷ []) ≡ left_bracket ∷ ipv6_text a ++ right_bracket ∷ [] }
{}

/// Any text becomes one of the class once the bytes that may not stand there are escaped, if the
/// class alone says which may. A text of the class stays, each text represents the same bytes as
/// before, and escaping again changes nothing.
pub fn one_escaping()
    ensures class { (class : Class) (more text : List ℕ) → list_all (λ b. not (is_among more b)) text ≡ true → IsIn class (escaped_in class more text) }
    ensures kept { (class : Class) (more text : List ℕ) → IsIn class text → escaped_in class more text ≡ text }
    ensures bytes { (class : Class) (more text : List ℕ) → are_bytes text ≡ true → decoded (escaped_in class more text) ≡ decoded text }
    ensures twice { (class : Class) (more text : List ℕ) → escaped_in class more (escaped_in class more text) ≡ escaped_in class more text }
{}

/// The text that bytes are written as is of the class and its own canonical spelling, and stands for
/// these bytes; so does what a buffer begins with once that text is written there.
pub fn one_encoding()
    ensures class { (class : Class) (bytes : List ℕ) → are_bytes bytes ≡ true → IsIn class (encoded class bytes) }
    ensures back { (class : Class) (bytes : List ℕ) → are_bytes bytes ≡ true → decoded (encoded class bytes) ≡ bytes }
    ensures written { (class : Class) (bytes old new : List ℕ) (n : ℕ) → are_bytes bytes ≡ true → Writes (encoded class bytes) (Ok n) old new → decoded (take n new) ≡ bytes }
    ensures canonical { (class : Class) (bytes : List ℕ) → are_bytes bytes ≡ true → canonical_in case.Kept (encoded class bytes) ≡ encoded class bytes }
{}

/// What a text of a class is made of and what it stands for are bytes, so the premises of other laws
/// hold of them.
pub fn texts_are_bytes()
    ensures text { (class : Class) (text : List ℕ) → IsIn class text → are_bytes text ≡ true }
    ensures decoded { (class : Class) (text : List ℕ) → IsIn class text → are_bytes (decoded text) ≡ true }
    ensures form { (class : Class) (text : List ℕ) → IsIn class text → are_bytes (form_decoded text) ≡ true }
{}

/// The pieces of a query, joined, are the query again. The pairs of a query that was made of pairs
/// are these, each escaped and, decoded, as they were; decoded as a form's too.
pub fn one_list_of_pairs()
    ensures joined { (q : List ℕ) → joined_pairs (pairs q) ≡ q }
    ensures encoded { (ps : List Pair) → 0 < length ps → pairs (joined_pairs (map encoded_pair ps)) ≡ map encoded_pair ps }
    ensures decoded { (ps : List Pair) → 0 < length ps → list_all are_pair_bytes ps ≡ true → map decoded_pair (pairs (joined_pairs (map encoded_pair ps))) ≡ ps }
    ensures form { (ps : List Pair) → 0 < length ps → list_all are_pair_bytes ps ≡ true → map form_decoded_pair (pairs (joined_pairs (map encoded_pair ps))) ≡ ps }
    ensures form_text { (bytes : List ℕ) → are_bytes bytes ≡ true → form_decoded (encoded_in_pair bytes) ≡ bytes }
{}

/// Once a pair of a name is set, it is the only one of the name. The others are as before if there was
/// one of the name; else the pair follows them, in the place of an empty piece at the end. Setting it
/// again changes nothing.
pub fn one_pair_of_a_name()
    ensures one { (name : List ℕ) (new : Pair) (ps : List Pair) → is_named name new ≡ true → filter (is_named name) (with_pair name new ps) ≡ new ∷ [] }
    ensures others { (name : List ℕ) (new : Pair) (ps : List Pair) → is_named name new ≡ true → list_any (is_named name) ps ≡ true → without_name name (with_pair name new ps) ≡ without_name name ps }
    ensures last { (name : List ℕ) (new : Pair) (ps : List Pair) → list_any (is_named name) ps ≡ false → with_pair name new ps ≡ without_empty_end ps ++ new ∷ [] }
    ensures twice { (name : List ℕ) (new : Pair) (ps : List Pair) → is_named name new ≡ true → with_pair name new (with_pair name new ps) ≡ with_pair name new ps }
{}

/// Once the pairs of a name are left out, there is none of the name, and leaving them out again
/// changes nothing. Pairs of which none has the name stay, and setting a pair of a name that is there
/// first makes no difference.
pub fn no_pair_of_a_name()
    ensures none { (name : List ℕ) (ps : List Pair) → filter (is_named name) (without_name name ps) ≡ [] }
    ensures twice { (name : List ℕ) (ps : List Pair) → without_name name (without_name name ps) ≡ without_name name ps }
    ensures kept { (name : List ℕ) (ps : List Pair) → filter (is_named name) ps ≡ [] → without_name name ps ≡ ps }
    ensures set { (name : List ℕ) (new : Pair) (ps : List Pair) → is_named name new ≡ true → list_any (is_named name) ps ≡ true → without_name name (with_pair name new ps) ≡ without_name name ps }
{}

/// Once a pair of a name is set, it is the one that is found. A pair of a name that is not there is
/// appended.
pub fn one_pair_found()
    ensures set { (name : List ℕ) (new : Pair) (ps : List Pair) → is_named name new ≡ true → find (is_named name) (with_pair name new ps) ≡ Some new }
    ensures appended { (name : List ℕ) (new : Pair) (ps : List Pair) → list_any (is_named name) ps ≡ false → with_pair name new ps ≡ with_appended new ps }
{}

/// Once the pairs of some names are left out, there is none of these names, and leaving them out again
/// changes nothing. One name that doesn't end in `*` leaves out the pairs of that name alone, and so
/// does one that is encoded for a pair, whatever its bytes are.
pub fn no_pair_of_several_names()
    ensures none { (names ps : List Pair) → filter (is_among_names names) (without_names names ps) ≡ [] }
    ensures twice { (names ps : List Pair) → without_names names (without_names names ps) ≡ without_names names ps }
    ensures one { (n : Pair) (ps : List Pair) → ends_with (λ b c. b == c) n.0 (asterisk ∷ []) ≡ false → without_names (n ∷ []) ps ≡ without_name (decoded n.0) ps }
    ensures encoded { (name : List ℕ) (o : Option (List ℕ)) (ps : List Pair) → are_bytes name ≡ true → without_names ((encoded_in_pair name, o) ∷ []) ps ≡ without_name name ps }
{}

/// What is written to a buffer, and what is reported, is determined by the text and the buffer.
pub fn one_writing()
    ensures result { (t old new other : List ℕ) (r s : Result ℕ TooSmall) → length new ≡ length old → length other ≡ length old → Writes t r old new → Writes t s old other → r ≡ s }
    ensures buffer { (t old new other : List ℕ) (r s : Result ℕ TooSmall) → length new ≡ length old → length other ≡ length old → Writes t r old new → Writes t s old other → new ≡ other }
{}

/// Texts in buffers: one with room left, one that fills it, and one that is too long.
pub fn examples_of_writing()
    ensures room { Writes (codes "ab") (Ok 2) (codes "wxyz") (codes "abyz") }
    ensures filled { Writes (codes "ab") (Ok 2) (codes "yz") (codes "ab") }
    ensures nothing { Writes [] (Ok 0) [] [] }
    ensures too_small { Writes (codes "abc") (Err (too_small 3)) (codes "yz") (codes "yz") }
{}

/// Sorted pairs are the same ones, with ascending names, and the pairs of one name in the order
/// that they had. No other list is.
pub fn one_order_of_pairs()
    ensures same { (ps : List Pair) → IsPermutation ps (sorted_pairs ps) }
    ensures ascending { (ps : List Pair) → IsSortedBy has_less_name (sorted_pairs ps) }
    ensures stable { (name : List ℕ) (ps : List Pair) → filter (is_named name) (sorted_pairs ps) ≡ filter (is_named name) ps }
    ensures one { (ps qs : List Pair) → IsSortedBy has_less_name qs → ((name : List ℕ) → filter (is_named name) qs ≡ filter (is_named name) ps) → qs ≡ sorted_pairs ps }
{}

/// Queries and their pairs.
#[tactic(auto, unfolding(crate::specs::Coding::decoded, crate::specs::Tokens::tokens, crate::specs::Classes::is_plain, crate::specs::Bytes::is_unreserved, crate::specs::Bytes::is_sub_delim))]
pub fn examples_of_pairs()
    ensures three { pairs (codes "a=1&b=%26=&c") ≡ (codes "a", Some (codes "1")) ∷ (codes "b", Some (codes "%26=")) ∷ (codes "c", None) ∷ [] }
    ensures empty { pairs [] ≡ ([], None) ∷ [] }
    ensures empties { pairs (codes "&=") ≡ ([], None) ∷ ([], Some []) ∷ [] }
    ensures made { joined_pairs (map encoded_pair ((codes "a b", Some (codes "&=+#%")) ∷ (codes "c", None) ∷ [])) ≡ codes "a%20b=%26%3D%2B%23%25&c" }
    ensures plus { decoded (codes "a+b%2Bc%20d") ≡ codes "a+b+c d" }
    ensures set { with_pair (codes "a") (codes "a", Some (codes "3")) (pairs (codes "b&%61=1&c=%2f&a=2")) ≡ pairs (codes "b&a=3&c=%2f") }
    ensures set_last { with_pair (codes "d") (codes "d", None) (pairs (codes "b&c=d")) ≡ pairs (codes "b&c=d&d") }
    ensures set_empty { with_pair [] ([], Some []) (pairs []) ≡ pairs (codes "=") }
    ensures set_alone { with_pair (codes "b") (codes "b", Some (codes "2")) (pairs []) ≡ pairs (codes "b=2") }
    ensures set_at_end { with_pair (codes "b") (codes "b", Some (codes "2")) (pairs (codes "a=1&&c&")) ≡ pairs (codes "a=1&&c&b=2") }
    ensures set_in_place { with_pair (codes "a") (codes "a", Some (codes "2")) (pairs (codes "a=1&")) ≡ pairs (codes "a=2&") }
    ensures set_after_value { with_pair (codes "b") (codes "b", None) (pairs (codes "a&=")) ≡ pairs (codes "a&=&b") }
    ensures without { without_name (codes "a") (pairs (codes "a=1&%61&b=%2f&A=a")) ≡ pairs (codes "b=%2f&A=a") }
    ensures found { find (is_named (codes "a")) (pairs (codes "b&%61=1&a=2")) ≡ Some (codes "%61", Some (codes "1")) }
    ensures not_found { find (is_named (codes "A")) (pairs (codes "a&b=A")) ≡ None }
    ensures appended { with_appended (codes "a", Some (codes "2")) (pairs (codes "a=1&%61")) ≡ pairs (codes "a=1&%61&a=2") }
    ensures appended_alone { with_appended (codes "a", None) (pairs []) ≡ pairs (codes "a") }
    ensures appended_at_end { with_appended (codes "b", Some []) (pairs (codes "a=1&&")) ≡ pairs (codes "a=1&&b=") }
    ensures without_names { without_names (pairs (codes "utm_*&gclid=1")) (pairs (codes "%75tm_id=1&q=b%20c&gclid&utm&z")) ≡ pairs (codes "q=b%20c&utm&z") }
    ensures encoded_star { without_names (pairs (encoded_in_pair (codes "a*"))) (pairs (codes "a*&ab&%61%2a=1")) ≡ pairs (codes "ab") }
    ensures escaped_star { without_names (pairs (codes "a%2A")) (pairs (codes "a*&ab&%61%2a=1")) ≡ pairs (codes "ab") }
    ensures escaped_prefix { without_names (pairs (codes "%75*=v")) (pairs (codes "u&%75b=1&v=u")) ≡ pairs (codes "v=u") }
    ensures no_name { without_names (pairs []) (pairs (codes "a&=1&")) ≡ pairs (codes "a") }
    ensures each_name { without_names (pairs (codes "*")) (pairs (codes "a&=1&")) ≡ [] }
    ensures sorted { sorted_pairs (pairs (codes "z=1&b=2&a&%62=1&ab&")) ≡ pairs (codes "&a&ab&b=2&%62=1&z=1") }
    ensures sorted_case { sorted_pairs (pairs (codes "a=2&B&%C3%A4&a=1&+")) ≡ pairs (codes "+&B&a=2&a=1&%C3%A4") }
    ensures form { form_decoded (codes "a+b%2Bc%20d") ≡ codes "a b+c d" }
{}

/// A text with neither white space nor `<` is its own link. A link has no white space at its ends,
/// and is its own link unless it stands in brackets.
pub fn one_link()
    ensures kept { (t : List ℕ) → none_pass is_ascii_whitespace t ≡ true → lacks less_than t ≡ true → link t ≡ t }
    ensures trimmed { (t : List ℕ) → trimmed (link t) ≡ link t }
    ensures twice { (t : List ℕ) → in_brackets (link t) ≡ None → link (link t) ≡ link t }
{}

/// Links in running text: three of appendix C, of which the second keeps its line break, and others.
pub fn examples_of_links()
    ensures brackets { link (codes "<http://www.ics.uci.edu/pub/ietf/uri/historical.html#WARNING>") ≡ codes "http://www.ics.uci.edu/pub/ietf/uri/historical.html#WARNING" }
    ensures line_break { link (codes "<ftp://foo.example." ++ 10 ∷ codes "com/rfc/>") ≡ codes "ftp://foo.example." ++ 10 ∷ codes "com/rfc/" }
    ensures quotes { link (34 ∷ codes "http://www.w3.org/Addressing/" ++ 34 ∷ []) ≡ 34 ∷ codes "http://www.w3.org/Addressing/" ++ 34 ∷ [] }
    ensures white_space { link (32 ∷ 9 ∷ codes "http://a/b c" ++ 13 ∷ 10 ∷ 12 ∷ []) ≡ codes "http://a/b c" }
    ensures vertical_tab { link (11 ∷ codes "a") ≡ 11 ∷ codes "a" }
    ensures label { link (codes " < url: http://a/ > ") ≡ codes "http://a/" }
    ensures plain_label { link (codes "URL:http://a/") ≡ codes "URL:http://a/" }
    ensures two_labels { link (codes "<URL:URL:a>") ≡ codes "URL:a" }
    ensures left_alone { link (codes "<http://a/") ≡ codes "<http://a/" }
    ensures right_alone { link (codes "http://a/>") ≡ codes "http://a/>" }
    ensures two_pairs { link (codes "<<a>>") ≡ codes "<a>" }
    ensures nothing { link (codes "<>") ≡ [] }
    ensures one_bracket { link (codes "<") ≡ codes "<" }
    ensures empty { link [] ≡ [] }
{}

/// Where an address leads is decided by the longest prefix that it begins with, and by nothing if it
/// begins with none. No two rows of a table have the same prefix.
#[tactic(auto, unfolding(crate::specs::Reach::ipv4_rows, crate::specs::Reach::ipv6_rows))]
pub fn one_longest_prefix()
    ensures some { (width : ℕ) (rows : List Row) (a : List ℕ) (r : Row) → row_of width rows a ≡ Some r → IsLongest width rows a r }
    ensures none { (width : ℕ) (rows : List Row) (a : List ℕ) → row_of width rows a ≡ None → (s : Row) → Contains rows s → is_in width a s ≡ false }
    ensures ipv4 { are_distinct 8 ipv4_rows ≡ true }
    ensures ipv6 { are_distinct 16 ipv6_rows ≡ true }
{}

/// An IPv6 address that embeds an IPv4 address leads where that one does; but `::1` is the loopback
/// address and not `0.0.0.1`. A Teredo address is global exactly if both addresses in it are: the
/// server's, and the client's, which is inverted.
#[tactic(auto, unfolding(crate::specs::Reach::ipv6_reach, crate::specs::Reach::ipv6_rows))]
pub fn embedded_addresses()
    ensures mapped { (a b : ℕ) → ipv6_reach (0 ∷ 0 ∷ 0 ∷ 0 ∷ 0 ∷ 0xffff ∷ a ∷ b ∷ []) ≡ ipv4_reach (octets_of (a ∷ b ∷ [])) }
    ensures compatible { (a b : ℕ) → ((a ≡ 0) × (b ≡ 1) → ⊥) → ipv6_reach (0 ∷ 0 ∷ 0 ∷ 0 ∷ 0 ∷ 0 ∷ a ∷ b ∷ []) ≡ ipv4_reach (octets_of (a ∷ b ∷ [])) }
    ensures translated { (a b : ℕ) → ipv6_reach (0x64 ∷ 0xff9b ∷ 0 ∷ 0 ∷ 0 ∷ 0 ∷ a ∷ b ∷ []) ≡ ipv4_reach (octets_of (a ∷ b ∷ [])) }
    ensures tunnelled { (a b c d e f g : ℕ) → ipv6_reach (0x2002 ∷ a ∷ b ∷ c ∷ d ∷ e ∷ f ∷ g ∷ []) ≡ ipv4_reach (octets_of (a ∷ b ∷ [])) }
    ensures teredo { (a b c d e f : ℕ) → (ipv6_reach (0x2001 ∷ 0 ∷ a ∷ b ∷ c ∷ d ∷ e ∷ f ∷ []) ≡ reach.Global) ↔ ((ipv4_reach (octets_of (a ∷ b ∷ [])) ≡ reach.Global) × (ipv4_reach (inverted (octets_of (e ∷ f ∷ []))) ≡ reach.Global)) }
{}

/// Texts of addresses, and what they are read as.
#[tactic(auto, unfolding(crate::specs::Address::ipv4_reading, crate::specs::Address::ipv6_reading, std::specs::Net::Reader::read_ipv4, std::specs::Net::Reader::read_ipv6, std::specs::Net::Reader::read_octet, std::specs::Net::Reader::read_number, std::specs::Net::Reader::read_segment, std::specs::Net::Reader::read_segments))]
pub fn examples_of_addresses()
    ensures ipv4 { ipv4_reading (codes "1.2.3.255") ≡ Some (1 ∷ 2 ∷ 3 ∷ 255 ∷ []) }
    ensures large_octet { ipv4_reading (codes "1.2.3.256") ≡ None }
    ensures leading_zero { ipv4_reading (codes "01.2.3.4") ≡ None }
    ensures three_octets { ipv4_reading (codes "1.2.3") ≡ None }
    ensures ipv6 { ipv6_reading (codes "1::2:1.2.3.4") ≡ Some (1 ∷ 0 ∷ 0 ∷ 0 ∷ 0 ∷ 2 ∷ 258 ∷ 772 ∷ []) }
    ensures one_group_left_out { ipv6_reading (codes "1:2:3:4:5:6:7::") ≡ Some (1 ∷ 2 ∷ 3 ∷ 4 ∷ 5 ∷ 6 ∷ 7 ∷ 0 ∷ []) }
    ensures all_groups_left_out { ipv6_reading (codes "::") ≡ Some (0 ∷ 0 ∷ 0 ∷ 0 ∷ 0 ∷ 0 ∷ 0 ∷ 0 ∷ []) }
    ensures two_gaps { ipv6_reading (codes "1::2::3") ≡ None }
    ensures nine_groups { ipv6_reading (codes "1:2:3:4:5:6:7:8::") ≡ None }
    ensures five_digits { ipv6_reading (codes "12345::") ≡ None }
    ensures seven_groups { ipv6_reading (codes "1:2:3:4:5:6:7") ≡ None }
    ensures dotted_in_front { ipv6_reading (codes "1.2.3.4::") ≡ None }
    ensures dotted_leading_zero { ipv6_reading (codes "::01.2.3.4") ≡ None }
    ensures one_colon_in_front { ipv6_reading (codes ":1::2") ≡ None }
{}

/// Where IPv4 addresses lead: those before, at both ends of, and after each block of the registry.
#[tactic(auto, unfolding(crate::specs::Reach::ipv4_reach, crate::specs::Reach::ipv4_rows, crate::specs::Address::ipv4_reading, crate::specs::Address::ipv6_reading, std::specs::Net::Reader::read_ipv4, std::specs::Net::Reader::read_ipv6, std::specs::Net::Reader::read_octet, std::specs::Net::Reader::read_number, std::specs::Net::Reader::read_segment, std::specs::Net::Reader::read_segments))]
pub fn examples_of_ipv4_reach()
    ensures this_network { map reach_of (codes "0.0.0.0" ∷ codes "0.255.255.255" ∷ codes "1.0.0.0" ∷ []) ≡ map Some (reach.Unspecified ∷ reach.Reserved ∷ reach.Global ∷ []) }
    ensures this_host { map reach_of (codes "0.0.0.0" ∷ codes "0.0.0.1" ∷ []) ≡ map Some (reach.Unspecified ∷ reach.Reserved ∷ []) }
    ensures ten { map reach_of (codes "9.255.255.255" ∷ codes "10.0.0.0" ∷ codes "10.255.255.255" ∷ codes "11.0.0.0" ∷ []) ≡ map Some (reach.Global ∷ reach.Private ∷ reach.Private ∷ reach.Global ∷ []) }
    ensures shared { map reach_of (codes "100.63.255.255" ∷ codes "100.64.0.0" ∷ codes "100.127.255.255" ∷ codes "100.128.0.0" ∷ []) ≡ map Some (reach.Global ∷ reach.Shared ∷ reach.Shared ∷ reach.Global ∷ []) }
    ensures loopback { map reach_of (codes "126.255.255.255" ∷ codes "127.0.0.0" ∷ codes "127.255.255.255" ∷ codes "128.0.0.0" ∷ []) ≡ map Some (reach.Global ∷ reach.Loopback ∷ reach.Loopback ∷ reach.Global ∷ []) }
    ensures link_local { map reach_of (codes "169.253.255.255" ∷ codes "169.254.0.0" ∷ codes "169.254.255.255" ∷ codes "169.255.0.0" ∷ []) ≡ map Some (reach.Global ∷ reach.LinkLocal ∷ reach.LinkLocal ∷ reach.Global ∷ []) }
    ensures private { map reach_of (codes "172.15.255.255" ∷ codes "172.16.0.0" ∷ codes "172.31.255.255" ∷ codes "172.32.0.0" ∷ []) ≡ map Some (reach.Global ∷ reach.Private ∷ reach.Private ∷ reach.Global ∷ []) }
    ensures protocols { map reach_of (codes "191.255.255.255" ∷ codes "192.0.0.0" ∷ codes "192.0.0.255" ∷ codes "192.0.1.0" ∷ []) ≡ map Some (reach.Global ∷ reach.Reserved ∷ reach.Reserved ∷ reach.Global ∷ []) }
    ensures port_control { map reach_of (codes "192.0.0.8" ∷ codes "192.0.0.9" ∷ codes "192.0.0.10" ∷ []) ≡ map Some (reach.Reserved ∷ reach.Global ∷ reach.Global ∷ []) }
    ensures relays { map reach_of (codes "192.0.0.9" ∷ codes "192.0.0.10" ∷ codes "192.0.0.11" ∷ []) ≡ map Some (reach.Global ∷ reach.Global ∷ reach.Reserved ∷ []) }
    ensures test_net { map reach_of (codes "192.0.1.255" ∷ codes "192.0.2.0" ∷ codes "192.0.2.255" ∷ codes "192.0.3.0" ∷ []) ≡ map Some (reach.Global ∷ reach.Documentation ∷ reach.Documentation ∷ reach.Global ∷ []) }
    ensures private_home { map reach_of (codes "192.167.255.255" ∷ codes "192.168.0.0" ∷ codes "192.168.255.255" ∷ codes "192.169.0.0" ∷ []) ≡ map Some (reach.Global ∷ reach.Private ∷ reach.Private ∷ reach.Global ∷ []) }
    ensures benchmarking { map reach_of (codes "198.17.255.255" ∷ codes "198.18.0.0" ∷ codes "198.19.255.255" ∷ codes "198.20.0.0" ∷ []) ≡ map Some (reach.Global ∷ reach.Benchmarking ∷ reach.Benchmarking ∷ reach.Global ∷ []) }
    ensures test_net_2 { map reach_of (codes "198.51.99.255" ∷ codes "198.51.100.0" ∷ codes "198.51.100.255" ∷ codes "198.51.101.0" ∷ []) ≡ map Some (reach.Global ∷ reach.Documentation ∷ reach.Documentation ∷ reach.Global ∷ []) }
    ensures test_net_3 { map reach_of (codes "203.0.112.255" ∷ codes "203.0.113.0" ∷ codes "203.0.113.255" ∷ codes "203.0.114.0" ∷ []) ≡ map Some (reach.Global ∷ reach.Documentation ∷ reach.Documentation ∷ reach.Global ∷ []) }
    ensures multicast { map reach_of (codes "223.255.255.255" ∷ codes "224.0.0.0" ∷ codes "239.255.255.255" ∷ codes "240.0.0.0" ∷ []) ≡ map Some (reach.Global ∷ reach.Multicast ∷ reach.Multicast ∷ reach.Reserved ∷ []) }
    ensures future_use { map reach_of (codes "239.255.255.255" ∷ codes "240.0.0.0" ∷ codes "255.255.255.255" ∷ []) ≡ map Some (reach.Multicast ∷ reach.Reserved ∷ reach.Broadcast ∷ []) }
    ensures broadcast { map reach_of (codes "255.255.255.254" ∷ codes "255.255.255.255" ∷ []) ≡ map Some (reach.Reserved ∷ reach.Broadcast ∷ []) }
    ensures none { reach_of (codes "10.0.0") ≡ None }
{}

/// Where IPv6 addresses lead: those before, at both ends of, and after each block of the registry, and some that embed an IPv4
/// address.
#[tactic(auto, unfolding(crate::specs::Reach::ipv4_reach, crate::specs::Reach::ipv4_rows, crate::specs::Reach::ipv6_reach, crate::specs::Reach::ipv6_rows, crate::specs::Address::ipv4_reading, crate::specs::Address::ipv6_reading, std::specs::Net::Reader::read_ipv4, std::specs::Net::Reader::read_ipv6, std::specs::Net::Reader::read_octet, std::specs::Net::Reader::read_number, std::specs::Net::Reader::read_segment, std::specs::Net::Reader::read_segments))]
pub fn examples_of_ipv6_reach()
    ensures compatible { map reach_of (codes "::" ∷ codes "::ffff:ffff" ∷ codes "::1:0:0" ∷ []) ≡ map Some (reach.Unspecified ∷ reach.Broadcast ∷ reach.Global ∷ []) }
    ensures unspecified { map reach_of (codes "::" ∷ codes "::1" ∷ []) ≡ map Some (reach.Unspecified ∷ reach.Loopback ∷ []) }
    ensures loopback { map reach_of (codes "::" ∷ codes "::1" ∷ codes "::2" ∷ []) ≡ map Some (reach.Unspecified ∷ reach.Loopback ∷ reach.Reserved ∷ []) }
    ensures mapped { map reach_of (codes "::fffe:ffff:ffff" ∷ codes "::ffff:0.0.0.0" ∷ codes "::ffff:255.255.255.255" ∷ codes "::1:0:0:0" ∷ []) ≡ map Some (reach.Global ∷ reach.Unspecified ∷ reach.Broadcast ∷ reach.Global ∷ []) }
    ensures translation { map reach_of (codes "64:ff9a:ffff:ffff:ffff:ffff:ffff:ffff" ∷ codes "64:ff9b::" ∷ codes "64:ff9b::ffff:ffff" ∷ codes "64:ff9b::1:0:0" ∷ []) ≡ map Some (reach.Global ∷ reach.Unspecified ∷ reach.Broadcast ∷ reach.Global ∷ []) }
    ensures local_translation { map reach_of (codes "64:ff9b:0:ffff:ffff:ffff:ffff:ffff" ∷ codes "64:ff9b:1::" ∷ codes "64:ff9b:1:ffff:ffff:ffff:ffff:ffff" ∷ codes "64:ff9b:2::" ∷ []) ≡ map Some (reach.Global ∷ reach.Private ∷ reach.Private ∷ reach.Global ∷ []) }
    ensures discard { map reach_of (codes "ff:ffff:ffff:ffff:ffff:ffff:ffff:ffff" ∷ codes "100::" ∷ codes "100::ffff:ffff:ffff:ffff" ∷ codes "100:0:0:1::" ∷ []) ≡ map Some (reach.Global ∷ reach.Reserved ∷ reach.Reserved ∷ reach.Reserved ∷ []) }
    ensures dummy { map reach_of (codes "100::ffff:ffff:ffff:ffff" ∷ codes "100:0:0:1::" ∷ codes "100::1:ffff:ffff:ffff:ffff" ∷ codes "100:0:0:2::" ∷ []) ≡ map Some (reach.Reserved ∷ reach.Reserved ∷ reach.Reserved ∷ reach.Global ∷ []) }
    ensures protocols { map reach_of (codes "2000:ffff:ffff:ffff:ffff:ffff:ffff:ffff" ∷ codes "2001::" ∷ codes "2001:1ff:ffff:ffff:ffff:ffff:ffff:ffff" ∷ codes "2001:200::" ∷ []) ≡ map Some (reach.Global ∷ reach.Broadcast ∷ reach.Reserved ∷ reach.Global ∷ []) }
    ensures teredo { map reach_of (codes "2000:ffff:ffff:ffff:ffff:ffff:ffff:ffff" ∷ codes "2001::" ∷ codes "2001:0:ffff:ffff:ffff:ffff:ffff:ffff" ∷ codes "2001:1::" ∷ []) ≡ map Some (reach.Global ∷ reach.Broadcast ∷ reach.Unspecified ∷ reach.Reserved ∷ []) }
    ensures port_control { map reach_of (codes "2001:1::" ∷ codes "2001:1::1" ∷ codes "2001:1::2" ∷ []) ≡ map Some (reach.Reserved ∷ reach.Global ∷ reach.Global ∷ []) }
    ensures relays { map reach_of (codes "2001:1::1" ∷ codes "2001:1::2" ∷ codes "2001:1::3" ∷ []) ≡ map Some (reach.Global ∷ reach.Global ∷ reach.Global ∷ []) }
    ensures registration { map reach_of (codes "2001:1::2" ∷ codes "2001:1::3" ∷ codes "2001:1::4" ∷ []) ≡ map Some (reach.Global ∷ reach.Global ∷ reach.Reserved ∷ []) }
    ensures benchmarking { map reach_of (codes "2001:1:ffff:ffff:ffff:ffff:ffff:ffff" ∷ codes "2001:2::" ∷ codes "2001:2:0:ffff:ffff:ffff:ffff:ffff" ∷ codes "2001:2:1::" ∷ []) ≡ map Some (reach.Reserved ∷ reach.Benchmarking ∷ reach.Benchmarking ∷ reach.Reserved ∷ []) }
    ensures amt { map reach_of (codes "2001:2:ffff:ffff:ffff:ffff:ffff:ffff" ∷ codes "2001:3::" ∷ codes "2001:3:ffff:ffff:ffff:ffff:ffff:ffff" ∷ codes "2001:4::" ∷ []) ≡ map Some (reach.Reserved ∷ reach.Global ∷ reach.Global ∷ reach.Reserved ∷ []) }
    ensures as112 { map reach_of (codes "2001:4:111:ffff:ffff:ffff:ffff:ffff" ∷ codes "2001:4:112::" ∷ codes "2001:4:112:ffff:ffff:ffff:ffff:ffff" ∷ codes "2001:4:113::" ∷ []) ≡ map Some (reach.Reserved ∷ reach.Global ∷ reach.Global ∷ reach.Reserved ∷ []) }
    ensures orchid { map reach_of (codes "2001:1f:ffff:ffff:ffff:ffff:ffff:ffff" ∷ codes "2001:20::" ∷ codes "2001:2f:ffff:ffff:ffff:ffff:ffff:ffff" ∷ codes "2001:30::" ∷ []) ≡ map Some (reach.Reserved ∷ reach.Global ∷ reach.Global ∷ reach.Global ∷ []) }
    ensures drones { map reach_of (codes "2001:2f:ffff:ffff:ffff:ffff:ffff:ffff" ∷ codes "2001:30::" ∷ codes "2001:3f:ffff:ffff:ffff:ffff:ffff:ffff" ∷ codes "2001:40::" ∷ []) ≡ map Some (reach.Global ∷ reach.Global ∷ reach.Global ∷ reach.Reserved ∷ []) }
    ensures documentation { map reach_of (codes "2001:db7:ffff:ffff:ffff:ffff:ffff:ffff" ∷ codes "2001:db8::" ∷ codes "2001:db8:ffff:ffff:ffff:ffff:ffff:ffff" ∷ codes "2001:db9::" ∷ []) ≡ map Some (reach.Global ∷ reach.Documentation ∷ reach.Documentation ∷ reach.Global ∷ []) }
    ensures sixtofour { map reach_of (codes "2001:ffff:ffff:ffff:ffff:ffff:ffff:ffff" ∷ codes "2002::" ∷ codes "2002:ffff:ffff:ffff:ffff:ffff:ffff:ffff" ∷ codes "2003::" ∷ []) ≡ map Some (reach.Global ∷ reach.Unspecified ∷ reach.Broadcast ∷ reach.Global ∷ []) }
    ensures documentation_2 { map reach_of (codes "3ffe:ffff:ffff:ffff:ffff:ffff:ffff:ffff" ∷ codes "3fff::" ∷ codes "3fff:fff:ffff:ffff:ffff:ffff:ffff:ffff" ∷ codes "3fff:1000::" ∷ []) ≡ map Some (reach.Global ∷ reach.Documentation ∷ reach.Documentation ∷ reach.Global ∷ []) }
    ensures routing { map reach_of (codes "5eff:ffff:ffff:ffff:ffff:ffff:ffff:ffff" ∷ codes "5f00::" ∷ codes "5f00:ffff:ffff:ffff:ffff:ffff:ffff:ffff" ∷ codes "5f01::" ∷ []) ≡ map Some (reach.Global ∷ reach.Reserved ∷ reach.Reserved ∷ reach.Global ∷ []) }
    ensures unique_local { map reach_of (codes "fbff:ffff:ffff:ffff:ffff:ffff:ffff:ffff" ∷ codes "fc00::" ∷ codes "fdff:ffff:ffff:ffff:ffff:ffff:ffff:ffff" ∷ codes "fe00::" ∷ []) ≡ map Some (reach.Global ∷ reach.UniqueLocal ∷ reach.UniqueLocal ∷ reach.Global ∷ []) }
    ensures link_local { map reach_of (codes "fe7f:ffff:ffff:ffff:ffff:ffff:ffff:ffff" ∷ codes "fe80::" ∷ codes "febf:ffff:ffff:ffff:ffff:ffff:ffff:ffff" ∷ codes "fec0::" ∷ []) ≡ map Some (reach.Global ∷ reach.LinkLocal ∷ reach.LinkLocal ∷ reach.Reserved ∷ []) }
    ensures site_local { map reach_of (codes "febf:ffff:ffff:ffff:ffff:ffff:ffff:ffff" ∷ codes "fec0::" ∷ codes "feff:ffff:ffff:ffff:ffff:ffff:ffff:ffff" ∷ codes "ff00::" ∷ []) ≡ map Some (reach.LinkLocal ∷ reach.Reserved ∷ reach.Reserved ∷ reach.Multicast ∷ []) }
    ensures multicast { map reach_of (codes "feff:ffff:ffff:ffff:ffff:ffff:ffff:ffff" ∷ codes "ff00::" ∷ codes "ffff:ffff:ffff:ffff:ffff:ffff:ffff:ffff" ∷ []) ≡ map Some (reach.Reserved ∷ reach.Multicast ∷ reach.Multicast ∷ []) }
    ensures mapped_embeds { map reach_of (codes "::ffff:10.0.0.1" ∷ codes "::ffff:8.8.8.8" ∷ codes "::ffff:169.254.169.254" ∷ []) ≡ map Some (reach.Private ∷ reach.Global ∷ reach.LinkLocal ∷ []) }
    ensures compatible_embeds { map reach_of (codes "::7f00:1" ∷ codes "::808:808" ∷ []) ≡ map Some (reach.Loopback ∷ reach.Global ∷ []) }
    ensures translation_embeds { map reach_of (codes "64:ff9b::a00:1" ∷ codes "64:ff9b::808:808" ∷ []) ≡ map Some (reach.Private ∷ reach.Global ∷ []) }
    ensures sixtofour_embeds { map reach_of (codes "2002:7f00:1::" ∷ codes "2002:808:808::1" ∷ codes "2002:c0a8:101::808:808" ∷ []) ≡ map Some (reach.Loopback ∷ reach.Global ∷ reach.Private ∷ []) }
    ensures teredo_client { map reach_of (codes "2001:0:4136:e378:8000:63bf:3fff:fdd2" ∷ codes "2001:0:4136:e378:8000:63bf:f7f7:f7f7" ∷ codes "2001:0:a00:1:8000:63bf:f7f7:f7f7" ∷ codes "2001:0:a00:1:8000:63bf:80ff:fffe" ∷ []) ≡ map Some (reach.Documentation ∷ reach.Global ∷ reach.Private ∷ reach.Loopback ∷ []) }
{}

/// Texts, and their canonical spellings or faults.
#[tactic(auto, unfolding(crate::specs::Canonical::canonical_in, crate::specs::Tokens::tokens, crate::specs::Faults::fault, crate::specs::Classes::is_plain, crate::specs::Bytes::is_unreserved, crate::specs::Bytes::is_sub_delim))]
pub fn examples_of_texts()
    ensures kept { canonical_in case.Kept (codes "%4a%2fK%7e") ≡ codes "J%2FK~" }
    ensures lowered { canonical_in case.Lowered (codes "%4a%2fK%7e") ≡ codes "j%2Fk~" }
    ensures no_fault { fault class.Query (codes "azAZ09-._~!$&'()*+,;=:@/?%00") ≡ None }
    ensures broken_escape { fault class.Query (codes "%41%4g ") ≡ Some 37 }
    ensures hash { fault class.Query (codes "a#%") ≡ Some 35 }
    ensures slash { fault class.Segment (codes "a/b") ≡ Some 47 }
    ensures at_sign { fault class.UserInfo (codes "a:@") ≡ Some 64 }
    ensures colon { fault class.Name (codes "a:") ≡ Some 58 }
{}

/// Segments that servers may take for others: by an escape, also one that is encoded twice, or by dots
/// before a `;` or the escape of what may end a segment. The last ones are plain.
#[tactic(auto, unfolding(crate::specs::Ambiguous::is_ambiguous, crate::specs::Coding::decoded, crate::specs::Tokens::tokens))]
pub fn examples_of_ambiguous_segments()
    ensures slash { is_ambiguous (codes "a%2fb") ≡ true }
    ensures backslash { is_ambiguous (codes "a%5Cb") ≡ true }
    ensures escape { is_ambiguous (codes "a%252Fb") ≡ true }
    ensures nul { is_ambiguous (codes "a%00") ≡ true }
    ensures climbing { is_ambiguous (codes "..%2Fb") ≡ true }
    ensures parameters { is_ambiguous (codes "..;x=1") ≡ true }
    ensures no_parameters { is_ambiguous (codes ".;") ≡ true }
    ensures escaped_dots { is_ambiguous (codes "%2e.;a;b") ≡ true }
    ensures dots { is_ambiguous (codes "..") ≡ false }
    ensures three_dots { is_ambiguous (codes "...;x") ≡ false }
    ensures named { is_ambiguous (codes "a..;x") ≡ false }
    ensures escaped_semicolon { is_ambiguous (codes "..%3Bx") ≡ true }
    ensures escaped_question_mark { is_ambiguous (codes "..%3F") ≡ true }
    ensures escaped_number_sign { is_ambiguous (codes ".%23a") ≡ true }
    ensures other_escape { is_ambiguous (codes "a%20%C3%A9") ≡ false }
    ensures empty { is_ambiguous [] ≡ false }
    ensures empty_name { is_ambiguous (codes ";x") ≡ false }
{}
