//! Laws of the definitions that the contracts cite. Each function does nothing: its contract is the
//! law.
ghost use Rattle.std.specs.Prelude.{◌≡◌, ◌⊎◌, ◌<◌, ◌≤◌, ℕ, Bool, true, false, List, [], ◌∷◌, ◌++◌, Option, Some, None, codes};
ghost use Rattle.std.specs.List.{list_all, list_any};
ghost use Rattle.std.specs.Str.{str_eq_ignore_ascii_case};
ghost use Rattle.wtp_qpack.specs.Field.{Field};
ghost use Rattle.wtp_fields.specs.FieldMessages.{three_digits};
ghost use Rattle.wtp_fields.specs.FieldWriting.{is_upper, is_tchar};
ghost use Rattle.wtp_messages.specs.declared.response.Asked.{Asked};
ghost use Rattle.wtp_messages.specs.declared.response.Asked.TheVariants as asked;
ghost use Rattle.wtp_messages.specs.declared.section.SectionKind.{SectionKind};
ghost use Rattle.wtp_messages.specs.declared.section.SectionKind.TheVariants as section;
ghost use Rattle.wtp_messages.specs.Broken.{RefusesLine, IsControl, IsBlank, is_solid, IsNoNumber, Has, Lacks, IsConnect, IsHttp, IsForSession, NeedsAuthority, IsRefused, IsWellFormedResponse, IsRefusedResponse};
ghost use Rattle.wtp_messages.specs.Names.{starts_with, is_pseudo, is_whole_token, has_field};
ghost use Rattle.wtp_messages.specs.Request.{is_scheme, IsWellFormed};
ghost use Rattle.wtp_messages.specs.Authority.{is_authority, IsAuthority};
ghost use Rattle.wtp_messages.specs.Plain.{is_in_path, is_plain, request_list, session_list, tunnel_list, response_list, IsNumber, IsTarget, IsMethod, Says, ReadsRequest, IsStatus, IsAnswer, SaysStatus, ReadsResponse, browser_fields, session_fields};
ghost use Rattle.wtp_messages.specs.Response.{expected, forbids_length, has_forbidden_length};
ghost use Rattle.wtp_messages.specs.Section.{IsSection};

/// The test of an authority succeeds for the texts that the grammar has, and for no others. `must`: it
/// must have a port.
pub fn authorities_are_those_of_the_grammar()
    ensures taken { (must : Bool) (text : List ℕ) → IsAuthority must text
        → is_authority must text ≡ true }
    ensures no_other { (must : Bool) (text : List ℕ) → is_authority must text ≡ true
        → IsAuthority must text }
    ensures name { is_authority true (codes "localhost:4433") ≡ true }
    ensures version_4 { is_authority true (codes "127.0.0.1:4433") ≡ true }
    ensures version_6 { is_authority true (codes "[::1]:4433") ≡ true }
    ensures later { is_authority false (codes "[v7.a:b]") ≡ true }
    ensures encoded { is_authority false (codes "%C3%a9.example:") ≡ true }
    ensures empty_port { is_authority true (codes "example.com:") ≡ false }
    ensures no_port { is_authority true (codes "example.com") ≡ false }
    ensures no_host { is_authority false (codes ":443") ≡ false }
    ensures user { is_authority false (codes "me@example.com") ≡ false }
    ensures path { is_authority false (codes "example.com/") ≡ false }
    ensures no_brackets { is_authority false (codes "::1") ≡ false }
    ensures no_digits { is_authority false (codes "example.com:https") ≡ false }
{}

/// Requests of plain fields are read, whatever their values are, and say exactly these: `https` requests
/// of any method but CONNECT, also with a `content-length`; requests for a session where extended CONNECT is
/// allowed; and CONNECT requests for a tunnel.
pub fn plain_requests_are_read()
    ensures request { (extended : Bool) (method authority path : List ℕ) (others : List Field)
        → IsMethod method → IsTarget authority path → list_all is_plain others ≡ true
        → ReadsRequest extended (request_list method authority path others)
        (Says method (Some (codes "https")) authority (Some path) None None) }
    ensures with_length { (extended : Bool) (method authority path digits : List ℕ) (n : ℕ)
        (before after : List Field)
        → IsMethod method → IsTarget authority path → IsNumber digits n
        → list_all is_plain before ≡ true → list_all is_plain after ≡ true
        → ReadsRequest extended
        (request_list method authority path (before ++ (codes "content-length", digits) ∷ after))
        (Says method (Some (codes "https")) authority (Some path) None (Some n)) }
    ensures session { (authority path : List ℕ) (others : List Field)
        → IsTarget authority path → list_all is_plain others ≡ true
        → ReadsRequest true (session_list authority path others)
        (Says (codes "CONNECT") (Some (codes "https")) authority (Some path) (Some (codes "webtransport")) None) }
    ensures tunnel { (extended : Bool) (authority : List ℕ) (others : List Field)
        → IsAuthority true authority → list_all is_plain others ≡ true
        → ReadsRequest extended (tunnel_list authority others)
        (Says (codes "CONNECT") None authority None None None) }
{}

/// Responses and trailers of plain fields are read: any status from 100 on but 101, and but 204, 205 and
/// 206 in the answer to a request for a session; other answers also with a `content-length`.
pub fn plain_responses_are_read()
    ensures response { (kind : Asked) (text : List ℕ) (code : ℕ) (others : List Field)
        → IsStatus text code → IsAnswer kind code → list_all is_plain others ≡ true
        → ReadsResponse kind (response_list text others) (SaysStatus kind code None) }
    ensures with_length { (kind : Asked) (text digits : List ℕ) (code n : ℕ)
        (before after : List Field) → (kind ≡ asked.Session → ⊥)
        → IsStatus text code → IsNumber digits n
        → list_all is_plain before ≡ true → list_all is_plain after ≡ true
        → ReadsResponse kind
        (response_list text (before ++ (codes "content-length", digits) ∷ after))
        (SaysStatus kind code (Some n)) }
    ensures trailers { (others : List Field) → list_all is_plain others ≡ true
        → IsSection section.Trailers others }
{}

/// Some messages as browsers and servers send them, which are of these forms.
pub fn worked_messages_are_read()
    ensures request { ReadsRequest false
        (request_list (codes "GET") (codes "localhost:4433") (codes "/a?b=%20") browser_fields)
        (Says (codes "GET") (Some (codes "https")) (codes "localhost:4433") (Some (codes "/a?b=%20")) None None) }
    ensures session { ReadsRequest true
        (session_list (codes "[::1]:4433") (codes "/chat") session_fields)
        (Says (codes "CONNECT") (Some (codes "https")) (codes "[::1]:4433") (Some (codes "/chat")) (Some (codes "webtransport")) None) }
    ensures tunnel { ReadsRequest false (tunnel_list (codes "example.com:443") browser_fields)
        (Says (codes "CONNECT") None (codes "example.com:443") None None None) }
    ensures response { ReadsResponse asked.Other (response_list (codes "200") browser_fields)
        (SaysStatus asked.Other 200 None) }
{}

/// How much content a response has: any that comes after a 2xx status to a CONNECT request, none of a
/// response to HEAD, an interim one, or one with status 204 or 304, and else, to a request of any other
/// method, what was announced.
pub fn responses_have_their_content()
    ensures tunnel { (code : ℕ) (announced : Option ℕ) → 200 ≤ code → code < 300
        → expected asked.Connect code announced ≡ None }
    ensures session { (code : ℕ) (announced : Option ℕ) → 200 ≤ code → code < 300
        → expected asked.Session code announced ≡ None }
    ensures head { (code : ℕ) (announced : Option ℕ)
        → expected asked.Head code announced ≡ Some 0 }
    ensures interim { (kind : Asked) (code : ℕ) (announced : Option ℕ) → code < 200
        → expected kind code announced ≡ Some 0 }
    ensures no_content { (announced : Option ℕ) → expected asked.Other 204 announced ≡ Some 0 }
    ensures not_modified { (kind : Asked) (announced : Option ℕ)
        → expected kind 304 announced ≡ Some 0 }
    ensures announced { (code : ℕ) (announced : Option ℕ) → 200 ≤ code → (code ≡ 204 → ⊥)
        → (code ≡ 304 → ⊥) → expected asked.Other code announced ≡ announced }
{}

/// A response that is sent has no content-length if its status is 1xx or 204, or 2xx and the request a
/// CONNECT (RFC 9110, sections 8.6 and 9.3.6). Any other response may have one: so may one to HEAD, and
/// one with status 304.
pub fn responses_without_a_length()
    ensures informational { (kind : Asked) (code : ℕ) → 100 ≤ code → code ≤ 199
        → forbids_length kind code ≡ true }
    ensures no_content { (kind : Asked) → forbids_length kind 204 ≡ true }
    ensures tunnel { (code : ℕ) → 200 ≤ code → code ≤ 299
        → forbids_length asked.Connect code ≡ true }
    ensures session { (code : ℕ) → 200 ≤ code → code ≤ 299
        → forbids_length asked.Session code ≡ true }
    ensures refused { (kind : Asked) (code : ℕ) → 300 ≤ code
        → forbids_length kind code ≡ false }
    ensures head { (code : ℕ) → 200 ≤ code → (code ≡ 204 → ⊥)
        → forbids_length asked.Head code ≡ false }
    ensures other { (code : ℕ) → 200 ≤ code → (code ≡ 204 → ⊥)
        → forbids_length asked.Other code ≡ false }
    ensures breaks { (kind : Asked) (code : ℕ) (fields : List Field)
        → forbids_length kind code ≡ true → has_field (codes "content-length") fields ≡ true
        → has_forbidden_length kind fields code ≡ true }
    ensures allows { (kind : Asked) (code : ℕ) (fields : List Field)
        → has_field (codes "content-length") fields ≡ false
        → has_forbidden_length kind fields code ≡ false }
{}

/// A section with one of these lines is malformed, whatever is beside it, and whatever its value is.
pub fn broken_lines_are_refused()
    ensures empty_name { (kind : SectionKind) (value : List ℕ) → RefusesLine kind [] value }
    ensures upper_case { (kind : SectionKind) (name value : List ℕ)
        → list_any is_upper name ≡ true → RefusesLine kind name value }
    ensures no_token { (kind : SectionKind) (name value : List ℕ) → starts_with 58 name ≡ false
        → list_all is_tchar name ≡ false → RefusesLine kind name value }
    ensures control { (kind : SectionKind) (name front back : List ℕ) (byte : ℕ) → IsControl byte
        → RefusesLine kind name (front ++ byte ∷ back) }
    ensures blank_first { (kind : SectionKind) (name others : List ℕ) (byte : ℕ) → IsBlank byte
        → RefusesLine kind name (byte ∷ others) }
    ensures blank_last { (kind : SectionKind) (name front : List ℕ) (byte : ℕ) → IsBlank byte
        → RefusesLine kind name (front ++ byte ∷ []) }
    ensures connection { (kind : SectionKind) (value : List ℕ)
        → RefusesLine kind (codes "connection") value }
    ensures keep_alive { (kind : SectionKind) (value : List ℕ)
        → RefusesLine kind (codes "keep-alive") value }
    ensures proxy_connection { (kind : SectionKind) (value : List ℕ)
        → RefusesLine kind (codes "proxy-connection") value }
    ensures transfer_encoding { (kind : SectionKind) (value : List ℕ)
        → RefusesLine kind (codes "transfer-encoding") value }
    ensures upgrade { (kind : SectionKind) (value : List ℕ)
        → RefusesLine kind (codes "upgrade") value }
    ensures te { (value : List ℕ) → str_eq_ignore_ascii_case value (codes "trailers") ≡ false
        → RefusesLine section.Request (codes "te") value }
    ensures te_elsewhere { (kind : SectionKind) (value : List ℕ) → (kind ≡ section.Request → ⊥)
        → RefusesLine kind (codes "te") value }
    ensures unknown_in_request { (name value : List ℕ) → starts_with 58 name ≡ true
        → (name ≡ codes ":method" → ⊥) → (name ≡ codes ":scheme" → ⊥)
        → (name ≡ codes ":authority" → ⊥) → (name ≡ codes ":path" → ⊥)
        → (name ≡ codes ":protocol" → ⊥) → RefusesLine section.Request name value }
    ensures unknown_in_response { (name value : List ℕ) → starts_with 58 name ≡ true
        → (name ≡ codes ":status" → ⊥) → RefusesLine section.Response name value }
    ensures unknown_in_tunnel { (name value : List ℕ) → starts_with 58 name ≡ true
        → (name ≡ codes ":status" → ⊥) → RefusesLine section.Tunnel name value }
    ensures pseudo_in_trailers { (name value : List ℕ) → starts_with 58 name ≡ true
        → RefusesLine section.Trailers name value }
{}

/// So is a section with a pseudo-header field after a regular field, or with two of one name, and one
/// that may announce a length, but has a `content-length` that is neither a list nor a number below
/// 2^62, or two such fields with different numbers. The rules of sections are those of requests and of
/// responses.
pub fn broken_sections_are_refused()
    ensures late { (kind : SectionKind) (before between after : List Field) (field pseudo : Field)
        → is_pseudo field ≡ false → is_pseudo pseudo ≡ true
        → IsSection kind (before ++ field ∷ (between ++ pseudo ∷ after)) → ⊥ }
    ensures repeated { (kind : SectionKind) (name : List ℕ) (before between after : List Field)
        (v w : List ℕ) → starts_with 58 name ≡ true
        → IsSection kind (before ++ (name, v) ∷ (between ++ (name, w) ∷ after)) → ⊥ }
    ensures no_length { (kind : SectionKind) (value : List ℕ) → (kind ≡ section.Tunnel → ⊥)
        → (kind ≡ section.Trailers → ⊥) → list_all is_solid value ≡ true → IsNoNumber value
        → RefusesLine kind (codes "content-length") value }
    ensures two_lengths { (kind : SectionKind) (v w : List ℕ) (n m : ℕ)
        (before between after : List Field) → (kind ≡ section.Tunnel → ⊥)
        → (kind ≡ section.Trailers → ⊥) → IsNumber v n → IsNumber w m → (n ≡ m → ⊥)
        → IsSection kind (before ++ (codes "content-length", v)
        ∷ (between ++ (codes "content-length", w) ∷ after)) → ⊥ }
    ensures request_section { (extended : Bool) (fields : List Field)
        → IsWellFormed extended fields → IsSection section.Request fields }
    ensures response_section { (kind : Asked) (fields : List Field)
        → IsWellFormedResponse kind fields
        → IsSection section.Response fields ⊎ IsSection section.Tunnel fields }
{}

/// A request without a method, a target or an authority that it must have is malformed, or with
/// invalid ones, whatever is beside them.
pub fn broken_requests_are_refused()
    ensures no_method { (fields : List Field) → Lacks (codes ":method") fields → IsRefused fields }
    ensures method { (fields : List Field) (value : List ℕ) → Has (codes ":method") value fields
        → is_whole_token value ≡ false → IsRefused fields }
    ensures no_scheme { (fields : List Field) → (IsConnect fields → ⊥)
        → Lacks (codes ":scheme") fields → IsRefused fields }
    ensures no_scheme_extended { (fields : List Field)
        → has_field (codes ":protocol") fields ≡ true
        → Lacks (codes ":scheme") fields → IsRefused fields }
    ensures no_path { (fields : List Field) → (IsConnect fields → ⊥)
        → Lacks (codes ":path") fields → IsRefused fields }
    ensures no_path_extended { (fields : List Field)
        → has_field (codes ":protocol") fields ≡ true
        → Lacks (codes ":path") fields → IsRefused fields }
    ensures scheme { (fields : List Field) (value : List ℕ) → Has (codes ":scheme") value fields
        → is_scheme value ≡ false → IsRefused fields }
    ensures session_scheme { (fields : List Field) (value : List ℕ) → IsForSession fields
        → Has (codes ":scheme") value fields
        → str_eq_ignore_ascii_case value (codes "https") ≡ false → IsRefused fields }
    ensures no_slash { (fields : List Field) (value : List ℕ) → IsHttp fields
        → Has (codes ":path") value fields → starts_with 47 value ≡ false
        → (value ≡ codes "*" → ⊥) → IsRefused fields }
    ensures path_byte { (fields : List Field) (value : List ℕ) → IsHttp fields
        → Has (codes ":path") value fields → list_all is_in_path value ≡ false
        → (value ≡ codes "*" → ⊥) → IsRefused fields }
    ensures asterisk { (fields : List Field) → IsHttp fields
        → Has (codes ":path") (codes "*") fields
        → (Has (codes ":method") (codes "OPTIONS") fields → ⊥) → IsRefused fields }
    ensures no_authority { (fields : List Field) → NeedsAuthority fields
        → Lacks (codes ":authority") fields → Lacks (codes "host") fields → IsRefused fields }
    ensures host_of_tunnel { (fields : List Field) → IsConnect fields
        → Lacks (codes ":protocol") fields → Lacks (codes ":authority") fields → IsRefused fields }
    ensures authority { (fields : List Field) (value : List ℕ) → NeedsAuthority fields
        → Has (codes ":authority") value fields → (IsAuthority false value → ⊥)
        → IsRefused fields }
    ensures host { (fields : List Field) (value : List ℕ) → NeedsAuthority fields
        → Has (codes "host") value fields → (IsAuthority false value → ⊥) → IsRefused fields }
    ensures no_port { (fields : List Field) (value : List ℕ) → IsConnect fields
        → Lacks (codes ":protocol") fields → Has (codes ":authority") value fields
        → (IsAuthority true value → ⊥) → IsRefused fields }
    ensures two_hosts { (before between after : List Field) (v w : List ℕ)
        → NeedsAuthority (before ++ (codes "host", v) ∷ (between ++ (codes "host", w) ∷ after))
        → IsRefused (before ++ (codes "host", v) ∷ (between ++ (codes "host", w) ∷ after)) }
    ensures another_host { (fields : List Field) (v w : List ℕ) → NeedsAuthority fields
        → Has (codes ":authority") v fields → Has (codes "host") w fields
        → str_eq_ignore_ascii_case v w ≡ false → IsRefused fields }
    ensures tunnel_scheme { (fields : List Field) → IsConnect fields
        → Lacks (codes ":protocol") fields → has_field (codes ":scheme") fields ≡ true
        → IsRefused fields }
    ensures tunnel_path { (fields : List Field) → IsConnect fields
        → Lacks (codes ":protocol") fields → has_field (codes ":path") fields ≡ true
        → IsRefused fields }
    ensures protocol_without_connect { (fields : List Field)
        → has_field (codes ":protocol") fields ≡ true → (IsConnect fields → ⊥)
        → IsRefused fields }
    ensures protocol_not_allowed { (fields : List Field)
        → has_field (codes ":protocol") fields ≡ true → IsWellFormed false fields → ⊥ }
    ensures protocol { (fields : List Field) (value : List ℕ)
        → Has (codes ":protocol") value fields → is_whole_token value ≡ false → IsRefused fields }
    ensures session_length { (fields : List Field) → IsForSession fields
        → has_field (codes "content-length") fields ≡ true → IsRefused fields }
    ensures session_type { (fields : List Field) → IsForSession fields
        → has_field (codes "content-type") fields ≡ true → IsRefused fields }
{}

/// A response without a status is malformed, or with one that HTTP/3 does not have, or that does not
/// accept a session.
pub fn broken_responses_are_refused()
    ensures no_status { (kind : Asked) (fields : List Field) → Lacks (codes ":status") fields
        → IsRefusedResponse kind fields }
    ensures no_digits { (kind : Asked) (fields : List Field) (text : List ℕ)
        → Has (codes ":status") text fields → three_digits text ≡ None
        → IsRefusedResponse kind fields }
    ensures low_status { (kind : Asked) (fields : List Field) (text : List ℕ) (code : ℕ)
        → Has (codes ":status") text fields → three_digits text ≡ Some code → code < 100
        → IsRefusedResponse kind fields }
    ensures switching { (kind : Asked) (fields : List Field)
        → Has (codes ":status") (codes "101") fields → IsRefusedResponse kind fields }
    ensures session_204 { (fields : List Field) → Has (codes ":status") (codes "204") fields
        → IsRefusedResponse asked.Session fields }
    ensures session_205 { (fields : List Field) → Has (codes ":status") (codes "205") fields
        → IsRefusedResponse asked.Session fields }
    ensures session_206 { (fields : List Field) → Has (codes ":status") (codes "206") fields
        → IsRefusedResponse asked.Session fields }
    ensures accepted_length { (fields : List Field) (text : List ℕ) (code : ℕ)
        → Has (codes ":status") text fields → three_digits text ≡ Some code
        → 200 ≤ code → code < 300 → has_field (codes "content-length") fields ≡ true
        → IsRefusedResponse asked.Session fields }
    ensures accepted_type { (fields : List Field) (text : List ℕ) (code : ℕ)
        → Has (codes ":status") text fields → three_digits text ≡ Some code
        → 200 ≤ code → code < 300 → has_field (codes "content-type") fields ≡ true
        → IsRefusedResponse asked.Session fields }
{}
