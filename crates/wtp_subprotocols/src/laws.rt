//! Laws of the fields of subprotocols.
ghost use Rattle.std.specs.Prelude.{◌≡◌, ℕ, List, [], ◌∷◌, Some, None, true, codes};
ghost use Rattle.std.specs.List.{list_all};
ghost use Rattle.wtp_subprotocols.specs.Strings.{IsList, IsItem, strings_of, string_of};
ghost use Rattle.wtp_subprotocols.specs.Strings.{is_string, written_list, written_string};

/// The texts of lists of strings, and of one string, that are read are those of the grammar (RFC 9651,
/// sections 3.1, 3.1.2, 3.3.3 and 4.2), with these values; of the value of a parameter that is no string
/// only the bytes are checked. The rows are worked examples.
pub fn strings_are_those_of_the_grammar()
    ensures list { (text : List ℕ) (values : List (List ℕ)) → IsList text values → strings_of text ≡ Some values }
    ensures no_other_list { (text : List ℕ) (values : List (List ℕ)) → strings_of text ≡ Some values
        → IsList text values }
    ensures item { (text value : List ℕ) → IsItem text value → string_of text ≡ Some value }
    ensures no_other_item { (text value : List ℕ) → string_of text ≡ Some value → IsItem text value }
    ensures two { strings_of (codes "\"moqt\" ,\t\"a \\\"b\\\\\"") ≡ Some (codes "moqt" ∷ codes "a \"b\\" ∷ []) }
    ensures empty_list { strings_of [] ≡ Some [] }
    ensures empty_string { string_of (codes " \"\" ") ≡ Some [] }
    ensures token { strings_of (codes "moqt") ≡ None }
    ensures last_comma { strings_of (codes "\"a\",") ≡ None }
    ensures first_comma { strings_of (codes ",\"a\"") ≡ None }
    ensures no_comma { strings_of (codes "\"a\" \"b\"") ≡ None }
    ensures no_end { string_of (codes "\"a") ≡ None }
    ensures escape { string_of (codes "\"\\a\"") ≡ None }
    ensures control { string_of (codes "\"\t\"") ≡ None }
    ensures two_items { string_of (codes "\"a\", \"b\"") ≡ None }
    ensures parameter { strings_of (codes "\"a\";q=0.5;  *b;c=\"\\\",\" , \"b\"") ≡ Some (codes "a" ∷ codes "b" ∷ []) }
    ensures date { string_of (codes "\"a\";q=@1659578233;r=@-9") ≡ Some (codes "a") }
    ensures display { string_of (codes "\"a\";q=%\"f%c3%bc,\\;\";r") ≡ Some (codes "a") }
    ensures no_display { string_of (codes "\"a\";q=%c3") ≡ None }
    ensures display_without_end { string_of (codes "\"a\";q=%\"f%c3%bc") ≡ None }
    ensures late_parameter { strings_of (codes "\"a\" ;q=1") ≡ None }
    ensures no_key { strings_of (codes "\"a\";Q=1") ≡ None }
    ensures no_value { string_of (codes "\"a\";q=") ≡ None }
{}

/// A list and a string that are written are read back with the same values.
pub fn what_is_written_is_read_back()
    ensures list { (values : List (List ℕ)) → list_all is_string values ≡ true
        → strings_of (written_list values) ≡ Some values }
    ensures string { (value : List ℕ) → is_string value ≡ true → string_of (written_string value) ≡ Some value }
    ensures escaped { written_list (codes "a\"b" ∷ codes "c" ∷ []) ≡ codes "\"a\\\"b\", \"c\"" }
{}
