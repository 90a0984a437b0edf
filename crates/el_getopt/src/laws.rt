//! Laws over the definitions: what an optstring is, and what the environment behind a parsing is.
ghost use Rattle.el_room.specs.Vocabulary.{Vars, Opt, Letter};
ghost use Rattle.std.specs.Prelude.{◌≡◌, ℕ, ◌<◌, ◌≤◌, ◌^◌, true, List, length};
ghost use Rattle.el_getopt.specs.Optstring.{is_optstring, letters_in};
ghost use Rattle.el_getopt.specs.Environment.{parsed_environment};
ghost use Rattle.el_getopt.specs.Laws.{optstring_of, are_distinct, IsBehindParsing};

/// What distinct letters are written as is an optstring, and its letters are these.
pub fn letters_are_read_back()
    ensures is { (opts : List Opt) → are_distinct opts ≡ true → is_optstring (optstring_of opts) ≡ true }
    ensures letters { (opts : List Opt) → are_distinct opts ≡ true → letters_in (optstring_of opts) ≡ opts }
{}

/// Nothing else is one: an optstring is what its letters are written as, and they are distinct.
pub fn optstrings_are_written()
    ensures written { (text : List ℕ) → is_optstring text ≡ true → optstring_of (letters_in text) ≡ text }
    ensures distinct { (text : List ℕ) → is_optstring text ≡ true → are_distinct (letters_in text) ≡ true }
{}

/// The environment behind a parsing, name by name.
pub fn variables_are_parsed()
    ensures { (letters : List Letter) (zero : List ℕ) (args left : List (List ℕ)) (env : Vars) → length args < 2 ^ 63 → length left ≤ length args → IsBehindParsing letters zero (length args) left (parsed_environment letters zero args left env) }
{}
