//! Laws over the definitions: what a reading is, what the rules on letters say, and worked fronts.
ghost use Rattle.std.specs.Prelude.{◌≡◌, ℕ, ◌≤◌, ◌-◌, Bool, true, false, List, [], ◌∷◌, ◌++◌, take, drop, length, None, option_map, codes};
ghost use Rattle.el_options.specs.declared.table.Opt.{Opt};
ghost use Rattle.el_options.specs.Reading.{Letter, LettersRead, read_from, reading, StopsAt};
ghost use Rattle.el_options.specs.Slots.{are_good_opts, are_good_letters};
ghost use Rattle.el_options.specs.Rules.{Rule, keep_rules, has_wrong_use, has_bad_number};
ghost use Rattle.el_options.specs.Shapes.{shape_of, execlineb_options, elcheck_options, elfmt_options};
ghost use Rattle.el_options.specs.Fronts.{Lacking, Whole, nothing_taken, front_of, Text, Program, Directed, KnownLetter, LetterValue, RightUse, GoodNumber, Present, Terminated, Quoted, DirectiveName};
ghost use Rattle.el_options.specs.Letters.{shown, letters_written};
ghost use Rattle.el_options.specs.Laws.{AllStand, IsWholeReading};

use crate::Strictness;
use el_words::Prog;

/// A whole reading of option words, followed by words before which reading stops, is read back as that
/// reading; behind `--` whatever may follow.
pub fn reads_back()
    ensures { (opts : List Opt) (at : ℕ) (words more : List (List ℕ)) (letters : List Letter) (used : ℕ) (ended : Bool) → read_from opts at None words ≡ LettersRead letters used [] ended → (ended ≡ false → StopsAt opts more) → read_from opts at None (words ++ more) ≡ LettersRead letters used more ended }
{}

/// The other way round: of words that were read as letters the first ones, as many as were used, are one
/// whole reading, which stopped by rule; and this is the only number of words that are.
pub fn stops_by_rule()
    ensures whole { (opts : List Opt) (at : ℕ) (words : List (List ℕ)) (letters : List Letter) (used : ℕ) (rest : List (List ℕ)) (ended : Bool) → read_from opts at None words ≡ LettersRead letters used rest ended → IsWholeReading opts at (take (used - at) words) letters used ended rest }
    ensures once { (opts : List Opt) (at : ℕ) (words : List (List ℕ)) (letters others : List Letter) (used count end : ℕ) (rest : List (List ℕ)) (ended is_end : Bool) → read_from opts at None words ≡ LettersRead letters used rest ended → count ≤ length words → IsWholeReading opts at (take count words) others end is_end (drop count words) → count ≡ used - at }
{}

/// The values of letters stand where they are said to, and what is left are the words behind those used.
pub fn places_stand()
    ensures values { (opts : List Opt) (words : List (List ℕ)) (letters : List Letter) (used : ℕ) (rest : List (List ℕ)) (ended : Bool) → reading opts words ≡ LettersRead letters used rest ended → AllStand words letters }
    ensures rest { (opts : List Opt) (words : List (List ℕ)) (letters : List Letter) (used : ℕ) (rest : List (List ℕ)) (ended : Bool) → reading opts words ≡ LettersRead letters used rest ended → rest ≡ drop used words }
{}

/// The reader takes each table: its letters differ, and none is `-`.
#[tactic(auto, unfolding(crate::specs::Shapes::execlineb_options, crate::specs::Shapes::elcheck_options, crate::specs::Shapes::elfmt_options))]
pub fn good_tables()
    ensures programs { (program : Prog) → are_good_letters (shape_of program).letters ≡ true }
    ensures execlineb { are_good_opts execlineb_options.letters ≡ true }
    ensures elcheck { are_good_opts elcheck_options.letters ≡ true }
    ensures elfmt { are_good_opts elfmt_options.letters ≡ true }
{}

/// The letters of each program and tool are these, each with whether it takes a value.
#[tactic(auto, unfolding(crate::specs::Shapes::execlineb_options, crate::specs::Shapes::elcheck_options, crate::specs::Shapes::elfmt_options))]
pub fn letters_are_these()
    ensures programs { (program : Prog) → option_map shown (shape_of program).letters ≡ letters_written program }
    ensures execlineb { shown execlineb_options.letters ≡ codes "qwWPS:s:c:" }
    ensures elcheck { shown elcheck_options.letters ≡ codes "PS:s:c:" }
    ensures elfmt { shown elfmt_options.letters ≡ codes "kuc:" }
{}

/// Where every value keeps the rule of its letter, those in force are refused for nothing.
pub fn rules_are_kept()
    ensures wrong_use { (groups : List (List ℕ)) (rule : ℕ → Rule) (letters : List Letter) → keep_rules rule letters ≡ true → has_wrong_use groups rule letters ≡ false }
    ensures bad_number { (groups : List (List ℕ)) (rule : ℕ → Rule) (letters : List Letter) → keep_rules rule letters ≡ true → has_bad_number groups rule letters ≡ false }
{}

/// Worked fronts: blocks and single words, and what may be lacking.
#[tactic(auto, unfolding(crate::specs::Fronts::front_of, crate::specs::Shapes::shape_of))]
pub fn fronts_are_read()
    ensures block { front_of Strictness.Lenient Prog.Foreground (codes "x" ∷ [] ∷ codes "b" ∷ []) ≡ Whole 0 (record (nothing_taken (codes "b" ∷ [])) { operands = Program (codes "x" ∷ []) ∷ [] }) }
    ensures quoted { front_of Strictness.Refusing Prog.Foreground (codes " x" ∷ [] ∷ codes "b" ∷ []) ≡ Whole 0 (record (nothing_taken (codes "b" ∷ [])) { operands = Program (codes "x" ∷ []) ∷ [] }) }
    ensures warned { front_of Strictness.Warning Prog.Foreground (codes "x" ∷ codes "y" ∷ [] ∷ codes "b" ∷ []) ≡ Whole 2 (record (nothing_taken (codes "b" ∷ [])) { operands = Program (codes "x" ∷ codes "y" ∷ []) ∷ [] }) }
    ensures refused { front_of Strictness.Refusing Prog.Foreground (codes "x" ∷ codes "y" ∷ [] ∷ codes "b" ∷ []) ≡ Lacking 0 Quoted }
    ensures warned_before { front_of Strictness.Warning Prog.Ifelse (codes "x" ∷ [] ∷ codes " y" ∷ []) ≡ Lacking 1 Terminated }
    ensures unterminated { front_of Strictness.Lenient Prog.Foreground (codes "x" ∷ []) ≡ Lacking 0 Terminated }
    ensures no_block { front_of Strictness.Lenient Prog.Foreground [] ≡ Lacking 0 Present }
    ensures count { front_of Strictness.Lenient Prog.Shift (codes "5" ∷ codes "a" ∷ []) ≡ Whole 0 (record (nothing_taken (codes "a" ∷ [])) { operands = Text (codes "5") ∷ [] }) }
    ensures no_count { front_of Strictness.Lenient Prog.Shift (codes "5a" ∷ []) ≡ Whole 0 (nothing_taken (codes "5a" ∷ [])) }
    ensures code { front_of Strictness.Lenient Prog.Exit (codes "x" ∷ codes "a" ∷ []) ≡ Whole 0 (record (nothing_taken (codes "a" ∷ [])) { operands = Text (codes "x") ∷ [] }) }
    ensures no_code { front_of Strictness.Lenient Prog.Exit [] ≡ Whole 0 (nothing_taken []) }
{}

/// Worked letters: those that are refused, a wrong use before a number before the places, and letters that
/// exclude each other, of which only the last one's value is tested.
#[tactic(auto, unfolding(crate::specs::Fronts::front_of, crate::specs::Shapes::shape_of))]
pub fn letters_are_tested()
    ensures unknown_letter { front_of Strictness.Lenient Prog.If (codes "-q" ∷ []) ≡ Lacking 0 (KnownLetter 113) }
    ensures no_value { front_of Strictness.Lenient Prog.If (codes "-nx" ∷ []) ≡ Lacking 0 (LetterValue 120) }
    ensures no_letters { front_of Strictness.Lenient Prog.Cd (codes "-q" ∷ []) ≡ Whole 0 (record (nothing_taken []) { operands = Text (codes "-q") ∷ [] }) }
    ensures bad_number { front_of Strictness.Lenient Prog.If (codes "-t" ∷ codes "-x" ∷ codes "256" ∷ []) ≡ Lacking 0 GoodNumber }
    ensures replaced_number { front_of Strictness.Lenient Prog.If (codes "-x256" ∷ codes "-t" ∷ []) ≡ Lacking 0 Present }
    ensures no_mode { front_of Strictness.Lenient Prog.Redirfd (codes "3" ∷ codes "f" ∷ []) ≡ Lacking 0 RightUse }
    ensures empty_ends { front_of Strictness.Lenient Prog.Forstdin (codes "-d" ∷ [] ∷ codes "v" ∷ codes "t" ∷ []) ≡ Lacking 0 RightUse }
    ensures use_before_number { front_of Strictness.Lenient Prog.Forstdin (codes "-xa" ∷ codes "-d" ∷ [] ∷ codes "v" ∷ []) ≡ Lacking 0 RightUse }
{}

/// Worked directives: one of them, another program, and a block of names in the block of directives, each of
/// whose words is warned of or refused where it has no leading space of its own.
#[tactic(auto, unfolding(crate::specs::Fronts::front_of, crate::specs::Shapes::shape_of, el_words::specs::Prog::program_named, el_words::specs::Prog::name_text))]
pub fn directives_are_read()
    ensures one { front_of Strictness.Lenient Prog.Multisubstitute (codes " define" ∷ codes " A" ∷ codes " x" ∷ [] ∷ codes "a" ∷ []) ≡ Whole 0 (record (nothing_taken (codes "a" ∷ [])) { operands = Directed (record { program = Prog.Define; letters = []; texts = codes "A" ∷ codes "x" ∷ []; names = [] } ∷ []) ∷ [] }) }
    ensures other { front_of Strictness.Lenient Prog.Multisubstitute (codes " echo" ∷ [] ∷ []) ≡ Lacking 0 DirectiveName }
    ensures quoted { front_of Strictness.Refusing Prog.Multisubstitute (codes " multidefine" ∷ codes " v" ∷ codes "  A" ∷ codes " " ∷ [] ∷ []) ≡ Whole 0 (record (nothing_taken []) { operands = Directed (record { program = Prog.Multidefine; letters = []; texts = codes "v" ∷ []; names = codes "A" ∷ [] } ∷ []) ∷ [] }) }
    ensures refused { front_of Strictness.Refusing Prog.Multisubstitute (codes " multidefine" ∷ codes " v" ∷ codes " A" ∷ codes " " ∷ [] ∷ []) ≡ Lacking 0 Quoted }
    ensures warned { front_of Strictness.Warning Prog.Multisubstitute (codes "multidefine" ∷ codes " v" ∷ codes " A" ∷ codes " " ∷ codes " echo" ∷ [] ∷ []) ≡ Lacking 2 DirectiveName }
{}
