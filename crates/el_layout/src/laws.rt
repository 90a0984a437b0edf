//! Laws of layouts, and worked layouts: functions that do nothing, whose contracts are the laws.
#![tactic(auto, using(crate::proofs::Layouts::layouts), unfolding(el_words::specs::Prog::name_text))]

ghost use Rattle.el_script.specs.Vocabulary.{Define, Exit, Foreground, Forx, Ifelse, Importas, Multidefine, Multisubstitute, name_text, nothing, word, group, spelled, MAX_SCRIPT, Token, Lexes, shapes_of, levels, Spells, Tree, End, Command, Node, unplaced, one_place, text_place, block_place, values_place, names_place, directives_place, undirected, directed, written, tokens_of, IsWellFormed};
ghost use Rattle.std.specs.Prelude.{◌≡◌, ◌≤◌, ℕ, List, [], ◌∷◌, length, codes};
ghost use Rattle.el_words.specs.declared.prog.Prog.TheVariants.{Wait};
ghost use Rattle.el_layout.specs.Layout.{word_layout, layout};
ghost use Rattle.el_layout.specs.ReadsBack.{HasNoNul, LexesAs};

/// A layout reads as the tree's tokens, where it isn't too long, and within 255 levels it is spelled as the tree is.
pub fn layout_reads_back()
    ensures lexes { (tree : Tree) → HasNoNul tree → length (layout tree) ≤ MAX_SCRIPT → LexesAs (layout tree) (tokens_of tree) }
    ensures spells { (tree : Tree) (tokens : List Token) → HasNoNul tree → Lexes (layout tree) tokens → levels (written tree) ≤ 255 → Spells tokens (spelled 0 (written tree)) }
{}

/// A script whose tokens are those of a tree, and the layout of this tree, have the same tokens but for their lines, and are
/// spelled as the same words.
pub fn formatting_keeps_tokens()
    ensures no_nul { (script : List ℕ) (tree : Tree) → LexesAs script (tokens_of tree) → HasNoNul tree }
    ensures tokens { (script : List ℕ) (tree : Tree) → LexesAs script (tokens_of tree) → length (layout tree) ≤ MAX_SCRIPT → LexesAs (layout tree) (tokens_of tree) }
    ensures words { (script : List ℕ) (tree : Tree) (tokens formatted : List Token) (words : List (List ℕ)) → Lexes script tokens → shapes_of tokens ≡ tokens_of tree
        → Lexes (layout tree) formatted → Spells tokens words → Spells formatted words }
{}

/// Whatever tree is read back from a layout has the tokens of the tree that was laid out; so, well formed, it is that tree.
pub fn layout_has_one_tree()
    ensures tokens { (tree other : Tree) → HasNoNul tree → LexesAs (layout tree) (tokens_of other) → tokens_of other ≡ tokens_of tree }
    ensures same { (tree other : Tree) → HasNoNul tree → IsWellFormed tree → IsWellFormed other → LexesAs (layout tree) (tokens_of other) → other ≡ tree }
{}

/// Laying out what was laid out changes nothing: a well-formed tree that is read back from a layout has this layout.
pub fn second_layout_is_the_first()
    ensures { (tree other : Tree) → HasNoNul tree → IsWellFormed tree → IsWellFormed other → LexesAs (layout tree) (tokens_of other) → layout other ≡ layout tree }
{}

/// Words that are written as they are.
pub fn bare_words_are_written()
    ensures letters { word_layout (codes "echo") ≡ codes "echo" }
    ensures others { word_layout (codes "a_-./=:,+@%!?*$") ≡ codes "a_-./=:,+@%!?*$" }
    ensures reference { word_layout (codes "${V}") ≡ codes "${V}" }
    ensures braces { word_layout (codes "{}") ≡ codes "{}" }
    ensures brace_in_a_word { word_layout (codes "b{") ≡ codes "b{" }
{}

/// Words that stand in quotes.
pub fn quoted_words_are_written()
    ensures empty { word_layout [] ≡ codes "\"\"" }
    ensures open { word_layout (codes "{") ≡ codes "\"{\"" }
    ensures close { word_layout (codes "}") ≡ codes "\"}\"" }
    ensures comment { word_layout (codes "#a") ≡ codes "\"#a\"" }
    ensures space { word_layout (codes "a b") ≡ codes "\"a b\"" }
    ensures quote { word_layout (codes "a\"b") ≡ codes "\"a\\\"b\"" }
    ensures backslash { word_layout (codes "\\") ≡ codes "\"\\\\\"" }
    ensures newline_tab_return { word_layout (10 ∷ 9 ∷ 13 ∷ []) ≡ codes "\"\\n\\t\\r\"" }
    ensures control { word_layout (7 ∷ []) ≡ codes "\"\\0x07\"" }
    ensures before_a_digit { word_layout (1 ∷ codes "9") ≡ codes "\"\\0x019\"" }
    ensures delete { word_layout (127 ∷ []) ≡ codes "\"\\0x7f\"" }
    ensures above_ascii { word_layout (195 ∷ []) ≡ 34 ∷ 195 ∷ codes "\"" }
{}

/// `foreground { echo "a b" } true`
pub fn program_block_has_lines()
    ensures { layout (Node Foreground [] (one_place (block_place (Command (word (codes "echo") (word (codes "a b") nothing)))) unplaced) (Command (word (codes "true") nothing)))
        ≡ codes "foreground {\n  echo \"a b\"\n}\ntrue\n" }
{}

/// `ifelse -n { a } { } exit 3`
pub fn empty_block_has_no_line()
    ensures { layout (Node Ifelse (codes "-n" ∷ []) (one_place (block_place (Command (word (codes "a") nothing))) (one_place (block_place End) unplaced)) (Node Exit [] (one_place (text_place (codes "3")) unplaced) End))
        ≡ codes "ifelse -n {\n  a\n} {\n}\nexit 3\n" }
{}

/// `foreground { multisubstitute { define -s A b importas C c multidefine x { u v } } a }`
pub fn directives_have_lines()
    ensures { layout (Node Foreground [] (one_place (block_place (Node Multisubstitute [] (one_place (directives_place (directed Define (codes "-s" ∷ []) (one_place (text_place (codes "A")) (one_place (text_place (codes "b")) unplaced))
        (directed Importas [] (one_place (text_place (codes "C")) (one_place (text_place (codes "c")) unplaced))
        (directed Multidefine [] (one_place (text_place (codes "x")) (one_place (names_place (codes "u" ∷ codes "v" ∷ [])) unplaced)) undirected)))) unplaced)
        (Command (word (codes "a") nothing)))) unplaced) End)
        ≡ codes "foreground {\n  multisubstitute {\n    define -s A b\n    importas C c\n    multidefine x { u v }\n  }\n  a\n}\n" }
{}

/// `forx i { a { b } { } } wait { } echo { x { y } } z`
pub fn values_and_groups_stand_on_the_line()
    ensures { layout (Node Forx [] (one_place (text_place (codes "i")) (one_place (values_place (word (codes "a") (group (word (codes "b") nothing) (group nothing nothing)))) unplaced))
        (Node Wait [] (one_place (values_place nothing) unplaced)
        (Command (word (codes "echo") (group (word (codes "x") (group (word (codes "y") nothing) nothing)) (word (codes "z") nothing))))))
        ≡ codes "forx i { a { b } { } }\nwait { }\necho { x { y } } z\n" }
{}

/// `exit 3 a { b }`: the words behind exit stand on a line of their own.
pub fn ignored_words_have_a_line()
    ensures { layout (Node Exit [] (one_place (text_place (codes "3")) unplaced) (Command (word (codes "a") (group (word (codes "b") nothing) nothing))))
        ≡ codes "exit 3\na { b }\n" }
{}
