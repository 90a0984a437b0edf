//! Laws of layouts with the comments of a script: functions that do nothing, whose contracts are the laws.
ghost use Rattle.std.specs.Prelude.{◌≡◌, ℕ, true, List, [], ◌∷◌, ◌++◌};
ghost use Rattle.el_lex.specs.Reading.{Item, text, fit, is_comment};
ghost use Rattle.el_keep.specs.Kept.{kept};
ghost use Rattle.el_keep.specs.Widened.{widened};
ghost use Rattle.el_keep.specs.Texts.{kept_text, widened_text, kept_wider};
ghost use Rattle.el_keep.specs.Laws.{AreAlike, HasComments, HasFewBreaks, IsWider, spread};

/// What `keep` computes is the text of the words of the layout, with what the script has between its words.
pub fn texts_are_kept()
    ensures { (layout script : List Item) → fit layout [] ≡ true → fit script [] ≡ true → kept_text (text layout) (text script) ≡ text (kept layout script) }
{}

/// It reads as the tokens of the layout, but for their lines.
pub fn tokens_stay()
    ensures { (layout script : List ℕ) → AreAlike layout script → AreAlike layout (kept_text layout script) }
{}

/// Its comments are the script's: each once, in their order, with each byte, and before the same token.
pub fn comments_stay()
    ensures same { (layout script : List ℕ) (comments : List (List (List ℕ))) → AreAlike layout script → HasComments script comments → HasComments (kept_text layout script) comments }
    ensures one { (script : List ℕ) (one other : List (List (List ℕ))) → HasComments script one → HasComments script other → one ≡ other }
{}

/// Where a script begins with a comment, as one with `#!`, what is kept begins with the same line.
pub fn first_line_stays()
    ensures { (layout script line behind : List ℕ) → AreAlike layout script → is_comment line ≡ true → script ≡ 35 ∷ (line ++ 10 ∷ behind)
        → (after : List ℕ) × (kept_text layout script ≡ 35 ∷ (line ++ 10 ∷ after)) }
{}

/// No two empty lines follow each other.
pub fn empty_lines_are_few()
    ensures { (layout script : List ℕ) → AreAlike layout script → HasFewBreaks (kept_text layout script) }
{}

/// Keeping the comments of what is kept changes nothing.
pub fn second_time_changes_nothing()
    ensures { (layout script : List ℕ) → AreAlike layout script → kept_text layout (kept_text layout script) ≡ kept_text layout script }
{}

/// What `keep_wider` widens is the text of the script with the words of the layout.
pub fn texts_are_widened()
    ensures { (plain layout script : List Item) → fit plain [] ≡ true → fit layout [] ≡ true → fit script [] ≡ true
        → widened_text (text plain) (text layout) (text script) ≡ text (widened plain layout script) }
{}

/// With a wider layout it reads as the tokens of this layout, but for their lines.
pub fn wider_tokens_stay()
    ensures { (plain layout script : List ℕ) → IsWider plain layout script → AreAlike layout (kept_wider plain layout script) }
{}

/// Its comments are the script's: each once, in their order, with each byte, before the same token, and none before one that the
/// script hasn't.
pub fn wider_comments_stay()
    ensures { (plain layout script : List ℕ) (comments : List (List (List ℕ))) (wider : IsWider plain layout script) → HasComments script comments
        → HasComments (kept_wider plain layout script) (spread wider comments) }
{}

/// The first line stays.
pub fn wider_first_line_stays()
    ensures { (plain layout script line behind : List ℕ) → IsWider plain layout script → is_comment line ≡ true → script ≡ 35 ∷ (line ++ 10 ∷ behind)
        → (after : List ℕ) × (kept_wider plain layout script ≡ 35 ∷ (line ++ 10 ∷ after)) }
{}

/// No two empty lines follow each other.
pub fn wider_empty_lines_are_few()
    ensures { (plain layout script : List ℕ) → IsWider plain layout script → HasFewBreaks (kept_wider plain layout script) }
{}

/// Where the layout has no more words than the script, `keep_wider` is `keep`.
pub fn nothing_is_wider()
    ensures { (layout script : List ℕ) → AreAlike layout script → kept_wider layout layout script ≡ kept_text layout script }
{}

/// Once more it changes nothing.
pub fn wider_second_time_changes_nothing()
    ensures { (plain layout script : List ℕ) → IsWider plain layout script → kept_wider layout layout (kept_wider plain layout script) ≡ kept_wider plain layout script }
{}
