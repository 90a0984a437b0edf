//! The rules on the values of letters.
ghost use Rattle.std.specs.Prelude.{◌≡◌, ◌==◌, [], ◌∷◌};
ghost use Rattle.std.specs.List.{list_all, slice_split};
ghost use Rattle.el_options.specs.Rules.{Number as NumberRule, any_text, ruled, is_number_up_to, is_wrong_use, is_bad_number};
ghost use Rattle.el_options.specs.Shapes.{shape_of, loop_rule, positionals_rule};
ghost use Rattle.el_options.specs.RulesTold.{rule_told};

use el_words::{Prog, parse_u64};

// The greatest number of positional parameters.
const MOST_POSITIONALS: u64 = 65535;

// The greatest exit status.
const MOST_STATUS: u64 = 255;

/// What the value of a letter must be.
#[derive(Clone, Copy, PartialEq, Eq)]
pub enum Rule {
    /// Any text.
    AnyText,
    /// A number up to this.
    Number { most: u64 },
    /// One number up to this, or more of them, parted by commas.
    Numbers { most: u64 },
    /// Any text but the empty one.
    NonEmpty,
}

/// The rule on the value of a program's letter.
#[tactic(auto, unfolding(crate::specs::Shapes::shape_of))]
pub fn rule_on(program: Prog, letter: u8) -> Rule
    ensures { rule_told result ≡ (shape_of program).rule letter }
{
    match program {
        Prog::Elgetpositionals => number_rule(b'P', MOST_POSITIONALS, letter),
        Prog::If => number_rule(b'x', MOST_STATUS, letter),
        Prog::Loopwhilex | Prog::Forx | Prog::Forstdin | Prog::Forbacktickx => loop_rule(letter),
        _ => Rule::AnyText,
    }
}

/// The rule on the letters of the calls that stand in no chain: the values of `-S` and `-s` are numbers
/// of positional parameters.
pub fn rule_on_positionals(letter: u8) -> Rule
    ensures { rule_told result ≡ positionals_rule letter }
{
    match letter {
        b'S' | b's' => Rule::Number {
            most: MOST_POSITIONALS,
        },
        _ => Rule::AnyText,
    }
}

// The value of one letter is a number, and those of others are any text.
fn number_rule(numbered: u8, most: u64, letter: u8) -> Rule
    ensures { rule_told result ≡ ruled (numbered ∷ []) (NumberRule most) any_text letter }
{
    if letter == numbered {
        Rule::Number { most }
    } else {
        Rule::AnyText
    }
}

// The exit statuses of loops, and delimiters.
fn loop_rule(letter: u8) -> Rule
    ensures { rule_told result ≡ loop_rule letter }
{
    match letter {
        b'o' | b'x' => Rule::Numbers { most: MOST_STATUS },
        b'd' => Rule::NonEmpty,
        _ => Rule::AnyText,
    }
}

/// Whether a value is empty where it mustn't be.
pub fn is_wrong_use(rule: Rule, text: &[u8]) -> bool
    ensures { result ≡ is_wrong_use (rule_told rule) text.now }
{
    matches!(rule, Rule::NonEmpty) && text.is_empty()
}

/// Whether a value is no number, or none of so many, where it must be.
pub fn is_bad_number(rule: Rule, text: &[u8]) -> bool
    ensures { result ≡ is_bad_number (rule_told rule) text.now }
{
    match rule {
        Rule::Number { most } => !is_number_up_to(most, text),
        Rule::Numbers { most } => !are_numbers_up_to(most, text),
        Rule::AnyText | Rule::NonEmpty => false,
    }
}

fn are_numbers_up_to(most: u64, text: &[u8]) -> bool
    ensures { result ≡ list_all (is_number_up_to most) (slice_split (λ byte. byte == 44) text.now) }
{
    text.split(|byte| *byte == b',')
        .all(|part| is_number_up_to(most, part))
}

fn is_number_up_to(most: u64, text: &[u8]) -> bool
    ensures { result ≡ is_number_up_to most text.now }
{
    match parse_u64(text) {
        Some(number) => number <= most,
        None => false,
    }
}
