//! What begins at a word where a test is due.

ghost use Rattle.std.specs.Prelude.{◌≡◌, ◌-◌, Err, is_some};
ghost use Rattle.std.specs.Option.{option_copied};
ghost use Rattle.el_words.specs.Number.{number_of};
ghost use Rattle.el_test.specs.Operators.{is_numeric, holds, prefix_named};
ghost use Rattle.el_test.specs.Reading.{numbers_checked};
ghost use Rattle.el_test.specs.declared.walking.Look.TheVariants.{Compared};
ghost use Rattle.el_test.specs.Walking.{look_of, prefix_look, text_look, stray};

use crate::fault::TestKind;
use crate::names::{binary_of, holds, prefix_of};
use crate::operators::{Binary, Prefix, Unary};
use crate::walking::{Look, Stop};
use el_words::parse_u64;

/// What begins at `first`, which stands before `second` and `third`, with so many words left from it on.
#[tactic(auto, unfolding(crate::specs::Walking::look_of, crate::specs::Walking::binary_look, crate::specs::Walking::binary_at))]
pub fn look(
    first: &[u8],
    second: Option<&[u8]>,
    third: Option<&[u8]>,
    left: usize,
) -> Result<Look, Stop>
    ensures { result ≡ look_of first.now (option_copied second.entry) (option_copied third.entry) left }
{
    if let (Some(second), Some(third)) = (second, third)
        && let Some(operator) = binary_of(second)
    {
        return compare(operator, first, third, left);
    }
    look_prefix(first, second, third, left)
}

fn compare(operator: Binary, first: &[u8], third: &[u8], left: usize) -> Result<Look, Stop>
    ensures { result ≡ numbers_checked (is_numeric operator) (is_some (number_of first.now)) (is_some (number_of third.now)) left (left - 2) (Compared (holds operator first.now third.now)) }
{
    if operator.is_numeric() {
        if parse_u64(first).is_none() {
            return wrong(TestKind::BadNumber, left);
        }
        if parse_u64(third).is_none() {
            return wrong(TestKind::BadNumber, left.saturating_sub(2));
        }
    }
    Ok(Look::Compared(holds(operator, first, third)))
}

#[tactic(auto, unfolding(crate::specs::Walking::prefix_look))]
fn look_prefix(
    first: &[u8],
    second: Option<&[u8]>,
    third: Option<&[u8]>,
    left: usize,
) -> Result<Look, Stop>
    ensures { result ≡ prefix_look (prefix_named first.now) (option_copied second.entry) (option_copied third.entry) left }
{
    match prefix_of(first) {
        Some(Prefix::Not) => Ok(Look::Not),
        Some(Prefix::Open) => Ok(Look::Open),
        Some(Prefix::On(operator)) => match second {
            Some(text) => Ok(look_text(operator, text)),
            None => wrong(TestKind::Incomplete, 0),
        },
        None => stray(second, third, left),
    }
}

fn look_text(operator: Unary, text: &[u8]) -> Look
    ensures { result ≡ text_look operator text.now }
{
    match operator {
        Unary::Filled => Look::Known(!text.is_empty()),
        Unary::Blank => Look::Known(text.is_empty()),
        Unary::Asked(question) => Look::Asks(question),
    }
}

fn stray(second: Option<&[u8]>, third: Option<&[u8]>, left: usize) -> Result<Look, Stop>
    ensures { result ≡ stray (option_copied second.entry) (option_copied third.entry) left }
{
    match second {
        None => wrong(TestKind::Incomplete, 0),
        Some(second) => match third {
            None => {
                if binary_of(second).is_some() {
                    wrong(TestKind::Incomplete, 0)
                } else {
                    wrong(TestKind::Unexpected, 1)
                }
            }
            Some(_) => wrong(TestKind::Unexpected, left.saturating_sub(1)),
        },
    }
}

/// The error of a walk that stops for this fault, with so many words left from its word on.
pub fn wrong<T>(kind: TestKind, left: usize) -> Result<T, Stop>
    ensures { result ≡ Err (record { kind = kind; left = left }) }
{
    Err(Stop { kind, left })
}
