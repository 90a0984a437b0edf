//! Why a program ends behind a message, and with which status.
ghost use Rattle.std.specs.Prelude.{◌≡◌, IfOk, [], ◌∷◌, ◌++◌, codes};
ghost use Rattle.std.specs.Fmt.{decimal};
ghost use Rattle.el_proc.specs.Troubles.{kind_text, trouble_text, trouble_status};

use crate::kind::Kind;
use el_words::{Bytes, NoMemory, put_u64};
use std::alloc::Global;

/// The status behind wrong use.
pub const WRONG_USE: u8 = 100;
/// The status behind a call that failed.
pub const FAILED_CALL: u8 = 111;
/// The status behind a command that can't be started.
pub const NOT_STARTABLE: u8 = 126;
/// The status behind a command that isn't found.
pub const NOT_FOUND: u8 = 127;

/// What a process complains of.
#[derive(Clone, Copy, PartialEq, Eq)]
pub enum Trouble {
    /// A letter isn't known.
    Unknown { letter: u8 },
    /// No word is left for a letter's value.
    NoValue { letter: u8 },
    /// The letters, the numbers or the words are wrongly used.
    Usage,
    /// A word is no number that may stand there.
    BadNumber,
    /// No word is left for a place.
    Missing,
    /// No empty word ends a block.
    Unterminated,
    /// A word in a block has no leading space.
    Unquoted,
    /// A key or a variable's name can't be one.
    BadName,
    /// A directive's first word names none.
    BadDirective,
    /// A descriptor is 64 or more.
    OutOfRange,
    /// A variable isn't set.
    NotSet,
    /// There are no positional parameters.
    NoFrame,
    /// No further frame can be pushed.
    FrameTooDeep,
    /// A value is no sequence of netstrings.
    BadNetstring,
    /// A line sets no variable.
    BadLine,
    /// A NUL stands in an input.
    NulInput,
    /// The first word names no program.
    UnknownProgram,
    /// The script has this fault on this line.
    Script { line: u32, kind: Kind },
    /// A descriptor holds nothing.
    NotOpen,
    /// A call failed.
    Failed,
    /// The command can't be started.
    NotStartable,
    /// The command isn't found.
    NotFound,
}

impl Trouble {
    /// The text of its message, without name and newline.
    #[tactic(auto, unfolding(crate::specs::Troubles::trouble_text))]
    pub fn text(self, alloc: Global) -> Result<Bytes, NoMemory>
        ensures { IfOk result (λ text. text ≡ trouble_text self) }
    {
        let text = match self {
            Trouble::Unknown { letter } => return unknown_text(alloc, letter),
            Trouble::NoValue { letter } => return no_value_text(alloc, letter),
            Trouble::Script { line, kind } => return script_text(alloc, line, kind),
            Trouble::Usage => b"wrong usage".as_slice(),
            Trouble::BadNumber => b"bad number".as_slice(),
            Trouble::Missing => b"argument missing".as_slice(),
            Trouble::Unterminated => b"unterminated block".as_slice(),
            Trouble::Unquoted => b"unquoted word in block".as_slice(),
            Trouble::BadName => b"bad variable name".as_slice(),
            Trouble::BadDirective => b"bad directive".as_slice(),
            Trouble::OutOfRange => b"descriptor out of range".as_slice(),
            Trouble::NotSet => b"variable not set".as_slice(),
            Trouble::NoFrame => b"no positional parameters".as_slice(),
            Trouble::FrameTooDeep => b"frame too deep".as_slice(),
            Trouble::BadNetstring => b"bad netstring".as_slice(),
            Trouble::BadLine => b"bad line".as_slice(),
            Trouble::NulInput => b"NUL in input".as_slice(),
            Trouble::UnknownProgram => b"unknown program".as_slice(),
            Trouble::NotOpen => b"descriptor not open".as_slice(),
            Trouble::Failed => b"system call failed".as_slice(),
            Trouble::NotStartable => b"command not startable".as_slice(),
            Trouble::NotFound => b"command not found".as_slice(),
        };
        Bytes::from_slice(alloc, text)
    }

    /// Whether the program was called wrongly, so that the way to call it is worth saying.
    pub(crate) fn is_of_usage(self) -> bool {
        matches!(
            self,
            Trouble::Unknown { .. } | Trouble::NoValue { .. } | Trouble::Usage | Trouble::Missing
        )
    }

    /// The status with which a process ends after it.
    #[tactic(auto, unfolding(crate::specs::Troubles::trouble_status))]
    pub fn status(self) -> u8
        ensures { result ≡ trouble_status self }
    {
        match self {
            Trouble::NotOpen | Trouble::Failed => FAILED_CALL,
            Trouble::NotStartable => NOT_STARTABLE,
            Trouble::NotFound => NOT_FOUND,
            _ => WRONG_USE,
        }
    }
}

fn unknown_text(alloc: Global, letter: u8) -> Result<Bytes, NoMemory>
    ensures { IfOk result (λ text. text ≡ codes "unknown option -" ++ letter ∷ []) }
{
    let mut text = Bytes::from_slice(alloc, b"unknown option -")?;
    text.push(letter)?;
    Ok(text)
}

fn no_value_text(alloc: Global, letter: u8) -> Result<Bytes, NoMemory>
    ensures { IfOk result (λ text. text ≡ codes "option -" ++ letter ∷ [] ++ codes " needs a value") }
{
    let mut text = Bytes::from_slice(alloc, b"option -")?;
    text.push(letter)?;
    text.append(b" needs a value")?;
    Ok(text)
}

fn script_text(alloc: Global, line: u32, kind: Kind) -> Result<Bytes, NoMemory>
    ensures { IfOk result (λ text. text ≡ codes "line " ++ decimal line ++ codes ": " ++ kind_text kind) }
{
    let mut text = Bytes::from_slice(alloc, b"line ")?;
    text.append(put_u64(alloc, u64::from(line))?.as_bytes())?;
    text.append(b": ")?;
    text.append(kind.name())?;
    Ok(text)
}
