//! What is wrong with a script's text, and on which line.
ghost use Rattle.std.specs.Prelude.{◌≡◌};
ghost use Rattle.el_lex.specs.declared.fault.LexKind.TheVariants.{NoMemory as no_memory};
ghost use Rattle.el_lex.specs.Kinds.{kind_name};

use el_words::NoMemory;
use std::error::Error;
use std::fmt;

/// What is wrong with a script's text.
#[derive(Clone, Copy, Debug, PartialEq, Eq)]
pub enum LexKind {
    /// It has more than `MAX_SCRIPT` bytes.
    TooLong,
    /// A NUL byte is reached, be it in a comment, in quotes or after a backslash.
    Nul,
    /// It ends directly after an unescaped backslash outside comments.
    EndAfterBackslash,
    /// No hexadecimal digit stands after `\0x`.
    BadNumber,
    /// An escape's number is above 255.
    ByteTooLarge,
    /// An escape's number is 0.
    NulEscape,
    /// It ends inside quotes.
    OpenQuote,
    /// There is no memory for the tokens.
    NoMemory,
}

impl LexKind {
    /// The name by which messages call the kind.
    #[tactic(auto, unfolding(crate::specs::Kinds::kind_name))]
    pub fn name(self) -> &'static str
        ensures { result.now ≡ kind_name self }
    {
        match self {
            LexKind::TooLong => "TooLong",
            LexKind::Nul => "Nul",
            LexKind::EndAfterBackslash => "EndAfterBackslash",
            LexKind::BadNumber => "BadNumber",
            LexKind::ByteTooLarge => "ByteTooLarge",
            LexKind::NulEscape => "NulEscape",
            LexKind::OpenQuote => "OpenQuote",
            LexKind::NoMemory => "NoMemory",
        }
    }
}

/// The first fault of a script, and its line: of the NUL, of the escape's backslash or of the opening
/// quote. The line of `TooLong` is 1 and that of `NoMemory` is 0.
#[derive(Clone, Copy, Debug, PartialEq, Eq)]
pub struct LexFault {
    pub kind: LexKind,
    pub line: u32,
}

/// Writes the line and the name of the kind, as `line 3: OpenQuote`.
impl fmt::Display for LexFault {
    ghost use Rattle.std.specs.Prelude.{Some};
    ghost use Rattle.el_lex.specs.Kinds.{fault_text};

    ghost output = { λ fault. Some (fault_text fault) };

    #[tactic(auto, unfolding(crate::specs::Kinds::text_on_line))]
    fn fmt<W: fmt::Write>(&self, f: &mut fmt::Formatter<W>) -> fmt::Result {
        match self.kind {
            LexKind::NoMemory => f.write_str("no memory"),
            kind => write!(f, "line {}: {}", self.line, kind.name()),
        }
    }
}

impl Error for LexFault {}

impl From<NoMemory> for LexFault {
    ghost from_gives = { λ _ fault. fault ≡ record { kind = no_memory; line = 0 } };

    fn from(_: NoMemory) -> Self {
        LexFault {
            kind: LexKind::NoMemory,
            line: 0,
        }
    }
}
