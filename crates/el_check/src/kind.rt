//! What is wrong with a script, and on which line.
ghost use Rattle.std.specs.Prelude.{◌≡◌};
ghost use Rattle.el_check.specs.declared.kind.CheckKind.TheVariants.{NoMemory as no_memory};
ghost use Rattle.el_check.specs.Kinds.{kind_name};

use el_words::NoMemory;
use std::error::Error;
use std::fmt;

/// What is wrong with a script. The kinds of lexing stand first, then those of braces, and then those of trees, in the order in
/// which they count at one token.
#[derive(Clone, Copy, Debug, PartialEq, Eq)]
pub enum CheckKind {
    /// It has more bytes than a script may have.
    TooLong,
    /// A NUL byte is reached.
    Nul,
    /// It ends directly after an unescaped backslash outside comments.
    EndAfterBackslash,
    /// No hexadecimal digit stands after `\0x`; or a number is none, or too large.
    BadNumber,
    /// An escape's number is above 255.
    ByteTooLarge,
    /// An escape's number is 0.
    NulEscape,
    /// It ends inside quotes.
    OpenQuote,
    /// A Close closes no block.
    StrayClose,
    /// An Open would make 256 levels.
    TooDeep,
    /// An Open is never closed.
    Unclosed,
    /// A block is needed, and a word or the end stands there.
    BlockMissing,
    /// A block is needed, and a word with `$` stands there.
    BlockNotLiteral,
    /// An option, its value or the number of `shift` isn't literal.
    OptionNotLiteral,
    /// A name isn't literal.
    NameNotLiteral,
    /// An option is unknown, lacks its value, or is used wrongly.
    BadOption,
    /// What begins a directive doesn't name one.
    BadDirective,
    /// A word is missing.
    ArgumentMissing,
    /// A block, or a word that becomes any number of words, stands where one word does.
    ManyWordsInOnePlace,
    /// A word that may become any number of words by a later substitution stands where one word does.
    ManyAfterValue,
    /// A word with `$` stands where it may become an option.
    OptionFromValue,
    /// There is no memory for the tree.
    NoMemory,
}

impl CheckKind {
    /// The name by which messages call the kind.
    #[tactic(auto, unfolding(crate::specs::Kinds::kind_name))]
    pub fn name(self) -> &'static str
        ensures { result.now ≡ kind_name self }
    {
        match self {
            CheckKind::TooLong => "TooLong",
            CheckKind::Nul => "Nul",
            CheckKind::EndAfterBackslash => "EndAfterBackslash",
            CheckKind::BadNumber => "BadNumber",
            CheckKind::ByteTooLarge => "ByteTooLarge",
            CheckKind::NulEscape => "NulEscape",
            CheckKind::OpenQuote => "OpenQuote",
            CheckKind::StrayClose => "StrayClose",
            CheckKind::TooDeep => "TooDeep",
            CheckKind::Unclosed => "Unclosed",
            CheckKind::BlockMissing => "BlockMissing",
            CheckKind::BlockNotLiteral => "BlockNotLiteral",
            CheckKind::OptionNotLiteral => "OptionNotLiteral",
            CheckKind::NameNotLiteral => "NameNotLiteral",
            CheckKind::BadOption => "BadOption",
            CheckKind::BadDirective => "BadDirective",
            CheckKind::ArgumentMissing => "ArgumentMissing",
            CheckKind::ManyWordsInOnePlace => "ManyWordsInOnePlace",
            CheckKind::ManyAfterValue => "ManyAfterValue",
            CheckKind::OptionFromValue => "OptionFromValue",
            CheckKind::NoMemory => "NoMemory",
        }
    }
}

/// The first fault of a script, and its line. The line of `TooLong` is 1 and that of `NoMemory` is 0.
#[derive(Clone, Copy, Debug, PartialEq, Eq)]
pub struct CheckFault {
    pub kind: CheckKind,
    pub line: u32,
}

/// Writes the line and the name of the kind, as `line 3: BlockMissing`.
impl fmt::Display for CheckFault {
    ghost use Rattle.std.specs.Prelude.{Some};
    ghost use Rattle.el_check.specs.Kinds.{fault_text};

    ghost output = { λ fault. Some (fault_text fault) };

    #[tactic(auto, unfolding(crate::specs::Kinds::text_on_line))]
    fn fmt<W: fmt::Write>(&self, f: &mut fmt::Formatter<W>) -> fmt::Result {
        match self.kind {
            CheckKind::NoMemory => f.write_str("no memory"),
            kind => write!(f, "line {}: {}", self.line, kind.name()),
        }
    }
}

impl Error for CheckFault {}

impl From<NoMemory> for CheckFault {
    ghost from_gives = { λ _ fault. fault ≡ record { kind = no_memory; line = 0 } };

    fn from(_: NoMemory) -> Self {
        CheckFault {
            kind: CheckKind::NoMemory,
            line: 0,
        }
    }
}
