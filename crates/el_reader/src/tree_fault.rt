//! Why tokens are no tree, and on which line.
ghost use Rattle.std.specs.Prelude.{◌≡◌};
ghost use Rattle.el_reader.specs.declared.tree_fault.TreeKind.TheVariants.{NoMemory as no_memory};
ghost use Rattle.el_reader.specs.Kinds.{kind_name};

use el_words::NoMemory;
use std::error::Error;
use std::fmt;

/// Why tokens are no tree. Fixed places aren't tested.
#[derive(Clone, Copy, Debug, PartialEq, Eq)]
pub enum TreeKind {
    /// A block is needed, and a word or the end stands there.
    BlockMissing,
    /// A block is needed, and a word with `$` stands there.
    BlockNotLiteral,
    /// An option, its value or the number of `shift` isn't literal.
    OptionNotLiteral,
    /// A name isn't literal.
    NameNotLiteral,
    /// An option is unknown, lacks its value, or is used wrongly.
    BadOption,
    /// A number is none, or too large.
    BadNumber,
    /// What begins a directive doesn't name one.
    BadDirective,
    /// A word is missing.
    ArgumentMissing,
    /// A block stands where one word does.
    ManyWordsInOnePlace,
    /// A word with `$` stands where it may become an option.
    OptionFromValue,
    /// There is no memory for the tree.
    NoMemory,
}

impl TreeKind {
    /// The name by which messages call the kind.
    #[tactic(auto, unfolding(crate::specs::Kinds::kind_name))]
    pub fn name(self) -> &'static str
        ensures { result.now ≡ kind_name self }
    {
        match self {
            TreeKind::BlockMissing => "BlockMissing",
            TreeKind::BlockNotLiteral => "BlockNotLiteral",
            TreeKind::OptionNotLiteral => "OptionNotLiteral",
            TreeKind::NameNotLiteral => "NameNotLiteral",
            TreeKind::BadOption => "BadOption",
            TreeKind::BadNumber => "BadNumber",
            TreeKind::BadDirective => "BadDirective",
            TreeKind::ArgumentMissing => "ArgumentMissing",
            TreeKind::ManyWordsInOnePlace => "ManyWordsInOnePlace",
            TreeKind::OptionFromValue => "OptionFromValue",
            TreeKind::NoMemory => "NoMemory",
        }
    }
}

/// The first fault of tokens, and its line: of the token that is wrong, or, where a block or the script ends too
/// early, of the last one before. The line of `NoMemory` is 0.
#[derive(Clone, Copy, Debug, PartialEq, Eq)]
pub struct TreeFault {
    pub kind: TreeKind,
    pub line: u32,
}

/// Writes the line and the name of the kind, as `line 3: BlockMissing`.
impl fmt::Display for TreeFault {
    ghost use Rattle.std.specs.Prelude.{Some};
    ghost use Rattle.el_reader.specs.Kinds.{text_on_line};

    ghost output = { λ fault. Some (text_on_line fault.line fault.kind) };

    #[tactic(auto, unfolding(crate::specs::Kinds::text_on_line))]
    fn fmt<W: fmt::Write>(&self, f: &mut fmt::Formatter<W>) -> fmt::Result {
        match self.kind {
            TreeKind::NoMemory => f.write_str("no memory"),
            kind => write!(f, "line {}: {}", self.line, kind.name()),
        }
    }
}

impl Error for TreeFault {}

impl From<NoMemory> for TreeFault {
    ghost from_gives = { λ _ fault. fault ≡ record { kind = no_memory; line = 0 } };

    fn from(_: NoMemory) -> Self {
        TreeFault {
            kind: TreeKind::NoMemory,
            line: 0,
        }
    }
}
