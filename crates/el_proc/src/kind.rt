//! What is wrong with a script, of all kinds.
ghost use Rattle.std.specs.Prelude.{◌≡◌};
ghost use Rattle.el_proc.specs.Troubles.{kind_text};

/// What is wrong with a script: of lexing, of braces, and of checking.
#[derive(Clone, Copy, PartialEq, Eq)]
pub enum Kind {
    /// It has more bytes than a script may have.
    TooLong,
    /// A NUL byte is reached.
    Nul,
    /// It ends directly after an unescaped backslash outside comments.
    EndAfterBackslash,
    /// No hexadecimal digit stands after `\0x`; or a number is none, or too large.
    BadNumber,
    /// An escape's number is above 255.
    ByteTooLarge,
    /// An escape's number is 0.
    NulEscape,
    /// It ends inside quotes.
    OpenQuote,
    /// A Close closes no block.
    StrayClose,
    /// An Open would make 256 levels.
    TooDeep,
    /// An Open is never closed.
    Unclosed,
    /// A block is needed, and a word or the end stands there.
    BlockMissing,
    /// A block is needed, and a word with `$` stands there.
    BlockNotLiteral,
    /// An option, its value or the number of `shift` isn't literal.
    OptionNotLiteral,
    /// A name isn't literal.
    NameNotLiteral,
    /// An option is unknown, lacks its value, or is used wrongly.
    BadOption,
    /// What begins a directive doesn't name one.
    BadDirective,
    /// A word is missing.
    ArgumentMissing,
    /// A block, or a word that becomes any number of words, stands where one word does.
    ManyWordsInOnePlace,
    /// A word that may become any number of words by a later substitution stands where one word does.
    ManyAfterValue,
    /// A word with `$` stands where it may become an option.
    OptionFromValue,
}

impl Kind {
    /// What is wrong, in a sentence for the person who wrote the script.
    pub fn sentence(self) -> &'static [u8] {
        match self {
            Kind::TooLong => b"the script has more than 1048576 bytes",
            Kind::Nul => b"there is a NUL byte here",
            Kind::EndAfterBackslash => b"the script ends after a backslash",
            Kind::BadNumber => b"a number is missing here, or it is too large",
            Kind::ByteTooLarge => b"the number after this backslash is above 255",
            Kind::NulEscape => b"the number after this backslash is 0, and no word can hold a NUL",
            Kind::OpenQuote => b"the string that begins here has no closing quote",
            Kind::StrayClose => b"this } closes no {",
            Kind::TooDeep => b"more than 255 blocks are nested",
            Kind::Unclosed =>
                b"the { here is never closed; a brace must stand alone between blanks",
            Kind::BlockMissing => b"a block in { } is missing here",
            Kind::BlockNotLiteral => b"a block in { } is wanted here, and a value can't be one",
            Kind::OptionNotLiteral => b"an option must be written out, without $",
            Kind::NameNotLiteral => b"a name must be written out, without $",
            Kind::BadOption => b"there is no such option, or its value is missing or wrong",
            Kind::BadDirective => {
                b"a directive begins with define, importas, multidefine or elgetpositionals"
            }
            Kind::ArgumentMissing => b"an argument is missing",
            Kind::ManyWordsInOnePlace => b"one word is wanted here, and these can be several",
            Kind::ManyAfterValue => b"one word is wanted here, and a value can become several",
            Kind::OptionFromValue => b"a value could become an option here: put -- before it",
        }
    }

    /// The kind as messages name it.
    #[tactic(auto, unfolding(crate::specs::Troubles::kind_text))]
    pub fn name(self) -> &'static [u8]
        ensures { result.now ≡ kind_text self }
    {
        match self {
            Kind::TooLong => b"TooLong",
            Kind::Nul => b"Nul",
            Kind::EndAfterBackslash => b"EndAfterBackslash",
            Kind::BadNumber => b"BadNumber",
            Kind::ByteTooLarge => b"ByteTooLarge",
            Kind::NulEscape => b"NulEscape",
            Kind::OpenQuote => b"OpenQuote",
            Kind::StrayClose => b"StrayClose",
            Kind::TooDeep => b"TooDeep",
            Kind::Unclosed => b"Unclosed",
            Kind::BlockMissing => b"BlockMissing",
            Kind::BlockNotLiteral => b"BlockNotLiteral",
            Kind::OptionNotLiteral => b"OptionNotLiteral",
            Kind::NameNotLiteral => b"NameNotLiteral",
            Kind::BadOption => b"BadOption",
            Kind::BadDirective => b"BadDirective",
            Kind::ArgumentMissing => b"ArgumentMissing",
            Kind::ManyWordsInOnePlace => b"ManyWordsInOnePlace",
            Kind::ManyAfterValue => b"ManyAfterValue",
            Kind::OptionFromValue => b"OptionFromValue",
        }
    }
}
