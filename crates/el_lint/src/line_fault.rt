//! Why a script can't be called as its first bytes say.
ghost use Rattle.std.specs.Prelude.{◌≡◌};
ghost use Rattle.el_lint.specs.LineFaults.{line_fault_kind, line_fault_sentence};

/// Why a script can't be called as its first bytes say. The kinds and their order are those of elcheck-files(1).
#[derive(Clone, Copy, Debug, PartialEq, Eq)]
pub enum LineFault {
    /// The first line names another program.
    NotExecline,
    /// The script begins with a byte order mark.
    ByteOrderMark,
    /// The first line ends with a carriage return.
    CarriageReturn,
    /// Several words follow the path of execlineb, and the system joins them.
    SeveralWords,
    /// Words follow execlineb, and env gets all of them as one name.
    TakenWhole,
    /// execlineb has no such option, or its value is missing.
    BadOption,
    /// The value of `-S` or `-s` is no number up to 65,535.
    BadNumber,
    /// A word follows the options.
    WordBehind,
}

impl LineFault {
    /// Its kind, as elcheck-files names it.
    #[tactic(auto, unfolding(crate::specs::LineFaults::line_fault_kind))]
    pub fn kind(self) -> &'static [u8]
        ensures { result.now ≡ line_fault_kind self }
    {
        match self {
            LineFault::NotExecline => b"NotExecline",
            LineFault::ByteOrderMark => b"ByteOrderMark",
            LineFault::BadNumber => b"BadNumber",
            LineFault::CarriageReturn => b"BadOption",
            LineFault::SeveralWords => b"BadOption",
            LineFault::TakenWhole => b"BadOption",
            LineFault::BadOption => b"BadOption",
            LineFault::WordBehind => b"BadOption",
        }
    }

    /// What is wrong, and its cure.
    #[tactic(auto, unfolding(crate::specs::LineFaults::line_fault_sentence))]
    pub fn sentence(self) -> &'static [u8]
        ensures { result.now ≡ line_fault_sentence self }
    {
        match self {
            LineFault::NotExecline => b"the first line names another program than execlineb",
            LineFault::ByteOrderMark => {
                b"the file begins with a byte order mark, which is part of its first word: save it without one"
            }
            LineFault::CarriageReturn => {
                b"the first line ends with a carriage return, which is part of its last word: end lines with a newline alone"
            }
            LineFault::SeveralWords => {
                b"the system passes all words after the path as one: `#!/usr/bin/env -S execlineb ..` takes them apart"
            }
            LineFault::TakenWhole => {
                b"the system passes all words after `env` as one, which is taken as a program's name: write `env -S execlineb ..`"
            }
            LineFault::BadOption => {
                b"execlineb lacks this option or its value: the options are -P, -S N, -s N, -q, -w and -W"
            }
            LineFault::BadNumber => b"the number of -S or -s is none up to 65535",
            LineFault::WordBehind => {
                b"a word follows the options of execlineb, which takes it as the script's file"
            }
        }
    }
}
