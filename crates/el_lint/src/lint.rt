//! What may be a mistake in a script.

use crate::stranger::Stranger;
use crate::wanted::Wanted;
use el_words::{Bytes, Prog};

/// What may be a mistake.
#[derive(Drop)]
pub enum Lint {
    /// A command's first word, of which one edit makes the name of this program.
    Misspelled {
        word: Bytes,
        program: Prog,
    },
    /// A command that is a program of skarnet's execline, and none here.
    Stranger {
        stranger: Stranger,
    },
    /// A reference with this key, in whose place nothing puts a value.
    Unset {
        key: Bytes,
    },
    /// A name that is put in, and to which no word refers.
    Unused {
        name: Bytes,
    },
    /// A word that its program refuses where it is reached.
    Refused {
        program: Prog,
        wanted: Wanted,
        word: Bytes,
    },
    /// A command's first word, in which a value is put.
    Valued {
        word: Bytes,
    },
    /// A shell's text, in which a value is put.
    Coded {
        word: Bytes,
    },
    /// A program of the chain with a block, which a command of the system starts.
    Loaded {
        program: Prog,
    },
    /// A path of redirfd that stands for a descriptor.
    Opened {
        word: Bytes,
    },
    /// A loop over an input with a turn for each word.
    Worded {
        program: Prog,
    },
    /// A name of backtick's, whose block may fail, where a word that refers to it is risked.
    Unchecked {
        name: Bytes,
    },
    /// A word of fdmove or fdswap that names a descriptor which no program of the script makes.
    Inherited {
        program: Prog,
        word: Bytes,
    },
    /// The first word of a test that may not be found, where a program goes on if it doesn't hold.
    Negated {
        word: Bytes,
    },
}
