//! What a tool is asked for.
ghost use Rattle.std.specs.Prelude.{◌≡◌};
ghost use Rattle.el_app.specs.Params.{params_of};

use el_check::Params;
use el_options::Strictness;
use el_words::{Word, Words};
use el_world::Subject;

/// Where a script is.
#[derive(Drop)]
pub(crate) enum Source {
    /// In this word.
    Inline(Word),
    /// In the file with this name.
    File(Word),
}

impl Source {
    /// The script as a message names it.
    pub(crate) fn subject(&self) -> Subject<'_> {
        match self {
            Source::Inline(_) => Subject::saying(b"the script of -c"),
            Source::File(path) => Subject::of(b"file", path.as_bytes()),
        }
    }
}

/// What becomes of the words behind a script.
#[derive(Clone, Copy)]
pub(crate) enum Placement {
    /// What one of the modes says in which scripts are checked.
    By(Params),
    /// They are put in the script's words, as under `Params::Subst`, but that `@` leaves out so many of them.
    Shifted(u64),
}

impl Placement {
    /// The mode in which a script is checked that is called so.
    pub(crate) fn params(self) -> Params
        ensures { result ≡ params_of self }
    {
        match self {
            Placement::By(params) => params,
            Placement::Shifted(least) => Params::Subst(least),
        }
    }
}

/// What is asked for: where the script is, how strict its programs are to be where a letter says so, what
/// becomes of the words behind it, whether its tree is to be upgraded and its comments are kept, and these words.
#[derive(Drop)]
pub(crate) struct Asked {
    pub(crate) source: Source,
    pub(crate) strict: Option<Strictness>,
    pub(crate) placement: Placement,
    pub(crate) upgrades: bool,
    pub(crate) keeps: bool,
    pub(crate) args: Words,
}
