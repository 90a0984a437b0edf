//! Programs of skarnet's execline that this project hasn't.
ghost use Rattle.std.specs.Prelude.{◌≡◌};
ghost use Rattle.el_lint.specs.Strangers.{stranger_name, stranger_cure, stranger_named};

/// A program of skarnet's execline that this project hasn't.
#[derive(Clone, Copy, PartialEq, Eq)]
pub enum Stranger {
    Case,
    Dollarat,
    Fdblock,
    Fdreserve,
    For,
    Forbacktick,
    Getcwd,
    Getpid,
    Homeof,
    Loopwhile,
    PosixCd,
    PosixUmask,
    Runblock,
    Trap,
    Tryexec,
    Umask,
}

const STRANGERS: [Stranger; 16] = [
    Stranger::Case,
    Stranger::Dollarat,
    Stranger::Fdblock,
    Stranger::Fdreserve,
    Stranger::For,
    Stranger::Forbacktick,
    Stranger::Getcwd,
    Stranger::Getpid,
    Stranger::Homeof,
    Stranger::Loopwhile,
    Stranger::PosixCd,
    Stranger::PosixUmask,
    Stranger::Runblock,
    Stranger::Trap,
    Stranger::Tryexec,
    Stranger::Umask,
];

impl Stranger {
    /// The one that `word` names.
    pub(crate) fn named(word: &[u8]) -> Option<Stranger>
        ensures { result ≡ stranger_named word.now }
    {
        STRANGERS
            .iter()
            .copied()
            .find(|stranger| stranger.name() == word)
    }

    /// Its name.
    #[tactic(auto, unfolding(crate::specs::Strangers::stranger_name))]
    pub fn name(self) -> &'static [u8]
        ensures { result.now ≡ stranger_name self }
    {
        match self {
            Stranger::Case => b"case",
            Stranger::Dollarat => b"dollarat",
            Stranger::Fdblock => b"fdblock",
            Stranger::Fdreserve => b"fdreserve",
            Stranger::For => b"for",
            Stranger::Forbacktick => b"forbacktick",
            Stranger::Getcwd => b"getcwd",
            Stranger::Getpid => b"getpid",
            Stranger::Homeof => b"homeof",
            Stranger::Loopwhile => b"loopwhile",
            Stranger::PosixCd => b"posix-cd",
            Stranger::PosixUmask => b"posix-umask",
            Stranger::Runblock => b"runblock",
            Stranger::Trap => b"trap",
            Stranger::Tryexec => b"tryexec",
            Stranger::Umask => b"umask",
        }
    }

    /// What serves in its place.
    #[tactic(auto, unfolding(crate::specs::Strangers::stranger_cure))]
    pub fn cure(self) -> &'static [u8]
        ensures { result.now ≡ stranger_cure self }
    {
        match self {
            Stranger::Case => b"ifelse with a test for each case serves",
            Stranger::Dollarat => b"execlineb -S0 and $@ serve",
            Stranger::For => b"forx serves",
            Stranger::Forbacktick => b"forbacktickx serves",
            Stranger::Getcwd => b"backtick with pwd serves",
            Stranger::Getpid => b"backtick with sh -c \"echo $PPID\" serves",
            Stranger::Homeof => b"backtick with getent serves",
            Stranger::Loopwhile => b"loopwhilex serves",
            Stranger::PosixCd => b"cd serves",
            Stranger::PosixUmask | Stranger::Umask => b"a shell's umask serves",
            Stranger::Trap => b"a shell's trap serves",
            Stranger::Fdblock | Stranger::Fdreserve | Stranger::Runblock | Stranger::Tryexec => {
                b"nothing serves in its place"
            }
        }
    }
}
