//! The programs of a chain, and their names.
ghost use Rattle.std.specs.Prelude.{◌≡◌, IfSome, IfNone, find};
ghost use Rattle.std.specs.Str.{bytes_eq};
ghost use Rattle.el_words.specs.Prog.{name_text, program_named, IsProgramName, beginning_with};

/// The programs of a chain, in the order in which they are documented.
#[derive(Clone, Copy, PartialEq, Eq)]
pub enum Prog {
    Define,
    Importas,
    Multidefine,
    Multisubstitute,
    Elgetpositionals,
    Export,
    Unexport,
    Emptyenv,
    Envfile,
    Withstdinas,
    Shift,
    Foreground,
    Background,
    If,
    Ifelse,
    Ifte,
    Ifthenelse,
    Wait,
    Cd,
    Exec,
    Exit,
    Loopwhilex,
    Forx,
    Forstdin,
    Forbacktickx,
    Pipeline,
    Backtick,
    Redirfd,
    Fdmove,
    Fdclose,
    Fdswap,
    Piperw,
    Heredoc,
    Import,
}

const PROGRAMS: [Prog; 34] = [
    Prog::Define,
    Prog::Importas,
    Prog::Multidefine,
    Prog::Multisubstitute,
    Prog::Elgetpositionals,
    Prog::Export,
    Prog::Unexport,
    Prog::Emptyenv,
    Prog::Envfile,
    Prog::Withstdinas,
    Prog::Shift,
    Prog::Foreground,
    Prog::Background,
    Prog::If,
    Prog::Ifelse,
    Prog::Ifte,
    Prog::Ifthenelse,
    Prog::Wait,
    Prog::Cd,
    Prog::Exec,
    Prog::Exit,
    Prog::Loopwhilex,
    Prog::Forx,
    Prog::Forstdin,
    Prog::Forbacktickx,
    Prog::Pipeline,
    Prog::Backtick,
    Prog::Redirfd,
    Prog::Fdmove,
    Prog::Fdclose,
    Prog::Fdswap,
    Prog::Piperw,
    Prog::Heredoc,
    Prog::Import,
];

impl Prog {
    /// The word that names the program at the front of a chain.
    #[tactic(auto, unfolding(crate::specs::Prog::name_text))]
    pub fn name(self) -> &'static [u8]
        ensures { result.now ≡ name_text self }
    {
        match self {
            Prog::Define => b"define",
            Prog::Importas => b"importas",
            Prog::Multidefine => b"multidefine",
            Prog::Multisubstitute => b"multisubstitute",
            Prog::Elgetpositionals => b"elgetpositionals",
            Prog::Export => b"export",
            Prog::Unexport => b"unexport",
            Prog::Emptyenv => b"emptyenv",
            Prog::Envfile => b"envfile",
            Prog::Withstdinas => b"withstdinas",
            Prog::Shift => b"shift",
            Prog::Foreground => b"foreground",
            Prog::Background => b"background",
            Prog::If => b"if",
            Prog::Ifelse => b"ifelse",
            Prog::Ifte => b"ifte",
            Prog::Ifthenelse => b"ifthenelse",
            Prog::Wait => b"wait",
            Prog::Cd => b"cd",
            Prog::Exec => b"exec",
            Prog::Exit => b"exit",
            Prog::Loopwhilex => b"loopwhilex",
            Prog::Forx => b"forx",
            Prog::Forstdin => b"forstdin",
            Prog::Forbacktickx => b"forbacktickx",
            Prog::Pipeline => b"pipeline",
            Prog::Backtick => b"backtick",
            Prog::Redirfd => b"redirfd",
            Prog::Fdmove => b"fdmove",
            Prog::Fdclose => b"fdclose",
            Prog::Fdswap => b"fdswap",
            Prog::Piperw => b"piperw",
            Prog::Heredoc => b"heredoc",
            Prog::Import => b"import",
        }
    }
}

/// The program that `word` names, or None exactly where it isn't one of the 34 names.
#[tactic(auto, using(crate::proofs::Programs::names))]
pub fn name_of(word: &[u8]) -> Option<Prog>
    ensures exact { result ≡ program_named word.now }
    ensures named { IfSome result (λ program. name_text program ≡ word.now) }
    ensures unknown { IfNone result (IsProgramName word.now → ⊥) }
{
    find_named(word)
}

fn find_named(word: &[u8]) -> Option<Prog>
    ensures { result ≡ program_named word.now }
{
    match word {
        [] => None,
        [first, ..] => find_among(beginning_with(*first), word),
    }
}

fn find_among(programs: &[Prog], word: &[u8]) -> Option<Prog>
    ensures { result ≡ find (λ program. bytes_eq (name_text program) word.now) programs.now }
{
    programs
        .iter()
        .copied()
        .find(|program| program.name() == word)
}

// The programs whose names begin with this byte, so that a word is compared with few of them.
fn beginning_with(first: u8) -> &'static [Prog]
    ensures { result.now ≡ beginning_with first }
{
    match first {
        b'b' => &[Prog::Background, Prog::Backtick],
        b'c' => &[Prog::Cd],
        b'd' => &[Prog::Define],
        b'e' => &[
            Prog::Export,
            Prog::Exec,
            Prog::Exit,
            Prog::Elgetpositionals,
            Prog::Emptyenv,
            Prog::Envfile,
        ],
        b'f' => &[
            Prog::Foreground,
            Prog::Forx,
            Prog::Forstdin,
            Prog::Forbacktickx,
            Prog::Fdmove,
            Prog::Fdclose,
            Prog::Fdswap,
        ],
        b'h' => &[Prog::Heredoc],
        b'i' => &[
            Prog::If,
            Prog::Ifelse,
            Prog::Importas,
            Prog::Ifthenelse,
            Prog::Ifte,
            Prog::Import,
        ],
        b'l' => &[Prog::Loopwhilex],
        b'm' => &[Prog::Multidefine, Prog::Multisubstitute],
        b'p' => &[Prog::Pipeline, Prog::Piperw],
        b'r' => &[Prog::Redirfd],
        b's' => &[Prog::Shift],
        b'u' => &[Prog::Unexport],
        b'w' => &[Prog::Wait, Prog::Withstdinas],
        _ => &[],
    }
}
