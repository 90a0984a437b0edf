//! Words that are a typing mistake away from a program's name.
ghost use Rattle.std.specs.Prelude.{◌≡◌};
ghost use Rattle.el_lint.specs.Typos.{is_turned, is_edited, is_one_edit, misspelled};

use el_words::Prog;

// The programs whose names have six letters or more.
const LONG_NAMED: [Prog; 26] = [
    Prog::Define,
    Prog::Importas,
    Prog::Import,
    Prog::Multidefine,
    Prog::Multisubstitute,
    Prog::Elgetpositionals,
    Prog::Export,
    Prog::Unexport,
    Prog::Emptyenv,
    Prog::Envfile,
    Prog::Withstdinas,
    Prog::Foreground,
    Prog::Background,
    Prog::Ifelse,
    Prog::Ifthenelse,
    Prog::Loopwhilex,
    Prog::Forstdin,
    Prog::Forbacktickx,
    Prog::Pipeline,
    Prog::Backtick,
    Prog::Redirfd,
    Prog::Fdmove,
    Prog::Fdclose,
    Prog::Fdswap,
    Prog::Piperw,
    Prog::Heredoc,
];

/// The program of whose name `word` is a typing mistake, where the name has six letters or more.
pub(crate) fn misspelled(word: &[u8]) -> Option<Prog>
    ensures { result ≡ misspelled word.now }
{
    LONG_NAMED
        .iter()
        .copied()
        .find(|program| is_one_edit(word, program.name()))
}

// Whether the words differ by one edit. Names are short, and so is what a word begins with as one does.
fn is_one_edit(word: &[u8], name: &[u8]) -> bool
    ensures { result ≡ is_one_edit word.now name.now }
{
    match (word, name) {
        ([byte, bytes @ ..], [other, others @ ..]) if byte == other => is_one_edit(bytes, others),
        _ => is_edited(word, name),
    }
}

// The same of words that don't begin alike.
fn is_edited(word: &[u8], name: &[u8]) -> bool
    ensures { result ≡ is_edited word.now name.now }
{
    match (word, name) {
        ([], others) => others.len() == 1,
        ([_, bytes @ ..], []) => bytes.is_empty(),
        ([_, bytes @ ..], [_, others @ ..]) => {
            bytes == name || word == others || bytes == others || is_turned(word, name)
        }
    }
}

// Whether the first two bytes are turned round, and the others are alike.
fn is_turned(word: &[u8], name: &[u8]) -> bool
    ensures { result ≡ is_turned word.now name.now }
{
    match (word, name) {
        ([one, next, bytes @ ..], [other, behind, others @ ..]) => {
            one == behind && next == other && bytes == others
        }
        _ => false,
    }
}
