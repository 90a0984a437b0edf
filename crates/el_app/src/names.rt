//! The names of the programs that are called by hand.
ghost use Rattle.std.specs.Prelude.{◌≡◌};
ghost use Rattle.el_words.specs.Word.{HasNul};
ghost use Rattle.el_app.specs.Names.{execlineb_name, execline_name, elcheck_name, elfmt_name, tool_named, base_name};

use memchr::memrchr;

/// A tool of this project that no chain enters.
#[derive(Clone, Copy, PartialEq, Eq)]
pub(crate) enum Tool {
    /// It runs a script.
    Execlineb,
    /// It checks a script.
    Elcheck,
    /// It lays a script out.
    Elfmt,
}

/// The tool that a word names, compared whole; None for any other word.
pub(crate) fn tool_named(word: &[u8]) -> Option<Tool>
    ensures { result ≡ tool_named word.now }
{
    if word == execlineb_name() {
        Some(Tool::Execlineb)
    } else if word == elcheck_name() {
        Some(Tool::Elcheck)
    } else if word == elfmt_name() {
        Some(Tool::Elfmt)
    } else {
        None
    }
}

/// The name of execlineb.
#[tactic(auto, unfolding(crate::specs::Names::execlineb_name))]
pub(crate) fn execlineb_name() -> &'static [u8]
    ensures same { result.now ≡ execlineb_name }
    ensures no_nul { HasNul result.now → ⊥ }
{
    b"execlineb"
}

/// The name of the binary, and of the top call.
#[tactic(auto, unfolding(crate::specs::Names::execline_name))]
pub(crate) fn execline_name() -> &'static [u8]
    ensures { result.now ≡ execline_name }
{
    b"execline"
}

/// The name of elcheck.
#[tactic(auto, unfolding(crate::specs::Names::elcheck_name))]
pub(crate) fn elcheck_name() -> &'static [u8]
    ensures { result.now ≡ elcheck_name }
{
    b"elcheck"
}

/// The name of elfmt.
#[tactic(auto, unfolding(crate::specs::Names::elfmt_name))]
pub(crate) fn elfmt_name() -> &'static [u8]
    ensures { result.now ≡ elfmt_name }
{
    b"elfmt"
}

/// The part of a word after its last slash, or all of it where there is none.
pub fn base_name(word: &[u8]) -> &[u8]
    ensures { result.now ≡ base_name word.now }
{
    match memrchr(b'/', word) {
        Some(place) => &word[place + 1..],
        None => word,
    }
}
