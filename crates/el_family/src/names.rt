//! The programs whose processes are members of a family.
ghost use Rattle.std.specs.Prelude.{◌≡◌, is_some};
ghost use Rattle.el_app.specs.Names.{execlineb_name, elcheck_name, elfmt_name, tool_named};
ghost use Rattle.el_family.specs.Names.{names_member};

use el_words::name_of;

/// Whether the word is execlineb, elcheck, elfmt or the name of a chain program.
pub(crate) fn names_member(word: &[u8]) -> bool
    ensures { result ≡ names_member word.now }
{
    name_of(word).is_some() || is_tool(word)
}

fn is_tool(word: &[u8]) -> bool
    ensures { result ≡ is_some (tool_named word.now) }
{
    word == execlineb_name() || word == elcheck_name() || word == elfmt_name()
}

#[tactic(auto, unfolding(el_app::specs::Names::execlineb_name))]
fn execlineb_name() -> &'static [u8]
    ensures { result.now ≡ execlineb_name }
{
    b"execlineb"
}

#[tactic(auto, unfolding(el_app::specs::Names::elcheck_name))]
fn elcheck_name() -> &'static [u8]
    ensures { result.now ≡ elcheck_name }
{
    b"elcheck"
}

#[tactic(auto, unfolding(el_app::specs::Names::elfmt_name))]
fn elfmt_name() -> &'static [u8]
    ensures { result.now ≡ elfmt_name }
{
    b"elfmt"
}
