//! What comes of the words: the variables behind the parsing, and what is run.
ghost use Rattle.std.specs.Prelude.{◌≡◌, ◌<◌, length};
ghost use Rattle.el_getopt.specs.Parsing.{parsed};
ghost use Rattle.el_getopt.specs.Parses.{IsParsedAs};

use crate::environment::set_parsed;
use crate::fault::ParseFault;
use crate::optstring::is_optstring;
use crate::reader::read_args;
use el_env::Env;
use el_proc::Trouble;
use el_words::Words;
use std::alloc::Global;

// How many words stand before the rest: the name and the optstring.
const BEFORE_REST: usize = 2;

/// Parses the positional parameters of the environment by the optstring among the words, of which the first is the name. Then the
/// environment is that behind the parsing, and the rest of the words is given. What is refused leaves the environment.
pub(crate) fn parse(alloc: Global, words: &Words, env: &mut Env) -> Result<Words, ParseFault>
    requires { 0 < length words.now }
    ensures { IsParsedAs (parsed words.now env.old) env.old env.new result }
{
    let Some(optstring) = words.get(1) else {
        return Err(ParseFault::Refused(Trouble::Missing));
    };
    if !is_optstring(optstring) {
        return Err(ParseFault::Refused(Trouble::Usage));
    }
    let positionals = env.positionals()?;
    let reader = read_args(alloc, optstring, &positionals.args)?;
    set_parsed(alloc, reader, positionals, env)?;
    let mut rest = words.copy()?;
    rest.drop_front(BEFORE_REST);
    Ok(rest)
}
