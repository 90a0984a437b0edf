//! What a refusal of directives is about, for the person who reads it.

use el_room::{
    Directive, Env, Nth, Prog, Subject, Trouble, Words, bad_key, bad_name, is_good_name,
};
use el_subst::is_good_key;

/// The first name in these directives that no variable or no reference can have.
pub(crate) fn badly_named(directives: &[Directive]) -> Option<Subject<'_>> {
    for directive in directives {
        if let Some(subject) = badly_named_in(directive) {
            return Some(subject);
        }
    }
    None
}

fn badly_named_in(directive: &Directive) -> Option<Subject<'_>> {
    match directive.program {
        Prog::Multidefine => bad_key_among(&directive.names),
        Prog::Define | Prog::Importas => {
            let (key, name) = (directive.text(Nth::First), directive.text(Nth::Second));
            if !is_good_key(key) {
                Some(bad_key(key))
            } else if directive.program == Prog::Importas && !is_good_name(name) {
                Some(bad_name(name))
            } else {
                None
            }
        }
        _ => None,
    }
}

// The first of these names that no reference can have; an empty one stands for none.
fn bad_key_among(names: &Words) -> Option<Subject<'_>> {
    for name in names {
        if !name.is_empty() && !is_good_key(name) {
            return Some(bad_key(name));
        }
    }
    None
}

/// What of these directives the trouble with their values is about.
pub(crate) fn badly_valued<'a>(
    directives: &'a [Directive],
    env: &Env,
    trouble: Trouble,
) -> Option<Subject<'a>> {
    match trouble {
        Trouble::NotSet => unset(directives, env),
        Trouble::NoFrame => Some(no_positionals()),
        _ => in_netstrings(directives),
    }
}

// The first variable that must be set and isn't.
fn unset<'a>(directives: &'a [Directive], env: &Env) -> Option<Subject<'a>> {
    for directive in directives {
        let name = directive.text(Nth::Second);
        if directive.program == Prog::Importas && directive.has(b'i') && env.get(name).is_none() {
            return Some(Subject::of(b"variable", name));
        }
    }
    None
}

// The first value that is to be read as netstrings.
fn in_netstrings(directives: &[Directive]) -> Option<Subject<'_>> {
    for directive in directives {
        if directive
            .value(b'd')
            .is_some_and(|delimiters| delimiters.as_bytes().is_empty())
        {
            return Some(value_of(directive).with_note(b"it is no sequence of netstrings"));
        }
    }
    None
}

// A directive's value, under the name that it has.
fn value_of(directive: &Directive) -> Subject<'_> {
    match directive.program {
        Prog::Importas => Subject::of(b"variable", directive.text(Nth::Second)),
        Prog::Define => Subject::of(b"value of", directive.text(Nth::First)),
        _ => Subject::saying(b"value of multidefine"),
    }
}

/// What the message is about where there are no positional parameters.
pub(crate) fn no_positionals() -> Subject<'static> {
    Subject::saying(b"execlineb sets them if it is called without -P, -S and -s")
}
