//! Worked calls of elgetopt.
use crate::lists::words_of;
use el_env::Env;
use el_getopt::elgetopt;
use el_words::Word;
use el_world::{Answers, Event, Finish, Scripted};
use std::alloc::Global;
use std::process::Abort;
use std::test::Fail;

const UNITS: u64 = 2;

type Variables<'a> = &'a [(&'a str, &'a str)];

// Makes the call with these words and variables, and tells how it ended, and the world behind it.
fn called(
    rt: &impl Abort,
    alloc: Global,
    words: &[&str],
    variables: Variables<'_>,
    units: u64,
) -> Result<(Finish, Scripted), Fail> {
    let list = words_of(alloc, words)?;
    let mut env = Env::new(alloc);
    for (name, value) in variables {
        env.set(
            Word::from_bytes(alloc, name.as_bytes())?,
            Word::from_bytes(alloc, value.as_bytes())?,
        )?;
    }
    let dir = Word::from_bytes(alloc, b"/")?;
    let mut world = Scripted::new(alloc, Answers::new(alloc))?;
    assert!(rt; !list.is_empty());
    let finish = elgetopt(alloc, &list, env, dir, &mut world, units);
    Ok((finish, world))
}

// Whether these are all variables.
fn holds(env: &Env, variables: Variables<'_>) -> Result<bool, Fail> {
    for (name, value) in variables {
        if env.get(name.as_bytes()) != Some(value.as_bytes()) {
            return Ok(false);
        }
    }
    Ok(env.names()?.len() == variables.len())
}

#[test]
fn letters_become_variables(rt: HostRuntime) -> Result<(), Fail> {
    let given = [
        ("#", "5"),
        ("0", "s"),
        ("1", "-a"),
        ("2", "-bx"),
        ("3", "--"),
        ("4", "-c"),
        ("5", "y"),
        ("ELGETOPT_c", "earlier"),
    ];
    let parsed = [
        ("ELGETOPT_a", "1"),
        ("ELGETOPT_b", "x"),
        ("#", "2"),
        ("0", "s"),
        ("1", "-c"),
        ("2", "y"),
    ];
    let words = ["elgetopt", "ab:", "env"];
    let (finish, world) = called(&rt, rt.alloc(), &words, &given, UNITS)?;
    assert_eq!(rt; finish, Finish::Status(0));
    assert_eq!(rt; world.log().len(), 2);
    let Some(Event::Start { words, env, .. }) = world.log().get(0) else {
        return Err("no start")?;
    };
    assert_eq!(rt; words.len(), 1);
    assert!(rt; holds(env, &parsed)?);
    Ok(())
}

#[test]
fn a_bad_letter_is_refused(rt: HostRuntime) -> Result<(), Fail> {
    let given = [("#", "1"), ("0", "s"), ("1", "-q")];
    let words = ["elgetopt", "a", "env"];
    let (finish, world) = called(&rt, rt.alloc(), &words, &given, UNITS)?;
    assert_eq!(rt; finish, Finish::Status(100));
    assert_eq!(rt; world.log().len(), 1);
    let Some(Event::Write { bytes, .. }) = world.log().get(0) else {
        return Err("no message")?;
    };
    assert_eq!(rt;
        bytes.as_bytes(),
        b"elgetopt: unknown option -q\n".as_slice()
    );
    Ok(())
}

#[test]
fn a_unit_is_taken_first(rt: HostRuntime) -> Result<(), Fail> {
    let (finish, world) = called(&rt, rt.alloc(), &["elgetopt"], &[], 0)?;
    assert_eq!(rt; finish, Finish::Spent);
    assert_eq!(rt; world.log().len(), 0);
    Ok(())
}
