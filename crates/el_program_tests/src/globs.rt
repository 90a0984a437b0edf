//! Worked calls of elglob, its refusals in their order, and patterns of many stars.
use crate::lists::words_in;
use el_env::Env;
use el_glob::{Component, ListAnswer, ListAnswers, MAX_PATTERN, ScriptedLister, elglob};
use el_words::Word;
use el_world::{Answers, Event, Finish, Scripted};
use std::alloc::Global;
use std::process::Abort;
use std::test::Fail;

const UNITS: u64 = 2;

// Makes the call with these words and listings, and tells how it ended, and the lister and the world behind it.
fn called(
    rt: &impl Abort,
    alloc: Global,
    words: &str,
    listings: &str,
    units: u64,
) -> Result<(Finish, ScriptedLister, Scripted), Fail> {
    let words = words_in(alloc, words)?;
    let mut answers = ListAnswers::new(alloc);
    for listing in listings.split_whitespace() {
        answers.push(answer_of(alloc, listing)?)?;
    }
    let mut lister = ScriptedLister::new(alloc, answers);
    let mut world = Scripted::new(alloc, Answers::new(alloc))?;
    let (env, dir) = (Env::new(alloc), Word::of(alloc, b"/")?);
    assert!(rt; !words.is_empty());
    let finish = elglob(alloc, &words, env, dir, &mut lister, &mut world, units);
    Ok((finish, lister, world))
}

// What a listing is told to answer: `!` that it fails, `/` that there is no directory, and else names with a comma between them.
fn answer_of(alloc: Global, listing: &str) -> Result<ListAnswer, Fail> {
    match listing {
        "!" => Ok(ListAnswer::Fault),
        "/" => Ok(ListAnswer::NoDirectory),
        names => {
            let text = names.replace(alloc, ",", " ")?;
            Ok(ListAnswer::Names(words_in(alloc, &text)?))
        }
    }
}

// The call, the listings, and the words that are started.
#[test]
fn matches_are_put_in(rt: HostRuntime) -> Result<(), Fail> {
    let rows = [
        ("elglob F */x echo $F", "a,a-b,.c x x,y", "echo a-b/x a/x"),
        (
            "elglob F */[xy] echo <${F}>",
            "a,a-b,.c x x,y",
            "echo <a-b/x> <a-b/y> <a/x>",
        ),
        ("elglob F a/* echo $F", "a y,x,.z", "echo a/x a/y"),
        ("elglob F *.q echo $F", "a", "echo *.q"),
        ("elglob -0 F *.q echo $F", "a", "echo"),
        ("elglob F */x echo $F", "a,b / x", "echo b/x"),
        ("elglob F * echo $F", "", "echo *"),
        ("elglob F * echo $F", "a,a", "echo *"),
        ("elglob -- F [!a] echo $F", "a,b,.,bb", "echo [!a]"),
    ];
    for (words, listings, started) in rows {
        let (finish, _lister, world) = called(&rt, rt.alloc(), words, listings, UNITS)?;
        assert_eq!(rt; finish, Finish::Status(0));
        assert_eq!(rt; world.log().len(), 2);
        let Some(Event::Start { words, .. }) = world.log().get(0) else {
            return Err("no start")?;
        };
        assert!(rt;
            words
                .iter()
                .eq(started.split_whitespace().map(str::as_bytes))
        );
    }
    Ok(())
}

// The call, the listings, how many of them are made, the message, and the status.
#[test]
fn refusals_in_their_order(rt: HostRuntime) -> Result<(), Fail> {
    let rows = [
        ("elglob -q", "", 0, "unknown option -q", 100),
        ("elglob", "", 0, "argument missing", 100),
        ("elglob -0 a$b", "", 0, "argument missing", 100),
        ("elglob a$b [", "", 0, "bad variable name", 100),
        ("elglob '' [", "", 0, "bad variable name", 100),
        ("elglob F [b-a] echo", "", 0, "bad pattern", 100),
        ("elglob F '' echo", "", 0, "bad pattern", 100),
        ("elglob F *", "!", 1, "system call failed", 111),
        ("elglob F */x", "a,b ! x", 2, "system call failed", 111),
    ];
    for (words, listings, made, message, status) in rows {
        let (finish, lister, world) = called(&rt, rt.alloc(), words, listings, UNITS)?;
        assert_eq!(rt; finish, Finish::Status(status));
        assert_eq!(rt; lister.log().len(), made);
        assert_eq!(rt; world.log().len(), 1);
        let Some(Event::Write { bytes, .. }) = world.log().get(0) else {
            return Err("no message")?;
        };
        let line = format!(in rt.alloc(); "elglob: {message}\n")?;
        assert_eq!(rt; bytes.as_bytes(), line.as_bytes());
    }
    Ok(())
}

#[test]
fn a_unit_is_taken_first(rt: HostRuntime) -> Result<(), Fail> {
    let (finish, lister, world) = called(&rt, rt.alloc(), "elglob -q", "", 0)?;
    assert_eq!(rt; finish, Finish::Spent);
    assert_eq!(rt; lister.log().len(), 0);
    assert_eq!(rt; world.log().len(), 0);
    Ok(())
}

// How many bytes a name has in these tests: as many as a pattern at most.
const NAME: usize = MAX_PATTERN;

// Each star is tried at each byte once: a pattern of 2,047 stars takes eight million steps for such a name.
#[test]
fn many_stars_are_linear(rt: HostRuntime) -> Result<(), Fail> {
    let alloc = rt.alloc();
    let mut name = vec![in alloc; b'a'; NAME]?;
    for stars in [1_000, 2_047] {
        let text = format!(in alloc; "{}b", "a*".repeat(alloc, stars)?)?;
        let component = Component::read(alloc, text.as_bytes())?;
        assert!(rt; !component.fits(&name));
        name[NAME - 1] = b'b';
        assert!(rt; component.fits(&name));
        name[NAME - 1] = b'a';
    }
    Ok(())
}
