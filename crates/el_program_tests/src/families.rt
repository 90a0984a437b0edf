//! Worked families.
use crate::lists::{put_words, words_of};
use el_env::Env;
use el_family::{End, Family, FamilyFault, elfamily};
use el_words::{Bytes, Word};
use el_world::{Answer, Answers, Ended, Finish};
use std::alloc::Global;
use std::test::Fail;

// The same budget in words, for a line a member and for a tree.
const BUDGET: u64 = 100;

const LINES: [&str; 1] = ["100"];

const TREE: [&str; 2] = ["--tree", "100"];

// `foreground { foreground { a } b } c`
const NESTED: [&str; 7] = ["foreground", " foreground", "  a", " ", " b", "", "c"];

// How elfamily ends where the family of this process is asked for.
fn ended(alloc: Global, asking: &[&str], process: &[&str]) -> Result<End, Fail> {
    let mut words = words_of(alloc, asking)?;
    put_words(alloc, process, &mut words)?;
    Ok(elfamily(alloc, words))
}

fn told(alloc: Global, asking: &[&str], process: &[&str]) -> Result<Bytes, Fail> {
    match ended(alloc, asking, process)? {
        End::Told(text) => Ok(text),
        _ => Err("nothing is told")?,
    }
}

#[test]
fn a_block_is_a_child(rt: HostRuntime) -> Result<(), Fail> {
    let alloc = rt.alloc();
    let lines = told(alloc, &LINES, &NESTED)?;
    assert_eq!(rt;
        lines.as_bytes(),
        b"member 0 parent - starts 2 waits 2 status 0
member 1 parent 0 starts 2 waits 2 status 0
"
            .as_slice()
    );
    let lines = told(alloc, &TREE, &NESTED)?;
    assert_eq!(rt;
        lines.as_bytes(),
        b"status 0 calls 4: \"foreground\" \" foreground\" \"  a\" \" \" \" b\" \"\" \"c\"
  status 0 calls 4: \"foreground\" \" a\" \"\" \"b\"
"
            .as_slice()
    );
    Ok(())
}

#[test]
fn a_pipeline_in_a_loop_in_a_block(rt: HostRuntime) -> Result<(), Fail> {
    let alloc = rt.alloc();
    let words = [
        "foreground",
        " forx",
        " i",
        "  1",
        "  2",
        " ",
        " pipeline",
        "  define",
        "  A",
        "  b",
        "  echo",
        "  $A",
        " ",
        " cat",
        "",
        "true",
    ];
    let lines = told(alloc, &LINES, &words)?;
    assert_eq!(rt;
        lines.as_bytes(),
        b"member 0 parent - starts 2 waits 2 status 0
member 1 parent 0 starts 2 waits 2 status 0
member 2 parent 1 starts 2 waits 1 status 0
member 3 parent 1 starts 2 waits 1 status 0
member 4 parent 2 starts 1 waits 1 status 0
member 5 parent 3 starts 1 waits 1 status 0
"
            .as_slice()
    );
    Ok(())
}

#[test]
fn a_child_ends_otherwise(rt: HostRuntime) -> Result<(), Fail> {
    let alloc = rt.alloc();
    let (words, dir) = (words_of(alloc, &NESTED)?, Word::of(alloc, b"/")?);
    let mut family = Family::new(alloc, words, Env::new(alloc), dir)?;
    assert_eq!(rt; family.run_member(0, Answers::new(alloc), BUDGET), Ok(()));
    assert!(rt; family.agrees());
    let mut answers = Answers::new(alloc);
    for _ in 0..3 {
        answers.push(Answer::Plain)?;
    }
    answers.push(Answer::Ended(Ended::Exited(3)))?;
    assert_eq!(rt; family.run_member(1, answers, BUDGET), Ok(()));
    let ran = family.member(1).and_then(|member| member.ran.as_ref());
    assert_eq!(rt; ran.map(|ran| ran.finish), Some(Finish::Status(3)));
    assert!(rt; !family.agrees());
    let again = family.run_member(0, Answers::new(alloc), BUDGET);
    assert_eq!(rt; again, Err(FamilyFault::AlreadyRun));
    let none = family.run_member(2, Answers::new(alloc), BUDGET);
    assert_eq!(rt; none, Err(FamilyFault::NoMember));
    Ok(())
}

// Each starts the next.
#[test]
fn a_family_without_an_end(rt: HostRuntime) -> Result<(), Fail> {
    let alloc = rt.alloc();
    let script = "importas -i S S execlineb -P -c $S";
    let words = ["export", "S", script, "execlineb", "-P", "-c", script];
    assert!(rt; matches!(ended(alloc, &LINES, &words)?, End::TooMany));
    Ok(())
}
