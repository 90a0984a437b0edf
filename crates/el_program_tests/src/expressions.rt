//! Worked calls of eltest, ends that no row has, and the system's own answers.
use crate::lists::words_in;
use el_test::AskAnswer::{Fault, No, Yes};
use el_test::{
    AskAnswer, AskAnswers, AskFault, Asker, OWN_DIRECTORY, Question, RealAsker, ScriptedAsker,
    TestEnd, TestFault, TestKind, eltest, show, status_of,
};
use el_words::{Word, Words};
use std::alloc::Global;
use std::test::Fail;
use std::{env, fs};

fn refused(kind: TestKind, at: usize) -> TestEnd {
    TestEnd::Refused(TestFault { kind, at })
}

// How the words end with these answers, and how many asks they make.
fn ended(alloc: Global, words: &Words, answers: &[AskAnswer]) -> Result<(TestEnd, usize), Fail> {
    let mut list = AskAnswers::new(alloc);
    for answer in answers {
        list.push(*answer)?;
    }
    let mut asker = ScriptedAsker::new(alloc, list);
    let dir = Word::of(alloc, b"/")?;
    let end = eltest(alloc, words, &dir, &mut asker);
    Ok((end, asker.log().len()))
}

#[test]
fn worked_rows(rt: HostRuntime) -> Result<(), Fail> {
    let rows: [(&str, &[AskAnswer], TestEnd, usize); 12] = [
        ("-n a -a ! -z b", &[], TestEnd::True, 0),
        ("3 -lt 20", &[], TestEnd::True, 0),
        ("3 < 20", &[], TestEnd::False, 0),
        ("( a = b -o -n c ) -a x != x", &[], TestEnd::False, 0),
        ("-e x -o -f y", &[Yes], TestEnd::True, 1),
        ("-e x -o -f y", &[No, Fault], TestEnd::Failed, 2),
        ("a -eq 1", &[], refused(TestKind::BadNumber, 0), 0),
        ("a b", &[], refused(TestKind::Unexpected, 1), 0),
        ("( a = a", &[], refused(TestKind::Incomplete, 4), 0),
        ("a = a )", &[], refused(TestKind::Unexpected, 3), 0),
        ("-e x -a -e y -a -e z", &[Yes, No, Yes], TestEnd::False, 2),
        ("", &[], TestEnd::False, 0),
    ];
    for (text, answers, end, asks) in rows {
        let found = ended(rt.alloc(), &words_in(rt.alloc(), text)?, answers)?;
        assert_eq!(rt; found, (end, asks), "{text}");
    }
    Ok(())
}

#[test]
fn a_million_deep(rt: HostRuntime) -> Result<(), Fail> {
    let mut words = Words::new(rt.alloc());
    for _ in 0..1_000_000 {
        words.push(b"(")?;
    }
    let found = ended(rt.alloc(), &words, &[])?;
    assert_eq!(rt; found, (refused(TestKind::TooDeep, 255), 0));
    Ok(())
}

#[test]
fn lines(rt: HostRuntime) -> Result<(), Fail> {
    let rows: [(TestEnd, &str, u8); 5] = [
        (TestEnd::True, "", 0),
        (TestEnd::False, "", 1),
        (
            refused(TestKind::BadNumber, 12),
            "eltest: BadNumber at 12\n",
            100,
        ),
        (TestEnd::Failed, "eltest: system call failed\n", 111),
        (TestEnd::NoMemory, "", 110),
    ];
    for (end, line, status) in rows {
        assert_eq!(rt; show(rt.alloc(), &end)?.as_bytes(), line.as_bytes());
        assert_eq!(rt; status_of(end), status);
    }
    Ok(())
}

#[test]
fn a_written_file(rt: HostRuntime) -> Result<(), Fail> {
    let folder = env::temp_dir(&rt)?;
    let path = folder.join(rt.alloc(), "el_test.written")?;
    fs::write(&rt, &path, "x")?;
    let name = Word::from_bytes(rt.alloc(), path.as_path().as_str().as_bytes())?;
    let dir = Word::of(rt.alloc(), OWN_DIRECTORY)?;
    let mut asker = RealAsker::new(rt);
    for question in [
        Question::Exists,
        Question::File,
        Question::Readable,
        Question::Writable,
        Question::NotEmpty,
    ] {
        assert_eq!(rt; asker.ask(&dir, &name, question), Ok(true), "{question:?}");
    }
    for question in [Question::Dir, Question::Runnable, Question::Link] {
        assert_eq!(rt; asker.ask(&dir, &name, question), Ok(false), "{question:?}");
    }
    fs::remove_file(&rt, &path)?;
    assert_eq!(rt; asker.ask(&dir, &name, Question::Exists), Ok(false));
    Ok(())
}
