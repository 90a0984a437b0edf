//! Option words.
use el_options::{IF, Slot, UsageFault, read_options};
use el_words::{Word, Words};
use std::alloc::Global;
use std::test::Fail;

// The words between spaces, of which the first is the program's name.
fn words_of(alloc: Global, text: &str) -> Result<Words, Fail> {
    let mut words = Words::new(alloc);
    for word in text.split(' ') {
        let word = Word::from_bytes(alloc, word.as_bytes())?;
        words.push(word.as_bytes())?;
    }
    Ok(words)
}

const ABSENT: Slot = Slot::Absent;

fn flag(nth: usize) -> Slot {
    Slot::Flag { nth }
}

fn value(nth: usize, word: usize, from: usize) -> Slot {
    Slot::Value { nth, word, from }
}

#[test]
fn options_of_if_are_read(rt: HostRuntime) -> Result<(), Fail> {
    let alloc = rt.alloc();
    for (text, slots, used) in [
        (
            "if -nx 7 { t } b",
            [ABSENT, flag(0), ABSENT, value(1, 2, 0)],
            3,
        ),
        ("if -t -x7", [ABSENT, ABSENT, flag(0), value(1, 2, 2)], 3),
        ("if -x 7 -t", [ABSENT, ABSENT, flag(1), value(0, 2, 0)], 4),
        // the rest of a word is a value, and the last occurrence counts
        ("if -nx7t b", [ABSENT, flag(0), ABSENT, value(1, 1, 3)], 2),
        ("if -n -tn", [ABSENT, flag(2), flag(1), ABSENT], 3),
        // where options end
        ("if -- -n", [ABSENT; 4], 2),
        ("if - -n", [ABSENT; 4], 1),
        ("if", [ABSENT; 4], 1),
    ] {
        let words = words_of(alloc, text)?;
        assert!(rt; !words.is_empty());
        let read = read_options(&IF, &words).ok();
        assert_eq!(rt; read.map(|read| read.used), Some(used), "{text}");
        assert_eq!(rt; read.map(|read| read.slots), Some(slots), "{text}");
    }
    Ok(())
}

#[test]
fn first_bad_letter_is_named(rt: HostRuntime) -> Result<(), Fail> {
    let alloc = rt.alloc();
    for (text, fault) in [
        ("if -q", UsageFault::Unknown { letter: b'q' }),
        ("if -n -nqx", UsageFault::Unknown { letter: b'q' }),
        ("if -nx", UsageFault::NoValue { letter: b'x' }),
        ("if --n", UsageFault::Unknown { letter: b'-' }),
    ] {
        let words = words_of(alloc, text)?;
        assert!(rt; !words.is_empty());
        assert_eq!(rt; read_options(&IF, &words).err(), Some(fault), "{text}");
    }
    Ok(())
}
