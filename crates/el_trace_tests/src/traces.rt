//! The worked trace, a trace with every event, and texts that are no trace's.
use el_env::Env;
use el_record::{RunEnd, Trace, TraceFault, parse_trace, print_trace};
use el_words::{Bytes, Word, Words};
use el_world::{Ended, Event, Handle, Log, Pid};
use std::alloc::Global;
use std::test::Fail;

const OWN: [Option<Handle>; 3] = [
    Some(Handle { number: 0 }),
    Some(Handle { number: 1 }),
    Some(Handle { number: 2 }),
];

const ECHO: &str = "S3;4:echo,1:a,3:b c,0;1:/,0;1;2;P100;\nW100;E0;\nZs0;\n";

// The same without its end.
const CUT_OFF: &str = "S3;4:echo,1:a,3:b c,0;1:/,0;1;2;P100;\nW100;E0;\n";

// Every event with every answer, and both ends. Words and other bytes are of the letter `o` alone.
const RECORDS: [&str; 30] = [
    "S1;1:o,2;1:o,0:,2:oo,3:ooo,1:o,-12;-P4294967295;\n",
    "S2;1:o,0:,0;1:o,0;1;2;n\n",
    "S1;1:o,0;1:o,0;1;2;x\n",
    "S1;1:o,0;1:o,0;1;2;f\n",
    "W0;E255;\n",
    "W9;K1;\n",
    "W9;K127;\n",
    "W9;f\n",
    "O1:o,1:o,rH3;\n",
    "O1:o,1:o,wH4;\n",
    "O1:o,1:o,uH5;\n",
    "O1:o,1:o,aH6;\n",
    "O1:o,1:o,cH7;\n",
    "O1:o,1:o,xf\n",
    "PH8;18446744073709551615;\n",
    "Pf\n",
    "F3:ooo,H9;\n",
    "F0:,f\n",
    "R3;B2:oo,\n",
    "R3;B0:,\n",
    "R3;f\n",
    "T1;2:oo,k\n",
    "T1;0:,f\n",
    "C3;\n",
    "D1:o,1:o,B1:o,\n",
    "D1:o,1:o,f\n",
    "C18446744073709551615;\n",
    "T3;10:oooooooooo,k\n",
    "R3;B10:oooooooooo,\n",
    "W4294967295;K64;\n",
];

// Records at which no record stands.
const BAD: [&str; 21] = [
    "Q\n",
    "C3;",
    "C3\n",
    "C;\n",
    "C03;\n",
    "C18446744073709551616;\n",
    "C-1;\n",
    "C3;x\n",
    "W4294967296;f\n",
    "W1;E256;\n",
    "W1;E00;\n",
    "W1;K0;\n",
    "W1;K128;\n",
    "S0;0;1:o,0;1;2;f\n",
    "S1;1:o,2;2:oo,0:,1:o,0:,1:o,0;1;2;f\n",
    "S1;1:o,2;1:o,0:,1:o,0:,1:o,0;1;2;f\n",
    "S1;1:o,1;0:,0:,1:o,0;1;2;f\n",
    "S1;1:o,1;1:=,0:,1:o,0;1;2;f\n",
    "S1;1:\0,0;1:o,0;1;2;f\n",
    "T1;2:o,k\n",
    "T1;01:o,k\n",
];

// The run of `echo a "b c"`.
fn echo_trace(alloc: Global) -> Result<Trace, Fail> {
    let pid = Pid { number: 100 };
    let mut words = Words::new(alloc);
    for text in ["echo", "a", "b c"] {
        words.push(Word::from_bytes(alloc, text.as_bytes())?.as_bytes())?;
    }
    let mut log = Log::new(alloc);
    log.push(Event::Start {
        words,
        env: Env::new(alloc),
        dir: Word::from_bytes(alloc, b"/")?,
        ends: OWN,
        answer: Ok(pid),
    })?;
    log.push(Event::Wait {
        pid,
        answer: Ok(Ended::Exited(0)),
    })?;
    Ok(Trace {
        log,
        end: RunEnd::Status(0),
    })
}

fn text_of(alloc: Global, parts: &[&str]) -> Result<Bytes, Fail> {
    let mut text = Bytes::new(alloc);
    for part in parts {
        text.append(part.as_bytes())?;
    }
    Ok(text)
}

// Where the bytes are no trace's text; none where they are.
fn bad_place(alloc: Global, bytes: &[u8]) -> Result<Option<usize>, Fail> {
    match parse_trace(alloc, bytes) {
        Ok(_) => Ok(None),
        Err(TraceFault::BadTrace { at }) => Ok(Some(at)),
        Err(fault) => Err(Fail::from(fault)),
    }
}

#[test]
fn a_run_is_printed(rt: HostRuntime) -> Result<(), Fail> {
    let text = print_trace(rt.alloc(), &echo_trace(rt.alloc())?)?;
    assert_eq!(rt; text.as_bytes(), ECHO.as_bytes());
    Ok(())
}

#[test]
fn every_event_is_read_back(rt: HostRuntime) -> Result<(), Fail> {
    let alloc = rt.alloc();
    for end in ["Zs0;\n", "Zs255;\n", "Zl\n"] {
        let mut text = text_of(alloc, &RECORDS)?;
        text.append(end.as_bytes())?;
        let trace = parse_trace(alloc, text.as_bytes())?;
        assert_eq!(rt; trace.log.len(), RECORDS.len());
        let again = print_trace(alloc, &trace)?;
        assert_eq!(rt; again.as_bytes(), text.as_bytes());
    }
    Ok(())
}

#[test]
fn a_cut_off_trace_is_bad_at_its_end(rt: HostRuntime) -> Result<(), Fail> {
    assert_eq!(rt; bad_place(rt.alloc(), CUT_OFF.as_bytes())?, Some(47));
    Ok(())
}

#[test]
fn bytes_behind_the_end_are_bad(rt: HostRuntime) -> Result<(), Fail> {
    let text = text_of(rt.alloc(), &[ECHO, "C3;\n"])?;
    assert_eq!(rt; bad_place(rt.alloc(), text.as_bytes())?, Some(ECHO.len()));
    Ok(())
}

#[test]
fn a_bad_record_is_bad_where_it_starts(rt: HostRuntime) -> Result<(), Fail> {
    for bad in BAD {
        let text = text_of(rt.alloc(), &["C3;\n", bad, "Zs0;\n"])?;
        let place = bad_place(rt.alloc(), text.as_bytes())?;
        assert_eq!(rt; place, Some(4));
    }
    Ok(())
}

#[test]
fn every_wrong_letter_is_bad(rt: HostRuntime) -> Result<(), Fail> {
    for record in RECORDS {
        for (place, byte) in record.bytes().enumerate() {
            if byte != b'o' {
                let text = misspelt(rt.alloc(), record, place)?;
                assert_eq!(rt; bad_place(rt.alloc(), text.as_bytes())?, Some(0));
            }
        }
    }
    Ok(())
}

// A trace of one record, in which a wrong letter stands at this place.
fn misspelt(alloc: Global, record: &str, wrong: usize) -> Result<Bytes, Fail> {
    let mut text = Bytes::new(alloc);
    for (place, byte) in record.bytes().enumerate() {
        text.push(if place == wrong { b'?' } else { byte })?;
    }
    text.append(b"Zs0;\n")?;
    Ok(text)
}
