//! What is said of worked traces.
use el_record::parse_trace;
use el_trace::{trace_answer, trace_lines};
use std::test::Fail;

const SCRIPT: &[u8] = b"echo a \"b c\"";

#[test]
fn a_run_is_told(rt: HostRuntime) -> Result<(), Fail> {
    let shown = trace_answer(
        rt.alloc(),
        SCRIPT,
        b"S3;4:echo,1:a,3:b c,0;1:/,0;1;2;P100;\nW100;E0;\nZs0;\n",
    )?;
    assert_eq!(rt; shown.line.as_bytes(), b"yes\n".as_slice());
    assert_eq!(rt; shown.status, 0);
    Ok(())
}

#[test]
fn another_end_is_told(rt: HostRuntime) -> Result<(), Fail> {
    let shown = trace_answer(
        rt.alloc(),
        SCRIPT,
        b"S3;4:echo,1:a,3:b c,0;1:/,0;1;2;P100;\nW100;E3;\nZs0;\n",
    )?;
    assert_eq!(rt; shown.line.as_bytes(), b"differs at 2\n".as_slice());
    assert_eq!(rt; shown.status, 1);
    Ok(())
}

#[test]
fn another_word_is_told(rt: HostRuntime) -> Result<(), Fail> {
    let shown = trace_answer(
        rt.alloc(),
        SCRIPT,
        b"S3;4:echo,1:b,3:b c,0;1:/,0;1;2;P100;\nW100;E0;\nZs0;\n",
    )?;
    assert_eq!(rt; shown.line.as_bytes(), b"differs at 0\n".as_slice());
    Ok(())
}

#[test]
fn a_text_without_an_end_is_bad(rt: HostRuntime) -> Result<(), Fail> {
    let shown = trace_answer(
        rt.alloc(),
        SCRIPT,
        b"S3;4:echo,1:a,3:b c,0;1:/,0;1;2;P100;\nW100;E0;\n",
    )?;
    assert_eq!(rt; shown.line.as_bytes(), b"eltrace: bad trace\n".as_slice());
    assert_eq!(rt; shown.status, 100);
    Ok(())
}

#[test]
fn an_own_handle_is_unlawful(rt: HostRuntime) -> Result<(), Fail> {
    let shown = trace_answer(rt.alloc(), SCRIPT, b"PH3;4;\nO1:/,1:a,wH4;\nZs0;\n")?;
    assert_eq!(rt; shown.line.as_bytes(), b"unlawful at 1\n".as_slice());
    assert_eq!(rt; shown.status, 1);
    Ok(())
}

#[test]
fn a_refused_script_comes_first(rt: HostRuntime) -> Result<(), Fail> {
    let shown = trace_answer(rt.alloc(), b"foreground {", b"no trace")?;
    assert_eq!(rt; shown.line.as_bytes(), b"eltrace: bad script\n".as_slice());
    assert_eq!(rt; shown.status, 100);
    Ok(())
}

#[test]
fn a_trace_is_shown(rt: HostRuntime) -> Result<(), Fail> {
    let text =
        b"S2;2:ls,2:-l,1;1:A,1:1,4:/tmp,0;4;-P123;\nW123;K9;\nO1:/,3:out,wf\nPH3;5;\nF2:a\n,H6;\nR3;B0:,\nT1;1:\",k\nC3;\nD1:/,3:tmp,B4:/tmp,\nZl\n";
    let trace = parse_trace(rt.alloc(), text)?;
    let shown = trace_lines(rt.alloc(), &trace)?;
    assert_eq!(rt;
        shown.as_bytes(),
        b"0 start [ls, -l] in /tmp, A=1, 1=4, 2=- as 123\n1 wait 123: signal 9\n2 open out for writing: failed\n3 pipe: 3, 5\n4 feed \"a\\n\": 6\n5 read 3: \"\"\n6 write 1 \"\\\"\": done\n7 close 3\n8 enter tmp: /tmp\n9 end: spent\n".as_slice()
    );
    Ok(())
}
