//! Numbers in words.
use el_words::{parse_u64, put_u64};
use std::test::Fail;

#[test]
fn numbers_are_read(rt: HostRuntime) -> Result<(), Fail> {
    for (text, number) in [
        ("0", Some(0)),
        ("007", Some(7)),
        ("18446744073709551615", Some(u64::MAX)),
        ("18446744073709551616", None),
        ("99999999999999999999999", None),
        ("", None),
        ("+1", None),
        ("-1", None),
        ("1 ", None),
        ("1a", None),
        ("\u{660}", None),
    ] {
        assert_eq!(rt; parse_u64(text.as_bytes()), number, "{text}");
    }
    for number in [0, 9, 10, 4_000, u64::MAX] {
        let word = put_u64(rt.alloc(), number)?;
        assert_eq!(rt; parse_u64(word.as_bytes()), Some(number));
    }
    assert_eq!(rt; put_u64(rt.alloc(), 100)?.as_bytes(), b"100".as_slice());
    Ok(())
}
