//! Values that are split, and values that cannot be.
use el_transform::{How, Splitter, TransformFault, transform};
use el_words::{ByteSet, Room, Word, Words};
use std::alloc::{AllocError, Global};
use std::test::Fail;

// The delimiters where none are given.
const BLANKS: &str = " \n\r\t";

#[test]
fn bad_netstrings_have_their_place(rt: HostRuntime) -> Result<(), Fail> {
    let alloc = rt.alloc();
    let how = How {
        crunch: false,
        chomp: false,
        split: true,
        delims: ByteSet::of(b""),
    };
    for (value, at) in [
        ("3:abc,2:x", 6),
        ("0:,0:,,", 6),
        ("01:a,", 0),
        ("00:,", 0),
        ("1:a", 0),
        ("1:ab,", 0),
        ("1", 0),
        (":,", 0),
        ("+1:a,", 0),
        ("18446744073709551615:a,", 0),
        ("99999999999999999999:a,", 0),
    ] {
        let value = Word::from_bytes(alloc, value.as_bytes())?;
        assert_eq!(rt;
            transform(alloc, &how, &value).err(),
            Some(TransformFault::BadNetstring { at })
        );
    }
    Ok(())
}

// A Splitter at the usual delimiters.
fn usual_splitter(alloc: Global, crunch: bool) -> Result<Splitter, Fail> {
    let delims = ByteSet::of(BLANKS.as_bytes());
    if delims.is_empty() {
        return Err(Fail::new("no splitter without a delimiter"));
    }
    Ok(Splitter::new(alloc, crunch, delims))
}

// The words with bars between them, and `~` for the empty word.
fn shown(alloc: Global, words: &Words) -> Result<Vec<u8>, AllocError> {
    let mut text = Vec::new(alloc);
    for (place, word) in words.iter().enumerate() {
        if place > 0 {
            text.push(b'|')?;
        }
        match word {
            [] => text.push(b'~')?,
            _ => text.extend_from_slice(word)?,
        }
    }
    Ok(text)
}

// The values of each piece, a slash, how many bytes are held then and a space; and behind them the last value.
fn fed(alloc: Global, crunch: bool, pieces: [&str; 2]) -> Result<String, Fail> {
    let mut text = String::new(alloc);
    let mut splitter = usual_splitter(alloc, crunch)?;
    for piece in pieces {
        let piece = Word::from_bytes(alloc, piece.as_bytes())?;
        let values = shown(alloc, &splitter.feed(piece.as_bytes())?)?;
        let values = String::from_utf8_lossy(alloc, &values)?;
        text.push_str(&format!(in alloc; "{values}/{} ", splitter.held())?)?;
    }
    if let Some(last) = splitter.finish() {
        text.push_str(&String::from_utf8_lossy(alloc, last.as_bytes())?)?;
    }
    Ok(text)
}

#[test]
fn pieces_have_their_values(rt: HostRuntime) -> Result<(), Fail> {
    let alloc = rt.alloc();
    for (crunch, pieces, wanted) in [
        (false, ["a b", "c\n"], "a/1 bc/0 "),
        (true, [" ", " x"], "~/0 /1 x"),
        (false, [" ", " x"], "~/0 ~/1 x"),
    ] {
        assert_eq!(rt; fed(alloc, crunch, pieces)?.as_str(), wanted);
    }
    Ok(())
}

#[test]
fn no_byte_of_a_value_that_ended_is_held(rt: HostRuntime) -> Result<(), Fail> {
    let alloc = rt.alloc();
    let piece = Word::from_bytes(alloc, b"abc\n")?;
    let mut splitter = usual_splitter(alloc, false)?;
    for _ in 0..100_000 {
        let values = splitter.feed(piece.as_bytes())?;
        assert_eq!(rt; (values.len(), splitter.held()), (1, 0));
    }
    Ok(())
}

#[test]
fn a_room_is_filled(rt: HostRuntime) -> Result<(), Fail> {
    let alloc = rt.alloc();
    let mut room = Room::with(alloc, 2, 5)?;
    let (words, bytes) = (room.spare_words(), room.spare_bytes());
    let first = Word::from_bytes(alloc, b"ab")?;
    if first.as_bytes().len() == 2 {
        room.push(first.as_bytes());
        room.push(b"");
    }
    assert_eq!(rt;
        (words - room.spare_words(), bytes - room.spare_bytes()),
        (2, 2)
    );
    let mut words = room.into_words();
    assert_eq!(rt; shown(alloc, &words)?.as_slice(), b"ab|~".as_slice());
    if !words.is_empty() {
        words.drop_front(1);
    }
    assert_eq!(rt; shown(alloc, &words)?.as_slice(), b"~".as_slice());
    Ok(())
}
