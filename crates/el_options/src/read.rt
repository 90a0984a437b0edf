//! The options of a program, read at the front of its words.
ghost use Rattle.std.specs.Prelude.{◌≡◌, ◌<◌, ◌≤◌, true, length, IfOk, IfErr};
ghost use Rattle.el_options.specs.Reading.{reading};
ghost use Rattle.el_options.specs.Slots.{are_good_opts, IsRead, faulty};

use crate::Table;
use crate::reader::Reader;
use el_words::Words;
use thiserror::Error;

/// Where a letter of a table was read. `nth` numbers the letters read, from 0; of a letter that was
/// read more than once the last occurrence counts.
#[derive(Clone, Copy, Debug, PartialEq, Eq)]
pub enum Slot {
    /// It wasn't read.
    Absent,
    /// It was read, and takes no value.
    Flag {
        nth: usize,
    },
    /// Its value is the bytes of the word with this number from this place on.
    Value {
        nth: usize,
        word: usize,
        from: usize,
    },
}

/// The options of a program as they were read: `slots[i]` belongs to `opts[i]` of the table, and `used`
/// is the number of words read, the program's name among them.
#[derive(Clone, Copy)]
pub struct Read<const N: usize> {
    pub slots: [Slot; N],
    pub used: usize,
}

/// The first bad letter.
#[derive(Clone, Copy, Debug, PartialEq, Eq, Error)]
pub enum UsageFault {
    /// The letter isn't in the table.
    #[error("unknown option -{}", char::from(*.letter))]
    Unknown { letter: u8 },
    /// The letter takes a value, and no word is left for it.
    #[error("option -{} needs a value", char::from(*.letter))]
    NoValue { letter: u8 },
}

/// Reads the options behind the first word, which is the program's name.
///
/// A word of at least two bytes that begins with `-` is an option word; `--` ends the options and is
/// eaten; any other word ends them. Letters stand in clusters. A letter that takes a value takes the rest
/// of its word, or the next word where the rest is empty. The error names the first bad letter. Takes no
/// memory.
///
/// The letters of the table must differ, and none may be `-`; `words` isn't empty, and N is at most 16.
/// The form is that of execline's programs (https://skarnet.org/software/execline/).
pub fn read_options<const N: usize>(table: &Table<N>, words: &Words) -> Result<Read<N>, UsageFault>
    requires named { 0 < length words.now }
    requires few { N ≤ 16 }
    requires good { are_good_opts table.now.opts ≡ true }
    ensures ok { IfOk result (λ read. IsRead table.now.opts (reading table.now.opts words.now) read.slots read.used) }
    ensures used { IfOk result (λ read. read.used ≤ length words.now) }
    ensures fault { IfErr result (λ fault. reading table.now.opts words.now ≡ faulty fault) }
{
    let mut reader = Reader::new(table, words);
    while reader.option_word(table, words)? {}
    Ok(Read {
        slots: reader.slots,
        used: reader.used,
    })
}
