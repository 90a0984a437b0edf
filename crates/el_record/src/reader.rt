//! What is left of a text, and what stands at its front.
#![tactic(auto, using(crate::proofs::FieldLaws::reading))]

ghost use Rattle.std.specs.Prelude.{◌≡◌, ◌^◌, Some, IfOk, option_map};
ghost use Rattle.std.specs.Result.{result_map_both};
ghost use Rattle.el_words.specs.Word.{HasNul};
ghost use Rattle.el_transform.specs.Computed.{cut_word};
ghost use Rattle.el_record.specs.Reading.{byte_of, cut_semicolon, number_of_front, bytes_of_front};
ghost use Rattle.el_record.specs.TraceReading.{number_below, word_at};
ghost use Rattle.el_record.specs.Read.{IsRead, leading_number};

use el_words::NoMemory;
use std::alloc::AllocFailed;

/// What is left of a text.
#[derive(Clone, Copy)]
pub(crate) struct Reader<'a> {
    pub(crate) rest: &'a [u8],
}

/// Why nothing was read.
#[derive(Clone, Copy, PartialEq, Eq)]
pub(crate) enum ReadFault {
    /// It doesn't stand there.
    Absent,
    /// There is no memory for it.
    NoMemory,
}

impl From<NoMemory> for ReadFault {
    ghost use Rattle.el_record.specs.declared.reader.ReadFault.TheVariants.{NoMemory as no_memory};

    ghost from_gives = { λ _ e. e ≡ no_memory };

    fn from(_: NoMemory) -> Self {
        ReadFault::NoMemory
    }
}

impl<T: Drop> From<AllocFailed<T>> for ReadFault {
    ghost use Rattle.el_record.specs.declared.reader.ReadFault.TheVariants.{NoMemory};

    ghost from_gives = { λ _ e. e ≡ NoMemory };

    fn from(_: AllocFailed<T>) -> Self {
        ReadFault::NoMemory
    }
}

impl<'a> Reader<'a> {
    /// The next byte.
    pub(crate) fn byte(&mut self) -> Result<u8, ReadFault>
        ensures { IsRead (byte_of self.old.rest.now) result self.new.rest.now }
    {
        let [byte, rest @ ..] = self.rest else {
            return Err(ReadFault::Absent);
        };
        self.rest = rest;
        Ok(*byte)
    }

    /// A number without leading zeros, and its semicolon.
    #[tactic(auto, using(crate::proofs::Leading::no_number, crate::proofs::Leading::number_then))]
    pub(crate) fn number(&mut self) -> Result<u64, ReadFault>
        ensures { IsRead (number_of_front self.old.rest.now) result self.new.rest.now }
    {
        let Some((number, text)) = leading_number(self.rest) else {
            return Err(ReadFault::Absent);
        };
        let Some((number, rest)) = cut_semicolon(number, text) else {
            return Err(ReadFault::Absent);
        };
        self.rest = rest;
        Ok(number)
    }

    /// Such a number of 32 bits.
    #[tactic(auto, using(crate::proofs::FieldLaws::reading), unfolding(crate::specs::TraceReading::number_below))]
    pub(crate) fn number_u32(&mut self) -> Result<u32, ReadFault>
        ensures { IsRead (number_below (2 ^ 32) self.old.rest.now) result self.new.rest.now }
    {
        let number = self.number()?;
        match u32::try_from(number) {
            Ok(number) => Ok(number),
            Err(_) => Err(ReadFault::Absent),
        }
    }

    /// Such a number of 8 bits.
    #[tactic(auto, using(crate::proofs::FieldLaws::reading), unfolding(crate::specs::TraceReading::number_below))]
    pub(crate) fn number_u8(&mut self) -> Result<u8, ReadFault>
        ensures { IsRead (number_below 256 self.old.rest.now) result self.new.rest.now }
    {
        let number = self.number()?;
        match u8::try_from(number) {
            Ok(number) => Ok(number),
            Err(_) => Err(ReadFault::Absent),
        }
    }

    /// The bytes of a netstring.
    #[tactic(auto, using(crate::proofs::Leading::no_netstring, crate::proofs::Leading::netstring_then))]
    pub(crate) fn netstring(&mut self) -> Result<&'a [u8], ReadFault>
        ensures { IsRead (bytes_of_front self.old.rest.now) (result_map_both (λ bytes. bytes.now) (λ fault. fault) result) self.new.rest.now }
    {
        let Some((length, text)) = leading_number(self.rest) else {
            return Err(ReadFault::Absent);
        };
        let Some((bytes, rest)) = cut_bytes(length as usize, text) else {
            return Err(ReadFault::Absent);
        };
        self.rest = rest;
        Ok(bytes)
    }

    /// The bytes of a netstring without NUL.
    #[tactic(auto, using(crate::proofs::FieldLaws::reading), unfolding(crate::specs::TraceReading::word_at))]
    pub(crate) fn word(&mut self) -> Result<&'a [u8], ReadFault>
        ensures read { IsRead (word_at self.old.rest.now) (result_map_both (λ word. word.now) (λ fault. fault) result) self.new.rest.now }
        ensures no_nul { IfOk result (λ word. HasNul word.now → ⊥) }
    {
        let bytes = self.netstring()?;
        if bytes.contains(&0) {
            return Err(ReadFault::Absent);
        }
        Ok(bytes)
    }
}

// The number that the digits at the front write, without leading zeros, and the bytes behind them.
#[tactic(auto, using(crate::proofs::Leading::nothing_first, crate::proofs::Leading::other_first, crate::proofs::Leading::digit_first))]
fn leading_number(bytes: &[u8]) -> Option<(u64, &[u8])>
    ensures { option_map (λ found. (found.0, found.1.now)) result ≡ leading_number bytes.now }
{
    let Some((first, rest)) = bytes.split_first() else {
        return None;
    };
    if !first.is_ascii_digit() {
        return None;
    }
    let mut number = u64::from(*first - b'0');
    let mut left = rest;
    while let [digit @ b'0'..=b'9', rest @ ..] = left {
        if number == 0 {
            return None;
        }
        number = number
            .checked_mul(10)?
            .checked_add(u64::from(*digit - b'0'))?;
        left = rest;
    }
    Some((number, left))
}

// A semicolon behind a number: the number, and the bytes behind the semicolon.
fn cut_semicolon(number: u64, bytes: &[u8]) -> Option<(u64, &[u8])>
    ensures { option_map (λ found. (found.0, found.1.now)) result ≡ cut_semicolon (Some number) bytes.now }
{
    let [b';', rest @ ..] = bytes else {
        return None;
    };
    Some((number, rest))
}

// A colon, so many bytes and a comma: the bytes, and those behind the comma.
fn cut_bytes(length: usize, bytes: &[u8]) -> Option<(&[u8], &[u8])>
    ensures { option_map (λ found. (found.0.now, found.1.now)) result ≡ cut_word (Some length) bytes.now }
{
    let [b':', text @ ..] = bytes else {
        return None;
    };
    let (word, [b',', rest @ ..]) = text.split_at_checked(length)? else {
        return None;
    };
    Some((word, rest))
}
