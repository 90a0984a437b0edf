//! Arguments that are read as options.
ghost use Rattle.el_room.specs.Vocabulary.{is_ascii_alphanumeric, cluster_of};
ghost use Rattle.std.specs.Prelude.{◌≡◌, ◌+◌, ◌<◌, ◌≤◌, true, [], ◌∷◌, ◌++◌, length, drop, None, IfOk, IfErr, IfSome, OnOk, IsTrue, ◌↔◌, slice_index_or};
ghost use Rattle.el_options.specs.Reading.{shown, Letters};
ghost use Rattle.el_options.specs.Reader.{IsOption};
ghost use Rattle.el_getopt.specs.Optstring.{is_optstring, letters_in};
ghost use Rattle.el_getopt.specs.Parsing.{args_read};
ghost use Rattle.el_getopt.specs.Reader.{IsFaultOf, IsAt, IsRead, IsStep};

use crate::fault::ParseFault;
use crate::optstring::takes_value;
use el_proc::Trouble;
use el_words::{NoMemory, Words};
use std::alloc::Global;

/// A letter that was read.
#[derive(Clone, Copy)]
pub(crate) struct FoundLetter {
    /// It is one of the optstring's.
    pub(crate) letter: u8,
    /// Where its value stands, if it takes one.
    pub(crate) value: Option<Place>,
}

/// The bytes of an argument from a place on.
#[derive(Clone, Copy)]
pub(crate) struct Place {
    /// Which argument; the first has the number 0.
    pub(crate) word: usize,
    /// From which byte on.
    pub(crate) from: usize,
}

/// Arguments as far as they are read.
#[derive(Drop)]
pub(crate) struct Reader {
    /// The letters, in the order in which they were read.
    pub(crate) found: Vec<FoundLetter>,
    /// How many arguments were read.
    pub(crate) used: usize,
}

/// Reads arguments as options, by the letters of an optstring. The rule is that of the programs' own options
/// (`el_options::read_options`): a word of at least two bytes that begins with `-` is an option word; `--` ends the options and
/// is eaten; any other word ends them. Letters stand in clusters. A letter that takes a value takes the rest of its word, or the
/// next word where the rest is empty. `Refused` names the first bad letter.
pub(crate) fn read_args(alloc: Global, optstring: &[u8], args: &Words) -> Result<Reader, ParseFault>
    requires { is_optstring optstring.now ≡ true }
    ensures ok { IfOk result (λ reader. IsRead optstring.now args.now reader.found.items reader.used) }
    ensures fault { IfErr result (IsFaultOf (args_read optstring.now args.now)) }
{
    let mut reader = Reader::new(alloc, optstring, args);
    while reader.option_word(optstring, args)? {}
    Ok(reader)
}

impl Reader {
    // Nothing is read yet.
    fn new(alloc: Global, optstring: &[u8], args: &Words) -> Reader
        ensures { IsAt optstring.now args.now None result.found.items result.used }
    {
        Reader {
            found: Vec::new(alloc),
            used: 0,
        }
    }

    // Reads the next word if it is an option word, with the value behind it; or tells that reading ends.
    fn option_word(&mut self, optstring: &[u8], args: &Words) -> Result<bool, ParseFault>
        requires optstring { is_optstring optstring.now ≡ true }
        requires at { IsAt optstring.now args.now None self.old.found.items self.old.used }
        ensures ok { IfOk result (λ goes_on. IsStep optstring.now args.now self.old.used self.new.found.items self.new.used goes_on) }
        ensures fault { IfErr result (IsFaultOf (args_read optstring.now args.now)) }
    {
        if self.used == args.len() {
            return Ok(false);
        }
        let text = args.at(self.used);
        if !is_option(text) {
            return Ok(false);
        }
        if text == b"--".as_slice() {
            self.used += 1;
            return Ok(false);
        }
        let wanted = self.cluster(optstring, args)?;
        self.used += 1;
        if let Some(letter) = wanted {
            self.next_value(optstring, args, letter)?;
        }
        Ok(true)
    }

    // Reads the letters of a word, and gives the one that takes the next word.
    fn cluster(&mut self, optstring: &[u8], args: &Words) -> Result<Option<u8>, ParseFault>
        requires optstring { is_optstring optstring.now ≡ true }
        requires at { IsAt optstring.now args.now None self.old.found.items self.old.used }
        requires inside { self.old.used < length args.now }
        requires letters { shown (letters_in optstring.now) (slice_index_or args.now self.old.used []) ≡ Letters (cluster_of (letters_in optstring.now) (drop 1 (slice_index_or args.now self.old.used []))) }
        ensures ok { IfOk result (λ wanted. IsAt optstring.now args.now wanted self.new.found.items (self.old.used + 1)) }
        ensures named { IfOk result (λ wanted. IfSome wanted (λ letter. is_ascii_alphanumeric letter ≡ true)) }
        ensures fault { IfErr result (IsFaultOf (args_read optstring.now args.now)) }
        ensures used { self.new.used ≡ self.old.used }
    {
        let word = self.used;
        let text = args.at(word);
        for from in 1..text.len() {
            let letter = text[from];
            let unknown = ParseFault::Refused(Trouble::Unknown { letter });
            let takes = takes_value(optstring, letter).ok_or(unknown)?;
            if takes {
                if from + 1 == text.len() {
                    return Ok(Some(letter));
                }
                let place = Place {
                    word,
                    from: from + 1,
                };
                self.note(letter, Some(place))?;
                return Ok(None);
            }
            self.note(letter, None)?;
        }
        Ok(None)
    }

    // Takes the next word as the value of the letter.
    fn next_value(&mut self, optstring: &[u8], args: &Words, letter: u8) -> Result<(), ParseFault>
        requires named { is_ascii_alphanumeric letter ≡ true }
        requires at { IsAt optstring.now args.now (Some letter) self.old.found.items self.old.used }
        ensures ok { OnOk result (IsAt optstring.now args.now None self.new.found.items self.new.used) }
        ensures used { OnOk result (self.old.used < self.new.used) }
        ensures fault { IfErr result (IsFaultOf (args_read optstring.now args.now)) }
    {
        let word = self.used;
        if word == args.len() {
            return Err(ParseFault::Refused(Trouble::NoValue { letter }));
        }
        self.note(letter, Some(Place { word, from: 0 }))?;
        self.used += 1;
        Ok(())
    }

    // The letter was read.
    fn note(&mut self, letter: u8, value: Option<Place>) -> Result<(), NoMemory>
        ensures found { OnOk result (self.new.found.items ≡ self.old.found.items ++ record { letter = letter; value = value } ∷ []) }
        ensures used { self.new.used ≡ self.old.used }
    {
        self.found.push(FoundLetter { letter, value })?;
        Ok(())
    }
}

// Whether a word is an option word.
fn is_option(text: &[u8]) -> bool
    ensures { IsTrue result ↔ IsOption text.now }
{
    text.len() > 1 && text[0] == b'-'
}
