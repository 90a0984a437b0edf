//! What is said of a finding.
ghost use Rattle.std.specs.Prelude.{◌≡◌, ◌∷◌, ◌++◌, OnOk, map};
ghost use Rattle.el_lint.specs.declared.lint.Lint.TheVariants.{Misspelled, Stranger as StrangerLint, Unset, Unused, Refused, Valued, Coded, Loaded, Opened, Worded, Unchecked, Inherited, Negated};
ghost use Rattle.el_lint.specs.Sentences.{lint_name, shown_byte, shown, sentence};

use crate::lint::Lint;
use crate::stranger::Stranger;
use crate::wanted::Wanted;
use el_words::{Bytes, NoMemory, Prog};

impl Lint {
    /// Its name, by which comments allow it.
    #[tactic(auto, unfolding(crate::specs::Sentences::lint_name))]
    pub fn name(&self) -> &'static [u8]
        ensures { result.now ≡ lint_name self.now }
    {
        match self {
            Lint::Misspelled { .. } => b"typo",
            Lint::Stranger { .. } => b"absent",
            Lint::Unset { .. } => b"unset",
            Lint::Unused { .. } => b"unused",
            Lint::Refused { .. } => b"refused",
            Lint::Valued { .. } => b"value",
            Lint::Coded { .. } => b"code",
            Lint::Loaded { .. } => b"loader",
            Lint::Opened { .. } => b"path",
            Lint::Worded { .. } => b"words",
            Lint::Unchecked { .. } => b"unchecked",
            Lint::Inherited { .. } => b"inherited",
            Lint::Negated { .. } => b"negated",
        }
    }
}

/// Puts the sentence on a lint behind.
#[tactic(auto, unfolding(crate::specs::Sentences::sentence))]
pub(crate) fn put_sentence(lint: &Lint, text: &mut Bytes) -> Result<(), NoMemory>
    ensures { OnOk result (text.new ≡ text.old ++ sentence lint.now) }
{
    match lint {
        Lint::Misspelled { word, program } => put_misspelled(word.as_bytes(), *program, text),
        Lint::Stranger { stranger } => put_stranger(*stranger, text),
        Lint::Unset { key } => put_unset(key.as_bytes(), text),
        Lint::Unused { name } => put_behind(
            name.as_bytes(),
            b" is put in, and no word refers to it",
            text,
        ),
        Lint::Refused {
            program,
            wanted,
            word,
        } => put_refused(*program, *wanted, word.as_bytes(), text),
        Lint::Valued { word } => put_behind(
            word.as_bytes(),
            b" has the command's name from a value: what that starts isn't looked into",
            text,
        ),
        Lint::Coded { word } => put_coded(word.as_bytes(), text),
        Lint::Loaded { program } => put_loaded(*program, text),
        Lint::Opened { word } => put_behind(
            word.as_bytes(),
            b" isn't the script's descriptor: fdmove takes that",
            text,
        ),
        Lint::Worded { program } => put_behind(
            program.name(),
            b" has a turn for each word: with -d \"\\n\" it has one for each line",
            text,
        ),
        Lint::Unchecked { name } => put_unchecked(name.as_bytes(), text),
        Lint::Inherited { program, word } => put_inherited(*program, word.as_bytes(), text),
        Lint::Negated { word } => put_behind(
            word.as_bytes(),
            b" is a test under -n: where it isn't found, the script goes on",
            text,
        ),
    }
}

#[tactic(auto, unfolding(crate::specs::Sentences::sentence))]
fn put_misspelled(word: &[u8], program: Prog, text: &mut Bytes) -> Result<(), NoMemory>
    ensures { OnOk result (text.new ≡ text.old ++ sentence (Misspelled word.now program)) }
{
    put_shown(word, text)?;
    text.append(b" is no program here: is ")?;
    put_shown(program.name(), text)?;
    text.append(b" meant?")
}

#[tactic(auto, unfolding(crate::specs::Sentences::sentence))]
fn put_stranger(stranger: Stranger, text: &mut Bytes) -> Result<(), NoMemory>
    ensures { OnOk result (text.new ≡ text.old ++ sentence (StrangerLint stranger)) }
{
    put_shown(stranger.name(), text)?;
    text.append(b" of skarnet's execline isn't here: ")?;
    text.append(stranger.cure())
}

#[tactic(auto, unfolding(crate::specs::Sentences::sentence))]
fn put_unset(key: &[u8], text: &mut Bytes) -> Result<(), NoMemory>
    ensures { OnOk result (text.new ≡ text.old ++ sentence (Unset key.now)) }
{
    text.append(b"nothing puts a value in for ")?;
    put_reference(key, text)
}

#[tactic(auto, unfolding(crate::specs::Sentences::sentence))]
fn put_refused(program: Prog, wanted: Wanted, word: &[u8], text: &mut Bytes) -> Result<(), NoMemory>
    ensures { OnOk result (text.new ≡ text.old ++ sentence (Refused program wanted word.now)) }
{
    put_shown(program.name(), text)?;
    text.append(b" refuses ")?;
    put_shown(word, text)?;
    text.append(b": ")?;
    text.append(wanted.text())
}

#[tactic(auto, unfolding(crate::specs::Sentences::sentence))]
fn put_coded(word: &[u8], text: &mut Bytes) -> Result<(), NoMemory>
    ensures { OnOk result (text.new ≡ text.old ++ sentence (Coded word.now)) }
{
    text.append(b"a value is put in the shell's text ")?;
    put_shown(word, text)?;
    text.append(b": it is read as code")
}

#[tactic(auto, unfolding(crate::specs::Sentences::sentence))]
fn put_loaded(program: Prog, text: &mut Bytes) -> Result<(), NoMemory>
    ensures { OnOk result (text.new ≡ text.old ++ sentence (Loaded program)) }
{
    text.append(b"the command in front looks for ")?;
    put_shown(program.name(), text)?;
    text.append(b" in PATH: `execline` stands before it")
}

#[tactic(auto, unfolding(crate::specs::Sentences::sentence))]
fn put_unchecked(name: &[u8], text: &mut Bytes) -> Result<(), NoMemory>
    ensures { OnOk result (text.new ≡ text.old ++ sentence (Unchecked name.now)) }
{
    text.append(
        b"backtick goes on where its block fails, and words behind a command that takes away hold ",
    )?;
    put_reference(name, text)?;
    text.append(b": -i ends the script there")
}

#[tactic(auto, unfolding(crate::specs::Sentences::sentence))]
fn put_inherited(program: Prog, word: &[u8], text: &mut Bytes) -> Result<(), NoMemory>
    ensures { OnOk result (text.new ≡ text.old ++ sentence (Inherited program word.now)) }
{
    put_shown(program.name(), text)?;
    text.append(b" needs the descriptor ")?;
    put_shown(word, text)?;
    text.append(b": no program makes it, and one that is inherited isn't there")
}

// Puts a word and a text behind.
fn put_behind(word: &[u8], behind: &[u8], text: &mut Bytes) -> Result<(), NoMemory>
    ensures { OnOk result (text.new ≡ text.old ++ shown word.now ++ behind.now) }
{
    put_shown(word, text)?;
    text.append(behind)
}

// A reference between backticks, by its key.
#[tactic(auto, unfolding(crate::specs::Sentences::shown))]
fn put_reference(key: &[u8], text: &mut Bytes) -> Result<(), NoMemory>
    ensures { OnOk result (text.new ≡ text.old ++ shown (36 ∷ key.now)) }
{
    text.append(b"`$")?;
    put_shown_bytes(key, text)?;
    text.append(b"`")
}

// A word between backticks.
#[tactic(auto, unfolding(crate::specs::Sentences::shown))]
fn put_shown(word: &[u8], text: &mut Bytes) -> Result<(), NoMemory>
    ensures { OnOk result (text.new ≡ text.old ++ shown word.now) }
{
    text.append(b"`")?;
    put_shown_bytes(word, text)?;
    text.append(b"`")
}

fn put_shown_bytes(word: &[u8], text: &mut Bytes) -> Result<(), NoMemory>
    ensures { OnOk result (text.new ≡ text.old ++ map shown_byte word.now) }
{
    for byte in word {
        text.push(shown_byte(*byte))?;
    }
    Ok(())
}

// A control byte is shown as a `?`.
fn shown_byte(byte: u8) -> u8
    ensures { result ≡ shown_byte byte }
{
    if byte.is_ascii_control() { b'?' } else { byte }
}
