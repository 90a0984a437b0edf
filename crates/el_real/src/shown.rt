//! How a text that others wrote is shown in a line.
ghost use Rattle.std.specs.Prelude.{◌≡◌, ◌++◌, OnOk};
ghost use Rattle.el_real.specs.Shown.{shown_byte, plain, cut, shown};

use el_words::{Bytes, NoMemory};

// More bytes of a text aren't shown.
const MAX_SHOWN: usize = 400;

/// Puts the text behind `line` as it is shown: its control bytes as `?`, and two dots in place of all after its first
/// 400 bytes. An empty text is two quotes. `NoMemory` if there is no memory for it.
#[tactic(auto, using(crate::proofs::Showing::shown_texts))]
pub fn put_shown(text: &[u8], line: &mut Bytes) -> Result<(), NoMemory>
    ensures { OnOk result (line.new ≡ line.old ++ shown text.now) }
{
    if text.is_empty() {
        return line.append(b"\"\"");
    }
    put_cut(text, line)
}

// Puts the first bytes of a text behind `line`, and two dots if there are more.
#[tactic(auto, using(crate::proofs::Showing::cuts))]
fn put_cut(text: &[u8], line: &mut Bytes) -> Result<(), NoMemory>
    ensures { OnOk result (line.new ≡ line.old ++ cut text.now) }
{
    if text.len() <= MAX_SHOWN {
        return put_plain(text, line);
    }
    let (front, _) = text.split_at(MAX_SHOWN);
    put_plain(front, line)?;
    line.append(b"..")
}

/// Puts the bytes behind `line`, each as it is shown. `NoMemory` if there is no memory for them.
pub fn put_plain(bytes: &[u8], line: &mut Bytes) -> Result<(), NoMemory>
    ensures { OnOk result (line.new ≡ line.old ++ plain bytes.now) }
{
    for byte in bytes {
        line.push(shown_byte(*byte))?;
    }
    Ok(())
}

fn shown_byte(byte: u8) -> u8
    ensures { result ≡ shown_byte byte }
{
    if byte.is_ascii_control() { b'?' } else { byte }
}
