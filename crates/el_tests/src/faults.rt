//! The texts of faults.
use el_blocks::{SpellFault, Unterminated};
use el_env::EnvFault;
use el_lex::{LexFault, LexKind};
use el_options::UsageFault;
use el_subst::SubstFault;
use el_transform::TransformFault;
use el_words::{NoMemory, WordFault};
use std::test::Fail;

#[test]
fn faults_are_written(rt: HostRuntime) -> Result<(), Fail> {
    let alloc = rt.alloc();
    let open_quote = LexFault {
        kind: LexKind::OpenQuote,
        line: 3,
    };
    for (text, want) in [
        (format!(in alloc; "{open_quote}")?, "line 3: OpenQuote"),
        (
            format!(in alloc; "{}", SpellFault::TooDeep { line: 256 })?,
            "line 256: TooDeep",
        ),
        (format!(in alloc; "{Unterminated}")?, "unterminated block"),
        (
            format!(in alloc; "{}", UsageFault::Unknown { letter: b'q' })?,
            "unknown option -q",
        ),
        (
            format!(in alloc; "{}", UsageFault::NoValue { letter: b'x' })?,
            "option -x needs a value",
        ),
        (
            format!(in alloc; "{}", EnvFault::TooDeep)?,
            "frame too deep",
        ),
        (
            format!(in alloc; "{}", SubstFault::BadKey)?,
            "bad variable name",
        ),
        (
            format!(in alloc; "{}", TransformFault::BadNetstring { at: 6 })?,
            "bad netstring at 6",
        ),
        (format!(in alloc; "{NoMemory}")?, "no memory"),
        (
            format!(in alloc; "{}", WordFault::Nul)?,
            "NUL byte in a word",
        ),
    ] {
        assert_eq!(rt; text.as_str(), want);
    }
    Ok(())
}
