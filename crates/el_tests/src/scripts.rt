//! Scripts that are lexed.
use el_lex::{LexFault, LexKind, MAX_SCRIPT, Token, Tokens, lex};
use std::alloc::Global;
use std::test::Fail;

// Each token as its line, a colon and its word between bars, or its brace; a space behind each.
fn shown(alloc: Global, tokens: &Tokens) -> Result<String, Fail> {
    let mut text = String::new(alloc);
    for token in tokens {
        match token {
            Token::Open { line } => text.push_str(&format!(in alloc; "{line}:{{ ")?)?,
            Token::Close { line } => text.push_str(&format!(in alloc; "{line}:}} ")?)?,
            Token::Word { word, line } => {
                let word = String::from_utf8_lossy(alloc, word.as_bytes())?;
                text.push_str(&format!(in alloc; "{line}:|{word}| ")?)?;
            }
        }
    }
    Ok(text)
}

fn tokens_of(alloc: Global, script: &str) -> Result<String, Fail> {
    shown(alloc, &lex(alloc, script.as_bytes())?)
}

#[test]
fn scripts_are_read(rt: HostRuntime) -> Result<(), Fail> {
    let alloc = rt.alloc();
    for (script, want) in [
        // gaps, comments and lines
        ("", ""),
        (" \t\r\n", ""),
        ("a", "1:|a| "),
        ("#!/bin/execlineb -P\n\necho hi\n", "3:|echo| 3:|hi| "),
        ("# a\\", ""),
        ("a # b \" c\nd", "1:|a| 2:|d| "),
        ("a#b #", "1:|a#b| "),
        ("\"#\" \\# #", "1:|#| 1:|#| "),
        ("\"a\nb\" c\\\nd e", "1:|a\nb| 2:|c\nd| 3:|e| "),
        ("\x0ba\x0c", "1:|\x0ba\x0c| "),
        ("abcdefghijklmnopq\\ r s", "1:|abcdefghijklmnopq r| 1:|s| "),
        (
            "\"abcdefghijklm\nno\\0x41\np\" q",
            "1:|abcdefghijklm\nnoA\np| 3:|q| ",
        ),
        // braces
        ("{ } {\n}", "1:{ 1:} 1:{ 2:} "),
        ("a{ {} \"{\" \\} }\"\"", "1:|a{| 1:|{}| 1:|{| 1:|}| 1:|}| "),
        // pieces outside quotes
        ("a\\ \\n\\\\\\\"b", "1:|a n\\\"b| "),
        ("\"\"", "1:|| "),
        ("a\"b c\"\"d\"e", "1:|ab cde| "),
        // escapes in quotes
        ("\"\\a\\b\\t\\n\\v\\f\\r\"", "1:|\x07\x08\t\n\x0b\x0c\r| "),
        ("\"a\\\nb\" c", "1:|ab| 2:|c| "),
        ("\"\\\"\\\\\\x\\ \\{\"", "1:|\"\\x {| "),
        ("\"\\0x41\\065\\66\"", "1:|A5B| "),
        ("\"\\0xAg\\0xa\\0x0a\"", "1:|\ng\n\n| "),
        ("\"\\0x411\\01011\\0659\"", "1:|A1A159| "),
        ("\"\\1234\\9a\\10\\7f\"", "1:|{4\ta\n\x07f| "),
    ] {
        assert_eq!(rt; tokens_of(alloc, script)?.as_str(), want, "{script}");
    }
    Ok(())
}

#[test]
fn first_faults_are_named(rt: HostRuntime) {
    for (script, kind, line) in [
        ("a\nb\0c", LexKind::Nul, 2),
        ("# \n# a\0b", LexKind::Nul, 2),
        ("\"\n\0", LexKind::Nul, 2),
        ("\\\0", LexKind::Nul, 1),
        ("\"\\\0\"", LexKind::Nul, 1),
        ("\n\\", LexKind::EndAfterBackslash, 2),
        ("a\\", LexKind::EndAfterBackslash, 1),
        ("\"\\", LexKind::EndAfterBackslash, 1),
        ("\"\\0x\"", LexKind::BadNumber, 1),
        ("\"\\0x", LexKind::BadNumber, 1),
        ("\"\n\\0xg\n\0", LexKind::BadNumber, 2),
        ("\"\\256\"", LexKind::ByteTooLarge, 1),
        ("\"\\777\"", LexKind::ByteTooLarge, 1),
        ("\"\\0777\"", LexKind::ByteTooLarge, 1),
        ("\"\\0\"", LexKind::NulEscape, 1),
        ("\"\\08\"", LexKind::NulEscape, 1),
        ("\"\\000\"", LexKind::NulEscape, 1),
        ("\"\\0x00", LexKind::NulEscape, 1),
        ("\"\\12", LexKind::OpenQuote, 1),
        ("a\nb\n\"ab", LexKind::OpenQuote, 3),
        ("\"a\n\n\" \"b\n\n", LexKind::OpenQuote, 3),
    ] {
        assert_eq!(rt;
            lex(rt.alloc(), script.as_bytes()).err(),
            Some(LexFault { kind, line }),
            "{script}"
        );
    }
}

#[test]
fn a_script_may_be_too_long(rt: HostRuntime) -> Result<(), Fail> {
    let mut script = Vec::new(rt.alloc());
    script.resize(MAX_SCRIPT, b'\n')?;
    assert!(rt; lex(rt.alloc(), &script).is_ok());
    script.push(b'\n')?;
    assert_eq!(rt;
        lex(rt.alloc(), &script).err(),
        Some(LexFault {
            kind: LexKind::TooLong,
            line: 1
        })
    );
    Ok(())
}
