//! What a `$` begins.
ghost use Rattle.std.specs.Prelude.{◌≡◌, ◌+◌, ◌≤◌, length, option_map, take_while, IfSome};
ghost use Rattle.std.specs.List.{prefix_len};
ghost use Rattle.el_subst.specs.Parts.{braced_key, found_after, found_braced, found_run, is_name_byte, is_special};
ghost use Rattle.el_subst.specs.Dollars.{found_of};

use memchr::memchr2;

/// A reference after its `$`.
#[derive(Clone, Copy)]
pub struct Reference<'a> {
    /// What is looked up.
    pub key: &'a [u8],
    /// How many bytes the reference takes after its `$`.
    pub length: usize,
}

/// The reference that a `$` begins, by what stands after it, or None exactly where it begins none.
pub fn reference_after(after: &[u8]) -> Option<Reference<'_>>
    ensures found { option_map found_of result ≡ found_after after.now }
    ensures within { IfSome result (λ found. found.length ≤ length after.now) }
{
    let [first, rest @ ..] = after else {
        return None;
    };
    if *first == b'{' {
        return braced(rest);
    }
    if is_special(*first) {
        return Some(Reference {
            key: &after[..1],
            length: 1,
        });
    }
    name_run(after)
}

// A key in braces, after the opening one.
fn braced(rest: &[u8]) -> Option<Reference<'_>>
    ensures found { option_map found_of result ≡ found_braced (braced_key rest.now) }
    ensures within { IfSome result (λ found. found.length ≤ length rest.now + 1) }
{
    let end = memchr2(b'}', b'$', rest)?;
    if rest[end] == b'$' {
        return None;
    }
    Some(Reference {
        key: &rest[..end],
        length: end + 2,
    })
}

// The longest run of name bytes, where there is one.
fn name_run(after: &[u8]) -> Option<Reference<'_>>
    ensures found { option_map found_of result ≡ found_run (take_while is_name_byte after.now) }
    ensures within { IfSome result (λ found. found.length ≤ length after.now) }
{
    let length = run_length(after);
    if length == 0 {
        return None;
    }
    Some(Reference {
        key: &after[..length],
        length,
    })
}

fn run_length(bytes: &[u8]) -> usize
    ensures { result ≡ prefix_len is_name_byte bytes.now }
{
    bytes.iter().take_while(|byte| is_name_byte(**byte)).count()
}

fn is_name_byte(byte: u8) -> bool
    ensures { result ≡ is_name_byte byte }
{
    matches!(byte, b'0'..=b'9' | b'A'..=b'Z' | b'a'..=b'z' | b'_')
}

fn is_special(byte: u8) -> bool
    ensures { result ≡ is_special byte }
{
    matches!(byte, b'#' | b'@' | b'!' | b'?' | b'*')
}
