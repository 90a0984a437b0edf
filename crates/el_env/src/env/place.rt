//! Where a variable lies in the buffer of inherited ones.
ghost use Rattle.std.specs.Prelude.{◌≡◌, length};
ghost use Rattle.std.specs.Str.{bytes_eq};
ghost use Rattle.el_words.specs.Word.{HasNul};
ghost use Rattle.el_env.specs.Variable.{pair_of};
ghost use Rattle.el_env.specs.Places.{pair_at, IsWithin};

use super::Variable;

/// Where a variable lies among bytes: its name up to `middle`, and its value from there on.
#[derive(Clone, Copy)]
pub(super) struct Place {
    pub(super) start: usize,
    pub(super) middle: usize,
    pub(super) end: usize,
}

impl Place {
    /// Whether the variable that lies there has the name.
    pub(super) fn is_named(&self, bytes: &[u8], name: &[u8]) -> bool
        requires { IsWithin (length bytes.now) self.now }
        ensures { result ≡ bytes_eq (pair_at bytes.now self.now).0 name.now }
    {
        // Most names differ in their lengths already.
        if self.middle - self.start != name.len() {
            return false;
        }
        &bytes[self.start..self.middle] == name
    }

    /// The variable that lies there; no byte is NUL.
    pub(super) fn variable<'a>(&self, bytes: &'a [u8]) -> Variable<'a>
        requires within { IsWithin (length bytes.now) self.now }
        requires no_nul { HasNul bytes.now → ⊥ }
        ensures { pair_of result ≡ pair_at bytes.now self.now }
    {
        Variable {
            name: &bytes[self.start..self.middle],
            value: &bytes[self.middle..self.end],
        }
    }
}
