//! How strict a program is with words in blocks.
ghost use Rattle.std.specs.Prelude.{◌≡◌};
ghost use Rattle.std.specs.Option.{option_copied};
ghost use Rattle.el_options.specs.Strictness.{strictness_by};

/// What EXECLINE_STRICT says of a word in a block that has no leading space.
#[derive(Clone, Copy, PartialEq, Eq)]
pub enum Strictness {
    /// Nothing.
    Lenient,
    /// A warning for each such word.
    Warning,
    /// A refusal.
    Refusing,
}

impl Strictness {
    /// What the variable says by its value, or by None where it isn't set: exactly `1` warns, and exactly
    /// `2` refuses.
    pub fn by(value: Option<&[u8]>) -> Strictness
        ensures { result ≡ strictness_by (option_copied value.entry) }
    {
        match value {
            Some(b"1") => Strictness::Warning,
            Some(b"2") => Strictness::Refusing,
            _ => Strictness::Lenient,
        }
    }
}
