//! What must stand where a program's word stands.
ghost use Rattle.std.specs.Prelude.{◌≡◌};
ghost use Rattle.el_lint.specs.Sentences.{wanted_text};

/// What must stand where a program's word stands.
#[derive(Clone, Copy, PartialEq, Eq)]
pub enum Wanted {
    /// A number that a process can end with.
    Status,
    /// The number of a descriptor.
    Descriptor,
    /// A name that a variable can have.
    Name,
    /// A key that a reference can have.
    Key,
    /// A name that a variable and a reference can have.
    NameAndKey,
    /// Netstrings, one behind the other.
    Netstrings,
}

impl Wanted {
    /// What is said of it.
    #[tactic(auto, unfolding(crate::specs::Sentences::wanted_text))]
    pub fn text(self) -> &'static [u8]
        ensures { result.now ≡ wanted_text self }
    {
        match self {
            Wanted::Status => b"a status is a number up to 255",
            Wanted::Descriptor => b"a descriptor is a number up to 63",
            Wanted::Name => b"a variable's name isn't empty, and has no `=`",
            Wanted::Key => b"the name of a reference isn't empty, and has no `$` and no `}`",
            Wanted::NameAndKey => {
                b"the name of a variable and of a reference isn't empty, and has no `=`, no `$` and no `}`"
            }
            Wanted::Netstrings => b"netstrings are written `2:ab,0:,`",
        }
    }
}
