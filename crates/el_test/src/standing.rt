//! What the tests of a level say so far.

ghost use Rattle.std.specs.Prelude.{◌≡◌};
ghost use Rattle.el_test.specs.Walking.{inside, behind_and, behind_or, value_of};

use crate::walking::Standing;

impl Standing {
    /// Within a `(` that stands so.
    pub fn inside(self) -> Standing
        ensures { result ≡ inside self }
    {
        match self {
            Standing::Open => Standing::Open,
            Standing::Lost | Standing::Settled => Standing::Settled,
        }
    }

    /// Behind a test of this value and `-a`.
    pub fn behind_and(self, value: bool) -> Standing
        ensures { result ≡ behind_and self value }
    {
        match self {
            Standing::Open if !value => Standing::Lost,
            _ => self,
        }
    }

    /// Behind a test of this value and `-o`.
    pub fn behind_or(self, value: bool) -> Standing
        ensures { result ≡ behind_or self value }
    {
        match self {
            Standing::Open if value => Standing::Settled,
            Standing::Settled => Standing::Settled,
            _ => Standing::Open,
        }
    }

    /// What the level is, where it ends with a test of this value.
    pub fn value(self, value: bool) -> bool
        ensures { result ≡ value_of self value }
    {
        match self {
            Standing::Open => value,
            Standing::Lost => false,
            Standing::Settled => true,
        }
    }
}
