//! How a run ends.
use el_words::NoMemory;

/// How a run ends. It is the error of what may end its process on the way.
#[derive(Clone, Copy, Debug, PartialEq, Eq)]
pub enum Finish {
    /// With this status.
    Status(u8),
    /// A unit was due, and none was left. Nothing of that unit was done.
    Spent,
    /// There was no memory to go on.
    NoMemory,
}

impl From<NoMemory> for Finish {
    ghost use Rattle.std.specs.Prelude.{◌≡◌};
    ghost use Rattle.el_world.specs.declared.finish.Finish.TheVariants.{NoMemory as no_memory};

    ghost from_gives = { λ _ finish. finish ≡ no_memory };

    fn from(_: NoMemory) -> Self {
        Finish::NoMemory
    }
}
