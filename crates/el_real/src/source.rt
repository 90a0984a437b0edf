//! Where the stream comes from that a child has at one of its numbers 0 to 2.
ghost use Rattle.std.specs.Prelude.{◌≡◌};
ghost use Rattle.el_real.specs.Sources.{source_of};

use el_world::Handle;

/// Where it comes from.
#[derive(Clone, Copy, PartialEq, Eq)]
pub enum Source {
    /// It is the null device.
    Null,
    /// It is what this process has at the same number.
    Inherited,
    /// It is a copy of what stands behind this handle.
    Copied(Handle),
}

/// The source of what a child has at the number `place`, where it is to be `end`; `closed` says whether this process was started
/// with nothing at that number.
pub fn source_of(end: Option<Handle>, place: u64, closed: bool) -> Source
    ensures { result ≡ source_of end place closed }
{
    match end {
        None => Source::Null,
        Some(handle) if handle.number != place => Source::Copied(handle),
        Some(_) if closed => Source::Null,
        Some(_) => Source::Inherited,
    }
}
