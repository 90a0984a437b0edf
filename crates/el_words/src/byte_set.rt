//! Sets of bytes.
ghost use Rattle.std.specs.Prelude.{◌≡◌, IsTrue, ◌↔◌};
ghost use Rattle.std.specs.FinSet as set;

use std::marker::Model;

/// A set of bytes, as the delimiters of a splitting. A contract sees a finite set of numbers.
#[derive(Clone, Copy)]
pub struct ByteSet {
    members: [bool; 256],
}

impl Model for ByteSet {
    ghost use Rattle.std.specs.FinSet as set;
    ghost use Rattle.std.specs.Ordering.{nat_cmp};
    ghost use Rattle.std.specs.Coded.{coded_ℕ};
    ghost use Rattle.el_words.specs.ByteSet.{places_of, flags_of};
    ghost use Rattle.el_words.specs.Flags.{flags_of-places};
    ghost use Rattle.std.specs.Prelude.{◌≡◌, length};
    ghost use Rattle.std.proofs.Common.{ap};

    ghost Value = { set.FinSet nat_cmp };

    ghost coded = { set.code coded_ℕ };

    ghost view = { λ s. set.from_list (places_of 0 s.members) };

    ghost invariant = { λ s. length s.members ≡ 256 };

    ghost inverse = { λ bytes. record { members = flags_of bytes } };

    ghost inverse_ok = { λ s len. ap (λ members. record { members = members }) (flags_of-places s.members len) };
}

impl ByteSet {
    /// The set of the bytes in `bytes`.
    pub fn of(bytes: &[u8]) -> ByteSet
        ensures { result ≡ set.from_list bytes.now }
    {
        let mut members = [false; 256];
        for byte in bytes {
            members[usize::from(*byte)] = true;
        }
        ByteSet { members }
    }

    /// Whether `byte` is in the set.
    pub fn has(&self, byte: u8) -> bool
        ensures { result ≡ set.contains self.now byte }
    {
        self.members[usize::from(byte)]
    }

    /// Whether the set has no member.
    pub fn is_empty(&self) -> bool
        ensures { IsTrue result ↔ (self.now ≡ set.empty) }
    {
        !self.members.contains(&true)
    }
}
