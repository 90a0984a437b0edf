//! Marks of names, by which most names are known not to be inherited.
ghost use Rattle.std.specs.Prelude.{◌≡◌, ◌<◌, ℕ, true, List, []};
ghost use Rattle.el_env.specs.Marks.{mark, mark_count, is_marked};

use el_words::NoMemory;
use std::alloc::Global;

// A mark is made of one of so many sums and one of so many last bytes.
const SUMS: usize = 64;

const LASTS: usize = 32;

// What stands for a mark that is set; a byte, since a vector of bytes is made with one copy.
const SET: u8 = 1;

const UNSET: u8 = 0;

const ALL_UNSET: [u8; SUMS * LASTS] = [UNSET; SUMS * LASTS];

// Among so few names a look at each costs less than marks, which take more memory than they.
const FEW: usize = 64;

/// The marks of names, so that of a name that was never added mostly its mark tells so.
#[derive(Drop)]
pub(super) struct Marks {
    // For each mark whether a name has it. Where it is empty every name counts as marked.
    pub(super) flags: Vec<u8>,
}

impl Marks {
    /// Marks for names that are few: every name is marked.
    pub(super) fn new(alloc: Global) -> Marks
        ensures { result.flags.items ≡ [] }
    {
        Marks {
            flags: Vec::new(alloc),
        }
    }

    /// Marks for `count` names.
    pub(super) fn with(alloc: Global, count: usize) -> Result<Marks, NoMemory> {
        let mut marks = Marks::new(alloc);
        if count > FEW {
            marks.flags.extend_from_slice(&ALL_UNSET)?;
        }
        Ok(marks)
    }

    /// Adds the mark of a name. None is taken away.
    pub(super) fn add(&mut self, name: &[u8])
        ensures added { is_marked self.new.flags.items name.now ≡ true }
        ensures kept { (other : List ℕ) → is_marked self.old.flags.items other ≡ true → is_marked self.new.flags.items other ≡ true }
    {
        let mark = mark_of(name);
        if mark < self.flags.len() {
            self.flags[mark] = SET;
        }
    }

    /// Whether a name is marked.
    pub(super) fn has(&self, name: &[u8]) -> bool
        ensures { result ≡ is_marked self.now.flags.items name.now }
    {
        let mark = mark_of(name);
        mark >= self.flags.len() || self.flags[mark] == SET
    }
}

// The mark of a name: the sum of its length and the byte in its middle, and its last byte. The names of
// one environment differ in these more than in their first bytes.
#[tactic(auto, unfolding(crate::specs::Marks::mark))]
fn mark_of(name: &[u8]) -> usize
    ensures mark { result ≡ mark name.now }
    ensures few { result < mark_count }
{
    if name.is_empty() {
        return 0;
    }
    let middle = usize::from(name[name.len() / 2]);
    let last = usize::from(name[name.len() - 1]);
    (name.len() + middle) % SUMS * LASTS + last % LASTS
}
