//! What each of 64 numbers holds.
ghost use Rattle.std.specs.Prelude.{◌≡◌, ◌∷◌, [], ◌<◌, ◌≤◌, IfOk, IfErr, IfSome, IfNone, find, slice_set, if◌then◌else◌, None, Some};
ghost use Rattle.std.specs.List.{filter_map};
ghost use Rattle.el_world.specs.States.{standard_fds};
ghost use Rattle.el_proc.specs.Descriptors.{held_in, streams_in, is_this, is_given, given_handles, without_handle, without_given, ends_of, lost_handles, lost_from, handles_in, moved, copied, swapped};
ghost use Rattle.el_proc.specs.DescriptorFaults.{fault_of, range_fault, move_fault, swap_fault, held_or_fault};

use el_world::Handle;
use std::marker::Model;

/// Why descriptors aren't read or changed as asked.
#[derive(Clone, Copy, PartialEq, Eq)]
pub enum FdFault {
    /// A number is 64 or more.
    OutOfRange,
    /// A number that must hold a handle holds none.
    NotOpen,
}

/// How many numbers a process has.
pub const NUMBERS: usize = 64;

/// The descriptors of a process: the numbers 0 to 63, each with a handle or nothing. A contract sees
/// the list of what they hold.
#[derive(Drop)]
pub struct Fds {
    slots: [Option<Handle>; NUMBERS],
}

impl Model for Fds {
    ghost use Rattle.std.specs.Prelude.{◌≡◌, length, List, Option};
    ghost use Rattle.el_world.specs.declared.event.Handle.{Handle};

    ghost Value = { List (Option Handle) };

    ghost view = { λ f. f.slots };

    ghost invariant = { λ f. length f.slots ≡ 64 };
}

impl Fds {
    /// The process's own handles at 0, 1 and 2, and nothing else.
    #[tactic(auto, unfolding(el_world::specs::States::standard_fds))]
    pub fn standard() -> Fds
        ensures { result ≡ standard_fds }
    {
        let mut slots = [None; NUMBERS];
        slots[0] = Some(Handle { number: 0 });
        slots[1] = Some(Handle { number: 1 });
        slots[2] = Some(Handle { number: 2 });
        Fds { slots }
    }

    /// What a number holds; `OutOfRange` exactly where it is 64 or more.
    pub fn get(&self, number: u64) -> Result<Option<Handle>, FdFault>
        ensures ok { IfOk result (λ held. held ≡ held_in self.now number) }
        ensures within { IfOk result (λ held. number < 64) }
        ensures err { IfErr result (λ fault. fault ≡ FdFault.OutOfRange) }
        ensures above { IfErr result (λ fault. 64 ≤ number) }
    {
        if number < NUMBERS as u64 {
            Ok(self.slots[number as usize])
        } else {
            Err(FdFault::OutOfRange)
        }
    }

    /// What a started process finds at its numbers 0 to 2.
    pub fn streams(&self) -> [Option<Handle>; 3]
        ensures { result ≡ streams_in self.now }
    {
        [self.slots[0], self.slots[1], self.slots[2]]
    }

    /// What number 0 holds, from which an input is read.
    pub fn input(&self) -> Option<Handle>
        ensures { result ≡ held_in self.now 0 }
    {
        self.slots[0]
    }

    /// What number 2 holds, to which messages go.
    pub fn messages(&self) -> Option<Handle>
        ensures { result ≡ held_in self.now 2 }
    {
        self.slots[2]
    }

    /// Takes the world's handle at the lowest number out of all its numbers. None exactly where no number
    /// holds a handle that the world gave; nothing is changed then.
    #[tactic(auto, using(crate::proofs::Given::given))]
    pub fn take_given(&mut self) -> Option<Handle>
        ensures some { IfSome result (λ handle. given_handles self.old ≡ handle ∷ given_handles self.new) }
        ensures taken { IfSome result (λ handle. self.new ≡ without_handle self.old handle) }
        ensures none { IfNone result (given_handles self.old ≡ []) }
        ensures same { IfNone result (self.new ≡ self.old) }
        ensures others { without_given self.new ≡ without_given self.old }
    {
        let handle = self.lowest_given()?;
        self.remove(handle);
        Some(handle)
    }

    /// How many numbers hold the handle.
    pub fn ends_of(&self, handle: Handle) -> usize
        ensures { result ≡ ends_of self.now handle }
    {
        self.slots
            .iter()
            .filter(|held| is_this(handle, **held))
            .count()
    }

    /// The number takes the handle. The answer is the handle to close: the one that it held before, if the
    /// world gave it and no number holds it any more.
    pub fn put(&mut self, n: u64, handle: Handle) -> Result<Option<Handle>, FdFault>
        ensures fault { fault_of result ≡ range_fault n }
        ensures fds { IfOk result (λ _. self.new ≡ slice_set self.old n (Some handle)) }
        ensures lost { IfOk result (λ lost. lost_handles self.old self.new ≡ handles_in lost) }
        ensures same { IfErr result (λ _. self.new ≡ self.old) }
    {
        self.replace(n, Some(handle))
    }

    /// The number holds nothing from then on. The answer is the handle to close.
    pub fn drop_number(&mut self, n: u64) -> Result<Option<Handle>, FdFault>
        ensures fault { fault_of result ≡ range_fault n }
        ensures fds { IfOk result (λ _. self.new ≡ slice_set self.old n None) }
        ensures lost { IfOk result (λ lost. lost_handles self.old self.new ≡ handles_in lost) }
        ensures same { IfErr result (λ _. self.new ≡ self.old) }
    {
        self.replace(n, None)
    }

    /// The number `to` takes the handle of `from`, which then holds nothing; with equal numbers nothing
    /// changes. The answer is the handle to close.
    pub fn move_to(&mut self, to: u64, from: u64) -> Result<Option<Handle>, FdFault>
        ensures fault { fault_of result ≡ move_fault self.old to from }
        ensures fds { IfOk result (λ _. self.new ≡ moved self.old to from) }
        ensures lost { IfOk result (λ lost. lost_handles self.old self.new ≡ handles_in lost) }
        ensures same { IfErr result (λ _. self.new ≡ self.old) }
    {
        match self.held_beside(to, from) {
            Err(fault) => Err(fault),
            Ok(_) if to == from => Ok(None),
            Ok(handle) => Ok(self.move_handle(to as usize, from as usize, handle)),
        }
    }

    /// The same, where `from` keeps the handle.
    pub fn copy(&mut self, to: u64, from: u64) -> Result<Option<Handle>, FdFault>
        ensures fault { fault_of result ≡ move_fault self.old to from }
        ensures fds { IfOk result (λ _. self.new ≡ copied self.old to from) }
        ensures lost { IfOk result (λ lost. lost_handles self.old self.new ≡ handles_in lost) }
        ensures same { IfErr result (λ _. self.new ≡ self.old) }
    {
        match self.held_beside(to, from) {
            Err(fault) => Err(fault),
            Ok(_) if to == from => Ok(None),
            Ok(handle) => Ok(self.set(to as usize, Some(handle))),
        }
    }

    /// The handles of two numbers change places.
    pub fn swap(&mut self, a: u64, b: u64) -> Result<(), FdFault>
        ensures fault { fault_of result ≡ swap_fault self.old a b }
        ensures fds { IfOk result (λ _. self.new ≡ swapped self.old a b) }
        ensures same { IfErr result (λ _. self.new ≡ self.old) }
    {
        match (self.held_beside(b, a), self.held_beside(a, b)) {
            (Ok(first), Ok(second)) => {
                self.slots[a as usize] = Some(second);
                self.slots[b as usize] = Some(first);
                Ok(())
            }
            (Err(fault), _) | (_, Err(fault)) => Err(fault),
        }
    }

    // The world's handle at the lowest number.
    fn lowest_given(&self) -> Option<Handle>
        ensures { result ≡ find is_given (filter_map (λ held. held) self.now) }
    {
        self.slots
            .iter()
            .filter_map(|held| *held)
            .find(|handle| handle.number >= FIRST_GIVEN)
    }

    // Takes a handle out of all its numbers.
    fn remove(&mut self, handle: Handle)
        ensures { self.new ≡ without_handle self.old handle }
    {
        for number in 0..NUMBERS {
            let held = self.slots[number];
            self.slots[number] = unless_this(held, handle);
        }
    }

    // A number holds this from then on, a handle or nothing. The answer is the handle to close.
    fn replace(&mut self, n: u64, held: Option<Handle>) -> Result<Option<Handle>, FdFault>
        ensures fault { fault_of result ≡ range_fault n }
        ensures fds { IfOk result (λ _. self.new ≡ slice_set self.old n held) }
        ensures lost { IfOk result (λ lost. lost_handles self.old self.new ≡ handles_in lost) }
        ensures same { IfErr result (λ _. self.new ≡ self.old) }
    {
        if n < NUMBERS as u64 {
            Ok(self.set(n as usize, held))
        } else {
            Err(FdFault::OutOfRange)
        }
    }

    // The same of a number in range.
    fn set(&mut self, number: usize, held: Option<Handle>) -> Option<Handle>
        requires { number < 64 }
        ensures fds { self.new ≡ slice_set self.old number held }
        ensures lost { lost_handles self.old self.new ≡ handles_in result }
    {
        let before = self.slots[number];
        self.slots[number] = held;
        self.lost_from(before)
    }

    // What a number held that isn't this one, and nothing any more, goes to this one.
    fn move_handle(&mut self, to: usize, from: usize, handle: Handle) -> Option<Handle>
        requires to { to < 64 }
        requires from { from < 64 }
        requires apart { to ≡ from → ⊥ }
        requires held { held_in self.old from ≡ Some handle }
        ensures fds { self.new ≡ slice_set (slice_set self.old from None) to (Some handle) }
        ensures lost { lost_handles self.old self.new ≡ handles_in result }
    {
        let before = self.slots[to];
        self.slots[from] = None;
        self.slots[to] = Some(handle);
        self.lost_from(before)
    }

    // What a number held is to be closed, if the world gave it and no number holds it.
    fn lost_from(&self, before: Option<Handle>) -> Option<Handle>
        ensures { result ≡ lost_from self.now before }
    {
        match before {
            Some(handle) if handle.number >= FIRST_GIVEN && self.ends_of(handle) == 0 => before,
            _ => None,
        }
    }

    // The handle that a number must hold, where it and another one are in range.
    fn held_beside(&self, other: u64, number: u64) -> Result<Handle, FdFault>
        ensures { result ≡ held_or_fault self.now other number }
    {
        if other >= NUMBERS as u64 || number >= NUMBERS as u64 {
            return Err(FdFault::OutOfRange);
        }
        self.slots[number as usize].ok_or(FdFault::NotOpen)
    }
}

// What a number holds, unless it is this handle.
fn unless_this(held: Option<Handle>, handle: Handle) -> Option<Handle>
    ensures { result ≡ (if is_this handle held then None else held) }
{
    if is_this(handle, held) { None } else { held }
}

// Whether what a number holds is this handle.
fn is_this(handle: Handle, held: Option<Handle>) -> bool
    ensures { result ≡ is_this handle held }
{
    match held {
        Some(other) => handle.number == other.number,
        None => false,
    }
}

/// The world's handles have this number or a greater one.
const FIRST_GIVEN: u64 = 3;
