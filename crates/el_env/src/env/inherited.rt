//! Inherited variables, in one buffer.
ghost use Rattle.std.specs.Prelude.{◌≡◌, ◌≢◌, ℕ, List, [], ◌∷◌, ◌++◌, None, IfNone, IfSome, IfOk, OnOk, OnErr, map as mapped};
ghost use Rattle.std.specs.Option.{option_copied};
ghost use Rattle.el_words.specs.Word.{HasNul};
ghost use Rattle.el_env.specs.Variable.{pair_of};
ghost use Rattle.el_env.specs.Inherited.{value_in, StandsAt, AreRising, HaveNoNul};

use super::Variable;
use super::marks::Marks;
use super::place::Place;
use el_words::NoMemory;
use std::alloc::Global;
use std::marker::Model;

// How many bytes a name and its value mostly have together.
const USUAL_LEN: usize = 32;

/// Variables as they came, one behind another in one buffer, so that a thousand of them cost two
/// blocks of memory. Their names rise, so that a start, which hands them on in order, needs no sort. A
/// contract sees the list of their names and values.
#[derive(Drop)]
pub(super) struct Inherited {
    // Without NUL. The bytes of a variable that was removed stay.
    bytes: Vec<u8>,
    places: Vec<Place>,
    // Of all their names, so that a name that isn't among them is seldom looked for among many. Those of
    // variables that were removed stay.
    marks: Marks,
}

impl Model for Inherited {
    ghost use Rattle.std.specs.Prelude.{List, ℕ};

    ghost Value = { List (List ℕ × List ℕ) };

    ghost use Rattle.el_env.specs.Places.{pairs_at, IsFindable};

    ghost view = { λ i. pairs_at i.bytes.items i.places.items };

    ghost invariant = { λ i. IsFindable i.bytes.items i.places.items i.marks.flags.items };
}

impl Inherited {
    pub(super) fn new(alloc: Global) -> Inherited
        ensures { result ≡ [] }
    {
        Inherited {
            bytes: Vec::new(alloc),
            places: Vec::new(alloc),
            marks: Marks::new(alloc),
        }
    }

    /// These variables, whose names rise. None of them holds a NUL.
    pub(super) fn of(alloc: Global, variables: &[Variable<'_>]) -> Result<Inherited, NoMemory>
        requires { AreRising (mapped pair_of variables.now) }
        ensures all { IfOk result (λ inherited. inherited ≡ mapped pair_of variables.now) }
        ensures no_nul { OnOk result (HaveNoNul (mapped pair_of variables.now)) }
    {
        let count = variables.len();
        let mut inherited = Inherited {
            bytes: Vec::with_capacity(alloc, count.saturating_mul(USUAL_LEN))?,
            places: Vec::with_capacity(alloc, count)?,
            marks: Marks::with(alloc, count)?,
        };
        for variable in variables {
            inherited.push(variable.name, variable.value)?;
        }
        Ok(inherited)
    }

    // Puts a variable last, behind whose name comes none. After an error the variables are as before.
    fn push(&mut self, name: &[u8], value: &[u8]) -> Result<(), NoMemory>
        requires name { HasNul name.now → ⊥ }
        requires value { HasNul value.now → ⊥ }
        requires rising { AreRising (self.old ++ (name.now, value.now) ∷ []) }
        ensures ok { OnOk result (self.new ≡ self.old ++ (name.now, value.now) ∷ []) }
        ensures err { OnErr result (self.new ≡ self.old) }
    {
        self.places.reserve(1)?;
        let start = self.bytes.len();
        self.bytes.extend_from_slice(name)?;
        let middle = self.bytes.len();
        self.bytes.extend_from_slice(value)?;
        let end = self.bytes.len();
        self.places.push_reserved(Place { start, middle, end });
        self.marks.add(name);
        Ok(())
    }

    /// The value of the first variable with this name.
    pub(super) fn get(&self, name: &[u8]) -> Option<&[u8]>
        ensures value { option_copied result ≡ value_in name.now self.now }
        ensures no_nul { IfSome result (λ value. HasNul value.now → ⊥) }
    {
        let place = &self.places[self.position(name)?];
        Some(place.variable(&self.bytes).value)
    }

    /// Takes every variable with this name out.
    pub(super) fn remove(&mut self, name: &[u8])
        ensures gone { value_in name.now self.new ≡ None }
        ensures others { (other : List ℕ) → other ≢ name.now → value_in other self.new ≡ value_in other self.old }
    {
        while let Some(at) = self.position(name) {
            self.places.remove(at);
        }
    }

    // Where the first variable with this name stands.
    fn position(&self, name: &[u8]) -> Option<usize>
        ensures none { IfNone result (value_in name.now self.now ≡ None) }
        ensures found { IfSome result (λ at. StandsAt self.now at name.now) }
    {
        if !self.marks.has(name) {
            return None;
        }
        for (at, place) in self.places.iter().enumerate() {
            if place.is_named(&self.bytes, name) {
                return Some(at);
            }
        }
        None
    }

    /// All of them, lent, with room for so many more. Their names rise.
    pub(super) fn lend(&self, more: usize) -> Result<Vec<Variable<'_>>, NoMemory>
        ensures all { IfOk result (λ lent. mapped pair_of lent.items ≡ self.now) }
        ensures rising { AreRising self.now }
    {
        let alloc = *self.bytes.allocator();
        let mut lent = Vec::with_capacity(alloc, self.places.len().saturating_add(more))?;
        for place in &self.places {
            lent.push(place.variable(&self.bytes))?;
        }
        Ok(lent)
    }

    /// The same variables again, without marks: in most copies few names are looked for.
    pub(super) fn copy(&self) -> Result<Inherited, NoMemory>
        ensures { IfOk result (λ copy. copy ≡ self.now) }
    {
        let alloc = *self.bytes.allocator();
        Ok(Inherited {
            bytes: Vec::from_slice(alloc, &self.bytes)?,
            places: Vec::from_slice(alloc, &self.places)?,
            marks: Marks::new(alloc),
        })
    }
}
