//! The letter E: values are put in words, and no variable has them.
ghost use Rattle.el_room.specs.Vocabulary.{HasNul, is_good_key, read_of, the_text, First};
ghost use Rattle.std.specs.Prelude.{◌≡◌, IfOk, IsTrue};
ghost use Rattle.el_pipes.specs.Putting.{puts_values, names_well, value_pairs};

use el_room::{Front, NoMemory, Nth, Subject, Words, bad_key, bad_name, is_good_name};
use el_subst::{Subst, is_good_key};
use std::alloc::Global;

/// Whether values are put in the words.
pub fn puts_values(front: &Front) -> bool
    ensures { result ≡ puts_values (read_of front.now) }
{
    front.has(b'E')
}

/// Whether the first word is a good name for what has the values: with `-E` a reference can have it, and
/// otherwise a variable.
pub fn names_well(front: &Front) -> bool
    ensures { result ≡ names_well (read_of front.now) }
{
    let name = front.text(Nth::First);
    if puts_values(front) {
        is_good_key(name)
    } else {
        is_good_name(name)
    }
}

/// What the message is about of a first word that is no such name.
pub fn badly_named(front: &Front) -> Subject<'_> {
    let name = front.text(Nth::First);
    if puts_values(front) {
        bad_key(name)
    } else {
        bad_name(name)
    }
}

/// The substitution in which the first word stands for the value, as one word. A reference must be able to
/// have it.
pub fn value_pairs(alloc: Global, front: &Front, value: &[u8]) -> Result<Subst, NoMemory>
    requires good { IsTrue (is_good_key (the_text First (read_of front.now))) }
    requires no_nul { HasNul value.now → ⊥ }
    ensures { IfOk result (λ subst. subst ≡ value_pairs (read_of front.now) value.now) }
{
    let mut words = Words::new(alloc);
    words.push(value)?;
    let mut subst = Subst::new(alloc);
    let key = front.word(alloc, Nth::First)?;
    subst.add(key, words).map_err(|_| NoMemory)?;
    Ok(subst)
}
