//! A variable that is lent.
ghost use Rattle.el_words.specs.Word.{HasNul};

/// A variable of an environment, of which nothing is copied. No byte of it is NUL.
#[derive(Clone, Copy)]
pub struct Variable<'a> {
    pub name: &'a [u8],
    pub value: &'a [u8],
    ghost name_is_word: { HasNul name.now → ⊥ },
    ghost value_is_word: { HasNul value.now → ⊥ },
}
