//! Laws of the definitions: functions that do nothing, whose contracts are the laws.

ghost use Rattle.el_loops.specs.Laws.{ValuesArePutInPlace};

/// With `-E` a turn has the words of the rest with its value put in, each still one word, and no variable of the
/// loop's name.
pub fn values_are_put_in_place()
    ensures { ValuesArePutInPlace }
{}
