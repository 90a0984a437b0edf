//! Laws over the definitions: which programs there are.
ghost use Rattle.std.specs.Prelude.{◌≡◌, Some};
ghost use Rattle.el_words.specs.declared.prog.Prog.{Prog};
ghost use Rattle.el_words.specs.Prog.{name_text, program_named};

/// Each program is found by its own name, so that none is missing in the list in which names are looked up.
#[tactic(auto, using(crate::proofs::Programs::own_names))]
pub fn programs_are_these()
    ensures { (program : Prog) → program_named (name_text program) ≡ Some program }
{}
