//! Laws on the definitions.

ghost use Rattle.std.specs.Prelude.{◌≡◌, [], ◌∷◌, map, codes};
ghost use Rattle.el_test.specs.declared.operators.TheConstants.{BINARIES, PREFIXES, JOINERS};
ghost use Rattle.el_test.specs.Operators.{binary_text, prefix_text, joiner_text};
ghost use Rattle.el_test.specs.Rows.{WorkedRows};
ghost use Rattle.el_test.specs.Laws.{ProperIsRead, ReadIsProper, WrittenIsInjective, CasesAreTheReading};

/// The operators are these, and each is written so.
#[tactic(auto, unfolding(crate::specs::Operators::binary_text, crate::specs::Operators::prefix_text, crate::specs::Operators::joiner_text))]
pub fn operators_are_these()
    ensures comparisons { map binary_text BINARIES ≡ codes "=" ∷ codes "!=" ∷ codes "<" ∷ codes ">" ∷ codes "-eq" ∷ codes "-ne" ∷ codes "-lt" ∷ codes "-le" ∷ codes "-gt" ∷ codes "-ge" ∷ [] }
    ensures prefixes { map prefix_text PREFIXES ≡ codes "!" ∷ codes "(" ∷ codes "-n" ∷ codes "-z" ∷ codes "-e" ∷ codes "-f" ∷ codes "-d" ∷ codes "-r" ∷ codes "-w" ∷ codes "-x" ∷ codes "-s" ∷ codes "-h" ∷ [] }
    ensures joiners { map joiner_text JOINERS ≡ codes "-a" ∷ codes "-o" ∷ codes ")" ∷ [] }
{}

/// The words of a proper expression are read as it; what is read is proper and has these words; and so
/// no two proper expressions have the same words.
pub fn reading_is_exact()
    ensures read { ProperIsRead }
    ensures proper { ReadIsProper }
    ensures injective { WrittenIsInjective }
{}

/// The reading of eltest is the rule of its cases, which calls itself for what stands within a test and after it.
pub fn faults_are_by_cases()
    ensures { CasesAreTheReading }
{}

/// The worked rows.
pub fn worked_rows_hold()
    ensures { WorkedRows }
{}
