//! Laws on readings and faults.
// Laws over the definitions: a script has one reading or one first fault, and `lexed` is it.

ghost use Rattle.std.specs.Prelude.{◌≡◌, ◌≢◌, ◌⊎◌, ◌↔◌, ℕ, List, Ok, Err};
ghost use Rattle.el_lex.specs.declared.token.Token.{Token};
ghost use Rattle.el_lex.specs.declared.fault.LexKind.{LexKind};
ghost use Rattle.el_lex.specs.declared.fault.LexKind.TheVariants.{NoMemory as no_memory};
ghost use Rattle.el_lex.specs.Reading.{Reads, ReadsSome, Lexes};
ghost use Rattle.el_lex.specs.Faults.{FaultsAt, FaultsSome, IsFirstFault};
ghost use Rattle.el_lex.specs.Scan.{lexed};

use crate::{MAX_PART, MAX_SCRIPT};

/// The greatest number of bytes of a script, and of tokens of a part.
pub fn numbers_are_these()
    ensures script { MAX_SCRIPT ≡ 1048576 }
    ensures part { MAX_PART ≡ 1024 }
{}

/// A script has at most one list of tokens.
pub fn one_reading()
    ensures { (script : List ℕ) (one other : List Token) → Reads script one → Reads script other → one ≡ other }
{}

/// A script has at most one first fault and line.
pub fn one_fault()
    ensures kind { (script : List ℕ) (one other : LexKind) (here there : ℕ) → FaultsAt script one here → FaultsAt script other there → one ≡ other }
    ensures line { (script : List ℕ) (one other : LexKind) (here there : ℕ) → FaultsAt script one here → FaultsAt script other there → here ≡ there }
{}

/// A script with a reading has no fault.
pub fn never_both()
    ensures { (script : List ℕ) (tokens : List Token) (kind : LexKind) (line : ℕ) → Reads script tokens → FaultsAt script kind line → ⊥ }
{}

/// Every script has a reading or a fault.
pub fn one_or_the_other()
    ensures { (script : List ℕ) → ReadsSome script ⊎ FaultsSome script }
{}

/// `lexed` is the tokens of a script exactly where it reads as them and isn't too long.
pub fn lexed_reads()
    ensures { (script : List ℕ) (tokens : List Token) → (lexed script ≡ Ok tokens) ↔ Lexes script tokens }
{}

/// `lexed` is the kind and the line of the first fault exactly where a script has one or is too long.
pub fn lexed_faults()
    ensures only { (script : List ℕ) (kind : LexKind) (line : ℕ) → lexed script ≡ Err (kind, line) → IsFirstFault script kind line }
    ensures always { (script : List ℕ) (kind : LexKind) (line : ℕ) → kind ≢ no_memory → IsFirstFault script kind line → lexed script ≡ Err (kind, line) }
{}
