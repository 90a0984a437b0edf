//! Worked matches, and what is true of all: functions that do nothing, whose contracts are the laws.
#![tactic(auto, unfolding(crate::specs::Reading::pieces_from))]

ghost use Rattle.std.specs.Prelude.{◌≡◌, ◌↔◌, true, [], ◌∷◌, Some, None, Ok, codes, ℕ, List};
ghost use Rattle.std.specs.Option.{option_map};
ghost use Rattle.el_glob.specs.declared.listed.Listed.TheVariants.{Names as NamesOf};
ghost use Rattle.el_glob.specs.Patterns.{pattern_of};
ghost use Rattle.el_glob.specs.Written.{Written};
ghost use Rattle.el_glob.specs.Listings.{Answer, globbed};
ghost use Rattle.std.specs.List.{list_all};
ghost use Rattle.el_glob.specs.Names.{IsIn};
ghost use Rattle.el_glob.specs.Listers.{is_lawful, has_fault};
ghost use Rattle.el_glob.specs.Matches.{IsMatch};
ghost use Rattle.el_glob.specs.Rising.{Rises};

use crate::MAX_PATTERN;

/// The greatest number of bytes of a pattern.
pub fn numbers_are_these()
    ensures { MAX_PATTERN ≡ 4096 }
{}

/// `*/x`: the matches rise by the bytes of the whole path, and not component by component.
pub fn whole_paths_rise()
    ensures { option_map (λ (pattern : Written). globbed (codes "/") pattern (Ok (NamesOf (codes "a" ∷ codes "a-b" ∷ codes ".c" ∷ [])) ∷ Ok (NamesOf (codes "x" ∷ [])) ∷ Ok (NamesOf (codes "x" ∷ codes "y" ∷ [])) ∷ [])) (pattern_of (codes "*/x"))
        ≡ Some (record {
          asked = record { dir = codes "/"; path = []; answer = Ok (NamesOf (codes "a" ∷ codes "a-b" ∷ codes ".c" ∷ [])) } ∷ record { dir = codes "/"; path = codes "a"; answer = Ok (NamesOf (codes "x" ∷ [])) }
              ∷ record { dir = codes "/"; path = codes "a-b"; answer = Ok (NamesOf (codes "x" ∷ codes "y" ∷ [])) } ∷ [];
          found = Some (codes "a-b/x" ∷ codes "a/x" ∷ []);
        }) }
{}

/// Texts that are no patterns.
pub fn bad_patterns()
    ensures range { pattern_of (codes "[b-a]") ≡ None }
    ensures empty { pattern_of (codes "a//b") ≡ None }
    ensures end { pattern_of (codes "a/") ≡ None }
    ensures root { pattern_of (codes "/") ≡ None }
    ensures set { pattern_of (codes "[]a]") ≡ None }
    ensures escape { pattern_of (codes "a\\") ≡ None }
{}

/// `/../[!a]*`: `..` isn't listed.
pub fn dots_are_not_listed()
    ensures { option_map (λ (pattern : Written). globbed (codes "/") pattern (Ok (NamesOf (codes "ab" ∷ codes "ba" ∷ codes ".b" ∷ [])) ∷ [])) (pattern_of (codes "/../[!a]*"))
        ≡ Some (record { asked = record { dir = codes "/"; path = codes "/.."; answer = Ok (NamesOf (codes "ab" ∷ codes "ba" ∷ codes ".b" ∷ [])) } ∷ []; found = Some (codes "/../ba" ∷ []) }) }
{}

/// What a pattern finds rises by the bytes of the whole path; so each path stands once.
pub fn matches_rise()
    ensures { (dir : List ℕ) (pattern : Written) (answers : List Answer) (paths : List (List ℕ)) → (globbed dir pattern answers).found ≡ Some paths → Rises paths }
{}

/// On lawful answers of which none failed, a pattern finds exactly the paths that it matches by the listings made.
pub fn all_matches_are_found()
    ensures { (dir : List ℕ) (pattern : Written) (answers : List Answer) (paths : List (List ℕ)) → list_all is_lawful answers ≡ true → (globbed dir pattern answers).found ≡ Some paths
        → (path : List ℕ) → IsIn paths path ↔ IsMatch (globbed dir pattern answers).asked pattern path }
{}

/// Nothing is found exactly where a listing failed.
pub fn failures_are_told()
    ensures { (dir : List ℕ) (pattern : Written) (answers : List Answer) → ((globbed dir pattern answers).found ≡ None) ↔ (has_fault (globbed dir pattern answers).asked ≡ true) }
{}
