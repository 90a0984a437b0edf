//! Laws over the definitions: what a reader may conclude from them, whatever the code does.
//! Values are shorter than 2^64 bytes, as every value in memory is.

ghost use Rattle.el_transform.specs.Laws.{SplittingIsOne, NetstringsAreOne, BadPlaceIsOne, BadIsNoText, ComputedIsTransformed, ComputedIsBad, ComputedByList, PiecesAreSplit, UnfinishedIsAfterLast};
ghost use Rattle.std.specs.Prelude.{◌≡◌, ◌∷◌, [], true, false, codes, Ok, Err};
ghost use Rattle.el_transform.specs.Computed.{listed_rules, words_by};

/// A value is split in one way.
pub fn splitting_is_one()
    ensures { SplittingIsOne }
{}

/// A value is the netstrings of one list of words at most.
pub fn netstrings_are_one()
    ensures { NetstringsAreOne }
{}

/// A value has one place at most at which a netstring is bad.
pub fn bad_place_is_one()
    ensures { BadPlaceIsOne }
{}

/// A value with a bad netstring is the netstrings of no words.
pub fn bad_is_no_text()
    ensures { BadIsNoText }
{}

/// `transformed` is Ok exactly with the words of the value.
pub fn computed_is_transformed()
    ensures { ComputedIsTransformed }
{}

/// `transformed` is Err exactly with the place of the bad netstring.
pub fn computed_is_bad()
    ensures { ComputedIsBad }
{}

/// `transformed` goes by the list that the delimiters are made of.
pub fn computed_by_list()
    ensures { ComputedByList }
{}

/// The values of pieces that are fed to a splitter, and its last one, are the splitting of the pieces joined.
pub fn pieces_are_split()
    ensures { PiecesAreSplit }
{}

/// What a splitter holds are the bytes after the last delimiter.
pub fn unfinished_is_after_last()
    ensures { UnfinishedIsAfterLast }
{}

/// The words by a list of delimiters compute on literal values.
pub fn computed_words()
    ensures all { words_by (listed_rules true true true (codes " \n\r\t")) (codes "  a  b \n") ≡ Ok ([] ∷ codes "a" ∷ codes "b" ∷ []) }
    ensures crunched { words_by (listed_rules true false false (codes " \n\r\t")) (codes "  a  b \n") ≡ Ok (codes " a b " ∷ []) }
    ensures netstrings { words_by (listed_rules false false true []) (codes "1:a,0:,2:bc,") ≡ Ok (codes "a" ∷ [] ∷ codes "bc" ∷ []) }
    ensures bad { words_by (listed_rules false false true []) (codes "3:abc,2:x") ≡ Err 6 }
{}
