//! The names that the readers of scripts share: `specs/Vocabulary.antt` and `proofs/Vocabulary.antt` pass on those of
//! definitions and proofs.
#![tactic(auto)]
