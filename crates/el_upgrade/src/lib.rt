//! The upgrade of scripts, importas for import: an upgraded tree is accepted as the tree is, and runs as it does.
#![tactic(auto)]

pub mod laws;
