//! Worked calls of eltest, elgetopt, elglob and elfamily. A test is proved as any function, and proves its crate once more, so that
//! these stand together, above all that they test.
#![tactic(auto)]

#[cfg(test)]
mod expressions;
#[cfg(test)]
mod families;
#[cfg(test)]
mod getopts;
#[cfg(test)]
mod globs;
#[cfg(test)]
mod lists;
