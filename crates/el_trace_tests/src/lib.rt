//! Worked traces: how they are printed and read, and what is said of them. A test is proved as any function, and proves its crate
//! once more, so that these stand together, above all that they test.
#![tactic(auto)]

#[cfg(test)]
mod traces;
#[cfg(test)]
mod verdicts;
