//! Tables of what the lower crates' calls give, where a row of el_rows can't say it. A test is proved as any function, and proves its
//! crate once more, so that these stand together, above all that they test.
#![tactic(auto)]

#[cfg(test)]
mod faults;
#[cfg(test)]
mod frames;
#[cfg(test)]
mod layouts;
#[cfg(test)]
mod numbers;
#[cfg(test)]
mod options;
#[cfg(test)]
mod references;
#[cfg(test)]
mod scripts;
#[cfg(test)]
mod values;
