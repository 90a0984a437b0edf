//! Runs every row of the tables that its words name over a scripted World, and reports each that comes
//! out otherwise than it says. Where a row names no call that fails, each of its calls fails in turn besides.
#![tactic(auto)]

mod comparing;
mod event_text;
mod failing;
mod reader;
mod row;
mod running;

use anyhow::{Context, Result};
use comparing::first_difference;
use reader::read_rows;
use row::Row;
use std::process::ExitCode;
use std::{env, fs};

fn main(rt: HostRuntime) -> Result<ExitCode> {
    let alloc = rt.alloc();
    let rows = rows_of_tables(&rt)?;
    let mut differing = 0usize;
    for row in &rows {
        if let Some(difference) = first_difference(alloc, &row.run)? {
            println!(rt; "{}: {difference}", row.name)?;
            differing += 1;
        }
    }
    println!(rt; "{} rows, {differing} differ", rows.len())?;
    Ok(ExitCode::from(u8::from(differing > 0)))
}

// The rows of the tables that it was started with, one table after the other.
fn rows_of_tables(rt: &HostRuntime) -> Result<Vec<Row>> {
    let mut rows = Vec::new(rt.alloc());
    for name in env::args(rt)?.skip(1) {
        read_table(rt, name.as_str(), &mut rows).context(name)?;
    }
    Ok(rows)
}

fn read_table(rt: &HostRuntime, name: &str, rows: &mut Vec<Row>) -> Result<()> {
    let table = fs::read_to_string(rt, name)?;
    Ok(read_rows(rt.alloc(), table.as_str(), rows)?)
}
