//! What ellint says of itself.
ghost use Rattle.std.specs.Prelude.{◌≡◌};

use crate::NAME;
use el_proc::{FAILED_CALL, usage_of};
use std::alloc::Global;
use std::io::Write;
use std::{env, fs, io};

// Where the version stands, from the folder of the program.
const VERSION: &str = "../lib/execline/version";

/// Writes to standard output how ellint is called, and gives the status.
pub(crate) fn tell_usage(rt: &HostRuntime) -> u8 {
    match write_usage(rt) {
        Ok(()) => 0,
        Err(_) => tell_failed(rt),
    }
}

fn write_usage(rt: &HostRuntime) -> io::Result<()> {
    let mut output = rt.stdout();
    output.write_all(b"usage: ")?;
    output.write_all(usage_of(NAME.as_bytes()))?;
    output.write_all(b"\n")
}

/// Writes to standard output which version is installed, and gives the status.
pub(crate) fn tell_version(rt: &HostRuntime, alloc: Global) -> u8 {
    let Ok(version) = version_of(rt, alloc) else {
        let _ = eprintln!(rt; "{NAME}: no version is known: it isn't installed");
        return FAILED_CALL;
    };
    match rt.stdout().write_all(&version) {
        Ok(()) => 0,
        Err(_) => tell_failed(rt),
    }
}

fn version_of(rt: &HostRuntime, alloc: Global) -> io::Result<Vec<u8>> {
    let program = env::current_exe(rt)?;
    let file = program.as_path().with_file_name(alloc, VERSION)?;
    fs::read(rt, file.as_path())
}

// The output took not all.
fn tell_failed(rt: &HostRuntime) -> u8 {
    let _ = eprintln!(rt; "{NAME}: system call failed");
    FAILED_CALL
}
