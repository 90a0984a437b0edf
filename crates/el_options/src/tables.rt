//! The option letters of the programs, each table under its program's name in capitals. A read's slots
//! have their order.

use crate::{Opt, Table};

// The table of these letters, each with `value` behind it where it takes one.
macro_rules! table {
    ($($letter:literal $($takes:ident)?),*) => {
        Table { opts: [$(opt!($letter $($takes)?)),*] }
    };
}

macro_rules! opt {
    ($letter:literal) => {
        Opt { letter: $letter, takes: false }
    };
    ($letter:literal value) => {
        Opt { letter: $letter, takes: true }
    };
}

/// The options of define.
pub const DEFINE: Table<4> = table!(b'C', b'n', b's', b'd' value);

/// The options of importas, and of import.
pub const IMPORTAS: Table<7> = table!(b'i', b'D' value, b'u', b'C', b'n', b's', b'd' value);

/// The options of multidefine.
pub const MULTIDEFINE: Table<3> = table!(b'C', b'n', b'd' value);

/// The options of elgetpositionals.
pub const ELGETPOSITIONALS: Table<1> = table!(b'P' value);

/// The options of emptyenv.
pub const EMPTYENV: Table<1> = table!(b'p');

/// The options of envfile.
pub const ENVFILE: Table<2> = table!(b'i', b'I');

/// The options of withstdinas.
pub const WITHSTDINAS: Table<2> = table!(b'n', b'N');

/// The options of background, which knows no letter.
pub const BACKGROUND: Table<0> = table!();

/// The options of if.
pub const IF: Table<4> = table!(b'X', b'n', b't', b'x' value);

/// The options of ifelse.
pub const IFELSE: Table<2> = table!(b'X', b'n');

/// The options of ifte.
pub const IFTE: Table<2> = table!(b'X', b'n');

/// The options of ifthenelse.
pub const IFTHENELSE: Table<1> = table!(b'X');

/// The options of wait, which knows no letter.
pub const WAIT: Table<0> = table!();

/// The options of exec.
pub const EXEC: Table<1> = table!(b'c');

/// The options of loopwhilex.
pub const LOOPWHILEX: Table<2> = table!(b'n', b'x' value);

/// The options of forx.
pub const FORX: Table<4> = table!(b'p', b'E', b'o' value, b'x' value);

/// The options of forstdin.
pub const FORSTDIN: Table<6> = table!(b'p', b'E', b'o' value, b'x' value, b'C', b'd' value);

/// The options of forbacktickx.
pub const FORBACKTICKX: Table<6> = table!(b'p', b'E', b'o' value, b'x' value, b'C', b'd' value);

/// The options of pipeline.
pub const PIPELINE: Table<2> = table!(b'r', b'w');

/// The options of backtick.
pub const BACKTICK: Table<6> = table!(b'i', b'I', b'D' value, b'n', b'N', b'E');

/// The options of redirfd.
pub const REDIRFD: Table<6> = table!(b'r', b'w', b'u', b'a', b'c', b'x');

/// The options of fdmove.
pub const FDMOVE: Table<1> = table!(b'c');

/// The options of heredoc, which knows no letter.
pub const HEREDOC: Table<0> = table!();

/// The options of execlineb.
pub const EXECLINEB: Table<7> = table!(b'q', b'w', b'W', b'P', b'S' value, b's' value, b'c' value);

/// The options of elcheck.
pub const ELCHECK: Table<4> = table!(b'P', b'S' value, b's' value, b'c' value);

/// The options of elfmt.
pub const ELFMT: Table<3> = table!(b'k', b'u', b'c' value);
