//! A trajectory database on the command line: `mftb run STORE SCRIPT [FILES]...`, `mftb check STORE`,
//! `mftb migrate OLD NEW`, `mftb part K N FILE`, `mftb parts N FILE DIR`,
//! `mftb moments STORE X1 Y1 X2 Y2 T1 T2`, `mftb zones STORE ZONES T1 T2`, `mftb gaps STORE T1 T2`,
//! `mftb info STORE`.
#![tactic(auto)]

mod commands;
mod explain;
mod outcome;
mod status;
mod system;

use status::start;
use std::io::{ErrorKind, IsTerminal, Write};
use std::process::ExitCode;
use std::{env, io};

/// The words of the command line, the program's name first.
fn command_line(rt: &HostRuntime) -> io::Result<Vec<String>> {
    Ok(env::args(rt)?.collect(rt.alloc())?)
}

fn main(rt: HostRuntime) -> ExitCode {
    let mut faults = rt.stderr();
    let is_terminal = faults.is_terminal();
    match command_line(&rt) {
        Ok(words) => ExitCode::from(start(
            &rt,
            &words,
            &mut io::writer(&rt),
            &mut faults,
            is_terminal,
        )),
        Err(error) if error.kind() == ErrorKind::OutOfMemory => {
            let _ = writeln!(faults, "mftb: memory");
            ExitCode::from(1)
        }
        Err(error) => {
            let _ = writeln!(faults, "{error}");
            ExitCode::from(2)
        }
    }
}
