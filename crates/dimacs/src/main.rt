//! The program `dimacs`: decides whether some assignment satisfies the formula of a DIMACS file, and prints the `s` and `v`
//! lines of the solvers' competitions, and on request a derivation in the form of LRAT.
//!
//!     dimacs FILE [--log]
//!
//! The exit status is 10 for a satisfiable formula and 20 for an unsatisfiable one; 1 for a fault, which is told on standard error.
#![tactic(auto)]

mod ending;
mod solving;
mod telling;

ghost use Rattle.std.specs.Prelude.{◌<◌, IfSome, length};

use crate::ending::status_of;
use crate::solving::solve_file;
use crate::telling::{tell, tell_ending};
use sec_base::{FsShelf, OutSink};
use std::process::ExitCode;
use std::{env, io};

// Whether a log is asked for; none where the words aren't a request.
fn asks_log(words: &[String]) -> Option<bool>
    ensures { IfSome result (λ _. 1 < length words.now) }
{
    match words.len() {
        2 => Some(false),
        3 if words[2].as_bytes() == b"--log".as_slice() => Some(true),
        _ => None,
    }
}

fn main(rt: HostRuntime) -> io::Result<ExitCode> {
    let alloc = rt.alloc();
    // A word that isn't text makes the words none, which aren't a request.
    let words = match env::args(&rt) {
        Ok(args) => args.collect(alloc)?,
        Err(_) => Vec::new(alloc),
    };
    let mut err = OutSink::new(rt.stderr());
    let Some(with_log) = asks_log(&words) else {
        tell(&mut err, b"usage: dimacs FILE [--log]\n");
        return Ok(ExitCode::from(1));
    };
    let mut shelf = FsShelf::new(&rt);
    let mut out = OutSink::new(io::writer(&rt));
    let ending = solve_file(alloc, &mut shelf, words[1].as_str(), with_log, &mut out);
    tell_ending(&mut err, words[1].as_str(), ending);
    Ok(ExitCode::from(status_of(ending)))
}
