//! The program `sec`: the words, files and streams of the system, handed to the library's `run`.
#![tactic(auto)]

use sec_base::{FreeGate, FsShelf, OutSink, write_text};
use sec_cli::run;
use std::alloc::AllocError;
use std::io::ErrorKind;
use std::process::ExitCode;
use std::{env, io};

// The words of the system. One that isn't text makes them none, which are no command.
fn system_words(rt: &HostRuntime) -> Result<Vec<String>, AllocError> {
    match env::args(rt) {
        Ok(args) => args.collect(rt.alloc()),
        Err(error) if error.kind() == ErrorKind::OutOfMemory => Err(AllocError),
        Err(_) => Ok(Vec::new(rt.alloc())),
    }
}

fn main(rt: HostRuntime) -> ExitCode {
    let mut out = OutSink::new(io::writer(&rt));
    let mut err = OutSink::new(rt.stderr());
    let Ok(words) = system_words(&rt) else {
        let _told = write_text(&mut err, b"sec: out of memory\n");
        return ExitCode::from(7);
    };
    let mut shelf = FsShelf::new(&rt);
    let report = run(
        &rt,
        rt.alloc(),
        &words,
        &mut shelf,
        &mut out,
        &mut err,
        &FreeGate,
    );
    ExitCode::from(report.status)
}
