//! The program: the words after its name go in, and it ends with the number of the answer.
#![tactic(auto)]

use jesc_engine::{Status, run};
use jesc_io::{DiskFiles, StdSink};
use std::env;
use std::io::ErrorKind;
use std::process::ExitCode;

/// The number with which the program ends.
fn number_of(status: Status) -> u8 {
    match status {
        Status::Verified => 0,
        Status::Warned => 1,
        Status::Refused => 2,
        Status::Usage => 3,
        Status::ReadFault => 4,
        Status::WriteFault => 5,
        Status::OutOfMemory => 6,
        Status::Partial => 7,
    }
}

/// The words after the program's name. With one that is no UTF-8 there are none, which is no command.
fn words_of(rt: &HostRuntime) -> Result<Vec<String>, Status> {
    let mut words = Vec::new(rt.alloc());
    let args = match env::args(rt) {
        Ok(args) => args,
        Err(error) if error.kind() == ErrorKind::OutOfMemory => return Err(Status::OutOfMemory),
        Err(_) => return Ok(words),
    };
    for word in args.skip(1) {
        match words.push(word) {
            Ok(_) => {}
            Err(_) => return Err(Status::OutOfMemory),
        }
    }
    Ok(words)
}

fn main(rt: HostRuntime) -> ExitCode {
    let alloc = rt.alloc();
    let words = match words_of(&rt) {
        Ok(words) => words,
        Err(status) => return ExitCode::from(number_of(status)),
    };
    let mut files = DiskFiles::new(&rt);
    let mut out = StdSink::new(rt.stdout());
    let mut err = StdSink::new(rt.stderr());
    let status = run(alloc, words.as_slice(), &mut files, &mut out, &mut err);
    ExitCode::from(number_of(status))
}
