//! Reads files and tells what their headings give: to time and to test the call that the checker will make.
//!
//! The words after the program's name are names of files. It prints how many classes, fields and methods there are, the
//! predefined ones among them, or the rule that is broken, and on standard error the microseconds that the headings took. `parsed` makes trees of the
//! files.
#![tactic(auto)]

#[cfg(test)]
mod member_rows;
mod parsed;
#[cfg(test)]
mod shown;
#[cfg(test)]
mod tests;

use crate::parsed::{ParseStop, Parsed};
use jesc_classes::RuleError;
use jesc_io::{DiskFiles, read_whole};
use jesc_names::headings;
use std::env;
use std::process::ExitCode;
use std::time::Instant;

/// The files of these names, parsed.
fn read_all(rt: &HostRuntime) -> Result<Parsed, ParseStop> {
    let alloc = rt.alloc();
    let mut files = DiskFiles::new(rt);
    let mut parsed = Parsed::new(alloc);
    let Ok(args) = env::args(rt) else {
        return Err(ParseStop::Unread);
    };
    for name in args.skip(1) {
        match read_whole(alloc, &mut files, name.as_str()) {
            Ok(bytes) => parsed.add(alloc, bytes.as_slice())?,
            Err(_) => return Err(ParseStop::Unread),
        }
    }
    Ok(parsed)
}

/// Prints what the headings give, and on standard error how long they took.
fn print_answer(rt: &HostRuntime, parsed: &Parsed) -> std::io::Result<()> {
    let start = Instant::now(rt)?;
    let answer = headings(rt.alloc(), parsed.files());
    let micros = start.elapsed(rt)?.as_micros();
    eprintln!(rt; "in {micros} us")?;
    match &answer {
        Ok(program) => println!(rt;
            "{} classes, {} fields, {} methods",
            program.classes().len(),
            program.fields().len(),
            program.methods().len()
        ),
        Err(
            RuleError::Refused {
                number,
                place,
                word: _,
            },
        ) => { println!(rt; "refused by {number:?} at {}:{}", place.line, place.col) }
        Err(_) => println!(rt; "out of memory"),
    }
}

fn main(rt: HostRuntime) -> ExitCode {
    let Ok(parsed) = read_all(&rt) else {
        return ExitCode::from(2);
    };
    match print_answer(&rt, &parsed) {
        Ok(_) => ExitCode::from(0),
        Err(_) => ExitCode::from(5),
    }
}
