//! Makes a certificate of many lines and tells what the checker answers: to time and to test that call.
//!
//! The words after the program's name are a shape, `tree`, `chain`, `congruence`, `further` or `steps`, a number of leaves and
//! one of atoms. It prints the answer with the counts, and on standard error the microseconds that the checker took.
//! `tree` makes the certificates that are one large tree of splits, `lemmas` those of many lemmas, and `parts` what both are
//! made of.
#![tactic(auto)]

mod lemmas;
mod parts;
mod tree;

use crate::lemmas::{congruence, further, steps};
use crate::parts::Made;
use crate::tree::{chain, tree};
use jesc_accept::{Accept, accept};
use jesc_text::OutOfMemory;
use std::alloc::Global;
use std::env;
use std::process::ExitCode;
use std::time::Instant;

/// The clauses and the certificate of the shape, if it is one.
fn made(alloc: Global, shape: &str, leaves: u32, atoms: u32) -> Result<Option<Made>, OutOfMemory> {
    match shape {
        "tree" => Ok(Some(tree(alloc, leaves, atoms)?)),
        "chain" => Ok(Some(chain(alloc, leaves, atoms)?)),
        "congruence" => Ok(Some(congruence(alloc, leaves, atoms)?)),
        "further" => Ok(Some(further(alloc, leaves, atoms)?)),
        "steps" => Ok(Some(steps(alloc, leaves, atoms)?)),
        _ => Ok(None),
    }
}

/// The same as the words of the command tell.
fn made_by_words(rt: &HostRuntime) -> Result<Option<Made>, OutOfMemory> {
    let Ok(args) = env::args(rt) else {
        return Err(OutOfMemory);
    };
    let mut words = args.skip(1);
    let (Some(shape), Some(leaves), Some(atoms)) = (words.next(), words.next(), words.next()) else {
        return Ok(None);
    };
    match (
        leaves.as_str().parse::<u32>(),
        atoms.as_str().parse::<u32>(),
    ) {
        (Ok(leaves), Ok(atoms)) => made(rt.alloc(), shape.as_str(), leaves, atoms),
        _ => Ok(None),
    }
}

/// Prints what the checker answers, and on standard error how long it took.
fn print_answer(rt: &HostRuntime, made: &Made) -> std::io::Result<()> {
    let start = Instant::now(rt)?;
    let answer = accept(rt.alloc(), &made.clauses, &made.cert);
    let micros = start.elapsed(rt)?.as_micros();
    eprintln!(rt; "in {micros} us")?;
    let atoms = made.clauses.atoms.len();
    let clauses = made.clauses.clauses.len();
    let lines = made.cert.lines.len();
    match answer {
        Ok(Accept::Yes) => println!(rt; "yes: {atoms} atoms, {clauses} clauses, {lines} lines"),
        Ok(Accept::No { step }) => println!(rt; "no: line {step} of {lines}"),
        Err(_) => println!(rt; "out of memory"),
    }
}

fn main(rt: HostRuntime) -> ExitCode {
    let Ok(Some(made)) = made_by_words(&rt) else {
        return ExitCode::from(2);
    };
    match print_answer(&rt, &made) {
        Ok(_) => ExitCode::from(0),
        Err(_) => ExitCode::from(5),
    }
}
