//! Files of certificates, cut and with damaged bytes.

use crate::certificates::file;
use crate::lines::bad_line;
use crate::trial::{Tally, given_problems, try_all};
use jesc_cert::{CertError, Certs, parse_cert, print_cert};
use jesc_text::{OutOfMemory, Text, put_number};
use std::alloc::Global;
use std::process::Abort;

/// The text of certificates.
fn print_all(into: &mut Text, certs: &Certs) -> Result<(), OutOfMemory> {
    into.append(b"jescert 1\nrounds ")?;
    put_number(into, certs.rounds as i128)?;
    into.append(b"\n")?;
    for block in certs.list.as_slice() {
        print_cert(into, block.0.as_slice(), block.1, &block.2)?;
    }
    into.append(b"end\n")
}

/// The certificates of the bytes, where the plain reading finds no line that is bad.
///
/// Asserts that they are printed as they were read, and that other bytes are bad at the line of the plain reading.
fn read(rt: &impl Abort, alloc: Global, bytes: &[u8]) -> Option<Certs> {
    let line = bad_line(alloc, bytes);
    match parse_cert(alloc, bytes) {
        Ok(certs) => {
            let mut text = Text::new(alloc);
            print_all(&mut text, &certs).expect(rt, "memory");
            assert_eq!(rt; line, 0);
            assert_eq!(rt; text.as_slice(), bytes);
            Some(certs)
        }
        Err(error) => {
            assert_eq!(rt; error, CertError::Bad { line });
            None
        }
    }
}

/// The bytes, ended by a line feed, as far as memory goes.
fn ended(alloc: Global, bytes: &[u8]) -> Text {
    let mut text = Text::new(alloc);
    let _done = text.append(bytes).is_ok() && text.append(b"\n").is_ok();
    text
}

#[test]
fn every_cut(rt: HostRuntime) {
    let alloc = rt.alloc();
    let text = file(alloc);
    let bytes = text.as_slice();
    assert_eq!(rt; bytes.len(), 1604);
    for cut in 0..=1604 {
        let certs = read(&rt, alloc, &bytes[..cut]);
        assert_eq!(rt; certs.is_some(), cut == 1604, "{cut}");
        let certs = read(&rt, alloc, ended(alloc, &bytes[..cut]).as_slice());
        assert_eq!(rt; certs.is_some(), cut == 1603, "{cut}");
    }
}

#[test]
fn no_certificates(rt: HostRuntime) {
    let certs = read(&rt, rt.alloc(), b"jescert 1\nrounds 2\nend\n").expect(&rt, "none");
    assert_eq!(rt; certs.rounds, 2);
    assert_eq!(rt; certs.list.len(), 0);
}

/// Bytes that stand in files of certificates, or near to one, the more frequent ones twice.
const BYTES: [u8; 28] = *b"0123456789--  \n\ntgrqscmend\0\x80";

/// What is done to a byte.
#[derive(Drop, Clone, Copy)]
enum Change {
    Dropped,
    Replaced(u8),
    /// Another byte stands before it.
    Preceded(u8),
}

/// Puts a byte with its change, as far as memory goes.
fn put_changed(bytes: &mut Vec<u8>, byte: u8, change: Change) {
    let _done = match change {
        Change::Dropped => true,
        Change::Replaced(other) => bytes.push(other).is_ok(),
        Change::Preceded(other) => bytes.push(other).is_ok() && bytes.push(byte).is_ok(),
    };
}

/// The bytes with that of a place changed.
fn changed(alloc: Global, bytes: &[u8], at: usize, change: Change) -> Vec<u8> {
    let mut all = Vec::new(alloc);
    for place in 0..bytes.len() {
        let byte = bytes[place];
        let here = if place == at {
            change
        } else {
            Change::Replaced(byte)
        };
        put_changed(&mut all, byte, here);
    }
    all
}

#[test]
fn each_byte_of_a_small_file_is_changed(rt: HostRuntime) {
    let alloc = rt.alloc();
    let bytes = b"jescert 1\nrounds 2\ncond A 4294967295\nr 1 1 1\nend\n";
    let (mut tried, mut good) = (0u32, 0u32);
    for at in 0..bytes.len() {
        for byte in BYTES {
            for change in [
                Change::Dropped,
                Change::Replaced(byte),
                Change::Preceded(byte),
            ] {
                let certs = read(&rt, alloc, &changed(alloc, bytes, at, change));
                tried = tried.saturating_add(1);
                good = good.saturating_add(certs.is_some() as u32);
            }
        }
    }
    assert_eq!(rt; tried, 4116);
    assert!(rt; good > 200 && good < 2000, "{good}");
}

/// Numbers that look random, the same ones each time.
#[derive(Drop)]
struct Numbers {
    state: u64,
}

impl Numbers {
    /// A number below this one, or 0.
    fn below(&mut self, most: usize) -> usize {
        self.state = self
            .state
            .wrapping_mul(6_364_136_223_846_793_005)
            .wrapping_add(1_442_695_040_888_963_407);
        ((self.state >> 33) as usize).checked_rem(most).unwrap_or(0)
    }

    fn change(&mut self) -> Change {
        let place = self.below(BYTES.len());
        let byte = BYTES.get(place).copied().unwrap_or(0);
        match self.below(3) {
            0 => Change::Dropped,
            1 => Change::Replaced(byte),
            _ => Change::Preceded(byte),
        }
    }
}

#[test]
fn bytes_of_the_file_are_changed(rt: HostRuntime) {
    let alloc = rt.alloc();
    let problems = given_problems(alloc);
    let text = file(alloc);
    let mut numbers = Numbers { state: 20 };
    let mut good = 0u32;
    let mut tally = Tally::new();
    for _turn in 0..2000 {
        let at = numbers.below(text.len());
        let bytes = changed(alloc, text.as_slice(), at, numbers.change());
        if let Some(certs) = read(&rt, alloc, &bytes) {
            good = good.saturating_add(1);
            try_all(&rt, alloc, problems.as_slice(), &certs, &mut tally);
        }
    }
    assert!(rt; good > 200 && good < 1800, "{good}");
    let refused = tally.tried.saturating_sub(tally.accepted);
    assert!(rt; tally.accepted > 3000 && refused > 100, "{refused}");
}
