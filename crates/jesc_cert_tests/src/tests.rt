//! Files of certificates: which line is bad, and that the print of what was read gives the bytes again.

use jesc_cert::{CertError, Certs, parse_cert, print_cert};
use jesc_text::{OutOfMemory, Text, put_number};
use std::alloc::Global;
use std::test::Fail;

const GOOD: &[u8] =
    b"jescert 1\nrounds 2\ncond A.a/0 0\nt 5 1 -2 3\ng 1 -2\nr 2 3 4 5\nq 0 0 0 0 0 0 1 7 -8\ncond B 4294967295\ns 0\nc 1\nm 85070591730234615865843651857942052864\nend\n";

/// The line at which the bytes are bad, or 0 where they are read.
fn bad_line(alloc: Global, bytes: &[u8]) -> Result<u32, OutOfMemory> {
    match parse_cert(alloc, bytes) {
        Ok(_) => Ok(0),
        Err(CertError::Bad { line }) => Ok(line),
        Err(CertError::OutOfMemory) => Err(OutOfMemory),
    }
}

fn print_all(into: &mut Text, certs: &Certs) -> Result<(), OutOfMemory> {
    into.append(b"jescert 1\nrounds ")?;
    put_number(into, certs.rounds as i128)?;
    into.append(b"\n")?;
    for block in certs.list.as_slice() {
        print_cert(into, block.0.as_slice(), block.1, &block.2)?;
    }
    into.append(b"end\n")
}

#[test]
fn files_are_bad_at_their_lines(rt: HostRuntime) -> Result<(), Fail> {
    let cases: [(&[u8], u32); 18] = [
        (GOOD, 0),
        (b"jescert 1\nrounds 2\nend\n", 0),
        (b"", 1),
        (b"jescert 2\n", 1),
        (b"jescert 1\nrounds 6\nend\n", 2),
        (b"jescert 1\nrounds 02\nend\n", 2),
        (b"jescert 1\nrounds 2\n", 3),
        (b"jescert 1\nrounds 2\nend", 3),
        (b"jescert 1\nrounds 2\ncond A.a/0 x\nend\n", 3),
        (b"jescert 1\nrounds 2\ncond A.a/0 4294967296\nend\n", 3),
        (b"jescert 1\nrounds 2\ncond  0\nend\n", 3),
        (b"jescert 1\nrounds 2\ns 1\nend\n", 3),
        (b"jescert 1\nrounds 2\nend\n\n", 4),
        (b"jescert 1\nrounds 2\ncond A 0\ns 01\nend\n", 4),
        (b"jescert 1\nrounds 2\ncond A 0\ns 1 2\nend\n", 4),
        (b"jescert 1\nrounds 2\ncond A 0\nt 1 1 2\nend\n", 4),
        (b"jescert 1\nrounds 2\ncond A 0\ns 1 \nend\n", 4),
        (b"jescert 1\nrounds 2\ncond A 0\ns -0\nend\n", 4),
    ];
    for (bytes, line) in cases {
        assert_eq!(rt; bad_line(rt.alloc(), bytes)?, line);
    }
    Ok(())
}

#[test]
fn every_cut_is_bad_where_it_is_cut(rt: HostRuntime) -> Result<(), Fail> {
    let mut line = 1u32;
    for cut in 0..GOOD.len() {
        assert_eq!(rt; bad_line(rt.alloc(), &GOOD[..cut])?, line);
        if GOOD[cut] == b'\n' {
            line = line.saturating_add(1);
        }
    }
    Ok(())
}

#[test]
fn what_was_read_is_printed_again(rt: HostRuntime) -> Result<(), Fail> {
    let certs = match parse_cert(rt.alloc(), GOOD) {
        Ok(certs) => certs,
        Err(_) => {
            assert_eq!(rt; bad_line(rt.alloc(), GOOD)?, 0);
            return Err(OutOfMemory)?;
        }
    };
    assert_eq!(rt; certs.rounds, 2);
    assert_eq!(rt; certs.list.len(), 2);
    let mut text = Text::new(rt.alloc());
    print_all(&mut text, &certs)?;
    assert_eq!(rt; text.as_slice(), GOOD);
    Ok(())
}
