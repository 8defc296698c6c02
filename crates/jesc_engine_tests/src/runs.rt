use jesc_engine::{Status, run};
use jesc_io::{MemFiles, MemSink};
use jesc_text::{List, OutOfMemory};
use std::alloc::Global;
use std::test::Fail;

mod faults;
mod refusals;
mod reports;

const USAGE: &str = "jesc: usage: --esc FILE... | --check FILE... | --demo N\n";

const UP: &str = "class Up {
  //@ requires x < 100;
  //@ ensures \\result > x;
  static int up(int x) {
    int y = x + 1;
    return y;
  }
}
";

const SUM: &str = "class Sum {
  static int sum(int a, int b) {
    return a + b;
  }
}
";

const NOTHING: &str = "methods 0, verified 0, warned 0, skipped 0\n";

fn pairs(alloc: Global, faults: &[(u32, u32)]) -> Result<List<(u32, u32)>, OutOfMemory> {
    let mut list = List::new(alloc);
    for fault in faults {
        list.push(*fault)?;
    }
    Ok(list)
}

fn words_of(alloc: Global, words: &[&str]) -> Result<Vec<String>, OutOfMemory> {
    let mut all = Vec::new(alloc);
    for word in words {
        match String::from_str(alloc, word) {
            Ok(word) => match all.push(word) {
                Ok(_) => {}
                Err(_) => return Err(OutOfMemory),
            },
            Err(_) => return Err(OutOfMemory),
        }
    }
    Ok(all)
}

/// Files by their names, with their contents.
type Contents<'a> = &'a [(&'a str, &'a [u8])];

/// The faults of the files, of `out` and of `err`.
type Faults<'a> = (&'a [(u32, u32)], &'a [(u32, u32)], &'a [(u32, u32)]);

/// The status, `out` and `err`.
type Wanted<'a> = (Status, &'a str, &'a str);

fn files_of(
    alloc: Global,
    contents: Contents,
    faults: &[(u32, u32)],
) -> Result<MemFiles, OutOfMemory> {
    let mut files = MemFiles::new(alloc, pairs(alloc, faults)?);
    for (name, content) in contents {
        files.add(name, content)?;
    }
    Ok(files)
}

/// Whether a call with these words over these files ends so.
fn ends_so(
    alloc: Global,
    words: &[&str],
    contents: Contents,
    faults: Faults,
    wanted: Wanted,
) -> Result<bool, OutOfMemory> {
    let words = words_of(alloc, words)?;
    let mut files = files_of(alloc, contents, faults.0)?;
    let mut out = MemSink::new(alloc, pairs(alloc, faults.1)?);
    let mut err = MemSink::new(alloc, pairs(alloc, faults.2)?);
    let status = run(alloc, words.as_slice(), &mut files, &mut out, &mut err);
    Ok(
        status == wanted.0
            && out.bytes() == wanted.1.as_bytes()
            && err.bytes() == wanted.2.as_bytes(),
    )
}

#[test]
fn other_words_are_no_command(rt: HostRuntime) -> Result<(), Fail> {
    let mut many = ["Up.java"; 66];
    many[0] = "--esc";
    let cases: [&[&str]; 9] = [
        &[],
        &["--esc"],
        &["Up.java"],
        &["--help"],
        &["--esc", "-x.java"],
        &["--esc", "--esc"],
        &["--esc", "Up.java", "-x.java"],
        &["Up.java", "--esc"],
        &many,
    ];
    for words in cases {
        assert!(rt;
            ends_so(
                rt.alloc(),
                words,
                &[("Up.java", UP.as_bytes())],
                (&[], &[], &[]),
                (Status::Usage, "", USAGE)
            )?
        );
    }
    Ok(())
}

#[test]
fn there_are_up_to_64_files(rt: HostRuntime) -> Result<(), Fail> {
    let mut words = ["Empty.java"; 65];
    words[0] = "--esc";
    assert!(rt;
        ends_so(
            rt.alloc(),
            &words,
            &[("Empty.java", b"")],
            (&[], &[], &[]),
            (Status::Verified, NOTHING, "")
        )?
    );
    Ok(())
}
