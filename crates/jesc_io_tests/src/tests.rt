use jesc_io::{
    DiskFiles, Files, IoError, MemFiles, MemSink, ReadError, Sink, StdSink, SteadyFiles,
    SteadySink, read_whole,
};
use jesc_text::{List, OutOfMemory};
use std::alloc::Global;
use std::fs;
use std::test::Fail;

fn pairs(alloc: Global, faults: &[(u32, u32)]) -> Result<List<(u32, u32)>, OutOfMemory> {
    let mut list = List::new(alloc);
    for fault in faults {
        list.push(*fault)?;
    }
    Ok(list)
}

/// How many of four calls went well: `b` is created, gets `hello`, is opened, and is read.
fn calls_done(files: &mut MemFiles) -> usize {
    if files.create("b").is_err() {
        return 0;
    }
    if files.put("hello".as_bytes()).is_err() {
        return 1;
    }
    if files.open("b").is_err() {
        return 2;
    }
    let mut room = [0u8; 8];
    match files.read(&mut room) {
        Ok(_) => 4,
        Err(_) => 3,
    }
}

fn files_meet(
    alloc: Global,
    faults: &[(u32, u32)],
    done: usize,
    content: &str,
) -> Result<bool, OutOfMemory> {
    let mut files = MemFiles::new(alloc, pairs(alloc, faults)?);
    let calls = calls_done(&mut files);
    match files.content("b") {
        Some(bytes) => Ok(calls == done && bytes == content.as_bytes()),
        None => Ok(calls == done && done == 0),
    }
}

#[test]
fn a_listed_call_of_files_fails(rt: HostRuntime) -> Result<(), Fail> {
    let cases: [(&[(u32, u32)], usize, &str); 8] = [
        (&[], 4, "hello"),
        (&[(0, 0)], 0, ""),
        (&[(1, 3)], 1, "hel"),
        (&[(1, 9)], 1, "hello"),
        (&[(1, 2), (1, 4)], 1, "he"),
        (&[(2, 7)], 2, "hello"),
        (&[(3, 0)], 3, "hello"),
        (&[(4, 0)], 4, "hello"),
    ];
    for (faults, done, content) in cases {
        assert!(rt; files_meet(rt.alloc(), faults, done, content)?);
    }
    Ok(())
}

fn sink_meets(
    alloc: Global,
    faults: &[(u32, u32)],
    done: (bool, bool),
    taken: &str,
) -> Result<bool, OutOfMemory> {
    let mut sink = MemSink::new(alloc, pairs(alloc, faults)?);
    let first = sink.put("abcd".as_bytes()).is_ok();
    let second = sink.put("efgh".as_bytes()).is_ok();
    Ok((first, second) == done && sink.bytes() == taken.as_bytes())
}

#[test]
fn a_listed_call_of_a_sink_fails(rt: HostRuntime) -> Result<(), Fail> {
    let cases: [(&[(u32, u32)], (bool, bool), &str); 5] = [
        (&[], (true, true), "abcdefgh"),
        (&[(1, 3)], (true, false), "abcdefg"),
        (&[(0, 9)], (false, true), "abcdefgh"),
        (&[(1, 0), (1, 4)], (true, false), "abcd"),
        (&[(2, 1)], (true, true), "abcdefgh"),
    ];
    for (faults, done, taken) in cases {
        assert!(rt; sink_meets(rt.alloc(), faults, done, taken)?);
    }
    Ok(())
}

/// The answer of a whole read where `a` holds `xyz`: its length, or why there is none.
fn length_read(
    alloc: Global,
    faults: &[(u32, u32)],
    name: &str,
) -> Result<Result<usize, ReadError>, OutOfMemory> {
    let mut files = MemFiles::new(alloc, pairs(alloc, faults)?);
    files.add("a", "xyz".as_bytes())?;
    match read_whole(alloc, &mut files, name) {
        Ok(bytes) => Ok(Ok(bytes.len())),
        Err(error) => Ok(Err(error)),
    }
}

#[test]
fn read_whole_stops_at_a_fault(rt: HostRuntime) -> Result<(), Fail> {
    let cases: [(&[(u32, u32)], &str, Result<usize, ReadError>); 5] = [
        (&[], "a", Ok(3)),
        (&[(3, 0)], "a", Ok(3)),
        (&[(0, 0)], "a", Err(ReadError::Failed)),
        (&[(1, 0)], "a", Err(ReadError::Failed)),
        (&[], "absent", Err(ReadError::Failed)),
    ];
    for (faults, name, answer) in cases {
        assert!(rt; length_read(rt.alloc(), faults, name)? == answer);
    }
    Ok(())
}

#[test]
fn read_whole_takes_a_mebibyte(rt: HostRuntime) -> Result<(), Fail> {
    let mut bytes = List::new(rt.alloc());
    for _ in 0..4096 {
        bytes.append(&[b' '; 256])?;
    }
    let mut files = SteadyFiles::new(rt.alloc());
    files.add("full", bytes.as_slice())?;
    bytes.push(b' ')?;
    files.add("over", bytes.as_slice())?;
    assert_eq!(rt; read_whole(rt.alloc(), &mut files, "full")?.len(), 1048576);
    assert!(rt;
        matches!(
            read_whole(rt.alloc(), &mut files, "over"),
            Err(ReadError::TooLarge)
        )
    );
    assert_eq!(rt; read_whole(rt.alloc(), &mut files, "absent")?.len(), 0);
    Ok(())
}

#[test]
fn steady_objects_keep_what_they_get(rt: HostRuntime) -> Result<(), Fail> {
    let mut files = SteadyFiles::new(rt.alloc());
    files.add("a", "old".as_bytes())?;
    files.create("a")?;
    files.put("new".as_bytes())?;
    files.put("er".as_bytes())?;
    assert!(rt; files.content("a") == Some("newer".as_bytes()));
    assert!(rt; files.content("b").is_none());
    let mut sink = SteadySink::new(rt.alloc());
    sink.put("ab".as_bytes())?;
    sink.put("c".as_bytes())?;
    assert!(rt; sink.bytes() == "abc".as_bytes());
    Ok(())
}

#[test]
fn the_disk_gives_back_what_it_got(rt: HostRuntime) -> Result<(), Fail> {
    let mut files = DiskFiles::new(&rt);
    assert!(rt; files.put("lost".as_bytes()) == Err(IoError::Failed));
    files.create("made.txt")?;
    files.put("one ".as_bytes())?;
    files.put("two".as_bytes())?;
    let bytes = read_whole(rt.alloc(), &mut files, "made.txt")?;
    assert!(rt; bytes.as_slice() == "one two".as_bytes());
    assert!(rt;
        matches!(
            read_whole(rt.alloc(), &mut files, "absent.txt"),
            Err(ReadError::Failed)
        )
    );
    assert!(rt; files.open("absent.txt") == Err(IoError::Failed));
    fs::remove_file(&rt, "made.txt")?;
    let mut out = StdSink::new(rt.stderr());
    assert!(rt; out.put("".as_bytes()).is_ok());
    Ok(())
}
