use crate::runs::{Contents, Faults, SUM, UP, Wanted, ends_so, words_of};
use jesc_engine::{Status, run};
use jesc_io::{DiskFiles, MemSink};
use jesc_text::List;
use std::test::Fail;

#[test]
fn a_fault_ends_the_call(rt: HostRuntime) -> Result<(), Fail> {
    let one: &[&str] = &["--esc", "Up.java"];
    let two: &[&str] = &["--esc", "Up.java", "Sum.java"];
    let files: Contents = &[("Up.java", UP.as_bytes()), ("Sum.java", SUM.as_bytes())];
    let cases: [(&[&str], Faults, Wanted); 6] = [
        (
            one,
            (&[(0, 0)], &[], &[]),
            (Status::ReadFault, "", "Up.java: cannot read\n"),
        ),
        (
            one,
            (&[(1, 0)], &[], &[]),
            (Status::ReadFault, "", "Up.java: cannot read\n"),
        ),
        (
            two,
            (&[(3, 0)], &[], &[]),
            (Status::ReadFault, "", "Sum.java: cannot read\n"),
        ),
        (
            two,
            (&[(4, 0)], &[], &[]),
            (Status::ReadFault, "", "Sum.java: cannot read\n"),
        ),
        (
            one,
            (&[(0, 0)], &[], &[(0, 2)]),
            (Status::WriteFault, "", "Up"),
        ),
        (&[], (&[], &[], &[(0, 4)]), (Status::WriteFault, "", "jesc")),
    ];
    for (words, faults, wanted) in cases {
        assert!(rt; ends_so(rt.alloc(), words, files, faults, wanted)?);
    }
    Ok(())
}

#[test]
fn a_failed_output_ends_a_report(rt: HostRuntime) -> Result<(), Fail> {
    let cases: [(&[(u32, u32)], &str); 4] = [
        (&[(0, 0)], ""),
        (&[(1, 3)], "Up.Up/0 verified\nUp."),
        (&[(2, 4)], "Up.Up/0 verified\nUp.up/1 verified\nSum."),
        (
            &[(4, 0)],
            "Up.Up/0 verified\nUp.up/1 verified\nSum.Sum/0 verified\nSum.java:3:14: warning: Overflow in Sum.sum/2: open\nSum.sum/2 not verified\n",
        ),
    ];
    for (faults, out) in cases {
        assert!(rt;
            ends_so(
                rt.alloc(),
                &["--esc", "Up.java", "Sum.java"],
                &[("Up.java", UP.as_bytes()), ("Sum.java", SUM.as_bytes())],
                (&[], faults, &[]),
                (Status::WriteFault, out, "")
            )?
        );
    }
    Ok(())
}

#[test]
fn a_missing_file_is_a_read_fault(rt: HostRuntime) -> Result<(), Fail> {
    let alloc = rt.alloc();
    let words = words_of(alloc, &["--esc", "Missing.java"])?;
    let mut files = DiskFiles::new(&rt);
    let mut out = MemSink::new(alloc, List::new(alloc));
    let mut err = MemSink::new(alloc, List::new(alloc));
    let status = run(alloc, words.as_slice(), &mut files, &mut out, &mut err);
    assert_eq!(rt; status, Status::ReadFault);
    assert!(rt; out.bytes().is_empty());
    assert!(rt; err.bytes() == "Missing.java: cannot read\n".as_bytes());
    Ok(())
}
