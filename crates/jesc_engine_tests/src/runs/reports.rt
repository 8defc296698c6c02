use crate::runs::{Contents, NOTHING, SUM, UP, ends_so};
use jesc_engine::Status;
use std::test::Fail;

const SPEC: &str = "class Spec {
  //@ ensures a + b > 0;
  static int f(int a, int b) {
    return 0;
  }
}
";

#[test]
fn a_file_has_its_report(rt: HostRuntime) -> Result<(), Fail> {
    let cases: [(&str, &str, Status, &str); 6] = [
        (
            "Up.java",
            UP,
            Status::Verified,
            "Up.Up/0 verified\nUp.up/1 verified\nmethods 2, verified 2, warned 0, skipped 0\n",
        ),
        (
            "E.java",
            "class E { }\n",
            Status::Verified,
            "E.E/0 verified\nmethods 1, verified 1, warned 0, skipped 0\n",
        ),
        (
            "A.java",
            "class A { } // \\\\u0041\n",
            Status::Verified,
            "A.A/0 verified\nmethods 1, verified 1, warned 0, skipped 0\n",
        ),
        (
            "Sum.java",
            SUM,
            Status::Warned,
            "Sum.Sum/0 verified\nSum.java:3:14: warning: Overflow in Sum.sum/2: open\nSum.sum/2 not verified\nmethods 2, verified 1, warned 1, skipped 0\n",
        ),
        (
            "Spec.java",
            SPEC,
            Status::Warned,
            "Spec.Spec/0 verified\nSpec.java:4:5: warning: Undefined Spec.java:2:15 in Spec.f/2: open\nSpec.java:4:5: warning: Postcondition Spec.java:2:15 in Spec.f/2: open\nSpec.f/2 not verified\nmethods 2, verified 1, warned 1, skipped 0\n",
        ),
        ("Empty.java", "", Status::Verified, NOTHING),
    ];
    for (name, content, status, out) in cases {
        assert!(rt;
            ends_so(
                rt.alloc(),
                &["--esc", name],
                &[(name, content.as_bytes())],
                (&[], &[], &[]),
                (status, out, "")
            )?
        );
    }
    Ok(())
}

#[test]
fn files_have_one_report(rt: HostRuntime) -> Result<(), Fail> {
    let files: Contents = &[
        ("Up.java", UP.as_bytes()),
        ("Sum.java", SUM.as_bytes()),
        ("Empty.java", b""),
        ("Two.java", b"class A { }\nclass B { }\n"),
    ];
    let cases: [(&[&str], Status, &str); 5] = [
        (
            &["--esc", "Up.java", "Sum.java"],
            Status::Warned,
            "Up.Up/0 verified\nUp.up/1 verified\nSum.Sum/0 verified\nSum.java:3:14: warning: Overflow in Sum.sum/2: open\nSum.sum/2 not verified\nmethods 4, verified 3, warned 1, skipped 0\n",
        ),
        (
            &["--esc", "Sum.java", "Up.java"],
            Status::Warned,
            "Sum.Sum/0 verified\nSum.java:3:14: warning: Overflow in Sum.sum/2: open\nSum.sum/2 not verified\nUp.Up/0 verified\nUp.up/1 verified\nmethods 4, verified 3, warned 1, skipped 0\n",
        ),
        (
            &["--esc", "Up.java", "Empty.java", "Two.java"],
            Status::Verified,
            "Up.Up/0 verified\nUp.up/1 verified\nA.A/0 verified\nB.B/0 verified\nmethods 4, verified 4, warned 0, skipped 0\n",
        ),
        (&["--esc", "Empty.java"], Status::Verified, NOTHING),
        (
            &["--esc", "Empty.java", "Empty.java"],
            Status::Verified,
            NOTHING,
        ),
    ];
    for (words, status, out) in cases {
        assert!(rt; ends_so(rt.alloc(), words, files, (&[], &[], &[]), (status, out, ""))?);
    }
    Ok(())
}
