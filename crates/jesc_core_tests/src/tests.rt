use crate::short::core;
use jesc_core::{field_count, paths};
use std::test::Fail;

#[test]
fn paths_are_counted(rt: HostRuntime) -> Result<(), Fail> {
    let rows = [
        ("", 1),
        ("a", 1),
        ("c", 1),
        ("l", 1),
        ("k", 1),
        ("w", 1),
        ("e", 1),
        ("n", 1),
        ("b", 1),
        ("h", 1),
        ("!", 1),
        ("(0)", 1),
        ("(0c)c", 1),
        ("[c|a|h]", 3),
        ("[!|c][|]", 3),
        ("(([1|0|])[|])[|]", 10),
        ("(([0|[1|]|!])[|])", 6),
        ("[|][|][|][|][|][|][|][|][|][|]c", 1024),
        ("[|][|][|][|][|][|][|][|][|][|][|]", 2048),
    ];
    for (text, number) in rows.iter() {
        let found = (*text, paths(&core(rt.alloc(), text)?));
        assert_eq!(rt; found, (*text, *number));
    }
    Ok(())
}

#[test]
fn number_of_paths_stops_at_its_limit(rt: HostRuntime) -> Result<(), Fail> {
    let mut text = String::new(rt.alloc());
    for _ in 0..29 {
        text.push_str("[|]")?;
    }
    assert_eq!(rt; paths(&core(rt.alloc(), &text)?), 536_870_912);
    text.push_str("[|]")?;
    assert_eq!(rt; paths(&core(rt.alloc(), &text)?), 1_000_000_000);
    Ok(())
}

#[test]
fn fields_are_counted(rt: HostRuntime) -> Result<(), Fail> {
    let rows = [
        ("", 0),
        ("knbe!", 0),
        ("w", 4),
        ("h", 7),
        ("l", 9),
        ("a", 21),
        ("wh", 7),
        ("(k[w|l])", 9),
    ];
    for (text, number) in rows.iter() {
        let core = core(rt.alloc(), text)?;
        assert_eq!(rt; (*text, field_count(&core)), (*text, *number));
        let copy = core.copy(rt.alloc())?;
        assert_eq!(rt;
            (*text, field_count(&copy), paths(&copy)),
            (*text, *number, paths(&core))
        );
    }
    Ok(())
}
