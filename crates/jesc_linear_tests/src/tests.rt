//! The worked rows, and what no contract says: which outcome comes.
ghost use Rattle.std.specs.Prelude.{◌≡◌, ◌↔◌, IsTrue, All, take};
ghost use Rattle.jesc_linear.specs.Forms.{IsForm};

use jesc_linear::{LinStep, Outcome, Row, check_steps, decide, is_form};
use jesc_text::{List, OutOfMemory};
use std::alloc::Global;
use std::test::Fail;

type Given = (&'static [(i64, u32)], i128);

#[derive(Clone, Copy, Debug)]
enum Wanted {
    Refuted,
    Point(&'static [i128]),
    Number(i128),
    Gap(u32, u32),
    Forms(u32),
    Pairs(u32),
}

fn make_row(alloc: Global, parts: &[(i64, u32)], bound: i128) -> Result<Row, OutOfMemory> {
    let mut form = List::new(alloc);
    for part in parts {
        form.push(*part)?;
    }
    Ok(Row { form, bound })
}

fn make_rows(alloc: Global, given: &[Given]) -> Result<List<Row>, OutOfMemory> {
    let mut rows = List::new(alloc);
    for one in given {
        rows.push(make_row(alloc, one.0, one.1)?)?;
    }
    Ok(rows)
}

fn has_form(row: &Row) -> bool
    ensures { IsTrue result ↔ IsForm row.now.form }
{
    is_form(row.form.as_slice())
}

fn are_forms(rows: &[Row]) -> bool
    ensures { IsTrue result → All (λ row. IsForm row.form) rows.now }
{
    for row in rows {
        if !has_form(row) {
            return false;
        }
    }
    true
}

/// What is decided of rows that are in order, and `WideForms(0)` of others.
fn decided(alloc: Global, rows: &[Row]) -> Result<Outcome, OutOfMemory> {
    if rows.len() >= 1 << 31 || !are_forms(rows) {
        return Ok(Outcome::WideForms(0));
    }
    decide(alloc, rows)
}

fn same_numbers(first: &[i128], second: &[i128]) -> bool {
    first.len() == second.len() && first.starts_with(second)
}

fn same_forms(first: &[(i64, u32)], second: &[(i64, u32)]) -> bool {
    first.len() == second.len() && first.starts_with(second)
}

fn is_row(rows: &[Row], at: u32, row: &Row) -> bool {
    match rows.get(at as usize) {
        Some(given) => given.bound == row.bound
            && same_forms(given.form.as_slice(), row.form.as_slice()),
        None => false,
    }
}

fn is_wanted(rows: &[Row], outcome: &Outcome, wanted: Wanted) -> bool {
    match (outcome, wanted) {
        (Outcome::Refuted(steps), Wanted::Refuted) => check_steps(rows, steps.as_slice()),
        (Outcome::Point(point), Wanted::Point(values)) => same_numbers(point.as_slice(), values),
        (Outcome::WideNumber(number), Wanted::Number(wide)) => *number == wide,
        (Outcome::WideForms(count), Wanted::Forms(wide)) => *count == wide,
        (Outcome::WidePairs(count), Wanted::Pairs(wide)) => *count == wide,
        (Outcome::Gap(i, first, j, second), Wanted::Gap(lesser, greater)) => {
            *i == lesser && *j == greater && is_row(rows, *i, first) && is_row(rows, *j, second)
        }
        _ => false,
    }
}

/// Rows, and what is decided of them.
const CASES: [(&str, &[Given], Wanted); 24] = [
    (
        "opposite",
        &[(&[(-1, 0)], -1), (&[(1, 0)], -1)],
        Wanted::Refuted,
    ),
    (
        "half open",
        &[(&[(2, 0)], 1), (&[(-2, 0)], 1)],
        Wanted::Point(&[0]),
    ),
    (
        "a gap",
        &[
            (&[(3, 0), (5, 1)], 7),
            (&[(-3, 0), (-5, 1)], -7),
            (&[(-1, 0)], 0),
            (&[(-1, 1)], 0),
        ],
        Wanted::Gap(0, 1),
    ),
    (
        "lesser bound",
        &[(&[(1, 0)], 5), (&[(1, 0)], 3), (&[(-1, 0)], -4)],
        Wanted::Refuted,
    ),
    (
        "lesser bound first",
        &[(&[(1, 0)], 3), (&[(1, 0)], 5), (&[(-1, 0)], -4)],
        Wanted::Refuted,
    ),
    (
        "lesser bounds meet",
        &[(&[(1, 0)], 5), (&[(1, 0)], 4), (&[(-1, 0)], -4)],
        Wanted::Point(&[4]),
    ),
    (
        "odd sum",
        &[(&[(2, 0), (2, 1)], 7), (&[(-2, 0), (-2, 1)], -7)],
        Wanted::Refuted,
    ),
    (
        "three equal, sum 6",
        &[
            (&[(1, 0), (1, 1), (1, 2)], 6),
            (&[(-1, 0), (-1, 1), (-1, 2)], -6),
            (&[(1, 0), (-1, 1)], 0),
            (&[(-1, 0), (1, 1)], 0),
            (&[(1, 1), (-1, 2)], 0),
            (&[(-1, 1), (1, 2)], 0),
        ],
        Wanted::Point(&[2, 2, 2]),
    ),
    (
        "three equal, sum 7",
        &[
            (&[(1, 0), (1, 1), (1, 2)], 7),
            (&[(-1, 0), (-1, 1), (-1, 2)], -7),
            (&[(1, 0), (-1, 1)], 0),
            (&[(-1, 0), (1, 1)], 0),
            (&[(1, 1), (-1, 2)], 0),
            (&[(-1, 1), (1, 2)], 0),
        ],
        Wanted::Refuted,
    ),
    (
        "coefficient in range",
        &[(&[(2_147_483_648, 0)], 0)],
        Wanted::Point(&[0]),
    ),
    (
        "wide coefficient",
        &[(&[(1, 0), (-2_147_483_649, 1)], 0)],
        Wanted::Number(-2_147_483_649),
    ),
    (
        "bound in range",
        &[(&[(-1, 0)], -19_807_040_628_566_084_398_385_987_584)],
        Wanted::Point(&[19_807_040_628_566_084_398_385_987_584]),
    ),
    (
        "wide bound before division",
        &[
            (&[(1, 0)], 0),
            (&[(2, 1)], 19_807_040_628_566_084_398_385_987_585),
        ],
        Wanted::Number(19_807_040_628_566_084_398_385_987_585),
    ),
    (
        "wide coefficient of a sum",
        &[
            (&[(5, 0), (-2_147_483_648, 1), (3, 2)], 2),
            (&[(-2_147_483_647, 0), (5, 1), (-2_147_483_647, 2)], -2),
        ],
        Wanted::Number(-4_611_686_016_279_904_231),
    ),
    (
        "wide bound of a sum",
        &[
            (&[(1, 0)], 19_807_040_628_566_084_398_385_987_583),
            (&[(-1, 0)], 3),
        ],
        Wanted::Number(19_807_040_628_566_084_398_385_987_586),
    ),
    (
        "wide partial sum",
        &[
            (&[(1, 0), (-2_147_483_648, 1), (-2_147_483_648, 2)], 0),
            (&[(-1, 1)], -19_807_040_628_566_084_398_385_987_584),
            (&[(-1, 2)], -19_807_040_628_566_084_398_385_987_584),
        ],
        Wanted::Number(-85_070_591_730_234_615_865_843_651_857_942_052_864),
    ),
    (
        "in range only after division",
        &[
            (
                &[
                    (2_147_483_648, 0),
                    (2_147_483_648, 1),
                    (2_147_483_648, 2),
                    (2_147_483_648, 3),
                    (-2_147_483_648, 4),
                    (-2_147_483_648, 5),
                    (-2_147_483_648, 6),
                    (-2_147_483_648, 7),
                ],
                0,
            ),
            (&[(-1, 0)], -19_807_040_628_566_084_398_385_987_584),
            (&[(-1, 1)], -19_807_040_628_566_084_398_385_987_584),
            (&[(-1, 2)], -19_807_040_628_566_084_398_385_987_584),
            (&[(-1, 3)], -19_807_040_628_566_084_398_385_987_584),
            (&[(-1, 4)], -19_807_040_628_566_084_398_385_987_584),
            (&[(-1, 5)], -19_807_040_628_566_084_398_385_987_584),
            (&[(-1, 6)], -19_807_040_628_566_084_398_385_987_584),
            (&[(-1, 7)], -19_807_040_628_566_084_398_385_987_584),
        ],
        Wanted::Point(&[
            19_807_040_628_566_084_398_385_987_584,
            19_807_040_628_566_084_398_385_987_584,
            19_807_040_628_566_084_398_385_987_584,
            19_807_040_628_566_084_398_385_987_584,
            19_807_040_628_566_084_398_385_987_584,
            19_807_040_628_566_084_398_385_987_584,
            19_807_040_628_566_084_398_385_987_584,
            19_807_040_628_566_084_398_385_987_584,
        ]),
    ),
    (
        "unbounded",
        &[(&[(1, 0), (-1, 2)], -3)],
        Wanted::Point(&[-3, 0, 0]),
    ),
    (
        "least value",
        &[(&[(1, 1)], 9), (&[(-1, 1)], -2)],
        Wanted::Point(&[0, 2]),
    ),
    ("greatest value", &[(&[(1, 0)], -4)], Wanted::Point(&[-4])),
    (
        "empty form, negative",
        &[(&[(1, 0)], 0), (&[], -1)],
        Wanted::Refuted,
    ),
    ("empty form, not negative", &[(&[], 0)], Wanted::Point(&[])),
    ("no rows", &[], Wanted::Point(&[])),
    (
        "divided, then opposite",
        &[(&[(3, 0), (6, 1)], 5), (&[(-2, 0), (-4, 1)], -3)],
        Wanted::Refuted,
    ),
];

#[test]
fn each_outcome_comes(rt: HostRuntime) -> Result<(), Fail> {
    let alloc = rt.alloc();
    for (name, given, wanted) in CASES {
        let rows = make_rows(alloc, given)?;
        let outcome = decided(alloc, rows.as_slice())?;
        assert!(rt;
            is_wanted(rows.as_slice(), &outcome, wanted),
            "{name}: {outcome:?}"
        );
    }
    Ok(())
}

/// The numbers a, i, b, j and d of a step, its form's one part, if it has one, and its bound.
type Step = (i128, u32, i128, u32, i128, Option<(i64, u32)>, i128);

fn make_step(alloc: Global, given: Step) -> Result<LinStep, OutOfMemory> {
    let (a, i, b, j, d, part, bound) = given;
    let mut form = List::new(alloc);
    if let Some(part) = part {
        form.push(part)?;
    }
    let row = Row { form, bound };
    Ok(LinStep { a, i, b, j, d, row })
}

fn make_steps(alloc: Global, given: &[Step]) -> Result<List<LinStep>, OutOfMemory> {
    let mut steps = List::new(alloc);
    for step in given {
        steps.push(make_step(alloc, *step)?)?;
    }
    Ok(steps)
}

/// The rows that the logs below are checked against.
#[derive(Clone, Copy, Debug)]
enum Base {
    /// `-v0 <= -1`, `v0 <= -1`
    Opposite,
    /// `2 v0 <= 1`
    Half,
    /// `2 v0 <= 1`, `-v0 <= -2`
    HalfAndTwo,
    /// `0 <= 0`
    Empty,
}

fn base_rows(alloc: Global, base: Base) -> Result<List<Row>, OutOfMemory> {
    match base {
        Base::Opposite => make_rows(alloc, &[(&[(-1, 0)], -1), (&[(1, 0)], -1)]),
        Base::Half => make_rows(alloc, &[(&[(2, 0)], 1)]),
        Base::HalfAndTwo => make_rows(alloc, &[(&[(2, 0)], 1), (&[(-1, 0)], -2)]),
        Base::Empty => make_rows(alloc, &[(&[], 0)]),
    }
}

/// Logs, and whether they are taken.
const LOGS: [(&str, Base, &[Step], bool); 14] = [
    (
        "a contradiction",
        Base::Opposite,
        &[(1, 0, 1, 1, 1, None, -2)],
        true,
    ),
    (
        "another bound",
        Base::Opposite,
        &[(1, 0, 1, 1, 1, None, -3)],
        false,
    ),
    ("no steps", Base::Opposite, &[], false),
    (
        "no contradiction",
        Base::Half,
        &[(1, 0, 0, 0, 2, Some((1, 0)), 1)],
        false,
    ),
    (
        "rounded down",
        Base::Half,
        &[(1, 0, 0, 0, 2, Some((1, 0)), 0)],
        false,
    ),
    (
        "rounded up, then summed",
        Base::HalfAndTwo,
        &[(1, 0, 0, 0, 2, Some((1, 0)), 1), (1, 2, 1, 1, 1, None, -1)],
        false,
    ),
    (
        "rounded down, then summed",
        Base::HalfAndTwo,
        &[(1, 0, 0, 0, 2, Some((1, 0)), 0), (1, 2, 1, 1, 1, None, -2)],
        true,
    ),
    (
        "its own row",
        Base::Opposite,
        &[(1, 2, 0, 0, 1, None, -1)],
        false,
    ),
    (
        "a later row",
        Base::Opposite,
        &[(1, 3, 0, 0, 1, None, -2), (1, 0, 1, 1, 1, None, -2)],
        false,
    ),
    (
        "a form left out",
        Base::HalfAndTwo,
        &[(1, 1, 0, 0, 1, None, -2)],
        false,
    ),
    (
        "divisor 0",
        Base::Opposite,
        &[(1, 0, 1, 1, 0, None, -2)],
        false,
    ),
    (
        "multiplier 0",
        Base::Opposite,
        &[(0, 0, 1, 1, 1, Some((1, 0)), -1)],
        false,
    ),
    (
        "negative multiplier",
        Base::HalfAndTwo,
        &[(1, 1, -1, 1, 1, None, -1)],
        false,
    ),
    ("at most 0", Base::Empty, &[(1, 0, 0, 0, 1, None, 0)], false),
];

#[test]
fn steps_are_checked(rt: HostRuntime) -> Result<(), Fail> {
    let alloc = rt.alloc();
    for (name, base, steps, taken) in LOGS {
        let rows = base_rows(alloc, base)?;
        let steps = make_steps(alloc, steps)?;
        assert_eq!(rt;
            check_steps(rows.as_slice(), steps.as_slice()),
            taken,
            "{name}"
        );
    }
    Ok(())
}

/// Upper rows of one term each.
fn apart(alloc: Global, count: u32) -> Result<List<Row>, OutOfMemory> {
    let mut rows = List::new(alloc);
    for term in 0..count {
        rows.push(make_row(alloc, &[(1, term)], 0)?)?;
    }
    Ok(rows)
}

/// As many upper as lower rows of two terms.
fn crossed(alloc: Global, count: u32) -> Result<List<Row>, OutOfMemory> {
    let mut rows = List::new(alloc);
    for k in 0..count {
        let slope = k as i64 + 1;
        rows.push(make_row(alloc, &[(1, 0), (slope, 1)], 0)?)?;
        rows.push(make_row(alloc, &[(-1, 0), (-slope, 1)], 0)?)?;
    }
    Ok(rows)
}

#[test]
fn tables_are_limited(rt: HostRuntime) -> Result<(), Fail> {
    let alloc = rt.alloc();
    let rows = apart(alloc, 3_001)?;
    let outcome = decided(alloc, rows.as_slice())?;
    assert!(rt;
        is_wanted(rows.as_slice(), &outcome, Wanted::Forms(3_001)),
        "{outcome:?}"
    );
    let rows = crossed(alloc, 448)?;
    let outcome = decided(alloc, rows.as_slice())?;
    assert!(rt;
        is_wanted(rows.as_slice(), &outcome, Wanted::Pairs(200_704)),
        "{outcome:?}"
    );
    Ok(())
}
