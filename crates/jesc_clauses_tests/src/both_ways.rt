//! Formulas, and whether their clauses are met where they are true, and nowhere else.

use crate::making::clauses_of_words;
use crate::meeting::{count_defined, is_met_somehow, size};
use crate::values::{POINTS, point_at, truth_at};
use crate::words::{Word, count_nodes, is_row, words_of};
use jesc_clauses::Clauses;
use jesc_logic::Terms;
use std::alloc::Global;
use std::process::Abort;

/// Formulas over x, y, z and a function f, each operator before what it is over.
const FORMULAS: &str = r"
# constants
true
false
not true
not not false
<= 3 2
= + 1 1 2
or false and true not false

# one comparison
<= x y
not <= x y
<= x 0
<= 0 x
not <= -1 x
<= x x
not = x x
= x y
not = x y
not not = z -1

# sums and products
<= + x y z
= + x + y z 1
<= + x 1 + x 2
= + x * -1 x 0
<= * 3 x + * 2 y 1
<= * -2 x * 4 y
= * 2 x 3
not = * x 2 + y y
= * 2 x + * 2 y 1
<= * 2 * 3 x * y 6
not <= * 0 x -1
= * x y z
<= * x x + y 2
= * x y * y x

# a function
<= f x y
= f x f y
= f x f x
= f f x x
<= f + x 1 f + 1 x
= f + x 1 + f x 1
<= * 2 f x f * 2 x
or not = x y = f x f y
and = x y not = f x f y
and = f x 1 and = f y 5 <= f z -1
not or = f 0 5 = f f 1 f y

# two parts
and <= x y <= y z
and true <= x y
and <= x y true
and false = x y
and = x y false
or <= x y <= z y
or true <= x y
or <= x y false
or = x 1 <= y -1
or not <= x y not <= y z
not and <= x y <= y z
not or <= x y <= y z
not or not <= x y not = y z

# more parts
and or <= x y <= y z or <= z y <= y x
or and <= x y <= y z and <= z y <= y x
and not <= x y or <= y z = z 0
not and not or <= x 0 = y 1 not and = z 2 <= f x f y
not not not and = x 0 not = y 0
and and and <= x 1 <= y 1 <= z 1 <= f x 1
or or or = x 2 = y 2 = z 2 = f z 2
and or true = x 0 or false not = y z
not or false and true not or <= x z false
and or not and <= x y <= y x not <= f x f y <= z * 3 x
or = + x + y z 0 and <= * 2 x + y z not = * 3 f y * 2 z
and or = x 0 or = x 1 = x 2 or not = y f x and <= z y not <= z x
or and and <= x y <= y z not = x z not or <= 0 y not <= f x f z
not and or and = x y true or = y z false not and <= x 1 not <= z -1

# one formula behind another
<= x y <= y z
= x y true or <= z 0 not = f z y
<= x y not <= x y
";

/// Asserts of each point that the clauses are met if and only if the formulas are true.
fn expect_both_ways(
    rt: &impl Abort,
    alloc: Global,
    line: &str,
    words: &[Word],
    terms: &Terms,
    clauses: &Clauses,
) {
    let defined = count_defined(clauses);
    assert!(rt; defined <= 10, "{line}: {defined} defined terms");
    let ways = 1u32 << defined;
    for number in 0..POINTS {
        let at = point_at(number);
        let met = is_met_somehow(alloc, terms, clauses, at, ways);
        assert!(rt;
            met == truth_at(alloc, words, at),
            "{line}: {met} at {at:?}"
        );
    }
}

#[test]
fn clauses_are_met_where_formulas_are_true(rt: HostRuntime) {
    let alloc = rt.alloc();
    for line in FORMULAS.lines() {
        if is_row(line) {
            let words = words_of(alloc, line);
            let words = words.as_slice();
            let mut terms = Terms::new(alloc);
            match clauses_of_words(alloc, &mut terms, words) {
                Ok(clauses) => {
                    assert!(rt;
                        size(&clauses) <= count_nodes(words).saturating_mul(15),
                        "{line}"
                    );
                    expect_both_ways(&rt, alloc, line, words, &terms, &clauses);
                }
                Err(e) => assert!(rt; false, "{line}: {e:?}"),
            }
        }
    }
}
