//! Numbers that are too large, deep formulas, and many.

use crate::making::clauses_of_words;
use crate::meeting::size;
use crate::words::{Word, count_nodes, is_row, put, words_of};
use jesc_clauses::{ClauseError, Clauses};
use jesc_logic::Terms;
use jesc_text::List;
use std::alloc::Global;
use std::process::Abort;

/// Formulas with large numbers, and behind ` # ` the number that is too large, or 0 where none is.
const LARGE: &str = r"
<= * 4294967296 x 0 # 4294967296
<= 0 * x 4294967296 # 4294967296
<= * -4294967296 x 0 # -4294967296
= 0 + y * 4294967296 x # 4294967296
or true not and false <= f * 4294967296 x 0 # 4294967296

# coefficients, each of the sum of a term
<= * 2147483648 x 0 # 0
<= * 2147483649 x 0 # 2147483649
<= * -2147483648 x 0 # 0
<= * -2147483649 x 0 # -2147483649
<= + * 2147483648 x x 0 # 2147483649
<= + * 2147483648 x + y * -1 x 0 # 0
<= * 65536 * 65536 x 0 # 4294967296
<= * 4294967296 * 0 x 0 # 0
<= * 0 * 4294967296 x 0 # 4294967296
<= * 3 + x * 1073741824 y 0 # 3221225472

# coefficients of a comparison, where their greatest common divisor has been taken out and the first made positive
<= * 2147483648 x * -1 x # 0
<= * 2147483648 x * -2147483648 y # 0
<= * 2147483648 x + y * -1 x # 2147483649
<= * -2147483648 x + x y # 2147483649
<= + y * 2147483648 x * -1 x # 2147483649
= * 2147483648 x + y * -1 x # 2147483649

# constants
<= x 19807040628566084398385987584 # 0
<= 19807040628566084398385987584 x # 0
<= x 19807040628566084398385987585 # 19807040628566084398385987585
<= -19807040628566084398385987585 x # -19807040628566084398385987585
<= + 19807040628566084398385987584 1 0 # 19807040628566084398385987585
<= + 19807040628566084398385987584 -1 0 # 0
<= * 2 + x 19807040628566084398385987584 0 # 39614081257132168796771975168
<= * 19807040628566084398385987584 19807040628566084398385987584 0 # 85070591730234615865843651857942052864
<= * 19807040628566084398385987584 -19807040628566084398385987584 0 # -85070591730234615865843651857942052864
<= x 85070591730234615865843651857942052864 # 85070591730234615865843651857942052864
<= x 85070591730234615865843651857942052865 # 85070591730234615865843651857942052864
<= -170141183460469231731687303715884105728 x # -85070591730234615865843651857942052864

# the bound of a comparison, where the first coefficient has been made positive: not x <= n says n + 1 <= x
<= -19807040628566084398385987583 x # 0
<= -19807040628566084398385987584 x # -19807040628566084398385987585
<= + x 19807040628566084398385987584 0 # 0
<= + x 19807040628566084398385987584 -1 # -19807040628566084398385987585
<= + * 2 x 19807040628566084398385987584 -1 # 0
<= 1 + x -19807040628566084398385987584 # 0
<= 2 + x -19807040628566084398385987584 # 19807040628566084398385987585
<= + 19807040628566084398385987584 x + x -19807040628566084398385987584 # 0
";

/// What a call answers: the number that is too large, 0 where there are clauses, or 1 where memory ran out.
fn wide_number(answer: &Result<Clauses, ClauseError>) -> i128 {
    match answer {
        Ok(_) => 0,
        Err(ClauseError::Wide(n)) => *n,
        Err(ClauseError::OutOfMemory) => 1,
    }
}

#[test]
fn large_numbers_are_told(rt: HostRuntime) {
    let alloc = rt.alloc();
    for line in LARGE.lines() {
        if is_row(line) {
            let (text, wanted) = line.split_once(" # ").unwrap_or((line, ""));
            let words = words_of(alloc, text);
            let mut terms = Terms::new(alloc);
            let n = wide_number(&clauses_of_words(alloc, &mut terms, words.as_slice()));
            assert!(rt; Ok(n) == wanted.parse::<i128>(), "{line}: {n}");
        }
    }
}

/// Asserts that the words have clauses, not too many.
fn expect_few(rt: &impl Abort, alloc: Global, name: &str, words: &[Word]) {
    let mut terms = Terms::new(alloc);
    match clauses_of_words(alloc, &mut terms, words) {
        Ok(clauses) => {
            let (size, nodes) = (size(&clauses), count_nodes(words));
            assert!(rt;
                0 < size && size <= nodes.saturating_mul(15),
                "{name}: {size} of {nodes} nodes"
            );
        }
        Err(e) => assert!(rt; false, "{name}: {e:?}"),
    }
}

/// Puts words so many times.
fn put_times(words: &mut List<Word>, times: u32, piece: &[Word]) {
    for _time in 0..times {
        for word in piece {
            put(words, *word);
        }
    }
}

/// What stands 200 times before `= x y`, and what stands as often behind it.
const DEEP: &str = r"
not # 
and # <= y z
and <= y z # 
and # = y f z
and = y f z # 
or # = y f z
or = y f z # 
not or # not <= z y
or not = x y # 
and true # 
and or # <= y z not <= z x
";

#[test]
fn deep_formulas_have_few_clauses(rt: HostRuntime) {
    let alloc = rt.alloc();
    for line in DEEP.lines() {
        if is_row(line) {
            let (before, behind) = line.split_once(" # ").unwrap_or((line, ""));
            let mut words = List::new(alloc);
            put_times(&mut words, 200, words_of(alloc, before).as_slice());
            put_times(&mut words, 1, words_of(alloc, "= x y").as_slice());
            put_times(&mut words, 200, words_of(alloc, behind).as_slice());
            expect_few(&rt, alloc, line, words.as_slice());
        }
    }
}

/// Puts a comparison of x with each number of a range. Before each but the first stand as many `and` as its number, from 1
/// on, can be halved: so many comparisons as a power of two has are a balanced conjunction, but for `and` before the first.
fn put_conjuncts(words: &mut List<Word>, count: u32, operator: Word, are_joined: bool) {
    for number in 0..count {
        if are_joined && number > 0 {
            put_times(words, number.trailing_zeros(), &[Word::And]);
        }
        put(words, operator);
        put(words, Word::X);
        put(words, Word::Number(number as i128));
    }
}

#[test]
fn many_formulas_have_few_clauses(rt: HostRuntime) {
    let alloc = rt.alloc();
    for operator in [Word::AtMost, Word::Equal] {
        let mut words = List::new(alloc);
        put_conjuncts(&mut words, 10_000, operator, false);
        expect_few(&rt, alloc, "apart", words.as_slice());
        let mut words = List::new(alloc);
        put_times(&mut words, 14, &[Word::And]);
        put_conjuncts(&mut words, 1 << 14, operator, true);
        expect_few(&rt, alloc, "joined", words.as_slice());
    }
}
