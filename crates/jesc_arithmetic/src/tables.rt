//! The facts of products, quotients and remainders. Division truncates.

use crate::rule::Comparison::{AtMost, Below, Is, IsNot};
use crate::rule::Joint::{Both, Either};
use crate::rule::Place::{Left, MinusLeft, MinusOne, MinusRight, One, Outcome, Right, Zero};
use crate::rule::{Joint, Rule};

/// What is known of a product.
pub(crate) const PRODUCT: [Rule; 5] = [
    Rule {
        premise: Either(Is(Left, Zero), Is(Right, Zero)),
        conclusion: Joint::One(Is(Outcome, Zero)),
    },
    Rule {
        premise: Both(AtMost(One, Left), AtMost(One, Right)),
        conclusion: Both(AtMost(Left, Outcome), AtMost(Right, Outcome)),
    },
    Rule {
        premise: Both(AtMost(Left, MinusOne), AtMost(Right, MinusOne)),
        conclusion: Both(AtMost(MinusLeft, Outcome), AtMost(MinusRight, Outcome)),
    },
    Rule {
        premise: Both(AtMost(One, Left), AtMost(Right, MinusOne)),
        conclusion: Both(AtMost(Outcome, MinusLeft), AtMost(Outcome, Right)),
    },
    Rule {
        premise: Both(AtMost(Left, MinusOne), AtMost(One, Right)),
        conclusion: Both(AtMost(Outcome, Left), AtMost(Outcome, MinusRight)),
    },
];

/// What is known of a quotient.
pub(crate) const QUOTIENT: [Rule; 4] = [
    Rule {
        premise: Both(AtMost(One, Right), AtMost(Zero, Left)),
        conclusion: Both(AtMost(Zero, Outcome), AtMost(Outcome, Left)),
    },
    Rule {
        premise: Both(AtMost(One, Right), AtMost(Left, Zero)),
        conclusion: Both(AtMost(Left, Outcome), AtMost(Outcome, Zero)),
    },
    Rule {
        premise: Both(AtMost(Right, MinusOne), AtMost(Zero, Left)),
        conclusion: Both(AtMost(MinusLeft, Outcome), AtMost(Outcome, Zero)),
    },
    Rule {
        premise: Both(AtMost(Right, MinusOne), AtMost(Left, Zero)),
        conclusion: Both(AtMost(Zero, Outcome), AtMost(Outcome, MinusLeft)),
    },
];

/// What is known of a remainder.
pub(crate) const REMAINDER: [Rule; 4] = [
    Rule {
        premise: Both(IsNot(Right, Zero), AtMost(Zero, Left)),
        conclusion: Both(AtMost(Zero, Outcome), AtMost(Outcome, Left)),
    },
    Rule {
        premise: Both(IsNot(Right, Zero), AtMost(Left, Zero)),
        conclusion: Both(AtMost(Left, Outcome), AtMost(Outcome, Zero)),
    },
    Rule {
        premise: Joint::One(AtMost(One, Right)),
        conclusion: Both(Below(MinusRight, Outcome), Below(Outcome, Right)),
    },
    Rule {
        premise: Joint::One(AtMost(Right, MinusOne)),
        conclusion: Both(Below(Right, Outcome), Below(Outcome, MinusRight)),
    },
];
