use jesc_logic::{Condition, Fact, Facts, Formula, FormulaNode, Node, TermId, Terms};
use jesc_text::{List, Place};
use jesc_tree::Kind;
use std::alloc::Global;
use std::test::Fail;

/// The node of a symbol over at most three terms.
fn over(symbol: u32, arity: u8, a: u32, b: u32, c: u32) -> Node {
    Node::App {
        symbol,
        arity,
        a: TermId(a),
        b: TermId(b),
        c: TermId(c),
    }
}

#[test]
fn equal_terms_have_one_number(rt: HostRuntime) -> Result<(), Fail> {
    let mut terms = Terms::new(rt.alloc());
    let five = terms.num(5)?;
    let this = terms.app(10, &[])?;
    let sum = terms.app(0, &[five, this])?;
    let again = terms.num(5)?;
    assert_eq!(rt; again, five);
    let same = terms.app(0, &[again, this])?;
    assert_eq!(rt; same, sum);
    let turned = terms.app(0, &[this, five])?;
    assert_ne!(rt; turned, sum);
    assert_eq!(rt; terms.len(), 4);
    Ok(())
}

#[test]
fn nodes_are_those_of_the_terms(rt: HostRuntime) -> Result<(), Fail> {
    let mut terms = Terms::new(rt.alloc());
    let low = terms.num(-7)?;
    let this = terms.app(10, &[])?;
    let element = terms.app(8, &[low, this, low])?;
    let field = terms.read(2, this)?;
    assert_eq!(rt; terms.len(), 5);
    assert!(rt; low.0 < 5 && this.0 < 5 && element.0 < 5 && field.0 < 5);
    assert_eq!(rt; terms.node(low), Node::Num(-7));
    assert_eq!(rt; terms.node(this), over(10, 0, 0, 0, 0));
    assert_eq!(rt; terms.node(element), over(8, 3, 0, 1, 0));
    assert_eq!(rt; terms.node(field), over(13, 2, 3, 1, 0));
    Ok(())
}

fn truth(alloc: Global) -> Result<Fact, Fail> {
    Ok(Fact {
        vars: List::new(alloc),
        body: Formula::new(alloc, FormulaNode::True)?,
    })
}

/// How many facts there are.
fn count(facts: &Facts) -> u32 {
    let mut rest = facts;
    let mut n = 0u32;
    while let Some((before, _)) = rest.split_last() {
        n = n.saturating_add(1);
        rest = before;
    }
    n
}

#[test]
fn lists_of_facts_share_their_beginning(rt: HostRuntime) -> Result<(), Fail> {
    let one = Facts::new().with(rt.alloc(), truth(rt.alloc())?)?;
    let mut long = one.share()?;
    for _ in 0..100_000 {
        long = long.with(rt.alloc(), truth(rt.alloc())?)?;
    }
    assert_eq!(rt; count(&long), 100_001);
    let place = Place {
        file: 0,
        line: 3,
        col: 14,
    };
    let condition = Condition {
        kind: Kind::Overflow,
        place,
        by: None,
        path: List::new(rt.alloc()),
        facts: one,
    };
    assert_eq!(rt; count(&condition.facts), 1);
    Ok(())
}
