//! The trees of a few texts, as words and the numbers of their parts.

ghost use Rattle.std.specs.Prelude.{◌≤◌, length};
ghost use Rattle.jesc_lexer.specs.Spans.{AreSpans};

use jesc_ast::{
    CaseTree, Expr, ExprNode, FieldTree, MemberNode, MemberTree, Quantifier, SpecClause, SpecTree,
    StoreNode, StoreTree,
};
use jesc_jml_parser::{parse_clauses, parse_expr, parse_member_annotation};
use jesc_lexer::{Tokens, lex};
use jesc_rows::{is_row, joined, parts_of, put, put_number_word, put_word, said};
use jesc_text::Text;
use std::alloc::Global;
use std::process::Abort;

/// What is read.
#[derive(Clone, Copy)]
enum Rule {
    Expression,
    Specification,
    Member,
}

/// Expressions, each with the form of the root and behind it those of its parts.
const EXPRESSIONS: &str = r"
a + b * c # + a *
a * b + c # + * c
a - b - c # - - c
a ==> b ==> c # ==> a ==>
a <==> b <=!=> c # <=!=> <==> c
a ? b : c ? d : e # choice a b choice
-a.b # - other
(a) b # cast b
(a) + b # + paren b
(a) (b) # cast paren
(a[]) -b # cast -
(\forall int i; a <= i && i < b; c) # all <= < a b c
(\exists int i; a < i && i <= b; c) # some < <= a b c
";

/// Specifications. Of each case the `requires` clauses and the other ones are counted, and behind that stand the forms
/// of its store references.
const SPECIFICATIONS: &str = r"
requires a; # 1 0
also requires a; pre b; ensures c; # also 2 1
ensures a; also requires b; requires c; signals (E) d; # 0 1 2 1
behavior # headed 0 0
assignable x, o.*, a[i], a[i..j], a[*]; # 0 1 path star element range all
assignable \nothing; assignable \everything; # 0 2 nothing everything
";

/// Members. Of a field the modifiers are counted, and the groups behind it.
const MEMBERS: &str = r"
invariant a; # invariant
represents x <- a; # represents
ghost int x; # field 1 0
public model int[] x = a; in g, h; # field 2 valued 2
";

/// A node's form: a name, the sign of an operator, or a word.
fn form(e: &Expr) -> &[u8] {
    match e.node.get() {
        ExprNode::Name(name) => name.as_slice(),
        ExprNode::Unary(tree) => tree.get().op.text.as_slice(),
        ExprNode::Binary(tree) => tree.get().op.text.as_slice(),
        ExprNode::Paren(_) => b"paren",
        ExprNode::Cast(_) => b"cast",
        ExprNode::Choose(_) => b"choice",
        ExprNode::Quant(_) => b"quantifier",
        _ => b"other",
    }
}

fn put_forms(into: &mut Text, root: &[u8], parts: &[&Expr]) {
    put(into, root);
    for e in parts {
        put(into, b" ");
        put(into, form(e));
    }
}

fn put_quantifier(into: &mut Text, tree: &Quantifier) {
    put_word(into, if tree.universal { "all" } else { "some" });
    put_word(into, if tree.low_strict { "<" } else { "<=" });
    put_word(into, if tree.high_strict { "<" } else { "<=" });
    put_forms(into, b"", &[&tree.low, &tree.high, &tree.body]);
}

fn put_expression(into: &mut Text, e: &Expr) {
    let root = form(e);
    match e.node.get() {
        ExprNode::Unary(tree) => put_forms(into, root, &[&tree.get().e]),
        ExprNode::Cast(tree) => put_forms(into, root, &[&tree.get().e]),
        ExprNode::Binary(tree) => put_forms(into, root, &[&tree.get().left, &tree.get().right]),
        ExprNode::Choose(tree) => {
            put_forms(
                into,
                root,
                &[&tree.get().test, &tree.get().yes, &tree.get().no],
            )
        }
        ExprNode::Quant(tree) => put_quantifier(into, tree.get()),
        _ => put(into, root),
    }
}

fn store_form(store: &StoreTree) -> &'static str {
    match store.node.get() {
        StoreNode::Nothing => "nothing",
        StoreNode::Everything => "everything",
        StoreNode::Path(_) => "path",
        StoreNode::Star(_) => "star",
        StoreNode::Elem(_) => "element",
        StoreNode::Range(_) => "range",
        StoreNode::AllElems(_) => "all",
    }
}

fn put_stores(into: &mut Text, stores: &[StoreTree]) {
    for store in stores {
        put_word(into, store_form(store));
    }
}

fn put_case(into: &mut Text, case: &CaseTree) {
    if case.heading.is_some() {
        put_word(into, "headed");
    }
    put_number_word(into, case.demands.len());
    put_number_word(into, case.clauses.len());
    for clause in case.clauses.as_slice() {
        if let SpecClause::Assignable { stores, .. } = clause {
            put_stores(into, stores.as_slice());
        }
    }
}

fn put_specification(into: &mut Text, tree: &SpecTree) {
    if tree.also {
        put_word(into, "also");
    }
    for case in tree.cases.as_slice() {
        put_case(into, case);
    }
}

fn put_field(into: &mut Text, tree: &FieldTree) {
    put_word(into, "field");
    put_number_word(into, tree.modifiers.len());
    if tree.value.is_some() {
        put_word(into, "valued");
    }
    put_number_word(into, tree.groups.len());
}

fn put_member(into: &mut Text, tree: &MemberTree) {
    match tree.node.get() {
        MemberNode::Invariant(_) => put_word(into, "invariant"),
        MemberNode::Represents(_) => put_word(into, "represents"),
        MemberNode::SpecField(tree) => put_field(into, tree.get()),
        _ => {}
    }
}

/// Appends the shape of what the tokens are read as.
fn put_read(into: &mut Text, alloc: Global, rule: Rule, tokens: &Tokens)
    requires spans { AreSpans (length tokens.now.text) 0 tokens.now.list }
    requires short { length tokens.now.text ≤ 1048576 }
{
    match rule {
        Rule::Expression => {
            if let Ok(found) = &parse_expr(alloc, tokens, 0, true) {
                put_expression(into, &found.0);
            }
        }
        Rule::Specification => {
            if let Ok(found) = &parse_clauses(alloc, tokens, 0) {
                put_specification(into, &found.0);
            }
        }
        Rule::Member => {
            if let Ok(found) = &parse_member_annotation(alloc, tokens, 0) {
                put_member(into, &found.0);
            }
        }
    }
}

/// The shape of a text in an annotation.
fn shape(alloc: Global, rule: Rule, text: &str) -> Text {
    let mut out = Text::new(alloc);
    let source = joined(alloc, &["//@ ", text]);
    if source.len() <= 1048576 {
        if let Ok(tokens) = &lex(alloc, 0, source.as_slice()) {
            put_read(&mut out, alloc, rule, tokens);
        }
    }
    out
}

fn expect_shape(rt: &impl Abort, alloc: Global, rule: Rule, row: &str) {
    let (text, wanted) = parts_of(row);
    let shape = shape(alloc, rule, text);
    let found = said(&shape);
    assert!(rt; found == wanted, "at {text}: {found}");
}

fn expect_shapes(rt: &impl Abort, alloc: Global, rule: Rule, table: &str) {
    for line in table.lines() {
        if is_row(line) {
            expect_shape(rt, alloc, rule, line);
        }
    }
}

#[test]
fn shapes(rt: HostRuntime) {
    expect_shapes(&rt, rt.alloc(), Rule::Expression, EXPRESSIONS);
    expect_shapes(&rt, rt.alloc(), Rule::Specification, SPECIFICATIONS);
    expect_shapes(&rt, rt.alloc(), Rule::Member, MEMBERS);
}
