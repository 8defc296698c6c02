//! The trees of a few files and statements, as words and the numbers of their parts.

ghost use Rattle.std.specs.Prelude.{◌≤◌, length};
ghost use Rattle.jesc_lexer.specs.Spans.{AreSpans};

use jesc_ast::{AssignTree, BodyTree, ClassTree, File, MemberNode, MemberTree, Stmt, StmtNode};
use jesc_java_parser::parse_file;
use jesc_lexer::{Tokens, lex};
use jesc_rows::{is_row, parts_of, put_number_word, put_text, put_word, said};
use jesc_text::Text;
use std::alloc::Global;
use std::process::Abort;

/// Files. The modifiers of a class, the classes that it extends and implements, and its members are counted. Of a
/// member its form is told, and of a constructor the statements are counted and told.
const SHAPES: &str = r"
package p.q; class A { } # package 2 class 0 0 0 0
public final class A extends B implements C, D { ; } # class 2 1 2 1 empty
@Override class A { } interface I extends J, K { } # class 1 0 0 0 interface 0 2 0 0
class A { int x; //@ in g, h; ghost int y; invariant a; represents g <- x; requires a;¶ void f() { } } # class 0 0 0 5 field specfield invariant represents method
class A { A() { ; f(); x = 1; x++; --x; return; } } # class 0 0 0 1 constructor 6 empty call assign behind before return
class A { A() { if (a) f(); } } # class 0 0 0 1 constructor 1 if call
class A { A() { if (a) f(); else if (b) ; else x++; } } # class 0 0 0 1 constructor 1 if call else if empty else behind
class A { A() { if (a) { if (b) f(); } else --x; } } # class 0 0 0 1 constructor 1 if 1 if call else before
class A { A() { if (a) { if (b) f(); else g(); } } } # class 0 0 0 1 constructor 1 if 1 if call else call
class A { A() { if (a) { if (b) f(); else g(); } else ; } } # class 0 0 0 1 constructor 1 if 1 if call else call else empty
class A { A() { while (a) f(); return a; } } # class 0 0 0 1 constructor 2 while 0 call value
class A { A() { //@ loop_invariant a; maintaining b;¶while (a) { return; } } } # class 0 0 0 1 constructor 1 while 2 1 return
";

fn assign_form(tree: &AssignTree) -> &'static str {
    match (&tree.value, tree.before) {
        (Some(_), _) => "assign",
        (None, true) => "before",
        (None, false) => "behind",
    }
}

fn form(node: &StmtNode) -> &'static str {
    match node {
        StmtNode::Assign(tree) => assign_form(tree.get()),
        StmtNode::Call(_) => "call",
        StmtNode::Return(Some(_)) => "value",
        StmtNode::Return(None) => "return",
        StmtNode::Empty => "empty",
        _ => "other",
    }
}

#[cycle(shape)]
fn put_body(into: &mut Text, body: &BodyTree) {
    put_number_word(into, body.list.len());
    for statement in body.list.as_slice() {
        put_statement(into, statement);
    }
}

#[cycle(shape)]
fn put_statement(into: &mut Text, statement: &Stmt) {
    match statement.node.get() {
        StmtNode::Block(body) => put_body(into, body.get()),
        StmtNode::If(tree) => {
            put_word(into, "if");
            put_statement(into, &tree.get().then);
            if let Some(other) = &tree.get().other {
                put_word(into, "else");
                put_statement(into, other);
            }
        }
        StmtNode::While(tree) => {
            put_word(into, "while");
            put_number_word(into, tree.get().invariants.len());
            put_statement(into, &tree.get().body);
        }
        node => put_word(into, form(node)),
    }
}

fn put_member(into: &mut Text, member: &MemberTree) {
    match member.node.get() {
        MemberNode::Empty => put_word(into, "empty"),
        MemberNode::Field(_) => put_word(into, "field"),
        MemberNode::SpecField(_) => put_word(into, "specfield"),
        MemberNode::Invariant(_) => put_word(into, "invariant"),
        MemberNode::Represents(_) => put_word(into, "represents"),
        MemberNode::Method(_) => put_word(into, "method"),
        MemberNode::Constructor(tree) => {
            put_word(into, "constructor");
            put_body(into, &tree.get().body);
        }
    }
}

fn put_class(into: &mut Text, class: &ClassTree) {
    put_word(
        into,
        if class.is_interface {
            "interface"
        } else {
            "class"
        },
    );
    put_number_word(into, class.modifiers.len());
    put_number_word(into, class.extends.len());
    put_number_word(into, class.implements.len());
    put_number_word(into, class.members.len());
    for member in class.members.as_slice() {
        put_member(into, member);
    }
}

fn put_file(into: &mut Text, file: &File) {
    if file.package.len() > 0 {
        put_word(into, "package");
        put_number_word(into, file.package.len());
    }
    for class in file.classes.as_slice() {
        put_class(into, class);
    }
}

fn put_read(into: &mut Text, alloc: Global, tokens: &Tokens)
    requires spans { AreSpans (length tokens.now.text) 0 tokens.now.list }
    requires short { length tokens.now.text ≤ 1048576 }
{
    if let Ok(file) = &parse_file(alloc, tokens) {
        put_file(into, file);
    }
}

/// The shape of a row's text.
fn shape(alloc: Global, text: &str) -> Text {
    let mut source = Text::new(alloc);
    put_text(&mut source, text);
    let mut out = Text::new(alloc);
    if source.len() <= 1048576 {
        if let Ok(tokens) = &lex(alloc, 0, source.as_slice()) {
            put_read(&mut out, alloc, tokens);
        }
    }
    out
}

fn expect_shape(rt: &impl Abort, alloc: Global, row: &str) {
    let (text, wanted) = parts_of(row);
    let shape = shape(alloc, text);
    let found = said(&shape);
    assert!(rt; found == wanted, "at {text}: {found}");
}

#[test]
fn shapes(rt: HostRuntime) {
    for line in SHAPES.lines() {
        if is_row(line) {
            expect_shape(&rt, rt.alloc(), line);
        }
    }
}
