//! Members of their parts.

ghost use Rattle.std.specs.Prelude.{◌≡◌, IfOk};
ghost use Rattle.jesc_ast.specs.FileTrees.{member_form, optional_body_view};
ghost use Rattle.jesc_ast.specs.SpecTrees.{optional_spec_view};
ghost use Rattle.jesc_ast.specs.Statements.{body_end};
ghost use Rattle.jesc_ast.specs.Trees.{body_view};
ghost use Rattle.jesc_jml_grammar.specs.ClauseSeen.{measured, ended, value_seen};
ghost use Rattle.jesc_jml_grammar.specs.Seen.{lexeme};
ghost use Rattle.jesc_java_grammar.specs.FileReading as spec;
ghost use Rattle.jesc_java_grammar.specs.FileViews.{signature_seen};

use jesc_ast::{
    BodyTree, ConstructorTree, FieldTree, MemberNode, MethodTree, ParamTree, SpecTree, TypeTree,
    Word,
};
use jesc_jml_grammar::cursor::Lexeme;
use jesc_jml_grammar::make::word_of;
use jesc_jml_grammar::part::{Ended, FieldHead, Measured, Value};
use jesc_text::{Boxed, List, OutOfMemory, Span};
use std::alloc::Global;

/// The parameters of a method or constructor, and what it throws.
#[derive(Drop)]
pub struct Signature {
    pub params: List<ParamTree>,
    pub throws: List<Word>,
}

/// What stands before the parameters of a method or constructor, the method's result aside.
#[derive(Drop)]
pub struct MethodHead<'a> {
    pub spec: Measured<Option<SpecTree>>,
    pub modifiers: List<Word>,
    pub name: Lexeme<'a>,
}

fn end_of(body: &BodyTree) -> Span
    ensures { result ≡ body_end (body_view body.now) }
{
    body.close
}

/// A body that is there.
pub fn some_body(body: Measured<BodyTree>) -> Ended<Option<BodyTree>>
    ensures { ended optional_body_view result ≡ spec.some_body (measured body_view body) }
{
    let last = end_of(&body.tree);
    Ended {
        tree: Some(body.tree),
        depth: body.depth,
        last,
    }
}

pub fn make_field(
    alloc: Global,
    head: FieldHead<'_>,
    value: Value,
    groups: Ended<List<Word>>,
) -> Result<Ended<MemberNode>, OutOfMemory>
    ensures { IfOk result (λ f. ended member_form f ≡ spec.field_of head.entry.words head.entry.ty (lexeme head.entry.name) (value_seen value) (ended (λ words. words) groups)) }
{
    let tree = FieldTree {
        modifiers: head.words,
        ty: head.ty,
        name: word_of(alloc, head.name)?,
        equals: value.equals,
        value: value.e,
        groups: groups.tree,
    };
    Ok(Ended {
        tree: MemberNode::Field(Boxed::new(alloc, tree)?),
        depth: value.depth,
        last: groups.last,
    })
}

pub fn make_method(
    alloc: Global,
    head: MethodHead<'_>,
    ty: Option<TypeTree>,
    signature: Signature,
    body: Ended<Option<BodyTree>>,
) -> Result<Ended<MemberNode>, OutOfMemory>
    ensures { IfOk result (λ f. ended member_form f ≡ spec.method_of (measured optional_spec_view head.entry.spec) head.entry.modifiers ty (lexeme head.entry.name) (signature_seen signature) (ended optional_body_view body)) }
{
    let MethodHead {
        spec,
        modifiers,
        name,
    } = head;
    let depth = spec.depth.max(body.depth);
    let tree = MethodTree {
        spec: spec.tree,
        modifiers,
        result: ty,
        name: word_of(alloc, name)?,
        params: signature.params,
        throws: signature.throws,
        body: body.tree,
    };
    Ok(Ended {
        tree: MemberNode::Method(Boxed::new(alloc, tree)?),
        depth,
        last: body.last,
    })
}

pub fn make_constructor(
    alloc: Global,
    head: MethodHead<'_>,
    signature: Signature,
    body: Measured<BodyTree>,
) -> Result<Ended<MemberNode>, OutOfMemory>
    ensures { IfOk result (λ f. ended member_form f ≡ spec.constructor_of (measured optional_spec_view head.entry.spec) head.entry.modifiers (lexeme head.entry.name) (signature_seen signature) (measured body_view body)) }
{
    let MethodHead {
        spec,
        modifiers,
        name,
    } = head;
    let last = end_of(&body.tree);
    let depth = spec.depth.max(body.depth);
    let tree = ConstructorTree {
        spec: spec.tree,
        modifiers,
        name: word_of(alloc, name)?,
        params: signature.params,
        throws: signature.throws,
        body: body.tree,
    };
    Ok(Ended {
        tree: MemberNode::Constructor(Boxed::new(alloc, tree)?),
        depth,
        last,
    })
}
