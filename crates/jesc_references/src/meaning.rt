//! What a plain name is at its place.

ghost use Rattle.std.specs.Prelude.{◌≡◌, ◌<◌, ◌+◌, ◌^◌, length, map, option_map, IfSome};
ghost use Rattle.jesc_ast.specs.Trees as ast;
ghost use Rattle.jesc_references.specs.Known as spec;
ghost use Rattle.jesc_sites.specs.Sites.{IsSetting, around, setting};
ghost use Rattle.jesc_tree.specs.Subtypes.{class_id};

use jesc_ast::{Expr, ExprNode};
use jesc_sites::{Binding, Position, Site};
use jesc_tree::{ClassId, FieldId};

/// What a plain name is.
#[derive(Debug, Drop, Clone, Copy, PartialEq, Eq)]
pub enum Meaning {
    /// A quantifier's variable, by its index among those in scope.
    Variable(u32),
    Local(Binding),
    /// A field of the class.
    Field(FieldId),
    /// None of these; before a dot it may be a class.
    Unknown,
}

/// What the name is there: the innermost variable of that name, else the local in scope, else the field found from the
/// class (JLS 6.4.1). Takes no memory.
pub fn meaning_of(site: &Site<'_>, position: Position<'_>, name: &[u8]) -> Meaning
    requires setting { IsSetting (setting site.now) }
    requires few { length position.variables.now < 2 ^ 32 }
    ensures meant { spec.seen_meaning (setting site.now) result ≡ spec.meaning_of (setting site.now) (around position.entry) name.now }
    ensures there { spec.IsThere (setting site.now) (around position.entry).variables result }
{
    if let Some(variable) = variable_named(position.variables, name) {
        return Meaning::Variable(variable);
    }
    if let Some(local) = site.locals.get(name) {
        return Meaning::Local(local);
    }
    match site.names.field(site.class, name) {
        Some(field) => Meaning::Field(field),
        None => Meaning::Unknown,
    }
}

/// The index of the last variable of that name.
fn variable_named(variables: &[&[u8]], name: &[u8]) -> Option<u32>
    requires { length variables.now < 2 ^ 32 }
    ensures last { result ≡ spec.last_from 0 name.now (map (λ v. v.now) variables.now) }
    ensures inside { IfSome result (λ i. i < length variables.now) }
{
    let mut last = None;
    for (i, variable) in variables.iter().enumerate() {
        if name == *variable {
            last = Some(i as u32);
        }
    }
    last
}

/// The class that is named before a dot: a plain name that is nothing else (JLS 6.5.2). Takes no memory.
pub fn qualifier_class(site: &Site<'_>, position: Position<'_>, e: &Expr) -> Option<ClassId>
    requires setting { IsSetting (setting site.now) }
    requires few { length position.variables.now < 2 ^ 32 }
    ensures found { result ≡ option_map class_id (spec.qualifier_class (setting site.now) (around position.entry) (ast.view e.now)) }
    ensures inside { IfSome result (λ c. c.0 < length (setting site.now).classes) }
{
    match e.node.get() {
        ExprNode::Name(name) => {
            let name = name.as_slice();
            if is_unknown(site, position.variables, meaning_of(site, position, name)) {
                site.names.class(name)
            } else {
                None
            }
        }
        _ => None,
    }
}

/// Whether the name is none of these.
fn is_unknown(site: &Site<'_>, variables: &[&[u8]], meaning: Meaning) -> bool
    requires { spec.IsThere (setting site.now) (map (λ v. v.now) variables.now) meaning }
    ensures { result ≡ spec.is_unknown (spec.seen_meaning (setting site.now) meaning) }
{
    matches!(meaning, Meaning::Unknown)
}
