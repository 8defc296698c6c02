//! The tables of a program in one line.

use jesc_rows::{put, put_count};
use jesc_text::{Text, put_number};
use jesc_tree::{Class, ClassId, Elem, Field, FieldId, Method, Program, Ty};

/// Appends the name of the class.
fn put_class_name(into: &mut Text, program: &Program, id: ClassId) {
    match program.classes().get(id.0 as usize) {
        Some(class) => put(into, class.name.as_slice()),
        None => put(into, b"none"),
    }
}

/// Appends the type as Java writes it.
fn put_type(into: &mut Text, program: &Program, ty: Ty) {
    match ty {
        Ty::Void => put(into, b"void"),
        Ty::Null => put(into, b"null"),
        Ty::Int => put(into, b"int"),
        Ty::Long => put(into, b"long"),
        Ty::Bool => put(into, b"boolean"),
        Ty::Ref(class) => put_class_name(into, program, class),
        Ty::Array(elem) => {
            match elem {
                Elem::Int => put(into, b"int"),
                Elem::Long => put(into, b"long"),
                Elem::Bool => put(into, b"boolean"),
                Elem::Ref(class) => put_class_name(into, program, class),
            }
            put(into, b"[]");
        }
    }
}

fn is_reference(ty: Ty) -> bool {
    match ty {
        Ty::Ref(_) => true,
        Ty::Array(_) => true,
        _ => false,
    }
}

/// Appends the names of these fields, with commas between.
fn put_members(into: &mut Text, program: &Program, members: &[FieldId]) {
    let mut first = true;
    for member in members {
        if !first {
            put(into, b",");
        }
        first = false;
        match program.fields().get(member.0 as usize) {
            Some(field) => put(into, field.name.as_slice()),
            None => put(into, b"none"),
        }
    }
}

fn put_field(into: &mut Text, program: &Program, field: &Field) {
    put(into, field.name.as_slice());
    put(into, b":");
    put_type(into, program, field.ty);
    if field.nullable && is_reference(field.ty) {
        put(into, b"?");
    }
    match field.constant {
        Some(value) => {
            put(into, b"=");
            let _done = put_number(into, value).is_ok();
        }
        None => {}
    }
    if field.is_model {
        put(into, b"{");
        put_members(into, program, field.members.as_slice());
        put(into, b"}");
    }
}

fn put_method(into: &mut Text, program: &Program, method: &Method) {
    put(into, method.name.as_slice());
    put(into, b"/");
    put_count(into, method.params.len());
    if method.result != Ty::Void {
        put(into, b":");
        put_type(into, program, method.result);
        if method.result_nullable {
            put(into, b"?");
        }
    }
}

/// Appends a class with its members.
fn put_class(into: &mut Text, program: &Program, class: &Class) {
    put(into, class.name.as_slice());
    put(into, b"(");
    let start = into.len();
    for id in class.fields.as_slice() {
        if into.len() > start {
            put(into, b" ");
        }
        match program.fields().get(id.0 as usize) {
            Some(field) => put_field(into, program, field),
            None => put(into, b"none"),
        }
    }
    for id in class.methods.as_slice() {
        if into.len() > start {
            put(into, b" ");
        }
        match program.methods().get(id.0 as usize) {
            Some(method) => put_method(into, program, method),
            None => put(into, b"none"),
        }
    }
    put(into, b")");
}

/// Appends the given classes with their members, in the order of their ids.
pub fn put_program(into: &mut Text, program: &Program) {
    for class in program.classes().iter().skip(7) {
        if into.len() > 0 {
            put(into, b" ");
        }
        put_class(into, program, class);
    }
}
