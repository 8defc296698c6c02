ghost use Rattle.std.specs.Prelude.{◌≡◌, IfOk};

use super::spec::{copy_cases, copy_specs};
use super::stmt::copy_stmts;
use super::{copy_ids, copy_text};
use crate::class::{Class, Field, Init, Method, Param};
use crate::expr::TExpr;
use crate::ids::FieldId;
use jesc_text::{List, OutOfMemory};
use std::alloc::Global;

impl Class {
    /// An equal class.
    pub fn copy(&self, alloc: Global) -> Result<Class, OutOfMemory>
        ensures { IfOk result (λ copy. copy ≡ self.now) }
    {
        let name = copy_text(alloc, &self.name)?;
        let interfaces = copy_ids(alloc, &self.interfaces)?;
        let fields = copy_ids(alloc, &self.fields)?;
        let methods = copy_ids(alloc, &self.methods)?;
        let invariants = copy_specs(alloc, &self.invariants)?;
        let represents = copy_represents(alloc, &self.represents)?;
        Ok(Class {
            name,
            place: self.place,
            parent: self.parent,
            interfaces,
            is_interface: self.is_interface,
            is_abstract: self.is_abstract,
            fields,
            methods,
            invariants,
            represents,
        })
    }
}

fn copy_represents(
    alloc: Global,
    list: &List<(FieldId, TExpr)>,
) -> Result<List<(FieldId, TExpr)>, OutOfMemory>
    ensures { IfOk result (λ copy. copy ≡ list.now) }
{
    let mut copies = List::new(alloc);
    for pair in list.as_slice() {
        let e = pair.1.copy(alloc)?;
        copies.push((pair.0, e))?;
    }
    Ok(copies)
}

impl Field {
    /// An equal field.
    pub fn copy(&self, alloc: Global) -> Result<Field, OutOfMemory>
        ensures { IfOk result (λ copy. copy ≡ self.now) }
    {
        let name = copy_text(alloc, &self.name)?;
        let init = match &self.init {
            None => None,
            Some(init) => Some(copy_init(alloc, init)?),
        };
        let members = copy_ids(alloc, &self.members)?;
        Ok(Field {
            name,
            place: self.place,
            owner: self.owner,
            ty: self.ty,
            nullable: self.nullable,
            is_final: self.is_final,
            is_ghost: self.is_ghost,
            is_model: self.is_model,
            constant: self.constant,
            init,
            members,
        })
    }
}

fn copy_init(alloc: Global, init: &Init) -> Result<Init, OutOfMemory>
    ensures { IfOk result (λ copy. copy ≡ init.now) }
{
    let prelude = copy_stmts(alloc, &init.prelude)?;
    let value = init.value.copy(alloc)?;
    Ok(Init {
        prelude,
        word: init.word,
        equals: init.equals,
        value,
    })
}

fn copy_params(alloc: Global, list: &List<Param>) -> Result<List<Param>, OutOfMemory>
    ensures { IfOk result (λ copy. copy ≡ list.now) }
{
    let mut copies = List::new(alloc);
    for param in list.as_slice() {
        let name = copy_text(alloc, &param.name)?;
        copies.push(Param {
            name,
            ty: param.ty,
            nullable: param.nullable,
        })?;
    }
    Ok(copies)
}

impl Method {
    /// An equal method.
    pub fn copy(&self, alloc: Global) -> Result<Method, OutOfMemory>
        ensures { IfOk result (λ copy. copy ≡ self.now) }
    {
        let name = copy_text(alloc, &self.name)?;
        let params = copy_params(alloc, &self.params)?;
        let throws = copy_ids(alloc, &self.throws)?;
        let cases = copy_cases(alloc, &self.cases)?;
        let body = match &self.body {
            None => None,
            Some(body) => Some(body.copy(alloc)?),
        };
        Ok(Method {
            name,
            place: self.place,
            owner: self.owner,
            params,
            result: self.result,
            result_nullable: self.result_nullable,
            is_static: self.is_static,
            is_private: self.is_private,
            is_abstract: self.is_abstract,
            is_constructor: self.is_constructor,
            is_pure: self.is_pure,
            is_helper: self.is_helper,
            throws,
            cases,
            body,
        })
    }
}
