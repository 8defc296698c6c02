//! What names mean in a program.

ghost use Rattle.std.specs.Prelude.{◌≡◌, ◌<◌, ◌↔◌, ◌^◌, true, length, map, option_map, IfOk, IfSome};
ghost use Rattle.jesc_lookup.specs.Lines.{AreExtras};
ghost use Rattle.jesc_lookup.specs.Numbering.{IsArranged};
ghost use Rattle.jesc_tree.specs.Subtypes.{class_id};
ghost use Rattle.jesc_meanings.specs.Ids.{field_id, method_id};
ghost use Rattle.jesc_meanings.specs.Known.{AreFew, IsKnown};
ghost use Rattle.jesc_meanings.specs.Labels.{field_label, method_label};
ghost use Rattle.jesc_meanings.specs.Layered.{KnowsMembers};
ghost use Rattle.jesc_meanings.specs.Meanings.{class_named, constructor_found, field_found, field_rows, graph_of, method_found, method_rows};

use crate::constructors::constructor_rows;
use crate::label::{class_labels, field_labels, method_labels};
use crate::label_table::LabelTable;
use crate::members::Members;
use crate::row::Row;
use crate::rows::{field_rows, graph_of, method_rows, rising};
use jesc_lookup::extras;
use jesc_text::{List, OutOfMemory};
use jesc_tree::{ClassId, FieldId, MethodId, Program};
use std::alloc::Global;

/// What the names of a program mean.
#[derive(Drop)]
pub struct Names<'a> {
    pub program: &'a Program,
    classes: LabelTable<'a>,
    fields: Members<'a>,
    methods: Members<'a>,
    constructors: Vec<Row>,
    pub ghost known: { ∥ IsKnown program.now.classes program.now.fields program.now.methods classes fields methods constructors.items ∥₁ },
}

impl<'a> Names<'a> {
    /// What the names of this program mean. Answers `OutOfMemory` where there is no room for the tables.
    ///
    /// No walk here is exponential, and nothing is quadratic over a chain of classes.
    pub fn new(alloc: Global, program: &'a Program) -> Result<Names<'a>, OutOfMemory>
        ensures { IfOk result (λ names. names.program.now ≡ program.now) }
    {
        if !are_few(program) {
            return Err(OutOfMemory);
        }
        let labels = class_labels(alloc, program.classes())?;
        let classes = LabelTable::new(alloc, labels.as_slice())?;
        let graph = graph_of(alloc, program.classes())?;
        let graph = graph.as_slice();
        let order = rising(alloc, graph.len())?;
        let order = order.as_slice();
        let extras = extras(alloc, graph, order)?;
        let fields = fields_of(alloc, program, graph, order, extras.as_slice())?;
        let methods = methods_of(alloc, program, graph, order, extras.as_slice())?;
        let constructors = constructor_rows(alloc, program.classes(), program.methods())?;
        Ok(Names {
            program,
            classes,
            fields,
            methods,
            constructors,
        })
    }

    /// The first class of that name. Takes no memory.
    pub fn class(&self, name: &[u8]) -> Option<ClassId>
        ensures found { result ≡ option_map class_id (class_named self.now.program.now.classes name.now) }
        ensures inside { IfSome result (λ c. c.0 < length self.now.program.now.classes) }
    {
        match self.classes.find(name, 0) {
            Some(class) => Some(ClassId(class)),
            None => None,
        }
    }

    /// The field that the name means in the class: its own, else that of its superclass, else those of its interfaces in
    /// order. Takes no memory.
    pub fn field(&self, class: ClassId, name: &[u8]) -> Option<FieldId>
        requires { class.0 < length self.now.program.now.classes }
        ensures found { result ≡ option_map field_id (field_found self.now.program.now.classes self.now.program.now.fields name.now class.0) }
        ensures inside { IfSome result (λ f. f.0 < length self.now.program.now.fields) }
    {
        match self.fields.find(class.0, name, 0) {
            Some(field) => Some(FieldId(field)),
            None => None,
        }
    }

    /// The method that the name means in the class for so many arguments, in the same order. Takes no memory.
    pub fn method(&self, class: ClassId, name: &[u8], count: usize) -> Option<MethodId>
        requires { class.0 < length self.now.program.now.classes }
        ensures found { result ≡ option_map method_id (method_found self.now.program.now.classes self.now.program.now.methods name.now count class.0) }
        ensures inside { IfSome result (λ m. m.0 < length self.now.program.now.methods) }
    {
        match self.methods.find(class.0, name, count) {
            Some(method) => Some(MethodId(method)),
            None => None,
        }
    }

    /// The class's own constructor for so many arguments. Takes no memory.
    pub fn constructor(&self, class: ClassId, count: usize) -> Option<MethodId>
        requires { class.0 < length self.now.program.now.classes }
        ensures found { result ≡ option_map method_id (constructor_found self.now.program.now.classes self.now.program.now.methods count class.0) }
        ensures inside { IfSome result (λ m. m.0 < length self.now.program.now.methods) }
    {
        match self.constructors[class.0 as usize].get(count) {
            Some(method) => Some(MethodId(method)),
            None => None,
        }
    }
}

/// Whether numbers are enough for the classes, fields and methods of the program.
fn are_few(program: &Program) -> bool
    ensures { (result ≡ true) ↔ AreFew program.now.classes program.now.fields program.now.methods }
{
    let most = u32::MAX as usize;
    program.classes().len() <= most
        && program.fields().len() <= most
        && program.methods().len() <= most
}

/// What names of fields mean in each class.
fn fields_of<'a>(
    alloc: Global,
    program: &'a Program,
    graph: &[List<u32>],
    order: &[u32],
    extras: &[List<u32>],
) -> Result<Members<'a>, OutOfMemory>
    requires few { length program.now.fields < 2 ^ 32 }
    requires graph { graph.now ≡ graph_of program.now.classes }
    requires order { IsArranged graph.now order.now }
    requires extras { AreExtras graph.now extras.now }
    ensures { IfOk result (λ m. KnowsMembers graph.now (map field_label program.now.fields) (field_rows program.now.classes) m.table.names m.table.rows.items m.layers.versions m.layers.of.items) }
{
    let labels = field_labels(alloc, program.fields())?;
    let rows = field_rows(alloc, program.classes())?;
    Members::new(
        alloc,
        graph,
        order,
        extras,
        labels.as_slice(),
        rows.as_slice(),
    )
}

/// What names of methods mean in each class.
fn methods_of<'a>(
    alloc: Global,
    program: &'a Program,
    graph: &[List<u32>],
    order: &[u32],
    extras: &[List<u32>],
) -> Result<Members<'a>, OutOfMemory>
    requires few { length program.now.methods < 2 ^ 32 }
    requires graph { graph.now ≡ graph_of program.now.classes }
    requires order { IsArranged graph.now order.now }
    requires extras { AreExtras graph.now extras.now }
    ensures { IfOk result (λ m. KnowsMembers graph.now (map method_label program.now.methods) (method_rows program.now.classes) m.table.names m.table.rows.items m.layers.versions m.layers.of.items) }
{
    let labels = method_labels(alloc, program.methods())?;
    let rows = method_rows(alloc, program.classes())?;
    Members::new(
        alloc,
        graph,
        order,
        extras,
        labels.as_slice(),
        rows.as_slice(),
    )
}
