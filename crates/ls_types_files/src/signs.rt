// What the classes of a text declare.

ghost use Rattle.std.specs.Prelude.{◌≡◌, map, string_bytes};
ghost use Rattle.ls_types_elaboration.specs.Signs.{is_reserved, one_name, class_names, parameter_types, field_met};
ghost use Rattle.ls_types_elaboration.specs.Signs.{fields_met, method_met, constructor_met, member_met, nothing_met};
ghost use Rattle.ls_types_elaboration.specs.Signs.{class_met, one_class, class_signs};
ghost use Rattle.ls_types_elaboration.specs.Placed.{placed_name};
ghost use Rattle.ls_types_elaboration.specs.PlacedStatements.{placed_parameter, placed_declarator, placed_member};
ghost use Rattle.ls_types_elaboration.specs.PlacedStatements.{placed_class, placed_declaration};
ghost use Rattle.ls_types_tables.specs.ByName.{keys_of};
ghost use Rattle.ls_types_files.specs.SignViews.{met_of, classes_of};
ghost use Rattle.ls_types_elaboration.specs.Answers.{Gives, seen};

use indexmap::{IndexMap, IndexSet};
use ls_events::value::ValueType;
use ls_tree::tree::{Class, Declaration, Declarator, Member, Name, Parameter};
use ls_types_elaboration::known::MOST_SLOTS;
use ls_types_elaboration::rule::{Broken, CheckFault, Rule, broken_at, refused_at};
use ls_types_tables::tables::{ClassTables, MethodEntry};
use ls_types_tables::type_names::{result_of, type_of};
use std::alloc::Global;

/// The most classes of a file.
pub const MOST_CLASSES: usize = 64;

/// The most fields of a class.
pub const MOST_FIELDS: usize = 64;

/// The most methods and constructors of a file, default ones too.
pub const MOST_METHODS: usize = 512;

// What a class has declared so far, and the number of the next method or constructor.
#[derive(Drop)]
struct Met {
    fields: IndexMap<String, ValueType>,
    methods: IndexMap<String, MethodEntry>,
    constructor: Option<usize>,
    parameters: Vec<ValueType>,
    next: usize,
}

/// The classes so far, and the number of the next method or constructor.
#[derive(Drop)]
pub struct Classes {
    pub tables: Vec<ClassTables>,
    pub next: usize,
}

fn is_reserved(name: &str) -> bool
    ensures { result ≡ is_reserved name.now }
{
    name == "Integer"
        || name == "Lock"
        || name == "ReentrantLock"
        || name == "AtomicMarkableReference"
}

// One more class's name.
fn one_name(alloc: Global, names: &mut IndexSet<String>, c: &Class) -> Result<(), CheckFault>
    ensures { Gives (λ u. keys_of names.new) result (one_name (keys_of names.old) (placed_class c.now)) }
{
    let name = c.name.text.as_str();
    if is_reserved(name) {
        return Err(refused_at(Rule::ReservedClass, c.name.span));
    }
    if names.contains(name) {
        return Err(refused_at(Rule::TwiceDeclared, c.name.span));
    }
    if names.len() >= MOST_CLASSES {
        return Err(refused_at(Rule::Limit, c.name.span));
    }
    names.insert(String::from_str(alloc, name)?)?;
    Ok(())
}

/// The names of the classes, by their numbers. Refused only by a broken rule, or if memory runs out.
pub fn class_names(alloc: Global, classes: &[Class]) -> Result<IndexSet<String>, CheckFault>
    ensures { Gives keys_of result (class_names (map placed_class classes.now)) }
{
    let mut names = IndexSet::new(alloc);
    for c in classes {
        one_name(alloc, &mut names, c)?;
    }
    Ok(names)
}

// The types of parameters. There must be room for them beside `this`.
fn parameter_types(
    alloc: Global,
    names: &IndexSet<String>,
    n: &Name,
    ps: &[Parameter],
) -> Result<Vec<ValueType>, CheckFault>
    ensures { Gives (λ v. v.items) result
        (parameter_types (keys_of names.now) (placed_name n.now) (map placed_parameter ps.now)) }
{
    if ps.len() >= MOST_SLOTS {
        return Err(refused_at(Rule::Limit, n.span));
    }
    let mut types = Vec::new(alloc);
    for p in ps {
        types.push(type_of(names, &p.type_name)?)?;
    }
    Ok(types)
}

fn field_met(alloc: Global, t: ValueType, met: &mut Met, d: &Declarator) -> Result<(), CheckFault>
    ensures { Gives (λ u. met_of met.new) result (field_met t (met_of met.old) (placed_declarator d.now)) }
{
    let name = d.name.text.as_str();
    if met.fields.contains_key(name) {
        return Err(refused_at(Rule::TwiceDeclared, d.name.span));
    }
    if met.fields.len() >= MOST_FIELDS {
        return Err(refused_at(Rule::Limit, d.name.span));
    }
    met.fields.insert(String::from_str(alloc, name)?, t)?;
    Ok(())
}

fn method_met(
    alloc: Global,
    met: &mut Met,
    n: &Name,
    types: Vec<ValueType>,
    answers: Option<ValueType>,
) -> Result<(), CheckFault>
    ensures { Gives (λ u. met_of met.new) result (method_met (met_of met.old) (placed_name n.now) types.items answers) }
{
    let name = n.text.as_str();
    if met.methods.contains_key(name) {
        return Err(refused_at(Rule::TwiceDeclared, n.span));
    }
    if met.next >= MOST_METHODS {
        return Err(refused_at(Rule::Limit, n.span));
    }
    let sign = MethodEntry {
        number: met.next,
        parameters: types,
        result: answers,
    };
    met.methods.insert(String::from_str(alloc, name)?, sign)?;
    met.next += 1;
    Ok(())
}

// A constructor, which has the name of its class.
fn constructor_met(
    class: &Name,
    met: &mut Met,
    n: &Name,
    types: Vec<ValueType>,
) -> Result<(), Broken>
    ensures { seen (λ u. met_of met.new) result ≡ constructor_met (string_bytes class.now.text) (met_of met.old)
        (placed_name n.now) types.items }
{
    if n.text.as_str() != class.text.as_str() {
        return Err(broken_at(Rule::UnknownType, n.span));
    }
    if met.constructor.is_some() {
        return Err(broken_at(Rule::TwiceDeclared, n.span));
    }
    if met.next >= MOST_METHODS {
        return Err(broken_at(Rule::Limit, n.span));
    }
    met.constructor = Some(met.next);
    met.parameters = types;
    met.next += 1;
    Ok(())
}

fn fields_met(
    alloc: Global,
    names: &IndexSet<String>,
    met: &mut Met,
    d: &Declaration,
) -> Result<(), CheckFault>
    ensures { Gives (λ u. met_of met.new) result
        (fields_met (keys_of names.now) (met_of met.old) (placed_declaration d.now)) }
{
    let t = type_of(names, &d.type_name)?;
    field_met(alloc, t, met, &d.first)?;
    for d in &d.more {
        field_met(alloc, t, met, d)?;
    }
    Ok(())
}

fn member_met(
    alloc: Global,
    names: &IndexSet<String>,
    class: &Name,
    met: &mut Met,
    m: &Member,
) -> Result<(), CheckFault>
    ensures { Gives (λ u. met_of met.new) result
        (member_met (keys_of names.now) (string_bytes class.now.text) (met_of met.old) (placed_member m.now)) }
{
    match m {
        Member::Field(d) => fields_met(alloc, names, met, d),
        Member::Method(m) => {
            let answers = result_of(names, &m.result)?;
            let types = parameter_types(alloc, names, &m.name, &m.parameters)?;
            method_met(alloc, met, &m.name, types, answers)
        }
        Member::Constructor(c) => {
            let types = parameter_types(alloc, names, &c.name, &c.parameters)?;
            constructor_met(class, met, &c.name, types)?;
            Ok(())
        }
    }
}

// A class of which all is read, after those before it.
fn class_met(alloc: Global, classes: &mut Classes, n: &Name, met: Met) -> Result<(), CheckFault>
    ensures { Gives (λ u. classes_of classes.new) result
        (class_met (classes_of classes.old) (placed_name n.now) (met_of met) met.constructor) }
{
    let Met {
        fields,
        methods,
        constructor,
        parameters,
        next,
    } = met;
    match constructor {
        Some(constructor) => {
            classes.tables.push(ClassTables {
                fields,
                methods,
                constructor,
                parameters,
            })?;
            classes.next = next;
            Ok(())
        }
        None => {
            if next >= MOST_METHODS {
                return Err(refused_at(Rule::Limit, n.span));
            }
            classes.tables.push(ClassTables {
                fields,
                methods,
                constructor: next,
                parameters: Vec::new(alloc),
            })?;
            classes.next = next + 1;
            Ok(())
        }
    }
}

fn nothing_met(alloc: Global, next: usize) -> Met
    ensures { met_of result ≡ nothing_met next }
{
    Met {
        fields: IndexMap::new(alloc),
        methods: IndexMap::new(alloc),
        constructor: None,
        parameters: Vec::new(alloc),
        next,
    }
}

fn one_class(
    alloc: Global,
    names: &IndexSet<String>,
    classes: &mut Classes,
    c: &Class,
) -> Result<(), CheckFault>
    ensures { Gives (λ u. classes_of classes.new) result
        (one_class (keys_of names.now) (classes_of classes.old) (placed_class c.now)) }
{
    let mut met = nothing_met(alloc, classes.next);
    for m in &c.members {
        member_met(alloc, names, &c.name, &mut met, m)?;
    }
    class_met(alloc, classes, &c.name, met)
}

/// What the classes declare. Refused only by a broken rule, or if memory runs out.
pub fn class_tables(
    alloc: Global,
    names: &IndexSet<String>,
    all: &[Class],
) -> Result<Classes, CheckFault>
    ensures { Gives classes_of result (class_signs (keys_of names.now) (map placed_class all.now)) }
{
    let mut classes = Classes {
        tables: Vec::new(alloc),
        next: 0,
    };
    for c in all {
        one_class(alloc, names, &mut classes, c)?;
    }
    Ok(classes)
}
