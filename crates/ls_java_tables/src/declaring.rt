// The members of the classes: fields, methods and constructors.

use crate::collecting::{flags_of, unless_refused};
use crate::constants::{fold, may_be_constant};
use crate::finding::field_in;
use crate::halves::{kind_by_value, own_name};
use crate::kept::{Kept, keep};
use crate::remarks::{Stop, What};
use crate::restater::{Restater, fresh, is_named, name_of, note, note_word};
use crate::scanning::is_made;
use crate::tables::{Condition, Constructor, Field, Method, VariableRun};
use crate::types::{Site, kind_at, kind_of};
use crate::values::{Constant, Kind};
use crate::words::WordId;
use ls_java_tree::declarations::{
    Constructor as ConstructorTree, Member, Method as MethodTree, TypeDeclaration,
};
use ls_java_tree::expressions::{Expression, ExpressionKind, Parameter};
use ls_java_tree::names::Name;
use ls_java_tree::statements::{Block, Declaration, Declarator, Statement, StatementKind};
use ls_java_tree::types::TypeParameter;
use std::slice;

// The kind of a field. If it is refused, so is the name.
fn field_kind(
    restater: &mut Restater,
    class: usize,
    tree: &Declaration,
    declarator: &Declarator,
) -> Result<Kind, Stop> {
    let site = Site {
        class,
        variables: VariableRun::NONE,
    };
    let kind = kind_at(restater, site, &tree.type_name, declarator.brackets);
    if kind == Err(Stop::Refused) {
        let name = name_of(restater, &declarator.name);
        restater.tables.broken.push(name)?;
    }
    restater.place.class = class;
    Ok(kind_by_value(restater, kind?, declarator.value.as_ref()))
}

// The lock whose `newCondition()` an expression is.
fn lock_of(expression: &Expression) -> Option<&Expression> {
    match &expression.kind {
        ExpressionKind::Call {
            target: Some(target),
            name,
            ..
        } if is_named(name, "newCondition") => Some(target),
        ExpressionKind::Paren(inner) => lock_of(inner),
        _ => None,
    }
}

// A field or a constructor gives a name a value: if that is a condition, it goes into the table.
fn add_condition<'a>(
    restater: &mut Restater,
    kept: &mut Kept<'a>,
    class: usize,
    name: WordId,
    value: &'a Expression,
) -> Result<(), Stop> {
    if let Some(lock) = lock_of(value) {
        let lock = keep(kept, slice::from_ref(lock))?;
        restater
            .tables
            .conditions
            .push(Condition { class, name, lock })?;
    }
    Ok(())
}

// One field. Its value goes to the end of those of all fields.
fn add_field<'a>(
    restater: &mut Restater,
    kept: &mut Kept<'a>,
    class: usize,
    tree: &Declaration,
    declarator: &'a Declarator,
) -> Result<(), Stop> {
    let kind = field_kind(restater, class, tree, declarator)?;
    let name = name_of(restater, &declarator.name);
    let found = flags_of(&tree.modifiers);
    restater.tables.fields.push(Field {
        class,
        token: declarator.name.token,
        name,
        has_value: declarator.value.is_some(),
        is_static: found.is_static,
        is_final: found.is_final,
        kind,
        constant: None,
    })?;
    kept.values.push(declarator.value.as_ref())?;
    match &declarator.value {
        Some(value) => add_condition(restater, kept, class, name, value),
        None => Ok(()),
    }
}

// The fields of a declaration.
fn add_fields<'a>(
    restater: &mut Restater,
    kept: &mut Kept<'a>,
    class: usize,
    tree: &'a Declaration,
) -> Result<(), Stop> {
    for declarator in &tree.declarators {
        unless_refused(add_field(restater, kept, class, tree, declarator))?;
    }
    Ok(())
}

// The type parameters of a method or a constructor go into the table.
fn add_variables(
    restater: &mut Restater,
    parameters: &[TypeParameter],
) -> Result<VariableRun, Stop> {
    let first = restater.tables.type_variables.len();
    for parameter in parameters {
        let name = name_of(restater, &parameter.name);
        restater.tables.type_variables.push(name)?;
    }
    let end = restater.tables.type_variables.len();
    Ok(VariableRun { first, end })
}

// The kinds of parameters.
fn parameter_kinds(
    restater: &mut Restater,
    site: Site,
    parameters: &[Parameter],
) -> Result<Vec<Kind>, Stop> {
    let mut kinds = Vec::new(restater.alloc);
    for parameter in parameters {
        let kind = match &parameter.type_name {
            Some(written) => kind_of(restater, site, written)?,
            None => Kind::Item,
        };
        kinds.push(kind)?;
    }
    Ok(kinds)
}

// The name that a method gets: its own, if it is the first of the class.
fn method_name(restater: &mut Restater, class: usize, tree: &MethodTree) -> Result<WordId, Stop> {
    let name = name_of(restater, &tree.name);
    let mut number: usize = 1;
    for method in &restater.tables.methods {
        if method.class == class && method.name == name {
            number = number.saturating_add(1);
        }
    }
    if number == 1 {
        return Ok(name);
    }
    let base = format!(in restater.alloc; "{}{number}", tree.name.text.as_str())?;
    let out = fresh(restater, base.as_str())?;
    note_word(restater, tree.name.token, out, What::MethodRenamed)?;
    Ok(out)
}

// Whether a method is `static void main(String[] args)`, or the like.
fn is_main(tree: &MethodTree) -> bool {
    is_named(&tree.name, "main") && flags_of(&tree.modifiers).is_static
}

/// Whether a method is left out: `toString()`.
pub fn is_left_out(tree: &MethodTree) -> bool {
    is_named(&tree.name, "toString") && tree.parameters.is_empty()
}

// The kinds of a method's parameters and of what it gives.
fn signature(
    restater: &mut Restater,
    site: Site,
    tree: &MethodTree,
) -> Result<(Vec<Kind>, Kind), Stop> {
    if is_main(tree) {
        return Ok((Vec::new(restater.alloc), Kind::Void));
    }
    let parameters = parameter_kinds(restater, site, &tree.parameters)?;
    let result = kind_of(restater, site, &tree.result)?;
    Ok((parameters, result))
}

// A method goes into the table.
fn add_method(restater: &mut Restater, class: usize, tree: &MethodTree) -> Result<(), Stop> {
    let name = name_of(restater, &tree.name);
    if is_left_out(tree) {
        return note(restater, tree.name.token, What::MethodLeftOut);
    }
    let variables = add_variables(restater, &tree.type_parameters)?;
    let kinds = signature(restater, Site { class, variables }, tree);
    if kinds.is_err() {
        restater.tables.broken.push(name)?;
    }
    let (parameters, result) = kinds?;
    let out = method_name(restater, class, tree)?;
    let number = restater.tables.methods.len();
    let me = if restater.facts.numbered.contains(&number) {
        Some(restater.added.me)
    } else {
        None
    };
    let found = flags_of(&tree.modifiers);
    restater.tables.methods.push(Method {
        class,
        token: tree.name.token,
        name,
        out,
        type_variables: variables,
        is_static: found.is_static,
        is_synchronized: found.is_synchronized,
        parameters,
        result,
        me,
        is_main: is_main(tree),
    })?;
    Ok(())
}

/// The arguments of the `this(..)` that a body is, if it is nothing else.
pub fn delegate_of(body: &Block) -> Option<&[Expression]> {
    if body.statements.len() != 1 {
        return None;
    }
    match &body.statements.first()?.kind {
        StatementKind::Expression(expression) => match &expression.kind {
            ExpressionKind::ConstructorCall {
                of_super: false,
                arguments,
            } => Some(arguments),
            _ => None,
        },
        _ => None,
    }
}

// What a constructor gives to a field: the name of `name` or `this.name`, and the value.
fn given(statement: &Statement) -> Option<(&Name, &Expression)> {
    let StatementKind::Expression(expression) = &statement.kind else {
        return None;
    };
    match &expression.kind {
        ExpressionKind::Assign { target, value, .. } => Some((own_name(target)?, value)),
        _ => None,
    }
}

// A field that a constructor gives a lock of a ReadWriteLock is that lock.
fn see_half(restater: &mut Restater, class: usize, name: WordId, value: &Expression) {
    let Some(number) = field_in(restater, class, name) else {
        return;
    };
    let Some(field) = restater.tables.fields.get(number).copied() else {
        return;
    };
    restater.place.class = class;
    let kind = kind_by_value(restater, field.kind, Some(value));
    if let Some(field) = restater.tables.fields.get_mut(number) {
        field.kind = kind;
    }
}

// The conditions that a constructor makes, and the locks of a ReadWriteLock that it keeps.
fn add_given<'a>(
    restater: &mut Restater,
    kept: &mut Kept<'a>,
    class: usize,
    body: &'a Block,
) -> Result<(), Stop> {
    for statement in &body.statements {
        let Some((name, value)) = given(statement) else {
            continue;
        };
        let name = name_of(restater, name);
        see_half(restater, class, name, value);
        add_condition(restater, kept, class, name, value)?;
    }
    Ok(())
}

// The names of parameters.
fn parameter_names(restater: &Restater, parameters: &[Parameter]) -> Result<Vec<WordId>, Stop> {
    let mut names = Vec::new(restater.alloc);
    for parameter in parameters {
        names.push(name_of(restater, &parameter.name))?;
    }
    Ok(names)
}

// A constructor goes into the table.
fn add_constructor<'a>(
    restater: &mut Restater,
    kept: &mut Kept<'a>,
    class: usize,
    tree: &'a ConstructorTree,
) -> Result<(), Stop> {
    let variables = add_variables(restater, &tree.type_parameters)?;
    let parameters = parameter_kinds(restater, Site { class, variables }, &tree.parameters)?;
    let out = name_of(restater, &tree.name);
    let names = parameter_names(restater, &tree.parameters)?;
    add_given(restater, kept, class, &tree.body)?;
    let delegate = match delegate_of(&tree.body) {
        Some(arguments) => Some(keep(kept, arguments)?),
        None => None,
    };
    restater.tables.constructors.push(Constructor {
        class,
        token: tree.name.token,
        out,
        type_variables: variables,
        names,
        parameters,
        delegate,
    })?;
    Ok(())
}

/// The fields of a class. Their values go to the end of those of all fields.
pub fn declare_fields<'a>(
    restater: &mut Restater,
    kept: &mut Kept<'a>,
    class: usize,
    tree: &'a TypeDeclaration,
) -> Result<(), Stop> {
    for member in &tree.members {
        if let Member::Field(field) = member {
            add_fields(restater, kept, class, field)?;
        }
    }
    Ok(())
}

/// The methods and constructors of a class.
pub fn declare_methods<'a>(
    restater: &mut Restater,
    kept: &mut Kept<'a>,
    class: usize,
    tree: &'a TypeDeclaration,
) -> Result<(), Stop> {
    for member in &tree.members {
        let done = match member {
            Member::Method(method) => add_method(restater, class, method),
            Member::Constructor(constructor) => add_constructor(restater, kept, class, constructor),
            _ => Ok(()),
        };
        unless_refused(done)?;
    }
    Ok(())
}

// The constant that a field is, as far as the constants are known that it names.
fn field_constant(
    restater: &mut Restater,
    number: usize,
    value: Option<&Expression>,
) -> Option<Constant> {
    let field = restater.tables.fields.get(number).copied()?;
    if field.constant.is_some() || !may_be_constant(&field) {
        return None;
    }
    restater.place.class = field.class;
    let constant = fold(restater, value?)?;
    match (constant, field.kind) {
        (Constant::Int(_), Kind::Int) | (Constant::Boolean(_), Kind::Boolean) => Some(constant),
        _ => None,
    }
}

// All fields, once. The answer is whether one more is known to be a constant.
fn more_constants(restater: &mut Restater, values: &[Option<&Expression>]) -> bool {
    let mut more = false;
    for (number, value) in values.iter().enumerate() {
        if let Some(constant) = field_constant(restater, number, *value) {
            if let Some(field) = restater.tables.fields.get_mut(number) {
                field.constant = Some(constant);
                more = true;
            }
        }
    }
    more
}

/// Which fields are constants (JLS 15.28), by their values where they are declared.
pub fn find_constants(restater: &mut Restater, values: &[Option<&Expression>]) {
    for _ in 0..=values.len() {
        if !more_constants(restater, values) {
            break;
        }
    }
}

// Whether a class has a static field that isn't a constant.
fn has_static_state(restater: &Restater, class: usize) -> bool {
    for field in &restater.tables.fields {
        if field.class == class && field.is_static && field.constant.is_none() {
            return true;
        }
    }
    false
}

/// Which classes are split: they have a static field that isn't a constant, and objects of them are made.
pub fn find_split(restater: &mut Restater, class: usize) -> Result<(), Stop> {
    let Some(known) = restater.tables.classes.get(class) else {
        return Ok(());
    };
    let name = known.name;
    let token = known.token;
    if !has_static_state(restater, class) {
        return Ok(());
    }
    if !is_made(restater, name) {
        return note_word(restater, token, name, What::StaticMembers);
    }
    let base = format!(in restater.alloc; "{}Object", restater.words.text(name))?;
    let out = fresh(restater, base.as_str())?;
    if let Some(known) = restater.tables.classes.get_mut(class) {
        known.is_split = true;
        known.out = out;
    }
    note_word(restater, token, out, What::Split)
}

// The constructors of a class get names of methods.
fn name_constructors(restater: &mut Restater, class: usize) -> Result<(), Stop> {
    for number in 0..restater.tables.constructors.len() {
        let Some(constructor) = restater.tables.constructors.get(number) else {
            break;
        };
        if constructor.class != class {
            continue;
        }
        let token = constructor.token;
        let out = fresh(restater, "make")?;
        if let Some(constructor) = restater.tables.constructors.get_mut(number) {
            constructor.out = out;
        }
        note_word(restater, token, out, What::ConstructorMethod)?;
    }
    Ok(())
}

/// Which constructors a class has: one, others that only call it, or several.
pub fn find_constructors(restater: &mut Restater, class: usize) -> Result<(), Stop> {
    let mut real: usize = 0;
    for one in &restater.tables.constructors {
        if one.class == class && one.delegate.is_none() {
            real = real.saturating_add(1);
        }
    }
    if real < 2 {
        return Ok(());
    }
    if let Some(known) = restater.tables.classes.get_mut(class) {
        known.several_constructors = true;
    }
    name_constructors(restater, class)
}
