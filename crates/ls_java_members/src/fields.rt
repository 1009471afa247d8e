// Fields and initialisers (JLS 8.3, 8.6, 12.5).

use crate::places::{Trees, enter_member, keep_unless_refused, say_modifiers};
use ls_java_expressions::expressions::{EXPRESSION_LIMIT, expression_as};
use ls_java_expressions::writing::emit;
use ls_java_statements::bodies::body;
use ls_java_tables::collecting::flags_of;
use ls_java_tables::finding::is_split;
use ls_java_tables::kept::Depth;
use ls_java_tables::needs::{Helper, helper_class};
use ls_java_tables::remarks::{Stop, What};
use ls_java_tables::restater::{Restater, note_word};
use ls_java_tables::ropes::Text;
use ls_java_tables::spelling::{append, say, say_word, word};
use ls_java_tables::tables::Field;
use ls_java_tables::types::type_text;
use ls_java_tables::values::{Kind, Value};
use ls_java_tree::declarations::{Initializer, Member, TypeDeclaration};
use ls_java_tree::expressions::Expression;
use ls_java_tree::statements::Declaration;

/// What is written of a class's fields: their declarations, and what goes to the head of the constructor. Once one
/// initialiser goes there, all later ones do.
#[derive(Clone, Copy)]
pub(crate) struct Fields {
    pub declared: Text,
    pub late: Text,
    pub moved: bool,
}

// The field that a name at a token declares.
fn field_at(restater: &Restater, token: usize) -> Option<Field> {
    restater
        .tables
        .fields
        .iter()
        .find(|field| field.token == token)
        .copied()
}

// A field that isn't written: a constant, or chance.
fn why_left_out(field: &Field) -> Option<What> {
    if field.constant.is_some() {
        return Some(What::ConstantInPlace);
    }
    match field.kind {
        Kind::Random => Some(What::FieldLeftOut),
        _ => None,
    }
}

// The declaration of a field, with a value or without.
fn say_field(
    restater: &mut Restater,
    out: &mut Text,
    tree: &Declaration,
    field: &Field,
    value: Option<Value>,
) -> Result<(), Stop> {
    say_modifiers(restater, out, &tree.modifiers, "")?;
    let text = type_text(restater, field.kind, tree.type_name.span.first)?;
    append(restater, out, text)?;
    say_word(restater, out, field.name, field.token)?;
    if let Some(value) = value {
        say(restater, out, "=", field.token.saturating_add(1))?;
        append(restater, out, value.text)?;
    }
    say(restater, out, ";", tree.span.last)
}

// A field with its value: where it is declared, or in the constructor if an earlier initialiser is there or the value
// needs statements.
fn valued_field<'a>(
    restater: &mut Restater,
    trees: Trees<'a>,
    fields: &mut Fields,
    tree: &Declaration,
    value: Option<&'a Expression>,
    field: &Field,
) -> Result<(), Stop> {
    let Some(value) = value else {
        return say_field(restater, &mut fields.declared, tree, field, None);
    };
    let mut before = Text::EMPTY;
    let depth = Depth {
        lists: trees.lists,
        left: EXPRESSION_LIMIT,
    };
    let value = expression_as(restater, &mut before, value, field.kind, depth)?;
    if before == Text::EMPTY && !fields.moved {
        return say_field(restater, &mut fields.declared, tree, field, Some(value));
    }
    say_field(restater, &mut fields.declared, tree, field, None)?;
    fields.moved = true;
    append(restater, &mut fields.late, before)?;
    let name = word(restater, field.name, field.token)?;
    emit(
        restater,
        &mut fields.late,
        field.token,
        "# = # ;",
        &[name, value.text],
    )
}

// A condition: an object that counts who waits. It is made where the field is declared, with its lock or without.
fn condition(
    restater: &mut Restater,
    out: &mut Text,
    tree: &Declaration,
    field: &Field,
) -> Result<(), Stop> {
    let at = tree.type_name.span.first;
    let token = field.token;
    say_modifiers(restater, out, &tree.modifiers, "")?;
    let class = helper_class(restater, Helper::Condition)?;
    let written = word(restater, class, at)?;
    append(restater, out, written)?;
    say_word(restater, out, field.name, token)?;
    let made = word(restater, class, token)?;
    emit(restater, out, token, "= new # ( )", &[made])?;
    say(restater, out, ";", tree.span.last)
}

// One field of a declaration.
fn field<'a>(
    restater: &mut Restater,
    trees: Trees<'a>,
    fields: &mut Fields,
    tree: &Declaration,
    value: Option<&'a Expression>,
    field: &Field,
) -> Result<(), Stop> {
    if let Some(what) = why_left_out(field) {
        return note_word(restater, field.token, field.name, what);
    }
    if field.kind == Kind::Condition {
        return condition(restater, &mut fields.declared, tree, field);
    }
    enter_member(restater, field.class, field.is_static)?;
    valued_field(restater, trees, fields, tree, value, field)
}

// The fields of a declaration.
fn declared<'a>(
    restater: &mut Restater,
    trees: Trees<'a>,
    fields: &mut Fields,
    tree: &'a Declaration,
) -> Result<(), Stop> {
    for declarator in &tree.declarators {
        let Some(one) = field_at(restater, declarator.name.token) else {
            continue;
        };
        let before = *fields;
        let done = field(
            restater,
            trees,
            fields,
            tree,
            declarator.value.as_ref(),
            &one,
        );
        let mut declared = fields.declared;
        keep_unless_refused(done, &mut declared, before.declared)?;
        fields.declared = declared;
    }
    Ok(())
}

// An initialiser goes to the head of the constructor.
fn initialiser<'a>(
    restater: &mut Restater,
    trees: Trees<'a>,
    fields: &mut Fields,
    class: usize,
    tree: &'a Initializer,
) -> Result<(), Stop> {
    enter_member(restater, class, tree.of_static)?;
    fields.moved = true;
    say(restater, &mut fields.late, "{", tree.body.span.first)?;
    body(restater, &mut fields.late, &tree.body, trees.lists)?;
    say(restater, &mut fields.late, "}", tree.body.span.last)
}

/// The fields and initialisers of a class; where it is split, of its static part or of its objects. If objects are
/// handed others, all initialisers go to the constructor.
pub(crate) fn all_fields<'a>(
    restater: &mut Restater,
    trees: Trees<'a>,
    tree: &'a TypeDeclaration,
    class: usize,
    is_static: bool,
    is_handed: bool,
) -> Result<Fields, Stop> {
    let mut fields = Fields {
        declared: Text::EMPTY,
        late: Text::EMPTY,
        moved: is_handed,
    };
    let split = is_split(restater, class);
    for member in &tree.members {
        match member {
            Member::Field(one) if !split || flags_of(&one.modifiers).is_static == is_static => {
                declared(restater, trees, &mut fields, one)?;
            }
            Member::Initializer(one) if !split || one.of_static == is_static => {
                let before = fields.late;
                let done = initialiser(restater, trees, &mut fields, class, one);
                let mut late = fields.late;
                keep_unless_refused(done, &mut late, before)?;
                fields.late = late;
            }
            _ => {}
        }
    }
    Ok(fields)
}
