// What is known of a file before its members are restated.

use crate::collecting::{collect, find_interfaces, unless_refused};
use crate::declaring::{
    declare_fields, declare_methods, find_constants, find_constructors, find_split,
};
use crate::generics::find_parameters;
use crate::kept::{Kept, find_returned};
use crate::needs::Needs;
use crate::remarks::Stop;
use crate::restater::{Added, Facts, Place, Restater, fresh};
use crate::ropes::Ropes;
use crate::shapes::shapes_of;
use crate::tables::Tables;
use crate::values::Kind;
use crate::words::Words;
use ls_java_lexer::token::{Token, TokenKind};
use ls_java_tree::declarations::{File, TypeDeclaration};
use ls_lexer::sign::Sign;
use ls_lexer::word::Word;
use std::alloc::Global;

/// Nothing is found yet.
pub fn no_facts(alloc: Global) -> Facts {
    Facts {
        waiters: Vec::new(alloc),
        boolean_lengths: false,
        numbered: Vec::new(alloc),
        handed_outer: Vec::new(alloc),
        handed_statics: Vec::new(alloc),
        again: false,
    }
}

fn no_tables(alloc: Global) -> Tables {
    Tables {
        classes: Vec::new(alloc),
        fields: Vec::new(alloc),
        methods: Vec::new(alloc),
        constructors: Vec::new(alloc),
        type_variables: Vec::new(alloc),
        interfaces: Vec::new(alloc),
        enums: Vec::new(alloc),
        conditions: Vec::new(alloc),
        returned: Vec::new(alloc),
        gone: Vec::new(alloc),
        broken: Vec::new(alloc),
        has_keys: false,
    }
}

fn no_needs(alloc: Global) -> Needs {
    Needs {
        helpers: Vec::new(alloc),
        arrays: Vec::new(alloc),
        used: Vec::new(alloc),
        box_name: None,
        greatest_length: 0,
        lengths_are_constant: true,
    }
}

/// Outside of all members.
pub fn no_place(class: usize) -> Place {
    Place {
        class,
        method: None,
        constructor: None,
        is_static: false,
        result: Kind::Void,
        wanted: None,
        label: None,
    }
}

// Nothing is known yet but the words.
fn empty(alloc: Global, tokens: &[Token], facts: Facts) -> Result<Restater, Stop> {
    Ok(Restater {
        alloc,
        shapes: shapes_of(alloc, tokens)?,
        words: Words::of_tokens(alloc, tokens)?,
        ropes: Ropes::new(alloc)?,
        tables: no_tables(alloc),
        facts,
        needs: no_needs(alloc),
        added: Added {
            outer: Words::NONE,
            statics: Words::NONE,
            monitor: Words::NONE,
            waiters: Words::NONE,
            me: Words::NONE,
        },
        notes: Vec::new(alloc),
        refusals: Vec::new(alloc),
        locals: Vec::new(alloc),
        around: Vec::new(alloc),
        place: no_place(0),
    })
}

// Whether the file says `new Object()`.
fn has_keys(tokens: &[Token]) -> bool {
    tokens.windows(3).any(|three| {
        matches!(three, [first, second, third]
            if matches!(first.kind, TokenKind::Word(Word::New))
            && matches!(second.kind, TokenKind::Name("Object"))
            && matches!(third.kind, TokenKind::Sign(Sign::OpenParen)))
    })
}

// The names of what is added.
fn name_added(restater: &mut Restater) -> Result<(), Stop> {
    restater.added = Added {
        outer: fresh(restater, "outer")?,
        statics: fresh(restater, "statics")?,
        monitor: fresh(restater, "monitor")?,
        waiters: fresh(restater, "waiters")?,
        me: fresh(restater, "me")?,
    };
    Ok(())
}

// What the members of the classes declare. The trees of the classes are by their numbers.
fn fill_members<'a>(
    restater: &mut Restater,
    kept: &mut Kept<'a>,
    classes: &[&'a TypeDeclaration],
) -> Result<(), Stop> {
    for (class, tree) in classes.iter().enumerate() {
        declare_fields(restater, kept, class, *tree)?;
    }
    find_constants(restater, &kept.values);
    for (class, tree) in classes.iter().enumerate() {
        find_split(restater, class)?;
        declare_methods(restater, kept, class, *tree)?;
        find_constructors(restater, class)?;
    }
    Ok(())
}

// What the classes declare.
fn fill<'a>(restater: &mut Restater, kept: &mut Kept<'a>, file: &'a File) -> Result<(), Stop> {
    name_added(restater)?;
    find_returned(restater, kept, &file.bodies)?;
    let mut classes = Vec::new(restater.alloc);
    for tree in &file.types {
        collect(restater, &mut classes, tree, None)?;
    }
    find_interfaces(restater)?;
    unless_refused(find_parameters(restater))?;
    fill_members(restater, kept, &classes)
}

/// What is known of a file before its members are restated, with the expressions that are kept.
#[derive(Drop)]
pub struct Begun<'a> {
    pub restater: Restater,
    pub kept: Kept<'a>,
}

/// What is known of a file before its members are restated, with the facts that were found before.
pub fn begin<'a>(
    alloc: Global,
    file: &'a File,
    tokens: &[Token],
    facts: Facts,
) -> Result<Begun<'a>, Stop> {
    let mut restater = empty(alloc, tokens, facts)?;
    let mut kept = Kept {
        lists: Vec::new(alloc),
        values: Vec::new(alloc),
    };
    restater.tables.has_keys = has_keys(tokens);
    fill(&mut restater, &mut kept, file)?;
    restater.place = no_place(0);
    Ok(Begun { restater, kept })
}
