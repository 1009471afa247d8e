// Classes that stand for arrays: an element is a field. What is longer than a class has fields is a chain of objects.

use crate::patterns::{NO_TOKEN, Names, fill};
use ls_java_tables::remarks::Stop;
use ls_java_tables::restater::Restater;
use ls_java_tables::ropes::Text;
use ls_java_tables::spelling::{append, number};

/// The most fields of a class that stands for arrays whose lengths are all constants.
const MOST_FIELDS: u32 = 16;

/// How many fields a class has that stands for arrays of other lengths.
const CHAIN_FIELDS: u32 = 8;

const FIELDS: [&str; 16] = [
    "e0", "e1", "e2", "e3", "e4", "e5", "e6", "e7", "e8", "e9", "e10", "e11", "e12", "e13", "e14",
    "e15",
];

// What an index traps with that isn't below the length (JLS 10.4), and a length below 0 (JLS 15.10.1).
const OUT_OF_BOUNDS: &str = "if ( i < 0 || i >= length ) { \
    boolean [ ] none = new boolean [ 0 ] ; none [ 0 ] = true ; }";

const NEGATIVE: &str = "if ( n < 0 ) { boolean [ ] none = new boolean [ n ] ; }";

/// How many fields a class for arrays has, whether it is a chain, and what each element begins with, if it isn't the
/// default value (JLS 4.12.5).
#[derive(Clone, Copy)]
pub struct Shape {
    pub fields: u32,
    pub chained: bool,
    pub first: Option<&'static str>,
}

/// The shape of the classes for arrays, by the greatest length that is a constant and whether all are.
pub fn shape_of(greatest: u32, constant: bool, first: Option<&'static str>) -> Shape {
    if constant && greatest > 0 && greatest <= MOST_FIELDS {
        return Shape {
            fields: greatest,
            chained: false,
            first,
        };
    }
    Shape {
        fields: CHAIN_FIELDS,
        chained: true,
        first,
    }
}

fn field(number: u32) -> &'static str {
    match FIELDS.get(number as usize) {
        Some(name) => *name,
        None => "e0",
    }
}

fn write_number(restater: &mut Restater, out: &mut Text, value: u32) -> Result<(), Stop> {
    let digits = number(restater, value, NO_TOKEN)?;
    append(restater, out, digits)
}

// The fields.
fn fields(restater: &mut Restater, out: &mut Text, names: Names, shape: Shape) -> Result<(), Stop> {
    fill(restater, out, "class $ { int length ;", names)?;
    for number in 0..shape.fields {
        fill(restater, out, if number == 0 { "@" } else { "," }, names)?;
        fill(restater, out, field(number), names)?;
    }
    fill(restater, out, ";", names)?;
    if shape.chained {
        fill(restater, out, "$ more ;", names)?;
    }
    Ok(())
}

// The constructor with a length.
fn constructor(
    restater: &mut Restater,
    out: &mut Text,
    names: Names,
    shape: Shape,
) -> Result<(), Stop> {
    fill(restater, out, "$ ( int n ) {", names)?;
    fill(restater, out, NEGATIVE, names)?;
    fill(restater, out, "length = n ;", names)?;
    if let Some(first) = shape.first {
        for number in 0..shape.fields {
            fill(restater, out, field(number), names)?;
            fill(restater, out, first, names)?;
        }
    }
    if shape.chained {
        fill(restater, out, "if ( n >", names)?;
        write_number(restater, out, shape.fields)?;
        fill(restater, out, ") { more = new $ ( n -", names)?;
        write_number(restater, out, shape.fields)?;
        fill(restater, out, ") ; }", names)?;
    }
    fill(restater, out, "}", names)
}

// The object of a chain in which an index is, and the index there.
fn step(restater: &mut Restater, out: &mut Text, names: Names, shape: Shape) -> Result<(), Stop> {
    fill(restater, out, OUT_OF_BOUNDS, names)?;
    if !shape.chained {
        return Ok(());
    }
    fill(restater, out, "$ at = this ; while ( i >=", names)?;
    write_number(restater, out, shape.fields)?;
    fill(restater, out, ") { at = at . more ; i = i -", names)?;
    write_number(restater, out, shape.fields)?;
    fill(restater, out, "; }", names)
}

// The field of a number.
fn element(
    restater: &mut Restater,
    out: &mut Text,
    names: Names,
    shape: Shape,
    number: u32,
) -> Result<(), Stop> {
    if shape.chained {
        fill(restater, out, "at .", names)?;
    }
    fill(restater, out, field(number), names)
}

// Whether the index is a number. The last field needs no test.
fn test(
    restater: &mut Restater,
    out: &mut Text,
    names: Names,
    shape: Shape,
    number: u32,
) -> Result<(), Stop> {
    if number.saturating_add(1) < shape.fields {
        fill(restater, out, "if ( i ==", names)?;
        write_number(restater, out, number)?;
        fill(restater, out, ")", names)?;
    }
    Ok(())
}

fn getter(restater: &mut Restater, out: &mut Text, names: Names, shape: Shape) -> Result<(), Stop> {
    fill(restater, out, "@ get ( int i ) {", names)?;
    step(restater, out, names, shape)?;
    for number in 0..shape.fields {
        test(restater, out, names, shape, number)?;
        fill(restater, out, "return", names)?;
        element(restater, out, names, shape, number)?;
        fill(restater, out, ";", names)?;
    }
    fill(restater, out, "}", names)
}

fn setter(restater: &mut Restater, out: &mut Text, names: Names, shape: Shape) -> Result<(), Stop> {
    fill(restater, out, "void set ( int i , @ v ) {", names)?;
    step(restater, out, names, shape)?;
    for number in 0..shape.fields {
        if number > 0 {
            fill(restater, out, "else", names)?;
        }
        test(restater, out, names, shape, number)?;
        element(restater, out, names, shape, number)?;
        fill(restater, out, "= v ;", names)?;
    }
    fill(restater, out, "}", names)
}

/// A class that stands for arrays.
pub fn array_class(
    restater: &mut Restater,
    out: &mut Text,
    names: Names,
    shape: Shape,
) -> Result<(), Stop> {
    fields(restater, out, names, shape)?;
    constructor(restater, out, names, shape)?;
    getter(restater, out, names, shape)?;
    if shape.first.is_none() {
        setter(restater, out, names, shape)?;
    }
    fill(restater, out, "}", names)
}
