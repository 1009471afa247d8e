// The data of a page on which one chooses.

ghost use Rattle.std.specs.Prelude.{◌≡◌, ◌<◌, ◌++◌, IfOk, OnOk, string_bytes};
ghost use Rattle.ls_labels.specs.Names.{names_of};
ghost use Rattle.ls_page.specs.Data.{texts_of, texts_text};
ghost use Rattle.ls_choices.specs.Seen.{graph_of};
ghost use Rattle.ls_page.specs.ChoicesData.{IsData, data_text, first_text, graph_text, head_text, known_text};
ghost use Rattle.ls_page.specs.ChoicesData.{lines_text, outcomes_text, reach_text, reference_of, reference_text};
ghost use Rattle.ls_page.specs.ChoicesData.{tables_text};
ghost use Rattle.ls_page.specs.Tabled.{tables_of};

use crate::choices_parts::{push_field, whole_trace};
use crate::lists::{push_lists, push_targets, push_texts as push_table};
use crate::states::push_ends;
use crate::tables::{Tables, serial_of, tables_of};
use crate::{Reference, Texts};
use ls_choices::graph::{Choices, all_choices};
use ls_choices::reach::{Reach, reach_of};
use ls_labels::names::Names;
use ls_linearity::table::SerialTable;
use ls_state::state;
use std::alloc::{AllocError, Global};
use std::fmt::Write;

// Adds what the program and the first steps come from.
fn push_texts(out: &mut String, texts: Texts) -> Result<(), AllocError>
    ensures { OnOk result (string_bytes out.new ≡ string_bytes out.old ++ texts_text (texts_of texts.entry)) }
{
    push_field(out, "classes", texts.classes)?;
    push_field(out, "program", texts.program)?;
    push_field(out, "schedule", texts.schedule)
}

// Adds what is told of the first steps.
fn push_first(alloc: Global, out: &mut String, names: Names, first: &[u8]) -> Result<(), AllocError>
    ensures { OnOk result (string_bytes out.new ≡ string_bytes out.old ++ first_text (names_of names.entry) first.now) }
{
    let none = Vec::new(alloc);
    let before = state(alloc, names, &none)?;
    push_field(out, "before", before.as_str())?;
    let setup = whole_trace(alloc, names, first)?;
    push_field(out, "setup", setup.as_str())
}

// Adds the text of a reference, if one is given.
fn push_reference(out: &mut String, reference: Option<Reference<'_>>) -> Result<(), AllocError>
    ensures { OnOk result (string_bytes out.new ≡ string_bytes out.old ++
        reference_text (reference_of reference.entry)) }
{
    match reference {
        Some(reference) => push_field(out, "reference", reference.text),
        None => Ok(()),
    }
}

// Adds the texts and the first steps.
fn push_head(
    alloc: Global,
    out: &mut String,
    names: Names,
    texts: Texts,
    reference: Option<Reference<'_>>,
    first: &[u8],
) -> Result<(), AllocError>
    ensures { OnOk result (string_bytes out.new ≡ string_bytes out.old ++
        head_text (names_of names.entry) (texts_of texts.entry) (reference_of reference.entry) first.now) }
{
    out.push_str("{\"listset\":2,\"choose\":1")?;
    push_texts(out, texts)?;
    push_reference(out, reference)?;
    push_first(alloc, out, names, first)?;
    Ok(())
}

// Adds how far the walks go.
fn push_reach(out: &mut String, reach: Reach) -> Result<(), AllocError>
    ensures { OnOk result (string_bytes out.new ≡ string_bytes out.old ++ reach_text reach) }
{
    match reach {
        Reach::All => out.push_str(",\"complete\":true"),
        Reach::UpTo(steps) => write!(out, ",\"complete\":false,\"steps\":{steps}"),
    }
}

// Adds the texts by number, and the lines of the rows.
fn push_lines(out: &mut String, tables: &Tables) -> Result<(), AllocError>
    ensures { OnOk result (string_bytes out.new ≡ string_bytes out.old ++ lines_text (tables_of tables.now)) }
{
    out.push_str(",\"texts\":")?;
    push_table(out, tables.table.texts())?;
    out.push_str(",\"lines\":")?;
    push_lists(out, &tables.lines)?;
    Ok(())
}

// Adds where the rows lead, the ends, and how far the walks go.
fn push_graph(
    alloc: Global,
    out: &mut String,
    names: Names,
    choices: &Choices,
    reach: Reach,
) -> Result<(), AllocError>
    ensures { OnOk result (string_bytes out.new ≡ string_bytes out.old ++
        graph_text (names_of names.entry) (graph_of choices.now) reach) }
{
    out.push_str(",\"to\":")?;
    push_targets(out, &choices.rows)?;
    out.push_str(",\"ends\":")?;
    push_ends(alloc, out, names, choices)?;
    push_reach(out, reach)?;
    Ok(())
}

// Adds what calls do in each state between calls.
fn push_outcomes(out: &mut String, tables: &Tables) -> Result<(), AllocError>
    ensures { OnOk result (string_bytes out.new ≡ string_bytes out.old ++ outcomes_text (tables_of tables.now)) }
{
    out.push_str(",\"outcomes\":")?;
    push_lists(out, &tables.ends)?;
    out.push_str(",\"next\":")?;
    push_lists(out, &tables.next)?;
    Ok(())
}

// Adds whether that is all that they do.
fn push_known(out: &mut String, serial: &Option<SerialTable>) -> Result<(), AllocError>
    ensures { OnOk result (string_bytes out.new ≡ string_bytes out.old ++ known_text serial.now) }
{
    match serial {
        Some(table) if table.goes_on => out.push_str(",\"known\":false,\"why\":\"long call\""),
        Some(_) => out.push_str(",\"known\":true"),
        None => out.push_str(",\"known\":false,\"why\":\"many states\""),
    }
}

// Adds all that is told of the graph and of states between calls.
fn push_tables(
    alloc: Global,
    out: &mut String,
    names: Names,
    choices: &Choices,
    reach: Reach,
    tables: &Tables,
) -> Result<(), AllocError>
    ensures { OnOk result (string_bytes out.new ≡ string_bytes out.old ++
        tables_text (names_of names.entry) (graph_of choices.now) reach (tables_of tables.now)) }
{
    push_lines(out, tables)?;
    push_graph(alloc, out, names, choices, reach)?;
    push_outcomes(out, tables)?;
    push_known(out, &tables.serial)?;
    Ok(())
}

// What is known of the states.
#[derive(Clone, Copy)]
struct Told<'t> {
    choices: &'t Choices,
    reach: Reach,
    tables: &'t Tables,
}

// The whole object, of a graph that is known.
fn data_of(
    alloc: Global,
    names: Names,
    texts: Texts,
    reference: Option<Reference<'_>>,
    first: &[u8],
    told: &Told,
) -> Result<String, AllocError>
    ensures { IfOk result (λ text. string_bytes text ≡
        data_text (names_of names.entry) (texts_of texts.entry) (reference_of reference.entry) first.now
        (graph_of told.now.choices.now) told.now.reach (tables_of told.now.tables.now)) }
{
    let mut out = String::new(alloc);
    push_head(alloc, &mut out, names, texts, reference, first)?;
    push_tables(
        alloc,
        &mut out,
        names,
        told.choices,
        told.reach,
        told.tables,
    )?;
    out.push_str("}\n")?;
    Ok(out)
}

/// The data of a page on which one chooses who steps next, after the first steps, whose numbers are those of threads:
/// a JSON object in one line. If a reference is given, it has its text, and the table of states between calls is that
/// of the reference. So many states of the program are kept at most. All but the last weigh 4,194,304 together at most,
/// as `all_choices` says. The only refusal is that memory ran out.
pub fn choices_data(
    alloc: Global,
    names: Names,
    texts: Texts,
    reference: Option<Reference<'_>>,
    first: &[u8],
    most: usize,
) -> Result<String, AllocError>
    ensures { 0 < most → IfOk result (λ text.
        IsData (names_of names.entry) (texts_of texts.entry) (reference_of reference.entry) first.now most
        (string_bytes text)) }
{
    let choices = all_choices(alloc, names, first, most)?;
    let reach = reach_of(alloc, &choices, names.program.threads.len())?;
    let serial = serial_of(alloc, reference, names)?;
    let tables = tables_of(alloc, names, &choices, serial)?;
    let told = Told {
        choices: &choices,
        reach,
        tables: &tables,
    };
    let text = data_of(alloc, names, texts, reference, first, &told)?;
    Ok(text)
}
