// The words of classes, in the order of the file where that can be.

use crate::leaves::{Leaf, Spelling};
use ls_java_tables::words::Words;
use std::alloc::{AllocError, Global};

// Leaves that stay together, from one up to another: a member, or the head or the end of a class. They are sorted by
// the token.
#[derive(Clone, Copy)]
struct Run {
    from: usize,
    upto: usize,
    token: usize,
}

// The runs of a class, in the order of its members, and the token by which classes are sorted.
#[derive(Drop)]
struct Class {
    runs: Vec<Run>,
    token: usize,
}

// What is cut into classes: how many braces are open, where the run and the class begin that aren't ended, the runs of
// that class, and the token of its last field.
#[derive(Drop)]
struct Cutter {
    braces: usize,
    from: usize,
    class: usize,
    runs: Vec<Run>,
    field: usize,
    classes: Vec<Class>,
}

// What a leaf spells, if that isn't a number.
fn spelled<'a>(words: &'a Words, leaf: &Leaf) -> &'a str {
    match leaf.spelling {
        Spelling::Word(word) => words.text(word),
        Spelling::Fixed(word) => word,
        Spelling::Number(_) => "",
    }
}

// The token of the leaf in the middle between two.
fn middle(leaves: &[Leaf], from: usize, upto: usize) -> usize {
    let half = upto.saturating_sub(from) / 2;
    match leaves.get(from.saturating_add(half)) {
        Some(leaf) => leaf.token,
        None => 0,
    }
}

// A run ends before the leaf of this number.
fn end_run(cutter: &mut Cutter, upto: usize, token: usize) -> Result<(), AllocError> {
    cutter.runs.push(Run {
        from: cutter.from,
        upto,
        token,
    })?;
    cutter.from = upto;
    Ok(())
}

// A class ends before the leaf of this number. Its members are sorted, and its head and its end stay.
fn end_class(
    alloc: Global,
    cutter: &mut Cutter,
    leaves: &[Leaf],
    upto: usize,
) -> Result<(), AllocError> {
    end_run(cutter, upto, usize::MAX)?;
    let mut runs = Vec::new(alloc);
    for run in &cutter.runs {
        runs.push(*run)?;
    }
    runs.sort_by_key(|run| run.token)?;
    cutter.classes.push(Class {
        runs,
        token: middle(leaves, cutter.class, upto),
    })?;
    cutter.runs.clear();
    cutter.class = upto;
    cutter.field = 0;
    Ok(())
}

// A member ends before the leaf of this number. Fields stay in their order, since that is the order of their values.
fn end_member(
    cutter: &mut Cutter,
    leaves: &[Leaf],
    upto: usize,
    is_field: bool,
) -> Result<(), AllocError> {
    let token = middle(leaves, cutter.from, upto);
    if !is_field {
        return end_run(cutter, upto, token);
    }
    cutter.field = cutter.field.max(token);
    end_run(cutter, upto, cutter.field)
}

// One leaf more, which comes before the leaf of the number `upto`.
fn cut(
    alloc: Global,
    cutter: &mut Cutter,
    leaves: &[Leaf],
    word: &str,
    upto: usize,
) -> Result<(), AllocError> {
    let braces = cutter.braces;
    if word == "{" {
        cutter.braces = braces.saturating_add(1);
        if braces == 0 {
            return end_run(cutter, upto, 0);
        }
    } else if word == "}" {
        cutter.braces = braces.saturating_sub(1);
        if braces == 2 {
            return end_member(cutter, leaves, upto, false);
        }
        if braces == 1 {
            return end_class(alloc, cutter, leaves, upto);
        }
    } else if word == ";" && braces == 1 {
        return end_member(cutter, leaves, upto, true);
    }
    Ok(())
}

// The leaves as classes and runs.
fn cut_all(alloc: Global, words: &Words, leaves: &[Leaf]) -> Result<Cutter, AllocError> {
    let mut cutter = Cutter {
        braces: 0,
        from: 0,
        class: 0,
        runs: Vec::new(alloc),
        field: 0,
        classes: Vec::new(alloc),
    };
    for (at, leaf) in leaves.iter().enumerate() {
        let word = spelled(words, leaf);
        cut(alloc, &mut cutter, leaves, word, at.saturating_add(1))?;
    }
    Ok(cutter)
}

// The leaves of a run.
fn push_run(out: &mut Vec<Leaf>, leaves: &[Leaf], run: Run) -> Result<(), AllocError> {
    if let Some(part) = leaves.get(run.from..run.upto) {
        for leaf in part {
            out.push(*leaf)?;
        }
    }
    Ok(())
}

// The leaf that was written last comes from the token of the one before it.
fn stay(out: &mut Vec<Leaf>) -> Result<(), AllocError> {
    let Some(last) = out.pop() else {
        return Ok(());
    };
    let token = match out.last() {
        Some(before) => before.token,
        None => last.token,
    };
    out.push(Leaf {
        spelling: last.spelling,
        token,
    })?;
    Ok(())
}

/// The leaves in the order of the file: the members of a class, and the classes. A class is where its middle is, and
/// so is a member; fields stay in their order. The brace that ends a class stays on the line of the word before it, but
/// for the last one.
pub fn in_order(alloc: Global, words: &Words, leaves: &[Leaf]) -> Result<Vec<Leaf>, AllocError> {
    let mut cutter = cut_all(alloc, words, leaves)?;
    cutter.classes.sort_by_key(|class| class.token)?;
    let mut out = Vec::new(alloc);
    for (number, class) in cutter.classes.iter().enumerate() {
        if number > 0 {
            stay(&mut out)?;
        }
        for run in &class.runs {
            push_run(&mut out, leaves, *run)?;
        }
    }
    for run in &cutter.runs {
        push_run(&mut out, leaves, *run)?;
    }
    let rest = Run {
        from: cutter.from,
        upto: leaves.len(),
        token: 0,
    };
    push_run(&mut out, leaves, rest)?;
    Ok(out)
}
