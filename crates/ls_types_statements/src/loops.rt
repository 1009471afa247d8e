// Loops: which are around a statement, by their labels, and which of them a jump leaves.

ghost use Rattle.std.specs.Prelude.{◌≡◌, ◌<◌, ◌∷◌, [], IfOk, Ok, IfSome, length, map, option_map};
ghost use Rattle.std.specs.Prelude.{option_copied};
ghost use Rattle.ls_checked.specs.Plain.{plain_statement};
ghost use Rattle.ls_checked.specs.CheckedTree.{Statement as checked_statement};
ghost use Rattle.ls_types_elaboration.specs.TypedStatements.{statement, loop_named};
ghost use Rattle.ls_types_elaboration.specs.TypedStatements.{may_leave, is_label, is_target, found_loop, jump};
ghost use Rattle.ls_types_elaboration.specs.TypedStatements.{continued, label_text, loop_of as the_loop_of};
ghost use Rattle.ls_types_elaboration.specs.TypedStatements.{fresh_label};
ghost use Rattle.ls_types_elaboration.specs.TypedStatements.{WithSlots};
ghost use Rattle.ls_types_elaboration.specs.Placed.{placed_name};
ghost use Rattle.ls_types_elaboration.specs.Answers.{unless_refused};
ghost use Rattle.ls_types_elaboration.specs.Elaborated.{Elaborated};
ghost use Rattle.ls_types_statements.specs.ScopeViews.{loop_of};

use crate::scope::Context;
use ls_checked::tree::Statement;
use ls_lexer::token::Span;
use ls_together::push;
use ls_tree::tree;
use ls_tree::tree::Name;
use ls_types_elaboration::known::Local;
use ls_types_elaboration::loops::LoopPart;
use ls_types_elaboration::rule::{Broken, Rule, broken_at};
use ls_types_expressions::site::Site;
use std::alloc::{AllocError, Global};

/// A loop of the checked tree, what it is in the text, and its label there.
#[derive(Copy)]
pub struct Loop<'t> {
    pub part: LoopPart,
    pub label: Option<&'t str>,
}

impl<'t> Clone for Loop<'t> {
    fn clone(&self) -> Result<Loop<'t>, AllocError> {
        Ok(*self)
    }
}

/// The body and the loops around a statement, the innermost first.
#[derive(Copy)]
pub struct Round<'r, 't> {
    pub context: Context<'r>,
    pub loops: &'r [Loop<'t>],
}

impl<'r, 't> Clone for Round<'r, 't> {
    fn clone(&self) -> Result<Round<'r, 't>, AllocError> {
        Ok(*self)
    }
}

pub(crate) fn site_in<'r, 'l, 't>(round: Round<'r, 't>, locals: &'l [Local<'t>]) -> Site<'r, 'l, 't>
    ensures known { result.known ≡ round.entry.context.known }
    ensures locals { result.locals.now ≡ locals.entry.now }
{
    Site {
        alloc: round.context.alloc,
        known: round.context.known,
        locals,
    }
}

// Whether a `break`, or else a `continue`, may belong to a loop.
pub(crate) fn may_leave(breaking: bool, part: LoopPart) -> bool
    ensures { result ≡ may_leave breaking part }
{
    match part {
        LoopPart::While => true,
        LoopPart::For => breaking,
        LoopPart::Turn => !breaking,
    }
}

// A jump without a label has the innermost loop as its target.
pub(crate) fn is_label(name: Option<&str>, label: Option<&str>) -> bool
    ensures { result ≡ is_label (option_copied name.entry) (option_copied label.entry) }
{
    match (name, label) {
        (None, _) => true,
        (Some(_), None) => false,
        (Some(name), Some(label)) => label == name,
    }
}

pub(crate) fn is_target(breaking: bool, name: Option<&str>, l: Loop) -> bool
    ensures { result ≡ is_target breaking (option_copied name.entry) (loop_of l.entry) }
{
    may_leave(breaking, l.part) && is_label(name, l.label)
}

// The loop to which a jump belongs, counted outward, and what it is.
pub(crate) fn loop_named(
    breaking: bool,
    loops: &[Loop],
    name: Option<&str>,
) -> Option<(usize, LoopPart)>
    ensures found { result ≡ loop_named breaking (map loop_of loops.now) (option_copied name.entry) }
    ensures small { IfSome result (λ w. w.0 < length loops.now) }
{
    match loops {
        [] => None,
        [l, outer @ ..] => {
            if is_target(breaking, name, *l) {
                return Some((0, l.part));
            }
            match loop_named(breaking, outer, name) {
                None => None,
                Some((n, part)) => Some((n + 1, part)),
            }
        }
    }
}

pub(crate) fn found_loop(
    found: Option<(usize, LoopPart)>,
    rule: Rule,
    span: Span,
) -> Result<(usize, LoopPart), Broken>
    ensures { result ≡ found_loop found rule span }
{
    match found {
        None => Err(broken_at(rule, span)),
        Some(way) => Ok(way),
    }
}

// The loop to which a `break`, or else a `continue`, belongs.
pub(crate) fn jump(
    breaking: bool,
    loops: &[Loop],
    label: &Option<Name>,
    span: Span,
) -> Result<(usize, LoopPart), Broken>
    ensures { result ≡ jump breaking (map loop_of loops.now) (option_map placed_name label.now) span }
{
    if loops.is_empty() {
        return Err(broken_at(Rule::NoLoop, span));
    }
    match label {
        None => found_loop(loop_named(breaking, loops, None), Rule::NoLoop, span),
        Some(n) => found_loop(
            loop_named(breaking, loops, Some(n.text.as_str())),
            Rule::UnknownLabel,
            n.span,
        ),
    }
}

// The checked form of a `continue`. If its loop is a turn of a `for`, it is a `break` out of that turn.
pub(crate) fn continued(way: (usize, LoopPart)) -> Statement
    ensures { plain_statement result ≡ continued way.1 way.0 }
{
    let (n, part) = way;
    match part {
        LoopPart::Turn => Statement::Break(n),
        LoopPart::While | LoopPart::For => Statement::Continue(n),
    }
}

// A loop's label isn't the label of a loop around it.
pub(crate) fn fresh_label(loops: &[Loop], label: &Option<Name>) -> Result<(), Broken>
    ensures { (go : Elaborated (WithSlots checked_statement)) →
        fresh_label (map loop_of loops.now) (option_map placed_name label.now) go ≡ unless_refused result go }
{
    match label {
        None => Ok(()),
        Some(n) => {
            if loop_named(true, loops, Some(n.text.as_str())).is_some() {
                return Err(broken_at(Rule::TwiceDeclared, n.span));
            }
            Ok(())
        }
    }
}

// One more loop, inside of the others.
pub(crate) fn within<'t>(
    alloc: Global,
    loops: &[Loop<'t>],
    part: LoopPart,
    label: &'t Option<Name>,
) -> Result<Vec<Loop<'t>>, AllocError>
    ensures { IfOk result (λ v. map loop_of v.items ≡
        the_loop_of part (label_text (option_map placed_name label.entry.now)) ∷ map loop_of loops.now) }
{
    let mut inner = Vec::new(alloc);
    inner.push(Loop {
        part,
        label: text_of(label),
    })?;
    inner.extend_from_slice(loops)?;
    Ok(inner)
}

pub(crate) fn text_of(label: &Option<Name>) -> Option<&str>
    ensures { option_copied result ≡ label_text (option_map placed_name label.now) }
{
    match label {
        None => None,
        Some(n) => Some(n.text.as_str()),
    }
}
