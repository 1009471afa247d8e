// Whether bodies have loops.

ghost use Rattle.std.specs.Prelude.{◌↔◌, IsTrue, map};
ghost use Rattle.ls_checked.specs.Plain.{plain_file, plain_method, plain_statement, statements_of};
ghost use Rattle.ls_loopless.specs.Loops.{AreLoopless, HasNoLoops, HaveNoLoops, IsLoopless};

use ls_checked::tree::{File, Method, Statement};

/// Whether no loop is in a statement.
#[cycle(statements)]
#[tactic(auto, using(ls_checked::proofs::Rows::block_made))]
fn is_loopless(s: &Statement) -> bool
    ensures { IsTrue result ↔ IsLoopless (plain_statement s.now) }
{
    match s {
        Statement::Block(ss) => are_loopless(ss),
        Statement::If(_, a, b) | Statement::Try(a, b) => is_loopless(a) && is_loopless(b),
        Statement::While(..) => false,
        Statement::SetSlot(..)
        | Statement::SetField { .. }
        | Statement::AddField { .. }
        | Statement::SetItem { .. }
        | Statement::Evaluate(_)
        | Statement::Break(_)
        | Statement::Continue(_)
        | Statement::ReturnNothing
        | Statement::ReturnValue(_) => true,
    }
}

/// Whether none is in statements.
#[cycle(statements)]
fn are_loopless(ss: &[Statement]) -> bool
    ensures { IsTrue result ↔ AreLoopless (statements_of ss.now) }
{
    for s in ss {
        if !is_loopless(s) {
            return false;
        }
    }
    true
}

fn have_no_loops(methods: &[Method]) -> bool
    ensures { IsTrue result ↔ HaveNoLoops (map plain_method methods.now) }
{
    for method in methods {
        if !is_loopless(&method.body) {
            return false;
        }
    }
    true
}

/// Whether no body of a file has a loop.
pub fn has_no_loops(file: &File) -> bool
    ensures { IsTrue result ↔ HasNoLoops (plain_file file.now) }
{
    have_no_loops(&file.methods)
}
