// How many locals a method takes.

ghost use Rattle.ls_lowered.specs.Limits.{most_locals};
ghost use Rattle.std.specs.Prelude.{◌≡◌, ℕ, ◌+◌, ◌*◌, ◌≤◌, ◌↔◌, All, IsTrue};
ghost use Rattle.std.specs.Option.{SomeIff};
ghost use Rattle.ls_lowered.specs.Plain.{plain_statement, statements_of, plain_method};
ghost use Rattle.ls_finally.specs.Flat.{tries, all_tries};
ghost use Rattle.ls_finally.specs.Counts.{locals_of};

use ls_lowered::tree::{Method, Statement};

/// The most locals of a method.
pub const MOST_LOCALS: usize = 128;

// `count` locals more than `so_far`; none if that is over 128.
fn more(so_far: usize, count: usize) -> Option<usize>
    requires { so_far ≤ most_locals }
    ensures { SomeIff result (so_far + count ≤ most_locals) (so_far + count) }
{
    if count <= MOST_LOCALS - so_far {
        Some(so_far + count)
    } else {
        None
    }
}

// `so_far` locals, and two for each `try` of a statement; none if that is over 128.
#[cycle(statements)]
#[tactic(auto, using(ls_finally_copies::proofs::Fronts::block_read))]
fn count_tries(s: &Statement, so_far: usize) -> Option<usize>
    requires { so_far ≤ most_locals }
    ensures { SomeIff result (so_far + 2 * tries (plain_statement s.now) ≤ most_locals)
        (so_far + 2 * tries (plain_statement s.now)) }
{
    match s {
        Statement::Block(statements) => count_in_block(statements, so_far),
        Statement::If(_, first, second) | Statement::Guarded(first, _, second) => {
            count_tries(second, count_tries(first, so_far)?)
        }
        Statement::Leavable(body, own) => count_in_block(own, count_tries(body, so_far)?),
        Statement::While(_, body) => count_tries(body, so_far),
        Statement::Try(body, finally) => {
            let so_far = more(so_far, 2)?;
            count_tries(finally, count_tries(body, so_far)?)
        }
        Statement::SetLocal(_, _)
        | Statement::SetField(_, _, _)
        | Statement::AddField(_, _, _)
        | Statement::SetItem(_, _, _)
        | Statement::Evaluate(_)
        | Statement::Return(_)
        | Statement::Throw(_)
        | Statement::Leave(_) => Some(so_far),
    }
}

#[cycle(statements)]
fn count_in_block(statements: &[Statement], so_far: usize) -> Option<usize>
    requires { so_far ≤ most_locals }
    ensures { SomeIff result (so_far + 2 * all_tries (statements_of statements.now) ≤ most_locals)
        (so_far + 2 * all_tries (statements_of statements.now)) }
{
    let mut count = so_far;
    for s in statements {
        count = count_tries(s, count)?;
    }
    Some(count)
}

fn count_locals(method: &Method) -> Option<usize>
    ensures { SomeIff result (locals_of (plain_method method.now) ≤ most_locals) (locals_of (plain_method method.now)) }
{
    let own = more(more(0, method.arguments)?, method.locals)?;
    count_tries(&method.body, own)
}

/// Whether no method has over 128 locals, with two for each `try`.
pub fn have_few_locals(methods: &[Method]) -> bool
    ensures { IsTrue result ↔ All (λ m. locals_of (plain_method m) ≤ most_locals) methods.now }
{
    for method in methods {
        if count_locals(method).is_none() {
            return false;
        }
    }
    true
}
