// Statements without `try`.

ghost use Rattle.ls_lowered.specs.Limits.{most_locals};
ghost use Rattle.std.specs.Prelude.{◌≡◌, ℕ, ◌+◌, ◌*◌, ◌≤◌, length, IfOk, IfErr, OnOk, Ok, Err};
ghost use Rattle.std.specs.Option.{SomeIff};
ghost use Rattle.ls_lowered.specs.LoweredTree.{Try, Leavable};
ghost use Rattle.ls_lowered.specs.Plain.{plain_statement, statements_of};
ghost use Rattle.ls_finally_exits.specs.Exits.{exits, finally_of};
ghost use Rattle.ls_finally.specs.Flat.{tries, all_tries, flat, all_flat};
ghost use Rattle.ls_finally.specs.Counts.{copies, all_copies};
ghost use Rattle.ls_finally.specs.Code.{Fits};

use crate::stays::is_flat;
use ls_finally_copies::copy::{block_of, copy_expression, copy_statement, leavable_of};
use ls_finally_exits::exits::exits_of;
use ls_finally_exits::replace::by_copies;
use ls_lowered::fault::LowerFault;
use ls_lowered::tree::Statement;
use ls_together::{also, in_box, put};
use std::alloc::Global;

/// The most copies of finally blocks of a method.
pub const MOST_COPIES: usize = 4096;

/// How far the lowering of a method is: the first local that is free, and how many copies there are.
#[derive(Drop)]
pub struct Lowering {
    pub free: usize,
    pub count: usize,
}

// The copies of a `try` and those before it; none if they are too many. `body` are those up to the end of its body,
// `ways` the exits of the body, and `finally` the copies in the finally block.
fn total(body: usize, ways: usize, finally: usize) -> Option<usize>
    requires { finally ≤ 4096 }
    ensures { SomeIff result (body + (2 + ways) * (1 + finally) ≤ 4096) (body + (2 + ways) * (1 + finally)) }
{
    let blocks = ways.checked_add(2)?;
    let more = blocks.checked_mul(1 + finally)?;
    let whole = more.checked_add(body)?;
    if whole <= MOST_COPIES {
        Some(whole)
    } else {
        None
    }
}

// The first value, and what comes next. If what comes next is refused, so is this.
fn beside<T: Drop, U: Drop>(first: T, next: Result<U, LowerFault>) -> Result<(T, U), LowerFault>
    ensures first { IfOk result (λ p. p.0 ≡ first) }
    ensures next { IfOk result (λ p. next ≡ Ok p.1) }
    ensures refused { IfErr result (λ e. next ≡ Err e) }
{
    match next {
        Ok(next) => Ok((first, next)),
        Err(fault) => Err(fault),
    }
}

impl Lowering {
    /// A statement without `try`. It is refused if its copies and those so far are over 4,096, or if memory runs out.
    /// Each `try` takes two locals.
    #[cycle(flatten)]
    #[tactic(auto, using(ls_finally_copies::proofs::Fronts::block_read, ls_lowered::proofs::Rows::block_made))]
    pub fn flatten(&mut self, alloc: Global, s: &Statement) -> Result<Statement, LowerFault>
        requires room { self.old.free + 2 * tries (plain_statement s.now) ≤ most_locals }
        requires few { self.old.count ≤ 4096 }
        ensures tree { IfOk result (λ t. plain_statement t ≡ flat self.old.free (plain_statement s.now)) }
        ensures free { OnOk result (self.new.free ≡ self.old.free + 2 * tries (plain_statement s.now)) }
        ensures count { OnOk result (self.new.count ≡ self.old.count + copies self.old.free (plain_statement s.now)) }
        ensures few { Fits result (self.old.count + copies self.old.free (plain_statement s.now)) }
    {
        match s {
            Statement::Block(statements) => Ok(block_of(self.flat_all(alloc, statements)?)),
            Statement::If(e, first, second) => {
                let parts = self.flat_two(alloc, first, second)?;
                let ((first, second), e) = also(parts, copy_expression(alloc, e))?;
                Ok(Statement::If(e, first, second))
            }
            Statement::While(e, body) => {
                let body = self.flat_part(alloc, body)?;
                let (body, e) = also(body, copy_expression(alloc, e))?;
                Ok(Statement::While(e, body))
            }
            Statement::Try(body, finally) => self.flat_try(alloc, body, finally),
            Statement::Guarded(body, number, handler) => {
                let (body, handler) = self.flat_two(alloc, body, handler)?;
                Ok(Statement::Guarded(body, *number, handler))
            }
            Statement::Leavable(body, own) => self.flat_leavable(alloc, body, own),
            Statement::SetLocal(_, _)
            | Statement::SetField(_, _, _)
            | Statement::AddField(_, _, _)
            | Statement::SetItem(_, _, _)
            | Statement::Evaluate(_)
            | Statement::Return(_)
            | Statement::Throw(_)
            | Statement::Leave(_) => Ok(copy_statement(alloc, s)?),
        }
    }

    #[cycle(flatten)]
    #[inline(never)]
    #[tactic(auto, using(crate::proofs::Flattening::too_many_more))]
    fn flat_all(
        &mut self,
        alloc: Global,
        statements: &[Statement],
    ) -> Result<Vec<Statement>, LowerFault>
        requires room { self.old.free + 2 * all_tries (statements_of statements.now) ≤ most_locals }
        requires few { self.old.count ≤ 4096 }
        ensures tree { IfOk result (λ v. statements_of v.items ≡
            all_flat self.old.free (statements_of statements.now)) }
        ensures free { OnOk result (self.new.free ≡ self.old.free + 2 * all_tries (statements_of statements.now)) }
        ensures count { OnOk result
            (self.new.count ≡ self.old.count + all_copies self.old.free (statements_of statements.now)) }
        ensures few { Fits result (self.old.count + all_copies self.old.free (statements_of statements.now)) }
    {
        let mut out = Vec::new(alloc);
        for s in statements {
            put(&mut out, self.flatten(alloc, s)?)?;
        }
        Ok(out)
    }

    // A part of a statement.
    #[cycle(flatten)]
    #[inline(never)]
    fn flat_part(&mut self, alloc: Global, s: &Statement) -> Result<Box<Statement>, LowerFault>
        requires room { self.old.free + 2 * tries (plain_statement s.now) ≤ most_locals }
        requires few { self.old.count ≤ 4096 }
        ensures tree { IfOk result (λ t. plain_statement t.value ≡ flat self.old.free (plain_statement s.now)) }
        ensures free { OnOk result (self.new.free ≡ self.old.free + 2 * tries (plain_statement s.now)) }
        ensures count { OnOk result (self.new.count ≡ self.old.count + copies self.old.free (plain_statement s.now)) }
        ensures few { Fits result (self.old.count + copies self.old.free (plain_statement s.now)) }
    {
        Ok(in_box(alloc, self.flatten(alloc, s)?)?)
    }

    // Two parts of a statement.
    #[cycle(flatten)]
    #[inline(never)]
    #[tactic(auto, using(crate::proofs::Flattening::too_many_more))]
    fn flat_two(
        &mut self,
        alloc: Global,
        first: &Statement,
        second: &Statement,
    ) -> Result<(Box<Statement>, Box<Statement>), LowerFault>
        requires room { self.old.free + 2 * (tries (plain_statement first.now) + tries (plain_statement second.now)) ≤
            most_locals }
        requires few { self.old.count ≤ 4096 }
        ensures first { IfOk result (λ p. plain_statement p.0.value ≡ flat self.old.free (plain_statement first.now)) }
        ensures second { IfOk result (λ p. plain_statement p.1.value ≡
            flat (self.old.free + 2 * tries (plain_statement first.now)) (plain_statement second.now)) }
        ensures free { OnOk result
            (self.new.free ≡
            self.old.free + 2 * (tries (plain_statement first.now) + tries (plain_statement second.now))) }
        ensures count { OnOk result
            (self.new.count ≡
            self.old.count +
            (copies self.old.free (plain_statement first.now) + copies
            (self.old.free + 2 * tries (plain_statement first.now)) (plain_statement second.now))) }
        ensures few { Fits result
            (self.old.count +
            (copies self.old.free (plain_statement first.now) + copies
            (self.old.free + 2 * tries (plain_statement first.now)) (plain_statement second.now))) }
    {
        let first = self.flat_part(alloc, first)?;
        beside(first, self.flat_part(alloc, second))
    }

    #[cycle(flatten)]
    #[inline(never)]
    #[tactic(auto, using(crate::proofs::Flattening::too_many_more, ls_finally_exits::proofs::Counted::counted))]
    fn flat_leavable(
        &mut self,
        alloc: Global,
        body: &Statement,
        own: &[Statement],
    ) -> Result<Statement, LowerFault>
        requires room { self.old.free + 2 * (tries (plain_statement body.now) + all_tries (statements_of own.now)) ≤
            most_locals }
        requires few { self.old.count ≤ 4096 }
        ensures tree { IfOk result (λ t. plain_statement t ≡
            flat self.old.free (Leavable (plain_statement body.now) (statements_of own.now))) }
        ensures free { OnOk result
            (self.new.free ≡
            self.old.free + 2 * (tries (plain_statement body.now) + all_tries (statements_of own.now))) }
        ensures count { OnOk result
            (self.new.count ≡
            self.old.count + copies self.old.free (Leavable (plain_statement body.now) (statements_of own.now))) }
        ensures few { Fits result
            (self.old.count + copies self.old.free (Leavable (plain_statement body.now) (statements_of own.now))) }
    {
        if own.len() > MOST_COPIES - self.count {
            return Err(LowerFault::TooManyCopies);
        }
        self.count += own.len();
        let body = self.flat_part(alloc, body)?;
        let (body, own) = beside(body, self.flat_all(alloc, own))?;
        Ok(leavable_of(body, own))
    }

    #[cycle(flatten)]
    #[inline(never)]
    #[tactic(auto, using(crate::proofs::Flattening::too_many_more))]
    fn flat_try(
        &mut self,
        alloc: Global,
        body: &Statement,
        finally: &Statement,
    ) -> Result<Statement, LowerFault>
        requires room { self.old.free + 2 * (tries (plain_statement body.now) + tries (plain_statement finally.now) + 1)
            ≤ most_locals }
        requires few { self.old.count ≤ 4096 }
        ensures tree { IfOk result (λ t. plain_statement t ≡
            flat self.old.free (Try (plain_statement body.now) (plain_statement finally.now))) }
        ensures free { OnOk result
            (self.new.free ≡
            self.old.free + 2 * (tries (plain_statement body.now) + tries (plain_statement finally.now) + 1)) }
        ensures count { OnOk result
            (self.new.count ≡
            self.old.count + copies self.old.free (Try (plain_statement body.now) (plain_statement finally.now))) }
        ensures few { Fits result
            (self.old.count + copies self.old.free (Try (plain_statement body.now) (plain_statement finally.now))) }
    {
        if is_flat(body) && is_flat(finally) {
            return self.with_copies(alloc, body, finally, 0);
        }
        let body = self.flatten(alloc, body)?;
        let mut inside = Lowering {
            free: self.free,
            count: 0,
        };
        let finally = inside.flatten(alloc, finally);
        let (body, finally) = beside(body, finally)?;
        self.free = inside.free;
        self.with_copies(alloc, &body, &finally, inside.count)
    }

    // A `try` whose parts have no `try`. Its finally block has `within` copies of its own.
    fn with_copies(
        &mut self,
        alloc: Global,
        body: &Statement,
        finally: &Statement,
        within: usize,
    ) -> Result<Statement, LowerFault>
        requires few { within ≤ 4096 }
        requires room { self.old.free ≤ most_locals }
        ensures tree { IfOk result (λ t. plain_statement t ≡
            finally_of self.old.free (plain_statement body.now) (plain_statement finally.now)) }
        ensures free { OnOk result (self.new.free ≡ self.old.free + 2) }
        ensures count { OnOk result
            (self.new.count ≡ self.old.count + (2 + length (exits 0 (plain_statement body.now))) * (1 + within)) }
        ensures few { Fits result (self.old.count + (2 + length (exits 0 (plain_statement body.now))) * (1 + within)) }
    {
        let ways = exits_of(alloc, body)?;
        let Some(count) = total(self.count, ways.len(), within) else {
            return Err(LowerFault::TooManyCopies);
        };
        let tree = by_copies(alloc, body, finally, &ways, self.free)?;
        self.free += 2;
        self.count = count;
        Ok(tree)
    }
}
