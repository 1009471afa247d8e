// The copies of finally blocks and the instructions of a statement without `try`, counted before it is made.

ghost use Rattle.std.specs.Prelude.{◌≡◌, ◌+◌, ◌*◌, ◌++◌, ◌≤◌, min, IfOk, OnOk};
ghost use Rattle.std.specs.Option.{SomeIff};
ghost use Rattle.ls_lowered.specs.LoweredTree.{Try, Leavable};
ghost use Rattle.ls_lowered.specs.Plain.{plain, plain_statement, statements_of};
ghost use Rattle.ls_emit.specs.Expressions.{size};
ghost use Rattle.ls_linker.specs.Costs.{total, returned, ways_of, all_ways, copied, all_copied, flat_size};
ghost use Rattle.ls_linker.specs.Costs.{all_flat_size, own_size};
ghost use Rattle.ls_linker.specs.Refused.{Fits};

use crate::count_fault::CountFault;
use crate::ways::{Way, blocks_of, put_all, put_beyond, put_once, put_scaled, returns_of};
use ls_emit::lengths::{MOST_INSTRUCTIONS, TOO_MANY, count_expression};
use ls_lowered::tree::{Expression, Statement};
use std::alloc::Global;

/// The most copies of finally blocks of a method.
const MOST_COPIES: usize = 4096;

/// How many copies there are so far, and how many instructions. If there are over 65,536 instructions, `length` is
/// 65,537.
#[derive(Drop)]
pub struct Counting {
    pub copies: usize,
    pub length: usize,
}

// The copies after `blocks` copies of a finally block, if there are `before` copies before and `finally` in the block.
// None if they are too many.
fn with_copies(before: usize, blocks: usize, finally: usize) -> Option<usize>
    requires { finally ≤ 4096 }
    ensures { SomeIff result (before + blocks * (1 + finally) ≤ 4096) (before + blocks * (1 + finally)) }
{
    let more = blocks.checked_mul(1 + finally)?;
    let whole = more.checked_add(before)?;
    if whole <= MOST_COPIES {
        Some(whole)
    } else {
        None
    }
}

// The instructions after `blocks` copies of a finally block of `finally` instructions; 65,537 if they are too many.
// `before` are those before. Each copy and each return has 2 more, and the region 4.
fn with_length(before: usize, blocks: usize, finally: usize, returns: usize) -> usize
    requires before { before ≤ 65537 }
    requires finally { finally ≤ 65537 }
    ensures { result ≡ min (before + blocks * (finally + 2) + 2 * returns + 4) 65537 }
{
    let copies = blocks.saturating_mul(finally + 2);
    let all = returns
        .saturating_mul(2)
        .saturating_add(copies)
        .saturating_add(before + 4);
    if all <= MOST_INSTRUCTIONS {
        all
    } else {
        TOO_MANY
    }
}

impl Counting {
    // `count` instructions more.
    fn add(&mut self, count: usize)
        requires short { self.old.length ≤ 65537 }
        requires few { count ≤ 4096 }
        ensures length { self.new.length ≡ min (self.old.length + count) 65537 }
        ensures copies { self.new.copies ≡ self.old.copies }
    {
        let all = self.length + count;
        self.length = if all <= MOST_INSTRUCTIONS {
            all
        } else {
            TOO_MANY
        };
    }

    // The instructions of an expression, added to those so far.
    fn add_expression(&mut self, e: &Expression)
        requires { self.old.length ≤ 65537 }
        ensures length { self.new.length ≡ min (self.old.length + size (plain e.now)) 65537 }
        ensures copies { self.new.copies ≡ self.old.copies }
    {
        self.length = count_expression(self.length, e);
    }

    // The instructions of a statement, without those of the statements in it, added to those so far.
    fn add_own(&mut self, s: &Statement)
        requires { self.old.length ≤ 65537 }
        ensures length { self.new.length ≡ min (self.old.length + own_size (plain_statement s.now)) 65537 }
        ensures copies { self.new.copies ≡ self.old.copies }
    {
        match s {
            Statement::SetLocal(_, e) | Statement::Evaluate(e) | Statement::Return(e) => {
                self.add_expression(e);
                self.add(1);
            }
            Statement::SetField(object, _, value) => {
                self.add_expression(object);
                self.add_expression(value);
                self.add(1);
            }
            Statement::AddField(object, _, value) => {
                self.add_expression(object);
                self.add_expression(value);
                self.add(4);
            }
            Statement::SetItem(array, index, value) => {
                self.add_expression(array);
                self.add_expression(index);
                self.add_expression(value);
                self.add(1);
            }
            Statement::If(condition, _, _) | Statement::While(condition, _) => {
                self.add_expression(condition);
                self.add(2);
            }
            Statement::Guarded(_, _, _) | Statement::Throw(_) => self.add(2),
            Statement::Leave(_) => self.add(1),
            Statement::Block(_) | Statement::Try(_, _) | Statement::Leavable(_, _) => {}
        }
    }

    /// Adds a statement to what is counted so far, and puts its ways after those that are there. It is refused if
    /// there are too many copies, or if memory runs out.
    #[cycle(count)]
    #[tactic(auto, using(ls_finally_copies::proofs::Fronts::block_read))]
    pub fn count(
        &mut self,
        alloc: Global,
        s: &Statement,
        out: &mut Vec<Way>,
    ) -> Result<(), CountFault>
        requires few { self.old.copies ≤ 4096 }
        requires short { self.old.length ≤ 65537 }
        ensures ways { OnOk result (out.new.items ≡ out.old.items ++ ways_of (plain_statement s.now)) }
        ensures copies { OnOk result (self.new.copies ≡ self.old.copies + copied (plain_statement s.now)) }
        ensures length { OnOk result (self.new.length ≡
            min (self.old.length + flat_size (plain_statement s.now)) 65537) }
        ensures few { Fits result (self.old.copies + copied (plain_statement s.now)) }
    {
        match s {
            Statement::Block(statements) => self.count_all(alloc, statements, out),
            Statement::If(_, first, second) => {
                self.add_own(s);
                self.count_two(alloc, first, second, out)
            }
            Statement::While(_, body) => {
                self.add_own(s);
                self.count(alloc, body, out)
            }
            Statement::Try(body, finally) => self.count_try(alloc, body, finally, out),
            Statement::Guarded(body, _, handler) => {
                self.add_own(s);
                self.count_two(alloc, body, handler, out)
            }
            Statement::Leavable(body, own) => self.count_leavable(alloc, body, own, out),
            Statement::Return(_) => {
                self.add_own(s);
                Ok(put_once(out, None)?)
            }
            Statement::Leave(number) => {
                self.add_own(s);
                Ok(put_once(out, Some(*number))?)
            }
            Statement::SetLocal(_, _)
            | Statement::SetField(_, _, _)
            | Statement::AddField(_, _, _)
            | Statement::SetItem(_, _, _)
            | Statement::Evaluate(_)
            | Statement::Throw(_) => {
                self.add_own(s);
                Ok(())
            }
        }
    }

    #[cycle(count)]
    #[inline(never)]
    #[tactic(auto, using(crate::proofs::More::too_many_more))]
    fn count_all(
        &mut self,
        alloc: Global,
        statements: &[Statement],
        out: &mut Vec<Way>,
    ) -> Result<(), CountFault>
        requires few { self.old.copies ≤ 4096 }
        requires short { self.old.length ≤ 65537 }
        ensures ways { OnOk result (out.new.items ≡ out.old.items ++ all_ways (statements_of statements.now)) }
        ensures copies { OnOk result (self.new.copies ≡ self.old.copies + all_copied (statements_of statements.now)) }
        ensures length { OnOk result (self.new.length ≡
            min (self.old.length + all_flat_size (statements_of statements.now)) 65537) }
        ensures few { Fits result (self.old.copies + all_copied (statements_of statements.now)) }
    {
        for s in statements {
            self.count(alloc, s, out)?;
        }
        Ok(())
    }

    // Two parts of a statement.
    #[cycle(count)]
    #[inline(never)]
    #[tactic(auto, using(crate::proofs::More::too_many_more))]
    fn count_two(
        &mut self,
        alloc: Global,
        first: &Statement,
        second: &Statement,
        out: &mut Vec<Way>,
    ) -> Result<(), CountFault>
        requires few { self.old.copies ≤ 4096 }
        requires short { self.old.length ≤ 65537 }
        ensures ways { OnOk result (out.new.items ≡ out.old.items ++ ways_of (plain_statement first.now) ++
            ways_of (plain_statement second.now)) }
        ensures copies { OnOk result (self.new.copies ≡ self.old.copies + (copied (plain_statement first.now) + copied
            (plain_statement second.now))) }
        ensures length { OnOk result (self.new.length ≡
            min (self.old.length + (flat_size (plain_statement first.now) + flat_size (plain_statement second.now)))
            65537) }
        ensures few { Fits result (self.old.copies + (copied (plain_statement first.now) + copied
            (plain_statement second.now))) }
    {
        self.count(alloc, first, out)?;
        self.count(alloc, second, out)
    }

    // A leavable statement. Only the ways that lead beyond its own numbers lead out of it.
    #[cycle(count)]
    #[inline(never)]
    #[tactic(auto, using(crate::proofs::More::too_many_more, ls_finally_exits::proofs::Counted::counted))]
    fn count_leavable(
        &mut self,
        alloc: Global,
        body: &Statement,
        own: &[Statement],
        out: &mut Vec<Way>,
    ) -> Result<(), CountFault>
        requires few { self.old.copies ≤ 4096 }
        requires short { self.old.length ≤ 65537 }
        ensures ways { OnOk result (out.new.items ≡ out.old.items ++
            ways_of (Leavable (plain_statement body.now) (statements_of own.now))) }
        ensures copies { OnOk result (self.new.copies ≡ self.old.copies + copied (Leavable (plain_statement body.now)
            (statements_of own.now))) }
        ensures length { OnOk result (self.new.length ≡
            min (self.old.length + flat_size (Leavable (plain_statement body.now) (statements_of own.now))) 65537) }
        ensures few { Fits result (self.old.copies + copied (Leavable (plain_statement body.now)
            (statements_of own.now))) }
    {
        if own.len() > MOST_COPIES - self.copies {
            return Err(CountFault::TooManyCopies);
        }
        self.copies += own.len();
        self.add(own.len());
        let mut ways = Vec::new(alloc);
        self.count(alloc, body, &mut ways)?;
        put_beyond(out, own.len() + 1, &ways)?;
        self.count_all(alloc, own, out)
    }

    // A `try`. Its finally block is copied once for each exit of its body, and twice more.
    #[cycle(count)]
    #[inline(never)]
    #[tactic(auto, using(crate::proofs::More::too_many_more))]
    fn count_try(
        &mut self,
        alloc: Global,
        body: &Statement,
        finally: &Statement,
        out: &mut Vec<Way>,
    ) -> Result<(), CountFault>
        requires few { self.old.copies ≤ 4096 }
        requires short { self.old.length ≤ 65537 }
        ensures ways { OnOk result (out.new.items ≡ out.old.items ++
            ways_of (Try (plain_statement body.now) (plain_statement finally.now))) }
        ensures copies { OnOk result (self.new.copies ≡ self.old.copies + copied
            (Try (plain_statement body.now) (plain_statement finally.now))) }
        ensures length { OnOk result (self.new.length ≡
            min (self.old.length + flat_size (Try (plain_statement body.now) (plain_statement finally.now))) 65537) }
        ensures few { Fits result (self.old.copies + copied
            (Try (plain_statement body.now) (plain_statement finally.now))) }
    {
        let mut ways = Vec::new(alloc);
        self.count(alloc, body, &mut ways)?;
        put_all(out, &ways)?;
        let mut inside = Counting {
            copies: 0,
            length: 0,
        };
        let mut inner = Vec::new(alloc);
        inside.count(alloc, finally, &mut inner)?;
        let blocks = self.add_blocks(&ways, &inside)?;
        put_scaled(out, blocks, &inner)?;
        Ok(())
    }

    // The copies of a finally block for a body with these ways out, where one copy has what `inside` counts. Answers
    // how many copies there are.
    fn add_blocks(&mut self, ways: &[Way], inside: &Counting) -> Result<usize, CountFault>
        requires few { inside.now.copies ≤ 4096 }
        requires short { self.old.length ≤ 65537 }
        requires finally { inside.now.length ≤ 65537 }
        ensures count { IfOk result (λ n. n ≡ 2 + total ways.now) }
        ensures copies { OnOk result (self.new.copies ≡ self.old.copies + (2 + total ways.now) *
            (1 + inside.now.copies)) }
        ensures length { OnOk result (self.new.length ≡
            min (self.old.length + (2 + total ways.now) * (inside.now.length + 2) + 2 * returned ways.now + 4) 65537) }
        ensures few { Fits result (self.old.copies + (2 + total ways.now) * (1 + inside.now.copies)) }
    {
        let count = blocks_of(ways);
        let Some(copies) = with_copies(self.copies, count, inside.copies) else {
            return Err(CountFault::TooManyCopies);
        };
        self.copies = copies;
        self.length = with_length(self.length, count, inside.length, returns_of(ways));
        Ok(count)
    }
}
