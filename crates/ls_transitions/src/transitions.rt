// Stores and works by number, with the moves that are known.

ghost use Rattle.ls_transitions.specs.SeenTables.{tables_of};
ghost use Rattle.ls_transitions.specs.Known.{AreKnown};

use crate::hash_index::HashIndex;
use crate::hashing;
use crate::moves::Move;
use crate::rows::{Row, find_move};
use crate::stores::copy_store;
use crate::tables::Tables;
use crate::threads::copy_thread;
use ls_checked::program::Program;
use ls_checked::tree::File;
use ls_source::thread::Thread;
use ls_source_store::store::Store;
use std::alloc::{AllocError, Global};

/// The stores and the works of a program's threads that have numbers, and the moves that have been made. A work is what
/// a thread still has to do. There are fewer than 2^32 stores, and fewer than 2^32 works.
#[derive(Drop)]
pub struct Transitions<'a> {
    pub(crate) tables: Tables<'a>,
    rows: Vec<Row>,
    row_hints: HashIndex,
    ghost known: { AreKnown (tables_of tables) rows.items },
}

impl<'a> Transitions<'a> {
    ghost use Rattle.std.specs.Prelude.{◌≡◌, ◌<◌, ◌≤◌, IfOk, Some, length, slice_get};
    ghost use Rattle.ls_checked.specs.Plain.{plain_file};
    ghost use Rattle.ls_checked.specs.PlainProgram.{plain_program};
    ghost use Rattle.ls_source_store.specs.SeenStore.{store_of};
    ghost use Rattle.ls_source.specs.SeenThread.{thread_of};
    ghost use Rattle.ls_transitions.specs.Tables.{Grows};
    ghost use Rattle.ls_transitions.specs.Moves.{IsMove};
    ghost use Rattle.ls_transitions.specs.SeenTables.{no_table};
    ghost use Rattle.ls_transitions.specs.Known.{IsKnown, row_of};
    ghost use Rattle.ls_transitions.specs.Seen.{table_of};

    /// Tables without stores and works.
    pub fn new(alloc: Global, file: &'a File, program: &'a Program) -> Transitions<'a>
        ensures { table_of result ≡ no_table (plain_file file.now) (plain_program program.now) }
    {
        Transitions {
            tables: Tables::new(alloc, file, program),
            rows: Vec::new(alloc),
            row_hints: HashIndex::new(alloc),
        }
    }

    /// A law: numbers are below 2^32.
    pub fn fits(&self)
        ensures stores { length (table_of self.now).stores ≤ 4294967295 }
        ensures works { length (table_of self.now).works ≤ 4294967295 }
    {}

    /// The number of a store. It is refused only if memory runs out, or if no number is left.
    #[tactic(auto, using(crate::proofs::Growing::grows_not))]
    pub fn store_number(&mut self, alloc: Global, store: &Store) -> Result<usize, AllocError>
        ensures number { IfOk result (λ n. slice_get (table_of self.new).stores n ≡ Some (store_of store.now)) }
        ensures grows { Grows (table_of self.old) (table_of self.new) }
    {
        let store = copy_store(alloc, store)?;
        self.tables.keep_store(alloc, store)
    }

    /// The number of what a thread still has to do. It is refused only if memory runs out, or if no number is left.
    #[tactic(auto, using(crate::proofs::Growing::grows_not))]
    pub fn work_number(&mut self, alloc: Global, thread: &Thread<'a>) -> Result<usize, AllocError>
        ensures number { IfOk result (λ n. slice_get (table_of self.new).works n ≡ Some (thread_of thread.now)) }
        ensures grows { Grows (table_of self.old) (table_of self.new) }
    {
        let work = copy_thread(alloc, thread)?;
        self.tables.keep_work(alloc, work)
    }

    /// The store of a number.
    pub fn store_at(&self, store: usize) -> &Store
        requires { store < length (table_of self.now).stores }
        ensures { slice_get (table_of self.now).stores store ≡ Some (store_of result.now) }
    {
        &self.tables.stores[store]
    }

    /// What a thread still has to do, by its number.
    pub fn work_at(&self, work: usize) -> &Thread<'a>
        requires { work < length (table_of self.now).works }
        ensures { slice_get (table_of self.now).works work ≡ Some (thread_of result.now) }
    {
        &self.tables.works[work]
    }

    // A move is kept. If memory runs out, it is not.
    fn keep(&mut self, alloc: Global, hash: u64, row: Row) -> Result<(), AllocError>
        requires { IsKnown (table_of self.old) row.thread row.store row.work row.made }
        ensures { table_of self.new ≡ table_of self.old }
    {
        self.rows.reserve(1)?;
        self.row_hints.add(alloc, hash)?;
        self.rows.push_reserved(row);
        Ok(())
    }

    // What a thread's next step does for the first time.
    #[inline(never)]
    fn make(
        &mut self,
        alloc: Global,
        hash: u64,
        thread: usize,
        store: usize,
        work: usize,
    ) -> Result<Move, AllocError>
        requires store { store < length (table_of self.old).stores }
        requires work { work < length (table_of self.old).works }
        ensures made { IfOk result (λ m. IsMove (table_of self.new) thread store work m) }
        ensures grows { Grows (table_of self.old) (table_of self.new) }
    {
        let made = self.tables.make(alloc, thread, store, work)?;
        let row = Row {
            thread,
            store,
            work,
            made,
        };
        self.keep(alloc, hash, row)?;
        Ok(made)
    }

    /// What a thread's next step does that has this work, at this store. It is refused only if memory runs out, or if
    /// no number is left. What has a number keeps it, also where it is refused.
    #[inline(always)]
    pub fn next(
        &mut self,
        alloc: Global,
        thread: usize,
        store: usize,
        work: usize,
    ) -> Result<Move, AllocError>
        requires store { store < length (table_of self.old).stores }
        requires work { work < length (table_of self.old).works }
        ensures made { IfOk result (λ m. IsMove (table_of self.new) thread store work m) }
        ensures grows { Grows (table_of self.old) (table_of self.new) }
    {
        let hash = hashing::hash_of_key(thread, store, work);
        match find_move(&self.rows, &self.row_hints, hash, thread, store, work) {
            Some(made) => Ok(made),
            None => self.make(alloc, hash, thread, store, work),
        }
    }
}
