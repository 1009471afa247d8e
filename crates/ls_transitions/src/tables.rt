// Stores and works by number, and the steps that are made from them.

ghost use Rattle.std.specs.Prelude.{◌≤◌, length};

use crate::hash_index::HashIndex;
use crate::moves::{Move, Step};
use crate::pools::{keep_store, keep_work};
use crate::stores::copy_store;
use crate::threads::copy_thread;
use ls_checked::program::Program;
use ls_checked::tree::File;
use ls_dead_locals::forgetting::forget;
use ls_events::action::Action;
use ls_events::value::Value;
use ls_source::next::Next;
use ls_source::thread::Thread;
use ls_source_store::store::Store;
use ls_source_store::thing::Effect;
use std::alloc::{AllocError, Global};

/// The stores and the works that have numbers, of a program of a file.
#[derive(Drop)]
pub struct Tables<'a> {
    pub(crate) file: &'a File,
    pub(crate) program: &'a Program,
    pub(crate) stores: Vec<Store>,
    pub(crate) works: Vec<Thread<'a>>,
    store_hints: HashIndex,
    work_hints: HashIndex,
    pub ghost few_stores: { length stores.items ≤ 4294967295 },
    pub ghost few_works: { length works.items ≤ 4294967295 },
}

impl<'a> Tables<'a> {
    ghost use Rattle.std.specs.Prelude.{◌≡◌, ◌<◌, IfOk, Some, map, slice_get};
    ghost use Rattle.ls_checked.specs.Plain.{plain_file};
    ghost use Rattle.ls_checked.specs.PlainProgram.{plain_program};
    ghost use Rattle.ls_source_store.specs.SeenStore.{store_of};
    ghost use Rattle.ls_source.specs.Calls.{asked_now};
    ghost use Rattle.ls_source.specs.SeenThread.{thread_of};
    ghost use Rattle.ls_source.specs.Kept.{action_in};
    ghost use Rattle.ls_transitions.specs.Tables.{Grows};
    ghost use Rattle.ls_transitions.specs.Moves.{IsMove};
    ghost use Rattle.ls_transitions.specs.Acting.{IsActed};
    ghost use Rattle.ls_transitions.specs.SeenTables.{tables_of, no_table};

    /// No stores and no works.
    pub(crate) fn new(alloc: Global, file: &'a File, program: &'a Program) -> Tables<'a>
        ensures { tables_of result ≡ no_table (plain_file file.now) (plain_program program.now) }
    {
        Tables {
            file,
            program,
            stores: Vec::new(alloc),
            works: Vec::new(alloc),
            store_hints: HashIndex::new(alloc),
            work_hints: HashIndex::new(alloc),
        }
    }

    /// The number of a store.
    pub(crate) fn keep_store(&mut self, alloc: Global, store: Store) -> Result<usize, AllocError>
        ensures number { IfOk result (λ n. slice_get (tables_of self.new).stores n ≡ Some (store_of store)) }
        ensures grows { Grows (tables_of self.old) (tables_of self.new) }
    {
        keep_store(alloc, &mut self.stores, &mut self.store_hints, store)
    }

    /// The number of a thread's work.
    pub(crate) fn keep_work(&mut self, alloc: Global, work: Thread<'a>) -> Result<usize, AllocError>
        ensures number { IfOk result (λ n. slice_get (tables_of self.new).works n ≡ Some (thread_of work.entry)) }
        ensures grows { Grows (tables_of self.old) (tables_of self.new) }
    {
        keep_work(alloc, &mut self.works, &mut self.work_hints, work)
    }

    // What the action does that a thread asks for. The thread goes on with the answer.
    fn act(
        &mut self,
        alloc: Global,
        thread: usize,
        store: usize,
        rest: Thread<'a>,
        action: &Action<Value>,
    ) -> Result<Move, AllocError>
        requires there { store < length (tables_of self.old).stores }
        requires asks { action_in (asked_now (plain_program self.old.program.now) (thread_of rest)) ≡ Some action.now }
        ensures acted { IfOk result (λ m. IsActed (tables_of self.new) thread store
            (thread_of rest.entry) action.now m) }
        ensures grows { Grows (tables_of self.old) (tables_of self.new) }
    {
        let mut after = copy_store(alloc, &self.stores[store])?;
        match after.act(alloc, &self.file.classes, thread, action)? {
            Effect::Waits => Ok(Move::Waits),
            Effect::Does(answer) => {
                let mut rest = rest;
                rest.take(self.file, answer);
                rest.settle(alloc, self.file)?;
                forget(&mut rest);
                let kept = self.keep_store(alloc, after)?;
                let work = self.keep_work(alloc, rest)?;
                Ok(Move::Acts(Step {
                    action: *action,
                    answer,
                    store: kept,
                    work,
                }))
            }
        }
    }

    /// What a thread's next step does, made from its work and the store.
    pub(crate) fn make(
        &mut self,
        alloc: Global,
        thread: usize,
        store: usize,
        work: usize,
    ) -> Result<Move, AllocError>
        requires store { store < length (tables_of self.old).stores }
        requires work { work < length (tables_of self.old).works }
        ensures made { IfOk result (λ m. IsMove (tables_of self.new) thread store work m) }
        ensures grows { Grows (tables_of self.old) (tables_of self.new) }
    {
        let mut rest = copy_thread(alloc, &self.works[work])?;
        rest.settle(alloc, self.file)?;
        match rest.asked(self.program) {
            None => Err(AllocError),
            Some(Next::Ended) => Ok(Move::Ended),
            Some(Next::Trapped) => Ok(Move::Trapped),
            Some(Next::Goes(action, _)) => self.act(alloc, thread, store, rest, &action),
        }
    }
}
