// Where runs stand, so that it is noticed if one comes back there.

ghost use Rattle.std.specs.Prelude.{◌≡◌, [], IfOk, IsTrue, OnOk, map};
ghost use Rattle.ls_source.specs.SeenThread.{thread_of};

use ls_source::playing::Playing;
use ls_source::thread::Thread;
use ls_source_store::store::Store;
use ls_transitions::stores::{copy_store, is_same_store};
use ls_transitions::threads::{copy_thread, is_same_thread};
use std::alloc::{AllocError, Global};

/// Where a run stands: its store, and what each thread still has to do.
#[derive(Drop)]
pub struct Mark<'a> {
    pub store: Store,
    pub threads: Vec<Thread<'a>>,
}

/// Fills the copies, of which there are none yet, with threads that still have to do the same. The only refusal is that
/// memory ran out.
fn fill<'a>(
    alloc: Global,
    copies: &mut Vec<Thread<'a>>,
    threads: &[Thread<'a>],
) -> Result<(), AllocError>
    requires { copies.old.items ≡ [] }
    ensures { OnOk result (map thread_of copies.new.items ≡ map thread_of threads.now) }
{
    for thread in threads {
        let copy = copy_thread(alloc, thread)?;
        copies.push(copy)?;
    }
    Ok(())
}

/// Threads that still have to do the same. The only refusal is that memory ran out.
pub(crate) fn copy_threads<'a>(
    alloc: Global,
    threads: &[Thread<'a>],
) -> Result<Vec<Thread<'a>>, AllocError>
    ensures { IfOk result (λ v. map thread_of v.items ≡ map thread_of threads.now) }
{
    let mut copies = Vec::new(alloc);
    fill(alloc, &mut copies, threads)?;
    Ok(copies)
}

/// Whether threads still have to do the same, one by one. True only where they have.
fn are_same_threads<'a>(threads: &[Thread<'a>], others: &[Thread<'a>]) -> bool
    ensures { IsTrue result → map thread_of threads.now ≡ map thread_of others.now }
{
    if threads.len() != others.len() {
        return false;
    }
    for (i, thread) in threads.iter().enumerate() {
        if !is_same_thread(thread, &others[i]) {
            return false;
        }
    }
    true
}

impl<'a> Mark<'a> {
    ghost use Rattle.ls_serial_search.specs.Marks.{IsMarkOf};

    /// Where a run stands. The only refusal is that memory ran out.
    pub fn of(alloc: Global, run: &Playing<'a>) -> Result<Mark<'a>, AllocError>
        ensures { IfOk result (λ m. IsMarkOf m run.now) }
    {
        let store = copy_store(alloc, &run.store_and_events.store)?;
        let threads = copy_threads(alloc, &run.threads)?;
        Ok(Mark { store, threads })
    }

    /// Whether a run stands there. True only where it does.
    pub fn is_at(&self, run: &Playing<'a>) -> bool
        ensures { IsTrue result → IsMarkOf self.now run.now }
    {
        are_same_threads(&self.threads, &run.threads)
            && is_same_store(&self.store, &run.store_and_events.store)
    }
}
