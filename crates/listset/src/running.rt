// A run of the program, with its outputs.

use crate::kept::Kept;
use crate::planning::Task;
use crate::sheets::Sheet;
use crate::telling::{Telling, tell};
use ls_outlets::{Framed, Outlet, Watched, write_out};
use std::alloc::Global;
use std::io::{Read, Write};
use std::sync::Wait;
use std::thread::Threads;

/// Where the program prints, and where it tells of faults.
pub(crate) struct Outputs<O, E> {
    pub(crate) out: O,
    pub(crate) err: E,
}

/// Ends a page whose data are printed, if they are. Answers the exit status.
fn end_page<O: Outlet, E: Outlet>(sheet: &Sheet, status: u8, out: &mut O, err: &mut E) -> u8 {
    if status != 0 {
        return status;
    }
    if write_out(out, sheet.tail.as_slice()) {
        return 0;
    }
    let _ = write_out(err, b"fault 83 WriteFailed\n".as_slice());
    1
}

/// Runs the program on a reader of its input. Answers the exit status.
pub(crate) fn run<H: Threads + Wait + Sync, R: Read, O: Write + Drop, E: Write + Drop>(
    rt: &H,
    alloc: Global,
    task: &Task,
    reader: &mut R,
    outputs: Outputs<O, E>,
) -> u8 {
    let words = task.words.as_slice();
    let Outputs { out, err } = outputs;
    let mut err = Watched::new(err);
    match &task.sheet {
        Some(sheet) => {
            let mut out = Framed::new(out, sheet.head.as_slice());
            let exit = ls_tool::run(rt, alloc, words, reader, &mut out, &mut err);
            end_page(sheet, exit.status, &mut out, &mut err)
        }
        None => {
            let mut out = Watched::new(out);
            ls_tool::run(rt, alloc, words, reader, &mut out, &mut err).status
        }
    }
}

/// Runs the program on an input that is read, and tells what is told beside that. Answers the exit status.
pub(crate) fn run_on<H: Threads + Wait + Sync, O: Write + Drop, E: Write + Drop>(
    rt: &H,
    alloc: Global,
    task: &Task,
    input: &[u8],
    outputs: Outputs<O, E>,
) -> u8 {
    let mut reader = input;
    match task.telling {
        Telling::Nothing => run(rt, alloc, task, &mut reader, outputs),
        _ => {
            let Outputs { out, err } = outputs;
            let mut out = Kept::new(alloc, out);
            let mut err = Watched::new(err);
            let words = task.words.as_slice();
            let exit = ls_tool::run(rt, alloc, words, &mut reader, &mut out, &mut err);
            match out.kept() {
                Some(printed) if exit.status == 0 => tell(
                    rt, alloc, task, input, printed, &mut err,
                ),
                _ => {}
            }
            exit.status
        }
    }
}
