// A trace in which neighbouring steps that change nothing are one line.

ghost use Rattle.std.specs.Prelude.{◌≡◌, ◌<◌, ◌++◌, ◌^◌, [], None, Some, IfOk, OnOk, if◌then◌else◌, map, option_map};
ghost use Rattle.std.specs.Prelude.{slice_index_or, string_bytes};
ghost use Rattle.ls_labels.specs.Names.{names_of};
ghost use Rattle.ls_report.specs.Events.{Text};
ghost use Rattle.ls_trace.specs.Folds.{counted, folded_text};
ghost use Rattle.ls_trace.specs.Laws.{FoldedChangeNothing, FoldsTheTrace};
ghost use Rattle.ls_trace.specs.Manners.{manner_of};
ghost use Rattle.ls_trace.specs.SeenFolder.{fold_of, open_with, written_with};

use crate::fold::{Span, push_fold, takes_in, with_next};
use crate::manner::manner_of;
use crate::teller::{Teller, no_steps};
use ls_labels::names::Names;
use ls_meaning::step::Did;
use std::alloc::{AllocError, Global};

/// A run whose steps are told, with how many steps each thread has had. Also the steps whose line isn't written yet,
/// and what is told of the last of them.
#[derive(Drop)]
pub(crate) struct Folder<'a> {
    teller: Teller<'a>,
    counts: Vec<usize>,
    span: Option<Span>,
    words: String,
}

// Counts one more step of a thread, and answers how many it has had then. A number of no thread has none.
fn count_step(counts: &mut Vec<usize>, thread: usize) -> usize
    requires { slice_index_or counts.old.items thread 0 < 2 ^ 63 }
    ensures counts { counts.new.items ≡ counted counts.old.items thread }
    ensures own { result ≡ slice_index_or counts.new.items thread 0 }
{
    if thread >= counts.len() {
        return 0;
    }
    let own = counts[thread] + 1;
    counts[thread] = own;
    own
}

// A step by itself.
fn span_of(number: usize, own: usize, thread: usize, did: Did) -> Span
    ensures { result ≡ record {
      number = number;
      last = number;
      own = own;
      own_last = own;
      thread = thread;
      manner =
          manner_of did;
    } }
{
    Span {
        number,
        last: number,
        own,
        own_last: own,
        thread,
        manner: manner_of(did),
    }
}

// The steps whose line isn't written once the next step is told; the line of those before it is, unless they take it
// in.
fn taken_in(
    out: &mut String,
    span: Option<Span>,
    words: &str,
    next: Span,
) -> Result<Span, AllocError>
    ensures out { OnOk result (string_bytes out.new
        ≡ string_bytes out.old ++ written_with (option_map (λ s. fold_of s words.now) span) (fold_of next [])) }
    ensures open { (new : Text) → IfOk result (λ s. fold_of s new
        ≡ open_with (option_map (λ s. fold_of s words.now) span) (fold_of next new)) }
{
    let Some(span) = span else {
        return Ok(next);
    };
    if takes_in(span, next) {
        return Ok(with_next(span, next));
    }
    push_fold(out, span, words)?;
    Ok(next)
}

impl<'a> Folder<'a> {
    ghost use Rattle.ls_trace.specs.SeenFolder.{next_of, open_line, open_of};
    ghost use Rattle.ls_trace.specs.SeenTeller.{RunsNamed, names_in, told_of};
    ghost use Rattle.ls_trace.specs.Told.{after_step, begun};

    // A run that hasn't made a step.
    #[tactic(auto, using(crate::proofs::Calls::zeros_is))]
    fn new(alloc: Global, names: Names<'a>) -> Result<Folder<'a>, AllocError>
        ensures run { IfOk result (λ f. told_of f.teller ≡ begun (names_of names.entry).program) }
        ensures names { IfOk result (λ f. names_in f.teller ≡ names_of names.entry) }
        ensures runs { IfOk result (λ f. RunsNamed f.teller) }
        ensures counts { IfOk result (λ f. f.counts.items ≡ map (λ t. 0) (names_of names.entry).program.threads) }
        ensures open { IfOk result (λ f. open_of f ≡ None) }
    {
        let counts = no_steps(alloc, &names.program.threads)?;
        let teller = Teller::new(alloc, names)?;
        Ok(Folder {
            teller,
            counts,
            span: None,
            words: String::new(alloc),
        })
    }

    // Makes a step of a thread, and tells it if it is to be told.
    fn step(
        &mut self,
        alloc: Global,
        out: &mut String,
        number: usize,
        thread: usize,
        is_told: bool,
    ) -> Result<(), AllocError>
        requires runs { RunsNamed self.old.teller }
        requires room { slice_index_or self.old.counts.items thread 0 < 2 ^ 63 }
        ensures run { OnOk result (told_of self.new.teller ≡
            after_step (names_in self.old.teller) (told_of self.old.teller) thread) }
        ensures names { names_in self.new.teller ≡ names_in self.old.teller }
        ensures runs { OnOk result (RunsNamed self.new.teller) }
        ensures counts { OnOk result (self.new.counts.items ≡ counted self.old.counts.items thread) }
        ensures out { OnOk result (string_bytes out.new
            ≡ string_bytes out.old ++ (if is_told then written_with (open_of self.old)
            (next_of self.old number thread) else [])) }
        ensures open { OnOk result (open_of self.new
            ≡ if is_told then Some (open_with (open_of self.old) (next_of self.old number thread)) else
            open_of self.old) }
    {
        let did = self.teller.step(alloc, thread)?;
        let own = count_step(&mut self.counts, thread);
        if !is_told {
            return Ok(());
        }
        let next = span_of(number, own, thread, did);
        let span = taken_in(out, self.span, self.words.as_str(), next)?;
        self.span = Some(span);
        self.words.clear();
        self.teller.push_step(alloc, &mut self.words, thread, &did)?;
        Ok(())
    }

    // Writes the line of the steps that are left.
    fn push_open(&self, out: &mut String) -> Result<(), AllocError>
        ensures { OnOk result (string_bytes out.new ≡ string_bytes out.old ++ open_line (open_of self.now)) }
    {
        match self.span {
            None => Ok(()),
            Some(span) => push_fold(out, span, self.words.as_str()),
        }
    }
}

/// A line for the steps of a schedule whose numbers, counted from 1, lie in `from..=to`. Neighbouring steps of one
/// thread that change nothing are one line. Beside each step's number stands its number among the steps of its thread.
/// Steps after `to` aren't made.
pub fn folded_trace(
    alloc: Global,
    names: Names,
    schedule: &[u8],
    from: usize,
    to: usize,
) -> Result<String, AllocError>
    ensures { IfOk result (λ text. string_bytes text ≡ folded_text (names_of names.entry) schedule.now from to) }
{
    let mut folder = Folder::new(alloc, names)?;
    let mut text = String::new(alloc);
    let steps = &schedule[..to.min(schedule.len())];
    for (place, thread) in steps.iter().enumerate() {
        let number = place + 1;
        let thread = *thread as usize;
        folder.step(alloc, &mut text, number, thread, from <= number)?;
    }
    folder.push_open(&mut text)?;
    Ok(text)
}

/// What is folded are the steps that `trace` tells. Only steps are folded that leave the store as it was and of which
/// no event comes.
pub fn folds_are_of_the_trace()
    ensures trace { FoldsTheTrace }
    ensures nothing { FoldedChangeNothing }
{}
