// What is said of lines of a Java file.

use ls_java_output::lines::line_at;
use ls_java_tables::remarks::{What, Why};
use ls_java_tables::restater::Restater;
use ls_java_tables::words::WordId;
use std::alloc::{AllocError, Global};

/// What is said: what was restated otherwise than it is written, or why it can't be restated.
#[derive(Copy)]
pub enum Said {
    Note(What),
    Refusal(Why),
}

impl Clone for Said {
    fn clone(&self) -> Result<Said, AllocError> {
        Ok(*self)
    }
}

/// What is said of a line, from 1, at a token. `word` is the word that is meant, or empty.
#[derive(Drop)]
pub struct Remark {
    pub line: usize,
    pub token: usize,
    pub word: String,
    pub said: Said,
}

// A remark at a token.
fn made_remark(
    alloc: Global,
    restater: &Restater,
    lines: &[usize],
    place: (usize, WordId),
    said: Said,
) -> Result<Remark, AllocError> {
    let (token, word) = place;
    Ok(Remark {
        line: line_at(lines, token),
        token,
        word: String::from_str(alloc, restater.words.text(word))?,
        said,
    })
}

/// What was restated otherwise than it is written, in the order of the file.
pub fn notes_of(
    alloc: Global,
    restater: &mut Restater,
    lines: &[usize],
) -> Result<Vec<Remark>, AllocError> {
    restater.notes.sort_by_key(|note| note.token)?;
    let mut all = Vec::new(alloc);
    for note in &restater.notes {
        let said = Said::Note(note.what);
        let one = made_remark(alloc, restater, lines, (note.token, note.word), said)?;
        all.push(one)?;
    }
    Ok(all)
}

/// What can't be restated, in the order of the file.
pub fn refusals_of(
    alloc: Global,
    restater: &mut Restater,
    lines: &[usize],
) -> Result<Vec<Remark>, AllocError> {
    restater.refusals.sort_by_key(|refusal| refusal.token)?;
    let mut all = Vec::new(alloc);
    for refusal in &restater.refusals {
        let said = Said::Refusal(refusal.why);
        let place = (refusal.token, refusal.word);
        let one = made_remark(alloc, restater, lines, place, said)?;
        all.push(one)?;
    }
    Ok(all)
}
