// Where the words of a class text come from.

/// A word of the class text, from byte `start` up to byte `end`, and the number of the file's token from which it
/// comes. That stands in the file from byte `at` up to byte `until`. `own` says that the word is spelled as that
/// token, and `goes` that it goes to the line of that token, where lines are kept.
#[derive(Clone, Copy, Debug, PartialEq, Eq)]
pub struct Place {
    pub start: usize,
    pub end: usize,
    pub token: usize,
    pub at: usize,
    pub until: usize,
    pub own: bool,
    pub goes: bool,
}

/// The token of the file from which the word comes in which a byte of the class text is, or before which it is.
pub fn token_at(places: &[Place], at: usize) -> Option<usize> {
    for place in places {
        if at < place.end {
            return Some(place.token);
        }
    }
    None
}
