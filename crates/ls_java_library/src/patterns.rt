// Texts with places for names.

use ls_java_tables::remarks::Stop;
use ls_java_tables::restater::Restater;
use ls_java_tables::ropes::Text;
use ls_java_tables::spelling::{append, phrase};

/// The token of what comes from no token of the file.
pub const NO_TOKEN: usize = usize::MAX;

/// What stands for `$` and for `@` in a pattern: the class's own name, and another type.
#[derive(Clone, Copy)]
pub struct Names {
    pub class: Text,
    pub other: Text,
}

/// The words of a pattern go to the end of what is written, with its names in it.
pub fn fill(
    restater: &mut Restater,
    out: &mut Text,
    pattern: &'static str,
    names: Names,
) -> Result<(), Stop> {
    for word in pattern.split_whitespace() {
        let text = if word == "$" {
            names.class
        } else if word == "@" {
            names.other
        } else {
            phrase(restater, word, NO_TOKEN)?
        };
        append(restater, out, text)?;
    }
    Ok(())
}
