// The lines of a program that is found.

ghost use Rattle.std.specs.Prelude.{◌≡◌, Some, option_map};
ghost use Rattle.ls_find_reports.specs.Programs.{are_lines, behind_line, behind_note, behind_one, is_end};

use crate::statuses::begins;
use ls_report::cuts::cut;

/// What stands behind the first line of a text, if that begins so.
fn behind_line<'a>(front: &str, text: Option<&'a str>) -> Option<&'a str>
    ensures { option_map (λ t. t.now) result ≡ behind_line front.now (option_map (λ t. t.now) text.entry) }
{
    let Some(text) = text else {
        return None;
    };
    if !begins(text, front) {
        return None;
    }
    match cut(text, '\n') {
        Some((_, rest)) => Some(rest),
        None => None,
    }
}

/// What stands behind a line of a comment, if a text begins with one.
fn behind_note(text: &str) -> Option<&str>
    ensures { option_map (λ t. t.now) result ≡ behind_note text.now }
{
    if begins(text, "// ") {
        return behind_line("// ", Some(text));
    }
    Some(text)
}

/// What stands behind the lines of the setup and of the first thread.
fn behind_one(text: &str) -> Option<&str>
    ensures { option_map (λ t. t.now) result ≡ behind_one text.now }
{
    let setup = behind_line("setup { ", behind_note(text));
    behind_line("thread A { ", setup)
}

/// Whether a text is there, and nothing stands in it.
fn is_end(text: Option<&str>) -> bool
    ensures { result ≡ is_end (option_map (λ t. t.now) text.entry) }
{
    match text {
        Some(text) => text.is_empty(),
        None => false,
    }
}

/// Whether the lines of a text are those of a setup and of one thread to four, in order, below a line of a comment if
/// there is one.
pub(crate) fn are_lines(text: &str) -> bool
    ensures { result ≡ are_lines text.now }
{
    let one = behind_one(text);
    let two = behind_line("thread B { ", one);
    let three = behind_line("thread C { ", two);
    let four = behind_line("thread D { ", three);
    is_end(one) || is_end(two) || is_end(three) || is_end(four)
}
