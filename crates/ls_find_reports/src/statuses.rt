// What a text says to a script.

ghost use Rattle.std.specs.Prelude.{◌≡◌, ◌||◌};
ghost use Rattle.ls_find_reports.specs.StatusLaws.{FoundIsThree, NoneBesideIsFive, NoneIsFourIfCut};
ghost use Rattle.ls_find_reports.specs.Statuses.{begins, behind_line, status_of, warns};

use ls_report::cuts::cut;

pub(crate) fn begins(text: &str, first: &str) -> bool
    ensures { result ≡ begins text.now first.now }
{
    text.starts_with(first)
}

/// What stands behind the first line of a text.
fn behind_line(text: &str) -> &str
    ensures { result.now ≡ behind_line text.now }
{
    match cut(text, '\n') {
        Some((_, behind)) => behind,
        None => "",
    }
}

/// Whether a text begins with a line on a menu that asks for no answer, on calls that run one at a time, or on a data
/// race that there is.
fn warns(text: &str) -> bool
    ensures { result ≡ warns text.now }
{
    begins(text, "// no call of the menu ")
        || begins(text, "// in ")
        || begins(text, "// data race on ")
}

/// The status of a text: 3 if a program is found. If none is, it is 4 if some are cut; else 5 if the first line beside
/// `none` tells of a menu that asks for no answer, of calls that run one at a time, or of a data race; and else 0.
pub fn status_of(text: &str) -> u8
    ensures { result ≡ status_of text.now }
{
    if begins(text, "// number ") {
        return 3;
    }
    if begins(text, "// none in what was explored") {
        return 4;
    }
    if begins(text, "// none\n") && warns(behind_line(behind_line(text))) {
        return 5;
    }
    0
}

/// What `print_found` prints has the status 3. What `print_none` prints, and what stands below it, has 4 if some are
/// cut. Else it has 5 if what stands below it begins with such a line, and 0 if not.
pub fn statuses_are_so()
    ensures found { FoundIsThree }
    ensures cut { NoneIsFourIfCut }
    ensures beside { NoneBesideIsFive }
{}
