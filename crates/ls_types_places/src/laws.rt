// Why the elaboration of a class text doesn't depend on places.

ghost use Rattle.ls_types_places.specs.Laws.{NoPlaces, OneAnswer};

use ls_parser::parsing::one_file;

/// If two trees differ in their places alone, they have the same outcome, or break the same rule.
pub fn no_places()
    ensures { NoPlaces }
{}

/// If two files are both files of one text, they have the same outcome, or break the same rule. So a text that is
/// refused is refused for each of its files.
pub fn one_answer()
    ensures { OneAnswer }
{
    one_file();
}
