// The laws, each as the contract of a function that computes nothing.

ghost use Rattle.ls_coarse_text.specs.Example.{ExampleIsTaken};
ghost use Rattle.ls_coarse_text.specs.Images.{CoarseListIsASet};
ghost use Rattle.ls_coarse_text.specs.Laws.{ListTextIsASet, TextIsSpelled, TextIsTheList};

use ls_coarse_set::laws::checked_list_is_a_set;
use ls_parser::parsing::one_file;
use ls_types_places::laws::no_places;
use ls_types_programs::reads_what_is_spelled;

/// The class text of the list with one lock spells a tree. So `parse_text` refuses this text only if memory runs out.
pub fn text_is_spelled()
    ensures { TextIsSpelled }
{}

/// Each file that this text spells is elaborated to the checked list. So it is with each text that differs from it in
/// gaps and comments alone.
pub fn text_is_the_list()
    ensures { TextIsTheList }
{
    one_file();
    no_places();
}

/// Take any program text of this class text. Its setup makes one list, and each int that it passes is below 2147483647.
/// The history of each schedule of source steps, of any length, has a legal order.
pub fn list_text_is_a_set()
    ensures { ListTextIsASet }
{
    checked_list_is_a_set();
    no_places();
    one_file();
}

/// Take the image that `compile` answers for this class text and such a program text. The history of each schedule of
/// source steps has a legal order. So has that of each schedule of instructions, for each number of cells.
pub fn coarse_list_is_a_set()
    ensures { CoarseListIsASet }
{
    list_text_is_a_set();
}

/// The laws aren't empty: they take a program text with two threads.
pub fn two_threads_are_taken()
    ensures { ExampleIsTaken }
{
    no_places();
    one_file();
    reads_what_is_spelled();
}
