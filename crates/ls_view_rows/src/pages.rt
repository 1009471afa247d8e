// What the definitions compute.

ghost use Rattle.ls_view_rows.specs.Pages.{EachEscape, OtherCharacters, StepsInTheMiddle, StepsThatSayTheSame};

/// Small texts as JSON strings.
pub fn texts()
    ensures escapes { EachEscape }
    ensures others { OtherCharacters }
{}

/// The data of some steps of a run.
pub fn windows()
    ensures middle { StepsInTheMiddle }
    ensures same { StepsThatSayTheSame }
{}
