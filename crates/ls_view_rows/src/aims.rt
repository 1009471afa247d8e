// What the definitions compute.

ghost use Rattle.ls_view_rows.specs.Aims.{Divided, HalfQuoted, Lost, Missed, Said, Steps};

/// The items of a text, and what targets say.
pub fn readings()
    ensures divided { Divided }
    ensures said { Said }
    ensures half_quoted { HalfQuoted }
{}

/// The schedules to which targets lead, and targets that aren't met.
pub fn schedules()
    ensures steps { Steps }
    ensures missed { Missed }
    ensures lost { Lost }
{}
