// What holds of every walk.

ghost use Rattle.ls_choices.specs.Laws.{WalksAreTraced, WalksLead};

/// The lines along each walk are those of `trace`. After it all is told as after the path of the state to which it
/// leads.
pub fn walks_are_traced()
    ensures lines { WalksAreTraced }
    ensures leads { WalksLead }
{}
