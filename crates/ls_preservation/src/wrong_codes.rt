// What is refused, on wrong codes of small programs. The functions compute nothing, and their contracts say it.

ghost use Rattle.std.specs.Prelude.{◌≡◌, true};
ghost use Rattle.ls_code.specs.Machine.{loaded, machine_run};
ghost use Rattle.ls_preservation.specs.Example;
ghost use Rattle.ls_preservation.specs.Same.{Same};
ghost use Rattle.ls_preservation.specs.Threads.{Asks};
ghost use Rattle.ls_preservation.specs.InTime.{EndsInTime};
ghost use Rattle.ls_preservation.specs.Acting.{ActsInTime, acts_or_stops, first_did};
ghost use Rattle.ls_preservation.specs.WrongCodes as wrong;

/// These codes aren't the same as their texts. One stands still. Objects of one have a cell too many. One leaves out
/// a return. One has two threads in each other's place. One has a thread too few.
pub fn not_the_same()
    ensures still { Same Example.file Example.program wrong.still → ⊥ }
    ensures fat { Same Example.file Example.program wrong.fat → ⊥ }
    ensures mute { Same Example.file Example.program wrong.mute → ⊥ }
    ensures swapped { Same Example.file wrong.two wrong.swapped → ⊥ }
    ensures fewer { Same Example.file wrong.two wrong.fewer → ⊥ }
{}

/// To be the same is not enough. Code is still the same if its thread loops for ever after its last event, or if
/// its thread is stuck there. But such a thread neither asks what its source asks nor ends in time.
pub fn the_same_alone()
    ensures round_same { Same wrong.no_file wrong.no_calls wrong.goes_round }
    ensures round_asks { Asks wrong.no_file wrong.no_calls wrong.goes_round → ⊥ }
    ensures round_ends { EndsInTime wrong.no_file wrong.no_calls wrong.goes_round → ⊥ }
    ensures stuck_same { Same wrong.no_file wrong.no_calls wrong.stuck }
    ensures stuck_asks { Asks wrong.no_file wrong.no_calls wrong.stuck → ⊥ }
    ensures stuck_ends { EndsInTime wrong.no_file wrong.no_calls wrong.stuck → ⊥ }
{}

/// A thread that gives up once it has lost an exchange doesn't act in time. The lock is free again, and its source
/// takes it. A thread that looks again acts in three steps.
pub fn not_in_time()
    ensures gives_up { ActsInTime wrong.locking_file wrong.locking wrong.gives_up → ⊥ }
    ensures looks_again { acts_or_stops true (first_did 3 (machine_run (loaded wrong.looks_again 9) wrong.lost_race) 1)
        ≡ true }
{}
