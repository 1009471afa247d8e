// The data races of an image's program.

ghost use Rattle.std.specs.Prelude.{◌≡◌, ◌≤◌, [], IfOk, IsTrue, map};
ghost use Rattle.std.specs.Option.{option_copied};
ghost use Rattle.ls_race_laws.specs.Meeting.{NeverMeets};
ghost use Rattle.ls_races.specs.Extents.{IsRaceExtent};
ghost use Rattle.ls_races.specs.Races.{AllAreOn, AreRaces, kinds_of};
ghost use Rattle.ls_races.specs.Volatile.{volatile_by};
ghost use Rattle.ls_translation.specs.Texts.{file_of, program_of};
ghost use Rattle.ls_race_reports.specs.Sure.{first_sure};

use ls_image::image::Image;
use ls_races::{Race, Races, Scope, find_races, is_unsure};
use std::alloc::{AllocError, Global};

/// The races of an image's program, where at most so many states are kept, by the flags of the fields of each class.
/// The refusals are those of `find_races`.
pub fn races_of(
    alloc: Global,
    image: &Image,
    states: usize,
    flags: &[Vec<bool>],
) -> Result<Races, AllocError>
    requires room { 1 ≤ states }
    ensures races { IfOk result (λ r. AreRaces (volatile_by (map (λ v. v.items) flags.now)) [] (file_of image.now)
        (program_of image.now) r.races.items) }
    ensures none { IfOk result (λ r. IsTrue r.complete →
        AllAreOn (volatile_by (map (λ v. v.items) flags.now)) (kinds_of r.races.items) (file_of image.now)
        (program_of image.now)) }
    ensures extent { IfOk result (λ r. IsRaceExtent (volatile_by (map (λ v. v.items) flags.now))
        (kinds_of r.races.items) (file_of image.now) (program_of image.now) states r.states r.complete) }
{
    let found = find_races(Scope {
        alloc,
        file: image.checked().file(),
        program: image.program(),
        classes: flags,
        limit: states,
    })?;
    Ok(found)
}

/// Whether accesses of an image's program meet after no schedule. True only where that is so. The refusals are those of
/// `find_races`.
pub fn is_free(
    alloc: Global,
    image: &Image,
    states: usize,
    flags: &[Vec<bool>],
) -> Result<bool, AllocError>
    ensures { IfOk result (λ b. IsTrue b →
        NeverMeets (volatile_by (map (λ v. v.items) flags.now)) (file_of image.now) (program_of image.now)) }
{
    let free = ls_races::is_free(Scope {
        alloc,
        file: image.checked().file(),
        program: image.program(),
        classes: flags,
        limit: states,
    })?;
    Ok(free)
}

/// The first race on a variable that isn't volatile in any class that its object may be of.
pub fn first_sure<'a>(flags: &[Vec<bool>], races: &'a [Race]) -> Option<&'a Race>
    ensures { option_copied result ≡ first_sure (map (λ v. v.items) flags.now) races.now }
{
    match races {
        [] => None,
        [race, rest @ ..] => {
            if is_unsure(flags, race.on) {
                first_sure(flags, rest)
            } else {
                Some(race)
            }
        }
    }
}
