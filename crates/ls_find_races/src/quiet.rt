// The judge of programs that explores them, and looks for their data races in the states in which it looks for threads
// that turn for ever.

ghost use Rattle.std.specs.Prelude.{◌≡◌, ◌++◌, IfOk, IsTrue, Option as OptionValue, map, replicate, true};
ghost use Rattle.ls_family_search.specs.Judged.{IsJudgement};
ghost use Rattle.ls_family_search.specs.declared.judging.Passed.TheVariants as passed;
ghost use Rattle.ls_find.specs.Found.{IsGivenBy, Text};
ghost use Rattle.ls_find.specs.Sought.{AllNamed, EndsWell, IsGoodFor};
ghost use Rattle.ls_find.specs.declared.verdict.ProgramVerdict.TheVariants.{Good};
ghost use Rattle.ls_find_races.specs.Quiet.{IsQuiet, but_turning};
ghost use Rattle.ls_image.specs.Images.{Compiles};
ghost use Rattle.ls_race_laws.specs.Meeting.{NeverMeets};
ghost use Rattle.ls_race_reports.specs.ClassFlags.{AreFlags};
ghost use Rattle.ls_races.specs.Volatile.{volatile_by};
ghost use Rattle.ls_specification.specs.Specification.{given_of, spec_file, spec_program};
ghost use Rattle.ls_spinning.specs.Told.{IsTurning};
ghost use Rattle.ls_spinning.specs.Turning.{NeverTurns};
ghost use Rattle.ls_spinning.specs.declared.finding.Turning.TheVariants.{Never};
ghost use Rattle.ls_translation.specs.Texts.{file_of, program_of};

use crate::explorer::RaceWhy;
use crate::laws::race_free_follows;
use ls_compiler::compile;
use ls_family_search::{Finding, Judge, Judgement, Passed};
use ls_find::laws::sound_follows;
use ls_find::{Explorer, ProgramVerdict, Sought, exchanged_in, sought_verdict};
use ls_image::image::Image;
use ls_race_reports::flags_in;
use ls_races::{Scope, TurningAndRaces, turning_and_races};
use ls_specification::Specification;
use ls_spinning::Turning;
use ls_text_laws::source_is_readable;
use std::alloc::{AllocError, Global};

/// Why a search ends with a program: it isn't known that all is well, and that no accesses meet.
#[derive(Drop)]
pub struct Unsettled;

/// Explores each program of a class text, and looks for its data races.
#[derive(Drop)]
pub struct QuietExplorer<'a, 'b> {
    pub explorer: &'a Explorer<'b>,
}

/// The same is looked for, but threads that turn for ever.
fn but_turning(sought: Sought) -> Sought
    ensures { result ≡ but_turning sought }
{
    Sought {
        waiting: sought.waiting,
        turning: false,
        set: sought.set,
    }
}

/// Whether a verdict is that all is well.
fn is_good(verdict: &ProgramVerdict) -> bool
    ensures { IsTrue result → verdict.now ≡ Good }
{
    match verdict {
        ProgramVerdict::Good => true,
        ProgramVerdict::Unknown | ProgramVerdict::Bad(_, _) => false,
    }
}

/// Whether all is well with an image's program, but for threads that turn for ever. True only where that is so.
fn ends_well(
    alloc: Global,
    given: Option<Specification<'_>>,
    image: &Image,
    states: usize,
    sought: Sought,
) -> Result<bool, AllocError>
    requires { AllNamed (file_of image.now) (program_of image.now) }
    ensures { IfOk result (λ b. IsTrue b →
        EndsWell sought (given_of given.entry) (file_of image.now) (program_of image.now)) }
{
    let verdict = sought_verdict(alloc, given, image, states, but_turning(sought))?;
    Ok(is_good(&verdict))
}

/// What the graph of an image's program tells of threads that turn for ever and of data races, by the flags of its
/// classes' fields.
fn read_graph(
    alloc: Global,
    image: &Image,
    flags: &[Vec<bool>],
    states: usize,
) -> Result<TurningAndRaces, AllocError>
    ensures turning { IfOk result (λ r. IsTurning (file_of image.now) (program_of image.now) r.turning) }
    ensures races { IfOk result (λ r. IsTrue r.race_free →
        NeverMeets (volatile_by (map (λ v. v.items) flags.now)) (file_of image.now) (program_of image.now)) }
{
    let told = turning_and_races(Scope {
        alloc,
        file: image.checked().file(),
        program: image.program(),
        classes: flags,
        limit: states,
    })?;
    Ok(told)
}

/// Whether threads turn for ever after no schedule. True only where that is told.
fn is_never(turning: &Turning) -> bool
    ensures { IsTrue result → turning.now ≡ Never }
{
    match turning {
        Turning::Never => true,
        Turning::Unknown | Turning::After(_) => false,
    }
}

/// Whether accesses of an image's program never meet, and its threads never turn for ever if that is looked for. True
/// only where that is so. One graph of states tells both.
fn is_still(
    alloc: Global,
    image: &Image,
    flags: &[Vec<bool>],
    states: usize,
    turning: bool,
) -> Result<bool, AllocError>
    ensures races { IfOk result (λ b. IsTrue b →
        NeverMeets (volatile_by (map (λ v. v.items) flags.now)) (file_of image.now) (program_of image.now)) }
    ensures turns { IfOk result (λ b. IsTrue b → turning ≡ true →
        NeverTurns (file_of image.now) (program_of image.now)) }
{
    let told = read_graph(alloc, image, flags, states)?;
    if !told.race_free {
        return Ok(false);
    }
    if !turning {
        return Ok(true);
    }
    Ok(is_never(&told.turning))
}

/// Whether an image's program is good for what is looked for, and its accesses never meet. True only where that is so.
fn is_settled(
    alloc: Global,
    given: Option<Specification<'_>>,
    image: &Image,
    flags: &[Vec<bool>],
    states: usize,
    sought: Sought,
) -> Result<bool, AllocError>
    requires { AllNamed (file_of image.now) (program_of image.now) }
    ensures good { IfOk result (λ b. IsTrue b →
        IsGoodFor sought (given_of given.entry) (file_of image.now) (program_of image.now)) }
    ensures free { IfOk result (λ b. IsTrue b →
        NeverMeets (volatile_by (map (λ v. v.items) flags.now)) (file_of image.now) (program_of image.now)) }
{
    let still = is_still(alloc, image, flags, states, sought.turning)?;
    if !still {
        return Ok(false);
    }
    let well = ends_well(alloc, given, image, states, sought)?;
    Ok(well)
}

/// What is said of an image.
fn judged(
    alloc: Global,
    given: Option<Specification<'_>>,
    image: &Image,
    flags: &[Vec<bool>],
    explorer: &Explorer<'_>,
) -> Result<Judgement<Unsettled>, AllocError>
    requires { AllNamed (file_of image.now) (program_of image.now) }
    ensures { IfOk result (λ j. (specification : OptionValue Text) (classes program : Text) →
        IsGivenBy specification program (given_of given.entry) → AreFlags classes (map (λ v. v.items) flags.now) →
        Compiles classes program image.now →
        IsJudgement (IsQuiet explorer.now.sought specification classes program) ⊥ (λ why. Unit {0}) j) }
{
    if is_settled(alloc, given, image, flags, explorer.states, explorer.sought)? {
        return Ok(Judgement::Good);
    }
    Ok(Judgement::Halt(Unsettled))
}

/// The program of an image as a specification.
fn own(image: &Image) -> Specification<'_>
    ensures file { spec_file result ≡ file_of image.now }
    ensures program { spec_program result ≡ program_of image.now }
{
    Specification::own(image.checked().file(), image.program())
}

impl<'a, 'b> Judge for QuietExplorer<'a, 'b> {
    ghost use Rattle.std.specs.Prelude.{option_map};
    ghost use Rattle.ls_find_races.specs.Quiet.{IsQuiet};
    ghost use Rattle.ls_items.specs.Cutting.{plain_text};

    type Why = Unsettled;

    ghost IsGood = { λ e program. IsQuiet e.explorer.now.sought (option_map plain_text e.explorer.now.specification)
        e.explorer.now.classes.now program };

    ghost IsCut = { λ e program. ⊥ };

    ghost Halts = { λ e program why. Unit {0} };

    fn judge(&self, alloc: Global, program: &str) -> Result<Judgement<Unsettled>, AllocError> {
        source_is_readable();
        let explorer = self.explorer;
        let Ok(image) = compile(alloc, explorer.classes, program) else {
            return Ok(Judgement::Halt(Unsettled));
        };
        let flags = flags_in(alloc, explorer.classes)?;
        let Some(specification) = explorer.specification else {
            return judged(alloc, None, &image, &flags, explorer);
        };
        match compile(alloc, specification, program) {
            Ok(other) => judged(alloc, Some(own(&other)), &image, &flags, explorer),
            Err(_) => Ok(Judgement::Halt(Unsettled)),
        }
    }

    fn follows(&self, alloc: Global, program: &str, other: &str) -> Result<bool, AllocError> {
        sound_follows();
        race_free_follows();
        let explorer = self.explorer;
        let Some(place) = exchanged_in(explorer.classes, alloc, other, program) else {
            return Ok(false);
        };
        let Some(specification) = explorer.specification else {
            return Ok(true);
        };
        match exchanged_in(specification, alloc, other, program) {
            Some(same) => Ok(same == place),
            None => Ok(false),
        }
    }
}

/// So many programs, passed as good.
fn good_ones(alloc: Global, many: u64) -> Result<Vec<Passed>, AllocError>
    ensures { IfOk result (λ all. all.items ≡ replicate many passed.Good) }
{
    let mut all = Vec::new(alloc);
    for number in 0..many {
        all.push(Passed::Good)?;
    }
    Ok(all)
}

/// What a search for data races from a number on finds, with the programs before that one passed as good.
pub fn with_free(
    alloc: Global,
    many: u64,
    finding: Finding<RaceWhy>,
) -> Result<Finding<RaceWhy>, AllocError>
    ensures passed { IfOk result (λ all. all.passed.items ≡ replicate many passed.Good ++ finding.passed.items) }
    ensures halted { IfOk result (λ all. all.halted ≡ finding.halted) }
{
    let Finding { passed, halted } = finding;
    let mut all = good_ones(alloc, many)?;
    all.extend_from_slice(passed.as_slice())?;
    Ok(Finding {
        passed: all,
        halted,
    })
}
