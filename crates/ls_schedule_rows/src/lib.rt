//! Schedule texts with steps or faults that were worked out by hand, and schedules with such texts. The definitions of
//! ls_schedule compute exactly these. This crate is above ls_schedule, so a new text doesn't change ls_schedule.
#![tactic(auto)]

ghost use Rattle.ls_schedule_rows.specs.Texts.{OneStepEach, NothingAtAll, EachGap, GapsRoundAText, Times, All};
ghost use Rattle.ls_schedule_rows.specs.Texts.{AllSeveralTimes, SetupIsZero, AllOfNone};
ghost use Rattle.ls_schedule_rows.specs.Faults.{ZeroTimes, BadCounts, BadNames, OtherGaps, UnknownNames};
ghost use Rattle.ls_schedule_rows.specs.Faults.{ReservedNames, FirstFault, PlacesOfFaults};
ghost use Rattle.ls_schedule_rows.specs.Groups.{VersionAlone, ItemsAlone, GroupsTimes, GroupsInARow, GapsInGroups};
ghost use Rattle.ls_schedule_rows.specs.Groups.{EightInOneAnother, GroupOfNone};
ghost use Rattle.ls_schedule_rows.specs.GroupFaults.{GroupsOfVersionOne, OtherVersions, NotClosed, EmptyGroups};
ghost use Rattle.ls_schedule_rows.specs.GroupFaults.{BadGroupCounts, WithoutGaps, NineInOneAnother, FirstOfGroups};
ghost use Rattle.ls_schedule_rows.specs.Limits.{LongCounts, LongGroupCounts, MostSteps, OneStepTooMany};
ghost use Rattle.ls_schedule_rows.specs.Limits.{CountsInOneAnother, GroupsPastTheLimit, FaultsBeforeTheLength};
ghost use Rattle.ls_schedule_rows.specs.Printed.{NoSteps, StepsInARow, NamesByNumber};

/// Texts that say steps.
pub fn texts()
    ensures one_step_each { OneStepEach }
    ensures nothing_at_all { NothingAtAll }
    ensures each_gap { EachGap }
    ensures gaps_round_a_text { GapsRoundAText }
    ensures times { Times }
    ensures all { All }
    ensures all_several_times { AllSeveralTimes }
    ensures setup_is_zero { SetupIsZero }
    ensures all_of_none { AllOfNone }
{}

/// Texts with a fault, and the place of the fault.
pub fn faults()
    ensures zero_times { ZeroTimes }
    ensures bad_counts { BadCounts }
    ensures bad_names { BadNames }
    ensures other_gaps { OtherGaps }
    ensures unknown_names { UnknownNames }
    ensures reserved_names { ReservedNames }
    ensures first_fault { FirstFault }
    ensures places_of_faults { PlacesOfFaults }
{}

/// Texts of version 2 that say steps, with groups.
pub fn groups()
    ensures version_alone { VersionAlone }
    ensures items_alone { ItemsAlone }
    ensures groups_times { GroupsTimes }
    ensures groups_in_a_row { GroupsInARow }
    ensures gaps_in_groups { GapsInGroups }
    ensures eight_in_one_another { EightInOneAnother }
    ensures group_of_none { GroupOfNone }
{}

/// Texts with groups that are refused, and the place.
pub fn group_faults()
    ensures groups_of_version_one { GroupsOfVersionOne }
    ensures other_versions { OtherVersions }
    ensures not_closed { NotClosed }
    ensures empty_groups { EmptyGroups }
    ensures bad_group_counts { BadGroupCounts }
    ensures without_gaps { WithoutGaps }
    ensures nine_in_one_another { NineInOneAnother }
    ensures first_of_groups { FirstOfGroups }
{}

/// Counts of many digits, and the most steps.
pub fn limits()
    ensures long_counts { LongCounts }
    ensures long_group_counts { LongGroupCounts }
    ensures most_steps { MostSteps }
    ensures one_step_too_many { OneStepTooMany }
    ensures counts_in_one_another { CountsInOneAnother }
    ensures groups_past_the_limit { GroupsPastTheLimit }
    ensures faults_before_the_length { FaultsBeforeTheLength }
{}

/// Schedules as texts.
pub fn printed()
    ensures no_steps { NoSteps }
    ensures steps_in_a_row { StepsInARow }
    ensures names_by_number { NamesByNumber }
{}
