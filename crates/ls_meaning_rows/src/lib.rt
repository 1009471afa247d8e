//! Programs whose whole traces were worked out by hand and by an independent stepper. The definitions of ls_meaning
//! compute exactly these traces. Each clause is one program with its schedule.
#![tactic(auto)]

ghost use Rattle.ls_meaning_rows.specs.Worked.{UpdateLost, ValueBeforeFinally, ReturnOverThrow, FinallyBeforeTrap};
ghost use Rattle.ls_meaning_rows.specs.Worked.{GetWithAnEmptyArray, GetBeforeItsTrap, HeldTwice};
ghost use Rattle.ls_meaning_rows.specs.DeepCalls.{SixtyFourCalls};
ghost use Rattle.ls_meaning_rows.specs.Lists.{LazyList};
ghost use Rattle.ls_meaning_rows.specs.Order.{TargetNullAfterArguments, FieldNullAfterValue, MethodArguments, Operands};
ghost use Rattle.ls_meaning_rows.specs.Order.{ConstructorArguments, AndLeftFalse, AndLeftTrue, OrLeftTrue, OrLeftFalse};
ghost use Rattle.ls_meaning_rows.specs.ArrayOrder.{ArrayNullAfterIndex, ArrayIndexValue, ArrayNullAfterValue};
ghost use Rattle.ls_meaning_rows.specs.ArrayOrder.{NegativeIndex, NegativeLength, IndexAtTheLength};
ghost use Rattle.ls_meaning_rows.specs.Markables.{ArgumentsOfTheMaking, ArgumentsOfSet, ArgumentsOfAttemptMark};
ghost use Rattle.ls_meaning_rows.specs.Markables.{ArgumentsOfCompareAndSet, NullTargetAfterArguments};
ghost use Rattle.ls_meaning_rows.specs.Markables.{NullTargetOfGetAfterItsArray, NullArrayOfGetAfterTheRead};
ghost use Rattle.ls_meaning_rows.specs.MarkableResults.{GetWithTwoElements, ExpectedMarkIsWrong};
ghost use Rattle.ls_meaning_rows.specs.MarkableResults.{ExpectedReferenceIsWrong, ExchangeSetsBoth};
ghost use Rattle.ls_meaning_rows.specs.MarkableResults.{AttemptOfTheSameMark};
ghost use Rattle.ls_meaning_rows.specs.Comparisons.{Less, LessOrEqual, Greater, GreaterOrEqual, Equal, NotEqual};
ghost use Rattle.ls_meaning_rows.specs.Comparisons.{References, Booleans};
ghost use Rattle.ls_meaning_rows.specs.Operators.{Quotients, Remainders, Sums, Differences, Products, QuotientByZero};
ghost use Rattle.ls_meaning_rows.specs.Operators.{RemainderByZero, OppositeOfTheLeastInt};
ghost use Rattle.ls_meaning_rows.specs.Completions.{LocalsSetInFinally, LocalResetAtEachDeclaration, ReturnOverReturn};
ghost use Rattle.ls_meaning_rows.specs.Completions.{ReturnOverBreak, BreakOverReturn, ThrowOverReturn, ThrowOverThrow};
ghost use Rattle.ls_meaning_rows.specs.Completions.{ContinueOutOfATry, OuterLoops, NestedFinallyBlocksInOrder};
ghost use Rattle.ls_meaning_rows.specs.Completions.{ReturnEndsABlock, ReturnWithoutAValue, ElseBranch};
ghost use Rattle.ls_meaning_rows.specs.Threads.{NoStartBeforeTheSetupHasEnded, NoStartAfterATrapOfTheSetup};
ghost use Rattle.ls_meaning_rows.specs.Threads.{NoStepAfterATrap, ExceptionOfAnInitialiser, ExceptionOfAConstructor};
ghost use Rattle.ls_meaning_rows.specs.Threads.{AHeldLockIsWaitedFor, UnlockOfALockThatAnotherHolds, UnlockOfAFreeLock};
ghost use Rattle.ls_meaning_rows.specs.Threads.{HeldByAnother, TwoHoldsByTry};
ghost use Rattle.ls_meaning_rows.specs.Limits.{LastHold, HoldPastTheLast, TryPastTheLast, LockOfAnother, LastHoldLeft};
ghost use Rattle.ls_meaning_rows.specs.Limits.{OneHoldLeft, NegativeSize, NullName, EntryIsDone, TrappedIsNoEnd};
ghost use Rattle.ls_meaning_rows.specs.Limits.{NoThread, NotYet, EmptySetup};
ghost use Rattle.ls_meaning_rows.specs.Loops.{ExceptionOutOfALoop, ContinueSkipsTheRest, ContinueOutOfAnInnerBlock};
ghost use Rattle.ls_meaning_rows.specs.Loops.{BreakOutOfAnInnerBlock, ContinueOfTheOuterLoop};
ghost use Rattle.ls_meaning_rows.specs.Marks.{ExpectedMarkIsSet, SetIsRead, RefusedAttempt, AttemptClears};
ghost use Rattle.ls_meaning_rows.specs.Starts.{ProductsOfZero, FieldsStart};
ghost use Rattle.ls_meaning_rows.specs.Steps.{WholeHistory, StateOfARun, WaitsOrIdle, IdleAtFirst, AskedLater};
ghost use Rattle.ls_meaning_rows.specs.Steps.{AskedOnTheWay};
ghost use Rattle.ls_meaning_rows.specs.Monitors.{NoUpdateLost, OneStepLess, MonitorOfNull, UnlockedByTraps};
ghost use Rattle.ls_meaning_rows.specs.Monitors.{MonitorOfAnObject};
ghost use Rattle.ls_meaning_rows.specs.Additions.{NullBeforeValue, ReadBeforeValue, SumsWrap};

/// Whole runs.
pub fn runs()
    ensures update_lost { UpdateLost }
    ensures value_before_finally { ValueBeforeFinally }
    ensures return_over_throw { ReturnOverThrow }
    ensures finally_before_trap { FinallyBeforeTrap }
    ensures get_with_an_empty_array { GetWithAnEmptyArray }
    ensures get_before_its_trap { GetBeforeItsTrap }
    ensures sixty_four_calls { SixtyFourCalls }
    ensures held_twice { HeldTwice }
    ensures lazy_list { LazyList }
{}

/// The order of evaluation (JLS 15.7, 15.10.4, 15.12.4, 15.26.1).
pub fn evaluation()
    ensures target_null_after_arguments { TargetNullAfterArguments }
    ensures field_null_after_value { FieldNullAfterValue }
    ensures method_arguments { MethodArguments }
    ensures operands { Operands }
    ensures constructor_arguments { ConstructorArguments }
    ensures and_left_false { AndLeftFalse }
    ensures and_left_true { AndLeftTrue }
    ensures or_left_true { OrLeftTrue }
    ensures or_left_false { OrLeftFalse }
    ensures array_null_after_index { ArrayNullAfterIndex }
    ensures array_index_value { ArrayIndexValue }
    ensures array_null_after_value { ArrayNullAfterValue }
    ensures negative_index { NegativeIndex }
    ensures negative_length { NegativeLength }
    ensures index_at_the_length { IndexAtTheLength }
{}

/// Operations of markable references (java.util.concurrent.atomic.AtomicMarkableReference).
pub fn markables()
    ensures arguments_of_the_making { ArgumentsOfTheMaking }
    ensures arguments_of_set { ArgumentsOfSet }
    ensures arguments_of_attempt_mark { ArgumentsOfAttemptMark }
    ensures arguments_of_compare_and_set { ArgumentsOfCompareAndSet }
    ensures null_target_after_arguments { NullTargetAfterArguments }
    ensures null_target_of_get_after_its_array { NullTargetOfGetAfterItsArray }
    ensures null_array_of_get_after_the_read { NullArrayOfGetAfterTheRead }
    ensures get_with_two_elements { GetWithTwoElements }
    ensures expected_mark_is_wrong { ExpectedMarkIsWrong }
    ensures expected_reference_is_wrong { ExpectedReferenceIsWrong }
    ensures exchange_sets_both { ExchangeSetsBoth }
    ensures attempt_of_the_same_mark { AttemptOfTheSameMark }
{}

/// What the operators compute (JLS 15.15, 15.17, 15.18, 15.20, 15.21).
pub fn operators()
    ensures quotients { Quotients }
    ensures remainders { Remainders }
    ensures sums { Sums }
    ensures differences { Differences }
    ensures products { Products }
    ensures less { Less }
    ensures less_or_equal { LessOrEqual }
    ensures greater { Greater }
    ensures greater_or_equal { GreaterOrEqual }
    ensures equal { Equal }
    ensures not_equal { NotEqual }
    ensures quotient_by_zero { QuotientByZero }
    ensures remainder_by_zero { RemainderByZero }
    ensures opposite_of_the_least_int { OppositeOfTheLeastInt }
    ensures references { References }
    ensures booleans { Booleans }
{}

/// How statements complete (JLS 14).
pub fn completions()
    ensures locals_set_in_finally { LocalsSetInFinally }
    ensures local_reset_at_each_declaration { LocalResetAtEachDeclaration }
    ensures return_over_return { ReturnOverReturn }
    ensures return_over_break { ReturnOverBreak }
    ensures break_over_return { BreakOverReturn }
    ensures throw_over_return { ThrowOverReturn }
    ensures throw_over_throw { ThrowOverThrow }
    ensures continue_out_of_a_try { ContinueOutOfATry }
    ensures outer_loops { OuterLoops }
    ensures nested_finally_blocks_in_order { NestedFinallyBlocksInOrder }
    ensures return_ends_a_block { ReturnEndsABlock }
    ensures return_without_a_value { ReturnWithoutAValue }
    ensures else_branch { ElseBranch }
{}

/// Threads of a program, exceptions and locks (java.util.concurrent.locks.ReentrantLock).
pub fn threads()
    ensures no_start_before_the_setup_has_ended { NoStartBeforeTheSetupHasEnded }
    ensures no_start_after_a_trap_of_the_setup { NoStartAfterATrapOfTheSetup }
    ensures no_step_after_a_trap { NoStepAfterATrap }
    ensures exception_of_an_initialiser { ExceptionOfAnInitialiser }
    ensures exception_of_a_constructor { ExceptionOfAConstructor }
    ensures a_held_lock_is_waited_for { AHeldLockIsWaitedFor }
    ensures unlock_of_a_lock_that_another_holds { UnlockOfALockThatAnotherHolds }
    ensures unlock_of_a_free_lock { UnlockOfAFreeLock }
    ensures held_by_another { HeldByAnother }
    ensures two_holds_by_try { TwoHoldsByTry }
{}

/// What no short run reaches.
pub fn limits()
    ensures last_hold { LastHold }
    ensures hold_past_the_last { HoldPastTheLast }
    ensures try_past_the_last { TryPastTheLast }
    ensures lock_of_another { LockOfAnother }
    ensures last_hold_left { LastHoldLeft }
    ensures one_hold_left { OneHoldLeft }
    ensures negative_size { NegativeSize }
    ensures null_name { NullName }
    ensures entry_is_done { EntryIsDone }
    ensures trapped_is_no_end { TrappedIsNoEnd }
    ensures no_thread { NoThread }
    ensures not_yet { NotYet }
    ensures empty_setup { EmptySetup }
{}

/// What leaves a loop's body (JLS 14.2, 14.12.1, 14.15, 14.16).
pub fn loops()
    ensures exception_out_of_a_loop { ExceptionOutOfALoop }
    ensures continue_skips_the_rest { ContinueSkipsTheRest }
    ensures continue_out_of_an_inner_block { ContinueOutOfAnInnerBlock }
    ensures break_out_of_an_inner_block { BreakOutOfAnInnerBlock }
    ensures continue_of_the_outer_loop { ContinueOfTheOuterLoop }
{}

/// What a markable reference holds after an operation (java.util.concurrent.atomic.AtomicMarkableReference).
pub fn marks()
    ensures expected_mark_is_set { ExpectedMarkIsSet }
    ensures set_is_read { SetIsRead }
    ensures refused_attempt { RefusedAttempt }
    ensures attempt_clears { AttemptClears }
{}

/// Zero as a factor, and the start values of fields (JLS 15.17.1, 4.12.5).
pub fn starts()
    ensures products_of_zero { ProductsOfZero }
    ensures fields_start { FieldsStart }
{}

/// Whole histories, and what a step and the question for the next step say of a thread.
pub fn steps()
    ensures whole_history { WholeHistory }
    ensures state_of_a_run { StateOfARun }
    ensures waits_or_idle { WaitsOrIdle }
    ensures idle_at_first { IdleAtFirst }
    ensures asked_later { AskedLater }
    ensures asked_on_the_way { AskedOnTheWay }
{}

/// Blocks and methods that hold a monitor (JLS 8.4.3.6, 14.19, 17.1).
pub fn monitors()
    ensures no_update_lost { NoUpdateLost }
    ensures one_step_less { OneStepLess }
    ensures monitor_of_null { MonitorOfNull }
    ensures unlocked_by_traps { UnlockedByTraps }
    ensures monitor_of_an_object { MonitorOfAnObject }
{}

/// `+=`, `++` and `--` on a field (JLS 15.14.2, 15.26.2).
pub fn additions()
    ensures null_before_value { NullBeforeValue }
    ensures read_before_value { ReadBeforeValue }
    ensures sums_wrap { SumsWrap }
{}
