// What steps did, mixed into one number. Two lists of steps that differ almost never have the same number.

use ls_code::step::Did;
use ls_events::action::{Action, Answer};

fn int_number(int: i32) -> u64 {
    u64::from(int.cast_unsigned())
}

// Which action, and what it names and holds.
fn object_numbers(action: Action<u64>) -> [u64; 4] {
    match action {
        Action::ReadField { object, field } => [0, object, field as u64, 0],
        Action::WriteField {
            object,
            field,
            value,
        } => [1, object, field as u64, value],
        Action::ReadItem { array, index } => [2, array, 0, int_number(index)],
        Action::WriteItem {
            array,
            index,
            value,
        } => [3, array, value, int_number(index)],
        Action::ReadName(name) => [4, name as u64, 0, 0],
        Action::WriteName(name, value) => [5, name as u64, value, 0],
        Action::New(class) => [6, class as u64, 0, 0],
        Action::NewLock => [7, 0, 0, 0],
        Action::NewMarkable(pair) => [8, pair, 0, 0],
        Action::NewArray(len) => [9, 0, 0, int_number(len)],
        Action::Lock(lock) => [10, lock, 0, 0],
        Action::Unlock(lock) => [11, lock, 0, 0],
        Action::TryLock(lock) => [12, lock, 0, 0],
        Action::IsHeld(lock) => [13, lock, 0, 0],
        _ => thread_numbers(action),
    }
}

fn thread_numbers(action: Action<u64>) -> [u64; 4] {
    match action {
        Action::ReadPair(markable) => [14, markable, 0, 0],
        Action::SetPair(markable, pair) => [15, markable, pair, 0],
        Action::SwapPair {
            markable,
            expected,
            new,
        } => [16, markable, expected, new],
        Action::AttemptMark {
            markable,
            reference,
            mark,
        } => [17, markable, reference, u64::from(mark)],
        Action::Turn => [18, 0, 0, 0],
        Action::Enter(method) => [19, method as u64, 0, 0],
        Action::Call(call) => [20, call as u64, 0, 0],
        Action::Return(call, None) => [21, call as u64, 0, 0],
        Action::Return(call, Some(word)) => [22, call as u64, word, 0],
        Action::Trap(call, kind) => [23, call as u64, kind as u64, 0],
        Action::LockMonitor(object) => [25, object, 0, 0],
        Action::UnlockMonitor(object) => [26, object, 0, 0],
        _ => [24, 0, 0, 0],
    }
}

fn answer_numbers(answer: Answer<u64>) -> [u64; 2] {
    match answer {
        Answer::Done => [0, 0],
        Answer::Gives(word) => [1, word],
        Answer::Fails(kind) => [2, kind as u64],
    }
}

/// The number with one more mixed in.
pub fn mixed(digest: u64, number: u64) -> u64 {
    digest
        .wrapping_mul(6_364_136_223_846_793_005)
        .wrapping_add(number)
        .wrapping_add(1_442_695_040_888_963_407)
}

/// The number with what a step did mixed in.
pub fn with_did(digest: u64, did: Did) -> u64 {
    match did {
        Did::Silent => mixed(digest, 25),
        Did::Waits => mixed(digest, 26),
        Did::Idle => mixed(digest, 27),
        Did::Stopped => mixed(digest, 28),
        Did::Acted(action, answer) => {
            let [form, first, second, third] = object_numbers(action);
            let [kind, word] = answer_numbers(answer);
            let digest = mixed(mixed(digest, form), first);
            let digest = mixed(mixed(digest, second), third);
            mixed(mixed(digest, kind), word)
        }
    }
}
