// Words in the place of others.
ghost use Rattle.std.specs.Prelude.{◌≡◌, ◌≤◌, length, vec_capacity};

/// Puts other words in the place of these, in memory that is there.
pub(crate) fn overwrite(words: &mut Vec<u64>, others: &[u64])
    requires { length others.now ≤ vec_capacity words.old }
    ensures words { words.new.items ≡ others.now }
    ensures capacity { vec_capacity words.old ≤ vec_capacity words.new }
{
    words.clear();
    let Ok(()) = words.extend_from_slice(others) else {
        unreachable!()
    };
}
