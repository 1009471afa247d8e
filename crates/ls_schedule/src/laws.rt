// Laws of the definitions.

ghost use Rattle.ls_schedule.specs.RoundTrip.{ReadsBack};

/// What is printed of a schedule reads back as the same schedule. Its steps must be of threads that are there, and
/// the threads' names distinct names other than `all`.
pub fn reads_back()
    ensures { ReadsBack }
{}
