// Laws of the definitions.

ghost use Rattle.ls_live.specs.Due.{DueIsNotIdle};

/// If a thread is due, its step does something: the machine doesn't answer it `Idle`.
pub fn due_is_not_idle()
    ensures { DueIsNotIdle }
{}
