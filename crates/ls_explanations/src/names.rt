// What is said of a name that names nothing.

ghost use Rattle.std.specs.Prelude.{◌≡◌};
ghost use Rattle.ls_explanations.specs.Names.{library_lesson, method_lesson, pair_lesson};

/// Names of the library of Java.
fn library_lesson(name: &[u8]) -> &'static str
    ensures { result.now ≡ library_lesson name.now }
{
    if name == b"length".as_slice() {
        "the length of an array isn't supported: keep it in a field\n"
    } else if name == b"System".as_slice() {
        "printing isn't supported: remove it. Histories and traces show what each step does\n"
    } else if name == b"Math".as_slice() {
        "`Math` isn't supported: write out what it computes\n"
    } else if name == b"Thread".as_slice() || name == b"ThreadID".as_slice() {
        "`Thread` isn't supported: remove `yield`, `sleep`, `onSpinWait`; pass a number, as `thread A { c.m(0); }`\n"
    } else {
        ""
    }
}

/// Methods of AtomicReference that AtomicMarkableReference has with other arguments.
pub(crate) fn pair_lesson(name: &[u8]) -> &'static str
    ensures { result.now ≡ pair_lesson name.now }
{
    if name == b"get".as_slice() {
        "`get` of an AtomicMarkableReference also fills a `boolean[]`: use `getReference()`\n"
    } else if name == b"set".as_slice() {
        "`set` of an AtomicMarkableReference takes a mark too: use `set(a, false)`\n"
    } else if name == b"compareAndSet".as_slice() {
        "`compareAndSet` of an AtomicMarkableReference takes marks too: use `compareAndSet(a, b, false, false)`\n"
    } else {
        ""
    }
}

/// Methods that each object has in Java.
pub(crate) fn method_lesson(name: &[u8]) -> &'static str
    ensures { result.now ≡ method_lesson name.now }
{
    if name == b"wait".as_slice()
        || name == b"notify".as_slice()
        || name == b"notifyAll".as_slice()
        || name == b"await".as_slice()
        || name == b"signal".as_slice()
        || name == b"signalAll".as_slice()
        || name == b"newCondition".as_slice()
    {
        "`wait` and `notify` aren't supported: loop with `lock.unlock(); lock.lock();` of a lock\n"
    } else if name == b"hashCode".as_slice()
        || name == b"equals".as_slice()
        || name == b"toString".as_slice()
    {
        "an object has only the methods of its class: use a key of type `int`\n"
    } else {
        library_lesson(name)
    }
}
