// Class texts and programs.

/// Two threads that each add an item to a set.
pub const TWO_ADD: &str =
    "setup { s = new LazyList(); } thread A { s.add(1); } thread B { s.add(2); s.contains(2); }";

/// Two threads that end.
pub const STEPPER: &str = "class Counter {\n\
    int v;\n\
    void inc() { int t = v; int i = 0; while (i < 1) { i = i + 1; } v = t + 1; }\n\
    int get() { return v; }\n\
}\n";

/// Two threads that call its method.
pub const TWO_STEP: &str =
    "setup { c = new Counter(); } thread A { c.inc(); } thread B { c.inc(); c.get(); }";

/// Two threads that count for ever, one at a time.
pub const COUNTER: &str = "class Counter { int count; Lock lock = new ReentrantLock(); \
    void up() { while (true) { lock.lock(); count = count + 1; lock.unlock(); } } }";

/// Two threads that call its method.
pub const TWO_COUNT: &str =
    "setup { c = new Counter(); } thread A { c.up(); } thread B { c.up(); }";
