// The classes of the library by name: which kind each is, and why another one isn't there.

use crate::remarks::Why;
use crate::values::Kind;
use ls_java_tree::names::Name;

// Classes of the library without arguments of their own.
static PLAIN: [(&str, Kind); 14] = [
    ("Lock", Kind::Lock),
    ("ReentrantLock", Kind::Lock),
    ("Condition", Kind::Condition),
    ("ReadWriteLock", Kind::ReadWrite),
    ("ReentrantReadWriteLock", Kind::ReadWrite),
    ("ReadLock", Kind::ReadLock),
    ("WriteLock", Kind::WriteLock),
    ("AtomicInteger", Kind::AtomicInteger),
    ("AtomicBoolean", Kind::AtomicBoolean),
    ("AtomicIntegerArray", Kind::IntegerArray),
    ("Semaphore", Kind::Semaphore),
    ("CountDownLatch", Kind::Latch),
    ("Random", Kind::Random),
    ("Boolean", Kind::Boolean),
];

// Classes of the library with an argument.
static GENERIC: [&str; 4] = [
    "AtomicReference",
    "AtomicMarkableReference",
    "AtomicReferenceArray",
    "ThreadLocal",
];

// Classes of the library that aren't there, each with the reason.
static NOT_THERE: [(&str, Why); 51] = [
    ("List", Why::Collection),
    ("ArrayList", Why::Collection),
    ("LinkedList", Why::Collection),
    ("Map", Why::Collection),
    ("HashMap", Why::Collection),
    ("ConcurrentHashMap", Why::Collection),
    ("Set", Why::Collection),
    ("HashSet", Why::Collection),
    ("TreeMap", Why::Collection),
    ("TreeSet", Why::Collection),
    ("Queue", Why::Collection),
    ("Deque", Why::Collection),
    ("ArrayDeque", Why::Collection),
    ("Vector", Why::Collection),
    ("Stack", Why::Collection),
    ("Collection", Why::Collection),
    ("Iterator", Why::Collection),
    ("Iterable", Why::Collection),
    ("PriorityQueue", Why::Collection),
    ("ConcurrentLinkedQueue", Why::Collection),
    ("BlockingQueue", Why::Collection),
    ("LinkedBlockingQueue", Why::Collection),
    ("ArrayBlockingQueue", Why::Collection),
    ("CopyOnWriteArrayList", Why::Collection),
    ("ConcurrentSkipListMap", Why::Collection),
    ("CyclicBarrier", Why::Synchronizer),
    ("StampedLock", Why::Synchronizer),
    ("Phaser", Why::Synchronizer),
    ("Exchanger", Why::Synchronizer),
    ("Future", Why::Synchronizer),
    ("CompletableFuture", Why::Synchronizer),
    ("Thread", Why::Threads),
    ("Runnable", Why::Threads),
    ("Callable", Why::Threads),
    ("ExecutorService", Why::Threads),
    ("Executors", Why::Threads),
    ("Executor", Why::Threads),
    ("ThreadFactory", Why::Threads),
    ("String", Why::NoText),
    ("StringBuilder", Why::NoText),
    ("CharSequence", Why::NoText),
    ("Optional", Why::NoOptional),
    ("BigInteger", Why::BigNumber),
    ("BigDecimal", Why::BigNumber),
    ("Double", Why::OnlyIntAndBoolean),
    ("Float", Why::OnlyIntAndBoolean),
    ("Character", Why::OnlyIntAndBoolean),
    ("Short", Why::OnlyIntAndBoolean),
    ("Byte", Why::OnlyIntAndBoolean),
    ("var", Why::Var),
    ("AtomicStampedReference", Why::Stamped),
];

/// The kind of a class of the library that has no argument.
pub fn plain_kind(name: &Name) -> Option<Kind> {
    for (text, kind) in &PLAIN {
        if *text == name.text.as_str() {
            return Some(*kind);
        }
    }
    None
}

/// Whether a class of the library has an argument.
pub fn is_generic(name: &Name) -> bool {
    for text in &GENERIC {
        if *text == name.text.as_str() {
            return true;
        }
    }
    false
}

/// Why a class that the file doesn't declare isn't there.
pub fn why_not(name: &Name) -> Why {
    for (text, why) in &NOT_THERE {
        if *text == name.text.as_str() {
            return *why;
        }
    }
    Why::UnknownClass
}
