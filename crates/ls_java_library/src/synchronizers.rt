// What stands for locks of readers and writers, semaphores and latches. Who waits goes round a loop.

/// For ReadWriteLock.
pub const READ_WRITE: &str = "class $ { Lock gate = new ReentrantLock ( ) ; int readers ; \
    void lockRead ( ) { gate . lock ( ) ; readers ++ ; gate . unlock ( ) ; } \
    void unlockRead ( ) { gate . lock ( ) ; readers -- ; gate . unlock ( ) ; } \
    void lockWrite ( ) { while ( true ) { \
        gate . lock ( ) ; if ( readers == 0 ) { return ; } gate . unlock ( ) ; } } \
    void unlockWrite ( ) { gate . unlock ( ) ; } }";

/// For Semaphore.
pub const SEMAPHORE: &str =
    "class $ { Lock gate = new ReentrantLock ( ) ; volatile int permits ; $ ( int n ) { permits = n ; } \
    void acquire ( ) { while ( true ) { gate . lock ( ) ; \
        if ( permits > 0 ) { permits -- ; gate . unlock ( ) ; return ; } gate . unlock ( ) ; } } \
    boolean tryAcquire ( ) { gate . lock ( ) ; boolean free = permits > 0 ; \
        if ( free ) { permits -- ; } gate . unlock ( ) ; return free ; } \
    void release ( ) { gate . lock ( ) ; permits ++ ; gate . unlock ( ) ; } \
    int availablePermits ( ) { return permits ; } }";

/// For CountDownLatch.
pub const LATCH: &str =
    "class $ { Lock gate = new ReentrantLock ( ) ; volatile int count ; $ ( int n ) { count = n ; } \
    void countDown ( ) { gate . lock ( ) ; if ( count > 0 ) { count -- ; } gate . unlock ( ) ; } \
    void await ( ) { while ( count > 0 ) { } } \
    int getCount ( ) { return count ; } }";

/// For Object, where objects of it are made.
pub const KEY: &str = "class $ { }";

/// For Object, where `wait` is called on objects of it: its head with the lock, and the rest with the condition.
pub const WAITED_KEY: &str = "class $ { Lock @ = new ReentrantLock ( ) ;";

pub const WAITED_KEY_REST: &str = "$ @ = new $ ( ) ; }";

/// For Condition, and for those that wait for an object: how many have waited, and how many of them, from the first,
/// may go on.
pub const CONDITION: &str = "class $ { int waiting ; volatile int woken ; }";
