// What stands for AtomicInteger and AtomicBoolean: a reference that is compared and set. An operation takes effect in
// one step, that of its compareAndSet, its set or its read.

use crate::patterns::{Names, fill};
use ls_java_tables::needs::{Helper, Operation};
use ls_java_tables::remarks::Stop;
use ls_java_tables::restater::Restater;
use ls_java_tables::ropes::Text;

const INTEGER_HEAD: &str = "class @ { int n ; @ ( int n ) { this . n = n ; } } \
    class $ { AtomicMarkableReference < @ > r ; \
    $ ( int n ) { r = new AtomicMarkableReference < @ > ( new @ ( n ) , false ) ; }";

const BOOLEAN_HEAD: &str = "class $ { AtomicMarkableReference < $ > r ; \
    $ ( boolean b ) { r = new AtomicMarkableReference < $ > ( null , b ) ; }";

// The methods of AtomicInteger.
const INTEGER_METHODS: [(Operation, &str); 11] = [
    (
        Operation::Get,
        "int get ( ) { return r . getReference ( ) . n ; }",
    ),
    (
        Operation::Set,
        "void set ( int n ) { r . set ( new @ ( n ) , false ) ; }",
    ),
    (
        Operation::GetAndSet,
        "int getAndSet ( int n ) { while ( true ) { @ old = r . getReference ( ) ; \
        if ( r . compareAndSet ( old , new @ ( n ) , false , false ) ) { return old . n ; } } }",
    ),
    (
        Operation::GetAndAdd,
        "int getAndAdd ( int d ) { while ( true ) { @ old = r . getReference ( ) ; \
        if ( r . compareAndSet ( old , new @ ( old . n + d ) , false , false ) ) { return old . n ; } } }",
    ),
    (
        Operation::AddAndGet,
        "int addAndGet ( int d ) { while ( true ) { @ old = r . getReference ( ) ; \
        if ( r . compareAndSet ( old , new @ ( old . n + d ) , false , false ) ) { return old . n + d ; } } }",
    ),
    (
        Operation::GetAndIncrement,
        "int getAndIncrement ( ) { while ( true ) { @ old = r . getReference ( ) ; \
        if ( r . compareAndSet ( old , new @ ( old . n + 1 ) , false , false ) ) { return old . n ; } } }",
    ),
    (
        Operation::IncrementAndGet,
        "int incrementAndGet ( ) { while ( true ) { @ old = r . getReference ( ) ; \
        if ( r . compareAndSet ( old , new @ ( old . n + 1 ) , false , false ) ) { return old . n + 1 ; } } }",
    ),
    (
        Operation::GetAndDecrement,
        "int getAndDecrement ( ) { while ( true ) { @ old = r . getReference ( ) ; \
        if ( r . compareAndSet ( old , new @ ( old . n - 1 ) , false , false ) ) { return old . n ; } } }",
    ),
    (
        Operation::DecrementAndGet,
        "int decrementAndGet ( ) { while ( true ) { @ old = r . getReference ( ) ; \
        if ( r . compareAndSet ( old , new @ ( old . n - 1 ) , false , false ) ) { return old . n - 1 ; } } }",
    ),
    (
        Operation::CompareAndSet,
        "boolean compareAndSet ( int was , int n ) { while ( true ) { @ old = r . getReference ( ) ; \
        if ( old . n != was ) { return false ; } \
        if ( r . compareAndSet ( old , new @ ( n ) , false , false ) ) { return true ; } } }",
    ),
    (
        Operation::CompareAndExchange,
        "int compareAndExchange ( int was , int n ) { while ( true ) { @ old = r . getReference ( ) ; \
        if ( old . n != was ) { return old . n ; } \
        if ( r . compareAndSet ( old , new @ ( n ) , false , false ) ) { return was ; } } }",
    ),
];

// The methods of AtomicBoolean.
const BOOLEAN_METHODS: [(Operation, &str); 4] = [
    (
        Operation::Get,
        "boolean get ( ) { return r . isMarked ( ) ; }",
    ),
    (
        Operation::Set,
        "void set ( boolean b ) { r . set ( null , b ) ; }",
    ),
    (
        Operation::GetAndSet,
        "boolean getAndSet ( boolean b ) { \
        if ( r . compareAndSet ( null , null , ! b , b ) ) { return ! b ; } return b ; }",
    ),
    (
        Operation::CompareAndSet,
        "boolean compareAndSet ( boolean was , boolean b ) { \
        return r . compareAndSet ( null , null , was , b ) ; }",
    ),
];

// Whether a method is called.
fn is_used(restater: &Restater, helper: Helper, operation: Operation) -> bool {
    for used in &restater.needs.used {
        if used.helper == helper && used.operation == operation {
            return true;
        }
    }
    false
}

/// The class that stands for AtomicInteger, with the methods that are called, and that of its values.
pub fn integer_class(restater: &mut Restater, out: &mut Text, names: Names) -> Result<(), Stop> {
    fill(restater, out, INTEGER_HEAD, names)?;
    for (operation, method) in INTEGER_METHODS {
        if is_used(restater, Helper::AtomicInteger, operation) {
            fill(restater, out, method, names)?;
        }
    }
    fill(restater, out, "}", names)
}

/// The class that stands for AtomicBoolean, with the methods that are called.
pub fn boolean_class(restater: &mut Restater, out: &mut Text, names: Names) -> Result<(), Stop> {
    fill(restater, out, BOOLEAN_HEAD, names)?;
    for (operation, method) in BOOLEAN_METHODS {
        if is_used(restater, Helper::AtomicBoolean, operation) {
            fill(restater, out, method, names)?;
        }
    }
    fill(restater, out, "}", names)
}
