// Texts that aren't read, and where.

use crate::reading::fault_of;
use ls_java_lexer::fault::{Form, JavaFault, Wanted};

#[test]
fn tokens(rt: HostRuntime) {
    let alloc = rt.alloc();
    assert_eq!(rt;
        fault_of(alloc, "class A { /* int x; }"),
        Some(JavaFault::OpenComment { at: 10 })
    );
    assert_eq!(rt;
        fault_of(alloc, "class A { String s = \"a\n\"; }"),
        Some(JavaFault::OpenText { at: 21 })
    );
    assert_eq!(rt;
        fault_of(alloc, "class A { int gr\u{f6}; }"),
        Some(JavaFault::NotAscii { at: 16 })
    );
    assert_eq!(rt;
        fault_of(alloc, "class A { int \\u0061; }"),
        Some(JavaFault::UnicodeEscape { at: 14 })
    );
    assert_eq!(rt;
        fault_of(alloc, "class A { int a = 99999999999; }"),
        Some(JavaFault::LargeNumber { at: 18 })
    );
    assert_eq!(rt;
        fault_of(alloc, "class A { int a = 12ab; }"),
        Some(JavaFault::BadNumber { at: 18 })
    );
    assert_eq!(rt; fault_of(alloc, "// \\u0061 \u{f6}\nclass A { }"), None);
}

#[test]
fn what_was_expected(rt: HostRuntime) {
    let alloc = rt.alloc();
    let wanted = Wanted::Expression;
    assert_eq!(rt;
        fault_of(alloc, "class A { int a = ; }"),
        Some(JavaFault::Expected { at: 18, wanted })
    );
    assert_eq!(rt;
        fault_of(alloc, "class A { int a = 2147483648; }"),
        Some(JavaFault::Expected { at: 18, wanted })
    );
    let wanted = Wanted::Semicolon;
    assert_eq!(rt;
        fault_of(alloc, "class A { int a = 1 int b; }"),
        Some(JavaFault::Expected { at: 20, wanted })
    );
    let wanted = Wanted::Statement;
    assert_eq!(rt;
        fault_of(alloc, "class A { { a + b; } }"),
        Some(JavaFault::Expected { at: 12, wanted })
    );
    let wanted = Wanted::Target;
    assert_eq!(rt;
        fault_of(alloc, "class A { { f() = b; } }"),
        Some(JavaFault::Expected { at: 12, wanted })
    );
}

#[test]
fn forms_that_are_not_read(rt: HostRuntime) {
    let alloc = rt.alloc();
    let form = Form::LocalClass;
    assert_eq!(rt;
        fault_of(alloc, "class A { { class B { } } }"),
        Some(JavaFault::Unread { at: 12, form })
    );
    let form = Form::Resource;
    assert_eq!(rt;
        fault_of(alloc, "class A { { try (b) { } } }"),
        Some(JavaFault::Unread { at: 16, form })
    );
    let form = Form::Ellipsis;
    assert_eq!(rt;
        fault_of(alloc, "class A { void f(int... x) { } }"),
        Some(JavaFault::Unread { at: 20, form })
    );
}
