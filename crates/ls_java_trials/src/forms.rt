// Forms of Java SE 8 that are read.

use crate::reading::fault_of;

// Casts and parentheses look alike (JLS 15.16), and so do lists of types and comparisons.
#[test]
fn casts_and_comparisons(rt: HostRuntime) {
    let text = "class A<T> { void f() { boolean x = a < b > (c); int y = (T) -x; int z = (int) -x; \
        List<List<T>> l = (List<List<T>>) o; int w = (T) x; Object n = (Object) null; } }";
    assert_eq!(rt; fault_of(rt.alloc(), text), None);
}

#[test]
fn operators(rt: HostRuntime) {
    let text =
        "class A { void f() { x = a ? b : c ? d : e; a >>= 2; a >>>= 3; b = a >> 2 >>> 3 << 1; c = a >= b; \
        c &= a instanceof B && !(b instanceof C); i = i++ + ++i - -i - --i; a[i] += b[j][k] *= 2; ~a.b().c++; } }";
    assert!(rt; fault_of(rt.alloc(), text).is_some());
    let text =
        "class A { void f() { x = a ? b : c ? d : e; a >>= 2; a >>>= 3; b = a >> 2 >>> 3 << 1; c = a >= b; \
        c &= a instanceof B && !(b instanceof C); i = i++ + ++i - -i - --i; a[i] += b[j][k] *= 2; a.b().c++; } }";
    assert_eq!(rt; fault_of(rt.alloc(), text), None);
}

#[test]
fn lambdas_and_references(rt: HostRuntime) {
    let text =
        "class A { Runnable r = () -> { go(() -> { run(); }); }; F f = x -> x + 1; G g = (int x, int y) -> x * y; \
        H h = int[]::new; H k = List<String>::new; H m = String::valueOf; H n = this::go; Object o = int.class; \
        T t = new T() { int v; void run() { f = y -> { }; } }; }";
    assert_eq!(rt; fault_of(rt.alloc(), text), None);
}

#[test]
fn statements(rt: HostRuntime) {
    let text =
        "class A { void f() throws E, F { outer: for (int i = 0, j = 1; i < n; i++, j--) { continue outer; } \
        for (;;) break; for (final Node n : list) { } do ; while (true); switch (x) { case 1: case 2: go(); default: } \
        try { } catch (E | F e) { } finally { } synchronized (this) { } assert a : b; if (a) if (b) ; else ; } }";
    assert_eq!(rt; fault_of(rt.alloc(), text), None);
}

#[test]
fn declarations(rt: HostRuntime) {
    let text =
        "package a.b; import static c.D.*; import e.F; @Deprecated public class A<T extends B & C, U> extends D<T[]> \
        implements E<? super T>, F<?> { static { } { } int[] a[] = { { 1 }, { }, }, b; A(int... x) { } }";
    assert!(rt; fault_of(rt.alloc(), text).is_some());
    let text =
        "package a.b; import static c.D.*; import e.F; @Deprecated public class A<T extends B & C, U> extends D<T[]> \
        implements E<? super T>, F<?> { static { } { } int[] a[] = { { 1 }, { }, }, b; <V> A(int[] x) { this(); } \
        @Override public <V> V m(final int x, T[] y)[] { return null; } enum G { H, I; } interface J { int k(); } ; }";
    assert_eq!(rt; fault_of(rt.alloc(), text), None);
}

#[test]
fn numbers(rt: HostRuntime) {
    let text =
        "class A { long a = -2147483648 + 0xFFFF_FFFF + 0b101 + 017 + 9_000L + 0xFFFFFFFFFFFFFFFFL; \
        double d = 1e10 + .5f + 0x1.8p3 + 1. + 2d + 1.5e-3; char c = '\\'' + 'a'; String s = \"a\\\"b\"; }";
    assert_eq!(rt; fault_of(rt.alloc(), text), None);
}
