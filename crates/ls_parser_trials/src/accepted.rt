// Texts that are accepted, and spelled again.

use ls_lexer::lexing::lex;
use ls_lexer::token::{Token, TokenKind};
use ls_parser::parse;
use ls_parser::spelling::spell;
use ls_stored_classes::{COARSE, FINE, LAZY, LOCK_FREE, OPTIMISTIC};
use std::alloc::Global;
use std::test::Fail;

fn is_kind(token: &Token, kind: &TokenKind) -> bool {
    token.kind == *kind
}

// Whether a text is accepted, and the text's tokens spell its tree.
fn is_spelled_back(alloc: Global, text: &str) -> Result<bool, Fail> {
    let tokens = lex(alloc, text)?;
    let file = parse(alloc, &tokens)?;
    let kinds = spell(alloc, &file)?;
    if kinds.len() != tokens.len() {
        return Ok(false);
    }
    for (i, token) in tokens.iter().enumerate() {
        let same = match kinds.get(i) {
            Some(kind) => is_kind(token, kind),
            None => false,
        };
        if !same {
            return Ok(false);
        }
    }
    Ok(true)
}

#[test]
fn accepted_texts(rt: HostRuntime) -> Result<(), Fail> {
    let alloc = rt.alloc();
    for text in [
        "",
        "class Calc { int a() { return -2147483648 / -1; } int b() { return - /* gap */ 2147483648; } }",
        "class A { int a() { return - -2147483648; } int b() { return -2147483648.f; } }",
        "package a.b; import c.d; import c.e.*; @Marked public final class E { }",
        "class E { private volatile int x, y = 3; boolean[] b; E() { } protected E(int a, final boolean[] b) { } }",
        "class E { void f() { retry: while (true) { continue retry; } while (a) break; ; { } } }",
        "class E { void f() { AtomicMarkableReference<E> r = new AtomicMarkableReference<E>(null, true); E e; final int i, j = 1; } }",
        "class E { void f() { this.r.x[3] = f().g(1, a < b && !c)[2]; f(); new E(1); e.f(); try { return; } finally { } } }",
        "class E { E AtomicMarkableReference; AtomicMarkableReference f() { return new AtomicMarkableReference(); } }",
        "class E { void f() { if (a) if (b) x = 1; else x = 2; if (c) { } else return; return (a - b) - (c - d); } }",
        "class E { boolean[] f() { return new boolean[3].length; } int g() { return !a || b == c; } }",
        "class A { } class A { }",
    ] {
        assert!(rt; is_spelled_back(alloc, text)?, "{text}");
    }
    Ok(())
}

#[test]
fn stored_classes(rt: HostRuntime) -> Result<(), Fail> {
    for text in [COARSE, FINE, OPTIMISTIC, LAZY, LOCK_FREE] {
        assert!(rt; is_spelled_back(rt.alloc(), text)?, "{text}");
    }
    Ok(())
}
