// How a class text is divided into tokens.

use ls_lexer::lexing::lex;
use ls_lexer::names::is_name;
use ls_lexer::sign::Sign;
use ls_lexer::token::TokenKind;
use ls_lexer::word::Word;
use std::test::Fail;

#[test]
fn longest_signs(rt: HostRuntime) -> Result<(), Fail> {
    let alloc = rt.alloc();
    let tokens = lex(alloc, "a>>>=b...>>>c<<=->::>>=>>+++&&&")?;
    let wanted = [
        TokenKind::Name("a"),
        TokenKind::Sign(Sign::UnsignedShiftRightAssign),
        TokenKind::Name("b"),
        TokenKind::Sign(Sign::Ellipsis),
        TokenKind::Sign(Sign::UnsignedShiftRight),
        TokenKind::Name("c"),
        TokenKind::Sign(Sign::ShiftLeftAssign),
        TokenKind::Sign(Sign::Arrow),
        TokenKind::Sign(Sign::ColonColon),
        TokenKind::Sign(Sign::ShiftRightAssign),
        TokenKind::Sign(Sign::ShiftRight),
        TokenKind::Sign(Sign::Increment),
        TokenKind::Sign(Sign::Plus),
        TokenKind::Sign(Sign::And),
        TokenKind::Sign(Sign::BitAnd),
    ];
    assert_eq!(rt; tokens.len(), wanted.len());
    for (i, token) in tokens.iter().enumerate() {
        assert!(rt; token.kind == wanted[i], "token {i}");
    }
    Ok(())
}

// The separators of JLS 3.11 and the operators of JLS 3.12.
#[test]
fn each_sign(rt: HostRuntime) -> Result<(), Fail> {
    let signs =
        "( ) { } [ ] ; , . ... @ :: = > < ! ~ ? : -> == >= <= != && || ++ -- + - * / & | ^ % << >> >>> \
                 += -= *= /= &= |= ^= %= <<= >>= >>>=";
    let tokens = lex(rt.alloc(), signs)?;
    assert_eq!(rt; tokens.len(), 50);
    for token in &tokens {
        assert!(rt; matches!(&token.kind, TokenKind::Sign(_)));
    }
    Ok(())
}

// The keywords of JLS 3.9, and the three literals.
#[test]
fn each_word(rt: HostRuntime) -> Result<(), Fail> {
    let words =
        "abstract continue for new switch assert default if package synchronized boolean do goto private \
                 this break double implements protected throw byte else import public throws case enum instanceof \
                 return transient catch extends int short try char final interface static void class finally long \
                 strictfp volatile const float native super while true false null";
    let tokens = lex(rt.alloc(), words)?;
    assert_eq!(rt; tokens.len(), 53);
    for token in &tokens {
        assert!(rt; matches!(&token.kind, TokenKind::Word(_)));
    }
    Ok(())
}

#[test]
fn gaps_and_spans(rt: HostRuntime) -> Result<(), Fail> {
    let tokens = lex(rt.alloc(), "/**/ if//é*/\rx\t/* // é **/\u{c}0")?;
    assert_eq!(rt; tokens.len(), 3);
    assert!(rt; tokens[0].kind == TokenKind::Word(Word::If));
    assert!(rt; tokens[1].kind == TokenKind::Name("x"));
    assert_eq!(rt; (tokens[1].span.start, tokens[1].span.end), (14, 15));
    assert!(rt; tokens[2].kind == TokenKind::Number("0"));
    Ok(())
}

#[test]
fn names(rt: HostRuntime) {
    for (text, wanted) in [
        ("add", true),
        ("$_9", true),
        ("classes", true),
        ("class", false),
        ("null", false),
        ("9a", false),
        ("", false),
        ("a b", false),
        ("é", false),
    ] {
        assert!(rt; is_name(text) == wanted, "{text}");
    }
}
