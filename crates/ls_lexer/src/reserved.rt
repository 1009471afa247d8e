// Which texts are reserved words, by the bytes after the first.

ghost use Rattle.ls_lexer.specs.Words.{reserved_word};
ghost use Rattle.std.specs.Prelude.{◌≡◌, ◌∷◌};
ghost use Rattle.std.specs.Str.{byte};

use crate::word::Word;

fn behind_a(rest: &[u8]) -> Option<Word>
    ensures { result ≡ reserved_word (byte "a" ∷ rest.now) }
{
    if rest == b"bstract".as_slice() {
        Some(Word::Abstract)
    } else if rest == b"ssert".as_slice() {
        Some(Word::Assert)
    } else {
        None
    }
}

fn behind_b(rest: &[u8]) -> Option<Word>
    ensures { result ≡ reserved_word (byte "b" ∷ rest.now) }
{
    if rest == b"oolean".as_slice() {
        Some(Word::Boolean)
    } else if rest == b"reak".as_slice() {
        Some(Word::Break)
    } else if rest == b"yte".as_slice() {
        Some(Word::Byte)
    } else {
        None
    }
}

fn behind_c(rest: &[u8]) -> Option<Word>
    ensures { result ≡ reserved_word (byte "c" ∷ rest.now) }
{
    if rest == b"ontinue".as_slice() {
        Some(Word::Continue)
    } else if rest == b"ase".as_slice() {
        Some(Word::Case)
    } else if rest == b"atch".as_slice() {
        Some(Word::Catch)
    } else if rest == b"har".as_slice() {
        Some(Word::Char)
    } else if rest == b"lass".as_slice() {
        Some(Word::Class)
    } else if rest == b"onst".as_slice() {
        Some(Word::Const)
    } else {
        None
    }
}

fn behind_d(rest: &[u8]) -> Option<Word>
    ensures { result ≡ reserved_word (byte "d" ∷ rest.now) }
{
    if rest == b"efault".as_slice() {
        Some(Word::Default)
    } else if rest == b"o".as_slice() {
        Some(Word::Do)
    } else if rest == b"ouble".as_slice() {
        Some(Word::Double)
    } else {
        None
    }
}

fn behind_e(rest: &[u8]) -> Option<Word>
    ensures { result ≡ reserved_word (byte "e" ∷ rest.now) }
{
    if rest == b"lse".as_slice() {
        Some(Word::Else)
    } else if rest == b"num".as_slice() {
        Some(Word::Enum)
    } else if rest == b"xtends".as_slice() {
        Some(Word::Extends)
    } else {
        None
    }
}

fn behind_f(rest: &[u8]) -> Option<Word>
    ensures { result ≡ reserved_word (byte "f" ∷ rest.now) }
{
    if rest == b"or".as_slice() {
        Some(Word::For)
    } else if rest == b"inal".as_slice() {
        Some(Word::Final)
    } else if rest == b"inally".as_slice() {
        Some(Word::Finally)
    } else if rest == b"loat".as_slice() {
        Some(Word::Float)
    } else if rest == b"alse".as_slice() {
        Some(Word::False)
    } else {
        None
    }
}

fn behind_g(rest: &[u8]) -> Option<Word>
    ensures { result ≡ reserved_word (byte "g" ∷ rest.now) }
{
    if rest == b"oto".as_slice() {
        Some(Word::Goto)
    } else {
        None
    }
}

fn behind_i(rest: &[u8]) -> Option<Word>
    ensures { result ≡ reserved_word (byte "i" ∷ rest.now) }
{
    if rest == b"f".as_slice() {
        Some(Word::If)
    } else if rest == b"mplements".as_slice() {
        Some(Word::Implements)
    } else if rest == b"mport".as_slice() {
        Some(Word::Import)
    } else if rest == b"nstanceof".as_slice() {
        Some(Word::Instanceof)
    } else if rest == b"nt".as_slice() {
        Some(Word::Int)
    } else if rest == b"nterface".as_slice() {
        Some(Word::Interface)
    } else {
        None
    }
}

fn behind_l(rest: &[u8]) -> Option<Word>
    ensures { result ≡ reserved_word (byte "l" ∷ rest.now) }
{
    if rest == b"ong".as_slice() {
        Some(Word::Long)
    } else {
        None
    }
}

fn behind_n(rest: &[u8]) -> Option<Word>
    ensures { result ≡ reserved_word (byte "n" ∷ rest.now) }
{
    if rest == b"ew".as_slice() {
        Some(Word::New)
    } else if rest == b"ative".as_slice() {
        Some(Word::Native)
    } else if rest == b"ull".as_slice() {
        Some(Word::Null)
    } else {
        None
    }
}

fn behind_p(rest: &[u8]) -> Option<Word>
    ensures { result ≡ reserved_word (byte "p" ∷ rest.now) }
{
    if rest == b"ackage".as_slice() {
        Some(Word::Package)
    } else if rest == b"rivate".as_slice() {
        Some(Word::Private)
    } else if rest == b"rotected".as_slice() {
        Some(Word::Protected)
    } else if rest == b"ublic".as_slice() {
        Some(Word::Public)
    } else {
        None
    }
}

fn behind_r(rest: &[u8]) -> Option<Word>
    ensures { result ≡ reserved_word (byte "r" ∷ rest.now) }
{
    if rest == b"eturn".as_slice() {
        Some(Word::Return)
    } else {
        None
    }
}

fn behind_s(rest: &[u8]) -> Option<Word>
    ensures { result ≡ reserved_word (byte "s" ∷ rest.now) }
{
    if rest == b"witch".as_slice() {
        Some(Word::Switch)
    } else if rest == b"ynchronized".as_slice() {
        Some(Word::Synchronized)
    } else if rest == b"hort".as_slice() {
        Some(Word::Short)
    } else if rest == b"tatic".as_slice() {
        Some(Word::Static)
    } else if rest == b"trictfp".as_slice() {
        Some(Word::Strictfp)
    } else if rest == b"uper".as_slice() {
        Some(Word::Super)
    } else {
        None
    }
}

fn behind_t(rest: &[u8]) -> Option<Word>
    ensures { result ≡ reserved_word (byte "t" ∷ rest.now) }
{
    if rest == b"his".as_slice() {
        Some(Word::This)
    } else if rest == b"hrow".as_slice() {
        Some(Word::Throw)
    } else if rest == b"hrows".as_slice() {
        Some(Word::Throws)
    } else if rest == b"ransient".as_slice() {
        Some(Word::Transient)
    } else if rest == b"ry".as_slice() {
        Some(Word::Try)
    } else if rest == b"rue".as_slice() {
        Some(Word::True)
    } else {
        None
    }
}

fn behind_v(rest: &[u8]) -> Option<Word>
    ensures { result ≡ reserved_word (byte "v" ∷ rest.now) }
{
    if rest == b"oid".as_slice() {
        Some(Word::Void)
    } else if rest == b"olatile".as_slice() {
        Some(Word::Volatile)
    } else {
        None
    }
}

fn behind_w(rest: &[u8]) -> Option<Word>
    ensures { result ≡ reserved_word (byte "w" ∷ rest.now) }
{
    if rest == b"hile".as_slice() {
        Some(Word::While)
    } else {
        None
    }
}

/// The reserved word that is this text, or none.
pub fn reserved_word(text: &[u8]) -> Option<Word>
    ensures { result ≡ reserved_word text.now }
{
    let (first, rest) = text.split_first()?;
    match *first {
        b'a' => behind_a(rest),
        b'b' => behind_b(rest),
        b'c' => behind_c(rest),
        b'd' => behind_d(rest),
        b'e' => behind_e(rest),
        b'f' => behind_f(rest),
        b'g' => behind_g(rest),
        b'i' => behind_i(rest),
        b'l' => behind_l(rest),
        b'n' => behind_n(rest),
        b'p' => behind_p(rest),
        b'r' => behind_r(rest),
        b's' => behind_s(rest),
        b't' => behind_t(rest),
        b'v' => behind_v(rest),
        b'w' => behind_w(rest),
        _ => None,
    }
}
