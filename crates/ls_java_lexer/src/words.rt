// The reserved words.

use ls_lexer::word::Word;

const WORDS: [(&str, Word); 53] = [
    ("abstract", Word::Abstract),
    ("continue", Word::Continue),
    ("for", Word::For),
    ("new", Word::New),
    ("switch", Word::Switch),
    ("assert", Word::Assert),
    ("default", Word::Default),
    ("if", Word::If),
    ("package", Word::Package),
    ("synchronized", Word::Synchronized),
    ("boolean", Word::Boolean),
    ("do", Word::Do),
    ("goto", Word::Goto),
    ("private", Word::Private),
    ("this", Word::This),
    ("break", Word::Break),
    ("double", Word::Double),
    ("implements", Word::Implements),
    ("protected", Word::Protected),
    ("throw", Word::Throw),
    ("byte", Word::Byte),
    ("else", Word::Else),
    ("import", Word::Import),
    ("public", Word::Public),
    ("throws", Word::Throws),
    ("case", Word::Case),
    ("enum", Word::Enum),
    ("instanceof", Word::Instanceof),
    ("return", Word::Return),
    ("transient", Word::Transient),
    ("catch", Word::Catch),
    ("extends", Word::Extends),
    ("int", Word::Int),
    ("short", Word::Short),
    ("try", Word::Try),
    ("char", Word::Char),
    ("final", Word::Final),
    ("interface", Word::Interface),
    ("static", Word::Static),
    ("void", Word::Void),
    ("class", Word::Class),
    ("finally", Word::Finally),
    ("long", Word::Long),
    ("strictfp", Word::Strictfp),
    ("volatile", Word::Volatile),
    ("const", Word::Const),
    ("float", Word::Float),
    ("native", Word::Native),
    ("super", Word::Super),
    ("while", Word::While),
    ("true", Word::True),
    ("false", Word::False),
    ("null", Word::Null),
];

/// The reserved word that a text spells: a keyword (JLS 3.9), or `true`, `false` or `null`.
pub fn reserved_word(text: &str) -> Option<Word> {
    for (spelling, word) in WORDS {
        if spelling == text {
            return Some(word);
        }
    }
    None
}
