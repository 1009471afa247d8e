// Laws of the definitions.

ghost use Rattle.ls_lexer.specs.Formed.{TokensAreFormed};
ghost use Rattle.ls_lexer.specs.Places.{TokensAreSplit};
ghost use Rattle.ls_lexer.specs.Spelling.{ReadsLongestSigns, ReadsWords};

/// A text is read as a reserved word (JLS 3.9, 3.10.3, 3.10.7) exactly if it is spelled as that word.
pub fn reads_words()
    ensures { ReadsWords }
{}

/// If a separator or operator is read (JLS 3.11, 3.12), it is spelled there. No longer one is spelled there (JLS 3.2).
#[tactic(auto, using(crate::proofs::SignLaws::reads_longest_signs))]
pub fn reads_longest_signs()
    ensures { ReadsLongestSigns }
{}

/// A text has tokens exactly if it splits into gaps and tokens (JLS 3.5). Then it has those tokens.
pub fn tokens_are_split()
    ensures { TokensAreSplit }
{}

/// Each name of a text is an identifier and not a reserved word (JLS 3.8). Each number has the form of a number (JLS
/// 3.10.1).
pub fn tokens_are_formed()
    ensures { TokensAreFormed }
{}
