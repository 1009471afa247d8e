// Laws of the definitions.

ghost use Rattle.ls_java_lexer.specs.Order.{PiecesAreTexts};

/// The gaps and the tokens of a text, one after another, are the text.
pub fn pieces_are_texts()
    ensures { PiecesAreTexts }
{}
