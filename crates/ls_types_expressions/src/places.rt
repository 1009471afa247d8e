// The span of an expression.

ghost use Rattle.std.specs.Prelude.{◌≡◌};
ghost use Rattle.ls_types_elaboration.specs.Trees.{span_of};
ghost use Rattle.ls_types_elaboration.specs.Placed.{placed};

use ls_lexer::token::Span;
use ls_tree::tree::Expression;

/// The span of an expression in its text.
pub fn span_of(e: &Expression) -> Span
    ensures { result ≡ span_of (placed e.now) }
{
    match e {
        Expression::True(span)
        | Expression::False(span)
        | Expression::Null(span)
        | Expression::This(span) => *span,
        Expression::Name(name) => name.span,
        Expression::Number { span, .. }
        | Expression::Paren { span, .. }
        | Expression::Unary { span, .. }
        | Expression::Binary { span, .. }
        | Expression::Field { span, .. }
        | Expression::Call { span, .. }
        | Expression::Item { span, .. }
        | Expression::New { span, .. }
        | Expression::NewMarkable { span, .. }
        | Expression::NewArray { span, .. } => *span,
    }
}
