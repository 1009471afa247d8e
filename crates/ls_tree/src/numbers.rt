// Where a number may come.

ghost use Rattle.std.specs.Prelude.{◌≡◌};
ghost use Rattle.ls_tree.specs.WellFormed.{may_stand};

/// Whether a number of these digits may come here. 2147483648 may come only as the operand of a unary minus (JLS
/// 3.10.1).
pub fn may_stand(after_minus: bool, text: &str) -> bool
    ensures { result ≡ may_stand after_minus text.now }
{
    after_minus || text != "2147483648"
}
