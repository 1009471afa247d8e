// How many arguments a call wants, and how many it has.

ghost use Rattle.std.specs.Prelude.{◌≡◌};
ghost use Rattle.ls_types_elaboration.specs.Placed.{placed_all};
ghost use Rattle.ls_types_elaboration.specs.TypedExpressions.{counts};

use ls_events::value::ValueType;
use ls_tree::tree::Expression as Parsed;
use ls_types_elaboration::mismatch::Counts;

/// How many parameters there are, and how many arguments.
#[tactic(auto, using(crate::proofs::Counts::counted))]
pub(crate) fn counts_of(types: &[ValueType], es: &[Parsed]) -> Counts
    ensures { result ≡ counts types.now (placed_all es.now) }
{
    Counts {
        wanted: types.len(),
        found: es.len(),
    }
}
