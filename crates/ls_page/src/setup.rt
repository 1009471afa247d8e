// The steps of the setup.

ghost use Rattle.std.specs.Prelude.{◌≡◌, IfOk, IfSome, None};
ghost use Rattle.ls_labels.specs.Names.{names_of};
ghost use Rattle.ls_choices.specs.Schedules.{is_action};
ghost use Rattle.ls_page.specs.Setup.{IsLongSetup, IsSetup};

use ls_labels::names::Names;
use ls_meaning::step::Did;
use ls_trace::teller::Teller;
use std::alloc::{AllocError, Global};

// Whether a step does more than wait, or nothing.
fn is_action(did: &Did) -> bool
    ensures { result ≡ is_action did.now }
{
    match did {
        Did::Acted(_, _) => true,
        Did::Waits => false,
        Did::Idle => false,
    }
}

/// The steps of the setup, after which it doesn't act. There are none if it acts in more than so many. The only refusal
/// is that memory ran out.
pub fn setup_steps(alloc: Global, names: Names, most: usize) -> Result<Option<Vec<u8>>, AllocError>
    ensures steps { IfOk result (λ o. IfSome o (λ v. IsSetup (names_of names.entry) v.items)) }
    ensures long { IfOk result (λ o. o ≡ None → IsLongSetup (names_of names.entry) most) }
{
    let mut teller = Teller::new(alloc, names)?;
    let mut steps = Vec::new(alloc);
    for turn in 0..most {
        let did = teller.step(alloc, 0)?;
        if !is_action(&did) {
            return Ok(Some(steps));
        }
        steps.push(0)?;
    }
    let did = teller.step(alloc, 0)?;
    if is_action(&did) {
        return Ok(None);
    }
    Ok(Some(steps))
}
