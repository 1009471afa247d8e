// The exits that a statement has without `try`, each with its number of times.

ghost use Rattle.std.specs.Prelude.{◌≡◌, ℕ, ◌+◌, ◌*◌, ◌≤◌, ◌++◌, ◌∷◌, [], Some, None, All, IfOk, OnOk, min};
ghost use Rattle.ls_finally_exits.specs.Exits.{outward};
ghost use Rattle.ls_linker.specs.Costs.{total, returned, once, scaled, beyond, one_beyond};

use std::alloc::AllocError;

/// A way out of a statement, and how many times it is there. A leave has a number, counted outward from the statement;
/// a return has none.
#[derive(Copy)]
pub struct Way {
    pub number: Option<usize>,
    pub times: usize,
}

impl Clone for Way {
    fn clone(&self) -> Result<Way, AllocError> {
        Ok(*self)
    }
}

// One more than the most copies of a method. A larger number of times is counted as this.
const TOO_OFTEN: usize = 4097;

// How many ways there are, each with its times; at most `TOO_OFTEN`.
fn total_of(ways: &[Way]) -> usize
    ensures { result ≡ min (total ways.now) 4097 }
{
    let mut all = 0usize;
    for way in ways {
        all = all.saturating_add(way.times).min(TOO_OFTEN);
    }
    all
}

/// How many returns there are; at most `TOO_OFTEN`.
pub fn returns_of(ways: &[Way]) -> usize
    ensures { result ≡ min (returned ways.now) 4097 }
{
    let mut all = 0usize;
    for way in ways {
        if way.number.is_none() {
            all = all.saturating_add(way.times).min(TOO_OFTEN);
        }
    }
    all
}

/// How many copies of its finally block a body with these exits has: one for each exit, and two more; at most
/// `TOO_OFTEN + 2`.
pub fn blocks_of(ways: &[Way]) -> usize
    ensures { result ≡ min (2 + total ways.now) 4099 }
{
    2 + total_of(ways)
}

/// Puts a leave or a return that is there once after those in `out`. The only refusal is that memory ran out.
pub fn put_once(out: &mut Vec<Way>, number: Option<usize>) -> Result<(), AllocError>
    ensures { OnOk result (out.new.items ≡ out.old.items ++ once number) }
{
    out.push(Way { number, times: 1 })?;
    Ok(())
}

/// Puts ways after those in `out`. The only refusal is that memory ran out.
pub fn put_all(out: &mut Vec<Way>, ways: &[Way]) -> Result<(), AllocError>
    ensures { IfOk result (λ _. out.new.items ≡ out.old.items ++ ways.now) }
{
    for way in ways {
        out.push(*way)?;
    }
    Ok(())
}

/// Puts the ways of `times` copies after those in `out`. The only refusal is that memory ran out.
pub fn put_scaled(out: &mut Vec<Way>, times: usize, ways: &[Way]) -> Result<(), AllocError>
    requires { All (λ w. times * w.times ≤ 4096) ways.now }
    ensures { IfOk result (λ _. out.new.items ≡ out.old.items ++ scaled times ways.now) }
{
    for way in ways {
        let times = times * way.times;
        out.push(Way {
            number: way.number,
            times,
        })?;
    }
    Ok(())
}

// The number of a leave as counted from outside of `inside` numbers; none if its target is one of these.
#[tactic(auto, using(ls_finally_exits::proofs::Numbers::is_inside, ls_finally_exits::proofs::Numbers::is_beyond))]
fn outward_of(inside: usize, number: usize) -> Option<usize>
    ensures { result ≡ outward inside number }
{
    if number < inside {
        None
    } else {
        Some(number - inside)
    }
}

// Puts a way of a body after those in `out`, if it leads beyond `inside` numbers.
fn put_beyond_one(out: &mut Vec<Way>, inside: usize, way: Way) -> Result<(), AllocError>
    ensures { IfOk result (λ _. out.new.items ≡ out.old.items ++ one_beyond inside way) }
{
    let times = way.times;
    let number = match way.number {
        None => None,
        Some(number) => match outward_of(inside, number) {
            None => return Ok(()),
            Some(number) => Some(number),
        },
    };
    out.push(Way { number, times })?;
    Ok(())
}

/// Puts the ways of a body that lead beyond `inside` numbers after those in `out`. The only refusal is that memory ran
/// out.
pub fn put_beyond(out: &mut Vec<Way>, inside: usize, ways: &[Way]) -> Result<(), AllocError>
    ensures { IfOk result (λ _. out.new.items ≡ out.old.items ++ beyond inside ways.now) }
{
    for way in ways {
        put_beyond_one(out, inside, *way)?;
    }
    Ok(())
}
