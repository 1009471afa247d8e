// The states of a program as a space of a graph, one step at a time and under the names that objects have.

ghost use Rattle.std.specs.Prelude.{◌≡◌, IfNone, IfOk, IfSome};
ghost use Rattle.ls_checked.specs.Plain.{plain_file};
ghost use Rattle.ls_meaning.specs.Still.{IsStill};
ghost use Rattle.ls_search_laws.specs.Configuration.{stride};
ghost use Rattle.ls_transitions.specs.Tables.{Grows};
ghost use Rattle.ls_transitions.specs.Seen.{table_of};
ghost use Rattle.ls_choices.specs.Points.{IsPlaced, standing_at};
ghost use Rattle.ls_choices.specs.Standing.{LeadsOn, NoEnd, Rests, Standing, standing_after};

use crate::points::Point;
use crate::turns::{Turn, turn_of};
use ls_checked::tree::File;
use ls_graph::space::{Space, Step as Leading};
use ls_transitions::transitions::Transitions;
use std::alloc::{AllocError, Global};

/// The states of a program of a file. They are told apart by the names of objects, their labels and the numbers of
/// calls too.
#[derive(Drop)]
pub struct ChoiceSpace<'a> {
    pub(crate) file: &'a File,
}

// Where a thread leads from a state, if it acts.
fn lead<'a>(
    space: &ChoiceSpace<'a>,
    alloc: Global,
    transitions: &mut Transitions<'a>,
    point: &Point,
    thread: u8,
) -> Result<Option<Leading<Point>>, AllocError>
    requires { IsPlaced (plain_file space.now.file.now) (table_of transitions.old) point.now }
    ensures grows { Grows (table_of transitions.old) (table_of transitions.new) }
    ensures rests { IfOk result (λ o. IfNone o (Rests (plain_file space.now.file.now)
        (standing_at (table_of transitions.old) point.now) thread)) }
    ensures known { IfOk result (λ o. IfSome o (λ s. IsPlaced (plain_file space.now.file.now)
        (table_of transitions.new) s.node)) }
    ensures leads { IfOk result (λ o. IfSome o (λ s. standing_at (table_of transitions.new) s.node ≡
        standing_after (plain_file space.now.file.now) (standing_at (table_of transitions.old) point.now) thread)) }
{
    match turn_of(alloc, transitions, &point.place, thread as usize)? {
        Turn::NotStarted(_) => Ok(None),
        Turn::Ended(_) => Ok(None),
        Turn::Waits(_) => Ok(None),
        Turn::Acts(step) => {
            let node = point.after(alloc, transitions, thread as usize, &step)?;
            Ok(Some(Leading { node, mark: 0 }))
        }
    }
}

impl<'a> Space for ChoiceSpace<'a> {
    ghost State = { Standing };

    ghost Rests = { λ s. Rests (plain_file s.file.now) };

    ghost Leads = { λ s. LeadsOn (plain_file s.file.now) };

    ghost Ends = { λ s. NoEnd };

    type Tables = Transitions<'a>;

    type Node = Point;

    ghost IsKnown = { λ s t n. IsPlaced (plain_file s.file.now) (table_of t) n };

    ghost stands = { λ s t n. standing_at (table_of t) n };

    ghost weighs = { λ n. n.weight };

    fn next(
        &self,
        alloc: Global,
        tables: &mut Transitions<'a>,
        node: &Point,
        actor: u8,
    ) -> Result<Option<Leading<Point>>, AllocError> {
        lead(self, alloc, tables, node, actor)
    }

    fn is_end(
        &self,
        _alloc: Global,
        _tables: &mut Transitions<'a>,
        _node: &Point,
    ) -> Result<bool, AllocError> {
        Ok(false)
    }

    fn is_same(&self, node: &Point, other: &Point) -> bool {
        node.is_same(other)
    }

    fn hash(&self, node: &Point) -> u64 {
        node.hash()
    }

    fn weight(&self, node: &Point) -> usize {
        node.weight
    }
}
