// Objects in the order in which they are met. Nothing depends on it.

use crate::references::object_of;
use ls_source_store::store::Store;
use ls_source_store::thing::Thing;
use std::alloc::{AllocError, Global};

/// Objects in the order in which they were met, and for each object its place in that order, counted from 1, or 0.
#[derive(Drop)]
pub(crate) struct Walk {
    pub(crate) met: Vec<u64>,
    pub(crate) places: Vec<u64>,
    // How many of them were left.
    left: usize,
}

impl Walk {
    /// Of so many objects none was met.
    fn new(alloc: Global, count: usize) -> Result<Walk, AllocError> {
        Ok(Walk {
            met: Vec::new(alloc),
            places: vec![in alloc; 0; count]?,
            left: 0,
        })
    }

    /// The objects of a store that its setup names name.
    pub(crate) fn of_names(alloc: Global, store: &Store) -> Result<Walk, AllocError> {
        let mut walk = Walk::new(alloc, store.things.len())?;
        for value in &store.names {
            walk.meet(object_of(*value))?;
        }
        Ok(walk)
    }

    /// Meets an object.
    pub(crate) fn meet(&mut self, object: u64) -> Result<(), AllocError> {
        let Some(at) = object.checked_sub(1) else {
            return Ok(());
        };
        let Some(place) = self.places.get_mut(at as usize) else {
            return Ok(());
        };
        if *place == 0 {
            self.met.push(object)?;
            *place = self.met.len() as u64;
        }
        Ok(())
    }

    fn meet_those_of(&mut self, thing: &Thing) -> Result<(), AllocError> {
        match thing {
            Thing::Object { fields, .. } => {
                for value in fields {
                    self.meet(object_of(*value))?;
                }
                Ok(())
            }
            Thing::Markable(pair) => self.meet(object_of(*pair)),
            Thing::Lock(_) | Thing::Array { .. } => Ok(()),
        }
    }

    /// Meets all that those that were met name, and so on.
    pub(crate) fn go_on(&mut self, store: &Store) -> Result<(), AllocError> {
        for _ in 0..store.things.len() {
            let Some(object) = self.met.get(self.left) else {
                return Ok(());
            };
            let at = object.wrapping_sub(1) as usize;
            if let Some(thing) = store.things.get(at) {
                self.meet_those_of(thing)?;
            }
            self.left = self.left.wrapping_add(1);
        }
        Ok(())
    }

    /// Whether each object is at its own place.
    pub(crate) fn is_in_place(&self) -> bool {
        if self.met.len() != self.places.len() {
            return false;
        }
        for i in 0..self.met.len() {
            if self.met[i] != (i as u64).wrapping_add(1) {
                return false;
            }
        }
        true
    }
}
