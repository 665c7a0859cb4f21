//! The touches of a run.
ghost use Rattle.std.specs.Prelude.{◌≡◌, [], length, not, take, IfOk, OnErr, if◌then◌else◌};
ghost use Rattle.fab_language.specs.Heaps.{is_full, noted, touched};

use crate::names::Names;
use fab_base::{NoMemory, Oid};
use std::alloc::Global;
use std::marker::Model;

const MAX_OBJECTS: usize = 1024;

/// What was touched, in order: each pair of a site and an object once. Contracts see it as the list
/// of these pairs. The objects among them stand as names of their own.
#[derive(Drop)]
pub struct Touches {
    noted: Names<(u16, Oid)>,
    objects: Names<Oid>,
}

impl Model for Touches {
    ghost use Rattle.std.specs.Prelude.{◌≡◌, ℕ, List};
    ghost use Rattle.fab_base.specs.declared.object.Oid.{Oid};
    ghost use Rattle.fab_language.specs.Heaps.{touched};

    ghost Value = { List (ℕ × Oid) };

    ghost view = { λ t. t.noted };

    ghost invariant = { λ t. t.objects ≡ touched t.noted };
}

impl Touches {
    /// No touches.
    pub fn new(alloc: Global) -> Touches
        ensures { result ≡ [] }
    {
        Touches {
            noted: Names::new(alloc),
            objects: Names::new(alloc),
        }
    }

    /// Notes that an object is touched at a site, unless it would be one object too many.
    pub fn reach(&mut self, site: u16, oid: Oid) -> Result<bool, NoMemory>
        ensures fits { IfOk result (λ fits. fits ≡ not (is_full oid (touched self.old))) }
        ensures noted { IfOk result (λ fits. self.new ≡ (if fits then noted site oid self.old else self.old)) }
        ensures err { OnErr result (self.new ≡ self.old) }
    {
        if self.noted.contains((site, oid)) {
            return Ok(true);
        }
        if self.objects.contains(oid) {
            self.noted.push((site, oid))?;
            return Ok(true);
        }
        if self.objects.len() >= MAX_OBJECTS {
            return Ok(false);
        }
        self.objects.push(oid)?;
        match self.noted.push((site, oid)) {
            Ok(()) => Ok(true),
            Err(failed) => {
                self.objects.pop();
                Err(failed)
            }
        }
    }

    /// The pairs, in order.
    pub fn pairs(&self) -> &[(u16, Oid)]
        ensures { result.now ≡ self.now }
    {
        self.noted.as_slice()
    }

    /// How many pairs there are, and how many objects.
    pub fn counts(&self) -> (usize, usize)
        ensures pairs { result.0 ≡ length self.now }
        ensures objects { result.1 ≡ length (touched self.now) }
    {
        (self.noted.len(), self.objects.len())
    }

    /// Keeps so many pairs, the first ones, with so many objects. It goes over those alone that it drops.
    pub fn cut(&mut self, pairs: usize, objects: usize)
        requires { objects ≡ length (touched (take pairs self.old)) }
        ensures { self.new ≡ take pairs self.old }
    {
        self.noted.truncate(pairs);
        self.objects.truncate(objects);
    }
}
