//! Objects by name and version.
ghost use Rattle.std.specs.Prelude.{◌≡◌, ◌∷◌, ◌++◌, [], OnOk, IfOk};
ghost use Rattle.std.specs.Option.{option_copied};
ghost use Rattle.fab_release.specs.Replay.{row_at};
ghost use Rattle.fab_known.specs.Tables.{AreAlike, row_found};

use fab_base::{NoMemory, Object, Oid, Seq};
use indexmap::IndexMap;
use std::alloc::Global;
use std::marker::Model;

/// A name and a version.
#[derive(Clone, Copy, Debug, PartialEq, Eq, Hash)]
pub(crate) struct Place {
    oid: Oid,
    version: u32,
}

/// Objects by name and version. Contracts see them as rows, and speak of what is found in these.
pub struct Table {
    objects: IndexMap<Place, Object>,
}

impl Drop for Table {
    fn drop(self) {
        let Table { objects } = self;
    }
}

impl Model for Table {
    ghost use Rattle.std.specs.Prelude.{map};
    ghost use Rattle.fab_protocol.specs.Versions.{Rows};
    ghost use Rattle.fab_known.specs.Tables.{row_in};

    ghost Value = { Rows };

    ghost view = { λ t. map row_in t.objects.entries };
}

impl Table {
    /// No objects.
    pub fn new(alloc: Global) -> Table
        ensures { result ≡ [] }
    {
        Table {
            objects: IndexMap::new(alloc),
        }
    }

    /// The object of this name at this version.
    pub fn get(&self, oid: Oid, version: u32) -> Option<&Object>
        ensures { row_found oid version (option_copied result) ≡ row_at self.now oid version }
    {
        self.objects.get(&Place { oid, version })
    }

    /// One row more, in the place of that of its name and version.
    fn put(&mut self, row: (Oid, u32, Object)) -> Result<(), NoMemory>
        ensures { OnOk result (AreAlike self.new (row ∷ self.old)) }
    {
        let (oid, version, object) = row;
        self.objects.insert(Place { oid, version }, object)?;
        Ok(())
    }

    /// More rows, in the places of those of their names and versions; of two that have both in common
    /// the first stays.
    pub fn put_all(&mut self, rows: Seq<(Oid, u32, Object)>) -> Result<(), NoMemory>
        ensures { OnOk result (AreAlike self.new (rows ++ self.old)) }
    {
        let mut rest = rows.into_vec();
        while let Some(row) = rest.pop() {
            self.put(row)?;
        }
        Ok(())
    }
}
