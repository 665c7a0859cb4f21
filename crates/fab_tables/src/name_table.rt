//! A table of few names.
ghost use Rattle.std.specs.Prelude.{◌≡◌, ◌<◌, ◌++◌, ◌∷◌, [], length, is_none, IfOk, OnOk, OnErr};
ghost use Rattle.fab_tables.specs.Places.{place_of};

use fab_base::NoMemory;
use fab_tree::Name;
use indexmap::IndexMap;
use std::alloc::Global;
use std::marker::Model;

/// Names, each of which is found by its text. Contracts see the list of their texts. A choice of
/// names can make look-ups long, so it serves where there are few; `OrderedTable` serves for many.
pub struct NameTable<'a> {
    names: Vec<&'a str>,
    numbers: IndexMap<&'a str, u32>,
}

impl Drop for NameTable<'_> {
    fn drop(self) {
        let NameTable { names, numbers } = self;
    }
}

impl<'a> Model for NameTable<'a> {
    ghost use Rattle.std.specs.Prelude.{◌≡◌, ℕ, List, map};
    ghost use Rattle.indexmap.specs.IndexMap.{get_by};
    ghost use Rattle.std.specs.Str.{bytes_eq};
    ghost use Rattle.fab_tables.specs.Places.{place_of};

    ghost Value = { List (List ℕ) };

    ghost view = { λ t. map (λ n. n.now) t.names.items };

    ghost invariant = { λ t. (q : List ℕ) → get_by (λ k. bytes_eq q k.now) t.numbers ≡ place_of (map (λ n. n.now) t.names.items) q };
}

impl<'a> NameTable<'a> {
    /// A table of no names.
    pub fn new(alloc: Global) -> NameTable<'a>
        ensures { result ≡ [] }
    {
        NameTable {
            names: Vec::new(alloc),
            numbers: IndexMap::new(alloc),
        }
    }

    /// One more name at the end. The answer is whether no earlier one has its text.
    pub fn push(&mut self, name: &'a Name) -> Result<bool, NoMemory>
        requires { length self.old < 4294967295 }
        ensures pushed { OnOk result (self.new ≡ self.old ++ name.now.text ∷ []) }
        ensures first { IfOk result (λ first. first ≡ is_none (place_of self.old name.now.text)) }
        ensures err { OnErr result (self.new ≡ self.old) }
    {
        let text = name.text.as_str();
        self.names.reserve(1)?;
        let first = self.numbers.get(text).is_none();
        if first {
            self.numbers
                .insert(text, self.names.as_slice().len() as u32)?;
        }
        self.names.push(text)?;
        Ok(first)
    }

    /// Where the first name of this text stands.
    pub fn find(&self, name: &Name) -> Option<u32>
        ensures { result ≡ place_of self.now name.now.text }
    {
        self.numbers.get(name.text.as_str()).copied()
    }
}
