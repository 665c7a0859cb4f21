//! The objects that there are from the start.
ghost use Rattle.std.specs.Prelude.{◌≡◌, IfOk};
ghost use Rattle.fab_language.specs.Evaluation.{rows_of, map_at_start};
ghost use Rattle.fab_lines.specs.Numbered.{AreNumbered};

use fab_base::{NoMemory, Object, Oid, Seq};
use fab_map::ObjectMap;
use fab_tree::resolved::{Resolved, Root};
use std::alloc::Global;

/// The objects of the roots, in the order of the text.
fn rows(alloc: Global, roots: &[Root]) -> Result<Vec<(Oid, Object)>, NoMemory>
    ensures { IfOk result (λ v. v.items ≡ rows_of roots.now) }
{
    let mut rows = Vec::new(alloc);
    let mut rest = roots;
    'roots: while let Some((root, after)) = rest.split_first() {
        let object = Object {
            class: root.oid.class,
            fields: Seq::from_slice(alloc, root.values.as_slice())?,
        };
        rows.push((root.oid, object))?;
        rest = after;
    }
    Ok(rows)
}

/// The objects that there are from the start.
pub fn at_start(alloc: Global, start: &Resolved) -> Result<ObjectMap, NoMemory>
    requires { AreNumbered start.now.roots }
    ensures { IfOk result (λ m. m ≡ map_at_start start.now) }
{
    let rows = rows(alloc, start.roots.as_slice())?;
    Ok(ObjectMap::from_rows(rows))
}
