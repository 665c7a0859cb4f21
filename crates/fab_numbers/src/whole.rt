//! The whole bundle with numbers for names.
ghost use Rattle.std.specs.Prelude.{◌≡◌, None, IfOk};
ghost use Rattle.fab_language.specs.Numbers.{resolved};
ghost use Rattle.fab_tree.specs.Limits.{first_passed};

use crate::declarations::principals;
use crate::methods::numbered_methods;
use crate::objects::numbered_roots;
use crate::parts::each_numbered;
use crate::sessions::numbered_sessions;
use fab_base::NoMemory;
use fab_tables::Tables;
use fab_tree::resolved::Resolved;
use std::alloc::Global;

/// A bundle within the limits with numbers for names.
///
/// A name is found in a table, but for a field's, of which a class has 16 at most. So the time grows
/// with the length of the bundle, and with the logarithm of the number of roots.
pub fn numbered(alloc: Global, tables: &Tables<'_>) -> Result<Resolved, NoMemory>
    requires { first_passed tables.now ≡ None }
    ensures { IfOk result (λ r. r ≡ resolved tables.now) }
{
    let start = tables.start();
    let program = &start.program;
    let roots = numbered_roots(alloc, tables, start.roots.as_slice())?;
    let sessions = numbered_sessions(alloc, tables, roots.as_slice(), start.sessions.as_slice())?;
    Ok(Resolved {
        nodes: principals(alloc, program.nodes.as_slice())?,
        pairs: each_numbered(alloc, tables, program.delegations.as_slice())?,
        labels: each_numbered(alloc, tables, program.labels.as_slice())?,
        classes: each_numbered(alloc, tables, program.classes.as_slice())?,
        methods: numbered_methods(alloc, tables, program.methods.as_slice())?,
        roots,
        sessions,
        posts: each_numbered(alloc, tables, start.posts.as_slice())?,
        crashes: each_numbered(alloc, tables, start.crashes.as_slice())?,
        cache: start.cache,
        schedule: each_numbered(alloc, tables, start.schedule.as_slice())?,
    })
}
