//! How a run of the program ended.
ghost use Rattle.std.specs.Prelude.{◌≡◌, ℕ};
ghost use Rattle.fab_base.specs.declared.limit.What.{What as WhatHasALimit};
ghost use Rattle.fab_language.specs.declared.rule.NameRule.{NameRule as Rule};
ghost use Rattle.fab_front.specs.declared.status.Status.TheVariants as status;
ghost use Rattle.fab_drawing.specs.declared.ending.Ending.TheVariants as ending;

use fab_front::Status;

/// How a run of the program ended.
#[derive(Clone, Copy, Debug, PartialEq, Eq)]
pub enum Ending {
    /// As a run of the program that makes runs may.
    Plain(Status),
    /// What stands behind the bundle is no report from this place of the text on, or its line there names a
    /// node that the bundle doesn't have.
    Trace { at: u32 },
}

impl Ending {
    /// The number that the process ends with: that of the status, and 11 for what is no report of the bundle.
    pub fn number(self) -> u8
        ensures ok { self ≡ ending.Plain status.Ok → result ≡ 0 }
        ensures usage { self ≡ ending.Plain status.Usage → result ≡ 1 }
        ensures read_fault { self ≡ ending.Plain status.ReadFault → result ≡ 2 }
        ensures write_fault { self ≡ ending.Plain status.WriteFault → result ≡ 3 }
        ensures memory { self ≡ ending.Plain status.Memory → result ≡ 4 }
        ensures syntax { (at : ℕ) → self ≡ ending.Plain (status.Syntax at) → result ≡ 5 }
        ensures name { (rule : Rule) (at : ℕ) → self ≡ ending.Plain (status.Name rule at) → result ≡ 6 }
        ensures limit { (what : WhatHasALimit) → self ≡ ending.Plain (status.Limit what) → result ≡ 8 }
        ensures trace { (at : ℕ) → self ≡ ending.Trace at → result ≡ 11 }
    {
        match self {
            Ending::Plain(status) => status.number(),
            Ending::Trace { .. } => 11,
        }
    }
}
