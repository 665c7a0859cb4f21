//! How a run of the program ended.
ghost use Rattle.std.specs.Prelude.{◌≡◌, ℕ};
ghost use Rattle.fab_base.specs.declared.limit.What.{What as WhatHasALimit};
ghost use Rattle.fab_language.specs.declared.rule.NameRule.{NameRule as Rule};
ghost use Rattle.fab_labelling.specs.declared.rule.LabelRule.{LabelRule as LabelsRule};
ghost use Rattle.fab_labelling.specs.declared.rule.Side.{Side as OneSide};
ghost use Rattle.fab_front.specs.declared.status.Status.TheVariants as status;

use fab_base::What;
use fab_labelling::{LabelRule, Side};
use fab_language::NameRule;

/// How a run of the program ended.
#[derive(Clone, Copy, Debug, PartialEq, Eq)]
pub enum Status {
    /// All was done and written.
    Ok,
    /// The words ask for nothing that the program does.
    Usage,
    /// The source failed.
    ReadFault,
    /// The sink failed.
    WriteFault,
    /// Memory ran out.
    Memory,
    /// The text isn't of the language. `at` is the place of the first byte or token that doesn't
    /// fit, or the text's length.
    Syntax {
        at: u32,
    },
    /// The bundle breaks a rule of names and types, first at this place; or a word of the command
    /// line is no label or no node of it, at the text's length.
    Name {
        rule: NameRule,
        at: u32,
    },
    /// The bundle breaks a rule of labels, first at this place: what the source says doesn't flow
    /// to the target, or isn't the target's to do. Of `infer` the bundle with the least labels.
    Label {
        rule: LabelRule,
        at: u32,
        source: Side,
        target: Side,
    },
    /// The bundle has too many of something.
    Limit {
        what: What,
    },
    /// The event of this number in the schedule, from 1, may not come.
    NotEnabled {
        event: u32,
    },
    /// The journal of this node failed.
    JournalFault {
        node: u16,
    },
    /// The hole at this place has no least label.
    NoLeast {
        at: u32,
    },
    /// The bundle isn't robust: at this place it declassifies, and the integrity of the source, a label, doesn't
    /// flow to that of the principal alone, by their numbers.
    Robust {
        at: u32,
        source: u16,
        principal: u16,
    },
    /// Behind the bundle there is no report with journals: at this place of the text stands the first byte that doesn't
    /// fit, or the text ends too soon.
    Trace {
        at: u32,
    },
    /// The report and the journals aren't those of a run, first in this line, counted from the report's first as 1.
    Wrong {
        line: u32,
    },
}

impl Status {
    /// The number that the process ends with.
    pub fn number(self) -> u8
        ensures ok { self ≡ status.Ok → result ≡ 0 }
        ensures usage { self ≡ status.Usage → result ≡ 1 }
        ensures read_fault { self ≡ status.ReadFault → result ≡ 2 }
        ensures write_fault { self ≡ status.WriteFault → result ≡ 3 }
        ensures memory { self ≡ status.Memory → result ≡ 4 }
        ensures syntax { (at : ℕ) → self ≡ status.Syntax at → result ≡ 5 }
        ensures name { (rule : Rule) (at : ℕ) → self ≡ status.Name rule at → result ≡ 6 }
        ensures label { (rule : LabelsRule) (at : ℕ) (source target : OneSide) → self ≡ status.Label rule at source target → result ≡ 7 }
        ensures limit { (what : WhatHasALimit) → self ≡ status.Limit what → result ≡ 8 }
        ensures not_enabled { (event : ℕ) → self ≡ status.NotEnabled event → result ≡ 9 }
        ensures journal_fault { (node : ℕ) → self ≡ status.JournalFault node → result ≡ 10 }
        ensures no_least { (at : ℕ) → self ≡ status.NoLeast at → result ≡ 12 }
        ensures robust { (at source principal : ℕ) → self ≡ status.Robust at source principal → result ≡ 13 }
        ensures trace { (at : ℕ) → self ≡ status.Trace at → result ≡ 14 }
        ensures wrong { (line : ℕ) → self ≡ status.Wrong line → result ≡ 15 }
    {
        match self {
            Status::Ok => 0,
            Status::Usage => 1,
            Status::ReadFault => 2,
            Status::WriteFault => 3,
            Status::Memory => 4,
            Status::Syntax { .. } => 5,
            Status::Name { .. } => 6,
            Status::Label { .. } => 7,
            Status::Limit { .. } => 8,
            Status::NotEnabled { .. } => 9,
            Status::JournalFault { .. } => 10,
            Status::NoLeast { .. } => 12,
            Status::Robust { .. } => 13,
            Status::Trace { .. } => 14,
            Status::Wrong { .. } => 15,
        }
    }
}
