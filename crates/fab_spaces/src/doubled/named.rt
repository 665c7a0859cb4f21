//! What is declared with a name, of whatever kind, and what is declared twice.
ghost use Rattle.std.specs.Prelude.{◌≡◌, ◌||◌, ◌∷◌, [], List, ℕ, IfOk, OnOk, if◌then◌else◌};
ghost use Rattle.std.specs.Str.{bytes_eq};
ghost use Rattle.fab_language.specs.Doubled.{repeats};
ghost use Rattle.fab_rules.specs.First.{first_from};
ghost use Rattle.fab_spaces.specs.Repeats.{is_noted};

use fab_base::NoMemory;
use fab_language::{Fault, NameRule};
use fab_rules::{Local, noted_unless};
use fab_tree::{Class, Field, LabelText, Method, Name, Node, Root};
use std::alloc::Global;
use std::collections::BTreeSet;

/// What is declared with a name.
pub trait Named {
    ghost use Rattle.std.specs.Prelude.{◌≡◌};
    ghost use Rattle.fab_tree.specs.declared.name.Name.{Name as Written};

    ghost called: { Self → Written };

    /// Its name.
    fn name(&self) -> &Name
        ensures { result.now ≡ called self.now };
}

impl Named for Node {
    ghost use Rattle.fab_language.specs.Names.{node_name};

    ghost called = { node_name };

    fn name(&self) -> &Name {
        &self.name
    }
}

impl Named for LabelText {
    ghost use Rattle.fab_language.specs.Names.{label_name};

    ghost called = { label_name };

    fn name(&self) -> &Name {
        &self.name
    }
}

impl Named for Class {
    ghost use Rattle.fab_language.specs.Names.{class_name};

    ghost called = { class_name };

    fn name(&self) -> &Name {
        &self.name
    }
}

impl Named for Field {
    ghost use Rattle.fab_language.specs.Names.{field_name};

    ghost called = { field_name };

    fn name(&self) -> &Name {
        &self.name
    }
}

impl Named for Method {
    ghost use Rattle.fab_language.specs.Names.{method_name};

    ghost called = { method_name };

    fn name(&self) -> &Name {
        &self.name
    }
}

impl Named for Root {
    ghost use Rattle.fab_language.specs.Names.{root_name};

    ghost called = { root_name };

    fn name(&self) -> &Name {
        &self.name
    }
}

impl Named for Local<'_> {
    ghost called = { λ l. l.name.now };

    fn name(&self) -> &Name {
        self.name
    }
}

/// Each of these whose name one before it has. The names stand in a set in their order, so no choice
/// of names makes it long.
pub fn repeats<T: Named>(
    alloc: Global,
    first: Option<Fault>,
    items: &[T],
) -> Result<Option<Fault>, NoMemory>
    ensures { IfOk result (λ o. o ≡ first_from first (repeats T.called items.now)) }
{
    let mut seen = BTreeSet::new(alloc);
    let mut first = first;
    for item in items {
        first = noted_once(&mut seen, first, item.name())?;
    }
    Ok(first)
}

/// Notes a name. It is a fault if it was noted before.
pub(crate) fn noted_once<'a>(
    seen: &mut BTreeSet<&'a str>,
    first: Option<Fault>,
    name: &'a Name,
) -> Result<Option<Fault>, NoMemory>
    ensures fault { IfOk result (λ o. o ≡ first_from first (if is_noted seen.old name.now.text then record { rule = NameRule.Doubled; at = name.now.at } ∷ [] else [])) }
    ensures noted { OnOk result ((q : List ℕ) → is_noted seen.new q ≡ (bytes_eq name.now.text q || is_noted seen.old q)) }
{
    let is_new = seen.insert(name.text.as_str())?;
    Ok(noted_unless(is_new, first, NameRule::Doubled, name.at))
}
