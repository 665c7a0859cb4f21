//! The labels that a bundle declares, and which names are holes.
ghost use Rattle.std.specs.Prelude.{◌≡◌, IfOk, Some};
ghost use Rattle.fab_holes.specs.Holes.{chosen_name, filled_name, has_holes, is_hole, is_infer};
ghost use Rattle.fab_infer.specs.Fill.{IsFilled, of_labels};

use fab_base::{NoMemory, Text};
use fab_tree::{LabelText, Name};

/// Whether a name is `infer`.
fn is_infer(name: &Name) -> bool
    ensures { result ≡ is_infer name.now }
{
    name.text.as_str() == "infer"
}

/// Whether no label has the name `infer`.
fn has_holes(labels: &[LabelText]) -> bool
    ensures { result ≡ has_holes (of_labels labels.now) }
{
    let mut rest = labels;
    'labels: while let Some((label, after)) = rest.split_first() {
        if is_infer(&label.name) {
            return false;
        }
        rest = after;
    }
    true
}

/// The declared labels, and whether the name `infer` is left for holes.
#[derive(Clone, Copy)]
pub(crate) struct Declared<'a> {
    labels: &'a [LabelText],
    any: bool,
    ghost is_any: { any ≡ has_holes (of_labels labels.now) },
}

impl<'a> Declared<'a> {
    /// Those labels.
    pub(crate) fn of(labels: &'a [LabelText]) -> Declared<'a>
        ensures { result.labels.now ≡ labels.now }
    {
        Declared {
            labels,
            any: has_holes(labels),
        }
    }

    /// Whether a name is a hole.
    pub(crate) fn is_hole(&self, name: &Name) -> bool
        ensures { result ≡ is_hole (of_labels self.now.labels.now) name.now }
    {
        self.any && is_infer(name)
    }

    /// The name of the label of a number at the place of this one, which stays where there is no label.
    fn named(&self, label: u16, name: Name) -> Result<Name, NoMemory>
        ensures { IfOk result (λ x. x ≡ chosen_name (of_labels self.now.labels.now) (Some label) name) }
    {
        match self.labels.get(usize::from(label)) {
            None => Ok(name),
            Some(found) => {
                let mut name = name;
                name.text = found.name.text.copy()?;
                Ok(name)
            }
        }
    }

    /// A label's name, with the name of the first of these labels for a hole, and the labels that are left.
    pub(crate) fn fill_name<'c>(
        &self,
        name: Name,
        choice: &'c [u16],
    ) -> Result<(Name, &'c [u16]), NoMemory>
        ensures { IfOk result (λ t. IsFilled (λ choice. filled_name (of_labels self.now.labels.now) choice name) choice.now t.0 t.1.now) }
    {
        if !self.is_hole(&name) {
            return Ok((name, choice));
        }
        match choice.split_first() {
            None => Ok((name, choice)),
            Some((label, left)) => {
                let name = self.named(*label, name)?;
                Ok((name, left))
            }
        }
    }
}
