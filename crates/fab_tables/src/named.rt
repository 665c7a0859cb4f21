//! What is declared with a name, of whatever kind.

use fab_tree::{Class, Field, LabelText, Method, Name, Node, Parameter, Root, Session};

/// What is declared with a name.
pub trait Named {
    ghost use Rattle.std.specs.Prelude.{◌≡◌};
    ghost use Rattle.fab_tree.specs.declared.name.Name.{Name as Written};

    ghost name: { Self → Written };

    /// Its name.
    fn name(&self) -> &Name
        ensures { result.now ≡ name self.now };
}

impl Named for Node {
    ghost use Rattle.fab_language.specs.Names.{node_name};

    ghost name = { node_name };

    fn name(&self) -> &Name {
        &self.name
    }
}

impl Named for LabelText {
    ghost use Rattle.fab_language.specs.Names.{label_name};

    ghost name = { label_name };

    fn name(&self) -> &Name {
        &self.name
    }
}

impl Named for Class {
    ghost use Rattle.fab_language.specs.Names.{class_name};

    ghost name = { class_name };

    fn name(&self) -> &Name {
        &self.name
    }
}

impl Named for Field {
    ghost use Rattle.fab_language.specs.Names.{field_name};

    ghost name = { field_name };

    fn name(&self) -> &Name {
        &self.name
    }
}

impl Named for Method {
    ghost use Rattle.fab_language.specs.Names.{method_name};

    ghost name = { method_name };

    fn name(&self) -> &Name {
        &self.name
    }
}

impl Named for Parameter {
    ghost use Rattle.fab_language.specs.Names.{local_name};

    ghost name = { local_name };

    fn name(&self) -> &Name {
        &self.name
    }
}

impl Named for Root {
    ghost use Rattle.fab_language.specs.Names.{root_name};

    ghost name = { root_name };

    fn name(&self) -> &Name {
        &self.name
    }
}

impl Named for Session {
    ghost use Rattle.fab_language.specs.Names.{session_name};

    ghost name = { session_name };

    fn name(&self) -> &Name {
        &self.worker
    }
}
