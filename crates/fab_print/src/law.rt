//! What the canonical text says: the bundle that it is of, whatever the places in its text.
ghost use Rattle.fab_print.specs.Again.{PrintIsRead};

/// The canonical text of a bundle that a text stands for is read as that bundle again, and it is
/// the canonical text of what is read.
pub fn print_is_read()
    ensures { PrintIsRead }
{}
