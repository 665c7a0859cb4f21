//! What a statement stands in.

use crate::labels::Names;
use crate::opened::OpenMethod;
use std::alloc::Global;

/// What the names at a place of a method stand for, and how many labels are declared.
#[derive(Clone, Copy)]
pub(crate) struct Scope<'a> {
    pub(crate) names: Names<'a>,
    pub(crate) methods: &'a [OpenMethod<'a>],
    pub(crate) count: u16,
    pub(crate) alloc: Global,
}
