//! The files whose types are read.

use crate::numbers::LayoutNumbers;
use fidl_consts::Consts;
use fidl_declarations::Form;
use fidl_named::Named;
use std::alloc::Global;

/// A set of files, with the values of its constants and its forms, all in their order, and the
/// numbers of its layouts.
#[derive(Clone, Copy, Drop)]
pub struct Sources<'a, 'f, 's> {
    pub alloc: Global,
    pub named: &'a Named<'f, 's>,
    pub consts: &'a Consts,
    pub forms: &'a [Form<'f, 's>],
    pub numbers: &'a LayoutNumbers,
}
