//! Files whose types are checked.
ghost use Rattle.std.specs.Prelude.{◌≡◌};
ghost use Rattle.fidl_consts.specs.Tables.{AreConsts};
ghost use Rattle.fidl_declarations.specs.FormViews.{forms_view};
ghost use Rattle.fidl_lower_types.specs.Numbers.{all_forms};
ghost use Rattle.fidl_lower_types.specs.NumberViews.{AreNumbers};
ghost use Rattle.fidl_lower_types.specs.TermViews.{AreKnown};
ghost use Rattle.fidl_ir.specs.Terms.{definitions_view};
ghost use Rattle.fidl_types.specs.Types.{TypesAre};

use fidl_consts::Consts;
use fidl_declarations::Form;
use fidl_ir::Definition;
use fidl_lower_types::{LayoutNumbers, Sources};
use fidl_named::Named;
use std::alloc::Global;
use std::marker::Model;

/// Files that keep all rules of types, with the values of their constants, their forms, the numbers
/// of their layouts and the definitions of their forms. Contracts see the list of their trees.
#[derive(Drop)]
pub struct Types<'f, 's> {
    pub(crate) named: Named<'f, 's>,
    pub(crate) consts: Consts,
    pub(crate) forms: Vec<Form<'f, 's>>,
    pub(crate) numbers: LayoutNumbers,
    pub(crate) definitions: Vec<Definition>,
}

impl<'f, 's> Model for Types<'f, 's> {
    ghost use Rattle.std.specs.Prelude.{List};
    ghost use Rattle.fidl_tree.specs.declared.file.File.{File as Tree};
    ghost use Rattle.fidl_named.specs.StoredFiles.{files_coded};
    ghost use Rattle.fidl_declarations.specs.FormViews.{forms_view};
    ghost use Rattle.fidl_ir.specs.Terms.{definitions_view};
    ghost use Rattle.fidl_types.specs.Types.{AreHeld};

    ghost Value = { List Tree };

    ghost coded = { files_coded };

    ghost view = { λ t. t.named };

    ghost invariant = { λ t. AreHeld t.named t.consts (forms_view t.forms.items) t.numbers
        (definitions_view t.definitions.items) };
}

impl<'f, 's> Types<'f, 's> {
    /// The files, with their names resolved.
    pub fn named(&self) -> &Named<'f, 's>
        ensures { result.now ≡ self.now }
    {
        &self.named
    }

    /// The values of their constants.
    pub fn consts(&self) -> &Consts
        ensures { AreConsts self.now result.now }
    {
        &self.consts
    }

    /// Their forms, in the order of their numbers.
    pub fn forms(&self) -> &[Form<'f, 's>]
        ensures { forms_view result.now ≡ all_forms self.now }
    {
        &self.forms
    }

    /// The numbers of their layouts.
    pub fn numbers(&self) -> &LayoutNumbers
        ensures { AreNumbers (all_forms self.now) result.now }
    {
        &self.numbers
    }

    /// The files as the terms of types are read from them.
    pub fn sources(&self, alloc: Global) -> Sources<'_, 'f, 's>
        ensures files { result.named.now ≡ self.now }
        ensures known { AreKnown result }
    {
        Sources {
            alloc,
            named: &self.named,
            consts: &self.consts,
            forms: &self.forms,
            numbers: &self.numbers,
        }
    }

    /// The definition of each form, in the same order. The files keep all rules of types.
    pub fn definitions(&self) -> &[Definition]
        ensures { TypesAre self.now (definitions_view result.now) }
    {
        &self.definitions
    }
}
