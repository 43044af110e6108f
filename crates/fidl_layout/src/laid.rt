//! Files that are laid out.
ghost use Rattle.std.specs.Prelude.{◌≡◌, slice_get, map};
ghost use Rattle.std.specs.Option.{option_map, option_and_then};
ghost use Rattle.fidl_wire.specs.Term.{fields_of};
ghost use Rattle.fidl_wire.specs.Figure.{Declarations, offsets};
ghost use Rattle.fidl_type_shape.specs.Views.{figure_view};
ghost use Rattle.fidl_layout.specs.Laid.{AreFigures, AreLaidOut};

use fidl_type_shape::{Figure, Figures};
use fidl_types::Types;
use std::marker::Model;

/// Checked files, of which all types are within the limits, with the figures of their definitions.
/// Contracts see the list of their trees.
#[derive(Drop)]
pub struct Laid<'f, 's> {
    pub(crate) types: Types<'f, 's>,
    pub(crate) figures: Figures,
}

impl<'f, 's> Model for Laid<'f, 's> {
    ghost use Rattle.std.specs.Prelude.{List};
    ghost use Rattle.fidl_tree.specs.declared.file.File.{File as Tree};
    ghost use Rattle.fidl_named.specs.StoredFiles.{files_coded};
    ghost use Rattle.fidl_layout.specs.Laid.{AreHeld};

    ghost Value = { List Tree };

    ghost coded = { files_coded };

    ghost view = { λ l. l.types };

    ghost invariant = { λ l. AreHeld l.types l.figures };
}

impl<'f, 's> Laid<'f, 's> {
    /// The files, whose types keep all rules.
    pub fn types(&self) -> &Types<'f, 's>
        ensures { result.now ≡ self.now }
    {
        &self.types
    }

    /// The figures of their definitions, and the offsets of the members of structs.
    pub fn figures(&self) -> &Figures
        ensures { AreFigures self.now result.now }
    {
        &self.figures
    }

    /// Size and alignment in bytes, and the nest, of the definition of this number; None where
    /// there is no such definition.
    pub fn figure(&self, definition: usize) -> Option<Figure>
        ensures { (ds : Declarations) × AreLaidOut self.now ds
            × (option_map figure_view result ≡ slice_get ds.figures definition) }
    {
        self.figures.figure(definition)
    }

    /// Where a member of a struct stands, in bytes from the start of the struct, by the number of
    /// the definition and that of the member, from 0; None where the definition isn't there, is no
    /// struct or has no such member.
    pub fn offset(&self, definition: usize, member: usize) -> Option<u32>
        ensures { (ds : Declarations) × AreLaidOut self.now ds
            × (result ≡ option_and_then (λ places. slice_get places member)
            (slice_get (map (λ d. offsets ds.figures 0 (fields_of d)) ds.terms) definition)) }
    {
        self.figures.offset(definition, member)
    }
}
