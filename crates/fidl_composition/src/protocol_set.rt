//! The protocols of files with what they compose.
ghost use Rattle.std.specs.Prelude.{◌≡◌, ◌<◌, ◌↔◌, ℕ, List, Some, length, slice_get, IfOk};
ghost use Rattle.std.specs.List.{Contains};
ghost use Rattle.fidl_tree.specs.declared.file.File.{File as Tree};
ghost use Rattle.fidl_composition.specs.Numbers.{AreCompositions, ReachesByNumber};
ghost use Rattle.fidl_composition.specs.Points.{AreDistinct};

use crate::points::reached_points;
use fidl_named::DeclarationId;
use std::alloc::{AllocError, Global};
use std::marker::Model;

/// The protocols of files, each with those that it composes. Contracts see the ids of the protocols
/// in the order of the sources, and for each, by its place there, the places of those that it
/// composes.
#[derive(Drop)]
pub struct Compositions {
    pub(crate) ids: Vec<DeclarationId>,
    pub(crate) graph: Vec<Vec<usize>>,
}

impl Model for Compositions {
    ghost use Rattle.std.specs.Prelude.{◌≡◌, ℕ, List, length};
    ghost use Rattle.fidl_named.specs.declared.place.DeclarationId.{DeclarationId};
    ghost use Rattle.fidl_cycles.specs.Cycles.{EdgesWithin, points_of};
    ghost use Rattle.fidl_composition.specs.Stored.{compositions_coded};

    ghost Value = { List DeclarationId × List (List ℕ) };

    ghost coded = { compositions_coded };

    ghost view = { λ s. (s.ids.items, points_of s.graph.items) };

    ghost invariant = { λ s. EdgesWithin s.graph.items
        × (length s.graph.items ≡ length s.ids.items) };
}

impl Compositions {
    /// The ids of all protocols, in the order of the sources: files in their order, declarations in
    /// theirs. The number of a protocol is its place here, from 0 on.
    pub fn protocols(&self) -> &[DeclarationId]
        ensures { result.now ≡ self.now.0 }
    {
        &self.ids
    }

    /// The numbers of all protocols that the one of this number reaches, each once: itself first,
    /// then those that each protocol of the list composes, in order.
    ///
    /// `AllocError`: memory ran out.
    pub fn reached(&self, alloc: Global, number: usize) -> Result<Vec<usize>, AllocError>
        requires within { number < length self.now.0 }
        ensures reached { IfOk result (λ found. (files : List Tree)
            → AreCompositions files self.now → (t : ℕ) → Contains found.items t
            ↔ ReachesByNumber files self.now.0 number t) }
        ensures first { IfOk result (λ found. slice_get found.items 0 ≡ Some number) }
        ensures once { IfOk result (λ found. AreDistinct found.items) }
    {
        reached_points(alloc, &self.graph, number)
    }
}
