//! No alias leads back to itself.
ghost use Rattle.std.specs.Prelude.{◌≡◌, IfErr, IfOk, OnOk};
ghost use Rattle.fidl_tree.specs.declared.file.File.{File as Tree};
ghost use Rattle.fidl_tree.specs.declared.declaration.AliasDeclaration.{AliasDeclaration as Node};
ghost use Rattle.fidl_named.specs.declared.place.Place.{Place as Spot};
ghost use Rattle.fidl_named.specs.Aliases.{IsAliasAt, AreEnds};
ghost use Rattle.fidl_names.specs.AliasCycles.{AliasesBack, IsTrueOfAliases};
ghost use Rattle.fidl_named.specs.Aliases.{rows_of};
ghost use Rattle.fidl_named.specs.FullNames.{HasDeclaration};

use crate::alias_ends::find_ends;
use crate::alias_graph::alias_graph;
use crate::declaration_numbers::number_declarations;
use fidl_cycles::find_cycle;
use fidl_named::{AliasEnd, DeclarationId, FileSet, NameFault, Place, SetScope, name_span};

/// Where the name of a declaration stands.
fn name_place(set: &FileSet<'_, '_>, id: DeclarationId) -> Place
    requires { HasDeclaration set.now id }
    ensures { (f : Tree) (a : Node) → IsAliasAt set.now id f a → result
        ≡ record { file = id.file; span = a.name } }
{
    let declaration = &set.file(id.file).declarations[id.index];
    let span = name_span(&declaration.body);
    Place {
        file: id.file,
        span,
    }
}

/// No alias leads back to itself; the ends of each declaration.
pub(crate) fn check_aliases(names: &SetScope<'_, '_, '_>) -> Result<Vec<Vec<AliasEnd>>, NameFault>
    ensures none { OnOk result ((place : Spot) → AliasesBack names.now.set.now place → ⊥) }
    ensures fault_is_true { IfErr result (IsTrueOfAliases names.now.set.now) }
    ensures ends { IfOk result (λ rows. AreEnds names.now.set.now (rows_of rows.items)) }
{
    let numbers = number_declarations(names.set)?;
    let graph = alias_graph(names, &numbers)?;
    match find_cycle(&graph, names.set.alloc())? {
        Err(cycle_edge) => {
            let place = name_place(names.set, numbers.ids[cycle_edge.from]);
            Err(NameFault::AliasCycle { place })
        }
        Ok(order) => {
            let ends = find_ends(names, &numbers, &order)?;
            Ok(ends)
        }
    }
}
