//! Libraries whose imports lead back to them.
ghost use Rattle.std.specs.Prelude.{◌≡◌, ◌<◌, ◌↔◌, ◌⊎◌, ℕ, length, IfErr, IfOk, OnOk, IfSome};
ghost use Rattle.std.specs.Prelude.{IsNone};
ghost use Rattle.std.specs.List.{AllByRecursion, Any};
ghost use Rattle.fidl_cycles.specs.Cycles.{IsEdge, points_of};
ghost use Rattle.fidl_named.specs.Names.{IsOneOf, AreDistinct, path_text, library_of};
ghost use Rattle.fidl_names.specs.ImportRules.{libraries_of, ImportsAreKnown};
ghost use Rattle.fidl_named.specs.Imports.{IsEntry};
ghost use Rattle.fidl_named.specs.NameMaps.{seen, names_of};
ghost use Rattle.fidl_names.specs.TakenNames.{HaveSame};
ghost use Rattle.fidl_names.specs.ImportCycles.{AreNumbered, HasEdge, HasEdgeAt, IsImportAt};
ghost use Rattle.fidl_names.specs.ImportCycles.{ImportsBack, IsTrueOfImportCycle};

use fidl_cycles::{CycleEdge, add_edge, find_cycle, no_edges};
use fidl_named::{FileSet, NameFault, Place, path_span, path_text};
use fidl_span::Span;
use fidl_tree::{File, Path};
use indexmap::IndexMap;
use std::alloc::{AllocError, Global};

/// The number of the library that a path names.
fn library_number(
    alloc: Global,
    libraries: &IndexMap<Vec<u8>, usize>,
    file: &File<'_>,
    path: &Path,
) -> Result<usize, AllocError>
    requires { IsOneOf (names_of (seen libraries.now.entries))
        (path_text file.now.src.now path.now) }
    ensures { IfOk result (λ number. IsEntry (seen libraries.now.entries)
        (path_text file.now.src.now path.now) number) }
{
    let name = path_text(alloc, file, path)?;
    match libraries.get(&name) {
        Some(number) => Ok(*number),
        None => unreachable!(),
    }
}

/// Adds an edge for each import of a file.
fn add_imports(
    graph: &mut [Vec<usize>],
    alloc: Global,
    libraries: &IndexMap<Vec<u8>, usize>,
    file: &File<'_>,
) -> Result<(), AllocError>
    requires own { IsOneOf (names_of (seen libraries.now.entries)) (library_of file.now) }
    requires known { ImportsAreKnown (names_of (seen libraries.now.entries)) file.now }
    requires numbered { AreNumbered (seen libraries.now.entries) }
    requires long { length graph.old ≡ length libraries.now.entries }
    ensures { OnOk result ((one other : ℕ) → IsEdge (points_of graph.new) one other
        ↔ (IsEdge (points_of graph.old) one other ⊎ HasEdge
        (seen libraries.now.entries) file.now file.now.imports.items one other)) }
{
    let from = library_number(alloc, libraries, file, &file.library.path)?;
    for import in &file.imports {
        let to = library_number(alloc, libraries, file, &import.path)?;
        add_edge(graph, from, to)?;
    }
    Ok(())
}

/// The libraries of a set as points, each with edges to those that it imports.
fn import_graph(
    set: &FileSet<'_, '_>,
    libraries: &IndexMap<Vec<u8>, usize>,
) -> Result<Vec<Vec<usize>>, AllocError>
    requires same { HaveSame (names_of (seen libraries.now.entries)) (libraries_of set.now) }
    requires numbered { AreNumbered (seen libraries.now.entries) }
    requires known { AllByRecursion (ImportsAreKnown (libraries_of set.now)) set.now }
    ensures long { IfOk result (λ graph. length graph.items ≡ length libraries.now.entries) }
    ensures edges { IfOk result (λ graph. (one other : ℕ) → IsEdge (points_of graph.items) one other
        ↔ Any (λ f. HasEdge (seen libraries.now.entries) f f.imports.items one other) set.now) }
{
    let alloc = set.alloc();
    let mut graph = no_edges(alloc, libraries.len())?;
    for file_index in 0..set.count() {
        add_imports(&mut graph, alloc, libraries, set.file(file_index))?;
    }
    Ok(graph)
}

/// The first import of a file that makes an edge.
fn find_import(
    alloc: Global,
    libraries: &IndexMap<Vec<u8>, usize>,
    file: &File<'_>,
    edge: CycleEdge,
) -> Result<Option<Span>, AllocError>
    requires own { IsOneOf (names_of (seen libraries.now.entries)) (library_of file.now) }
    requires known { ImportsAreKnown (names_of (seen libraries.now.entries)) file.now }
    requires names { AreDistinct (names_of (seen libraries.now.entries)) }
    ensures found { IfOk result (λ found. IfSome found
        (HasEdgeAt (seen libraries.now.entries) file.now edge.from edge.to)) }
    ensures none { IfOk result (λ found. IsNone found
        → HasEdge (seen libraries.now.entries) file.now file.now.imports.items edge.from edge.to
        → ⊥) }
{
    if library_number(alloc, libraries, file, &file.library.path)? != edge.from {
        return Ok(None);
    }
    for import in &file.imports {
        if library_number(alloc, libraries, file, &import.path)? == edge.to {
            return Ok(Some(path_span(&import.path)));
        }
    }
    Ok(None)
}

/// The place of the first import that makes an edge.
fn find_place(
    set: &FileSet<'_, '_>,
    libraries: &IndexMap<Vec<u8>, usize>,
    edge: CycleEdge,
) -> Result<Place, AllocError>
    requires same { HaveSame (names_of (seen libraries.now.entries)) (libraries_of set.now) }
    requires names { AreDistinct (names_of (seen libraries.now.entries)) }
    requires known { AllByRecursion (ImportsAreKnown (libraries_of set.now)) set.now }
    requires there { Any (λ f. HasEdge (seen libraries.now.entries) f f.imports.items edge.from
        edge.to) set.now }
    ensures { IfOk result (IsImportAt (seen libraries.now.entries) set.now edge.from edge.to) }
{
    for file_index in 0..set.count() {
        if let Some(span) = find_import(set.alloc(), libraries, set.file(file_index), edge)? {
            return Ok(Place {
                file: file_index,
                span,
            });
        }
    }
    unreachable!()
}

/// No library's imports lead back to it.
pub(crate) fn check_import_cycles(
    set: &FileSet<'_, '_>,
    libraries: &IndexMap<Vec<u8>, usize>,
) -> Result<(), NameFault>
    requires same { HaveSame (names_of (seen libraries.now.entries)) (libraries_of set.now) }
    requires numbered { AreNumbered (seen libraries.now.entries) }
    requires known { AllByRecursion (ImportsAreKnown (libraries_of set.now)) set.now }
    ensures none { OnOk result ((place : Place) → ImportsBack set.now place → ⊥) }
    ensures fault_is_true { IfErr result (IsTrueOfImportCycle set.now) }
{
    let graph = import_graph(set, libraries)?;
    match find_cycle(&graph, set.alloc())? {
        Ok(_order) => Ok(()),
        Err(edge) => {
            let place = find_place(set, libraries, edge)?;
            Err(NameFault::ImportCycle { place })
        }
    }
}
