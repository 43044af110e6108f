//! Declarations and members by their numbers, in the order of the sources.
ghost use Rattle.std.specs.Prelude.{◌≡◌, ◌++◌, length, Some, IfOk, OnOk};
ghost use Rattle.fidl_named.specs.declared.place.Place.{Place as Spot};
ghost use Rattle.fidl_tree.specs.declared.file.File.{File as Tree};
ghost use Rattle.fidl_consts.specs.Dependencies.{IsNode};
ghost use Rattle.fidl_const.specs.Columns.{AreNumbered, member_list, nodes_of, nodes_in, starts_in};

use fidl_consts::found::{declaration_at, declared_values, member_at};
use fidl_named::{DeclarationId, Meaning, Named, Place, name_span};
use fidl_tree::{Declaration, DeclarationBody};
use std::alloc::{AllocError, Global};

/// All declarations and members, and the number of each declaration by files.
#[derive(Drop)]
pub(crate) struct Numbers {
    pub nodes: Vec<Meaning>,
    pub starts: Vec<Vec<usize>>,
}

/// The place of the name of a declaration or a member.
pub(crate) fn node_place(named: &Named<'_, '_>, meaning: Meaning) -> Option<Place>
    ensures { (f : Tree) (place : Spot) → IsNode named.now meaning f place → result ≡ Some place }
{
    match meaning {
        Meaning::Declared(id) => {
            let found = declaration_at(named, id)?;
            Some(Place {
                file: id.file,
                span: name_span(&found.declaration.body),
            })
        }
        Meaning::Member { of, number } => {
            let found = member_at(named, of, number)?;
            Some(Place {
                file: of.file,
                span: found.member.name,
            })
        }
        Meaning::Predeclared(_) | Meaning::PropertyMember { .. } => None,
    }
}

/// How many members the bits or the enum has that a declaration is written as.
fn member_count(body: &DeclarationBody) -> usize
    ensures { result ≡ length (member_list body.now) }
{
    match declared_values(body) {
        None => 0,
        Some(layout) => layout.members.len(),
    }
}

/// Appends the declaration of an id and its members.
fn push_declaration(
    nodes: &mut Vec<Meaning>,
    of: DeclarationId,
    count: usize,
) -> Result<(), AllocError>
    ensures { OnOk result (nodes.new.items ≡ nodes.old.items ++ nodes_of of count) }
{
    nodes.push(Meaning::Declared(of))?;
    for number in 0..count {
        nodes.push(Meaning::Member { of, number })?;
    }
    Ok(())
}

/// Appends the declarations and members of a file, and gives the numbers of its declarations.
fn push_file(
    nodes: &mut Vec<Meaning>,
    alloc: Global,
    file_index: usize,
    declarations: &[Declaration],
) -> Result<Vec<usize>, AllocError>
    ensures nodes { OnOk result (nodes.new.items ≡ nodes.old.items ++ nodes_in file_index 0
        declarations.now) }
    ensures starts { IfOk result (λ starts. starts.items ≡ starts_in (length nodes.old.items)
        declarations.now) }
{
    let mut starts = Vec::new(alloc);
    for (index, declaration) in declarations.iter().enumerate() {
        starts.push(nodes.len())?;
        let id = DeclarationId {
            file: file_index,
            index,
        };
        push_declaration(nodes, id, member_count(&declaration.body))?;
    }
    Ok(starts)
}

/// The numbers of all declarations and members.
pub(crate) fn number_nodes(named: &Named<'_, '_>, alloc: Global) -> Result<Numbers, AllocError>
    ensures { IfOk result (λ numbers. AreNumbered named.now numbers.nodes.items
        numbers.starts.items) }
{
    let mut nodes = Vec::new(alloc);
    let mut starts = Vec::new(alloc);
    for file_index in 0..named.count() {
        let row = push_file(
            &mut nodes,
            alloc,
            file_index,
            &named.file(file_index).declarations,
        )?;
        starts.push(row)?;
    }
    Ok(Numbers { nodes, starts })
}
