//! The protocols of files by their numbers, in the order of the sources.
ghost use Rattle.std.specs.Prelude.{◌≡◌, ◌<◌, ◌+◌, ◌↔◌, length, Some, slice_get, IsTrue, IfOk};
ghost use Rattle.std.specs.Prelude.{OnOk};
ghost use Rattle.fidl_tree.specs.Views.{declared_view};
ghost use Rattle.fidl_cycles.specs.Cycles.{points_of};
ghost use Rattle.fidl_composition.specs.Tables.{IsProtocolBody, AddsIfProtocol, AreProtocolsTo};
ghost use Rattle.fidl_composition.specs.Tables.{Keeps, IsRow, HasNumber, AreNumbered, at};

use fidl_named::{DeclarationId, Named};
use fidl_tree::{Declaration, DeclarationBody};
use std::alloc::{AllocError, Global};

/// The ids of all protocols, and for each declaration, by its file and its number there, how many
/// protocols stand before it: a protocol's own number.
#[derive(Drop)]
pub(crate) struct Numbers {
    pub ids: Vec<DeclarationId>,
    pub rows: Vec<Vec<usize>>,
}

impl Numbers {
    /// The number of the protocol of an id.
    pub(crate) fn number(&self, id: DeclarationId) -> usize
        requires { HasNumber (points_of self.now.rows.items) self.now.ids.items id }
        ensures { slice_get self.now.ids.items result ≡ Some id }
    {
        self.rows[id.file][id.index]
    }
}

/// Whether a protocol is declared.
fn is_protocol(declaration: &Declaration) -> bool
    ensures { IsTrue result ↔ IsProtocolBody (declared_view declaration.now.body) }
{
    matches!(&declaration.body, DeclarationBody::Protocol(_))
}

/// Appends the id of a declaration if it is a protocol.
fn push_protocol(
    ids: &mut Vec<DeclarationId>,
    id: DeclarationId,
    declaration: &Declaration,
) -> Result<(), AllocError>
    ensures { OnOk result (AddsIfProtocol (declared_view declaration.now.body) id ids.old.items
        ids.new.items) }
{
    if !is_protocol(declaration) {
        return Ok(());
    }
    ids.push(id)?;
    Ok(())
}

/// Appends the ids of the protocols of the file of this number, and gives for each of its
/// declarations how many protocols stand before it.
fn push_file(
    ids: &mut Vec<DeclarationId>,
    alloc: Global,
    named: &Named<'_, '_>,
    file_index: usize,
) -> Result<Vec<usize>, AllocError>
    requires within { file_index < length named.now }
    requires before { AreProtocolsTo named.now (at file_index 0) ids.old.items }
    ensures protocols { OnOk result (AreProtocolsTo named.now (at (file_index + 1) 0)
        ids.new.items) }
    ensures kept { OnOk result (Keeps ids.old.items ids.new.items) }
    ensures numbers { IfOk result (λ row. IsRow named.now file_index ids.new.items row.items) }
{
    let file = named.file(file_index);
    let mut row = Vec::new(alloc);
    for (index, declaration) in file.declarations.iter().enumerate() {
        row.push(ids.len())?;
        let id = DeclarationId {
            file: file_index,
            index,
        };
        push_protocol(ids, id, declaration)?;
    }
    Ok(row)
}

/// The protocols of all files, with their numbers.
pub(crate) fn number_protocols(alloc: Global, named: &Named<'_, '_>) -> Result<Numbers, AllocError>
    ensures { IfOk result (λ numbers. AreNumbered named.now numbers.ids.items
        (points_of numbers.rows.items)) }
{
    let mut ids = Vec::new(alloc);
    let mut rows = Vec::new(alloc);
    for file_index in 0..named.count() {
        let row = push_file(&mut ids, alloc, named, file_index)?;
        rows.push(row)?;
    }
    Ok(Numbers { ids, rows })
}
