//! Declarations by their numbers, in the order of the sources.
ghost use Rattle.std.specs.Prelude.{◌≡◌, ◌<◌, ◌++◌, length, IfOk, OnOk};
ghost use Rattle.fidl_names.specs.DeclarationNumbers.{AreNumbered, ids_in};
ghost use Rattle.fidl_names.specs.DeclarationNumbers.{number_of};

use fidl_named::{DeclarationId, FileSet};
use std::alloc::AllocError;

/// The ids of all declarations, and the number of each file's first.
#[derive(Drop)]
pub(crate) struct Numbers {
    pub ids: Vec<DeclarationId>,
    pub starts: Vec<usize>,
}

impl Numbers {
    /// The number of the declaration of an id.
    pub(crate) fn number(&self, id: DeclarationId) -> usize
        requires file { id.file < length self.now.starts.items }
        requires fits { number_of self.now.starts.items id < length self.now.ids.items }
        ensures { result ≡ number_of self.now.starts.items id }
    {
        self.starts[id.file] + id.index
    }
}

/// The ids of a file's declarations, after those before them.
fn push_ids(ids: &mut Vec<DeclarationId>, file: usize, count: usize) -> Result<(), AllocError>
    ensures { OnOk result (ids.new.items ≡ ids.old.items ++ ids_in file count) }
{
    for index in 0..count {
        ids.push(DeclarationId { file, index })?;
    }
    Ok(())
}

/// The numbers of a set's declarations.
pub(crate) fn number_declarations(set: &FileSet<'_, '_>) -> Result<Numbers, AllocError>
    ensures { IfOk result (λ numbers. AreNumbered set.now numbers.ids.items numbers.starts.items) }
{
    let alloc = set.alloc();
    let mut ids = Vec::new(alloc);
    let mut starts = Vec::new(alloc);
    for file_index in 0..set.count() {
        starts.push(ids.len())?;
        push_ids(
            &mut ids,
            file_index,
            set.file(file_index).declarations.len(),
        )?;
    }
    Ok(Numbers { ids, starts })
}
