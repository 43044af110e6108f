//! The handles that come with a message.
ghost use Rattle.std.specs.Prelude.{◌≡◌, ◌↔◌, [], ◌∷◌, ◌++◌, length, IfOk, OnErr, IsTrue};
ghost use Rattle.std.specs.Slice.Iter.{iter_rest};

use std::alloc::{AllocError, Global};
use std::marker::Model;
use std::slice::Iter;

/// A handle that comes with a message: a record that stands for the kernel's object.
#[derive(Clone, Copy, PartialEq, Eq, Debug, Drop)]
pub struct HandleInfo {
    /// The handle's number.
    pub id: u32,
    /// The type of its object (`zx_obj_type_t`).
    pub object_type: u32,
    /// Its rights (`zx_rights_t`).
    pub rights: u32,
}

/// A list of handles.
#[derive(Debug, Drop)]
pub struct Handles {
    items: Vec<HandleInfo>,
}

impl Model for Handles {
    ghost use Rattle.std.specs.Prelude.{List};
    ghost use Rattle.fidl_wire.specs.declared.handle.HandleInfo.{HandleInfo};

    ghost Value = { List HandleInfo };

    ghost view = { λ a. a.items.items };
}

impl Handles {
    /// An empty list of handles. It allocates nothing.
    pub fn new(alloc: Global) -> Handles
        ensures { result ≡ [] }
    {
        Handles {
            items: Vec::new(alloc),
        }
    }

    /// The list of the handles in a `Vec`, which it takes over.
    pub fn from_vec(items: Vec<HandleInfo>) -> Handles
        ensures { result ≡ items.items }
    {
        Handles { items }
    }

    /// Returns the `Vec` of the handles.
    pub fn into_vec(self) -> Vec<HandleInfo>
        ensures { result.items ≡ self }
    {
        let Handles { items } = self;
        items
    }

    /// Adds a handle at the end. An error means that memory ran out; the handles are then
    /// unchanged.
    pub fn push(&mut self, handle: HandleInfo) -> Result<(), AllocError>
        ensures ok { IfOk result (λ _. self.new ≡ self.old ++ handle ∷ []) }
        ensures err { OnErr result (self.new ≡ self.old) }
    {
        self.items.push(handle)?;
        Ok(())
    }

    /// The number of handles.
    pub fn len(&self) -> usize
        ensures { result ≡ length self.now }
    {
        self.items.len()
    }

    /// Whether the list is empty.
    pub fn is_empty(&self) -> bool
        ensures { IsTrue result ↔ (self.now ≡ []) }
    {
        self.items.is_empty()
    }

    /// The handles, in order.
    pub fn as_slice(&self) -> &[HandleInfo]
        ensures { result.now ≡ self.now }
    {
        &self.items
    }

    /// An iterator over the handles.
    pub fn iter(&self) -> Iter<'_, HandleInfo>
        ensures { iter_rest result ≡ self.now }
    {
        self.items.iter()
    }
}
