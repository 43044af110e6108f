//! Lists of types, each of which stands in them once.
ghost use Rattle.std.specs.Prelude.{◌≡◌, [], ◌∷◌, length, slice_get, IfErr, IfOk, IfSome, IsNone};
ghost use Rattle.std.specs.Prelude.{OnOk, Some};
ghost use Rattle.std.specs.Option.{option_map};
ghost use Rattle.std.specs.List.{Contains};
ghost use Rattle.fidl_ir.specs.Terms.{fields_view, rows_view, term_view};
ghost use Rattle.fidl_ir.specs.Members.{field_types, row_types};
ghost use Rattle.fidl_reachable_types.specs.Growing.{reference_view, types_of, IsKept, GrowsBy, IsFullBy};

use crate::fault::EntryFault;
use crate::keys::words_of;
use fidl_ir::{Field, Row, Type};
use indexmap::IndexSet;
use std::alloc::{AllocError, Global};

/// A type that stands in a definition, or the definition of a number as a type.
#[derive(Clone, Copy, Drop)]
pub enum TypeRef<'d> {
    Of(&'d Type),
    Layout(u32),
}

/// A list of at most `limit` types, each of which stands in it once.
#[derive(Drop)]
pub struct TypeList<'d> {
    types: Vec<TypeRef<'d>>,
    known: IndexSet<Vec<u32>>,
    limit: usize,
}

impl<'d> TypeList<'d> {
    /// A list without types.
    pub(crate) fn new(alloc: Global, limit: usize) -> TypeList<'d>
        ensures kept { IsKept result }
        ensures empty { types_of result ≡ [] }
        ensures limit { result.limit ≡ limit }
    {
        TypeList {
            types: Vec::new(alloc),
            known: IndexSet::new(alloc),
            limit,
        }
    }

    /// How many types there are.
    pub fn count(&self) -> usize
        ensures { result ≡ length (types_of self.now) }
    {
        self.types.len()
    }

    /// The type at a place of the list, from 0 on; None past its end.
    pub fn get(&self, place: usize) -> Option<TypeRef<'d>>
        ensures { option_map reference_view result ≡ slice_get (types_of self.now) place }
    {
        self.types.get(place).copied()
    }

    /// The place of a type in the list, from 0 on; None where it isn't there.
    pub fn place(&self, alloc: Global, of: TypeRef<'_>) -> Result<Option<usize>, AllocError>
        requires kept { IsKept self.now }
        ensures found { IfOk result (λ found. IfSome found (λ place.
            slice_get (types_of self.now) place ≡ Some (reference_view of.entry))) }
        ensures none { IfOk result (λ found. IsNone found
            → Contains (types_of self.now) (reference_view of.entry) → ⊥) }
    {
        let words = words_of(alloc, of)?;
        Ok(self.known.get_index_of(&words))
    }

    /// Adds a type, if it is new.
    pub(crate) fn add(&mut self, alloc: Global, of: TypeRef<'d>) -> Result<(), EntryFault>
        requires kept { IsKept self.old }
        ensures ok { OnOk result (GrowsBy self.old self.new (reference_view of.entry ∷ [])) }
        ensures full { IfErr result (IsFullBy self.old (reference_view of.entry ∷ [])) }
    {
        let words = words_of(alloc, of)?;
        let (_place, is_new) = self.known.insert_full(words)?;
        if !is_new {
            return Ok(());
        }
        if self.types.len() >= self.limit {
            return Err(EntryFault::TooMany);
        }
        self.types.push(of)?;
        Ok(())
    }

    /// Adds the types of members of a struct.
    #[tactic(auto, using(crate::proofs::Growth::begins))]
    pub(crate) fn add_fields(
        &mut self,
        alloc: Global,
        fields: &'d [Field],
    ) -> Result<(), EntryFault>
        requires kept { IsKept self.old }
        ensures ok { OnOk result (GrowsBy self.old self.new (field_types (fields_view fields.now))) }
        ensures full { IfErr result (IsFullBy self.old (field_types (fields_view fields.now))) }
    {
        for field in fields {
            self.add(alloc, TypeRef::Of(&field.of))?;
        }
        Ok(())
    }

    /// Adds the types of members of a table or a union.
    #[tactic(auto, using(crate::proofs::Growth::begins))]
    pub(crate) fn add_rows(&mut self, alloc: Global, rows: &'d [Row]) -> Result<(), EntryFault>
        requires kept { IsKept self.old }
        ensures ok { OnOk result (GrowsBy self.old self.new (row_types (rows_view rows.now))) }
        ensures full { IfErr result (IsFullBy self.old (row_types (rows_view rows.now))) }
    {
        for row in rows {
            self.add(alloc, TypeRef::Of(&row.of))?;
        }
        Ok(())
    }
}
