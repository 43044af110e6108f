//! What a view answers of arrays and vectors, and the lengths of what has one.
ghost use Rattle.std.specs.Prelude.{◌≡◌, Some, None, IfSome, MatchOption};
ghost use Rattle.fidl_wire.specs.Value.{Value};
ghost use Rattle.fidl_table_format.specs.declared.kind.EntryKind.TheVariants as EntryKind;
ghost use Rattle.fidl_table_format.specs.Section.{entry_at};
ghost use Rattle.fidl_table_format.specs.Entry.{IsOf};
ghost use Rattle.fidl_view.specs.Parts.{length_of, element_of, elements_of, IsNoList};
ghost use Rattle.fidl_view.specs.Elements.{ShowEach};
ghost use Rattle.fidl_view.specs.Views.{part_of, parts_left, message_left, IsShownBy, IsRunOf};
ghost use Rattle.fidl_view.specs.Views.{ShowsListOf, type_shown, element_type, AreOfElements};

use crate::elements::Elements;
use crate::view::View;
use fidl_table_format::EntryKind;

impl<'v, 'm> View<'v, 'm> {
    /// The elements of an array.
    #[inline(always)]
    fn array_elements(self) -> Elements<'v, 'm>
        requires { IsOf EntryKind.Array (entry_at self.decoded.now.table self.index) }
        ensures run { IsRunOf self.entry result }
        ensures parts { (v : Value) → IsShownBy self.entry v → ShowsListOf v result }
    {
        let array = self.decoded.table().entry(self.index);
        let element = self.decoded.table().entry(array.first);
        Elements {
            decoded: self.decoded,
            index: array.first,
            size: element.size as usize,
            place: self.place,
            left: array.count as usize,
        }
    }

    /// The elements of a vector, none where it is absent.
    #[inline(always)]
    fn vector_elements(self) -> Option<Elements<'v, 'm>>
        requires { IsOf EntryKind.Vector (entry_at self.decoded.now.table self.index) }
        ensures run { IfSome result (IsRunOf self.entry) }
        ensures parts { (v : Value) → IsShownBy self.entry v
            → MatchOption result (IsNoList v) (ShowsListOf v) }
    {
        let vector = self.decoded.table().entry(self.index);
        let element = self.decoded.table().entry(vector.first);
        let links = self.decoded.links();
        if links.is_blank(self.place + 8) {
            return None;
        }
        let count = links.u64_at(self.place) as usize;
        // No element stands in the object of an empty vector.
        if count == 0 {
            return Some(Elements {
                decoded: self.decoded,
                index: vector.first,
                size: element.size as usize,
                place: self.place,
                left: 0,
            });
        }
        Some(Elements {
            decoded: self.decoded,
            index: vector.first,
            size: element.size as usize,
            place: links.object_of_marker(self.place + 8),
            left: count,
        })
    }

    /// The elements of an array or a vector; none where it is absent, and of another kind.
    #[inline(always)]
    pub(crate) fn list(self) -> Option<Elements<'v, 'm>>
        ensures run { IfSome result (IsRunOf self.entry) }
        ensures parts { (v : Value) → IsShownBy self.entry v
            → MatchOption result (IsNoList v) (ShowsListOf v) }
    {
        match self.kind() {
            EntryKind::Array => Some(self.array_elements()),
            EntryKind::Vector => self.vector_elements(),
            _ => None,
        }
    }

    /// How many elements an array or a vector has, how many bytes a string, and how many envelopes
    /// a table; none of an absent one, and of another kind.
    pub fn len(self) -> Option<usize>
        ensures { (v : Value) → IsShownBy self.entry v → result ≡ length_of v }
    {
        if let Some(elements) = self.list() {
            return Some(elements.left);
        }
        if let Some(text) = self.as_str() {
            return Some(text.len());
        }
        match self.kind() {
            EntryKind::Table => Some(self.decoded.links().u64_at(self.place) as usize),
            _ => None,
        }
    }

    /// The element of an array or a vector at this place, counted from 0; none past the last, of an
    /// absent one, and of another kind.
    #[inline(always)]
    pub fn element(self, at: usize) -> Option<View<'v, 'm>>
        ensures message { IfSome result (λ part. (part_of part).message
            ≡ (part_of self.entry).message) }
        ensures typed { IfSome result (λ part. type_shown part ≡ element_type self.entry) }
        ensures part { (v : Value) → IsShownBy self.entry v
            → MatchOption result (element_of v at ≡ None)
            (λ part. (x : Value) × (element_of v at ≡ Some x) × IsShownBy part x) }
    {
        let Some(elements) = self.list() else {
            return None;
        };
        if at >= elements.left {
            return None;
        }
        Some(elements.at(at))
    }

    /// The elements of an array or a vector in their order; of an absent one and of another kind
    /// there are none.
    #[inline(always)]
    pub fn elements(self) -> Elements<'v, 'm>
        ensures message { message_left result ≡ (part_of self.entry).message }
        ensures typed { AreOfElements self.entry result }
        ensures parts { (v : Value) → IsShownBy self.entry v
            → ShowEach (parts_left result) (elements_of v) }
    {
        if let Some(elements) = self.list() {
            return elements;
        }
        let entry = self.decoded.table().entry(self.index);
        Elements {
            decoded: self.decoded,
            index: self.index,
            size: entry.size as usize,
            place: self.place,
            left: 0,
        }
    }
}
