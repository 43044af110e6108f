//! Leaves: values that hold no other, or numbers alone.
ghost use Rattle.std.specs.Prelude.{◌≡◌, ◌+◌, ◌-◌, ◌^◌, ◌<◌, ◌≤◌, OnOk, IfErr, IfSome};
ghost use Rattle.std.specs.Prelude.{IfNone, IsTrue, Contains, true, false, Some, None, length};
ghost use Rattle.std.specs.Int.{byte_len};
ghost use Rattle.fidl_limits.specs.declared.limits.TheConstants.{MAX_DEPTH};
ghost use Rattle.fidl_wire.specs.Term as ty;
ghost use Rattle.fidl_wire.specs.Term.{resolve, width};
ghost use Rattle.fidl_wire.specs.Typed.{InMask};
ghost use Rattle.fidl_table_format.specs.declared.kind.EntryKind.{EntryKind};
ghost use Rattle.fidl_table_format.specs.declared.kind.EntryKind.TheVariants as kinds;
ghost use Rattle.fidl_table_format.specs.Kind.{kind_of};
ghost use Rattle.fidl_table_format.specs.Number.{number_standing};
ghost use Rattle.fidl_table_format.specs.Section.{header_of, entry_at};
ghost use Rattle.fidl_table_format.specs.Entry.{subtype_is};
ghost use Rattle.fidl_table_format.specs.Uses.{is_unsigned};
ghost use Rattle.fidl_table_format.specs.Terms.{underlying, mask_of, strict_values};
ghost use Rattle.fidl_table_format.specs.Terms.{declarations_of};
ghost use Rattle.fidl_decode_model.specs.Invariants.{is_leaf, is_free_at};
ghost use Rattle.fidl_decode_model.specs.Breaks.{BreaksField, Breaks};
ghost use Rattle.fidl_decode_model.specs.Steps.{Spends};
ghost use Rattle.fidl_decode_model.specs.Machine.{StateFine, Visits, at_of, probes};
ghost use Rattle.fidl_decode_values.specs.Reading.{came, message, Holds};
ghost use Rattle.fidl_decode_values.specs.Ready.{CanReadValue};
ghost use Rattle.fidl_decode_model.specs.Frontier.{AreFree};

use crate::decoder::Decoder;
use fidl_decode_columns::is_free;
use fidl_decode_model::DecodeFault;
use fidl_decode_model::frame::State;
use fidl_table_format::{Entry, EntryKind};

/// The first number of a kind whose values can hold others. Those before it are the numbers of bools,
/// integers, bits, enums and strings.
const HOLDERS: u8 = 13;

impl<'t, 'm, 's> Decoder<'t, 'm, 's> {
    /// Whether any bytes are a value of the entry.
    pub(crate) fn is_free_at(&self, entry: u32) -> bool
        requires { entry < (header_of self.now.table.now).entries }
        ensures { result ≡ is_free_at self.now.table.now entry }
    {
        let e = self.entry(entry);
        match EntryKind::from_number(e.kind) {
            Some(kind) => is_free(&e, kind),
            None => false,
        }
    }

    /// Whether values of the entry, which is of this kind, hold no others, or numbers alone.
    #[inline(always)]
    pub fn is_leaf(&self, entry: u32, kind: EntryKind) -> bool
        requires entry { entry < (header_of self.now.table.now).entries }
        requires kind { kind_of (entry_at self.now.table.now entry).kind ≡ Some kind }
        ensures { result ≡ is_leaf self.now.table.now (entry_at self.now.table.now entry) kind }
    {
        // One comparison tells these kinds from the others.
        match kind {
            EntryKind::Vector
            | EntryKind::Array
            | EntryKind::Box
            | EntryKind::Struct
            | EntryKind::Table
            | EntryKind::Union => match kind {
                EntryKind::Vector | EntryKind::Array => self.is_free_at(self.entry(entry).first),
                _ => false,
            },
            _ => true,
        }
    }

    /// The kind of an entry, where its values are leaves.
    #[inline(always)]
    pub fn leaf_kind(&self, entry: u32) -> Option<EntryKind>
        requires entry { entry < (header_of self.now.table.now).entries }
        ensures kind { IfSome result
            (λ kind. kind_of (entry_at self.now.table.now entry).kind ≡ Some kind) }
        ensures leaf { IfSome result
            (λ kind. is_leaf self.now.table.now (entry_at self.now.table.now entry) kind ≡ true) }
        ensures none { IfNone result ((kind : EntryKind)
            → kind_of (entry_at self.now.table.now entry).kind ≡ Some kind
            → is_leaf self.now.table.now (entry_at self.now.table.now entry) kind ≡ false) }
    {
        let e = self.entry(entry);
        // One comparison of the number, so that the kind is looked up once, by what reads it. No kind
        // has the number 0.
        if e.kind != 0 && e.kind < HOLDERS {
            return EntryKind::from_number(e.kind);
        }
        let kind = EntryKind::from_number(e.kind)?;
        if self.is_leaf(entry, kind) {
            return Some(kind);
        }
        None
    }

    /// Reads bits: strict ones have no bit outside their mask.
    fn read_bits(
        &self,
        entry: &Entry,
        place: usize,
        state: &State<'_, '_>,
    ) -> Result<(), DecodeFault>
        requires holds { Holds self.now state.now }
        requires free { AreFree (at_of state.now) place
            (place + byte_len (width (underlying entry.now))) }
        requires kind { IsTrue (subtype_is is_unsigned entry.now) }
        requires room { place + byte_len (width (underlying entry.now)) ≤ length (came self.now) }
        ensures ok { OnOk result (IfSome (mask_of entry.now) (λ mask. InMask mask (number_standing
            (underlying entry.now) (came self.now) place))) }
        ensures fault_is_true { IfErr result (BreaksField (message self.now) (ty.bits
            (underlying entry.now) (mask_of entry.now)) place) }
    {
        if !entry.is_strict() {
            return Ok(());
        }
        let number = self.number_bits(entry.underlying(), place, state);
        if number | entry.bound != entry.bound {
            return Err(DecodeFault::UnknownBits { at: place });
        }
        Ok(())
    }

    /// Reads an enum: a strict one has one of its values.
    fn read_enum(
        &self,
        entry: u32,
        place: usize,
        state: &mut State<'_, '_>,
    ) -> Result<(), DecodeFault>
        requires entry { entry < (header_of self.now.table.now).entries }
        requires kind { kind_of (entry_at self.now.table.now entry).kind ≡ Some kinds.Enum }
        requires room { let d = entry_at self.now.table.now entry in
            place + byte_len (width (underlying d)) ≤ length (came self.now) }
        requires budget { state.old.steps < 2 ^ 41 }
        requires holds { Holds self.now state.old }
        requires free { let d = entry_at self.now.table.now entry in
            AreFree (at_of state.old) place (place + byte_len (width (underlying d))) }
        ensures holds { Holds self.now state.new }
        ensures ok { let t = self.now.table.now in
            let d = entry_at t entry in
            OnOk result (IfSome (strict_values t (header_of t) d)
            (λ values. Contains values (number_standing (underlying d) (came self.now) place))) }
        ensures fault_is_true { let t = self.now.table.now in
            let d = entry_at t entry in
            IfErr result (BreaksField (message self.now)
            (ty.enum (underlying d) (strict_values t (header_of t) d)) place) }
        ensures same { at_of state.new ≡ at_of state.old }
        ensures spends { Spends state.old.steps state.new.steps 0 probes }
    {
        let e = self.entry(entry);
        if !e.is_strict() {
            return Ok(());
        }
        let number = self.number_bits(e.underlying(), place, state);
        if !self.table.has_value(entry, number, &mut state.steps) {
            return Err(DecodeFault::UnknownValue { at: place });
        }
        Ok(())
    }

    /// Reads a leaf at a place: a value that holds no other, or numbers alone.
    #[inline(always)]
    pub fn read_leaf(
        &self,
        entry: u32,
        kind: EntryKind,
        place: usize,
        depth: u8,
        state: &mut State<'_, '_>,
    ) -> Result<(), DecodeFault>
        requires entry { entry < (header_of self.now.table.now).entries }
        requires kind { kind_of (entry_at self.now.table.now entry).kind ≡ Some kind }
        requires leaf { is_leaf self.now.table.now (entry_at self.now.table.now entry) kind ≡ true }
        requires room { place + (entry_at self.now.table.now entry).size ≤ length (came self.now) }
        requires holds { Holds self.now state.old }
        requires state { StateFine (message self.now) (at_of state.old) }
        requires ready { CanReadValue self.now state.old entry place }
        requires depth { depth ≤ MAX_DEPTH }
        requires budget { state.old.steps < 2 ^ 41 }
        ensures holds { Holds self.now state.new }
        ensures ok { OnOk result (Visits self.now.table.now (message self.now) depth entry place
            (at_of state.old) (at_of state.new) (state.new.steps - state.old.steps) None) }
        ensures fault_is_true { IfErr result (Breaks (declarations_of self.now.table.now)
            (message self.now) depth (resolve (declarations_of self.now.table.now).terms
            (ty.named entry)) place (at_of state.old)) }
        ensures spends { Spends state.old.steps state.new.steps 0 (probes + (length (came self.now)
            - state.old.next)) }
    {
        match kind {
            EntryKind::Bool => {
                if self.byte_at(place, state) > 1 {
                    return Err(DecodeFault::BadBool { at: place });
                }
                Ok(())
            }
            EntryKind::Bits => self.read_bits(&self.entry(entry), place, state),
            EntryKind::Enum => self.read_enum(entry, place, state),
            EntryKind::Handle => self.read_handle(&self.entry(entry), place, depth, state),
            EntryKind::Vector => self.read_numbers(entry, place, depth, state),
            EntryKind::String => self.read_text(&self.entry(entry), place, depth, state),
            // Any bytes are a number, or an array of numbers.
            _ => Ok(()),
        }
    }
}
