//! Worked refusals: which refusals are true of a message, and which are not, computed by the
//! definitions.
ghost use Rattle.std.specs.Prelude.{pos, [], ◌∷◌, ◌++◌, Some, None, true, false, codes, replicate};
ghost use Rattle.fidl_wire.specs.declared.handle.HandleInfo.{HandleInfo};
ghost use Rattle.fidl_wire.specs.Term.{Term, no_fields, field, uint8, uint32};
ghost use Rattle.fidl_wire.specs.Term as ty;
ghost use Rattle.fidl_wire.specs.Figure.{figure, no_declarations};
ghost use Rattle.fidl_wire.specs.Encoding.{zeros};
ghost use Rattle.fidl_decode_model.specs.Faults.{IsTold};
ghost use Rattle.fidl_decode_model.specs.declared.fault.DecodeFault.TheVariants as fault;

pub mod envelopes;
pub mod frontiers;
pub mod placed;
pub mod readable;
pub mod tables;
pub mod unions;
pub mod works;

/// `struct {a uint8; b uint32;}` with two bytes between the members that are not zero: Padding at
/// the first, not at the second, nor at a byte of a member.
pub fn padding_is_reported_at_the_first_byte()
    ensures first { let t : Term =
        ty.struct
        (field (codes "a") (ty.number uint8) (field (codes "b") (ty.number uint32) no_fields)) in
        IsTold no_declarations t (1 ∷ 0 ∷ 1 ∷ 1 ∷ 2 ∷ 0 ∷ 0 ∷ 0 ∷ []) [] (fault.Padding 2) }
    ensures second { let t : Term =
        ty.struct
        (field (codes "a") (ty.number uint8) (field (codes "b") (ty.number uint32) no_fields)) in
        ¬ (IsTold no_declarations t (1 ∷ 0 ∷ 1 ∷ 1 ∷ 2 ∷ 0 ∷ 0 ∷ 0 ∷ []) [] (fault.Padding 3)) }
    ensures member { let t : Term =
        ty.struct
        (field (codes "a") (ty.number uint8) (field (codes "b") (ty.number uint32) no_fields)) in
        ¬ (IsTold no_declarations t (1 ∷ 0 ∷ 1 ∷ 1 ∷ 2 ∷ 0 ∷ 0 ∷ 0 ∷ []) [] (fault.Padding 4)) }
{}

/// `struct {v array<bool, 2>;}`: BadBool at an element over 1.
pub fn a_bool_in_an_array_that_is_2()
    ensures { let t : Term = ty.struct (field (codes "v") (ty.array ty.bool 2) no_fields) in
        IsTold no_declarations t (1 ∷ 2 ∷ zeros 6) [] (fault.BadBool 1) }
{}

/// The same bytes as `struct {v array<uint8, 2>;}`: no bool stands there.
pub fn a_number_is_no_bool()
    ensures { let t : Term = ty.struct (field (codes "v") (ty.array (ty.number uint8) 2) no_fields)
        in
        ¬ (IsTold no_declarations t (1 ∷ 2 ∷ zeros 6) [] (fault.BadBool 1)) }
{}

/// `struct {a uint8;}`: Padding behind the primary object.
pub fn padding_behind_the_primary_object()
    ensures { let t : Term = ty.struct (field (codes "a") (ty.number uint8) no_fields) in
        IsTold no_declarations t (1 ∷ 0 ∷ 3 ∷ zeros 5) [] (fault.Padding 2) }
{}

/// `struct {e E;}`, `E = strict enum {A = 1; B = 2;}`: UnknownValue for 3, not for 2, and for no
/// number of a flexible enum.
pub fn a_number_that_is_no_value()
    ensures strict { let t : Term =
        ty.struct (field (codes "e") (ty.enum uint32 (Some (pos 1 ∷ pos 2 ∷ []))) no_fields) in
        IsTold no_declarations t (3 ∷ zeros 7) [] (fault.UnknownValue 0) }
    ensures value { let t : Term =
        ty.struct (field (codes "e") (ty.enum uint32 (Some (pos 1 ∷ pos 2 ∷ []))) no_fields) in
        ¬ (IsTold no_declarations t (2 ∷ zeros 7) [] (fault.UnknownValue 0)) }
    ensures flexible { let t : Term = ty.struct (field (codes "e") (ty.enum uint32 None) no_fields)
        in
        ¬ (IsTold no_declarations t (3 ∷ zeros 7) [] (fault.UnknownValue 0)) }
{}

/// `struct {b B;}`, `B = strict bits {A = 1; C = 4;}`: UnknownBits for 2, not for 5.
pub fn a_bit_that_is_no_member()
    ensures unknown { let t : Term =
        ty.struct (field (codes "b") (ty.bits uint32 (Some 5)) no_fields) in
        IsTold no_declarations t (2 ∷ zeros 7) [] (fault.UnknownBits 0) }
    ensures known { let t : Term = ty.struct (field (codes "b") (ty.bits uint32 (Some 5)) no_fields)
        in
        ¬ (IsTold no_declarations t (5 ∷ zeros 7) [] (fault.UnknownBits 0)) }
{}

/// `resource struct {h zx.Handle:VMO;}`, a VMO being type 3: HandleMissing without a record, not
/// with one.
pub fn a_handle_without_a_record()
    ensures missing { let t : Term = ty.struct (field (codes "h") (ty.handle false 3 0) no_fields)
        in
        IsTold no_declarations t (replicate 4 255 ++ zeros 4) [] (fault.HandleMissing 0) }
    ensures there { let t : Term = ty.struct (field (codes "h") (ty.handle false 3 0) no_fields) in
        let h : HandleInfo = record { id = 1; object_type = 3; rights = 0 } in
        ¬ (IsTold no_declarations t (replicate 4 255 ++ zeros 4) (h ∷ []) (fault.HandleMissing 0)) }
{}

/// WrongHandle for a record of type 4, where a VMO is wanted, and not where any object is.
pub fn a_handle_of_another_type()
    ensures wrong { let t : Term = ty.struct (field (codes "h") (ty.handle false 3 0) no_fields) in
        let h : HandleInfo = record { id = 1; object_type = 4; rights = 0 } in
        IsTold no_declarations t (replicate 4 255 ++ zeros 4) (h ∷ []) (fault.WrongHandle 0) }
    ensures any { let t : Term = ty.struct (field (codes "h") (ty.handle false 0 0) no_fields) in
        let h : HandleInfo = record { id = 1; object_type = 4; rights = 0 } in
        ¬ (IsTold no_declarations t (replicate 4 255 ++ zeros 4) (h ∷ []) (fault.WrongHandle 0)) }
{}

/// AbsentRequired for zeros, where the handle is not optional; BadMarker for four bytes that are
/// neither zeros nor ones.
pub fn a_handle_that_is_absent()
    ensures required { let t : Term = ty.struct (field (codes "h") (ty.handle false 3 0) no_fields)
        in
        IsTold no_declarations t (zeros 8) [] (fault.AbsentRequired 0) }
    ensures optional { let t : Term = ty.struct (field (codes "h") (ty.handle true 3 0) no_fields)
        in
        ¬ (IsTold no_declarations t (zeros 8) [] (fault.AbsentRequired 0)) }
    ensures neither { let t : Term = ty.struct (field (codes "h") (ty.handle false 3 0) no_fields)
        in
        IsTold no_declarations t (1 ∷ zeros 7) [] (fault.BadMarker 0) }
{}

/// `struct {value string:2;}`: OverBound for "abc", and not where the bound is 3.
pub fn a_text_over_its_bound()
    ensures over { let t : Term = ty.struct (field (codes "value") (ty.string false 2) no_fields) in
        IsTold no_declarations t (3 ∷ zeros 7 ++ replicate 8 255 ++ 97 ∷ 98 ∷ 99 ∷ zeros 5) [] (fault.OverBound 0) }
    ensures within { let t : Term = ty.struct (field (codes "value") (ty.string false 3) no_fields)
        in
        ¬ (IsTold no_declarations t (3 ∷ zeros 7 ++ replicate 8 255 ++ 97 ∷ 98 ∷ 99 ∷ zeros 5) [] (fault.OverBound 0)) }
{}

/// An optional string: BadCount where it is absent with a count of 1, BadMarker where its marker
/// says neither.
pub fn an_absent_text_with_a_count()
    ensures count { let t : Term = ty.struct (field (codes "value") (ty.string true 9) no_fields) in
        IsTold no_declarations t (1 ∷ zeros 15) [] (fault.BadCount 0) }
    ensures marker { let t : Term = ty.struct (field (codes "value") (ty.string true 9) no_fields)
        in
        IsTold no_declarations t (zeros 8 ++ 1 ∷ zeros 7) [] (fault.BadMarker 8) }
{}

/// `struct {b box<P>;}`, `P = struct {v uint32;}`: Truncated at the place of the box's content,
/// where eight bytes of it are wanted.
pub fn a_box_that_is_cut_off()
    ensures cut { let p : Term = ty.struct (field (codes "v") (ty.number uint32) no_fields) in
        let t : Term = ty.struct (field (codes "b") (ty.box p) no_fields) in
        IsTold no_declarations t (replicate 8 255 ++ zeros 4) [] (fault.Truncated 8) }
    ensures padded { let p : Term = ty.struct (field (codes "v") (ty.number uint32) no_fields) in
        let t : Term = ty.struct (field (codes "b") (ty.box p) no_fields) in
        ¬ (IsTold no_declarations t (replicate 8 255 ++ zeros 8) [] (fault.Truncated 8)) }
{}

/// `struct {b box<P>;}`, `P = struct {v bool;}`: BadBool in the box, and Padding behind its
/// content.
pub fn a_bool_in_a_box()
    ensures two { let p : Term = ty.struct (field (codes "v") ty.bool no_fields) in
        let t : Term = ty.struct (field (codes "b") (ty.box p) no_fields) in
        IsTold no_declarations t (replicate 8 255 ++ 2 ∷ zeros 7) [] (fault.BadBool 8) }
    ensures one { let p : Term = ty.struct (field (codes "v") ty.bool no_fields) in
        let t : Term = ty.struct (field (codes "b") (ty.box p) no_fields) in
        ¬ (IsTold no_declarations t (replicate 8 255 ++ 1 ∷ zeros 7) [] (fault.BadBool 8)) }
    ensures behind { let p : Term = ty.struct (field (codes "v") ty.bool no_fields) in
        let t : Term = ty.struct (field (codes "b") (ty.box p) no_fields) in
        IsTold no_declarations t (replicate 8 255 ++ 1 ∷ 0 ∷ 3 ∷ zeros 5) [] (fault.Padding 10) }
{}

/// `S = struct {next box<S>;}`, with 33 boxes in one another: TooDeep at the last, of 264 bytes
/// that are all 255.
pub fn a_box_that_lies_too_deep()
    ensures { let s : Term = ty.struct (field (codes "next") (ty.box (ty.named 0)) no_fields) in
        IsTold (record { terms = s ∷ []; figures = figure 8 8 1 ∷ [] }) (ty.named 0) (replicate 264 255) [] (fault.TooDeep 256) }
{}

/// `struct {v vector<uint8>:2;}`: OverBound for three elements, and not where the bound is 3.
pub fn a_vector_over_its_bound()
    ensures over { let t : Term =
        ty.struct (field (codes "v") (ty.vector false 2 (ty.number uint8)) no_fields) in
        IsTold no_declarations t (3 ∷ zeros 7 ++ replicate 8 255 ++ 1 ∷ 2 ∷ 3 ∷ zeros 5) [] (fault.OverBound 0) }
    ensures within { let t : Term =
        ty.struct (field (codes "v") (ty.vector false 3 (ty.number uint8)) no_fields) in
        ¬ (IsTold no_declarations t (3 ∷ zeros 7 ++ replicate 8 255 ++ 1 ∷ 2 ∷ 3 ∷ zeros 5) [] (fault.OverBound 0)) }
{}

/// `struct {v vector<uint32>:9;}`: BadCount for three elements in eight bytes, and not for two.
pub fn a_count_that_does_not_fit()
    ensures three { let t : Term =
        ty.struct (field (codes "v") (ty.vector false 9 (ty.number uint32)) no_fields) in
        IsTold no_declarations t (3 ∷ zeros 7 ++ replicate 8 255 ++ zeros 8) [] (fault.BadCount 0) }
    ensures two { let t : Term =
        ty.struct (field (codes "v") (ty.vector false 9 (ty.number uint32)) no_fields) in
        ¬ (IsTold no_declarations t (2 ∷ zeros 7 ++ replicate 8 255 ++ zeros 8) [] (fault.BadCount 0)) }
{}

/// `struct {v vector<bool>:9;}` with two elements: BadBool at the second, which is 2, and not at
/// the first.
pub fn a_bool_in_a_vector()
    ensures second { let t : Term =
        ty.struct (field (codes "v") (ty.vector false 9 ty.bool) no_fields) in
        IsTold no_declarations t (2 ∷ zeros 7 ++ replicate 8 255 ++ 1 ∷ 2 ∷ zeros 6) [] (fault.BadBool 17) }
    ensures first { let t : Term =
        ty.struct (field (codes "v") (ty.vector false 9 ty.bool) no_fields) in
        ¬ (IsTold no_declarations t (2 ∷ zeros 7 ++ replicate 8 255 ++ 1 ∷ 2 ∷ zeros 6) [] (fault.BadBool 16)) }
{}
