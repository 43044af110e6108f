//! Worked facts: what keeps the rules of definitions, and what does not.
ghost use Rattle.std.specs.Prelude.{◌≡◌, ◌≢◌, ℕ, [], ◌∷◌, codes, true, false, Some, None};
ghost use Rattle.fidl_wire.specs.Term.{no_fields, field, no_rows, row};
ghost use Rattle.fidl_wire.specs.Term as ty;
ghost use Rattle.fidl_ir_rules.specs.declared.mark.Mark.TheVariants.{Resource, Value, Result};
ghost use Rattle.fidl_ir_rules.specs.Resources.{bears, is_resource, AllResourcesMarked};
ghost use Rattle.fidl_ir_rules.specs.Resources.{HoldsResource};
ghost use Rattle.fidl_ir_rules.specs.Inline.{inline_names, StandsInItself, IsFirstInItself};
ghost use Rattle.fidl_ir_rules.specs.Samples.{a_handle, holding, holding_two};

/// Handles and resources are held through vectors, arrays and boxes.
pub fn what_types_hold()
    ensures handle { bears (λ i. false) a_handle ≡ true }
    ensures in_a_vector { bears (λ i. false) (ty.vector false 2 (ty.array a_handle 3)) ≡ true }
    ensures in_a_box { bears (λ i. true) (ty.box (ty.named 1)) ≡ true }
    ensures named { bears (λ i. true) (ty.named 1) ≡ true }
    ensures another { bears (λ i. false) (ty.named 1) ≡ false }
    ensures number { bears (λ i. true) (ty.number ty.uint8) ≡ false }
    ensures string { bears (λ i. true) (ty.string true 2) ≡ false }
{}

/// What is marked is a resource, what isn't is none, and a result is one where a member needs it.
pub fn which_are_resources()
    ensures marked { is_resource (holding ty.bool ∷ []) (Resource ∷ []) 0 ≡ true }
    ensures unmarked { is_resource (holding a_handle ∷ []) (Value ∷ []) 0 ≡ false }
    ensures result { is_resource (holding a_handle ∷ []) (Result ∷ []) 0 ≡ true }
    ensures plain_result { is_resource (holding ty.bool ∷ []) (Result ∷ []) 0 ≡ false }
    ensures result_of_marked { is_resource (holding (ty.named 1) ∷ holding ty.bool ∷ [])
        (Result ∷ Resource ∷ []) 0 ≡ true }
    ensures without_a_mark { is_resource (holding ty.bool ∷ []) [] 0 ≡ false }
{}

/// A struct that holds a handle is marked; so is one that holds a resource.
pub fn resources_are_marked()
    ensures kept { AllResourcesMarked (holding a_handle ∷ []) (Resource ∷ []) }
    ensures without { AllResourcesMarked (holding ty.bool ∷ []) (Value ∷ []) }
    ensures of_a_result { AllResourcesMarked (holding a_handle ∷ []) (Result ∷ []) }
    ensures broken { HoldsResource (holding_two ty.bool a_handle ∷ []) (Value ∷ [])
        (is_resource (holding_two ty.bool a_handle ∷ []) (Value ∷ [])) 0 1 }
    ensures other_member { ¬ (HoldsResource (holding_two ty.bool a_handle ∷ []) (Value ∷ [])
        (is_resource (holding_two ty.bool a_handle ∷ []) (Value ∷ [])) 0 0) }
    ensures by_a_name { HoldsResource (holding (ty.named 1) ∷ holding ty.bool ∷ [])
        (Value ∷ Resource ∷ [])
        (is_resource (holding (ty.named 1) ∷ holding ty.bool ∷ []) (Value ∷ Resource ∷ [])) 0 0 }
    ensures of_marked { ¬ (HoldsResource (holding a_handle ∷ []) (Resource ∷ [])
        (is_resource (holding a_handle ∷ []) (Resource ∷ [])) 0 0) }
{}

/// Members and arrays stand inline; what is in a box, a vector, a table or a union does not.
pub fn what_stands_inline()
    ensures member { inline_names (holding_two (ty.named 3) (ty.named 1)) ≡ 3 ∷ 1 ∷ [] }
    ensures of_arrays { inline_names (holding (ty.array (ty.array (ty.named 3) 2) 2)) ≡ 3 ∷ [] }
    ensures in_a_box { inline_names (holding (ty.box (ty.named 3))) ≡ [] }
    ensures in_a_vector { inline_names (holding (ty.vector false 2 (ty.named 3))) ≡ [] }
    ensures in_a_table { inline_names (ty.table (row 1 (codes "a") (ty.named 3) no_rows)) ≡ [] }
    ensures in_a_union { inline_names (ty.union false true (row 1 (codes "a") (ty.named 3) no_rows))
        ≡ [] }
{}

/// `struct S {s S;}` stands in itself, and so do two structs that hold each other; with a box, none
/// does.
pub fn structs_in_themselves()
    ensures at_once { StandsInItself (holding (ty.named 0) ∷ []) 0 }
    ensures over_another { StandsInItself (holding (ty.named 1) ∷ holding (ty.named 0) ∷ []) 0 }
    ensures through_an_array { StandsInItself (holding (ty.array (ty.named 0) 2) ∷ []) 0 }
    ensures through_a_box { ¬ (StandsInItself (holding (ty.box (ty.named 0)) ∷ []) 0) }
    ensures of_another { ¬ (StandsInItself (holding (ty.named 1) ∷ holding (ty.named 1) ∷ []) 0) }
{}

/// Of two structs that hold each other the first is reported, and not the second.
pub fn the_first_in_itself()
    ensures alone { IsFirstInItself (holding (ty.named 0) ∷ []) 0 }
    ensures first { IsFirstInItself (holding (ty.named 1) ∷ holding (ty.named 0) ∷ []) 0 }
    ensures second { ¬ (IsFirstInItself (holding (ty.named 1) ∷ holding (ty.named 0) ∷ []) 1) }
    ensures behind_another { IsFirstInItself (holding (ty.named 1) ∷ holding (ty.named 1) ∷ []) 1 }
{}
