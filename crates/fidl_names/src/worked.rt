//! Worked facts: what the definitions give for small types.
ghost use Rattle.std.specs.Prelude.{◌≡◌, ◌≢◌, [], ◌∷◌, None, Some, false};
ghost use Rattle.fidl_span.specs.declared.words.Span.{Span};
ghost use Rattle.fidl_tree.specs.Syntax.{Path, Layout, named_type, layout_type};
ghost use Rattle.fidl_tree.specs.Syntax.{no_arguments, next_argument, type_argument};
ghost use Rattle.fidl_tree.specs.Syntax.{struct_layout, union_layout, no_members, next_member};
ghost use Rattle.fidl_tree.specs.Syntax.{named_member, ordinal_member, reserved_member};
ghost use Rattle.fidl_names.specs.MemberLists.{type_lists};
ghost use Rattle.fidl_names.specs.OuterTypes.{outer_types};

/// `a<b, c>` names `a`, `b` and `c`, of which `c` alone is the second argument of `a`. A layout
/// names none outside layouts.
pub fn types_in_arguments()
    ensures seen { (a b c : Path) → outer_types (named_type a
        (next_argument (type_argument (named_type b no_arguments []))
        (next_argument (type_argument (named_type c no_arguments [])) no_arguments)) [])
        ≡ (None, a) ∷ (None, b) ∷ (Some a, c) ∷ [] }
    ensures other { (a b c : Path) → outer_types (named_type a
        (next_argument (type_argument (named_type b no_arguments []))
        (next_argument (type_argument (named_type c no_arguments [])) no_arguments)) [])
        ≢ (None, a) ∷ (Some a, b) ∷ (None, c) ∷ [] }
    ensures layout { (l : Layout) → outer_types (layout_type [] l []) ≡ [] }
{}

/// `struct {x struct {y t;};}` has the list of `y`, and then that of `x`.
pub fn lists_of_inner_layouts_first()
    ensures seen { (x y t k : Span) → type_lists (layout_type [] (struct_layout false k (next_member
        (named_member [] x (layout_type [] (struct_layout false k (next_member
        (named_member [] y (named_type (t ∷ []) no_arguments [])) no_members)) []))
        no_members)) [])
        ≡ (y ∷ []) ∷ (x ∷ []) ∷ [] }
    ensures other { (x y t k : Span) → type_lists (layout_type [] (struct_layout false k
        (next_member (named_member [] x (layout_type [] (struct_layout false k (next_member
        (named_member [] y (named_type (t ∷ []) no_arguments [])) no_members)) []))
        no_members)) [])
        ≢ (x ∷ y ∷ []) ∷ [] }
{}

/// `union {1: reserved; 2: a t;}` has the list of `a` alone.
pub fn reserved_ordinals_have_no_names()
    ensures seen { (one two a k : Span) (t : Path) → type_lists (layout_type [] (union_layout false
        false k (next_member (reserved_member [] one) (next_member
        (ordinal_member [] two a (named_type t no_arguments [])) no_members))) [])
        ≡ (a ∷ []) ∷ [] }
    ensures other { (one two a k : Span) (t : Path) → type_lists (layout_type [] (union_layout false
        false k (next_member (reserved_member [] one) (next_member
        (ordinal_member [] two a (named_type t no_arguments [])) no_members))) [])
        ≢ (one ∷ a ∷ []) ∷ [] }
{}
