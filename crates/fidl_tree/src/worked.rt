//! Worked facts: small trees with the plain data that they represent, and some that they do not.
ghost use Rattle.std.specs.Prelude.{◌≡◌, ◌≢◌, [], ◌∷◌, true, false, map, None, Some};
ghost use Rattle.std.specs.Global.{Vec as Row, Box as Boxed};
ghost use Rattle.fidl_span.specs.declared.words.Span.{Span};
ghost use Rattle.fidl_tree.specs.declared.attribute.Attribute.{Attribute};
ghost use Rattle.fidl_tree.specs.declared.constraint.Constraints.{Constraints};
ghost use Rattle.fidl_tree.specs.declared.keyword.Strictness.{Strictness};
ghost use Rattle.fidl_tree.specs.declared.keyword.Strictness.TheVariants.{Strict, Flexible};
ghost use Rattle.fidl_tree.specs.declared.keyword.Resource.{Resource};
ghost use Rattle.fidl_tree.specs.declared.keyword.UnionModifiers.TheVariants as modifiers;
ghost use Rattle.fidl_tree.specs.declared.path.Path.{Path};
ghost use Rattle.fidl_tree.specs.declared.value.OrOperand.{OrOperand};
ghost use Rattle.fidl_tree.specs.declared.value_member.ValueMember.{ValueMember};
ghost use Rattle.fidl_tree.specs.declared.type_constructor.Member.{Member};
ghost use Rattle.fidl_tree.specs.declared.type_constructor.OrdinalMember.{OrdinalMember};
ghost use Rattle.fidl_tree.specs.declared.type_constructor.NextTypeArgument.{NextTypeArgument};
ghost use Rattle.fidl_tree.specs.declared.type_constructor.TypeArgument.{TypeArgument};
ghost use Rattle.fidl_tree.specs.declared.type_constructor.TypeConstructor.{TypeConstructor};
ghost use Rattle.fidl_tree.specs.Syntax.{bitwise_or, no_operands, next_operand, number_operand};
ghost use Rattle.fidl_tree.specs.Syntax.{path_operand};
ghost use Rattle.fidl_tree.specs.Syntax.{named_type, no_arguments, next_argument, number_argument};
ghost use Rattle.fidl_tree.specs.Syntax.{type_argument, values_layout, struct_layout, enum_kind};
ghost use Rattle.fidl_tree.specs.Syntax.{table_layout, union_layout, no_underlying, no_members};
ghost use Rattle.fidl_tree.specs.Syntax.{next_member, ordinal_member, reserved_member};
ghost use Rattle.fidl_tree.specs.Views.{path_view, value_view, constraints_view, attributes_view};
ghost use Rattle.fidl_tree.specs.Views.{type_view, named_view, body_view, member_view};
ghost use Rattle.fidl_tree.specs.Views.{value_member_view};
ghost use Rattle.fidl_tree.specs.Examples.{word, path_or, or_number, named_with, type_tree};
ghost use Rattle.fidl_tree.specs.Examples.{next_number, struct_with, enum_with, union_with};
ghost use Rattle.fidl_tree.specs.Examples.{reserved_at, typed_at};

/// `name | 1` is the name, and then the number; it isn't the number, and then the name.
pub fn operands_in_order()
    ensures seen { (p : Path) (n : Span) (rest : Row OrOperand) → rest.items ≡ or_number n ∷ []
        → value_view (path_or p rest)
        ≡ bitwise_or (path_operand (path_view p)) (next_operand (number_operand None n) no_operands) }
    ensures other { (p : Path) (n : Span) (rest : Row OrOperand) → rest.items ≡ or_number n ∷ []
        → value_view (path_or p rest)
        ≢ bitwise_or (number_operand None n) (next_operand (path_operand (path_view p)) no_operands) }
{}

/// `name<t, 1>:c` has its arguments in order, and its constraints, which aren't left out.
pub fn arguments_in_order()
    ensures seen { (p : Path) (t : TypeConstructor) (first : Boxed TypeArgument) (n : Span)
        (rest : Row NextTypeArgument) (cs : Constraints) → first.value ≡ type_tree t
        → rest.items ≡ next_number n ∷ [] → named_view (named_with p first rest cs)
        ≡ named_type (path_view p) (next_argument (type_argument (type_view t))
        (next_argument (number_argument n) no_arguments)) (constraints_view (Some cs)) }
    ensures other { (p : Path) (t : TypeConstructor) (first : Boxed TypeArgument) (n : Span)
        (rest : Row NextTypeArgument) (cs : Constraints) → first.value ≡ type_tree t
        → rest.items ≡ next_number n ∷ [] → named_view (named_with p first rest cs)
        ≢ named_type (path_view p) (next_argument (number_argument n)
        (next_argument (type_argument (type_view t)) no_arguments)) [] }
{}

/// `struct {one; other;}` has its members in order. It is no table.
pub fn members_in_order()
    ensures seen { (one other : Member) (members : Row Member) → members.items ≡ one ∷ other ∷ []
        → body_view (struct_with members) ≡ struct_layout false word
        (next_member (member_view one) (next_member (member_view other) no_members)) }
    ensures other { (one other : Member) (members : Row Member) → members.items ≡ one ∷ other ∷ []
        → body_view (struct_with members) ≢ table_layout false word
        (next_member (member_view one) (next_member (member_view other) no_members)) }
{}

/// An enum is strict by `strict`, and not by `flexible`, nor without a modifier.
pub fn enums_by_their_modifiers()
    ensures strict { (ms : Row ValueMember) → body_view (enum_with (Some (Strict word)) ms)
        ≡ values_layout enum_kind true word no_underlying (map value_member_view ms.items) }
    ensures flexible { (ms : Row ValueMember) → body_view (enum_with (Some (Flexible word)) ms)
        ≡ values_layout enum_kind false word no_underlying (map value_member_view ms.items) }
    ensures other { (ms : Row ValueMember) → body_view (enum_with None ms)
        ≢ values_layout enum_kind true word no_underlying (map value_member_view ms.items) }
{}

/// A union is strict and a resource type by these words in either order, and else neither.
pub fn unions_by_their_modifiers()
    ensures first { (r : Resource) (ms : Row OrdinalMember) → ms.items ≡ []
        → body_view (union_with (modifiers.StrictnessFirst (Some (Strict word)) (Some r)) ms)
        ≡ union_layout true true word no_members }
    ensures last { (r : Resource) (ms : Row OrdinalMember) → ms.items ≡ []
        → body_view (union_with (modifiers.ResourceFirst r (Strict word)) ms)
        ≡ union_layout true true word no_members }
    ensures other { (ms : Row OrdinalMember) → ms.items ≡ []
        → body_view (union_with (modifiers.StrictnessFirst None None) ms)
        ≢ union_layout true true word no_members }
{}

/// A member of a union keeps its ordinal, its name and its type. A reserved ordinal has no name.
pub fn members_at_ordinals()
    ensures seen { (one two name : Span) (t : TypeConstructor) (as' : Row Attribute)
        (ms : Row OrdinalMember) → ms.items ≡ reserved_at as' one ∷ typed_at as' two name t ∷ []
        → body_view (union_with (modifiers.StrictnessFirst None None) ms)
        ≡ union_layout false false word
        (next_member (reserved_member (attributes_view as'.items) one)
        (next_member (ordinal_member (attributes_view as'.items) two name (type_view t))
        no_members)) }
    ensures other { (two name : Span) (t : TypeConstructor) (as' : Row Attribute)
        (ms : Row OrdinalMember) → ms.items ≡ typed_at as' two name t ∷ []
        → body_view (union_with (modifiers.StrictnessFirst None None) ms)
        ≢ union_layout false false word
        (next_member (reserved_member (attributes_view as'.items) two) no_members) }
{}
