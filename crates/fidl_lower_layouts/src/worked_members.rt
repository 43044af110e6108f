//! Worked facts: what the definitions say of small members, rows and numbers, and what they don't.
ghost use Rattle.std.specs.Prelude.{◌≡◌, ◌≢◌, ◌∷◌, ◌^◌, [], ℕ, ℤ, pos, neg_ℤ, List, Some, None, true};
ghost use Rattle.std.specs.Prelude.{false};
ghost use Rattle.fidl_span.specs.declared.words.Span.{Span};
ghost use Rattle.fidl_tree.specs.Leaf.{text_at};
ghost use Rattle.fidl_tree.specs.Syntax.{Attribute, TypeUse, Member, no_members, next_member};
ghost use Rattle.fidl_tree.specs.Syntax.{named_member, ordinal_member, reserved_member};
ghost use Rattle.fidl_tree.specs.Syntax.{ValueMember, enum_kind};
ghost use Rattle.fidl_tree.specs.declared.file.File.{File};
ghost use Rattle.fidl_consts.specs.declared.const_type.NumberKind.TheVariants as Kinds;
ghost use Rattle.fidl_consts.specs.Literals.{number_of};
ghost use Rattle.fidl_wire.specs.Term as ty;
ghost use Rattle.fidl_wire.specs.Term.{Term, Rows, no_rows, row};
ghost use Rattle.fidl_lower_types.specs.Terms.{TermIs};
ghost use Rattle.fidl_member_rules.specs.Numbers.{NumbersAre};
ghost use Rattle.fidl_lower_layouts.specs.Members.{members_in, FieldIs, RowIs, own_row, EachRow};
ghost use Rattle.fidl_lower_layouts.specs.Members.{WrittenRowsAre, row_ordinals, RowsAre};
ghost use Rattle.fidl_lower_layouts.specs.Values.{or_all, IsStrictEnum, IsNumbered};

/// Members stand in a list as they are written.
pub fn lists_of_members()
    ensures in_order { (m w : Member) → members_in (next_member m (next_member w no_members))
        ≡ m ∷ w ∷ [] }
    ensures none { members_in no_members ≡ [] }
    ensures left_out { (m : Member) → members_in (next_member m no_members) ≢ [] }
{}

/// A member of a struct is a field of its name and its term, and a member of an ordinal is none.
pub fn fields_of_members()
    ensures named { (files : List File) (n : ℕ) (f : File) (attributes : List Attribute)
        (name : Span) (t : TypeUse) (e : Term) → TermIs files n t e
        → FieldIs files n f (named_member attributes name t) (text_at f.src.now name) e }
    ensures other_name { (files : List File) (n : ℕ) (f : File) (attributes : List Attribute)
        (name : Span) (t : TypeUse) (e : Term) (text : List ℕ) → text ≢ text_at f.src.now name
        → FieldIs files n f (named_member attributes name t) text e → ⊥ }
    ensures with_ordinal { (files : List File) (n : ℕ) (f : File) (attributes : List Attribute)
        (ordinal name : Span) (t : TypeUse) (e : Term) (text : List ℕ)
        → FieldIs files n f (ordinal_member attributes ordinal name t) text e → ⊥ }
{}

/// A member of a table is a row of its ordinal's number; one that is reserved, and one without
/// an ordinal, are none.
pub fn rows_of_members()
    ensures own { (attributes : List Attribute) (ordinal name : Span) (t : TypeUse)
        → own_row (ordinal_member attributes ordinal name t)
        ≡ ordinal_member attributes ordinal name t ∷ [] }
    ensures reserved { (attributes : List Attribute) (ordinal : Span)
        → own_row (reserved_member attributes ordinal) ≡ [] }
    ensures numbered { (files : List File) (n : ℕ) (f : File) (attributes : List Attribute)
        (ordinal name : Span) (t : TypeUse) (e : Term)
        → number_of (text_at f.src.now ordinal) ≡ 3 → TermIs files n t e
        → RowIs files n f (ordinal_member attributes ordinal name t) 3 (text_at f.src.now name) e }
    ensures other { (files : List File) (n : ℕ) (f : File) (attributes : List Attribute)
        (ordinal name : Span) (t : TypeUse) (e : Term) (text : List ℕ)
        → number_of (text_at f.src.now ordinal) ≡ 3
        → RowIs files n f (ordinal_member attributes ordinal name t) 4 text e → ⊥ }
    ensures no_ordinal { (files : List File) (n : ℕ) (f : File) (attributes : List Attribute)
        (name : Span) (t : TypeUse) (e : Term) (k : ℕ) (text : List ℕ)
        → RowIs files n f (named_member attributes name t) k text e → ⊥ }
{}

/// Rows as they are written: one for each member, in the order of the members.
pub fn rows_as_written()
    ensures two { (files : List File) (n : ℕ) (f : File) (m w : Member) (i j : ℕ)
        (one other : List ℕ) (e d : Term) → own_row m ≡ m ∷ [] → own_row w ≡ w ∷ []
        → RowIs files n f m i one e → RowIs files n f w j other d
        → WrittenRowsAre files n f (m ∷ w ∷ []) (row i one e (row j other d no_rows)) }
    ensures too_few { (files : List File) (n : ℕ) (f : File) (m : Member)
        → EachRow files n f (m ∷ []) no_rows → ⊥ }
    ensures too_many { (files : List File) (n : ℕ) (f : File) (k : ℕ) (text : List ℕ) (e : Term)
        → EachRow files n f [] (row k text e no_rows) → ⊥ }
    ensures ordinals { (one other : List ℕ) (e d : Term)
        → row_ordinals (row 3 one e (row 1 other d no_rows)) ≡ 3 ∷ 1 ∷ [] }
    ensures other_ordinals { (one other : List ℕ) (e d : Term)
        → row_ordinals (row 3 one e (row 1 other d no_rows)) ≢ 1 ∷ 3 ∷ [] }
{}

/// A member of a table has a row of its ordinal's number, of 32 bits, its name and its term; a
/// reserved member has none.
pub fn rows_of_tables()
    ensures one { (files : List File) (n : ℕ) (f : File) (attributes : List Attribute)
        (ordinal name : Span) (t : TypeUse) (e : Term)
        → number_of (text_at f.src.now ordinal) ≡ 3 → TermIs files n t e
        → RowsAre files n f (ordinal_member attributes ordinal name t ∷ [])
        (row 3 (text_at f.src.now name) e no_rows) }
    ensures other { (files : List File) (n : ℕ) (f : File) (attributes : List Attribute)
        (ordinal name : Span) (t : TypeUse) (e : Term) (text : List ℕ)
        → number_of (text_at f.src.now ordinal) ≡ 3
        → RowsAre files n f (ordinal_member attributes ordinal name t ∷ [])
        (row 4 text e no_rows) → ⊥ }
    ensures too_high { (files : List File) (n : ℕ) (f : File) (attributes : List Attribute)
        (ordinal name : Span) (t : TypeUse) (e : Term) (k : ℕ) (text : List ℕ)
        → number_of (text_at f.src.now ordinal) ≡ 2 ^ 32
        → RowsAre files n f (ordinal_member attributes ordinal name t ∷ []) (row k text e no_rows)
        → ⊥ }
    ensures reserved { (files : List File) (n : ℕ) (f : File) (attributes : List Attribute)
        (ordinal : Span) → RowsAre files n f (reserved_member attributes ordinal ∷ []) no_rows }
    ensures no_row { (files : List File) (n : ℕ) (f : File) (attributes : List Attribute)
        (ordinal : Span) (text : List ℕ) (e : Term)
        → RowsAre files n f (reserved_member attributes ordinal ∷ []) (row 3 text e no_rows) → ⊥ }
{}

/// Rows stand by rising ordinal, in whatever order their members are written, and members of one
/// ordinal have no rows.
pub fn rows_by_ordinal()
    ensures turned { (files : List File) (n : ℕ) (f : File) (attributes : List Attribute)
        (third name first other : Span) (t u : TypeUse) (e d : Term)
        → number_of (text_at f.src.now third) ≡ 3 → number_of (text_at f.src.now first) ≡ 1
        → TermIs files n t e → TermIs files n u d → RowsAre files n f
        (ordinal_member attributes third name t ∷ ordinal_member attributes first other u ∷ [])
        (row 1 (text_at f.src.now other) d (row 3 (text_at f.src.now name) e no_rows)) }
    ensures as_written { (files : List File) (n : ℕ) (f : File) (ms : List Member)
        (one other : List ℕ) (e d : Term)
        → RowsAre files n f ms (row 3 one e (row 1 other d no_rows)) → ⊥ }
    ensures twice { (files : List File) (n : ℕ) (f : File) (attributes : List Attribute)
        (one name two other : Span) (t u : TypeUse) (rows : Rows)
        → number_of (text_at f.src.now one) ≡ 3 → number_of (text_at f.src.now two) ≡ 3
        → RowsAre files n f
        (ordinal_member attributes one name t ∷ ordinal_member attributes two other u ∷ []) rows
        → ⊥ }
{}

/// The bits of 1 and 4 are those of 5.
pub fn bits_of_numbers()
    ensures none { or_all [] ≡ 0 }
    ensures two { or_all (1 ∷ 4 ∷ []) ≡ 5 }
    ensures other { or_all (1 ∷ 4 ∷ []) ≢ 4 }
{}

/// Strict enums have the numbers of their members, rising, in whatever order they are written;
/// flexible ones have none.
pub fn numbers_of_enums()
    ensures rising { (files : List File) (f : File) (ms : List ValueMember)
        → NumbersAre files f Kinds.Int8 ms (pos 1 ∷ pos 2 ∷ [])
        → IsNumbered files f Kinds.Int8 enum_kind true ms
        (ty.enum ty.int8 (Some (pos 1 ∷ pos 2 ∷ []))) }
    ensures falling { (files : List File) (f : File) (ms : List ValueMember)
        → NumbersAre files f Kinds.Int8 ms (pos 2 ∷ pos 1 ∷ [])
        → IsNumbered files f Kinds.Int8 enum_kind true ms
        (ty.enum ty.int8 (Some (pos 1 ∷ pos 2 ∷ []))) }
    ensures negative { (files : List File) (f : File) (ms : List ValueMember)
        → NumbersAre files f Kinds.Int8 ms (pos 1 ∷ neg_ℤ (pos 2) ∷ [])
        → IsNumbered files f Kinds.Int8 enum_kind true ms
        (ty.enum ty.int8 (Some (neg_ℤ (pos 2) ∷ pos 1 ∷ []))) }
    ensures as_written { (files : List File) (f : File) (ms : List ValueMember)
        → IsNumbered files f Kinds.Int8 enum_kind true ms
        (ty.enum ty.int8 (Some (pos 2 ∷ pos 1 ∷ []))) → ⊥ }
    ensures twice { (files : List File) (f : File) (ms : List ValueMember) (t : Term)
        → NumbersAre files f Kinds.Int8 ms (pos 1 ∷ pos 1 ∷ [])
        → IsStrictEnum files f Kinds.Int8 ms t → ⊥ }
    ensures empty { (files : List File) (f : File) (z : ℤ)
        → IsNumbered files f Kinds.Int8 enum_kind true [] (ty.enum ty.int8 (Some (z ∷ []))) → ⊥ }
    ensures flexible { (files : List File) (f : File) (ms : List ValueMember)
        → IsNumbered files f Kinds.Int8 enum_kind false ms (ty.enum ty.int8 None) }
    ensures held { (files : List File) (f : File) (ms : List ValueMember) (zs : List ℤ)
        → IsNumbered files f Kinds.Int8 enum_kind false ms (ty.enum ty.int8 (Some zs)) → ⊥ }
{}
