//! Laws of the definitions. Each is the contract of a function with an empty body.
ghost use Rattle.std.specs.Prelude.{◌≡◌, ℕ, ◌+◌, ◌%◌, ◌↔◌, ℤ, List, ◌++◌, length, map, Bool};
ghost use Rattle.std.specs.List.{AllByRecursion};
ghost use Rattle.fidl_wire.specs.declared.handle.HandleInfo.{HandleInfo};
ghost use Rattle.fidl_wire.specs.declared.value.Value.{Value as Tree};
ghost use Rattle.fidl_wire.specs.declared.value.Value.TheVariants as tree;
ghost use Rattle.fidl_wire.specs.declared.value.Member.TheVariants as part;
ghost use Rattle.fidl_wire.specs.declared.value.Values.{Values};
ghost use Rattle.fidl_wire.specs.declared.value.Members.{Members};
ghost use Rattle.fidl_wire.specs.declared.value.Content.{Content};
ghost use Rattle.fidl_wire.specs.Value.{Value, absent, bool, number, text, list, fields, handle};
ghost use Rattle.fidl_wire.specs.Value.{table, union, known, unknown, values_of, members_of};
ghost use Rattle.fidl_wire.specs.Views.{content_view, member_view, members_view, value_view};
ghost use Rattle.fidl_wire.specs.Views.{values_view};
ghost use Rattle.fidl_wire.specs.Term.{Term, IsNoName, IsBounded};
ghost use Rattle.fidl_wire.specs.Figure.{Declarations, Figure, figure_of, IsLaidOut, IsSound};
ghost use Rattle.fidl_wire.specs.Figure.{size_of};
ghost use Rattle.fidl_wire.specs.Typed.{Typed};
ghost use Rattle.fidl_wire.specs.Encoding.{Enc};
ghost use Rattle.fidl_wire.specs.Message.{Message, Encodes};
ghost use Rattle.fidl_wire.specs.Standing.{Stands, Carries};

/// A tree of each variant stands for the value of that kind, made of what the tree's parts stand
/// for.
pub fn trees_stand_for_values()
    ensures absence { value_view tree.Absent ≡ absent }
    ensures bools { (b : Bool) → value_view (tree.Bool b) ≡ bool b }
    ensures numbers { (z : ℤ) → value_view (tree.Number z) ≡ number z }
    ensures texts { (bytes : List ℕ) → value_view (tree.Text bytes) ≡ text bytes }
    ensures lists { (vs : Values) → value_view (tree.List vs) ≡ list (values_of (values_view vs)) }
    ensures structs { (vs : Values) → value_view (tree.Fields vs)
        ≡ fields (values_of (values_view vs)) }
    ensures handles { (h : HandleInfo) → value_view (tree.Handle h) ≡ handle h }
    ensures tables { (n : ℕ) (ms : Members) → value_view (tree.Table n ms)
        ≡ table n (members_of (members_view ms)) }
    ensures unions { (ordinal : ℕ) (c : Content) → value_view (tree.Union ordinal c)
        ≡ union ordinal (content_view c) }
{}

/// A known member stands for its value, and an unknown one for its raw parts.
pub fn trees_stand_for_members()
    ensures known { (v : Tree) → member_view (part.Known v) ≡ known (value_view v) }
    ensures unknown { (inline : Bool) (bytes : List ℕ) (handles : List HandleInfo)
        → member_view (part.Unknown inline bytes handles) ≡ unknown inline bytes handles }
{}

/// The equations of the figures have at most one solution, where no declaration is a name.
pub fn figures_are_unique()
    ensures { (terms : List Term) → AllByRecursion IsNoName terms → (f g : List Figure)
        → map (figure_of f) terms ≡ f → map (figure_of g) terms ≡ g → f ≡ g }
{}

/// Each value's inline part is as long as its term's size.
pub fn inline_parts_have_their_size()
    ensures { (ds : Declarations) → IsLaidOut ds → (t : Term) (v : Value) → Typed ds t v
        → length (Enc ds t v).inline ≡ size_of ds t }
{}

/// A message's length is a multiple of 8.
pub fn messages_are_whole_eights()
    ensures { (ds : Declarations) (t : Term) (v : Value) → Typed ds t v
        → length (Message ds t v).0 % 8 ≡ 0 }
{}

/// Only one value has a message.
pub fn messages_have_one_value()
    ensures { (ds : Declarations) → IsSound ds → (t : Term) → IsBounded t
        → (v w : Value) (bytes : List ℕ) (handles : List HandleInfo)
        → Encodes ds t v bytes handles → Encodes ds t w bytes handles → v ≡ w }
{}

/// Joined bytes stand in a message where the first of them stand and the others stand right behind.
pub fn joined_bytes_stand()
    ensures { (message : List ℕ) (place : ℕ) (a b : List ℕ)
        → Stands message place (a ++ b) ↔ (Stands message place a × Stands message (place + length a) b) }
{}

/// Joined handles stand beside a message where the first of them stand and the others stand right
/// behind.
pub fn joined_handles_stand()
    ensures { (beside : List HandleInfo) (index : ℕ) (a b : List HandleInfo)
        → Carries beside index (a ++ b) ↔ (Carries beside index a × Carries beside (index + length a) b) }
{}

/// What stands from the start and is as long as the message is the message.
pub fn whole_messages_stand()
    ensures { (message bytes : List ℕ) → length bytes ≡ length message → Stands message 0 bytes
        ↔ (message ≡ bytes) }
{}
