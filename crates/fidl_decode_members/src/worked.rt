//! Worked facts: how the envelopes of some members are passed over, and how they are not, computed
//! by the definitions.
ghost use Rattle.std.specs.Prelude.{◌≡◌, ◌++◌, []};
ghost use Rattle.fidl_table_format.specs.Samples.{number_and_vector, header_bytes, ordinal_bytes};
ghost use Rattle.fidl_decode_model.specs.declared.frame.Remaining.TheVariants.{Envelopes};
ghost use Rattle.fidl_decode_model.specs.Faults.{message_of};
ghost use Rattle.fidl_decode_members.specs.declared.member.Passage.TheVariants.{Inside, Bool};
ghost use Rattle.fidl_decode_members.specs.declared.member.Passage.TheVariants.{Below, Text};
ghost use Rattle.fidl_decode_members.specs.Members.{IsPassage, IsMember, AreMembers};
ghost use Rattle.fidl_decode_members.specs.Members.{AreMembersOf, left_of, unnoted};

/// A uint8 stands in its envelope, and has one byte. It is no bool, no text and no number of eight
/// bytes. No vector is passed over so.
pub fn numbers_in_their_envelopes()
    ensures byte { IsPassage (number_and_vector 0) (message_of [] []) 0 (Inside 1) }
    ensures longer { ¬ (IsPassage (number_and_vector 0) (message_of [] []) 0 (Inside 4)) }
    ensures flag { ¬ (IsPassage (number_and_vector 0) (message_of [] []) 0 Bool) }
    ensures below { ¬ (IsPassage (number_and_vector 0) (message_of [] []) 0 Below) }
    ensures text { ¬ (IsPassage (number_and_vector 0) (message_of [] []) 0 Text) }
    ensures vector { ¬ (IsPassage (number_and_vector 0) (message_of [] []) 1 (Inside 1)) }
{}

/// A table entry without members has none that are noted, and no first one. Nor has a uint8.
pub fn members_of_tables()
    ensures none { AreMembers (header_bytes 1 0 ++ ordinal_bytes 17 0 0 0) (message_of [] [])
        (record { entry = 0; count = 0; members = [] }) }
    ensures own { AreMembersOf (header_bytes 1 0 ++ ordinal_bytes 17 0 0 0) (message_of [] []) 0
        (record { entry = 0; count = 0; members = [] }) }
    ensures other { ¬ (AreMembersOf (header_bytes 1 0 ++ ordinal_bytes 17 0 0 0)
        (message_of [] []) 1 (record { entry = 0; count = 0; members = [] })) }
    ensures one { ¬ (AreMembers (header_bytes 1 0 ++ ordinal_bytes 17 0 0 0) (message_of [] [])
        (record { entry = 0; count = 1; members = [] })) }
    ensures number { ¬ (AreMembers (number_and_vector 0) (message_of [] [])
        (record { entry = 0; count = 0; members = [] })) }
    ensures first { ¬ (IsMember (header_bytes 1 0 ++ ordinal_bytes 17 0 0 0) (message_of [] []) 0 0
        unnoted) }
{}

/// Of three envelopes from the place 8 on, of which one is read, two are left.
pub fn envelopes_that_are_left()
    ensures left { (left_of 5 2 (record { base = 8; count = 3; read = 1 })).left
        ≡ Envelopes 5 1 2 }
    ensures done { (left_of 5 2 (record { base = 8; count = 3; read = 1 })).done ≡ 8 }
{}
