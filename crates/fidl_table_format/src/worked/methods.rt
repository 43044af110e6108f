//! Worked facts of protocols and methods: records and tables that keep the rules, and some that
//! break one.
ghost use Rattle.std.specs.Prelude.{◌≡◌, [], codes, true, false};
ghost use Rattle.fidl_table_format.specs.Section.{header_of, protocol_at};
ghost use Rattle.fidl_table_format.specs.Protocol.{IsOpenness, HasProtocolName, ProtocolRises, HasMethods};
ghost use Rattle.fidl_table_format.specs.Protocol.{methods_before, protocol_name, IsMethodOf};
ghost use Rattle.fidl_table_format.specs.Protocol.{IsFirstProtocol, HasNoProtocol};
ghost use Rattle.fidl_table_format.specs.Method.{IsPayload, PayloadHolds, HasMethodShape, OrdinalRises};
ghost use Rattle.fidl_table_format.specs.Method.{no_payload, method_number};
ghost use Rattle.fidl_table_format.specs.Method.{IsMethodAt, HasNoMethod};
ghost use Rattle.fidl_table_format.specs.WellFormed.{WellFormed};
ghost use Rattle.fidl_table_format.specs.Samples.{an_entry, a_method, struct_and_box, two_protocols};

/// A protocol is closed, ajar or open.
pub fn opennesses()
    ensures open { IsOpenness (protocol_at (two_protocols 2 113 1 1 5 5)
        (header_of (two_protocols 2 113 1 1 5 5)) 0) }
    ensures another { ¬ IsOpenness (protocol_at (two_protocols 3 113 1 1 5 5)
        (header_of (two_protocols 3 113 1 1 5 5)) 0) }
{}

/// The names of protocols rise.
pub fn names_of_protocols()
    ensures first { let t = two_protocols 0 113 1 1 5 5 in protocol_name t (header_of t) 0
        ≡ codes "p" }
    ensures rising { let t = two_protocols 0 113 1 1 5 5 in ProtocolRises t (header_of t) 1 }
    ensures twice { let t = two_protocols 0 112 1 1 5 5 in ¬ ProtocolRises t (header_of t) 1 }
    ensures falling { let t = two_protocols 0 111 1 1 5 5 in ¬ ProtocolRises t (header_of t) 1 }
    ensures bytes { let t = two_protocols 0 113 1 1 5 5 in HasProtocolName t (header_of t) 1 }
    ensures another_byte { let t = two_protocols 0 32 1 1 5 5 in
        ¬ HasProtocolName t (header_of t) 1 }
{}

/// The methods of protocols follow one another, and are those of the table.
pub fn methods_of_protocols()
    ensures before { let t = two_protocols 0 113 1 1 5 5 in methods_before t (header_of t) 1 ≡ 1 }
    ensures own { let t = two_protocols 0 113 1 1 5 5 in IsMethodOf t (header_of t) 1 1 }
    ensures of_another { let t = two_protocols 0 113 1 1 5 5 in ¬ IsMethodOf t (header_of t) 0 1 }
    ensures all { let t = two_protocols 0 113 1 1 5 5 in HasMethods t (header_of t) 1 }
    ensures more { let t = two_protocols 0 113 1 2 5 5 in ¬ HasMethods t (header_of t) 1 }
    ensures number { let t = two_protocols 0 113 1 1 5 5 in method_number t (header_of t) 1 0 ≡ 1 }
{}

/// A payload is a struct, a table or a union that isn't optional.
pub fn payloads()
    ensures of_a_struct { IsPayload (an_entry 16 0 0 0 0 0) }
    ensures of_a_table { IsPayload (an_entry 17 0 0 0 0 0) }
    ensures of_a_union { IsPayload (an_entry 18 2 0 1 0 0) }
    ensures optional { ¬ IsPayload (an_entry 18 1 0 1 0 0) }
    ensures of_bits { ¬ IsPayload (an_entry 10 0 0 0 0 6) }
    ensures of_a_vector { ¬ IsPayload (an_entry 13 0 0 0 0 0) }
{}

/// A message that the method has may have a payload, whose entry exists; another has none.
pub fn payloads_of_messages()
    ensures none { let t = struct_and_box 0 0 in PayloadHolds t (header_of t) false no_payload }
    ensures one { let t = struct_and_box 0 0 in PayloadHolds t (header_of t) true 0 }
    ensures of_no_message { let t = struct_and_box 0 0 in ¬ PayloadHolds t (header_of t) false 0 }
    ensures of_a_box { let t = struct_and_box 0 0 in ¬ PayloadHolds t (header_of t) true 1 }
    ensures past { let t = struct_and_box 0 0 in ¬ PayloadHolds t (header_of t) true 2 }
{}

/// A method has an ordinal of 63 bits that isn't 0, known flags, and a request or a response.
pub fn shapes_of_methods()
    ensures one_way { HasMethodShape [] (header_of []) (a_method 1 2 no_payload no_payload) }
    ensures event { HasMethodShape [] (header_of []) (a_method 1 4 no_payload no_payload) }
    ensures greatest { HasMethodShape [] (header_of [])
        (a_method 9223372036854775807 7 no_payload no_payload) }
    ensures zero { ¬ HasMethodShape [] (header_of []) (a_method 0 2 no_payload no_payload) }
    ensures over { ¬ HasMethodShape [] (header_of [])
        (a_method 9223372036854775808 2 no_payload no_payload) }
    ensures neither { ¬ HasMethodShape [] (header_of []) (a_method 1 1 no_payload no_payload) }
    ensures another_flag { ¬ HasMethodShape [] (header_of [])
        (a_method 1 10 no_payload no_payload) }
    ensures not_zero { ¬ HasMethodShape [] (header_of [])
        (record (a_method 1 2 no_payload no_payload) { reserved = 1 }) }
{}

/// The ordinals of one protocol rise; those of two need not.
pub fn ordinals_of_methods()
    ensures rising { let t = two_protocols 0 113 2 0 5 6 in OrdinalRises t (header_of t) 1 }
    ensures twice { let t = two_protocols 0 113 2 0 5 5 in ¬ OrdinalRises t (header_of t) 1 }
    ensures of_another { let t = two_protocols 0 113 1 1 6 5 in OrdinalRises t (header_of t) 1 }
{}

/// Protocols are found by their names, and their methods by their ordinals.
pub fn look_ups()
    ensures second { let t = two_protocols 0 113 1 1 5 6 in
        IsFirstProtocol t (header_of t) (codes "q") 1 }
    ensures other_name { let t = two_protocols 0 113 1 1 5 6 in
        ¬ IsFirstProtocol t (header_of t) (codes "p") 1 }
    ensures its_method { let t = two_protocols 0 113 1 1 5 6 in IsMethodAt t (header_of t) 1 6 0 }
    ensures of_another { let t = two_protocols 0 113 1 1 5 6 in ¬ IsMethodAt t (header_of t) 1 5 0 }
    ensures has_none { let t = two_protocols 0 113 1 1 5 6 in ¬ HasNoMethod t (header_of t) 1 6 }
    ensures no_protocol { let t = two_protocols 0 113 1 1 5 6 in
        ¬ HasNoProtocol t (header_of t) (codes "q") }
{}

/// A table may have protocols and no types; all its methods are of protocols.
pub fn tables_with_protocols()
    ensures two { WellFormed (two_protocols 2 113 1 1 5 5) }
    ensures left { ¬ WellFormed (two_protocols 2 113 1 0 5 5) }
    ensures not_rising { ¬ WellFormed (two_protocols 2 113 2 0 5 5) }
{}
