//! Worked texts of scripts.
ghost use Rattle.std.specs.Prelude.{◌≡◌, ℕ, List, [], ◌∷◌, codes, length, Option, Some, None, true};
ghost use Rattle.std.specs.Prelude.{false};
ghost use Rattle.fidl_verify.specs.declared.method.Payload.TheVariants.{Empty, Entry};
ghost use Rattle.fidl_script.specs.Lines.{said_lines};
ghost use Rattle.fidl_script.specs.Phrases.{IsProtocolLine, IsReplyLine};
ghost use Rattle.fidl_script.specs.Script.{Body, empty_body, FitsBehindHeader, has_both};
ghost use Rattle.fidl_script.specs.Samples.{a_method};
ghost use Rattle.fidl_script.specs.Text.{GivesBody, replies_with};
ghost use Rattle.fidl_script.specs.Faults.{BeginsBadly};

/// Lines are counted from 1, skipped ones too. The last one may lack its end, and `#` inside a line
/// is a part of it.
pub fn lines_that_say_something()
    ensures some { said_lines (codes "# a\n\nprotocol s/P\nreply s/P.Get {v: 9} # b")
        ≡ record { number = 3; bytes = codes "protocol s/P" }
        ∷ record { number = 4; bytes = codes "reply s/P.Get {v: 9} # b" } ∷ [] }
    ensures none { said_lines (codes "\n#\n\n") ≡ [] }
    ensures returns { said_lines (codes "a\r\nb\n") ≡ record { number = 1; bytes = codes "a\r" }
        ∷ record { number = 2; bytes = codes "b" } ∷ [] }
{}

/// A two-way method has flag 2, for its request, and flag 4, for its response. A one-way method lacks
/// the response, and an event the request.
pub fn two_way_methods()
    ensures two_way { has_both (a_method 6) ≡ true }
    ensures strict_two_way { has_both (a_method 7) ≡ true }
    ensures one_way { has_both (a_method 3) ≡ false }
    ensures event { has_both (a_method 5) ≡ false }
{}

/// A protocol line has one name, behind one blank.
pub fn protocol_lines()
    ensures one { IsProtocolLine (codes "protocol s/P") (codes "s/P") }
    ensures two_blanks { (name : List ℕ) → ¬ (IsProtocolLine (codes "protocol  s/P") name) }
    ensures no_name { (name : List ℕ) → ¬ (IsProtocolLine (codes "protocol ") name) }
    ensures two_names { (name : List ℕ) → ¬ (IsProtocolLine (codes "protocol s/P Q") name) }
    ensures capital { (name : List ℕ) → ¬ (IsProtocolLine (codes "Protocol s/P") name) }
{}

/// A reply line has a method, and a text where a blank follows that, even an empty one.
pub fn reply_lines()
    ensures without_text { IsReplyLine (codes "reply s/P.A") (codes "s/P.A") None }
    ensures with_text { IsReplyLine (codes "reply s/P.A {a: 1}") (codes "s/P.A")
        (Some (codes "{a: 1}")) }
    ensures empty_text { IsReplyLine (codes "reply s/P.A ") (codes "s/P.A") (Some []) }
    ensures empty_is_some { ¬ (IsReplyLine (codes "reply s/P.A ") (codes "s/P.A") None) }
    ensures blank_in_text { IsReplyLine (codes "reply A  1") (codes "A") (Some (codes " 1")) }
    ensures no_method { (method : List ℕ) (text : Option (List ℕ))
        → ¬ (IsReplyLine (codes "reply  1") method text) }
{}

/// A response without a payload is given by no text, and one with a payload by no absent one.
pub fn bodies_of_lines()
    ensures empty { (table : List ℕ) → GivesBody table Empty None empty_body }
    ensures empty_text { (table : List ℕ) (body : Body) → ¬ (GivesBody table Empty (Some []) body) }
    ensures no_text { (table : List ℕ) (entry : ℕ) (body : Body)
        → ¬ (GivesBody table (Entry entry) None body) }
{}

/// A header has 16 of the 16,777,216 bytes of a message.
pub fn bodies_behind_headers()
    ensures longest { (body : Body) → length body.bytes ≡ 16777200 → FitsBehindHeader body }
    ensures longer { (body : Body) → length body.bytes ≡ 16777201 → ¬ (FitsBehindHeader body) }
{}

/// The replies of a method are those of its ordinal, in their order.
pub fn replies_of_a_method()
    ensures { let a : Body = record { bytes = 1 ∷ []; handles = [] } in
        let b : Body = record { bytes = 2 ∷ []; handles = [] } in
        let c : Body = record { bytes = 3 ∷ []; handles = [] } in
        replies_with 7 (record { ordinal = 7; body = a } ∷ record { ordinal = 8; body = b }
        ∷ record { ordinal = 7; body = c } ∷ []) ≡ a ∷ c ∷ [] }
{}

/// A text that says nothing begins badly, at line 1, and one whose first line is another, at that.
pub fn texts_that_begin_badly()
    ensures nothing { BeginsBadly (codes "# nothing\n") 1 }
    ensures reply_first { BeginsBadly (codes "#\nreply A\n") 2 }
    ensures later { ¬ (BeginsBadly (codes "#\nreply A\n") 3) }
{}
