//! Laws of outputs.
ghost use Rattle.std.specs.Prelude.{◌≡◌, ◌++◌, ℕ, List, false};
ghost use Rattle.fidl_frames.specs.Frames.{frames_of};
ghost use Rattle.fidl_verify.specs.Lookups.{TableProtocol, IsProtocolOfTable};
ghost use Rattle.fidl_script.specs.Script.{Script, IsScriptFor};
ghost use Rattle.fidl_serve.specs.Output.{Output, IsOutput};
ghost use Rattle.fidl_serve.specs.Requests.{AreReplies};

/// An input has one output.
pub fn an_input_has_one_output()
    ensures { (p : TableProtocol) → IsProtocolOfTable p → (script : Script) → (input : List ℕ)
        → (one other : Output) → IsOutput p script input one → IsOutput p script input other
        → one ≡ other }
{}

/// An output that has ended is that of any longer input too.
pub fn an_output_that_has_ended_stays()
    ensures { (p : TableProtocol) → (script : Script) → (input more : List ℕ) → (output : Output)
        → output.is_open ≡ false → IsOutput p script input output
        → IsOutput p script (input ++ more) output }
{}

/// The replies to an input are the first of those to any longer input.
pub fn replies_stay()
    ensures { (p : TableProtocol) → IsProtocolOfTable p → (script : Script)
        → (input more : List ℕ) → (output longer : Output) → IsOutput p script input output
        → IsOutput p script (input ++ more) longer
        → (later : List (List ℕ)) × (longer.replies ≡ output.replies ++ later) }
{}

/// Each reply has the transaction id and the ordinal of its request. Its body encodes a value of
/// the response's payload, is empty where there is none, or says that the method is unknown.
pub fn replies_answer_requests()
    ensures { (p : TableProtocol) → (script : Script) → (input : List ℕ) → (output : Output)
        → IsScriptFor p script → IsOutput p script input output
        → AreReplies p (frames_of input).frames output.replies }
{}
