//! Laws of frames.
ghost use Rattle.std.specs.Prelude.{◌≡◌, ◌++◌, ℕ, List, [], ◌∷◌};
ghost use Rattle.fidl_frames.specs.Frames.{frames_of, IsFrame, IsBegun, IsPastLimit};
ghost use Rattle.fidl_frames.specs.Frames.{between, inside, past_limit};

/// A whole frame at the front of an input is its first frame; the others are those of what follows.
pub fn a_whole_frame_is_the_first()
    ensures { (frame more : List ℕ) → IsFrame frame → frames_of (frame ++ more)
        ≡ record { frames = frame ∷ (frames_of more).frames; tail = (frames_of more).tail } }
{}

/// An input that is the beginning of a frame has none, and ends inside one.
pub fn a_frame_that_is_begun_is_none()
    ensures { (bytes : List ℕ) → IsBegun bytes
        → frames_of bytes ≡ record { frames = []; tail = inside } }
{}

/// A frame past a limit is the end of an input, whatever follows.
pub fn a_frame_past_a_limit_is_the_end()
    ensures { (bytes more : List ℕ) → IsPastLimit bytes
        → frames_of (bytes ++ more) ≡ record { frames = []; tail = past_limit } }
{}
