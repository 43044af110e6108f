//! Worked inputs, cut into frames.
ghost use Rattle.std.specs.Prelude.{◌≡◌, [], ◌∷◌};
ghost use Rattle.fidl_frames.specs.Frames.{frames_of, between, inside, past_limit};

/// Nothing has no frame, and ends between frames.
pub fn nothing_ends_between()
    ensures { frames_of [] ≡ record { frames = []; tail = between } }
{}

/// Two frames: a message of one byte, and an empty one with a handle.
pub fn two_frames()
    ensures { frames_of (1 ∷ 0 ∷ 0 ∷ 0 ∷ 0 ∷ 0 ∷ 0 ∷ 0 ∷ 9 ∷ 0 ∷ 0 ∷ 0 ∷ 0 ∷ 1 ∷ 0 ∷ 0 ∷ 0 ∷ 1 ∷ 2 ∷ 3
        ∷ 4 ∷ 5 ∷ 6 ∷ 7 ∷ 8 ∷ 9 ∷ 10 ∷ 11 ∷ 12 ∷ [])
        ≡ record {
          frames = (1 ∷ 0 ∷ 0 ∷ 0 ∷ 0 ∷ 0 ∷ 0 ∷ 0 ∷ 9 ∷ [])
              ∷ (0 ∷ 0 ∷ 0 ∷ 0 ∷ 1 ∷ 0 ∷ 0 ∷ 0 ∷ 1 ∷ 2 ∷ 3 ∷ 4 ∷ 5 ∷ 6 ∷ 7 ∷ 8 ∷ 9 ∷ 10 ∷ 11 ∷ 12 ∷ []) ∷ [];
          tail = between;
        } }
{}

/// Four bytes end inside a frame.
pub fn four_bytes_end_inside()
    ensures { frames_of (16 ∷ 0 ∷ 0 ∷ 0 ∷ []) ≡ record { frames = []; tail = inside } }
{}

/// A message of 16,777,217 bytes, and one with 65 handles, are past a limit.
pub fn frames_past_a_limit()
    ensures bytes { frames_of (1 ∷ 0 ∷ 0 ∷ 1 ∷ 0 ∷ 0 ∷ 0 ∷ 0 ∷ [])
        ≡ record { frames = []; tail = past_limit } }
    ensures handles { frames_of (0 ∷ 0 ∷ 0 ∷ 0 ∷ 65 ∷ 0 ∷ 0 ∷ 0 ∷ 7 ∷ [])
        ≡ record { frames = []; tail = past_limit } }
{}
