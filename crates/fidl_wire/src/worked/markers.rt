//! Worked markers.
ghost use Rattle.std.specs.Prelude.{[], ◌∷◌, replicate};
ghost use Rattle.fidl_wire.specs.Marker.{Says};
ghost use Rattle.fidl_wire.specs.declared.marker.Presence.TheVariants as presence;

/// Ones say that something is there, also behind other bytes.
pub fn ones_are_present()
    ensures eight { Says (0 ∷ replicate 8 255) 1 8 presence.Present }
    ensures four { Says (replicate 4 255) 0 4 presence.Present }
{}

/// Seven ones and a zero say neither.
pub fn mixed_bytes_are_neither()
    ensures neither { Says (255 ∷ 255 ∷ 255 ∷ 255 ∷ 255 ∷ 255 ∷ 255 ∷ 0 ∷ []) 0 8 presence.Neither }
    ensures present { ¬ (Says (255 ∷ 255 ∷ 255 ∷ 255 ∷ 255 ∷ 255 ∷ 255 ∷ 0 ∷ []) 0 8
        presence.Present) }
{}
