//! The decoder of one message, as it reads the frames of a stack.

use fidl_decode_values::Decoder;

/// What reads frames: the rest of structs, of elements, of envelopes, and of an envelope's content.
#[derive(Drop)]
pub(crate) struct Frames<'t, 'm, 's> {
    pub decoder: Decoder<'t, 'm, 's>,
}
