//! Size, alignment and nest.
ghost use Rattle.std.specs.Prelude.{◌≤◌};
ghost use Rattle.fidl_limits.specs.declared.limits.TheConstants.{MAX_INLINE_SIZE, MAX_NEST};

/// Size, alignment and nest of a type (public source: the FIDL wire format, "Size and alignment").
#[derive(Clone, Copy, Drop)]
pub struct Figure {
    /// The inline size, in bytes.
    pub size: u32,
    /// The alignment, in bytes.
    pub align: u32,
    /// How many structs and arrays stand inline in one another.
    pub nest: u32,
    pub ghost small: { size ≤ MAX_INLINE_SIZE },
    pub ghost aligned: { 1 ≤ align },
    pub ghost narrow: { align ≤ 8 },
    pub ghost shallow: { nest ≤ MAX_NEST },
}
