//! Where a value is written.
ghost use Rattle.std.specs.Prelude.{◌≡◌, suc, IfOk, OnErr, IfErr};
ghost use Rattle.fidl_encode.specs.declared.fault.EncodeFault.TheVariants.{TooDeep};

use crate::fault::EncodeFault;

/// Where a value is written, and how deep it may lie.
#[derive(Clone, Copy)]
pub(crate) struct Target {
    /// The offset from the message's start, in bytes.
    pub(crate) at: usize,
    /// How many out-of-line objects may lie behind one another below this place.
    pub(crate) depth: usize,
}

impl Target {
    /// How many objects may lie below an object of this place.
    pub(crate) fn depth_below(self) -> Result<usize, EncodeFault>
        ensures ok { IfOk result (λ below. self.depth ≡ suc below) }
        ensures none { OnErr result (self.depth ≡ 0) }
        ensures fault { IfErr result (λ f. f ≡ TooDeep) }
    {
        if self.depth == 0 {
            return Err(EncodeFault::TooDeep);
        }
        Ok(self.depth - 1)
    }
}
