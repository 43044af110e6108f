//! The values of constants.
ghost use Rattle.std.specs.Prelude.{◌≡◌, ◌↔◌, IsTrue, IfOk};
ghost use Rattle.fidl_consts.specs.PlainValues.{seen, Fits, is_literal_of, joined, text_length};

use crate::const_type::ConstType;
use std::alloc::{AllocError, Global};

/// The value of a constant, or of a member of bits or an enum.
#[derive(Debug, Drop)]
pub enum ConstValue {
    Bool(bool),
    /// A whole number; of bits and enums too.
    Number(i128),
    /// The bytes of a string.
    Text(Vec<u8>),
}

impl ConstValue {
    /// A copy.
    pub fn copy(&self, alloc: Global) -> Result<ConstValue, AllocError>
        ensures { IfOk result (λ copy. seen copy ≡ seen self.now) }
    {
        match self {
            ConstValue::Bool(truth) => Ok(ConstValue::Bool(*truth)),
            ConstValue::Number(number) => Ok(ConstValue::Number(*number)),
            ConstValue::Text(bytes) => {
                let mut copy = Vec::new(alloc);
                copy.extend_from_slice(bytes)?;
                Ok(ConstValue::Text(copy))
            }
        }
    }

    /// Whether it is a value of this type, and a number in its range.
    pub fn fits(&self, wanted: ConstType) -> bool
        ensures { IsTrue result ↔ Fits wanted (seen self.now) }
    {
        match (wanted, self) {
            (ConstType::Number(kind), ConstValue::Number(number)) => kind.holds(*number),
            (ConstType::Bool, ConstValue::Bool(_))
            | (ConstType::String, ConstValue::Text(_))
            | (ConstType::Values(_), ConstValue::Number(_)) => true,
            _ => false,
        }
    }

    /// Whether a literal is one of this type.
    pub fn is_literal_of(&self, wanted: ConstType) -> bool
        ensures { result ≡ is_literal_of wanted (seen self.now) }
    {
        matches!(
            (wanted, self),
            (ConstType::Bool, ConstValue::Bool(_))
                | (ConstType::Number(_), ConstValue::Number(_))
                | (ConstType::String, ConstValue::Text(_))
        )
    }

    /// What `|` makes of two values.
    pub fn joined(self, other: &ConstValue) -> ConstValue
        ensures { seen result ≡ joined (seen self) (seen other.now) }
    {
        match (&self, other) {
            (ConstValue::Number(one), ConstValue::Number(two)) => {
                if *one < 0 || *two < 0 {
                    return self;
                }
                ConstValue::Number(*one | *two)
            }
            _ => self,
        }
    }

    /// How many bytes a string has; nothing else has any.
    pub fn text_length(&self) -> usize
        ensures { result ≡ text_length (seen self.now) }
    {
        match self {
            ConstValue::Text(bytes) => bytes.len(),
            ConstValue::Bool(_) | ConstValue::Number(_) => 0,
        }
    }
}
