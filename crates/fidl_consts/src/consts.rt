//! The values of a set of files.
ghost use Rattle.std.specs.Prelude.{◌≡◌, ◌<◌, ◌≤◌, ◌^◌, None, IfOk, IfSome, IsNone};
ghost use Rattle.fidl_named.specs.declared.meaning.Meaning.TheVariants as meaning;
ghost use Rattle.fidl_consts.specs.PlainValues.{seen};
ghost use Rattle.fidl_consts.specs.Tables.{number_of, value_at, limits_at, SomeEntry};

use crate::const_type::ConstType;
use crate::const_value::ConstValue;
use fidl_named::{DeclarationId, Meaning};
use std::alloc::{AllocError, Global};

/// A value and the type that it has of its own: of a constant its type, of a member its bits or
/// enum.
#[derive(Drop)]
pub struct Entry {
    pub own: ConstType,
    pub value: ConstValue,
}

/// How long the strings of an alias may be, and whether the word `optional` is among its
/// constraints.
#[derive(Clone, Copy, Drop)]
pub struct Limits {
    pub greatest: Option<u64>,
    pub optional: bool,
}

/// The values of the constants and members of a set of files, as `fidl_const::evaluate` finds them.
/// Declarations and members have numbers: a declaration's own, and then those of its members.
#[derive(Drop)]
pub struct Consts {
    /// For each file the numbers of its declarations.
    pub starts: Vec<Vec<usize>>,
    /// The values by these numbers.
    pub values: Vec<Option<Entry>>,
    /// The limits of aliases of strings, by these numbers.
    pub limits: Vec<Option<Limits>>,
}

/// The number of the declaration of an id.
fn declaration_number(starts: &[Vec<usize>], id: DeclarationId) -> usize
    ensures { result ≡ number_of starts.now (meaning.Declared id) }
{
    match starts.get(id.file) {
        None => 0,
        Some(row) => match row.get(id.index) {
            None => 0,
            Some(start) => *start,
        },
    }
}

/// The number of a declaration or a member.
pub fn node_number(starts: &[Vec<usize>], meaning: Meaning) -> usize
    requires { number_of starts.now meaning < 2 ^ 64 }
    ensures { result ≡ number_of starts.now meaning }
{
    match meaning {
        Meaning::Declared(id) => declaration_number(starts, id),
        Meaning::Member { of, number } => declaration_number(starts, of) + 1 + number,
        Meaning::Predeclared(_) | Meaning::PropertyMember { .. } => 0,
    }
}

/// The number of a declaration or a member, if no member's number reaches this count.
fn number_below(starts: &[Vec<usize>], meaning: Meaning, count: usize) -> Option<usize>
    ensures found { IfSome result (λ n. n ≡ number_of starts.now meaning) }
    ensures none { IsNone result → count ≤ number_of starts.now meaning }
{
    match meaning {
        Meaning::Declared(id) => Some(declaration_number(starts, id)),
        Meaning::Member { of, number } => {
            let start = declaration_number(starts, of);
            if start < count && number < count - start {
                Some(start + 1 + number)
            } else {
                None
            }
        }
        Meaning::Predeclared(_) | Meaning::PropertyMember { .. } => Some(0),
    }
}

impl Entry {
    /// A copy.
    fn copy(&self, alloc: Global) -> Result<Entry, AllocError>
        ensures own { IfOk result (λ copy. copy.own ≡ self.now.own) }
        ensures value { IfOk result (λ copy. seen copy.value ≡ seen self.now.value) }
    {
        Ok(Entry {
            own: self.own,
            value: self.value.copy(alloc)?,
        })
    }
}

impl Consts {
    /// The value that the table has of a constant or a member.
    pub fn value(&self, alloc: Global, meaning: Meaning) -> Result<Option<Entry>, AllocError>
        ensures found { IfOk result (λ found. IfSome found
            (λ e. SomeEntry (value_at self.now (number_of self.now.starts.items meaning)) e.own
            (seen e.value))) }
        ensures none { IfOk result (λ found. IsNone found
            → value_at self.now (number_of self.now.starts.items meaning) ≡ None) }
    {
        let Some(number) = number_below(&self.starts, meaning, self.values.len()) else {
            return Ok(None);
        };
        match self.values.get(number) {
            Some(Some(entry)) => Ok(Some(entry.copy(alloc)?)),
            _ => Ok(None),
        }
    }

    /// The limits that the table has of an alias of strings.
    pub fn limits(&self, id: DeclarationId) -> Option<Limits>
        ensures { result ≡ limits_at self.now (number_of self.now.starts.items
            (meaning.Declared id)) }
    {
        match self.limits.get(declaration_number(&self.starts, id)) {
            Some(limits) => *limits,
            None => None,
        }
    }
}
