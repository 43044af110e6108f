//! The numbers of members and of properties, by their names.
ghost use Rattle.std.specs.Prelude.{◌≡◌, ℕ, List};
ghost use Rattle.fidl_named.specs.Constraints.{number_in};
ghost use Rattle.fidl_named.specs.MemberNumbers.{AreNumbers};
ghost use Rattle.fidl_named.specs.NameMaps.{seen};

use indexmap::IndexMap;

/// The numbers of the names in the lists of a declaration.
#[derive(Drop)]
pub struct MemberNumbers {
    /// Of declared bits or a declared enum, or of those that an alias resolves to.
    pub members: IndexMap<Vec<u8>, usize>,
    /// Of the properties of a resource definition.
    pub properties: IndexMap<Vec<u8>, usize>,
    /// For each of its properties, of the bits or the enum with which the type is written.
    pub written: Vec<IndexMap<Vec<u8>, usize>>,
}

/// The number of a name.
pub fn find_number(numbers: &IndexMap<Vec<u8>, usize>, name: &[u8]) -> Option<usize>
    ensures { (names : List (List ℕ)) → AreNumbers names (seen numbers.now.entries)
        → result ≡ number_in names name.now }
{
    numbers.get(name).copied()
}
