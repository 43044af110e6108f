//! What the names of FIDL sources mean, for the crates that ask (docs/language.md, "Names").
//! `fidl_names` finds it out and checks the rules.
#![tactic(auto)]

mod constraint_names;
mod ends;
mod fault;
mod file_scope;
mod file_set;
mod kept_names;
mod meaning;
mod member_numbers;
mod name_texts;
mod named;
mod named_file;
mod paths;
mod place;
mod places;
mod properties;
mod reading;
pub mod spots;
mod type_names;
pub mod worked;
pub mod worked_aliases;

pub use constraint_names::{is_optional, item_meaning, ordinary, path_alone};
pub use ends::{AliasEnd, declared_id, end_of, own_end};
pub use fault::{NameFault, is_memory};
pub use file_scope::{FileScope, SetScope};
pub use file_set::{AddedFile, FileSet, Found, has_declaration};
pub use kept_names::{KeptName, KeptNames};
pub use meaning::{Meaning, Predeclared, Wanted};
pub use member_numbers::MemberNumbers;
pub use name_texts::{full_name, name_span, path_span, path_text};
pub use named::Named;
pub use named_file::NamedFile;
pub use paths::value_paths;
pub use place::{DeclarationId, Place, PropertyId};
pub use places::{NamePlace, items, name_places};
pub use reading::wants_value;
pub use type_names::{find_meaning, read_type, wanted_kind};
