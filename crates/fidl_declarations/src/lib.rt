//! What stands in the files of libraries: types, layouts with their names by path, attributes
//! (docs/language.md, "Names by path").
#![tactic(auto)]

mod declarations;
mod form;
mod laws;
mod numbering;
mod site;
mod step;
mod walk;
pub mod worked;

pub use declarations::{file_sites, is_strict, layout_keyword};
pub use form::{Form, FormKind};
pub use laws::declarations_keep_their_full_names;
pub use numbering::forms;
pub use site::{Role, Site};
pub use step::Step;
