//! What is reported of a refusal.
ghost use Rattle.std.specs.Prelude.{◌≡◌};
ghost use Rattle.std.specs.Option.{option_map};
ghost use Rattle.fidl_compile.specs.Reports.{reported, report_of};

use crate::fault::CompileFault;
use fidl_names::Place;

/// What is reported of sources that are refused: the stage that refuses them, the fault's number
/// and name, and its place, which is a source by the number of those before it, and a span in it in
/// bytes.
#[derive(Clone, Copy, Debug, PartialEq, Eq, Drop)]
pub struct Refusal {
    pub stage: &'static str,
    pub number: u32,
    pub name: &'static str,
    pub place: Place,
}

impl CompileFault {
    /// What is reported of this fault; None where memory ran out.
    pub fn refusal(&self) -> Option<Refusal>
        ensures { option_map reported result ≡ report_of self.now }
    {
        let (stage, number, name, place) = match self {
            CompileFault::Lex { file, fault } => {
                let span = fault.span()?;
                let place = Place { file: *file, span };
                ("lex", fault.number(), fault.name(), place)
            }
            CompileFault::Parse { file, fault } => {
                let span = fault.span()?;
                let place = Place { file: *file, span };
                ("parse", fault.number(), fault.name(), place)
            }
            CompileFault::Names { fault } => {
                ("names", fault.number(), fault.name(), fault.place()?)
            }
            CompileFault::Const { fault } => {
                ("const", fault.number(), fault.name(), fault.place()?)
            }
            CompileFault::Types { fault } => {
                ("types", fault.number(), fault.name(), fault.place()?)
            }
            CompileFault::Layout { fault } => {
                ("layout", fault.number(), fault.name(), fault.place()?)
            }
            CompileFault::Protocol { fault } => {
                ("protocol", fault.number(), fault.name(), fault.place()?)
            }
            CompileFault::Memory => return None,
        };
        Some(Refusal {
            stage,
            number,
            name,
            place,
        })
    }
}
