//! What has a number, and the name of it.
ghost use Rattle.std.specs.Prelude.{◌≡◌, ◌++◌, ◌∷◌, [], map, flat_map, codes, IfOk, OnOk};
ghost use Rattle.fidl_tree.specs.Views.{file_view, path_view};
ghost use Rattle.fidl_declarations.specs.declared.step.Step.TheVariants as Steps;
ghost use Rattle.fidl_declarations.specs.Forms.{step_text, dotted_step, steps_text, name_by_path};

use crate::step::Step;
use fidl_tree::{File, LayoutBody, Path, Response};
use std::alloc::{AllocError, Global};

/// What is numbered.
#[derive(Clone, Copy, Drop)]
pub enum FormKind<'f> {
    /// A layout. A union is numbered a second time for where it may be absent.
    Layout {
        body: &'f LayoutBody,
        optional: bool,
    },
    /// The union in which a method answers.
    Result {
        strict: bool,
        response: &'f Response,
    },
    /// The empty struct in a result.
    EmptyResponse,
}

/// A layout, a result or an empty response, and where it stands.
#[derive(Drop)]
pub struct Form<'f, 's> {
    pub file_index: usize,
    pub file: &'f File<'s>,
    pub path: Vec<Step>,
    pub kind: FormKind<'f>,
}

/// Appends the text of a step.
fn push_step(text: &mut Vec<u8>, file: &File<'_>, step: Step) -> Result<(), AllocError>
    ensures { OnOk result (text.new.items ≡ text.old.items
        ++ step_text file.now.src.now step) }
{
    match step {
        Step::Name(span) => text.extend_from_slice(file.text(span)),
        Step::Request => text.extend_from_slice(b"request"),
        Step::Response => text.extend_from_slice(b"response"),
        Step::Error => text.extend_from_slice(b"error"),
        Step::Result => text.extend_from_slice(b"result"),
    }
}

/// Appends each step with a dot before it.
fn push_dotted(text: &mut Vec<u8>, file: &File<'_>, steps: &[Step]) -> Result<(), AllocError>
    ensures { OnOk result (text.new.items ≡ text.old.items
        ++ flat_map (dotted_step file.now.src.now) steps.now) }
{
    for step in steps {
        text.push(b'.')?;
        push_step(text, file, *step)?;
    }
    Ok(())
}

/// Appends steps with dots between them.
fn push_steps(text: &mut Vec<u8>, file: &File<'_>, steps: &[Step]) -> Result<(), AllocError>
    ensures { OnOk result (text.new.items ≡ text.old.items
        ++ steps_text file.now.src.now steps.now) }
{
    match steps.split_first() {
        None => Ok(()),
        Some((first, rest)) => {
            push_step(text, file, *first)?;
            push_dotted(text, file, rest)
        }
    }
}

/// The components of a path, as steps.
fn path_steps(alloc: Global, path: &Path) -> Result<Vec<Step>, AllocError>
    ensures { IfOk result (λ steps. steps.items ≡ map Steps.Name (path_view path.now)) }
{
    let mut steps = Vec::new(alloc);
    steps.push(Step::Name(path.first))?;
    for part in &path.rest {
        steps.push(Step::Name(part.name))?;
    }
    Ok(steps)
}

impl<'f, 's> Form<'f, 's> {
    /// The full name: the library's, a slash, and the path with dots between its steps, as
    /// `lib/Foo.bar`.
    ///
    /// `AllocError`: memory ran out.
    pub fn name(&self, alloc: Global) -> Result<Vec<u8>, AllocError>
        ensures { IfOk result (λ text. text.items
            ≡ name_by_path (file_view self.now.file.now) self.now.path.items) }
    {
        let mut text = Vec::new(alloc);
        let library = path_steps(alloc, &self.file.library.path)?;
        push_steps(&mut text, self.file, &library)?;
        text.push(b'/')?;
        push_steps(&mut text, self.file, &self.path)?;
        Ok(text)
    }
}
