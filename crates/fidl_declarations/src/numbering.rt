//! The forms of files: layouts, results and empty responses, numbered in the order of the sources.
ghost use Rattle.std.specs.Prelude.{◌≡◌, ◌++◌, map, flat_map, length, IfOk, OnOk};
ghost use Rattle.fidl_tree.specs.Views.{body_view, file_view};
ghost use Rattle.fidl_declarations.specs.Forms.{layout_kinds, form_at, site_forms, file_forms};
ghost use Rattle.fidl_declarations.specs.Forms.{forms_from};
ghost use Rattle.fidl_declarations.specs.SiteViews.{site_view, sites_view};
ghost use Rattle.fidl_declarations.specs.FormViews.{forms_view};

use crate::declarations::file_sites;
use crate::form::{Form, FormKind};
use crate::site::Site;
use crate::step::Step;
use crate::walk::copy;
use fidl_named::Named;
use fidl_tree::{File, LayoutBody};
use std::alloc::{AllocError, Global};

/// The forms that a layout makes.
fn push_layout_forms<'f, 's>(
    forms: &mut Vec<Form<'f, 's>>,
    file_index: usize,
    file: &'f File<'s>,
    path: &Vec<Step>,
    body: &'f LayoutBody,
) -> Result<(), AllocError>
    ensures { OnOk result (forms_view forms.new.items ≡ forms_view forms.old.items
        ++ map (form_at file_index (file_view file.now) path.now.items)
        (layout_kinds (body_view body.now))) }
{
    forms.push(Form {
        file_index,
        file,
        path: copy(path)?,
        kind: FormKind::Layout {
            body,
            optional: false,
        },
    })?;
    if let LayoutBody::Union(_) = body {
        forms.push(Form {
            file_index,
            file,
            path: copy(path)?,
            kind: FormKind::Layout {
                body,
                optional: true,
            },
        })?;
    }
    Ok(())
}

/// The forms that a site makes.
fn push_site_forms<'f, 's>(
    forms: &mut Vec<Form<'f, 's>>,
    file_index: usize,
    file: &'f File<'s>,
    site: &Site<'f>,
) -> Result<(), AllocError>
    ensures { OnOk result (forms_view forms.new.items ≡ forms_view forms.old.items
        ++ site_forms file_index (file_view file.now) (site_view site.now)) }
{
    let (path, kind) = match site {
        Site::Layout { path, body } => {
            return push_layout_forms(forms, file_index, file, path, body);
        }
        Site::Result {
            path,
            strict,
            response,
        } => {
            let strict = *strict;
            (path, FormKind::Result { strict, response })
        }
        Site::EmptyResponse { path } => (path, FormKind::EmptyResponse),
        Site::Named { .. } | Site::Written { .. } | Site::Attributes { .. } => return Ok(()),
    };
    forms.push(Form {
        file_index,
        file,
        path: copy(path)?,
        kind,
    })?;
    Ok(())
}

/// The forms that sites make.
fn push_sites_forms<'f, 's>(
    forms: &mut Vec<Form<'f, 's>>,
    file_index: usize,
    file: &'f File<'s>,
    sites: &[Site<'f>],
) -> Result<(), AllocError>
    ensures { OnOk result (forms_view forms.new.items ≡ forms_view forms.old.items
        ++ flat_map (site_forms file_index (file_view file.now)) (sites_view sites.now)) }
{
    for site in sites {
        push_site_forms(forms, file_index, file, site)?;
    }
    Ok(())
}

/// The forms of the file of this number.
fn push_file_forms<'f, 's>(
    forms: &mut Vec<Form<'f, 's>>,
    alloc: Global,
    file_index: usize,
    file: &'f File<'s>,
) -> Result<(), AllocError>
    ensures { OnOk result (forms_view forms.new.items ≡ forms_view forms.old.items
        ++ file_forms file_index (file_view file.now)) }
{
    let sites = file_sites(alloc, file)?;
    push_sites_forms(forms, file_index, file, &sites)
}

/// All forms of the files, numbered from 0 by their places in this list: each layout, each union
/// once more for where it may be absent, each union in which a method answers, and each empty
/// struct in one, in the order of the sources.
///
/// `AllocError`: memory ran out.
pub fn forms<'f, 's>(alloc: Global, named: &Named<'f, 's>) -> Result<Vec<Form<'f, 's>>, AllocError>
    ensures ok { IfOk result (λ found. forms_view found.items
        ≡ forms_from 0 (map file_view named.now)) }
{
    let mut forms = Vec::new(alloc);
    for file_index in 0..named.count() {
        push_file_forms(&mut forms, alloc, file_index, named.file(file_index))?;
    }
    Ok(forms)
}
