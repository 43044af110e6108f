//! Laws of the definitions: the contracts of functions that do nothing.
ghost use Rattle.std.specs.Prelude.{◌≡◌, ◌+◌, length, replicate};
ghost use Rattle.fidl_limits.specs.declared.limits.TheConstants.{MAX_SOURCE_BRACKETS};
ghost use Rattle.fidl_tree.specs.Brackets.{IsWithinLimit, parenthesis};
ghost use Rattle.fidl_tree.specs.Views.{file_view};
ghost use Rattle.fidl_tree.specs.declared.file.File.{File};

/// Sixty-four brackets may be open at once, and sixty-five may not.
pub fn bracket_limit_is_sixty_four()
    ensures number { MAX_SOURCE_BRACKETS ≡ 64 }
    ensures reached { IsWithinLimit (replicate MAX_SOURCE_BRACKETS parenthesis) }
    ensures passed { ¬ IsWithinLimit (replicate (MAX_SOURCE_BRACKETS + 1) parenthesis) }
{}

/// The plain data of a file has its source, and each of its imports and declarations.
pub fn file_views_keep_all()
    ensures source { (f : File) → (file_view f).source ≡ f.src.now }
    ensures imports { (f : File) → length (file_view f).imports ≡ length f.imports.items }
    ensures declarations { (f : File) →
        length (file_view f).declarations ≡ length f.declarations.items }
{}
