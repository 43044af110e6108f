//! Examples: what a snippet looks like, and what is near, computed by the definitions.
ghost use Rattle.std.specs.Prelude.{◌≡◌, codes};
ghost use Rattle.fidl_hints.specs.Snippets.{snippet_text, shown};
ghost use Rattle.fidl_hints.specs.Nearest.{compared};

/// The caret stands under the place, also behind a tab; it does not stand one column before it.
pub fn the_caret_is_under_the_place()
    ensures at { snippet_text (codes "library t;\n\tusing x;\n") 18 (codes "note")
        ≡ codes "     using x;\n           ^ note\n" }
    ensures left { ¬ (snippet_text (codes "library t;\n\tusing x;\n") 17 (codes "note")
        ≡ codes "     using x;\n           ^ note\n") }
{}

/// At the end of a source the caret follows the last line.
pub fn the_caret_is_behind_the_last_line()
    ensures { snippet_text (codes "a\nbc") 9 (codes "n") ≡ codes "    bc\n      ^ n\n" }
{}

/// A tab and a carriage return are blanks, and other bytes that are not printable are `?`.
pub fn bytes_take_one_column()
    ensures blanks { (shown 9 ≡ 32) × (shown 13 ≡ 32) }
    ensures others { (shown 8 ≡ 63) × (shown 127 ≡ 63) × (shown 195 ≡ 63) }
    ensures plain { (shown 32 ≡ 32) × (shown 126 ≡ 126) }
{}

/// A word without `/` is compared with the last part of a name, another with all of it.
pub fn parts_that_are_compared()
    ensures part { compared (codes "Entri") (codes "demo/Entry") ≡ codes "Entry" }
    ensures whole { compared (codes "demo/Entr") (codes "demo/Entry") ≡ codes "demo/Entry" }
{}
