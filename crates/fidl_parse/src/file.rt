// A source file, from its library's declaration on.
ghost use Rattle.std.specs.Prelude.{◌≡◌, ◌↔◌, IsTrue, codes, IfOk, OnOk, ◌<◌, ◌≤◌, length};
ghost use Rattle.fidl_tree.specs.Leaf.{optional};
ghost use Rattle.fidl_tree.specs.Attribute.{attributes_leaves};
ghost use Rattle.fidl_tree.specs.File.{file_leaves, library_leaves, import_leaves};
ghost use Rattle.fidl_tree.specs.File.{import_alias_leaves};
ghost use Rattle.fidl_parse.specs.Reading.{Reads, ReadsBehind, IsTextAt};
ghost use Rattle.fidl_parse.specs.Completeness.{Finds};
ghost use Rattle.fidl_parse.specs.FollowSets.{Anything, IsNothing, Begins};
ghost use Rattle.fidl_parse.specs.Suffixes.{import_behind_attributes};
ghost use Rattle.fidl_span.specs.declared.words.WordKind.TheVariants as kind;

use crate::fault::Stop;
use crate::parser::Parser;
use fidl_span::WordKind;
use fidl_tree::{Attribute, Declaration, File, Import, ImportAlias, Library};

impl<'w, 's> Parser<'w, 's> {
    /// The file that all words are. The imports end where a declaration begins.
    pub(crate) fn file(&self, at: &mut usize) -> Result<File<'s>, Stop>
        ensures source { IfOk result (λ file. file.src.now ≡ self.now.src.now) }
        ensures reads { IfOk result (λ file. Reads self.now at.old at.new (file_leaves file)) }
        ensures complete { Finds self.now at.old at.new file_leaves IsNothing result }
        ensures whole { OnOk result (length self.now.words.now ≤ at.new) }
    {
        let library = self.library(at)?;
        let mut imports = Vec::new(self.alloc);
        let mut declarations = Vec::new(self.alloc);
        while *at < self.words.len() {
            let attributes = self.attributes(at)?;
            if self.begins_import(&declarations, *at) {
                imports.push(self.import(attributes, at)?)?;
            } else {
                declarations.push(self.declaration(attributes, at)?)?;
            }
        }
        Ok(File {
            src: self.src,
            library,
            imports,
            declarations,
        })
    }

    /// Whether an import stands next: behind a declaration none does.
    fn begins_import(&self, declarations: &Vec<Declaration>, at: usize) -> bool
        ensures { IsTrue result ↔ (length declarations.now.items ≡ 0) × IsTextAt self.now at
            (codes "using") }
    {
        declarations.is_empty() && self.is_next_word(at, b"using")
    }

    fn library(&self, at: &mut usize) -> Result<Library, Stop>
        ensures reads { IfOk result (λ library. Reads self.now at.old at.new
            (library_leaves library)) }
        ensures complete { Finds self.now at.old at.new library_leaves Anything result }
    {
        let attributes = self.attributes(at)?;
        let keyword = self.keyword(at, b"library")?;
        let path = self.path(at)?;
        let semicolon = self.symbol(at, WordKind::Semicolon)?;
        Ok(Library {
            attributes,
            keyword,
            path,
            semicolon,
        })
    }

    /// The import behind these attributes.
    fn import(&self, attributes: Vec<Attribute>, at: &mut usize) -> Result<Import, Stop>
        ensures reads { IfOk result (λ import. ReadsBehind self.now at.old at.new
            (attributes_leaves attributes.items) (import_leaves import)) }
        ensures complete { Finds self.now at.old at.new import_behind_attributes Anything result }
        ensures forward { OnOk result (at.old < at.new) }
    {
        let keyword = self.keyword(at, b"using")?;
        let path = self.path(at)?;
        let alias = self.import_alias(at)?;
        let semicolon = self.symbol(at, WordKind::Semicolon)?;
        Ok(Import {
            attributes,
            keyword,
            path,
            alias,
            semicolon,
        })
    }

    fn import_alias(&self, at: &mut usize) -> Result<Option<ImportAlias>, Stop>
        ensures reads { IfOk result (λ alias. Reads self.now at.old at.new
            (optional import_alias_leaves alias)) }
        ensures complete { Finds self.now at.old at.new (optional import_alias_leaves)
            (Begins kind.Semicolon) result }
    {
        if !self.is_next_word(*at, b"as") {
            return Ok(None);
        }
        let keyword = self.keyword(at, b"as")?;
        let name = self.name(at)?;
        Ok(Some(ImportAlias { keyword, name }))
    }
}
