//! From sources to trees.
ghost use Rattle.std.specs.Prelude.{◌≡◌, ◌≤◌, IfOk, IfErr, IfNone, IfSome, length, map, take};
ghost use Rattle.fidl_compile.specs.Sources.{ReadsAs, ReadAs};
ghost use Rattle.fidl_compile.specs.declared.fault.CompileFault.TheVariants as faults;
ghost use Rattle.fidl_compile.specs.Stages.{of_lex, of_parse, SourceRefused, NextRefused};

use crate::fault::CompileFault;
use fidl_parse::{ParseFault, parse};
use fidl_span::{LexFault, lex};
use fidl_tree::File;
use std::alloc::Global;

/// The trees of sources, up to the first source that has none.
#[derive(Drop)]
pub(crate) struct Trees<'s> {
    pub files: Vec<File<'s>>,
    /// Why the next source has no tree; None where each source has one.
    pub stop: Option<CompileFault>,
}

/// The fault of a source that has no words.
fn lex_fault(file: usize, fault: LexFault) -> CompileFault
    ensures { result ≡ of_lex file fault }
{
    match fault {
        LexFault::Memory => CompileFault::Memory,
        _ => CompileFault::Lex { file, fault },
    }
}

/// The fault of a source whose words have no tree.
fn parse_fault(file: usize, fault: ParseFault) -> CompileFault
    ensures { result ≡ of_parse file fault }
{
    match fault {
        ParseFault::Memory => CompileFault::Memory,
        _ => CompileFault::Parse { file, fault },
    }
}

/// The tree of a source.
fn read_source<'s>(alloc: Global, file: usize, src: &'s [u8]) -> Result<File<'s>, CompileFault>
    ensures ok { IfOk result (ReadsAs src.now) }
    ensures fault_is_true { IfErr result (SourceRefused src.now file) }
{
    let tokens = match lex(alloc, src) {
        Ok(tokens) => tokens,
        Err(fault) => return Err(lex_fault(file, fault)),
    };
    match parse(alloc, &tokens, src) {
        Ok(tree) => Ok(tree),
        Err(fault) => Err(parse_fault(file, fault)),
    }
}

/// The trees of sources, up to the first that has none.
pub(crate) fn read_sources<'s>(
    alloc: Global,
    sources: &[&'s [u8]],
) -> Result<Trees<'s>, CompileFault>
    ensures read { IfOk result (λ trees. ReadAs
        (take (length trees.files.items) (map (λ s. s.now) sources.now)) trees.files.items) }
    ensures all { IfOk result (λ trees. IfNone trees.stop
        (length trees.files.items ≡ length sources.now)) }
    ensures stop { IfOk result (λ trees. IfSome trees.stop (NextRefused
        (map (λ s. s.now) sources.now) (length trees.files.items))) }
    ensures memory { IfErr result (λ fault. fault ≡ faults.Memory) }
{
    let mut files = Vec::new(alloc);
    for (file, src) in sources.iter().enumerate() {
        match read_source(alloc, file, *src) {
            Ok(tree) => files.push(tree)?,
            Err(fault) => {
                let stop = Some(fault);
                return Ok(Trees { files, stop });
            }
        }
    }
    Ok(Trees { files, stop: None })
}
