// Assembling a text.
ghost use Rattle.std.specs.Prelude.{◌≡◌, ◌<◌, ◌^◌, length, Ok};
ghost use Rattle.module_text.specs.Canonical.{IsPrintable, printed};
ghost use Rattle.module_text.specs.TextReader.Answers.{Gives};
ghost use Rattle.assembly.specs.AssemblyText.Assembly.{assembled, assembly_of};

use crate::assembly_text::encode::encode;
use crate::assembly_text::hunks::hunk_words;
use crate::assembly_text::places::hunk_size;
use crate::assembly_text::sinks::TextSink;
use crate::assembly_text::survey::survey;
use module_text::{Hunk, Hunks, Module, TextEnd, WordList, print_module};
use std::alloc::Global;

/// The module text of the one hunk that the assembly text makes. `Bad` comes exactly where it makes none, with the first
/// bad line, from 1, and the lowest code that applies to it. Codes 4 and 6 come only where no line has another code.
pub fn assemble(alloc: Global, text: &[u8]) -> Result<Vec<u8>, TextEnd>
    requires { length text.now < 2 ^ 32 }
    ensures { Gives (λ bytes. bytes.items) result (assembled text.now) }
{
    let module = assemble_module(alloc, text)?;
    module_text(alloc, &module)
}

// The module of a text.
#[tactic(auto, unfolding(crate::specs::AssemblyText::Assembly::assembly_of))]
fn assemble_module(alloc: Global, text: &[u8]) -> Result<Module, TextEnd>
    requires { length text.now < 2 ^ 32 }
    ensures { Gives (λ m. m) result (assembly_of text.now) }
{
    let known = survey(alloc, text)?;
    let code = encode(alloc, text, &known.labels)?;
    let size = hunk_size(known.offset, known.pairs);
    let words = hunk_words(alloc, &code, size)?;
    let mut hunks = Vec::new(alloc);
    hunks.push(Hunk {
        words: WordList::new(words),
        relocations: WordList::new(code.relocations),
    })?;
    Ok(Module {
        hunks: Hunks::new(hunks),
    })
}

// The printed text of a module.
fn module_text(alloc: Global, m: &Module) -> Result<Vec<u8>, TextEnd>
    requires { IsPrintable m.now }
    ensures { Gives (λ bytes. bytes.items) result (Ok (printed m.now)) }
{
    let mut text = TextSink::new(alloc);
    if print_module(m, &mut text).is_err() {
        return Err(TextEnd::WantMemory);
    }
    Ok(text.bytes)
}
