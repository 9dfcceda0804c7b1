// The modules of programs.
ghost use Rattle.std.specs.Prelude.{◌≡◌, ◌<◌, ◌^◌, length, IfOk};
ghost use Rattle.module_text.specs.Canonical.{IsPrintable, printed};
ghost use Rattle.session_making.specs.Ends.{Gives};
ghost use Rattle.session_making.specs.Modules.{assembled_text, file_bytes, file_module, module_text, plain_text, read_module};

use crate::ends::Hindered;
use crate::wrongs::Wrong;
use assembly::assembly_text::assemble;
use assembly_errors::assembly_errors;
use friendly_assembly::friendly_text;
use module_text::{Module, TextEnd, print_module};
use session_text::Bytes;
use std::alloc::{AllocError, Global};
use text_sinks::TextSink;
use tool_bundles::{Content, Entry};
use tool_texts::Lent;

/// A text of so many bytes, or more, is not read: it gets no memory.
const TOO_LONG: usize = 1 << 30;

/// The module of a program's file.
pub fn file_module<'a>(alloc: Global, file: &Entry<'a>) -> Result<Module, Hindered<'a>>
    ensures value { Gives (λ m. m) result (file_module file.now) }
    ensures printable { IfOk result IsPrintable }
{
    let bytes = file_bytes(file)?;
    let text = module_text(alloc, &file.word, bytes.bytes())?;
    read_module(alloc, &file.word, text.as_slice())
}

/// The bytes of a file.
pub fn file_bytes<'a>(file: &Entry<'a>) -> Result<Lent<'a>, Hindered<'a>>
    ensures { Gives (λ b. b) result (file_bytes file.now) }
{
    match &file.content {
        Content::Bytes(bytes) => Ok(bytes.again()),
        Content::Nothing | Content::Unread => {
            Err(Hindered::Refused(Wrong::NoFile(file.word.again())))
        }
    }
}

// The text of the module of a program: of a module text itself, or of assembly, which may have more forms.
fn module_text<'a>(alloc: Global, path: &Lent<'a>, text: &[u8]) -> Result<Vec<u8>, Hindered<'a>>
    ensures { Gives (λ v. v.items) result (module_text path.now text.now) }
{
    let name = path.bytes();
    if name.ends_with(b".module") {
        return Ok(Vec::from_slice(alloc, text)?);
    }
    if name.ends_with(b".s") {
        let plain = plain_text(alloc, name, text)?;
        return assembled_text(alloc, name, plain.as_slice());
    }
    assembled_text(alloc, name, text)
}

// The plain assembly text of one with more forms.
fn plain_text<'a>(alloc: Global, name: &[u8], text: &[u8]) -> Result<Vec<u8>, Hindered<'a>>
    ensures { Gives (λ v. v.items) result (plain_text name.now text.now) }
{
    let told = friendly_text(alloc, name, text)?;
    if told.is_wrong {
        return Err(Hindered::Refused(Wrong::Program(Bytes::new(told.bytes))));
    }
    Ok(told.bytes)
}

// The text of the module that plain assembly makes.
fn assembled_text<'a>(alloc: Global, name: &[u8], text: &[u8]) -> Result<Vec<u8>, Hindered<'a>>
    ensures { Gives (λ v. v.items) result (assembled_text name.now text.now) }
{
    if text.len() >= TOO_LONG {
        return Err(Hindered::WantMemory);
    }
    match assemble(alloc, text) {
        Ok(module) => Ok(module),
        Err(TextEnd::WantMemory) => Err(Hindered::WantMemory),
        Err(TextEnd::Bad { .. }) => {
            let said = assembly_errors(alloc, name, text)?;
            Err(Hindered::Refused(Wrong::Program(Bytes::new(said.bytes))))
        }
    }
}

// The module of a module text.
fn read_module<'a>(alloc: Global, path: &Lent<'a>, text: &[u8]) -> Result<Module, Hindered<'a>>
    ensures value { Gives (λ m. m) result (read_module path.now text.now) }
    ensures printable { IfOk result IsPrintable }
{
    if text.len() >= TOO_LONG {
        return Err(Hindered::WantMemory);
    }
    match module_text::read_module(alloc, text) {
        Ok(module) => Ok(module),
        Err(TextEnd::WantMemory) => Err(Hindered::WantMemory),
        Err(TextEnd::Bad { line, code }) => {
            let path = path.again();
            Err(Hindered::Refused(Wrong::NoModule { path, line, code }))
        }
    }
}

/// The printed text of a module.
pub fn printed_text(alloc: Global, made: &Module) -> Result<Vec<u8>, AllocError>
    requires { IsPrintable made.now }
    ensures { IfOk result (λ v. v.items ≡ printed made.now) }
{
    let mut text = TextSink::new(alloc);
    match print_module(made, &mut text) {
        Ok(()) => Ok(text.bytes),
        Err(_) => Err(AllocError),
    }
}
