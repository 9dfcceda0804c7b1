// What bundles ask for, and what is told where they have no answer.
ghost use Rattle.std.specs.Prelude.{◌≡◌, ℕ, List, true, Ok, Some, option_map, IfErr, IfOk};
ghost use Rattle.module_text.specs.Canonical.{IsPrintable};
ghost use Rattle.module_text.specs.ModuleOfText.{module_of};
ghost use Rattle.tool_bundles.specs.Bundles.{bundle_of};
ghost use Rattle.module_code.specs.ReadBack.{HasCause, IsUnread, IsWrong, asked_by, asked_in, names_text};

use module_text::{Module, TextEnd, read_module};
use std::alloc::{AllocError, AllocFailed, Global};
use tool_bundles::{BundleEnd, Entry, read_bundle};
use tool_texts::Said::{Bytes, Number};
use tool_texts::{Lent, Said, ToolText, push_sentence};

/// A text of so many bytes, or more, is not read: it gets no memory.
const TOO_LONG: usize = 1 << 30;

/// Why a bundle has no answer.
#[derive(Clone, Copy)]
pub enum NoAnswer {
    /// It is no bundle of names and modules.
    NoRequest,
    /// The text of a module is none.
    NoModule {
        /// Which module it is, from 0.
        module: usize,
        /// The first line in error, from 1.
        line: u32,
        /// Its code.
        code: u32,
    },
    /// Memory could not be had.
    WantMemory,
}

impl From<AllocError> for NoAnswer {
    ghost use Rattle.std.specs.Prelude.{◌≡◌};
    ghost use Rattle.module_code.specs.declared.requests.NoAnswer.TheVariants.{WantMemory};

    ghost from_gives = { λ _ e. e ≡ WantMemory };

    fn from(_: AllocError) -> NoAnswer {
        NoAnswer::WantMemory
    }
}

impl<T: Drop> From<AllocFailed<T>> for NoAnswer {
    ghost use Rattle.std.specs.Prelude.{◌≡◌};
    ghost use Rattle.module_code.specs.declared.requests.NoAnswer.TheVariants.{WantMemory};

    ghost from_gives = { λ _ e. e ≡ WantMemory };

    fn from(_: AllocFailed<T>) -> NoAnswer {
        NoAnswer::WantMemory
    }
}

/// A module with what it is called.
#[derive(Clone, Copy)]
pub struct NamedModule<'a> {
    /// What it is called.
    pub name: &'a [u8],
    /// Its text.
    pub text: &'a [u8],
}

/// What is asked for: a list of names, and modules.
#[derive(Drop)]
pub struct Request<'a> {
    /// The names of globals, a line each; nothing where there are none.
    pub names: &'a [u8],
    /// The modules.
    pub modules: Vec<NamedModule<'a>>,
}

/// One module that is asked for.
#[derive(Drop)]
pub struct Asked<'a> {
    /// The names of globals, a line each.
    pub names: Lent<'a>,
    /// The text of the module.
    pub text: Lent<'a>,
}

/// The text of the one module that a bundle asks for, and that of the names.
pub fn asked_of(alloc: Global, bundle: &[u8]) -> Result<Asked<'_>, NoAnswer>
    ensures value { IfOk result (λ asked. asked_in bundle.now ≡ Some asked.text) }
    ensures cause { IfErr result (HasCause bundle.now) }
{
    let entries = entries_of(alloc, bundle)?;
    asked_by(entries.as_slice()).ok_or(NoAnswer::NoRequest)
}

// The same of words.
fn asked_by<'a>(entries: &[Entry<'a>]) -> Option<Asked<'a>>
    ensures { option_map (λ asked. asked.text) result ≡ asked_by entries.now }
{
    match entries {
        [names, module] => {
            let text = module.file()?;
            let names = names_of(names)?;
            Some(Asked { names, text })
        }
        _ => None,
    }
}

/// What a bundle asks for. Its first word is a file of names, or `-`; each other one is a module.
pub fn request_of(alloc: Global, bundle: &[u8]) -> Result<Request<'_>, NoAnswer> {
    let entries = entries_of(alloc, bundle)?;
    let [first, others @ ..] = entries.as_slice() else {
        return Err(NoAnswer::NoRequest);
    };
    let mut request = Request {
        names: names_of(first).ok_or(NoAnswer::NoRequest)?.bytes(),
        modules: Vec::new(alloc),
    };
    for entry in others {
        let text = entry.file().ok_or(NoAnswer::NoRequest)?;
        request.modules.push(NamedModule {
            name: entry.word.bytes(),
            text: text.bytes(),
        })?;
    }
    Ok(request)
}

// The words of a bundle.
fn entries_of(alloc: Global, bundle: &[u8]) -> Result<Vec<Entry<'_>>, NoAnswer>
    ensures value { IfOk result (λ v. bundle_of bundle.now ≡ Some v.items) }
    ensures cause { IfErr result (HasCause bundle.now) }
{
    match read_bundle(alloc, bundle) {
        Ok(entries) => Ok(entries),
        Err(BundleEnd::NoBundle) => Err(NoAnswer::NoRequest),
        Err(BundleEnd::WantMemory) => Err(NoAnswer::WantMemory),
    }
}

// The text of the names: of the file that a word names, or nothing where the word is `-`; `None` where it is neither.
fn names_of<'a>(entry: &Entry<'a>) -> Option<Lent<'a>>
    ensures { result ≡ names_text entry.now }
{
    if entry.word.bytes() == b"-".as_slice() {
        return Some(Lent::new(&[]));
    }
    entry.file()
}

/// The module of a text, which is this one of those that are asked for.
pub fn module_of(alloc: Global, module: usize, text: &[u8]) -> Result<Module, NoAnswer>
    ensures value { IfOk result (λ m. module_of text.now ≡ Ok m) }
    ensures printable { IfOk result IsPrintable }
    ensures cause { IfErr result (IsUnread text.now) }
{
    if text.len() >= TOO_LONG {
        return Err(NoAnswer::WantMemory);
    }
    match read_module(alloc, text) {
        Ok(read) => Ok(read),
        Err(TextEnd::Bad { line, code }) => Err(NoAnswer::NoModule { module, line, code }),
        Err(TextEnd::WantMemory) => Err(NoAnswer::WantMemory),
    }
}

/// What the tool of a script gives where a bundle has no answer. `AllocError` comes where memory could not be had, before or now.
pub fn told_end(alloc: Global, script: &[u8], end: NoAnswer) -> Result<ToolText, AllocError>
    ensures wrong { IfOk result (λ t. t.is_wrong ≡ true) }
    ensures cause { (bundle : List ℕ) → HasCause bundle end → IfOk result (λ _. IsWrong bundle) }
{
    match end {
        NoAnswer::NoRequest => wrong(
            alloc,
            &[
                Bytes(script),
                Bytes(b": the input is no bundle of names and modules\n"),
            ],
        ),
        NoAnswer::NoModule { module, line, code } => wrong(
            alloc,
            &[
                Bytes(script),
                Bytes(b": module "),
                Number((module as u64).saturating_add(1)),
                Bytes(b" is refused: line "),
                Number(u64::from(line)),
                Bytes(b" code "),
                Number(u64::from(code)),
                Bytes(b"\n"),
            ],
        ),
        NoAnswer::WantMemory => Err(AllocError),
    }
}

// What is wrong, after the status.
fn wrong(alloc: Global, parts: &[Said]) -> Result<ToolText, AllocError>
    ensures { IfOk result (λ t. t.is_wrong ≡ true) }
{
    let mut bytes = Vec::new(alloc);
    push_sentence(&mut bytes, &[Bytes(b"* 2\n")])?;
    push_sentence(&mut bytes, parts)?;
    Ok(ToolText {
        is_wrong: true,
        bytes,
    })
}
