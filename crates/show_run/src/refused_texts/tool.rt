// The errors of the text in a bundle, in words.
ghost use Rattle.std.specs.Prelude.{◌≡◌, ◌<◌, ◌^◌, Some, None, length, IfOk};
ghost use Rattle.tool_texts.specs.Told.{told_of};
ghost use Rattle.show_run.specs.RefusedTexts.Answers.{AreErrors, AreErrorsOf, no_bundle};
ghost use Rattle.show_run.specs.RefusedTexts.Requests.{request_in};

use crate::no_machines::TOO_LONG;
use crate::refused_texts::refusals::text_refusal;
use crate::refused_texts::requests::{Request, request_of};
use std::alloc::{AllocError, Global};
use text_errors::text_errors;
use tool_bundles::{BundleEnd, read_bundle};
use tool_texts::ToolText;

/// What is wrong in the text of a bundle, in words. Its words are the kind of the text, and the name of its file, with its bytes. Nothing is
/// said of a text that the program takes. What is said of another begins with the line and the code of the program's refusal. A bundle
/// of other words is wrong.
pub(crate) fn errors_text(alloc: Global, bundle: &[u8]) -> Result<ToolText, AllocError>
    ensures { IfOk result (λ t. AreErrors bundle.now (told_of t)) }
{
    let entries = match read_bundle(alloc, bundle) {
        Ok(entries) => entries,
        Err(BundleEnd::NoBundle) => return no_bundle(alloc),
        Err(BundleEnd::WantMemory) => return Err(AllocError),
    };
    match request_of(entries.as_slice()) {
        Some(request) => errors_of(alloc, &request),
        None => no_bundle(alloc),
    }
}

fn no_bundle(alloc: Global) -> Result<ToolText, AllocError>
    ensures { IfOk result (λ t. told_of t ≡ no_bundle) }
{
    Ok(ToolText {
        is_wrong: true,
        bytes: Vec::from_slice(
            alloc,
            b"* 2\ntext-errors: the input is no bundle of a kind and a text\n",
        )?,
    })
}

fn errors_of(alloc: Global, request: &Request) -> Result<ToolText, AllocError>
    ensures { IfOk result (λ t. AreErrorsOf (Some request.now) (told_of t)) }
{
    let text = request.text.bytes();
    if text.len() >= TOO_LONG {
        return Err(AllocError);
    }
    let refusal = text_refusal(alloc, request.kind, text)?;
    text_errors(alloc, request.kind, request.name.bytes(), text, refusal)
}
