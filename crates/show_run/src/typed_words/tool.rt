// What the words show, one after another.
ghost use Rattle.std.specs.Prelude.{◌≡◌, ◌<◌, ◌^◌, length, OnOk};
ghost use Rattle.session_text.specs.Canonical.{IsLawful};
ghost use Rattle.show_run.specs.TypedWords.Runs.{IsRun};

use crate::no_machines::{TOO_LONG, no_boot, refused};
use crate::typed_words::addresses::address_digits;
use crate::typed_words::backs::go_back;
use crate::typed_words::backtraces::push_backtrace;
use crate::typed_words::breaks::{Change, change_at};
use crate::typed_words::calls::{finish, step_over};
use crate::typed_words::cases::Case;
use crate::typed_words::debuggees::Debuggee;
use crate::typed_words::fields::{first_field, joined_fields, next_field, second_field, trimmed};
use crate::typed_words::help::HELP;
use crate::typed_words::lines::obey;
use crate::typed_words::listed_words::{push_words, word_digits};
use crate::typed_words::requests::{Request, request_of};
use crate::typed_words::sentences::push_said;
use crate::typed_words::tasks::push_all_flags;
use crate::typed_words::words::{Word, needs_more, word_named};
use crate::typed_words::writers::{go_to_write, tell_writer};
use debugger::Breakpoints;
use module_text::{TextEnd, split_line};
use program_places::{ProgramMap, read_map};
use run_names::known_programs;
use session_text::{BootEnd, read_front};
use std::alloc::{AllocError, Global};
use tool_bundles::{BundleEnd, read_bundle};
use tool_texts::Said::{Bytes, Number};
use tool_texts::{Lent, ToolText, push_sentence};
use tripos_machine::boot;

/// What the words of a bundle show of a session, one after another. The bundle has the session, its map or the word `-`, and the words, a
/// line each, and then the files that the map names. Of more words it gives more: what it gives of the first words comes first. Where the
/// session is refused or does not boot, something is wrong: the first line is `* 3`, and the second is the one with which the debugger ends then.
/// Where the bundle is wrong, the first line is `* 2`.
pub(crate) fn debugged_words(alloc: Global, text: &[u8]) -> Result<ToolText, AllocError> {
    let entries = match read_bundle(alloc, text) {
        Ok(entries) => entries,
        Err(BundleEnd::NoBundle) => return wrong_bundle(alloc),
        Err(BundleEnd::WantMemory) => return Err(AllocError),
    };
    match request_of(entries.as_slice()) {
        Some(request) => debugged_request(alloc, request),
        None => wrong_bundle(alloc),
    }
}

fn wrong_bundle(alloc: Global) -> Result<ToolText, AllocError> {
    Ok(ToolText {
        is_wrong: true,
        bytes: Vec::from_slice(
            alloc,
            b"* 2\ndebug: the input is no bundle of a session, a map and words\n",
        )?,
    })
}

// What the words of a request show. Lines of the debugger in the session itself are not done.
fn debugged_request(alloc: Global, request: Request) -> Result<ToolText, AllocError> {
    let text = request.session.bytes();
    if text.len() >= TOO_LONG {
        return Err(AllocError);
    }
    match read_front(alloc, text) {
        Ok(front) => {
            let map = map_of(alloc, &request)?;
            let programs = known_programs(alloc, &front.session)?;
            let case = Case {
                session: front.session,
                programs,
                path: request.path.again(),
                map,
                sources: request.sources,
            };
            debugged_case(alloc, &case, request.words.bytes())
        }
        Err(TextEnd::Bad { line, code }) => refused(alloc, line, code),
        Err(TextEnd::WantMemory) => Err(AllocError),
    }
}

// The map of a request. One that cannot be read has no lines.
fn map_of<'a>(alloc: Global, request: &Request<'a>) -> Result<Option<ProgramMap<'a>>, AllocError> {
    match &request.map {
        Some(text) => map_read(alloc, text.bytes()),
        None => Ok(None),
    }
}

fn map_read<'a>(alloc: Global, text: &'a [u8]) -> Result<Option<ProgramMap<'a>>, AllocError> {
    if text.len() >= TOO_LONG {
        return Err(AllocError);
    }
    match read_map(alloc, text) {
        Ok(map) => Ok(Some(map)),
        Err(TextEnd::Bad { .. }) => Ok(Some(ProgramMap::new(alloc))),
        Err(TextEnd::WantMemory) => Err(AllocError),
    }
}

// What words show of a session.
fn debugged_case(alloc: Global, case: &Case, words: &[u8]) -> Result<ToolText, AllocError>
    requires { IsLawful case.now.session }
{
    match boot(alloc, &case.session) {
        Ok(machine) => {
            let mut debuggee = Debuggee {
                machine,
                stops: Breakpoints::new(),
                lines: Vec::new(alloc),
            };
            Ok(ToolText {
                is_wrong: false,
                bytes: shown_words(alloc, case, &mut debuggee, words)?,
            })
        }
        Err(BootEnd::Line { line, code }) => no_boot(alloc, line, code),
        Err(BootEnd::WantMemory) => Err(AllocError),
    }
}

// What the words show, up to the end or the word `quit`.
fn shown_words(
    alloc: Global,
    case: &Case,
    debuggee: &mut Debuggee,
    words: &[u8],
) -> Result<Vec<u8>, AllocError>
    requires lawful { IsLawful case.now.session }
    requires run { IsRun case.now.session debuggee.old.machine.state }
{
    let mut text = Vec::new(alloc);
    let mut rest = words;
    while let Some((line, others)) = split_line(rest) {
        if is_quit(line) {
            push_echo(&mut text, line)?;
            return Ok(text);
        }
        do_line(alloc, case, debuggee, line, &mut text)?;
        rest = others;
    }
    Ok(text)
}

// Whether the first word of a line is the end.
fn is_quit(line: &[u8]) -> bool {
    match first_field(line) {
        Some(name) => matches!(word_named(name), Word::Quit),
        None => false,
    }
}

// Shows a line as it was written.
fn push_echo(text: &mut Vec<u8>, line: &[u8]) -> Result<(), AllocError> {
    push_sentence(text, &[Bytes(b"> "), Bytes(trimmed(line)), Bytes(b"\n")])
}

// Does a line of words, if it has one.
fn do_line(
    alloc: Global,
    case: &Case,
    debuggee: &mut Debuggee,
    line: &[u8],
    text: &mut Vec<u8>,
) -> Result<(), AllocError>
    requires lawful { IsLawful case.now.session }
    requires run { IsRun case.now.session debuggee.old.machine.state }
    ensures { OnOk result (IsRun case.now.session debuggee.new.machine.state) }
{
    let Some((name, rest)) = next_field(line) else {
        return Ok(());
    };
    push_echo(text, line)?;
    let word = word_named(name);
    if needs_more(word) {
        return match first_field(rest) {
            Some(place) => do_word_at(alloc, case, debuggee, word, place, rest, text),
            None => push_missing(text, name),
        };
    }
    match word {
        Word::Line => do_debug_line(alloc, case, debuggee, line, text),
        Word::Unknown => push_unknown(text, name),
        _ => do_word(alloc, case, debuggee, word, rest, text),
    }
}

fn push_missing(text: &mut Vec<u8>, name: &[u8]) -> Result<(), AllocError> {
    push_said(
        text,
        &[
            Bytes(b"after "),
            Bytes(name),
            Bytes(b" something is missing; h shows all words"),
        ],
    )
}

fn push_unknown(text: &mut Vec<u8>, name: &[u8]) -> Result<(), AllocError> {
    push_said(
        text,
        &[
            Bytes(b"there is no word "),
            Bytes(name),
            Bytes(b"; h shows all"),
        ],
    )
}

// Does a line of the debugger.
fn do_debug_line(
    alloc: Global,
    case: &Case,
    debuggee: &mut Debuggee,
    line: &[u8],
    text: &mut Vec<u8>,
) -> Result<(), AllocError>
    requires lawful { IsLawful case.now.session }
    requires run { IsRun case.now.session debuggee.old.machine.state }
    ensures { OnOk result (IsRun case.now.session debuggee.new.machine.state) }
{
    let line = joined_fields(alloc, line)?;
    obey(alloc, case, debuggee, line.as_slice(), text)?;
    Ok(())
}

// Does a line of the debugger that begins with this, and ends with a word.
fn obey_with(
    alloc: Global,
    case: &Case,
    debuggee: &mut Debuggee,
    before: &[u8],
    word: &[u8],
    text: &mut Vec<u8>,
) -> Result<(), AllocError>
    requires lawful { IsLawful case.now.session }
    requires run { IsRun case.now.session debuggee.old.machine.state }
    ensures { OnOk result (IsRun case.now.session debuggee.new.machine.state) }
{
    let mut line = Vec::new(alloc);
    push_sentence(&mut line, &[Bytes(before), Bytes(word)])?;
    obey(alloc, case, debuggee, line.as_slice(), text)?;
    Ok(())
}

// Does a word that needs one after it.
fn do_word_at(
    alloc: Global,
    case: &Case,
    debuggee: &mut Debuggee,
    word: Word,
    place: &[u8],
    rest: &[u8],
    text: &mut Vec<u8>,
) -> Result<(), AllocError>
    requires lawful { IsLawful case.now.session }
    requires run { IsRun case.now.session debuggee.old.machine.state }
    ensures { OnOk result (IsRun case.now.session debuggee.new.machine.state) }
{
    match word {
        Word::Break => change_at(alloc, case, debuggee, Change::Set, place, text),
        Word::Unbreak => change_at(alloc, case, debuggee, Change::Removed, place, text),
        Word::Queue => obey_with(alloc, case, debuggee, b"QUEUE ", place, text),
        _ => do_word_on(alloc, case, debuggee, word, place, rest, text),
    }
}

// Does a word on a word of the store.
fn do_word_on(
    alloc: Global,
    case: &Case,
    debuggee: &mut Debuggee,
    word: Word,
    place: &[u8],
    rest: &[u8],
    text: &mut Vec<u8>,
) -> Result<(), AllocError>
    requires lawful { IsLawful case.now.session }
    requires run { IsRun case.now.session debuggee.old.machine.state }
    ensures { OnOk result (IsRun case.now.session debuggee.new.machine.state) }
{
    let Some(digits) = word_digits(alloc, case, &debuggee.machine, place, text)? else {
        return Ok(());
    };
    let digits = digits.as_slice();
    match word {
        Word::NextWrite => go_to_write(alloc, case, debuggee, digits, text),
        Word::LastWrite => tell_writer(alloc, case, debuggee, digits, text),
        _ => {
            let count = second_field(rest).unwrap_or(b"1");
            push_words(alloc, &debuggee.machine, digits, count, text)
        }
    }
}

// Does a word that needs none after it.
fn do_word(
    alloc: Global,
    case: &Case,
    debuggee: &mut Debuggee,
    word: Word,
    rest: &[u8],
    text: &mut Vec<u8>,
) -> Result<(), AllocError>
    requires lawful { IsLawful case.now.session }
    requires run { IsRun case.now.session debuggee.old.machine.state }
    ensures { OnOk result (IsRun case.now.session debuggee.new.machine.state) }
{
    match word {
        Word::Step => {
            let count = first_field(rest).unwrap_or(b"1");
            obey_with(alloc, case, debuggee, b"STEP ", count, text)
        }
        Word::Back => {
            let count = first_field(rest).unwrap_or(b"1");
            go_back(alloc, case, debuggee, count, text)
        }
        Word::Over => step_over(alloc, case, debuggee, text),
        Word::Finish => finish(alloc, case, debuggee, text),
        Word::Continue => obey_with(alloc, case, debuggee, b"CONT", b"", text),
        Word::Registers => obey_with(alloc, case, debuggee, b"REGS", b"", text),
        Word::List => list(alloc, case, debuggee, rest, text),
        Word::Tasks => {
            obey_with(alloc, case, debuggee, b"TASKS", b"", text)?;
            push_all_flags(text, &debuggee.machine)
        }
        Word::Blocks => obey_with(alloc, case, debuggee, b"BLOCKS", b"", text),
        Word::Backtrace => push_backtrace(alloc, case, debuggee, text),
        Word::Help => push_sentence(text, &[Bytes(HELP)]),
        // these are done before, or need a word
        Word::Quit
        | Word::Line
        | Word::Unknown
        | Word::Break
        | Word::Unbreak
        | Word::NextWrite
        | Word::LastWrite
        | Word::Words
        | Word::Queue => Ok(()),
    }
}

// Adds the debugger's line that lists so many instructions from an address on.
fn push_listing<'t>(
    line: &mut Vec<u8>,
    address: &'t [u8],
    count: &'t [u8],
) -> Result<(), AllocError> {
    push_sentence(
        line,
        &[Bytes(b"DIS "), Bytes(address), Bytes(b" "), Bytes(count)],
    )
}

// Shows the listing from a place on, or from the next instruction on.
fn list(
    alloc: Global,
    case: &Case,
    debuggee: &mut Debuggee,
    rest: &[u8],
    text: &mut Vec<u8>,
) -> Result<(), AllocError>
    requires lawful { IsLawful case.now.session }
    requires run { IsRun case.now.session debuggee.old.machine.state }
    ensures { OnOk result (IsRun case.now.session debuggee.new.machine.state) }
{
    let mut line = Vec::new(alloc);
    match first_field(rest) {
        Some(place) => {
            let Some(digits) = address_digits(alloc, case, &debuggee.machine, place, text)? else {
                return Ok(());
            };
            let count = second_field(rest).unwrap_or(b"10");
            push_listing(&mut line, digits.as_slice(), count)?;
        }
        None => {
            let pc = debuggee.machine.regs().pc;
            push_sentence(
                &mut line,
                &[Bytes(b"DIS "), Number(u64::from(pc)), Bytes(b" 10")],
            )?;
        }
    }
    obey(alloc, case, debuggee, line.as_slice(), text)?;
    Ok(())
}
