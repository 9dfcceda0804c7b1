// The files of a machine's text.
ghost use Rattle.std.specs.Prelude.{◌≡◌, ◌+◌, ◌-◌, ◌*◌, ◌/◌, ◌<◌, ◌∷◌, ◌++◌, [], drop, length, slice_get, take};
ghost use Rattle.std.specs.Option.{option_to_list};
ghost use Rattle.saved_text.specs.SavedLines.Canonical.{statement_text};
ghost use Rattle.saved_text.specs.SavedLines.Statements.{Bytes};
ghost use Rattle.ram_disc.specs.Disc.{IsDisc, file_named};
ghost use Rattle.byte_streams.specs.Sinks.{FailsBySink, GathersFor};
ghost use Rattle.saved_machine.specs.ImagePrint.Private.Texts.{bytes_text, files_text};

use arrayvec::ArrayVec;
use byte_streams::{Output, Sink, SinkFault};
use module_text::TextBytes;
use ram_disc::{Disc, END_OF_FILES, Name};
use saved_text::saved_lines::{print_bytes, print_file};

/// The most bytes of a line.
const BYTES_IN_LINE: u32 = 32;

/// Adds the files to what is pending, in byte order of their names, each with the lines of its bytes.
pub(crate) fn print_files<K: Sink>(
    disc: &Disc,
    out: &mut K,
    pending: &mut Output,
) -> Result<(), SinkFault>
    requires { IsDisc disc.now }
    ensures text { GathersFor K.Sink out.old out.new pending.old pending.new
        (files_text disc.now.files) result }
    ensures cause { FailsBySink K.Sink out.old out.new result }
{
    for k in 1..END_OF_FILES {
        print_nth_file(disc, k, out, pending)?;
    }
    Ok(())
}

// The k-th file, from 1, if there is one.
fn print_nth_file<K: Sink>(
    disc: &Disc,
    k: u32,
    out: &mut K,
    pending: &mut Output,
) -> Result<(), SinkFault>
    requires valid { IsDisc disc.now }
    requires from_one { 0 < k }
    ensures text { GathersFor K.Sink out.old out.new pending.old pending.new
        (files_text (option_to_list (slice_get disc.now.files (k - 1)))) result }
    ensures cause { FailsBySink K.Sink out.old out.new result }
{
    let Some((name, _size)) = disc.nth(k) else {
        return Ok(());
    };
    print_named_file(disc, &name, out, pending)
}

// The file of this name, if there is one.
fn print_named_file<K: Sink>(
    disc: &Disc,
    name: &Name,
    out: &mut K,
    pending: &mut Output,
) -> Result<(), SinkFault>
    ensures text { GathersFor K.Sink out.old out.new pending.old pending.new
        (files_text (option_to_list (file_named disc.now name.now))) result }
    ensures cause { FailsBySink K.Sink out.old out.new result }
{
    let mut sectors = ArrayVec::new();
    let Some(bytes) = disc.file(name, &mut sectors) else {
        return Ok(());
    };
    print_file(name.bytes(), out, pending)?;
    print_byte_lines(&bytes, out, pending)
}

// The lines of a file's bytes.
fn print_byte_lines<X: TextBytes, K: Sink>(
    bytes: &X,
    out: &mut K,
    pending: &mut Output,
) -> Result<(), SinkFault>
    ensures text { GathersFor K.Sink out.old out.new pending.old pending.new
        (bytes_text (X.text bytes.now)) result }
    ensures cause { FailsBySink K.Sink out.old out.new result }
{
    for i in 0..line_count(bytes.len()) {
        print_byte_line(bytes, i, out, pending)?;
    }
    Ok(())
}

// The line of the bytes from place 32 i on.
fn print_byte_line<X: TextBytes, K: Sink>(
    bytes: &X,
    i: u32,
    out: &mut K,
    pending: &mut Output,
) -> Result<(), SinkFault>
    requires { 32 * i < length (X.text bytes.now) }
    ensures text { GathersFor K.Sink out.old out.new pending.old pending.new
        (statement_text (Bytes (take 32 (drop (32 * i) (X.text bytes.now)))) ++ 10 ∷ []) result }
    ensures cause { FailsBySink K.Sink out.old out.new result }
{
    let len = bytes.len();
    let from = BYTES_IN_LINE * i;
    let to = from + BYTES_IN_LINE.min(len - from);
    print_bytes(bytes, from, to, out, pending)
}

// How many lines so many bytes take.
fn line_count(bytes: u32) -> u32
    ensures { result ≡ (bytes + 31) / 32 }
{
    ((u64::from(bytes) + 31) / 32) as u32
}
