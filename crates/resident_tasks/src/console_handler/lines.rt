// The console's line, which is edited key by key.
ghost use Rattle.std.specs.Prelude.{◌≡◌, ◌+◌, ◌≤◌, [], ◌++◌, false, length, true};
ghost use Rattle.kernel_model.specs.KernelRecord.Kernel.{Console};
ghost use Rattle.resident_tasks.specs.ConsoleHandler.Line.{flags_of, is_printed, key, with_end, with_finish, without_end};

use arrayvec::ArrayVec;
use byte_streams::Output;
use std::marker::Model;

/// What is echoed where a line has no room.
const BELL: &[u8] = &[7];

/// What is echoed where a byte is rubbed out: back, a space over it, and back.
const RUBBED_OUT: &[u8] = &[8, 32, 8];

const LINE_FEED: &[u8] = &[10];

/// A line of at most 120 bytes, and whether it is finished.
#[derive(Drop)]
pub struct ConsoleState {
    /// The bytes of the line so far.
    line: ArrayVec<u8, 120>,
    /// The line is finished, and waits for a read.
    finished: bool,
}

impl Model for ConsoleState {
    ghost use Rattle.kernel_model.specs.KernelRecord.Kernel.{Console};

    ghost Value = { Console };

    ghost view = { λ c. record { line = c.line.items; finished = c.finished } };
}

impl ConsoleState {
    /// A line of these bytes, and whether it is finished.
    pub fn new(line: ArrayVec<u8, 120>, finished: bool) -> ConsoleState
        ensures { result ≡ record { line = line.items; finished = finished } }
    {
        ConsoleState { line, finished }
    }

    /// The same line again, finished or not. It takes no memory.
    pub fn copy(&self) -> ConsoleState
        ensures { result ≡ self.now }
    {
        let mut line = ArrayVec::new();
        copy_line(self.line(), &mut line);
        ConsoleState {
            line,
            finished: self.finished,
        }
    }

    /// The bytes of the line, of which there are at most 120.
    pub fn line(&self) -> &[u8]
        ensures bytes { result.now ≡ self.now.line }
        ensures fits { length self.now.line ≤ 120 }
    {
        self.line.as_slice()
    }

    /// Whether the line is finished.
    pub fn is_finished(&self) -> bool
        ensures { result ≡ self.now.finished }
    {
        self.finished
    }

    /// Begins an empty line.
    pub fn clear(&mut self)
        ensures { self.new ≡ record { line = []; finished = false } }
    {
        self.line.clear();
        self.finished = false;
    }

    /// Does what the key says, and answers the flags that it sets. Bytes from 32 to 126 come to the end of the line and are
    /// echoed, or 7 is where the line has 120 bytes; 8 and 127 take the last byte away; 10 and 13 finish the line; 2 to 5 set the
    /// flags 1, 2, 4 and 8. Other keys do nothing. At most three bytes are echoed.
    pub fn press(&mut self, byte: u32, bytes: &mut Output) -> u32
        requires { length bytes.old + 3 ≤ 8192 }
        ensures console { self.new ≡ (key self.old byte).console }
        ensures echo { bytes.new ≡ bytes.old ++ (key self.old byte).echo }
        ensures flags { result ≡ (key self.old byte).flags }
    {
        if is_printed(byte) {
            self.append(byte as u8, bytes);
            return 0;
        }
        match byte {
            8 | 127 => self.rub_out(bytes),
            10 | 13 => self.finish(bytes),
            _ => return flags_of(byte),
        }
        0
    }

    // A byte comes to the end of the line, where there is room.
    fn append(&mut self, byte: u8, bytes: &mut Output)
        requires { length bytes.old + 3 ≤ 8192 }
        ensures console { self.new ≡ (with_end byte self.old).console }
        ensures echo { bytes.new ≡ bytes.old ++ (with_end byte self.old).echo }
    {
        if self.line.is_full() {
            bytes.append(BELL);
            return;
        }
        self.line.push(byte);
        bytes.append(&[byte]);
    }

    // The last byte goes, where there is one.
    fn rub_out(&mut self, bytes: &mut Output)
        requires { length bytes.old + 3 ≤ 8192 }
        ensures console { self.new ≡ (without_end self.old).console }
        ensures echo { bytes.new ≡ bytes.old ++ (without_end self.old).echo }
    {
        if self.line.is_empty() {
            return;
        }
        self.line.pop();
        bytes.append(RUBBED_OUT);
    }

    // The line is finished.
    fn finish(&mut self, bytes: &mut Output)
        requires { length bytes.old + 3 ≤ 8192 }
        ensures console { self.new ≡ (with_finish self.old).console }
        ensures echo { bytes.new ≡ bytes.old ++ (with_finish self.old).echo }
    {
        self.finished = true;
        bytes.append(LINE_FEED);
    }
}

/// Makes a line what the other is.
pub(crate) fn copy_line(line: &[u8], into: &mut ArrayVec<u8, 120>)
    requires { length line.now ≤ 120 }
    ensures { into.new.items ≡ line.now }
{
    into.clear();
    match into.try_extend_from_slice(line) {
        Ok(()) => {}
        Err(_) => unreachable!(),
    }
}

// Whether the key is a byte that is printed.
fn is_printed(byte: u32) -> bool
    ensures { result ≡ is_printed byte }
{
    32 <= byte && byte <= 126
}

// The flag that the key sets, or 0.
fn flags_of(byte: u32) -> u32
    ensures { result ≡ flags_of byte }
{
    match byte {
        2 => 1,
        3 => 2,
        4 => 4,
        5 => 8,
        _ => 0,
    }
}
