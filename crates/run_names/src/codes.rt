// What codes mean, and what requests are.
use crate::parties::Party;
use kernel_model::numbers::{CONSOLE, FILE_HANDLER};

/// What the code of a fault means, in words; no words where no fault has it.
pub fn fault_meaning(code: u32) -> &'static [u8] {
    match code {
        1 => b"a byte that is no instruction",
        2 => b"the instruction BRK",
        3 => b"a read outside the store",
        4 => b"a write outside the store",
        5 => b"a division by zero",
        6 => b"a write into a word of the kernel",
        7 => b"a call that the machine does not know",
        8 => b"a byte of the instruction outside the store",
        _ => b"",
    }
}

/// Why a resident refuses a request, in words, by the code that it answers; no words where it answers no such code.
pub fn refusal_meaning(code: i32) -> &'static [u8] {
    match code {
        30 =>
            b"the buffer is bad: it has no byte or more than 4,096, is not all in the store, or is to be written and has a word of the kernel, or one of the words 0 to 4 of the request",
        31 => b"the resident knows no request of this type",
        40 =>
            b"this is no name: it is not in the store, has no byte or more than 12, or another byte than a letter, a digit, -, . and _",
        41 => b"there is no file of this name, or of this number",
        42 => b"a file has the new name already",
        43 => b"the disc is full",
        44 => b"there are 64 files, and this would be one more",
        45 => b"the streams 1 to 16 are all open",
        46 =>
            b"no stream and no end of a pipe that is open the way in which it is used here has this number",
        47 =>
            b"the file is in use: to read it, a stream writes it; for all else, any stream is open on it. Or this end of the pipe is open",
        48 => b"the buffer is bad, as for 30",
        70 => b"the pipe is empty, and its other end is open, or was never opened",
        71 => b"an end of a pipe is 0 or 1",
        72 => b"there are eight pipes, and this would be one more",
        73 => b"the pipe is full: it holds 1,024 bytes",
        _ => b"",
    }
}

/// What a request of this type asks somebody for, in words; `None` where it is no request to a resident.
pub fn request_name(to: Party, kind: i32) -> Option<&'static [u8]> {
    match to {
        Party::Task(CONSOLE) => console_request(kind),
        Party::Task(FILE_HANDLER) => file_request(kind),
        _ => None,
    }
}

fn console_request(kind: i32) -> Option<&'static [u8]> {
    let name: &[u8] = match kind {
        1 => b"read a line",
        2 => b"write",
        _ => return None,
    };
    Some(name)
}

fn file_request(kind: i32) -> Option<&'static [u8]> {
    let name: &[u8] = match kind {
        10 => b"open to read",
        11 => b"open to write",
        12 => b"read on",
        13 => b"append",
        14 => b"close",
        15 => b"delete",
        16 => b"rename",
        17 => b"examine",
        20 => b"open a pipe",
        21 => b"read a pipe",
        22 => b"write a pipe",
        23 => b"close a pipe",
        _ => return None,
    };
    Some(name)
}
