// The codes with which what is asked of files and of pipes is refused, and the number of the shell's stream.

/// It is no lawful name of a file.
pub const BAD_NAME: u32 = 40;

/// There is no such file.
pub const NO_FILE: u32 = 41;

/// A file has the name already.
pub const NAME_TAKEN: u32 = 42;

/// The disc has no room for the bytes.
pub const DISC_FULL: u32 = 43;

/// There are as many files as there may be.
pub const DIRECTORY_FULL: u32 = 44;

/// No stream is free.
pub const NO_STREAM: u32 = 45;

/// The stream, or the end of a pipe, is not open for this.
pub const NOT_OPEN: u32 = 46;

/// A stream has the file, or the end of the pipe is open already.
pub const IN_USE: u32 = 47;

/// The buffer has no bytes or too many, or does not lie where it may.
pub const BAD_BUFFER: u32 = 48;

/// The stream that the shell has, and no request may name. Those of the file handler have the numbers from 1 up to it.
pub const SHELL_STREAM: u32 = 17;
