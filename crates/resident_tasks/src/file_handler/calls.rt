// What the types of requests ask of the file handler.
ghost use Rattle.std.specs.Prelude.{◌≡◌};
ghost use Rattle.resident_tasks.specs.FileHandler.FileCalls.{file_call};

/// What a request asks of the file handler.
#[derive(Clone, Copy)]
pub(crate) enum FileCall {
    /// Type 10: the file is opened to read.
    OpenToRead,
    /// Type 11: the file is opened to write, and emptied.
    OpenToWrite,
    /// Type 12: the next bytes of a stream go into a buffer.
    ReadOn,
    /// Type 13: the bytes of a buffer go after those of a stream's file.
    Append,
    /// Type 14: the stream is closed.
    Close,
    /// Type 15: the file is deleted.
    Delete,
    /// Type 16: the file gets another name.
    Rename,
    /// Type 17: the name of a file by its place goes into a buffer.
    Examine,
}

/// What a request of this type asks, or `None` where it asks nothing of the file handler.
pub(crate) fn file_call(kind: u32) -> Option<FileCall>
    ensures { result ≡ file_call kind }
{
    match kind {
        10 => Some(FileCall::OpenToRead),
        11 => Some(FileCall::OpenToWrite),
        12 => Some(FileCall::ReadOn),
        13 => Some(FileCall::Append),
        14 => Some(FileCall::Close),
        15 => Some(FileCall::Delete),
        16 => Some(FileCall::Rename),
        17 => Some(FileCall::Examine),
        _ => None,
    }
}
