// What requests ask of the pipes.
ghost use Rattle.std.specs.Prelude.{◌≡◌};
ghost use Rattle.resident_tasks.specs.PipeHandler.RequestTypes.{pipe_call};

use crate::resident_requests::Request;

/// What a request asks of the pipes, with its arguments.
#[derive(Clone, Copy)]
pub(crate) enum PipeCall {
    /// Type 20: an end of the pipe of a name is opened.
    OpenEnd {
        /// The address of the name, in words.
        name: u32,
        /// 0 for the end that reads, 1 for the one that writes.
        end: u32,
    },
    /// Type 21: bytes of a pipe go into a buffer.
    ReadBytes {
        /// The handle of an end that reads.
        handle: u32,
        /// The address of the buffer, in words.
        buffer: u32,
        /// The most bytes that are read.
        count: u32,
    },
    /// Type 22: the bytes of a buffer go into a pipe.
    WriteBytes {
        /// The handle of an end that writes.
        handle: u32,
        /// The address of the buffer, in words.
        buffer: u32,
        /// The number of its bytes.
        count: u32,
    },
    /// Type 23: an end is closed.
    CloseEnd {
        /// The handle of the end.
        handle: u32,
    },
}

/// What a request asks, or `None` where its type is none of these.
pub(crate) fn pipe_call(request: Request) -> Option<PipeCall>
    ensures { result ≡ pipe_call request }
{
    match request.kind {
        20 => Some(PipeCall::OpenEnd {
            name: request.first,
            end: request.second,
        }),
        21 => Some(PipeCall::ReadBytes {
            handle: request.first,
            buffer: request.second,
            count: request.third,
        }),
        22 => Some(PipeCall::WriteBytes {
            handle: request.first,
            buffer: request.second,
            count: request.third,
        }),
        23 => Some(PipeCall::CloseEnd {
            handle: request.first,
        }),
        _ => None,
    }
}
