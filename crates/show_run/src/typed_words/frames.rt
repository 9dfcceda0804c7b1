// The frames of functions that have called one another.
ghost use Rattle.std.specs.Prelude.{◌≡◌};
ghost use Rattle.show_run.specs.TypedWords.Frames.{frame_at};

use std::alloc::{AllocError, Global};
use word_store::{Store, word, word_at};

/// The most frames that are shown.
pub const MOST_FRAMES: usize = 32;

/// The frame of a function that another one has called.
#[derive(Clone, Copy)]
pub struct CallFrame {
    /// The byte address of the function.
    pub function: u32,
    /// The byte address to which it goes back.
    pub back: u32,
    /// The frame of the caller, as the address of a word.
    pub caller: u32,
}

/// The frame at an address. The first function of a program goes back to 0, and is no frame; outside the store there is none.
pub fn frame_at(store: &Store, p: u32) -> Option<CallFrame>
    ensures { result ≡ frame_at store.now p }
{
    let back = word_at(store, p, 1);
    if back == 0 {
        return None;
    }
    Some(CallFrame {
        function: word_at(store, p, 2),
        back,
        caller: word(store, p),
    })
}

/// The frames from an address on, up to 32.
pub fn frames_from(alloc: Global, store: &Store, p: u32) -> Result<Vec<CallFrame>, AllocError> {
    let mut frames = Vec::new(alloc);
    let mut at = p;
    for turn in 0..MOST_FRAMES {
        let Some(frame) = frame_at(store, at) else {
            return Ok(frames);
        };
        frames.push(frame)?;
        at = frame.caller;
    }
    Ok(frames)
}
