// The style of a picture, and its legend.

use crate::elements::{at, push_box, push_line, push_path, push_text};
use crate::lengths::Length;
use std::alloc::AllocError;

/// How the elements of a picture look.
pub const STYLE: &[u8] = b"<style>
text{font-family:'DejaVu Sans Mono','Liberation Mono',Menlo,Consolas,monospace;font-size:9px;fill:#111;white-space:pre}
.title{font-size:11px;font-weight:bold}.head{font-size:10px;font-weight:bold;text-anchor:middle}.name{font-size:8px;text-anchor:middle}
.small{font-size:8px;fill:#333}.end{text-anchor:end}.quiet{font-size:8px;fill:#555;font-style:italic}.red{fill:#b00000}
line,path{fill:none;stroke:#111;stroke-width:1}.rule{stroke:#888}.tick{stroke:#999;stroke-width:.5;stroke-dasharray:1 3}
.wait{stroke-dasharray:2 3;stroke:#555}.device{stroke:#aaa}.run{fill:#333;stroke:#333}.ready{fill:#d8d8d8;stroke:#777;stroke-width:.7}
.held{fill:#fff;stroke:#b00000}.send{stroke:#111}.return{stroke:#1c4f9c;stroke-dasharray:5 2}.write{stroke:#1d7a3a;stroke-dasharray:1.5 2}
.tip{stroke:none}.tip.send{fill:#111}.tip.return{fill:#1c4f9c}.tip.write{fill:#1d7a3a}.dot{fill:#fff;stroke:#111}.cross{stroke:#b00000;stroke-width:2}.stop{stroke-width:2.5}
</style>
";

/// What stands in the legend for a word.
#[derive(Clone, Copy)]
enum Sample {
    /// Nothing.
    Nothing,
    /// A box of this look and width.
    Filled(&'static [u8], u64),
    /// A line from top to bottom of this look.
    Down(&'static [u8]),
    /// A line of this look and length.
    Across(&'static [u8], u64),
    /// A cross.
    Cross,
}

/// An entry of the legend.
#[derive(Clone, Copy)]
struct Entry {
    /// What stands for the word.
    sample: Sample,
    /// How far the word is moved to the right.
    indent: u64,
    /// The word.
    word: &'static [u8],
    /// How far the next entry is to the right.
    width: u64,
}

/// The entries.
const ENTRIES: [Entry; 10] = [
    Entry {
        sample: Sample::Filled(b"run", 10),
        indent: 16,
        word: b"runs",
        width: 52,
    },
    Entry {
        sample: Sample::Filled(b"ready", 7),
        indent: 13,
        word: b"ready",
        width: 56,
    },
    Entry {
        sample: Sample::Down(b"wait"),
        indent: 11,
        word: b"waits",
        width: 54,
    },
    Entry {
        sample: Sample::Filled(b"held", 7),
        indent: 13,
        word: b"held",
        width: 50,
    },
    Entry {
        sample: Sample::Nothing,
        indent: 0,
        word: b"no line: dead",
        width: 88,
    },
    Entry {
        sample: Sample::Across(b"send", 22),
        indent: 28,
        word: b"sent",
        width: 66,
    },
    Entry {
        sample: Sample::Across(b"return", 22),
        indent: 28,
        word: b"returned",
        width: 86,
    },
    Entry {
        sample: Sample::Across(b"write", 22),
        indent: 28,
        word: b"written",
        width: 80,
    },
    Entry {
        sample: Sample::Cross,
        indent: 14,
        word: b"refused, fault",
        width: 100,
    },
    Entry {
        sample: Sample::Across(b"stop", 14),
        indent: 20,
        word: b"ends",
        width: 52,
    },
];

/// Adds the legend of a picture that is so wide, in lines of which the first one is so far down. The answer is how far down the last one is.
pub fn push_legend(svg: &mut Vec<u8>, width: u64, y: Length) -> Result<Length, AllocError> {
    let mut x = 12u64;
    let mut y = y;
    for entry in ENTRIES {
        if x.saturating_add(entry.width) > width {
            x = 12;
            y = y + Length::pixels(15);
        }
        push_entry(svg, &entry, Length::pixels(x), y)?;
        x = x.saturating_add(entry.width);
    }
    Ok(y)
}

// Adds an entry at a place.
fn push_entry(svg: &mut Vec<u8>, entry: &Entry, x: Length, y: Length) -> Result<(), AllocError> {
    push_sample(svg, entry.sample, x, y)?;
    let right = x + Length::pixels(entry.indent);
    push_text(svg, at(right, y), entry.word, b"small")
}

fn push_sample(svg: &mut Vec<u8>, sample: Sample, x: Length, y: Length) -> Result<(), AllocError> {
    match sample {
        Sample::Nothing => Ok(()),
        Sample::Filled(look, width) => push_box(
            svg,
            at(x, y - Length::pixels(8)),
            at(Length::pixels(width), Length::pixels(10)),
            look,
        ),
        Sample::Down(look) => {
            let x = x + Length::pixels(3);
            push_line(
                svg,
                at(x, y - Length::pixels(9)),
                at(x, y + Length::pixels(3)),
                look,
            )
        }
        Sample::Across(look, length) => {
            let y = y - Length::pixels(3);
            push_line(svg, at(x, y), at(x + Length::pixels(length), y), look)
        }
        Sample::Cross => push_path(
            svg,
            at(x, y - Length::pixels(7)),
            b"l8 8 m0 -8 l-8 8",
            b"cross",
        ),
    }
}
