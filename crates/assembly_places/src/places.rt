// The places of the lines, one after the other.
ghost use Rattle.std.specs.Prelude.{◌≡◌, ◌++◌, ◌≤◌, ◌<◌, ◌^◌, length, IfOk, OnOk};
ghost use Rattle.module_text.specs.TextReader.Lines.{lines_of};
ghost use Rattle.assembly.specs.AssemblyText.KeptLabels.{layout_of};
ghost use Rattle.assembly_places.specs.Places.{admitted_place, admitted_walk, has_bytes, is_placed, label_after, line_place, line_walked, no_walk, place_line, places_from, read_place, read_walk, walk_line, walked_of};

use assembly::assembly_text::places::{FIRST_OFFSET, place_of};
use assembly::assembly_text::read::read_line;
use assembly::assembly_text::statements::{Line, Statement};
use assembly::assembly_text::survey::{Surveyed, add, admit};
use module_text::split_line;
use std::alloc::{AllocError, Global};
use std::collections::BTreeMap;
use tool_texts::Said::{Bytes, Number};
use tool_texts::{Lent, push_sentence};

/// What is known after some lines.
#[derive(Drop)]
pub struct Walk<'a> {
    /// Where they are.
    pub known: Surveyed<'a>,
    /// The label that is last, or `-`.
    pub label: Lent<'a>,
}

/// A line for each line of a text that has a label or gives bytes.
pub fn places_text(alloc: Global, text: &[u8]) -> Result<Vec<u8>, AllocError>
    requires { length text.now < 2 ^ 32 }
    ensures { IfOk result (λ v. v.items ≡ places_from 1 no_walk (lines_of text.now)) }
{
    let mut places = Vec::new(alloc);
    let mut walk = Walk {
        known: Surveyed {
            offset: FIRST_OFFSET,
            pairs: 0,
            labels: BTreeMap::new(alloc),
        },
        label: Lent::new(b"-"),
    };
    let mut n = 0;
    let mut rest = text;
    while let Some((line, others)) = split_line(rest) {
        n += 1;
        walk_line(&mut walk, n, line, &mut places)?;
        rest = others;
    }
    Ok(places)
}

// Line n comes next.
fn walk_line<'a>(
    walk: &mut Walk<'a>,
    n: u32,
    text: &'a [u8],
    places: &mut Vec<u8>,
) -> Result<(), AllocError>
    requires low { walk.old.known.offset ≤ 262144 }
    requires few { walk.old.known.pairs ≤ 65536 }
    ensures places { OnOk result (places.new.items
        ≡ places.old.items ++ place_line n (walked_of walk.old) text.now) }
    ensures walk { OnOk result (walked_of walk.new ≡ walk_line (walked_of walk.old) text.now) }
    ensures low { OnOk result (walk.new.known.offset ≤ 262144) }
    ensures few { OnOk result (walk.new.known.pairs ≤ 65536) }
{
    match read_line(text) {
        Ok(line) => walk_read(walk, n, &line, places),
        Err(_) => Ok(()),
    }
}

// Line n, which says this, comes next.
fn walk_read<'a>(
    walk: &mut Walk<'a>,
    n: u32,
    line: &Line<'a>,
    places: &mut Vec<u8>,
) -> Result<(), AllocError>
    requires low { walk.old.known.offset ≤ 262144 }
    requires few { walk.old.known.pairs ≤ 65536 }
    ensures places { OnOk result (places.new.items
        ≡ places.old.items ++ read_place n (walked_of walk.old) line.now) }
    ensures walk { OnOk result (walked_of walk.new ≡ read_walk (walked_of walk.old) line.now) }
    ensures low { OnOk result (walk.new.known.offset ≤ 262144) }
    ensures few { OnOk result (walk.new.known.pairs ≤ 65536) }
{
    match admit(&walk.known, line) {
        Ok(()) => walk_admitted(walk, n, line, places),
        Err(_) => Ok(()),
    }
}

// The same, where it may come next.
fn walk_admitted<'a>(
    walk: &mut Walk<'a>,
    n: u32,
    line: &Line<'a>,
    places: &mut Vec<u8>,
) -> Result<(), AllocError>
    requires low { walk.old.known.offset ≤ 262144 }
    requires few { walk.old.known.pairs ≤ 65536 }
    ensures places { OnOk result (places.new.items
        ≡ places.old.items ++ line_place n (walked_of walk.old) line.now) }
    ensures walk { OnOk result (walked_of walk.new ≡ line_walked (walked_of walk.old) line.now) }
{
    let offset = place_of(&line.statement, walk.known.offset);
    if let Some(label) = &line.label {
        walk.label = Lent::new(label.name());
    }
    if is_placed(line) {
        let label = walk.label.bytes();
        push_sentence(
            places,
            &[
                Number(u64::from(offset)),
                Bytes(b" "),
                Number(u64::from(n)),
                Bytes(b" "),
                Bytes(label),
                Bytes(b"\n"),
            ],
        )?;
    }
    add(&mut walk.known, line)
}

// Whether a line has a place: it has a label, or gives bytes.
fn is_placed(line: &Line) -> bool
    ensures { result ≡ is_placed line.now }
{
    line.label.is_some() || has_bytes(&line.statement)
}

fn has_bytes(statement: &Statement) -> bool
    ensures { result ≡ has_bytes statement.now }
{
    match statement {
        Statement::Fixed(bytes) => bytes.len() != 0,
        Statement::Global { .. } => false,
        _ => true,
    }
}
