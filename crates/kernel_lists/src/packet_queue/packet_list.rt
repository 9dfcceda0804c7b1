// The packets of a queue, in order.
ghost use Rattle.std.specs.Prelude.{◌≡◌};
ghost use Rattle.std.specs.Iterator.{YieldsFirst, item_count};

use crate::linked_list::Nodes;
use std::marker::Model;

/// The packets of a queue that are left, seen as the list of their addresses.
#[derive(Drop)]
pub struct Packets<'a> {
    /// The walk along their links.
    pub(crate) nodes: Nodes<'a>,
}

impl<'a> Model for Packets<'a> {
    ghost use Rattle.std.specs.Prelude.{ℕ, List};

    ghost Value = { List ℕ };

    ghost view = { λ it. it.nodes };
}

impl Iterator for Packets<'_> {
    type Item = u32;

    ghost next_gives = { YieldsFirst (λ rest. rest) };

    ghost remaining = { item_count (λ rest. rest) };

    fn next(&mut self) -> Option<u32> {
        self.nodes.next()
    }
}
