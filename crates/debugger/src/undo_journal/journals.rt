// A journal of stores. Only the words that are now are kept whole: of each member of past, those in which it differs from the next one.
ghost use Rattle.std.specs.Prelude.{◌≡◌, ◌≢◌, ℕ, [], IfOk, length, slice_index};
ghost use Rattle.std.specs.List.{Contains};
ghost use Rattle.circular_buffer.specs.Buffer.{last_item};
ghost use Rattle.debugger.specs.UndoJournal.Journals.{journal, noted, shortened, side_back, went_back, words_back};

use crate::undo_journal::former_words::{FormerWord, note_all_words, note_words, put_back};
use crate::undo_journal::members::{Member, drop_oldest};
use byte_streams::WantMemory;
use circular_buffer::HeapCircularBuffer;
use std::alloc::Global;
use std::marker::Model;
use word_store::Store;

/// The words of a store that are now, and past: the words that were before, each time with a value that was noted beside them. Past has
/// the newest members, at most so many, in which at most so many words change. A journal is seen as the words that are now, past with
/// its oldest member first, and these two bounds.
#[derive(Drop)]
pub struct Journal<T> {
    /// The words that are now.
    latest: Store,
    /// The words in which each member of past differs from the next one, the oldest first.
    former: HeapCircularBuffer<FormerWord>,
    /// The members of past, the oldest first. There is a place more than past may have, for a new one before the oldest go.
    members: HeapCircularBuffer<Member<T>>,
    /// The most members that past has.
    most_steps: u32,
    /// The most words that change in past.
    most_changes: u32,
}

impl<T> Model for Journal<T> {
    ghost use Rattle.debugger.specs.UndoJournal.Journals.{Journal as Stores, journal_code};

    ghost Value = { Stores T };

    ghost coded = { journal_code T.code };

    ghost use Rattle.debugger.specs.UndoJournal.KeptJournal.{IsKept, journal_of};

    ghost view = { λ j. journal_of j };

    ghost invariant = { λ j. IsKept j };
}

impl<T: Drop> Journal<T> {
    /// A journal in which the words of this store are now, and nothing is past. Past has at most `steps` members, in which at most
    /// `changes` words change. All memory is had here: 4 bytes for each word of the store, 8 for each of `changes`, and for each of
    /// `steps` a `T` and 8 bytes. `WantMemory` comes only where it could not be had.
    pub fn new(
        alloc: Global,
        store: &Store,
        steps: u32,
        changes: u32,
    ) -> Result<Journal<T>, WantMemory>
        ensures { IfOk result (λ j. j ≡ journal store.now [] steps changes) }
    {
        let latest = copy_of(alloc, store)?;
        let Ok(former) = HeapCircularBuffer::with_capacity(alloc, changes as usize) else {
            return Err(WantMemory);
        };
        let Ok(members) = HeapCircularBuffer::with_capacity(alloc, steps as usize + 1) else {
            return Err(WantMemory);
        };
        Ok(Journal {
            latest,
            former,
            members,
            most_steps: steps,
            most_changes: changes,
        })
    }

    /// Notes a step: the words that are now go into past, with this value beside them, and those of the store, which has as many, are
    /// now. Then the oldest members go until the others fit. All words are compared.
    pub fn note(&mut self, store: &Store, side: T)
        requires { length store.now ≡ length self.old.words }
        ensures { self.new ≡ noted self.old store.now side }
    {
        let before = self.former.len();
        let changed = note_all_words(&mut self.latest, store, &mut self.former);
        self.members.push_back(Member { side, changed });
        drop_oldest(
            &mut self.members,
            &mut self.former,
            before + changed,
            self.most_steps as usize,
            self.most_changes as usize,
        );
    }

    /// The same, where the store differs from the words that are now at these addresses at most. Only the words there are compared. An
    /// address may come twice, and may be outside the store.
    pub fn note_at(&mut self, store: &Store, touched: &[u32], side: T)
        requires size { length store.now ≡ length self.old.words }
        requires touched { (a : ℕ) → slice_index self.old.words a ≢ slice_index store.now a
            → Contains touched.now a }
        ensures { self.new ≡ noted self.old store.now side }
    {
        let before = self.former.len();
        let changed = note_words(&mut self.latest, store, &mut self.former, touched);
        self.members.push_back(Member { side, changed });
        drop_oldest(
            &mut self.members,
            &mut self.former,
            before + changed,
            self.most_steps as usize,
            self.most_changes as usize,
        );
    }

    /// Takes the last step back: the last member of past goes, and its words are now, and in the store, which has those that are now.
    /// The answer is what was noted beside them, or `None` exactly where nothing is past; then nothing changes.
    pub fn back(&mut self, store: &mut Store) -> Option<T>
        requires { store.old ≡ self.old.words }
        ensures side { result ≡ side_back (last_item self.old.past) }
        ensures journal { self.new ≡ went_back self.old }
        ensures store { store.new ≡ words_back self.old.words (last_item self.old.past) }
    {
        let Member { side, changed } = self.members.pop_back()?;
        put_back(&mut self.former, changed, &mut self.latest, store);
        Some(side)
    }

    /// Drops all members of past but the last n.
    pub fn keep_last(&mut self, n: u32)
        ensures { self.new ≡ shortened self.old n }
    {
        let total = self.former.len();
        drop_oldest(
            &mut self.members,
            &mut self.former,
            total,
            n as usize,
            total,
        );
    }

    /// The number of members of past.
    pub fn len(&self) -> u32
        ensures { result ≡ length self.now.past }
    {
        self.members.len() as u32
    }
}

// A store of the same words.
fn copy_of(alloc: Global, store: &Store) -> Result<Store, WantMemory>
    ensures { IfOk result (λ s. s ≡ store.now) }
{
    let Ok(mut copy) = Store::new(alloc, store.size()) else {
        return Err(WantMemory);
    };
    copy.copy_from(store);
    Ok(copy)
}
