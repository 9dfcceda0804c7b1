// The laws of a journal: what is left of past after a note, and that a step back takes a note back.
ghost use Rattle.std.specs.Prelude.{◌≡◌, ◌<◌, ◌≤◌, ◌++◌, ◌∷◌, [], ℕ, List, Some, length, true};
ghost use Rattle.circular_buffer.specs.Buffer.{last_item};
ghost use Rattle.debugger.specs.UndoJournal.Journals.{Journal, Past, cut, differing, fits, noted, side_back, went_back};

/// What is left of past after a note is a suffix of it that fits, and no suffix that fits is longer.
pub fn cut_law<T>()
    ensures suffix { (steps changes : ℕ) (now : List ℕ) (ps : List (Past T))
        → (dropped : List (Past T)) × (dropped ++ cut steps changes now ps ≡ ps) }
    ensures fits { (steps changes : ℕ) (now : List ℕ) (ps : List (Past T))
        → fits steps changes now (cut steps changes now ps) ≡ true }
    ensures longest { (steps changes : ℕ) (now : List ℕ) (front back : List (Past T))
        → fits steps changes now back ≡ true
        → length back ≤ length (cut steps changes now (front ++ back)) }
{}

/// A step back takes a note back. Where past has a member after the note, the step back gives the words that were now before it, and the
/// value that was noted beside them. Past has one where it may have any, and where no more words differ than may change. Where no member
/// went at the note, the step back gives the whole journal from before it.
pub fn back_law<T>()
    ensures words { (j : Journal T) (words : List ℕ) (side : T)
        → 0 < length (noted j words side).past
        → (went_back (noted j words side)).words ≡ j.words }
    ensures side { (j : Journal T) (words : List ℕ) (side : T)
        → 0 < length (noted j words side).past
        → side_back (last_item (noted j words side).past) ≡ Some side }
    ensures room { (j : Journal T) (words : List ℕ) (side : T)
        → 1 ≤ j.steps → differing j.words words ≤ j.changes
        → 0 < length (noted j words side).past }
    ensures whole { (j : Journal T) (words : List ℕ) (side : T)
        → fits j.steps j.changes words
        (j.past ++ (record { words = j.words; side = side }) ∷ []) ≡ true
        → went_back (noted j words side) ≡ j }
{}
