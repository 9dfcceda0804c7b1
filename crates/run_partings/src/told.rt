// What is said around the table.

use crate::cells::{Cut, MOST_CUTS, Shown, Window, lines_shown, push_at};
use crate::deeds::Deeds;
use crate::differences::{common_length, push_programs};
use crate::doers::{Doer, doer_of_task, push_doer};
use crate::ends::End;
use crate::following::Following;
use crate::keys::{push_unshifted, push_words};
use crate::log_lines::Line;
use crate::runs::{Form, Run};
use crate::sides::{Both, SIDES, Side};
use crate::tables::{push_sides, push_table, side_width};
use crate::ways::{LostWay, Pass};
use module_text::number;
use std::alloc::{AllocError, Global};
use tool_texts::Said::{Bytes, Number};
use tool_texts::push_sentence;

/// How many bytes of a console text are shown before the first that differs.
const BYTES_BEFORE: usize = 40;

/// What is told of both runs.
#[derive(Clone, Copy)]
pub struct Telling<'s> {
    /// Where memory comes from.
    pub alloc: Global,
    /// How it is shown.
    pub form: Form,
    /// Both runs.
    pub runs: Both<Run<'s>>,
    /// How they ended.
    pub ends: Both<&'s End>,
}

impl Telling<'_> {
    /// The periods of the clocks; 0 where there is none.
    pub fn periods(&self) -> Both<u64> {
        Both {
            a: u64::from(self.runs.a.session.period),
            b: u64::from(self.runs.b.session.period),
        }
    }

    /// What the table shows of a run with these lines, around the step in which it parts from the other.
    pub fn shown<'a>(
        &self,
        following: &Following,
        anchors: Both<u64>,
        side: Side,
        lines: &[Line<'a>],
    ) -> Result<Shown<'a>, AllocError> {
        let window = Window {
            anchor: anchors.of(side),
            before: self.form.before,
            lines: self.form.lines,
            shows_step: following.lost.map(|lost| lost.passes.of(side).line.step),
        };
        lines_shown(
            self.alloc,
            &self.runs.of(side),
            self.periods().of(side),
            window,
            lines,
        )
    }

    /// Adds where the runs part, the table, and how they end.
    pub fn push_all(
        &self,
        text: &mut Vec<u8>,
        following: &mut Following,
        anchors: Both<u64>,
        shown: Both<&Shown>,
    ) -> Result<(), AllocError> {
        self.push_parting(text, following, anchors)?;
        self.push_cuts(text, shown)?;
        push_sentence(text, &[Bytes(b"\n")])?;
        push_table(
            self.alloc,
            text,
            self.form.width,
            self.form.before,
            shown,
            &mut following.moved,
        )?;
        push_sentence(text, &[Bytes(b"\n")])?;
        self.push_ends(text)?;
        self.push_console(text)
    }

    /// Adds which runs are compared.
    pub fn push_names(&self, text: &mut Vec<u8>) -> Result<(), AllocError> {
        for side in SIDES {
            push_sentence(
                text,
                &[
                    Bytes(side.letter()),
                    Bytes(b" is "),
                    Bytes(self.runs.of(side).name),
                ],
            )?;
            if let Some(ticks) = self.form.ticks {
                push_sentence(
                    text,
                    &[
                        Bytes(b", with a tick every "),
                        Number(ticks.of(side)),
                        Bytes(b" steps"),
                    ],
                )?;
            }
            push_sentence(text, &[Bytes(b"\n")])?;
        }
        Ok(())
    }

    // Adds the letter of a run and a step.
    fn push_side(&self, text: &mut Vec<u8>, side: Side) -> Result<(), AllocError> {
        push_sentence(text, &[Bytes(b"  "), Bytes(side.letter()), Bytes(b"  ")])
    }

    // Adds where the runs part, and how: who goes another way, and who does something else. Before that the order may differ.
    fn push_parting(
        &self,
        text: &mut Vec<u8>,
        following: &Following,
        anchors: Both<u64>,
    ) -> Result<(), AllocError> {
        push_sentence(text, &[Bytes(b"the runs part at ")])?;
        push_steps(text, anchors)?;
        push_sentence(text, &[Bytes(b":\n")])?;
        if let Some(lost) = following.lost {
            self.push_way(text, lost)?;
        }
        if let Some(deeds) = found_deeds(following) {
            self.push_deeds(text, following, deeds)?;
        }
        match order_before(following, anchors) {
            Some(order) => self.push_order(text, order),
            None => Ok(()),
        }
    }

    // Adds that a task goes another way.
    fn push_way(&self, text: &mut Vec<u8>, lost: LostWay) -> Result<(), AllocError> {
        push_sentence(text, &[Bytes(b"  ")])?;
        self.push_named(text, doer_of_task(lost.task))?;
        push_sentence(text, &[Bytes(b" goes another way")])?;
        if let Some(after) = lost.after {
            push_sentence(text, &[Bytes(b" after ")])?;
            self.push_pass(text, Side::A, after)?;
        }
        push_sentence(text, &[Bytes(b":\n")])?;
        for side in SIDES {
            let pass = lost.passes.of(side);
            self.push_side(text, side)?;
            push_sentence(
                text,
                &[Bytes(b"step "), Number(pass.line.step), Bytes(b": ")],
            )?;
            self.push_pass(text, side, pass)?;
            push_sentence(text, &[Bytes(b"\n")])?;
        }
        Ok(())
    }

    // Adds an instruction, and where it is.
    fn push_pass(&self, text: &mut Vec<u8>, side: Side, pass: Pass) -> Result<(), AllocError> {
        push_words(text, pass.line.words)?;
        push_at(text, &self.runs.of(side), pass.line.pc)
    }

    // Adds somebody, a task with its program, as the session of A names it.
    fn push_named(&self, text: &mut Vec<u8>, who: Doer) -> Result<(), AllocError> {
        push_doer(text, who)?;
        if let Doer::Task(task) = who {
            if let Some(id) = number(task) {
                return push_programs(text, self.runs.a.session, id);
            }
        }
        Ok(())
    }

    // Adds that somebody does something else.
    fn push_deeds(
        &self,
        text: &mut Vec<u8>,
        following: &Following,
        deeds: &Deeds,
    ) -> Result<(), AllocError> {
        push_sentence(text, &[Bytes(b"  ")])?;
        self.push_named(text, deeds.who)?;
        let does: &[u8] = match deeds.who {
            Doer::Console => b" gets something else:\n",
            Doer::Keyboard => b" gives something else:\n",
            _ if following.lost.is_some() => b" then does something else:\n",
            _ => b" does something else:\n",
        };
        push_sentence(text, &[Bytes(does)])?;
        for side in SIDES {
            self.push_side(text, side)?;
            match deeds.compared.of(side) {
                Some(line) => {
                    push_sentence(text, &[Bytes(b"step "), Number(line.step), Bytes(b": ")])?;
                    self.push_said(text, side, &line)?;
                }
                None => self.push_nothing(text, following, deeds, side)?,
            }
            push_sentence(text, &[Bytes(b"\n")])?;
        }
        Ok(())
    }

    // Adds that one has done nothing since it did the same for the last time.
    fn push_nothing(
        &self,
        text: &mut Vec<u8>,
        following: &Following,
        deeds: &Deeds,
        side: Side,
    ) -> Result<(), AllocError> {
        push_sentence(
            text,
            &[
                Bytes(b"nothing since step "),
                Number(deeds.last_step.of(side)),
            ],
        )?;
        if following.has_ended.of(side) {
            return push_sentence(text, &[Bytes(b", to the end")]);
        }
        push_sentence(
            text,
            &[Bytes(b", up to step "), Number(following.now.of(side))],
        )
    }

    // Adds what a line says that its run does.
    fn push_said(&self, text: &mut Vec<u8>, side: Side, line: &Line) -> Result<(), AllocError> {
        if line.kind == b"refused".as_slice() {
            push_sentence(text, &[Bytes(b"refused ")])?;
        }
        push_unshifted(self.alloc, text, line, self.periods().of(side))
    }

    // Adds that the order differs before.
    fn push_order(&self, text: &mut Vec<u8>, order: Both<Line>) -> Result<(), AllocError> {
        push_sentence(text, &[Bytes(b"before that only the order differs, from ")])?;
        push_steps(text, steps_of(order))?;
        push_sentence(text, &[Bytes(b" on:\n")])?;
        for side in SIDES {
            self.push_side(text, side)?;
            self.push_said(text, side, &order.of(side))?;
            push_sentence(text, &[Bytes(b"\n")])?;
        }
        Ok(())
    }

    // Adds the last places before the parting at which tasks were interrupted, the last ones of both runs beside one another.
    fn push_cuts(&self, text: &mut Vec<u8>, shown: Both<&Shown>) -> Result<(), AllocError> {
        let a = shown.a.cuts.as_slice();
        let b = shown.b.cuts.as_slice();
        if a.is_empty() && b.is_empty() {
            return Ok(());
        }
        push_sentence(text, &[Bytes(b"before that tasks were interrupted:\n")])?;
        for place in 0..MOST_CUTS {
            let from_last = MOST_CUTS.saturating_sub(place);
            let own = from_end(a, from_last);
            let other = from_end(b, from_last);
            if own.is_some() || other.is_some() {
                let left = self.cut_words(Side::A, own)?;
                let right = self.cut_words(Side::B, other)?;
                push_sides(
                    text,
                    side_width(self.form.width),
                    left.as_slice(),
                    b"|",
                    right.as_slice(),
                )?;
            }
        }
        Ok(())
    }

    // Where a task was interrupted; nothing where there is no such place.
    fn cut_words(&self, side: Side, cut: Option<Cut>) -> Result<Vec<u8>, AllocError> {
        let mut text = Vec::new(self.alloc);
        let Some(cut) = cut else {
            return Ok(text);
        };
        self.push_side(&mut text, side)?;
        push_sentence(
            &mut text,
            &[
                Bytes(b"step "),
                Number(cut.step),
                Bytes(b": task "),
                Bytes(cut.done.task),
                Bytes(b" after "),
            ],
        )?;
        push_words(&mut text, cut.done.words)?;
        push_at(&mut text, &self.runs.of(side), cut.done.pc)?;
        Ok(text)
    }

    // Adds how both runs end.
    fn push_ends(&self, text: &mut Vec<u8>) -> Result<(), AllocError> {
        push_sentence(text, &[Bytes(b"how they end:\n")])?;
        for side in SIDES {
            self.push_side(text, side)?;
            self.push_end(text, side)?;
            push_sentence(text, &[Bytes(b"\n")])?;
        }
        Ok(())
    }

    // Adds how a run ends.
    fn push_end(&self, text: &mut Vec<u8>, side: Side) -> Result<(), AllocError> {
        let end = self.ends.of(side);
        push_sentence(text, &[Bytes(b"after step "), Number(end.step)])?;
        if !self.runs.of(side).session.bare {
            push_sentence(text, &[Bytes(b", tick "), Number(end.tick)])?;
        }
        push_sentence(text, &[Bytes(b": "), Bytes(end.words.as_slice())])
    }

    // Adds which console text is the beginning of the other, or from which byte on they differ.
    fn push_console(&self, text: &mut Vec<u8>) -> Result<(), AllocError> {
        let a = self.runs.a.console;
        let b = self.runs.b.console;
        let same = common_length(a, b);
        if same >= a.len() && same >= b.len() {
            return push_equal(text, same as u64);
        }
        if same >= a.len() {
            push_sentence(
                text,
                &[Bytes(b"the console text of A is the beginning of that of B:\n")],
            )?;
        } else if same >= b.len() {
            push_sentence(
                text,
                &[Bytes(b"the console text of B is the beginning of that of A:\n")],
            )?;
        } else {
            push_sentence(
                text,
                &[
                    Bytes(b"the console texts differ from byte "),
                    Number((same as u64).saturating_add(1)),
                    Bytes(b" on:\n"),
                ],
            )?;
        }
        for side in SIDES {
            self.push_side(text, side)?;
            let bytes = self.runs.of(side).console;
            self.push_part(text, bytes, same.saturating_sub(BYTES_BEFORE))?;
            push_sentence(text, &[Bytes(b"\n")])?;
        }
        Ok(())
    }

    // Adds a console text from a place on, as far as a line has room for it.
    fn push_part(&self, text: &mut Vec<u8>, bytes: &[u8], from: usize) -> Result<(), AllocError> {
        let room = self.form.width.saturating_sub(20);
        let mut part = Vec::new(self.alloc);
        for byte in bytes.iter().skip(from) {
            if part.len() > room {
                break;
            }
            push_console_byte(&mut part, *byte)?;
        }
        if from > 0 {
            push_sentence(text, &[Bytes(b"..")])?;
        }
        if part.len() > room {
            let (shown, _) = part.as_slice().split_at(room.min(part.len()));
            return push_sentence(text, &[Bytes(shown), Bytes(b"..")]);
        }
        push_sentence(text, &[Bytes(part.as_slice())])
    }

    /// Adds that both are the same run.
    pub fn push_same(&self, text: &mut Vec<u8>, following: &Following) -> Result<(), AllocError> {
        self.push_which_same(text)?;
        push_sentence(text, &[Bytes(b", but for steps and ticks")])?;
        if let Some(order) = other_order(following) {
            push_sentence(
                text,
                &[Bytes(b" and the order of what tasks do, which differs from ")],
            )?;
            push_steps(text, steps_of(order))?;
            push_sentence(text, &[Bytes(b" on")])?;
        }
        if self.ends.a.is_cut || self.ends.b.is_cut {
            push_sentence(text, &[Bytes(b", as far as both go")])?;
        }
        self.push_same_ends(text)?;
        self.push_counts(text)?;
        push_sentence(text, &[Bytes(b"\n")])
    }

    // Adds what gives the same run.
    fn push_which_same(&self, text: &mut Vec<u8>) -> Result<(), AllocError> {
        match self.form.ticks {
            Some(ticks) => push_sentence(
                text,
                &[
                    Bytes(self.runs.a.name),
                    Bytes(b" gives the same run with a tick every "),
                    Number(ticks.a),
                    Bytes(b" and every "),
                    Number(ticks.b),
                    Bytes(b" steps"),
                ],
            ),
            None => push_sentence(
                text,
                &[
                    Bytes(self.runs.a.name),
                    Bytes(b" and "),
                    Bytes(self.runs.b.name),
                    Bytes(b" give the same run"),
                ],
            ),
        }
    }

    // Adds how both end, once where that is the same.
    fn push_same_ends(&self, text: &mut Vec<u8>) -> Result<(), AllocError> {
        let mut a = Vec::new(self.alloc);
        self.push_end(&mut a, Side::A)?;
        let mut b = Vec::new(self.alloc);
        self.push_end(&mut b, Side::B)?;
        if a.as_slice() == b.as_slice() {
            return push_sentence(text, &[Bytes(b": both end "), Bytes(a.as_slice())]);
        }
        push_sentence(
            text,
            &[
                Bytes(b": A ends "),
                Bytes(a.as_slice()),
                Bytes(b", and B "),
                Bytes(b.as_slice()),
            ],
        )
    }

    // Adds how much both have written, where that differs.
    fn push_counts(&self, text: &mut Vec<u8>) -> Result<(), AllocError> {
        let a = self.runs.a.console;
        let b = self.runs.b.console;
        if a == b {
            return Ok(());
        }
        push_sentence(
            text,
            &[
                Bytes(b"; A has written "),
                Number(a.len() as u64),
                Bytes(b" bytes, and B "),
                Number(b.len() as u64),
            ],
        )
    }
}

// Adds a step of each run.
fn push_steps(text: &mut Vec<u8>, steps: Both<u64>) -> Result<(), AllocError> {
    push_sentence(
        text,
        &[
            Bytes(b"step "),
            Number(steps.a),
            Bytes(b" of A and step "),
            Number(steps.b),
            Bytes(b" of B"),
        ],
    )
}

// The steps of two lines.
fn steps_of(lines: Both<Line>) -> Both<u64> {
    Both {
        a: lines.a.step,
        b: lines.b.step,
    }
}

// Who does something else.
fn found_deeds<'s, 'a>(following: &'s Following<'a>) -> Option<&'s Deeds<'a>> {
    following.deeds.as_slice().get(following.found?)
}

// The lines from which on the order of what all do differs, if it does.
fn other_order<'a>(following: &Following<'a>) -> Option<Both<Line<'a>>> {
    let order = following.deeds.as_slice().first()?;
    if !order.is_other {
        return None;
    }
    Some(Both {
        a: order.compared.a?,
        b: order.compared.b?,
    })
}

// The same, where that is before these steps.
fn order_before<'a>(following: &Following<'a>, steps: Both<u64>) -> Option<Both<Line<'a>>> {
    let order = other_order(following)?;
    (order.a.step < steps.a && order.b.step < steps.b).then_some(order)
}

// The one with this place from the end, where the last has 1; `None` where there are not so many.
fn from_end<'a>(cuts: &[Cut<'a>], place: usize) -> Option<Cut<'a>> {
    cuts.get(cuts.len().checked_sub(place)?).copied()
}

// Adds that the console texts are equal, of so many bytes.
fn push_equal(text: &mut Vec<u8>, count: u64) -> Result<(), AllocError> {
    if count == 0 {
        return push_sentence(text, &[Bytes(b"nothing was written to the console\n")]);
    }
    let unit: &[u8] = if count == 1 { b" byte\n" } else { b" bytes\n" };
    push_sentence(
        text,
        &[
            Bytes(b"the console texts are equal: "),
            Number(count),
            Bytes(unit),
        ],
    )
}

// Adds a byte of a console text.
fn push_console_byte(text: &mut Vec<u8>, byte: u8) -> Result<(), AllocError> {
    match byte {
        b'\n' => push_sentence(text, &[Bytes(b"\\n")]),
        b' '..=b'~' => push_sentence(text, &[Bytes(&[byte])]),
        _ => push_sentence(text, &[Bytes(b"?")]),
    }
}
