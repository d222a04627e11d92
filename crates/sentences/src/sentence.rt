// The rule as one sentence in words. What follows a colon, to the end of its line or in the lines set in below it, belongs to it; "line 7"
// refers to the numbered lines.
ghost use Rattle.std.specs.Prelude.{◌≡◌, ◌<◌, length, IfSome};
ghost use Rattle.sentences.specs.Pages.{Kept, Narrow};

use crate::page;
use crate::page::Page;
use crate::parts::{Mark, OnAndOff, Parts};
use sheets::lines::Line;
use sheets::{format, lines, rules};
use std::fmt;
use std::fmt::Display;

// ---- signals

// That the signals of a set are on, or off: "signal 1 is on", "signals 1, 2 and 3 are off", "neither signal 1 nor signal 2 is on". `on`
// is what is said of them, and no kind of set; the set is the bits of a word, as in the format.
#[derive(Clone, Copy)]
struct Signals {
    set: u16,
    on: bool,
}

impl Display for Signals {
    fn fmt<W: fmt::Write>(&self, f: &mut fmt::Formatter<W>) -> fmt::Result {
        let count = self.set.count_ones();
        match (count, self.on) {
            (1, true) => self.list(f, "signal ", "", " is on"),
            (1, false) => self.list(f, "signal ", "", " is off"),
            (2, false) => self.list(f, "neither signal ", " nor signal ", " is on"),
            (_, true) => self.list(f, "signals ", " and ", " are on"),
            (_, false) => self.list(f, "signals ", " and ", " are off"),
        }
    }
}

impl Signals {
    // The numbers of the signals with the words around them, commas between them and a word before the last one.
    fn list<W: fmt::Write>(
        &self,
        f: &mut fmt::Formatter<W>,
        head: &str,
        last: &str,
        tail: &str,
    ) -> fmt::Result {
        f.write_str(head)?;
        for i in 0..format::WORD_BITS {
            let from = self.set >> i;
            if from & 1 == 1 {
                let left = from.count_ones();
                if left < self.set.count_ones() {
                    f.write_str(if left == 1 { last } else { ", " })?;
                }
                write!(f, "{}", i + 1)?;
            }
        }
        f.write_str(tail)
    }
}

impl OnAndOff {
    fn on(self) -> Signals {
        Signals {
            set: self.on,
            on: true,
        }
    }

    fn off(self) -> Signals {
        Signals {
            set: self.off,
            on: false,
        }
    }

    fn none(self) -> bool {
        self.on | self.off == 0
    }
}

// Those that are on, and those that are off; no words where there are none.
impl Display for OnAndOff {
    fn fmt<W: fmt::Write>(&self, f: &mut fmt::Formatter<W>) -> fmt::Result {
        let on = self.on();
        let off = self.off();
        match (self.on != 0, self.off != 0) {
            (true, true) => write!(f, "{on}, and {off}"),
            (true, false) => write!(f, "{on}"),
            (false, true) => write!(f, "{off}"),
            (false, false) => Ok(()),
        }
    }
}

// ---- parts

// A part that is a line: how it is said by the number of a line alone, and how with a colon and what follows it.
#[derive(Clone, Copy)]
enum Part {
    // Some next node has this line.
    SomeNext(u16),
    // No next node has it.
    NoNext(u16),
    // This line, "or", holds: it is not that neither does.
    Either(u16),
    // This line with its mark, which no words can stand for.
    Other(u16, Mark),
}

impl Part {
    // Line l with its mark.
    fn of(rule: &[u16], l: u16, mark: Mark) -> Part {
        match (lines::decode(rule, l), mark.holds, mark.fails) {
            (Some(Line::SomePath(p)), true, false) => Part::SomeNext(p.lines[0]),
            (Some(Line::SomePath(p)), false, true) => Part::NoNext(p.lines[0]),
            (Some(Line::Either(_, _)), true, false) => Part::Either(l),
            _ => Part::Other(l, mark),
        }
    }

    // The words before the colon, and the line that follows it with its mark.
    fn opened(self) -> Option<(&'static str, u16, Mark)> {
        match self {
            Part::SomeNext(j) => Some(("some next node has", j, Mark::HOLDS)),
            Part::NoNext(j) => Some(("no next node has", j, Mark::HOLDS)),
            Part::Either(l) => Some(("not", l, Mark::FAILS)),
            Part::Other(_, _) => None,
        }
    }
}

// The part by the number of a line alone.
impl Display for Part {
    fn fmt<W: fmt::Write>(&self, f: &mut fmt::Formatter<W>) -> fmt::Result {
        match *self {
            Part::SomeNext(j) => write!(f, "some next node has line {j}"),
            Part::NoNext(j) => write!(f, "no next node has line {j}"),
            Part::Either(l) => write!(f, "line {l} holds"),
            Part::Other(l, mark) => write!(f, "line {l} {mark}"),
        }
    }
}

// ---- places

// Where a part is put: how many parts may be opened one in the other from there on, how far its line is set in, how many parts are still
// to be put, this one and those after it, whether parts go on in the same line, and whether this one follows another. The two flags have
// no value beside them that is there for one answer alone: a level and a number of parts are kept in the same line too.
#[derive(Clone, Copy)]
struct Place {
    deep: u16,
    level: u16,
    owed: u16,
    flow: bool,
    second: bool,
}

// How many bytes one more part takes in the same line: at most 38 and a comma, since ", and line 938 holds and does not hold" is the
// longest. Without one, a comma may follow.
const ONE_MORE: usize = 39;

const COMMA: usize = 1;

const LINES: usize = page::HEIGHT as usize;

impl Place {
    // The place of the first part that is a line, behind the signals.
    fn behind_signals(self, parts: &Parts) -> Place
        ensures { result.deep ≡ self.deep }
    {
        Place {
            owed: self.owed.wrapping_add(parts.rest),
            second: !parts.signals.none(),
            ..self
        }
    }

    // The place after a part.
    fn after_part(self) -> Place
        ensures { result.deep ≡ self.deep }
    {
        Place {
            owed: self.owed.wrapping_sub(1),
            second: true,
            ..self
        }
    }

    // There are lines left: below those that are ended, one for each part that is still to be put, and for what is set in below this one
    // as many as it has parts, and two for signals.
    fn has_lines(self, ended: u16, rest: u16) -> bool {
        ended as usize + self.owed as usize + rest as usize + 2 <= LINES
    }

    // Where the parts stand that follow these words and a colon, if there is room for them: in the same line, where that has room for the
    // signals and for no line or one, or else in lines of their own, set in one level more.
    fn below(self, page: &Page, words: &str, inner: &Parts) -> Option<Place>
        ensures { IfSome result (λ place. place.deep < self.deep) }
    {
        let deep = self.deep.checked_sub(1)?;
        let signals = inner.signals;
        let left = page
            .room_behind(format_args!("{words}: {signals}"))
            .unwrap_or(0);
        let flow = match inner.rest {
            0 => left >= COMMA,
            1 => left >= ONE_MORE,
            _ => false,
        };
        if !flow && (!self.has_lines(page.lines(), inner.rest) || self.level >= 11) {
            return None;
        }
        Some(Place {
            deep,
            level: if flow { self.level } else { self.level + 1 },
            owed: self.owed.wrapping_sub(1),
            flow,
            second: false,
        })
    }
}

// Here and below the page and the place are two: the page is written to, and a place is a value, which parts that are set in get anew.

// "and", in the same line or in the next one.
#[tactic(auto, using(crate::proofs::Pages::kept_then))]
fn put_and(page: &mut Page, at: Place) -> fmt::Result
    ensures { Kept page.old page.new }
{
    if at.flow {
        return page.put(b", and ");
    }
    page.put(b",")?;
    page.begin_line(at.level)?;
    page.put(b"and ")
}

// The signals: in lines that are set in, those that are off go into the next one where the line has no room for both and a comma.
#[tactic(auto, using(crate::proofs::Pages::kept_then))]
fn put_signals(page: &mut Page, at: Place, signals: OnAndOff) -> fmt::Result
    ensures { Kept page.old page.new }
{
    let whole = at.flow
        || signals.on == 0
        || signals.off == 0
        || page.room_behind(signals).unwrap_or(0) >= COMMA;
    if whole {
        return page.say(signals);
    }
    page.say(signals.on())?;
    put_and(page, at)?;
    page.say(signals.off())
}

// The colon, and the line's end where the parts stand in lines of their own.
#[tactic(auto, using(crate::proofs::Pages::kept_then))]
fn put_colon(page: &mut Page, below: Place) -> fmt::Result
    ensures { Kept page.old page.new }
{
    if below.flow {
        return page.put(b": ");
    }
    page.put(b":")?;
    page.begin_line(below.level)
}

// ---- the sentence

// The parts of a line, joined by "and", each opened where there is room.
#[cycle(parts)]
#[tactic(auto, using(crate::proofs::Pages::kept_then))]
fn put_parts(rule: &[u16], page: &mut Page, at: Place, parts: &Parts) -> fmt::Result
    ensures { Kept page.old page.new }
{
    put_signals(page, at, parts.signals)?;
    let mut there = at.behind_signals(parts);
    for l in 1..=parts.line {
        let mark = parts.mark_of(l);
        if mark != Mark::NONE {
            if there.second {
                put_and(page, there)?;
            }
            put_part(rule, page, there, Part::of(rule, l, mark))?;
            there = there.after_part();
        }
    }
    Ok(())
}

// A part: opened where there is room, otherwise by the number of a line.
#[cycle(parts)]
#[tactic(auto, using(crate::proofs::Pages::kept_then))]
fn put_part(rule: &[u16], page: &mut Page, at: Place, part: Part) -> fmt::Result
    ensures { Kept page.old page.new }
{
    if let Some((words, line, mark)) = part.opened() {
        let inner = Parts::of(rule, line, mark);
        if let Some(below) = at.below(page, words, &inner) {
            page.say(words)?;
            put_colon(page, below)?;
            return put_parts(rule, page, below, &inner);
        }
    }
    page.say(part)
}

// The sentence of the rule, its last line, on an empty page.
#[tactic(auto, using(crate::proofs::Pages::kept_then))]
fn put_rule(rule: &[u16], page: &mut Page) -> fmt::Result
    ensures { Kept page.old page.new }
{
    let whole = Place {
        deep: 12,
        level: 1,
        owed: 0,
        flow: false,
        second: false,
    };
    page.indent(1)?;
    put_parts(
        rule,
        page,
        whole,
        &Parts::of(rule, rules::lines(rule), Mark::HOLDS),
    )?;
    page.end_line()
}

// Puts the sentence of the rule on the page, and answers its text. A sentence that found no room is left out: its text is empty.
pub fn sentence<'p>(rule: &[u16], page: &'p mut Page) -> &'p [u8]
    ensures { Narrow result.now (length result.now) }
{
    *page = Page::empty();
    if put_rule(rule, page).is_err() {
        return &[];
    }
    page.text()
}
