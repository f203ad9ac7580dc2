// All questions, at every offset and a little past the end.
use crate::tallies::Tally;
use measures::Measure;
use measures::longest_line::LongestLine;
use pieces::head::{MarkRecord, TextRecord};
use stores::Store;
use text::view::View;

pub type Slot = TextRecord<LongestLine>;

#[derive(Clone, Copy)]
pub struct Asked {
    pub line_of: Tally,
    pub start_of: Tally,
    pub token_at: Tally,
    pub token_number: Tally,
    pub bracket_at: Tally,
    pub mark_from: Tally,
    pub range: Tally,
    pub whole: Tally,
}

// One more than the last offset, so that a refusal is among the answers.
const LAST: u32 = 620;

fn lines_of<S: Store>(view: View, slots: &[Slot], store: &mut S) -> Tally {
    let mut tally = Tally::new();
    for at in 0..LAST {
        let before = store.count();
        match view.line_of::<S, LongestLine>(slots, store, at) {
            Ok(place) => {
                tally.add(place.line);
                tally.add(place.column);
            }
            Err(fault) => tally.refuse(fault),
        }
        tally.count(store.count().saturating_sub(before));
    }
    tally
}

fn starts_of<S: Store>(view: View, slots: &[Slot], store: &mut S) -> Tally {
    let mut tally = Tally::new();
    for line in 0..60 {
        let before = store.count();
        match view.start_of::<S, LongestLine>(slots, store, line) {
            Ok(start) => match start {
                Some(start) => tally.add(start),
                None => tally.add(2000),
            },
            Err(fault) => tally.refuse(fault),
        }
        tally.count(store.count().saturating_sub(before));
    }
    tally
}

fn tokens_at<S: Store>(view: View, slots: &[Slot], store: &mut S) -> Tally {
    let mut tally = Tally::new();
    for at in 0..LAST {
        let before = store.count();
        match view.token_at::<S, LongestLine>(slots, store, at) {
            Ok(token) => tally.add_token(token),
            Err(fault) => tally.refuse(fault),
        }
        tally.count(store.count().saturating_sub(before));
    }
    tally
}

fn tokens_numbered<S: Store>(view: View, slots: &[Slot], store: &mut S) -> Tally {
    let mut tally = Tally::new();
    for number in 0..400 {
        let before = store.count();
        match view.token_number::<S, LongestLine>(slots, store, number) {
            Ok(token) => tally.add_token(token),
            Err(fault) => tally.refuse(fault),
        }
        tally.count(store.count().saturating_sub(before));
    }
    tally
}

fn brackets_at<S: Store>(view: View, slots: &[Slot], store: &mut S) -> Tally {
    let mut tally = Tally::new();
    for at in 0..LAST {
        let before = store.count();
        match view.bracket_at::<S, LongestLine>(slots, store, at) {
            Ok(bracket) => tally.add_bracket(bracket),
            Err(fault) => tally.refuse(fault),
        }
        tally.count(store.count().saturating_sub(before));
    }
    tally
}

fn marks_from(view: View, slots: &[Slot], marks: &[MarkRecord]) -> Tally {
    let mut tally = Tally::new();
    for at in 0..LAST {
        match view.mark_from::<LongestLine>(slots, marks, at) {
            Ok(mark) => tally.add_mark(mark),
            Err(fault) => tally.refuse(fault),
        }
        tally.count(0);
    }
    tally
}

fn ranges<S: Store>(view: View, slots: &[Slot], store: &mut S) -> Tally {
    let mut tally = Tally::new();
    for from in 0..LAST {
        for width in [0, 1, 17, 300] {
            let before = store.count();
            match view.range::<S, LongestLine>(slots, store, from, from.saturating_add(width)) {
                Ok(value) => tally.add(value.longest()),
                Err(fault) => tally.refuse(fault),
            }
            tally.count(store.count().saturating_sub(before));
        }
    }
    tally
}

fn wholes(view: View, slots: &[Slot]) -> Tally {
    let mut tally = Tally::new();
    match view.whole::<LongestLine>(slots) {
        Ok(summary) => {
            tally.add(summary.bytes);
            tally.add(summary.lines);
            tally.add(summary.tokens);
            tally.add(summary.strays);
            tally.add(summary.unmet);
        }
        Err(fault) => tally.refuse(fault),
    }
    tally.count(0);
    tally
}

pub(crate) fn ask_all<S: Store>(
    view: View,
    slots: &[Slot],
    marks: &[MarkRecord],
    store: &mut S,
) -> Asked {
    Asked {
        line_of: lines_of(view, slots, store),
        start_of: starts_of(view, slots, store),
        token_at: tokens_at(view, slots, store),
        token_number: tokens_numbered(view, slots, store),
        bracket_at: brackets_at(view, slots, store),
        mark_from: marks_from(view, slots, marks),
        range: ranges(view, slots, store),
        whole: wholes(view, slots),
    }
}
