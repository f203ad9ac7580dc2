// What is kept of the answers to one kind of question.
use plain::answers::{Bracket, Mark, Match, Token};
use plain::faults::TextFault;

#[derive(Clone, Copy)]
pub struct Tally {
    pub asked: u32,
    pub sum: u64,
    pub most: u64,
}

impl Tally {
    pub(crate) fn new() -> Tally {
        Tally {
            asked: 0,
            sum: 0xCBF29CE484222325,
            most: 0,
        }
    }

    // One number more of an answer.
    pub(crate) fn add(&mut self, number: u32) {
        self.sum = (self.sum ^ u64::from(number)).wrapping_mul(0x100000001B3);
    }

    // A question was answered, with so many reads.
    pub(crate) fn count(&mut self, reads: u64) {
        self.asked = self.asked.saturating_add(1);
        self.most = self.most.max(reads);
    }

    pub(crate) fn refuse(&mut self, fault: TextFault) {
        self.add(1000 + u32::from(fault.number()));
    }

    pub(crate) fn add_token(&mut self, token: Option<Token>) {
        match token {
            Some(token) => {
                self.add(token.start);
                self.add(token.end);
                self.add(token.number);
                self.add(token.kind as u32);
            }
            None => self.add(2000),
        }
    }

    pub(crate) fn add_bracket(&mut self, bracket: Option<Bracket>) {
        match bracket {
            Some(found) => match found {
                Bracket::Paired { partner, fit } => {
                    self.add(partner);
                    match fit {
                        Match::Fits => self.add(1),
                        Match::Crossed => self.add(2),
                    }
                }
                Bracket::Alone => self.add(3),
            },
            None => self.add(2000),
        }
    }

    pub(crate) fn add_mark(&mut self, mark: Option<Mark>) {
        match mark {
            Some(mark) => {
                self.add(mark.offset);
                self.add(u32::from(mark.label));
            }
            None => self.add(2000),
        }
    }
}
