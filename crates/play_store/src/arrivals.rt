//! Arrivals at a desk over the store: one by itself, the first octets of one, several by one run.
use crate::hall::Hall;
use crate::readings::{answer_again, front_of, octets_of};
use cases::{CaseFault, Out, Played};
use desk_lines::{arrival_members, arrival_text, is_of_note};
use hall_desk::{Answer, Arrival, Desk, Input};
use hall_store::HallStore;
use play_log::{arrival, push_answer};
use std::alloc::Global;

fn text_of(alloc: Global, input: &Input, answer: &Answer) -> Result<String, CaseFault> {
    let mut out = Out::new(alloc);
    push_answer(&mut out, input, answer)?;
    out.into_text()
}

fn push_fronts<S: HallStore>(desk: &mut Desk<S>, arrival: &Arrival, out: &mut Out) -> Played {
    let mut last = String::new(out.alloc());
    for len in 0..octets_of(&arrival.input).len() {
        let front = front_of(out.alloc(), arrival, len)?;
        let answer = desk.answer(out.alloc(), &front);
        let text = text_of(out.alloc(), &front.input, &answer)?;
        if text.as_str() != last.as_str() {
            out.show(format_args!("from {len} {text}\n"));
            last = text;
        }
    }
    Ok(())
}

impl<S: HallStore + Drop> Hall<S> {
    /// Answers an arrival, a request once it was read anew.
    pub(crate) fn arrive(&mut self, words: &str, out: &mut Out) -> Played {
        let arrival = arrival(out.alloc(), words)?;
        let mut desk = self.take_desk(out.alloc())?;
        let answer = answer_again(out.alloc(), &mut desk, &arrival);
        let probe = desk.into_store();
        self.asked.note(&arrival.input, &probe);
        self.put_back(probe);
        push_answer(out, &arrival.input, &answer)
    }

    /// Answers an arrival, and prints what a log says of it: a text, or the members of the object that a log in JSON has for it.
    pub(crate) fn log(&mut self, kind: &str, words: &str, out: &mut Out) -> Played {
        let arrival = arrival(out.alloc(), words)?;
        let mut desk = self.take_desk(out.alloc())?;
        if kind == "log_unlisted" {
            desk = desk.without_enlisting();
        }
        let (answer, account) = desk.answer_with_account(out.alloc(), &arrival);
        self.put_back(desk.into_store());
        let what = arrival.input.what();
        if !is_of_note(what, &answer, &account) {
            out.push("not in the log: ");
        }
        let text = match kind {
            "log_object" => arrival_members(out.alloc(), what, &answer, &account),
            _ => arrival_text(out.alloc(), what, &answer, &account),
        };
        out.push(text?.as_str());
        Ok(())
    }

    /// Answers the first octets of an arrival: none of them, one, two and so on, but never all of them. Prints each answer that isn't that
    /// before it, after the number of octets.
    pub(crate) fn cuts(&mut self, words: &str, out: &mut Out) -> Played {
        let arrival = arrival(out.alloc(), words)?;
        let mut desk = self.take_desk(out.alloc())?;
        let pushed = push_fronts(&mut desk, &arrival, out);
        self.put_back(desk.into_store());
        pushed
    }

    /// Answers arrivals by one run of a desk over the store: the answers, or none where the run had no memory for them.
    pub fn run(&mut self, alloc: Global, acts: &[&str]) -> Result<Option<Vec<String>>, CaseFault> {
        let arrivals = acts.iter().map(|act| arrival(alloc, act));
        let arrivals: Vec<Arrival> = arrivals.try_collect(alloc)?;
        let mut desk = self.take_desk(alloc)?;
        let answers = desk.run(alloc, arrivals.as_slice());
        self.put_back(desk.into_store());
        self.asked.note_run(acts.len());
        let Ok(answers) = answers else {
            return Ok(None);
        };
        let answered = arrivals.iter().zip(answers.as_slice());
        let texts = answered.map(|(arrival, answer)| text_of(alloc, &arrival.input, answer));
        Ok(Some(texts.try_collect(alloc)?))
    }
}
