//! Plays the command lines of both programs: what they ask for, and what hallctl sends, prints and tells. A command line's words are apart by
//! one blank; `~` stands for a blank in a word, `''` for an empty word. Files `NAME.view.cases` are of what hallview knows of halls and what it
//! answers: lists of desks in, pages, metrics and JSON out. How the acts read stands at the head of each file of cases.
#![tactic(auto)]

mod asked;
mod desk;
mod pages;
mod running;
mod stage;
mod texts;
mod view;
mod wishes;
mod words;

use asked::show_asked;
use cases::{CaseFile, Comparison, Out, Played, Player, first, play_cases};
use hallctl_words::completion;
use stage::Stage;
use std::mem;
use std::process::ExitCode;
use texts::show_text;
use view::View;
use wishes::show_wish;

impl Player for Stage<'_> {
    fn play(&mut self, act: &str, out: &mut Out) -> Played {
        let (kind, rest) = first(act);
        match kind {
            "hallboot" => show_asked(self.rt, rest, out)?,
            "hallctl" => show_wish(rest, out)?,
            "list" | "lines" | "answer" | "refusal" | "warning" => show_text(kind, rest, out)?,
            "completion" => out.push(completion(out.alloc())?.as_str()),
            // After it all is as at first.
            "run" => mem::replace(self, Stage::new(self.rt)).run(rest, out)?,
            _ => self.set(kind, rest)?,
        }
        Ok(())
    }
}

/// Command lines, and what hallview knows of halls.
#[derive(Drop)]
struct Players<'r> {
    stage: Stage<'r>,
    view: View,
}

impl Player for Players<'_> {
    fn play(&mut self, act: &str, out: &mut Out) -> Played {
        self.stage.play(act, out)
    }

    fn play_file(&mut self, file: &CaseFile<'_>, comparison: &mut Comparison) -> Played {
        if file.name.ends_with(".view.cases") {
            return self.view.play_file(file, comparison);
        }
        self.stage.play_file(file, comparison)
    }
}

fn main(rt: HostRuntime) -> ExitCode {
    let mut players = Players {
        stage: Stage::new(&rt),
        view: View::new(rt.alloc()),
    };
    play_cases(&rt, "play_words", &mut players)
}
