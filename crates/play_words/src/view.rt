//! What hallview knows of halls: what their desks answer.
use crate::pages::show;
use cases::{CaseFault, Out, Played, Player, first, number};
use hall_types::Name;
use hallview_state::{Hall, Loss, Received, State};
use std::alloc::Global;

/// What is known of halls.
#[derive(Drop)]
pub(crate) struct View {
    alloc: Global,
    state: State,
}

// Why no answer came, by a word.
fn loss_of(word: &str) -> Option<Loss> {
    match word {
        "no-address" => Some(Loss::NoAddress),
        "no-connection" => Some(Loss::NoConnection),
        "no-answer" => Some(Loss::NoAnswer),
        "not-http" => Some(Loss::NotHttp),
        "too-long" => Some(Loss::TooLong),
        "memory" => Some(Loss::Memory),
        _ => None,
    }
}

impl View {
    /// No hall is known yet.
    pub(crate) fn new(alloc: Global) -> View {
        View {
            alloc,
            state: State::new(alloc, 0, false),
        }
    }

    fn begin(&mut self, words: &str) -> Played {
        self.state = State::new(self.alloc, number(words)?, false);
        Ok(())
    }

    fn name_halls(&mut self) -> Played {
        self.state.is_named = true;
        Ok(())
    }

    fn add_hall(&mut self, name: &str) -> Played {
        let Ok(own) = name.parse::<Name>() else {
            return Err(CaseFault::Form);
        };
        let desk = format!(in self.alloc; "http://{name}.example")?;
        let hall = Hall::new(self.alloc, own, desk.as_str(), 5)?;
        self.state.halls.push(hall)?;
        Ok(())
    }

    // The hall with this name.
    fn hall(&mut self, name: &str) -> Result<&mut Hall, CaseFault> {
        let mut halls = self.state.halls.iter_mut();
        halls
            .find(|hall| hall.name.text() == name)
            .ok_or(CaseFault::Form)
    }

    fn take(&mut self, status: u16, words: &str) -> Played {
        let (name, words) = first(words);
        let (now, words) = first(words);
        let (took, body) = first(words);
        let (now, took, alloc) = (number(now)?, number(took)?, self.alloc);
        let received = Received {
            status,
            octets: Vec::from_slice(alloc, body.as_bytes())?,
            start: 0,
        };
        self.hall(name)?.take(alloc, received, now, took);
        Ok(())
    }

    fn lose(&mut self, words: &str) -> Played {
        let (name, word) = first(words);
        let loss = loss_of(word).ok_or(CaseFault::Form)?;
        self.hall(name)?.lose(loss);
        Ok(())
    }
}

impl Player for View {
    fn play(&mut self, act: &str, out: &mut Out) -> Played {
        let (kind, rest) = first(act);
        match kind {
            "begin" => self.begin(rest),
            "named" => self.name_halls(),
            "hall" => self.add_hall(rest),
            "list" => self.take(200, rest),
            "refused" => self.take(401, rest),
            "lose" => self.lose(rest),
            "get" | "part" | "post" | "fields" | "open" => show(kind, &self.state, rest, out),
            _ => Err(CaseFault::Act),
        }
    }
}
