//! Command lines of hallctl that are carried out.
use crate::stage::{Sent, Stage, USUAL_DESK, USUAL_TOKEN};
use crate::words::{line_of, words_of};
use cases::{CaseFault, Out, Played};
use hallctl_tasks::carry_out;
use hallctl_words::Line;

// What stands after a text in the line of it.
fn after<'t>(text: &'t str, start: &str) -> &'t str {
    let (_, rest) = text.split_once(start).unwrap_or((text, ""));
    let (line, _) = rest.split_once('\r').unwrap_or((rest, ""));
    line
}

// Prints which desk was asked, and with which token, where they aren't the usual ones.
fn show_asked(text: &str, out: &mut Out) {
    let (host, token) = (after(text, "\nHost: "), after(text, "Bearer "));
    if host != USUAL_DESK || token != USUAL_TOKEN {
        out.show(format_args!("{host} with {token}: "));
    }
}

// Prints the request line without its version, and the body.
fn show_sent(sent: &Sent, out: &mut Out) {
    let text = std::str::from_utf8(sent.octets.as_slice()).unwrap_or("no text");
    let (line, rest) = text.split_once(" HTTP/1.1\r\n").unwrap_or((text, ""));
    let (_, body) = rest.split_once("\r\n\r\n").unwrap_or((rest, ""));
    let (tries, time) = (sent.tries, sent.last.saturating_sub(sent.first));
    out.push("tried ");
    if tries > 1 {
        out.show(format_args!("{tries} times in {time} ms: "));
    }
    show_asked(text, out);
    out.push(line);
    out.push(if body.is_empty() { "" } else { " " });
    out.line(body);
}

// Each line of a text, after a word. What is written over itself is a line for each time.
fn show_each(word: &str, text: &str, out: &mut Out) {
    for line in text.lines() {
        for part in line.split('\r').filter(|part| !part.is_empty()) {
            out.push(word);
            out.line(part.trim_end());
        }
    }
}

impl Stage<'_> {
    // Carries out a line, and gives its exit status.
    fn carry_out(&mut self, line: &Line<'_>) -> Result<u8, CaseFault> {
        match carry_out(self.rt.alloc(), self, line) {
            Ok(end) => Ok(end.status()),
            Err(fault) => {
                self.err.show(format_args!("{fault}\n"));
                Ok(1)
            }
        }
    }

    // What the line left.
    fn show(&mut self, out: &mut Out) -> Played {
        for sent in self.sent.as_slice() {
            show_sent(sent, out);
        }
        for file in self.files.iter().filter(|file| file.is_made) {
            let word = format!(in out.alloc(); "made {}: ", file.path)?;
            let text = std::str::from_utf8(file.octets.as_slice()).unwrap_or("no text");
            show_each(word.as_str(), text, out);
        }
        show_each("out ", self.out.take()?.as_str(), out);
        show_each("err ", self.err.take()?.as_str(), out);
        if self.is_timed {
            out.show(format_args!("after {} ms\n", self.clock));
        }
        Ok(())
    }

    /// Carries out the command line after the program's name.
    pub(crate) fn run(&mut self, text: &str, out: &mut Out) -> Played {
        let text = text.strip_prefix("hallctl ").ok_or(CaseFault::Form)?;
        let words = words_of(out.alloc(), "hallctl", text)?;
        let line = line_of(out.alloc(), words.as_slice())?;
        let status = self.carry_out(&line)?;
        self.show(out)?;
        out.show(format_args!("status {status}"));
        Ok(())
    }
}
