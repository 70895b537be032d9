//! Reading and writing: runs over one frame with what they are given, and readers and writers whose failures are noted.
use cases::{Out, Played, Short, Slow, halves, number, text_of};
use desk_operations::{Exit, frame_run, parse, read_input};
use hall_http::Noted;
use hall_types::Moment;
use play_log::{place, port};

// How a run ends, `PORT TEXT`, from a reader of so many octets a call that fails at a call, to a writer that takes so many and then fails.
fn print_run(words: &str, step: usize, call: u64, room: usize, out: &mut Out) -> Played {
    let (at, input) = halves(words, " ")?;
    let port = port(at)?;
    let place = place(out.alloc())?;
    let input = text_of(out.alloc(), input)?;
    let mut reader = Slow::new(input.as_slice(), step, Some(call));
    let mut writer = Short::new(Vec::new(out.alloc()), room);
    let exit = frame_run(out.alloc(), &mut reader, &mut writer, port, &place);
    let word = match exit {
        Exit::Done => "done",
        Exit::Fault(fault) => fault.name(),
        Exit::NotAll => "not all",
        Exit::Silence => "silence",
    };
    out.show(format_args!("{} {word}\n", exit.status()));
    out.escaped(writer.taken.as_slice());
    Ok(())
}

/// How a run over a frame ends, with the exit status, and what it writes: `PORT TEXT`.
pub fn run(rest: &str, out: &mut Out) -> Played {
    print_run(rest, usize::MAX, 0, usize::MAX, out)
}

/// How such a run ends where the read of a call fails, none at the call 0, or the write that room is missing for: `CALL ROOM PORT TEXT`.
pub fn cut_run(rest: &str, out: &mut Out) -> Played {
    let (call, rest) = halves(rest, " ")?;
    let (room, rest) = halves(rest, " ")?;
    print_run(rest, 1, number(call)?, number(room)? as usize, out)
}

/// The octets of an input, and the lines of 52:54:00:12:34:56 and ab:cd:ef:00:00:01 in it, 0 where they aren't listed.
pub fn input(rest: &str, out: &mut Out) -> Played {
    let text = text_of(out.alloc(), rest)?;
    match &parse(out.alloc(), text.as_slice()) {
        Ok(input) => {
            let first = input.line_of(&[0x52, 0x54, 0, 0x12, 0x34, 0x56]);
            let second = input.line_of(&[0xab, 0xcd, 0xef, 0, 0, 1]);
            let [first, second] = [first, second].map(|line| line.map_or(0, |line| line.get()));
            out.show(format_args!("lines {first} and {second}\n"));
            out.hex(input.octets());
        }
        Err(fault) => out.push(fault.name()),
    }
    Ok(())
}

/// What is read of an input, at once and an octet at a time.
pub fn whole(rest: &str, out: &mut Out) -> Played {
    let given = text_of(out.alloc(), rest)?;
    for step in [usize::MAX, 1] {
        out.separate();
        match &read_input(out.alloc(), &mut Slow::new(given.as_slice(), step, None)) {
            Ok(octets) if octets.as_slice() == given.as_slice() => out.push("the same"),
            Ok(_) => out.push("others"),
            Err(fault) => out.push(fault.name()),
        }
    }
    Ok(())
}

/// The moment of a text.
pub fn seconds(rest: &str, out: &mut Out) -> Played {
    match rest.parse::<Moment>() {
        Ok(moment) => out.show(moment.get()),
        Err(_) => out.push("none"),
    }
    Ok(())
}

fn print_count(count: Option<usize>, has_failed: bool, out: &mut Out) {
    out.separate();
    match count {
        Some(count) => out.show(count),
        None => out.push("none"),
    }
    out.push(if has_failed { " failed" } else { "" });
}

/// What takes from a reader of one octet a call give, up to the end or the call that fails: `CALL TEXT`. At the call 0 none fails.
pub fn takes(rest: &str, out: &mut Out) -> Played {
    let (call, text) = halves(rest, " ")?;
    let mut reader = Noted::new(Slow::new(text.as_bytes(), 1, Some(number(call)?)));
    for _ in 0..=text.len() {
        let taken = reader.take(&mut [0; 4]);
        print_count(taken, reader.failed(), out);
        if taken.unwrap_or(0) == 0 {
            break;
        }
    }
    out.show(format_args!("; takes {}", reader.takes()));
    Ok(())
}

/// How many octets of each word a writer with room for three takes, which then takes none. `-` is no octet.
pub fn puts(rest: &str, out: &mut Out) -> Played {
    let mut octets = [0; 3];
    let mut writer = Noted::new(&mut octets[..]);
    for word in rest.split(' ') {
        let word = if word == "-" { "" } else { word };
        print_count(writer.put(word.as_bytes()), writer.failed(), out);
    }
    out.show(format_args!("; room {}", writer.into_inner().len()));
    Ok(())
}
