//! Playing the files that a program's arguments name.
use crate::comparing::Comparison;
use crate::fault::{CaseFault, Played};
use crate::lines::{CaseFile, lines_of};
use crate::printing::Out;
use std::alloc::Global;
use std::process::ExitCode;
use std::{env, fs};

/// What acts are played on.
pub trait Player {
    /// Does what an act says, and prints what comes of it.
    fn play(&mut self, act: &str, out: &mut Out) -> Played;

    /// What comes of an act: what is printed, and after it the fault, where the act isn't played to its end. Want of memory is the caller's.
    fn came(&mut self, alloc: Global, act: &str) -> Result<String, CaseFault> {
        let mut out = Out::new(alloc);
        match self.play(act, &mut out) {
            Ok(()) => {}
            Err(CaseFault::Memory) => return Err(CaseFault::Memory),
            Err(fault) => out.show(format_args!("fault: {fault}")),
        }
        out.into_text()
    }

    /// Plays the acts of a file, and compares what comes of each.
    fn play_acts(&mut self, file: &CaseFile<'_>, comparison: &mut Comparison) -> Played {
        for at in 0..file.lines.len() {
            if let Some(act) = file.act(at) {
                let came = self.came(comparison.alloc(), act)?;
                comparison.compare(file, at, came.as_str());
            }
        }
        Ok(())
    }

    /// Plays a file, whose name may say by whom: its acts, where this isn't written anew.
    fn play_file(&mut self, file: &CaseFile<'_>, comparison: &mut Comparison) -> Played {
        self.play_acts(file, comparison)
    }
}

/// The names of the files that the arguments are.
pub fn files_of(rt: &HostRuntime) -> Result<Vec<String>, CaseFault> {
    Ok(env::args(rt)?.skip(1).collect(rt.alloc())?)
}

/// Plays a file, and prints what differs.
pub fn play_named<P: Player>(
    rt: &HostRuntime,
    player: &mut P,
    name: &str,
    comparison: &mut Comparison,
) -> Played {
    let text = fs::read_to_string(rt, name)?;
    let lines = lines_of(rt.alloc(), text.as_str())?;
    let file = CaseFile {
        name,
        lines: lines.as_slice(),
    };
    comparison.begin(&file);
    let played = player.play_file(&file, comparison);
    let report = comparison.take_report()?;
    print!(rt; "{report}")?;
    played
}

fn play_files<P: Player>(rt: &HostRuntime, player: &mut P) -> Played {
    let mut comparison = Comparison::new(rt.alloc());
    let files = files_of(rt)?;
    for name in files.as_slice() {
        play_named(rt, player, name.as_str(), &mut comparison)?;
    }
    let counts = comparison.counts()?;
    Ok(print!(rt; "{counts}\n")?)
}

/// Plays the files that the arguments name, and prints what differs and how much it was. Status 1 is of a file that can't be read, and of
/// want of memory, with a line on standard error.
pub fn play_cases<P: Player>(rt: &HostRuntime, program: &str, player: &mut P) -> ExitCode {
    match play_files(rt, player) {
        Ok(()) => ExitCode::from(0),
        Err(fault) => {
            let _ = eprintln!(rt; "{program}: {fault}");
            ExitCode::from(1)
        }
    }
}
