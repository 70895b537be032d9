//! What the words ask for is done.
use crate::init::init;
use crate::over_file::{Doing, ended_over, looked_at, of_file, outcome_of, over_file};
use crate::restoring::{backup, restore, sum_of_copy};
use desk_operations::{Exit, frame_run};
use hall_report::Fault;
use hallboot_files::first_open_to_others;
use hallboot_tasks::{Suspended, tell};
use hallboot_words::{Failure, Frame, Job, Serving, Task};
use sql_file::migrate;
use sql_tables::Migrated;

fn carry_over(rt: &HostRuntime, path: &str) -> Result<Exit, Fault> {
    looked_at(rt, path)?;
    let ended = migrate(rt, path).map_err(of_file)?;
    let text = match outcome_of(rt, path, false, ended) {
        Migrated::Now => "migrated\n",
        Migrated::Already => "already\n",
    };
    desk_operations::write_text(&mut rt.stdout(), text)?;
    Ok(Exit::Done)
}

// Tells where others than the owner can read or write a file that is to be served, or its log.
fn tell_of_others(rt: &HostRuntime, serving: &Serving) {
    if let Ok(Some(path)) = first_open_to_others(rt, serving.path.as_str()) {
        let words = format!(in rt.alloc();
            "others can use {path}, which has the tokens of boots: chmod 600 {path}"
        );
        tell(rt, serving.has_json_errors(), words);
    }
}

// Serves a hall's file until all turns are served, its file is gone or can't be opened: what came of it. None where a fault has shut
// the store.
fn served_once(
    rt: &HostRuntime,
    serving: &Serving,
    suspended: &mut Suspended,
) -> Option<Result<Exit, Fault>> {
    let path = serving.path.as_str();
    if suspended.has_lost_file(rt, serving) {
        return Some(Err(Fault::Unavailable));
    }
    let doing = Doing::Serve {
        serving,
        suspended: &mut *suspended,
    };
    let ended = ended_over(rt, path, doing);
    if suspended.is_shut() {
        return None;
    }
    match ended {
        Ok(ended) => Some(outcome_of(rt, path, serving.has_json_errors(), ended)),
        Err(fault) => Some(Err(fault)),
    }
}

// Serves a hall's file. Where a fault has shut the store, the file is opened again, at once and then after ever longer pauses, for a
// minute.
fn serve(rt: &HostRuntime, serving: &Serving) -> Result<Exit, Fault> {
    let path = serving.path.as_str();
    tell_of_others(rt, serving);
    let copy = serving
        .backup
        .as_ref()
        .and_then(|plan| sum_of_copy(rt, plan.path.as_str()));
    let mut suspended = Suspended::new(serving.turns, copy);
    for _ in 0..u64::MAX {
        if let Some(outcome) = served_once(rt, serving, &mut suspended) {
            return outcome;
        }
        if !suspended.wait() {
            break;
        }
    }
    let words = format!(in rt.alloc(); "{path} couldn't be opened again for a minute");
    tell(rt, serving.has_json_errors(), words);
    Err(Fault::Unavailable)
}

fn frame(rt: &HostRuntime, asked: &Frame) -> Result<Exit, Failure> {
    let (mut input, mut out) = (rt.stdin(), rt.stdout());
    match frame_run(rt.alloc(), &mut input, &mut out, asked.port, &asked.place) {
        Exit::Fault(fault) => Err(Failure::from(fault)),
        exit => Ok(exit),
    }
}

fn once(rt: &HostRuntime, path: &str, task: Task) -> Result<Exit, Failure> {
    Ok(over_file(rt, path, Doing::Once(task))?)
}

/// Does what is asked for.
pub(crate) fn carry_out(rt: &HostRuntime, job: Job) -> Result<Exit, Failure> {
    match job {
        Job::Frame(asked) => frame(rt, &asked),
        Job::Init(asked) => init(rt, &asked),
        Job::Migrate(path) => Ok(carry_over(rt, path.as_str())?),
        Job::Backup(asked) => backup(rt, &asked),
        Job::Restore(asked) => restore(rt, &asked),
        Job::Serve(serving) => Ok(serve(rt, &serving)?),
        Job::Import(path, asked) => once(rt, path.as_str(), asked.task(rt)?),
        Job::Adopt(path, asked) => once(rt, path.as_str(), asked.task(rt)?),
        Job::Over(path, task) => once(rt, path.as_str(), task),
    }
}
