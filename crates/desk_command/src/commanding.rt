//! The answer to a command.
ghost use Rattle.std.specs.Prelude.{◌≡◌, ◌++◌, [], ◌∷◌, IfOk};
ghost use Rattle.desk_command.specs.{Prelude.{second, PutReceipt, command_text, reply_of, Decides}, Command.{body_of, commanded, receipt_of, repeated, replied}, Effect.content_of};

use crate::cause::cause;
use crate::effects::{Subject, effect};
use crate::view::CommandView;
use boot_desk::DeskFault;
use hall_events::{HallCommand, Reply};
use hall_types::{Change, Moment, Operator, Receipt, Refusal, RequestKey, RowWrite, Text};
use std::alloc::{AllocError, Global};

// The answer with its text.
fn reply(alloc: Global, subject: &Subject) -> Result<Reply, AllocError>
    ensures { IfOk result (λ reply. reply ≡ reply_of second (content_of subject.now)) }
{
    match subject {
        Subject::Machine(machine) => Reply::machine(alloc, machine),
        Subject::Gone(id) => Reply::gone(alloc, *id),
        Subject::Done => Reply::done(alloc),
    }
}

fn body(alloc: Global, reply: &Reply) -> Result<Text, AllocError>
    ensures { IfOk result (λ body. body ≡ body_of reply.now) }
{
    match reply {
        Reply::Http { body, .. } => body.copy(alloc),
        Reply::File(_) | Reply::Nothing => Ok(Text::from(String::new(alloc))),
    }
}

// What is kept of an accepted command.
fn receipt(
    alloc: Global,
    by: &Operator,
    key: RequestKey,
    command: &HallCommand,
    reply: &Reply,
) -> Result<Receipt, AllocError>
    ensures { IfOk result (λ receipt. receipt ≡ record { operator = by.now.name; key = key; command = command_text command.now; status = 200; body = body_of reply.now }) }
{
    let command = Text::from(command.text(alloc)?);
    let body = body(alloc, reply)?;
    Ok(Receipt {
        operator: by.name,
        key,
        command,
        status: 200,
        body,
    })
}

// Some rows, and then the receipt of an accepted command.
fn with_receipt(
    alloc: Global,
    rows: Change,
    by: &Operator,
    key: RequestKey,
    command: &HallCommand,
    reply: &Reply,
) -> Result<Change, AllocError>
    ensures { IfOk result (λ change. change ≡ rows ++ PutReceipt (record { operator = by.now.name; key = key; command = command_text command.now; status = 200; body = body_of reply.now }) ∷ []) }
{
    let receipt = receipt(alloc, by, key, command, reply)?;
    let mut rows = rows.into_vec();
    rows.push(RowWrite::PutReceipt(receipt))?;
    Ok(Change::from(rows))
}

/// What an operator's new command is answered, with the rows that it writes, a receipt among them. The refusal is the
/// first in the order of the refusals' numbers.
#[tactic(auto, unfolding(crate::specs::Command::commanded))]
pub fn command(
    alloc: Global,
    view: &CommandView,
    by: &Operator,
    key: RequestKey,
    command: &HallCommand,
    moment: Moment,
) -> Result<(Change, Reply), DeskFault>
    ensures { Decides result (replied (commanded view.now by.now key command.now moment)) }
{
    if let Some(refusal) = cause(view, by, command) {
        return Err(DeskFault::Refused(refusal));
    }
    let (change, subject) = effect(alloc, view, by, command, moment)?;
    let reply = reply(alloc, &subject)?;
    let rows = with_receipt(alloc, change, by, key, command, &reply)?;
    Ok((rows, reply))
}

/// What a request is answered whose key has a receipt: the answer that the receipt keeps, or `KeyReused` where it was
/// another command. Nothing is written.
pub fn repeated(
    alloc: Global,
    receipt: &Receipt,
    command: &HallCommand,
) -> Result<(Change, Reply), DeskFault>
    ensures { Decides result (replied (repeated receipt.now command.now)) }
{
    let text = command.text(alloc)?;
    if receipt.command.as_str() != text.as_str() {
        return Err(DeskFault::Refused(Refusal::KeyReused));
    }
    let reply = Reply::stored(alloc, receipt)?;
    Ok((Change::from(Vec::new(alloc)), reply))
}
