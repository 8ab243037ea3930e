ghost use Rattle.std.specs.Prelude.{◌≡◌, ◌<◌, ◌≤◌, ◌+◌, ℕ, List, IfOk};
ghost use Rattle.plan_answer.specs.Errors.{out_of_memory, out_of_memory_at};
ghost use Rattle.askrene_command.specs.Command.{IsGoodCommand};
ghost use Rattle.session.specs.Line.{meaning_of};
ghost use Rattle.session.specs.Outcome.{LineOutcome, CommandOutcome, reply_to};
ghost use Rattle.session.specs.Text.{RepliesOrStarves, RepliesToRefusal, RepliesToEntry, RepliesToCommit};

use crate::answerer::Answerer;
use crate::caller::Caller;
use crate::line::{LineRead, read_line};
use askrene_state::{Command, EventReply};
use one_history::{JournalRefusal, Told};
use plan_answer::{journal_full, out_of_memory, out_of_memory_at};
use plan_base::NoMemory;
use port_io::Clock;
use rpc_lines::{Body, Id, Reply, write_reply};
use std::alloc::Global;

/// Serves one line and returns its reply, which is empty for a line that is skipped. A command is committed at the clock's
/// next moment. `NoMemory` if there is no memory even for the reply that says so.
#[tactic(auto, using(crate::proofs::Replies::unread_replies, crate::proofs::Replies::starved_replies))]
pub fn serve_line<H: Caller, A: Answerer, C: Clock>(
    alloc: Global,
    caller: &mut H,
    answerer: &A,
    line: &[u8],
    clock: &mut C,
) -> Result<Vec<u8>, NoMemory>
    requires allowed { 0 < H.commands_left caller.old }
    requires ready { H.ready caller.old }
    ensures served { IfOk result (λ text. LineOutcome (A.answers answerer.now) (H.who caller.old) (meaning_of line.now)
        (record { log = H.seen caller.old; clock = C.moments clock.old }) text.items
        (record { log = H.seen caller.new; clock = C.moments clock.new })) }
    ensures gone { (text : List ℕ) × LineOutcome (A.answers answerer.now) (H.who caller.old) (meaning_of line.now)
        (record { log = H.seen caller.old; clock = C.moments clock.old }) text
        (record { log = H.seen caller.new; clock = C.moments clock.new }) }
    ensures who { H.who caller.new ≡ H.who caller.old }
    ensures counted { H.commands_left caller.old ≤ H.commands_left caller.new + 1 }
    ensures reference { H.reference caller.new ≡ H.reference caller.old }
    ensures ready { H.ready caller.new }
    ensures goes_on { H.goes_on caller.old caller.new }
{
    match read_line(alloc, line) {
        LineRead::Blank => Ok(Vec::new(alloc)),
        LineRead::Unread => starved(alloc, Id::Null),
        LineRead::OutOfMemory { id } => starved(alloc, id),
        LineRead::Wrong { id, body } => say(alloc, id, body),
        LineRead::Command { id, command } => {
            serve_command(alloc, caller, answerer, id, command, clock)
        }
    }
}

// Commits a command and returns its reply.
#[tactic(auto, using(crate::proofs::Replies::replies_to_commit))]
fn serve_command<H: Caller, A: Answerer, C: Clock>(
    alloc: Global,
    caller: &mut H,
    answerer: &A,
    id: Id,
    command: Command,
    clock: &mut C,
) -> Result<Vec<u8>, NoMemory>
    requires good { IsGoodCommand command }
    requires allowed { 0 < H.commands_left caller.old }
    requires ready { H.ready caller.old }
    ensures served { IfOk result (λ text. CommandOutcome (A.answers answerer.now) (H.who caller.old) id command
        (record { log = H.seen caller.old; clock = C.moments clock.old }) text.items
        (record { log = H.seen caller.new; clock = C.moments clock.new })) }
    ensures gone { (text : List ℕ) × CommandOutcome (A.answers answerer.now) (H.who caller.old) id command
        (record { log = H.seen caller.old; clock = C.moments clock.old }) text
        (record { log = H.seen caller.new; clock = C.moments clock.new }) }
    ensures who { H.who caller.new ≡ H.who caller.old }
    ensures counted { H.commands_left caller.old ≤ H.commands_left caller.new + 1 }
    ensures reference { H.reference caller.new ≡ H.reference caller.old }
    ensures ready { H.ready caller.new }
    ensures goes_on { H.goes_on caller.old caller.new }
{
    let moment = clock.now();
    let committed = caller.commit(moment, command);
    reply_to_commit(alloc, answerer, id, committed)
}

// The reply to a command, by the result of its commit.
fn reply_to_commit<A: Answerer>(
    alloc: Global,
    answerer: &A,
    id: Id,
    committed: Result<Told<EventReply>, JournalRefusal>,
) -> Result<Vec<u8>, NoMemory>
    ensures { IfOk result (λ text. RepliesToCommit (A.answers answerer.now) id committed text.items) }
{
    match committed {
        Ok(told) => reply_to_entry(alloc, answerer, id, told),
        Err(refusal) => reply_to_refusal(alloc, id, refusal),
    }
}

// The reply to an entry, or the one that there was no memory for it.
fn reply_to_entry<A: Answerer>(
    alloc: Global,
    answerer: &A,
    id: Id,
    told: Told<EventReply>,
) -> Result<Vec<u8>, NoMemory>
    ensures { IfOk result (λ text. RepliesToEntry (A.answers answerer.now) id told text.items) }
{
    let at = told.at;
    let Ok(body) = answerer.answer(alloc, told) else {
        return starved_at(alloc, id, at);
    };
    let reply = Reply { id, body };
    if let Ok(text) = write_reply(alloc, &reply) {
        return Ok(text);
    }
    let Reply { id, .. } = reply;
    starved_at(alloc, id, at)
}

// The reply to a command that did not become an entry.
fn reply_to_refusal(alloc: Global, id: Id, refusal: JournalRefusal) -> Result<Vec<u8>, NoMemory>
    ensures { IfOk result (λ text. RepliesToRefusal id refusal text.items) }
{
    match refusal {
        JournalRefusal::Full { length } => match journal_full(alloc, length) {
            Ok(body) => say(alloc, id, body),
            Err(NoMemory) => starved(alloc, id),
        },
        JournalRefusal::NoMemory => starved(alloc, id),
    }
}

// The reply with a body, or the one that there was no memory for it.
fn say(alloc: Global, id: Id, body: Body) -> Result<Vec<u8>, NoMemory>
    ensures { IfOk result (λ text. RepliesOrStarves id body text.items) }
{
    let reply = Reply { id, body };
    if let Ok(text) = write_reply(alloc, &reply) {
        return Ok(text);
    }
    let Reply { id, .. } = reply;
    starved(alloc, id)
}

// The reply to a line for which there was no memory.
fn starved(alloc: Global, id: Id) -> Result<Vec<u8>, NoMemory>
    ensures { IfOk result (λ text. text.items ≡ reply_to id out_of_memory) }
{
    let body = out_of_memory(alloc)?;
    write_reply(alloc, &Reply { id, body })
}

// The reply to an entry for whose answer there was no memory.
fn starved_at(alloc: Global, id: Id, at: u64) -> Result<Vec<u8>, NoMemory>
    ensures { IfOk result (λ text. text.items ≡ reply_to id (out_of_memory_at at)) }
{
    let body = out_of_memory_at(alloc, at)?;
    write_reply(alloc, &Reply { id, body })
}
