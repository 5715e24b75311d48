// Responses, sent.
ghost use Rattle.std.specs.Prelude.{◌≡◌, ◌≤◌, true, IfOk, IfErr};
ghost use Rattle.std.specs.Io.KnownBytes.{append_known};
ghost use Rattle.reg_outside.specs.Faults.{Rose};
ghost use Rattle.reg_outside.specs.Streams.{WritesFront};
ghost use Rattle.reg_calls.specs.declared.asked.Asked.{Asked};
ghost use Rattle.reg_session.specs.Replies.{gives_way};
ghost use Rattle.reg_serve.specs.Sent.{SendsReply, SentFault, SentFaultFront};

use crate::ended::Ended;
use reg_calls::{Asked, fault_response, keep_fault, no_memory, response_to};
use reg_outside::{Connection, Failed, send_whole};
use reg_terms::Reply;
use std::alloc::{AllocError, Global};

pub(crate) fn send_bytes<C: Connection>(conn: &mut C, bytes: &[u8]) -> Result<(), Ended>
    ensures sent { IfOk result (λ done. C.written conn.new
        ≡ append_known (C.written conn.old) bytes.now) }
    ensures front { WritesFront (C.written conn.old) (C.written conn.new) bytes.now }
    ensures why { IfErr result (λ e. e ≡ Ended.Failed) }
    ensures failed { IfErr result (λ e. Rose (C.write_faults conn.old) (C.write_faults conn.new)) }
    ensures left { C.left conn.new ≡ C.left conn.old }
    ensures marks { C.marks conn.new ≡ C.marks conn.old }
    ensures reads { C.read_faults conn.old ≤ C.read_faults conn.new }
    ensures writes { C.write_faults conn.old ≤ C.write_faults conn.new }
{
    match send_whole(conn, bytes) {
        Ok(()) => Ok(()),
        Err(Failed) => Err(Ended::Failed),
    }
}

/// Sends what stands for the response to a reply that there is no memory to print, whatever was
/// asked. Of an accepted command that is nothing, since it can't be taken back, and of a fault
/// itself, since its bytes are constant. In place of an answer or a refusal it is that there was no
/// memory.
#[tactic(auto, using(crate::proofs::Answering::sends_bytes))]
fn send_unprinted<C: Connection>(conn: &mut C, close: bool, reply: &Reply) -> Result<(), Ended>
    ensures sends { (asked : Asked) → SendsReply asked close reply.now (C.written conn.old)
        (C.written conn.new) result }
    ensures failed { IfErr result (λ e. e ≡ Ended.Failed
        → Rose (C.write_faults conn.old) (C.write_faults conn.new)) }
    ensures left { C.left conn.new ≡ C.left conn.old }
    ensures marks { C.marks conn.new ≡ C.marks conn.old }
    ensures reads { C.read_faults conn.old ≤ C.read_faults conn.new }
    ensures writes { C.write_faults conn.old ≤ C.write_faults conn.new }
{
    match reply {
        Reply::Number { .. } | Reply::Loaded { .. } => Err(Ended::NoMemory),
        Reply::Answer(_) | Reply::Refused(_) | Reply::NoMemory => {
            send_bytes(conn, no_memory(close))
        }
        Reply::KeepFault => send_bytes(conn, keep_fault(close)),
    }
}

/// Sends the response to a message that asked this, or what stands for it where there is no memory
/// to print it.
pub(crate) fn send_reply<C: Connection>(
    alloc: Global,
    conn: &mut C,
    asked: &Asked,
    close: bool,
    reply: &Reply,
) -> Result<(), Ended>
    ensures sends { SendsReply asked.now close reply.now (C.written conn.old)
        (C.written conn.new) result }
    ensures failed { IfErr result (λ e. e ≡ Ended.Failed
        → Rose (C.write_faults conn.old) (C.write_faults conn.new)) }
    ensures left { C.left conn.new ≡ C.left conn.old }
    ensures marks { C.marks conn.new ≡ C.marks conn.old }
    ensures reads { C.read_faults conn.old ≤ C.read_faults conn.new }
    ensures writes { C.write_faults conn.old ≤ C.write_faults conn.new }
{
    match response_to(alloc, asked, close, reply) {
        Ok(text) => send_bytes(conn, &text),
        Err(AllocError) => send_unprinted(conn, close, reply),
    }
}

/// Sends the refusal of a head that isn't taken, or that there was no memory to print it.
pub(crate) fn send_fault<C: Connection>(
    alloc: Global,
    conn: &mut C,
    reply: &Reply,
) -> Result<(), Ended>
    requires { gives_way reply.now ≡ true }
    ensures sent { IfOk result
        (λ done. SentFault reply.now (C.written conn.old) (C.written conn.new)) }
    ensures front { IfErr result
        (λ e. SentFaultFront reply.now (C.written conn.old) (C.written conn.new)) }
    ensures why { IfErr result (λ e. e ≡ Ended.Failed) }
    ensures failed { IfErr result (λ e. Rose (C.write_faults conn.old) (C.write_faults conn.new)) }
    ensures left { C.left conn.new ≡ C.left conn.old }
    ensures marks { C.marks conn.new ≡ C.marks conn.old }
    ensures reads { C.read_faults conn.old ≤ C.read_faults conn.new }
    ensures writes { C.write_faults conn.old ≤ C.write_faults conn.new }
{
    match fault_response(alloc, reply) {
        Ok(text) => send_bytes(conn, &text),
        Err(AllocError) => send_bytes(conn, no_memory(true)),
    }
}
