// How replies and outcomes are written, as bytes.
ghost use Rattle.std.specs.Prelude.{◌≡◌, ◌++◌, OnOk, OnErr};
ghost use Rattle.statement_meaning.specs.Texts.{outcome_text, reply_text};

use crate::appending::{append, append_count};
use crate::refusals::refusal_bytes;
use mdc_ast::{Outcome, Reply};
use mdc_values::Memory;

/// Appends the text of a reply. After `Memory` the output is as before.
pub fn reply_bytes(reply: &Reply, out: &mut Vec<u8>) -> Result<(), Memory>
    ensures ok { OnOk result (out.new.items ≡ out.old.items ++ reply_text reply.now) }
    ensures err { OnErr result (out.new.items ≡ out.old.items) }
{
    match reply {
        Reply::Done => append(b"OK\n", out),
        Reply::Inserted(rows) => append_count(*rows, b" ROWS INSERTED\n", out),
        Reply::Updated(rows) => append_count(*rows, b" ROWS UPDATED\n", out),
        Reply::Deleted(rows) => append_count(*rows, b" ROWS DELETED\n", out),
        Reply::Lines(lines) => append(lines.bytes(), out),
    }
}

/// Appends the text of an outcome. After `Memory` the output is as before.
pub fn outcome_bytes(outcome: &Outcome, out: &mut Vec<u8>) -> Result<(), Memory>
    ensures ok { OnOk result (out.new.items ≡ out.old.items ++ outcome_text outcome.now) }
    ensures err { OnErr result (out.new.items ≡ out.old.items) }
{
    match outcome {
        Outcome::Done(reply) => reply_bytes(reply, out),
        Outcome::Refused(refusal) => refusal_bytes(refusal, out),
    }
}
