// How refusals are written, as bytes.
ghost use Rattle.std.specs.Prelude.{◌≡◌, ◌++◌, codes, flat_map, length, take, OnOk, OnErr};
ghost use Rattle.statement_meaning.specs.Cause.{numbered_causes, refusal_line};
ghost use Rattle.answer_text.specs.Wordings.{AreWorded, part_text};

use crate::appending::{append, append_number, kept_if_written};
use crate::wordings::{Part, WORDINGS, Wording, parts_among};
use mdc_ast::Refusal;
use mdc_values::Memory;

/// Appends the line of a refusal, and nothing where its number stands for no cause. After `Memory` the output is as
/// before.
pub fn refusal_bytes(refusal: &Refusal, out: &mut Vec<u8>) -> Result<(), Memory>
    ensures ok { OnOk result (out.new.items ≡ out.old.items ++ refusal_line refusal.now) }
    ensures err { OnErr result (out.new.items ≡ out.old.items) }
{
    refusal_by(&WORDINGS, refusal, out)
}

// By a table that words each cause.
fn refusal_by(wordings: &[Wording], refusal: &Refusal, out: &mut Vec<u8>) -> Result<(), Memory>
    requires { AreWorded numbered_causes wordings.now }
    ensures ok { OnOk result (out.new.items ≡ out.old.items ++ refusal_line refusal.now) }
    ensures err { OnErr result (out.new.items ≡ out.old.items) }
{
    let Some(parts) = parts_among(wordings, refusal.number) else {
        return Ok(());
    };
    let start = out.len();
    let written = push_line(refusal, parts, out);
    kept_if_written(written, start, out)
}

// After `Memory` a part of the line may stand at the end.
fn push_line(refusal: &Refusal, parts: &[Part], out: &mut Vec<u8>) -> Result<(), Memory>
    ensures ok { OnOk result (out.new.items ≡ out.old.items ++ (codes "ERROR " ++ flat_map (part_text refusal.now) parts.now ++ codes "\n")) }
    ensures err { OnErr result (take (length out.old.items) out.new.items ≡ out.old.items) }
{
    append(b"ERROR ", out)?;
    for part in parts {
        append_part(refusal, part, out)?;
    }
    append(b"\n", out)
}

// After `Memory` the output is as before.
fn append_part(refusal: &Refusal, part: &Part, out: &mut Vec<u8>) -> Result<(), Memory>
    ensures ok { OnOk result (out.new.items ≡ out.old.items ++ part_text refusal.now part.now) }
    ensures err { OnErr result (out.new.items ≡ out.old.items) }
{
    match part {
        Part::Words(words) => append(words, out),
        Part::Place => append_number(u64::from(refusal.place), out),
        Part::Name => append(refusal.name.0.bytes(), out),
        Part::Kept => append_number(refusal.kept, out),
    }
}
