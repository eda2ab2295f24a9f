// The statement in a piece of a script.
ghost use Rattle.std.specs.Prelude.{◌≡◌, ◌↔◌, ◌≤◌, ◌<◌, ◌-◌, ◌++◌, List, ℕ, IsTrue, length, slice_range};
ghost use Rattle.mdc_ast.specs.Cutting as cutting;
ghost use Rattle.mdc_ast.specs.Cutting.{Trims};
ghost use Rattle.sql_reader.specs.Standing.{BeginsStatement, StandsFor};
ghost use Rattle.sql_reader.specs.Trim.{IsComment, IsLead};

use crate::comment::line_behind;

/// The statement in a piece: its bytes from the first that isn't blank and isn't in a comment.
pub(crate) fn trim(piece: &[u8]) -> &[u8]
    ensures { Trims piece.now result.now }
{
    let lead = lead(piece);
    if begins_comment(lead) {
        return &[];
    }
    lead
}

/// Where in a piece the bytes stand that its item needs.
#[derive(Clone, Copy, Debug, PartialEq, Eq)]
pub(crate) struct Span {
    pub(crate) begin: usize,
    pub(crate) end: usize,
}

/// What the item of a piece needs of its first bytes, whatever follows them: those from the first that may belong to a
/// statement on, and of a comment that is still open the two dashes.
pub(crate) fn needed(piece: &[u8]) -> Span
    ensures order { (result.begin ≤ result.end) × (result.end ≤ length piece.now) }
    ensures stands { StandsFor piece.now (slice_range piece.now result.begin result.end) }
    ensures begins { 2 < result.end - result.begin → BeginsStatement (slice_range piece.now result.begin result.end) }
{
    let lead = lead(piece);
    let begin = piece.len() - lead.len();
    if begins_comment(lead) {
        return Span {
            begin,
            end: begin + 2,
        };
    }
    Span {
        begin,
        end: piece.len(),
    }
}

/// The bytes of a piece behind its first blanks and closed comments.
fn lead(piece: &[u8]) -> &[u8]
    ensures suffix { (front : List ℕ) × (piece.now ≡ front ++ result.now) }
    ensures stands { StandsFor piece.now result.now }
    ensures lead { IsLead result.now }
{
    let mut rest = piece;
    while let Some((first, behind)) = rest.split_first() {
        if is_blank(*first) {
            rest = behind;
            continue;
        }
        if !begins_comment(rest) {
            break;
        }
        let Some(behind) = line_behind(&rest[2..]) else {
            break;
        };
        rest = behind;
    }
    rest
}

/// Whether the bytes begin with two dashes.
fn begins_comment(bytes: &[u8]) -> bool
    ensures { IsTrue result ↔ IsComment bytes.now }
{
    matches!(bytes, [b'-', b'-', ..])
}

/// Blanks stand between the words of a statement and say nothing.
pub(crate) fn is_blank(byte: u8) -> bool
    ensures { result ≡ cutting.is_blank byte }
{
    matches!(byte, b'\t' | b'\n' | b'\r' | b' ')
}
