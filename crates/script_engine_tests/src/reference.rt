// The reference engine, which engines over pages are compared with.
use crate::scripts::reply_to;
use mdc_ast::Stmt;
use reference_engine::Engine;
use std::alloc::Global;
use std::test::Fail;

/// Puts the reply of the reference engine to a statement into a text, in the place of what was there. It is empty where lists of rows
/// don't tell it.
pub fn answer_plainly(
    alloc: Global,
    plain: &mut Engine,
    stmt: &Stmt,
    reply: &mut Vec<u8>,
) -> Result<(), Fail> {
    reply.clear();
    if let Some(outcome) = plain.execute(stmt)? {
        reply.extend_from_slice(reply_to(alloc, &outcome)?.as_slice())?;
    }
    Ok(())
}
