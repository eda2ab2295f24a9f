// Settings, upkeep and transactions.
ghost use Rattle.mdc_ast.specs.Grammar as grammar;
ghost use Rattle.sql_reader.specs.Parses.{Parses};
ghost use Rattle.sql_reader.specs.Readers.{read};
ghost use Rattle.sql_reader.specs.Token.{tokens_of};

use crate::cursor::{Cursor, Stop};
use mdc_ast::{PlanMode, RolloutMode, Stmt};

/// What is behind SET.
#[tactic(auto, unfolding(mdc_ast::specs::Grammar::setting_rule))]
pub fn setting(cursor: &mut Cursor) -> Result<Stmt, Stop>
    ensures { Parses result (tokens_of cursor.new.tokens.now) (read grammar.setting_rule (tokens_of cursor.old.tokens.now)) }
{
    if cursor.at_word(b"CURRENT") {
        cursor.word(b"CURRENT")?;
        cursor.word(b"MDC")?;
        cursor.word(b"ROLLOUT")?;
        cursor.word(b"MODE")?;
        let mode = rollout_mode(cursor)?;
        return Ok(Stmt::SetRollout(mode));
    }
    if cursor.at_word(b"PLAN") {
        cursor.word(b"PLAN")?;
        let mode = plan_mode(cursor)?;
        return Ok(Stmt::SetPlan(mode));
    }
    cursor.word(b"CLEANUP")?;
    cursor.word(b"PACE")?;
    let pace = cursor.number()?;
    Ok(Stmt::SetPace(pace))
}

#[tactic(auto, unfolding(mdc_ast::specs::Grammar::rollout_rule))]
fn rollout_mode(cursor: &mut Cursor) -> Result<RolloutMode, Stop>
    ensures { Parses result (tokens_of cursor.new.tokens.now) (read grammar.rollout_rule (tokens_of cursor.old.tokens.now)) }
{
    if cursor.at_word(b"NONE") {
        cursor.word(b"NONE")?;
        return Ok(RolloutMode::None);
    }
    if cursor.at_word(b"IMMEDIATE") {
        cursor.word(b"IMMEDIATE")?;
        return Ok(RolloutMode::Immediate);
    }
    cursor.word(b"DEFERRED")?;
    Ok(RolloutMode::Deferred)
}

#[tactic(auto, unfolding(mdc_ast::specs::Grammar::plan_rule))]
fn plan_mode(cursor: &mut Cursor) -> Result<PlanMode, Stop>
    ensures { Parses result (tokens_of cursor.new.tokens.now) (read grammar.plan_rule (tokens_of cursor.old.tokens.now)) }
{
    if cursor.at_word(b"AUTO") {
        cursor.word(b"AUTO")?;
        return Ok(PlanMode::Auto);
    }
    if cursor.at_word(b"SCAN") {
        cursor.word(b"SCAN")?;
        return Ok(PlanMode::Scan);
    }
    if cursor.at_word(b"BLOCK") {
        cursor.word(b"BLOCK")?;
        return Ok(PlanMode::Block);
    }
    cursor.word(b"RECORD")?;
    Ok(PlanMode::Record)
}

/// What is behind CLEAN.
#[tactic(auto, unfolding(mdc_ast::specs::Grammar::clean_rule))]
pub fn clean(cursor: &mut Cursor) -> Result<Stmt, Stop>
    ensures { Parses result (tokens_of cursor.new.tokens.now) (read grammar.clean_rule (tokens_of cursor.old.tokens.now)) }
{
    if cursor.at_word(b"TABLE") {
        cursor.word(b"TABLE")?;
        let table = cursor.name()?;
        return Ok(Stmt::CleanTable(table));
    }
    let steps = cursor.number()?;
    cursor.word(b"STEPS")?;
    Ok(Stmt::Clean(steps))
}

/// What is behind LIST.
#[tactic(auto, unfolding(mdc_ast::specs::Grammar::blocks_rule))]
pub fn list_blocks(cursor: &mut Cursor) -> Result<Stmt, Stop>
    ensures { Parses result (tokens_of cursor.new.tokens.now) (read grammar.blocks_rule (tokens_of cursor.old.tokens.now)) }
{
    cursor.word(b"BLOCKS")?;
    let table = cursor.name()?;
    Ok(Stmt::ListBlocks(table))
}

/// What is behind REORG.
#[tactic(auto, unfolding(mdc_ast::specs::Grammar::reclaim_rule))]
pub fn reclaim(cursor: &mut Cursor) -> Result<Stmt, Stop>
    ensures { Parses result (tokens_of cursor.new.tokens.now) (read grammar.reclaim_rule (tokens_of cursor.old.tokens.now)) }
{
    cursor.word(b"TABLE")?;
    let table = cursor.name()?;
    cursor.word(b"RECLAIM")?;
    cursor.word(b"EXTENTS")?;
    Ok(Stmt::Reclaim(table))
}

/// COMMIT or ROLLBACK, whether WORK stands behind it or not.
#[tactic(auto, unfolding(mdc_ast::specs::Grammar::work_rule))]
pub fn work(cursor: &mut Cursor, statement: Stmt) -> Result<Stmt, Stop>
    ensures { Parses result (tokens_of cursor.new.tokens.now) (read (grammar.work_rule statement) (tokens_of cursor.old.tokens.now)) }
{
    if cursor.at_word(b"WORK") {
        cursor.word(b"WORK")?;
        return Ok(statement);
    }
    Ok(statement)
}
