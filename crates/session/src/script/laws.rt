// What a run over pages is over plain lists of rows.
ghost use Rattle.std.specs.Prelude.{List};
ghost use Rattle.mdc_ast.specs.declared.reply.Outcome.{Outcome};
ghost use Rattle.mdc_ast.specs.Reading.{Item};
ghost use Rattle.statement_meaning.specs.Session.{Session};
ghost use Rattle.store_api.specs.declared.shape.Shape.{Shape};
ghost use Rattle.script_engine.specs.Held.{HeldPages, StandsForSession};
ghost use Rattle.session.specs.script.Going.{GoesOnPages, Stage};
ghost use Rattle.session.specs.script.Lists.{GoesOnLists};

/// A run over pages that stand for a session is a run over that session's lists: each outcome is that of the lists, or 70 where
/// nothing else is said against the statement, and the pages that are held after each item stand for the lists after it.
pub fn goes_on_lists()
    ensures { (shape : Shape) (held : HeldPages) (items : List Item) (outcomes : List Outcome) (stages : List Stage) → GoesOnPages shape held items outcomes stages
        → (session : Session) → StandsForSession shape held session → (sessions : List Session) × GoesOnLists shape held session items outcomes stages sessions }
{}
