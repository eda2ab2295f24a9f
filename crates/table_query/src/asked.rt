// The query that is asked, as contracts know it.
ghost use Rattle.std.specs.Prelude.{[], List, None};
ghost use Rattle.mdc_ast.specs.declared.bound.BoundSelect.{BoundSelect};
ghost use Rattle.mdc_ast.specs.declared.definition.ColumnDef.{ColumnDef};

use std::marker::Brand;

/// A query and the columns of its table, which only contracts see. A type stands for them, so that what comes back from a scan is
/// known to be of this query.
pub(crate) trait Asked {
    ghost columns: { List ColumnDef };

    ghost select: { BoundSelect };
}

impl Asked for Brand {
    ghost columns = { [] };

    ghost select = { record { table = 0; outs = []; pred = None; group = []; order = []; first = None } };
}
