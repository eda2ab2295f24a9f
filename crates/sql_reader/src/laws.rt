// What holds of each script, whoever reads it.
ghost use Rattle.std.specs.Prelude.{◌≡◌, ◌++◌, ℕ, List, take};
ghost use Rattle.mdc_ast.specs.Reading.{Item, Reads, Closes};
ghost use Rattle.sql_reader.specs.Worked as worked;

/// Each script has exactly one list of items.
pub fn one_reading()
    ensures some { (script : List ℕ) → (items : List Item) × Reads script items }
    ensures one { (script : List ℕ) (items others : List Item) → Reads script items → Reads script others → others ≡ items }
{}

/// So it has one list of items that semicolons close. Those of a front of the script are the first of them, and they
/// are the first of all items.
pub fn one_closing()
    ensures some { (script : List ℕ) → (items : List Item) × Closes script items }
    ensures one { (script : List ℕ) (items others : List Item) → Closes script items → Closes script others → others ≡ items }
    ensures front { (script : List ℕ) (n : ℕ) (items all : List Item) → Closes (take n script) items → Closes script all
        → (more : List Item) × (all ≡ items ++ more) }
    ensures first { (script : List ℕ) (items all : List Item) → Closes script items → Reads script all
        → (more : List Item) × (all ≡ items ++ more) }
{}

/// A script with a statement, a query that ends too early and a comment has the items that were worked out by hand.
pub fn worked_reading()
    ensures { Reads worked.script worked.items }
{}
