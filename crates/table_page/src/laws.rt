// What holds of every page.
ghost use Rattle.std.specs.Prelude.{◌≡◌, ℕ, List};
ghost use Rattle.mdc_ast.specs.declared.definition.TableDef.{TableDef};
ghost use Rattle.store_api.specs.StoreState.{zero_page};
ghost use Rattle.table_page.specs.PageAnswers.{IsNoTablePage};
ghost use Rattle.table_page.specs.TablePage.{IsTablePageOf};

/// A page is that of one definition at most, and zeros alone are that of none.
pub fn page_is_of_one_definition()
    ensures one { (t : ℕ) (a b : TableDef) (page : List ℕ) → IsTablePageOf t a page → IsTablePageOf t b page → a ≡ b }
    ensures none { (t : ℕ) → IsNoTablePage t zero_page }
{}
