// What holds of every verdict, whatever pages it is of.
ghost use Rattle.std.specs.Prelude.{◌≡◌, ◌↔◌, ℕ};
ghost use Rattle.store_api.specs.declared.shape.Shape.{Shape};
ghost use Rattle.table_trees.specs.ToldPages.{PageList};
ghost use Rattle.mdc_sound.specs.Breaks.{BreaksRule};
ghost use Rattle.mdc_sound.specs.SoundDatabase.{IsSoundDatabase};
ghost use Rattle.file_check.specs.Verdicts.{IsVerdictOf};
ghost use Rattle.file_check.specs.declared.verdict.Verdict.{Verdict};
ghost use Rattle.file_check.specs.declared.verdict.Verdict.TheVariants.{Sound};

/// No page of a sound database breaks a rule.
pub fn sound_pages_break_no_rule()
    ensures { (shape : Shape) (pages : PageList) (rule page : ℕ) → IsSoundDatabase shape pages → BreaksRule shape pages rule page → ⊥ }
{}

/// The verdict of pages is that they are sound exactly where they are.
pub fn verdict_is_sound_exactly()
    ensures { (shape : Shape) (pages : PageList) (verdict : Verdict) → IsVerdictOf shape pages verdict → (verdict ≡ Sound) ↔ IsSoundDatabase shape pages }
{}
