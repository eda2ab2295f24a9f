// What the scenario answers on a store in memory.
ghost use Rattle.std.specs.Prelude.{◌≡◌, false, IfOk};

use crate::{Answers, mapped_table, play};
use entry_tree_tests::{extents_of, store_of};
use extent_map::SpaceNotes;
use record_index_tests::place;
use std::alloc::Global;
use std::test::Fail;
use store_api::{MemStore, Pages, Shape};

// A store of pages of zeros up to the extents.
fn empty_store(alloc: Global) -> Result<MemStore, Fail>
    ensures going { IfOk result (λ store. (⟦<MemStore as Pages>⟧.state store).ended ≡ false) }
{
    let mut pages = Vec::new(alloc);
    for _ in 0..18 {
        pages.push([0; 4096])?;
    }
    store_of(alloc, pages)
}

// Makes the table, and plays.
fn played<P: Pages>(alloc: Global, shape: Shape, pages: &mut P) -> Result<Answers, Fail>
    requires going { (P.state pages.old).ended ≡ false }
{
    let mut notes = SpaceNotes::new();
    let def = mapped_table(alloc, shape, &mut notes, pages)?;
    play(alloc, &def, shape, &mut notes, pages)
}

#[test]
fn blocks_that_wait_have_no_rows(rt: HostRuntime) -> Result<(), Fail> {
    let answers = played::<MemStore>(rt.alloc(), extents_of(16)?, &mut empty_store(rt.alloc())?)?;
    assert_eq!(rt;
        answers.live.as_slice(),
        [place(1, 1), place(3, 0)].as_slice()
    );
    assert_eq!(rt; answers.same, Some(place(3, 0)));
    assert_eq!(rt; answers.other, None);
    assert_eq!(rt; answers.null, None);
    assert_eq!(rt; answers.null_later, Some(place(2, 8)));
    assert_eq!(rt; answers.other_later, Some(place(3, 0)));
    Ok(())
}
