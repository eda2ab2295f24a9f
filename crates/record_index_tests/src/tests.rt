// What the scenario answers on a store in memory.
ghost use Rattle.std.specs.Prelude.{◌≡◌, ◌<◌, false, IfOk};

use crate::{Answers, indexed_table, place, play};
use entry_tree_tests::{extents_of, store_of};
use extent_map::SpaceNotes;
use mdc_words::Steps;
use std::alloc::Global;
use std::marker::Brand;
use std::sync::ledger::{Blank, Ledger};
use std::test::Fail;
use store_api::{Damage, MemStore, Pages, Shape};

// A store of pages of zeros up to the extents.
fn empty_store(alloc: Global) -> Result<MemStore, Fail>
    ensures going { IfOk result (λ store. (⟦<MemStore as Pages>⟧.state store).ended ≡ false) }
{
    let mut pages = Vec::new(alloc);
    for _ in 0..18 {
        pages.push([0; 4096])?;
    }
    store_of(alloc, pages)
}

// Makes the table, and plays.
fn played<P: Pages, L: Ledger>(
    alloc: Global,
    shape: Shape,
    pages: &mut P,
    blank: Blank,
) -> Result<(Answers, u32), Fail>
    requires going { (P.state pages.old).ended ≡ false }
    requires name { blank.name ≡ L.name }
    requires parts { blank.parts ≡ L.parts }
    requires some { 0 < blank.parts }
{
    let mut notes = SpaceNotes::new();
    let def = indexed_table(alloc, shape, &mut notes, pages)?;
    let mut entries: Steps<L> = Steps::new(blank);
    let answers = play(alloc, &def, shape, &mut notes, pages, &mut entries)?;
    if def.indexes.len() == 0 {
        return Err(Fail::new("no index"));
    }
    Ok((answers, def.indexes.at(0).root))
}

#[test]
fn rows_are_found_and_leave(rt: HostRuntime) -> Result<(), Fail> {
    let (answers, root) = played::<MemStore, Brand>(
        rt.alloc(),
        extents_of(16)?,
        &mut empty_store(rt.alloc())?,
        Blank::new(1),
    )?;
    let Answers {
        same,
        all,
        no_day,
        with_day,
        twice,
        gone,
        swept,
        left,
    } = answers;
    assert_eq!(rt; same.as_slice(), [place(2, 9), place(3, 0)].as_slice());
    assert_eq!(rt;
        all.as_slice(),
        [
            place(1, 1),
            place(2, 7),
            place(2, 8),
            place(2, 9),
            place(3, 0)
        ]
        .as_slice()
    );
    assert_eq!(rt; no_day.as_slice(), [place(2, 9), place(3, 0)].as_slice());
    assert_eq!(rt;
        with_day.as_slice(),
        [place(1, 1), place(2, 7), place(2, 8)].as_slice()
    );
    let misplaced = Some(Damage {
        page: root,
        rule: 11,
    });
    assert_eq!(rt; twice, misplaced);
    assert_eq!(rt; gone, misplaced);
    assert_eq!(rt; swept, 3);
    assert_eq!(rt; left.as_slice(), [place(3, 0)].as_slice());
    Ok(())
}
