// What holds of every map, whatever call is made.
ghost use Rattle.std.specs.Prelude.{◌≡◌, ◌+◌, ◌<◌, ℕ, List, [], ◌∷◌, replicate};
ghost use Rattle.store_api.specs.Extents.{map_pages};
ghost use Rattle.store_api.specs.Frame.{HoldsPage};
ghost use Rattle.store_api.specs.StoreState.{zero_page};
ghost use Rattle.extent_map.specs.Map.{HoldsMap, map_entries};
ghost use Rattle.extent_map.specs.declared.kind.Kind.{Kind};

use store_api::{Pages, Shape};

/// Pages say of their extents one list of owners at most.
pub fn one_map<P: Pages>(shape: Shape, pages: &P)
    ensures { (one other : List Kind) → HoldsMap P.Pages shape pages.now one → HoldsMap P.Pages shape pages.now other → one ≡ other }
{}

/// Where the pages of the map are zeros, as in a new database, each extent is free.
pub fn fresh_map<P: Pages>(shape: Shape, pages: &P)
    ensures { ((i : ℕ) → i < map_pages shape.extents → HoldsPage P.Pages pages.now (17 + i) zero_page)
        → HoldsMap P.Pages shape pages.now (replicate shape.extents Kind.Free) }
{}

/// A free extent, a block of table 7 and an index extent with pages 0 and 2 in use have the bytes that were worked out by
/// hand.
pub fn worked_entries()
    ensures { map_entries (Kind.Free ∷ Kind.Block 7 ∷ Kind.Index 5 ∷ []) 0 3
        ≡ 0 ∷ 0 ∷ 0 ∷ 0 ∷ 0 ∷ 0 ∷ 0 ∷ 0 ∷ 1 ∷ 7 ∷ 0 ∷ 0 ∷ 0 ∷ 0 ∷ 0 ∷ 0 ∷ 2 ∷ 0 ∷ 0 ∷ 0 ∷ 0 ∷ 0 ∷ 0 ∷ 5 ∷ [] }
{}
