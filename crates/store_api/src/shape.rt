// How large a database may grow.
ghost use Rattle.std.specs.Prelude.{◌≡◌, IsFalse, IsTrue, MatchOption};
ghost use Rattle.store_api.specs.Extents.{is_extent_size, is_shape};

/// How many extents a database may have, and how many pages each has. The two are within the limits.
#[derive(Clone, Copy, Debug, PartialEq, Eq)]
pub struct Shape {
    pub extents: u32,
    pub extent_pages: u32,
    ghost within: { IsTrue (is_shape extents extent_pages) },
}

impl Shape {
    /// So many extents of so many pages, or nothing where that isn't within the limits.
    pub fn new(extents: u32, extent_pages: u32) -> Option<Shape>
        ensures { MatchOption result (IsFalse (is_shape extents extent_pages)) (λ shape. (shape.extents ≡ extents) × (shape.extent_pages ≡ extent_pages)) }
    {
        if !is_shape(extents, extent_pages) {
            return None;
        }
        Some(Shape {
            extents,
            extent_pages,
        })
    }
}

/// Whether a database may have so many extents of so many pages: 4 to 65,536 extents of 2, 4, 8, 16 or 32 pages, which
/// are 262,144 pages at most.
pub fn is_shape(extents: u32, extent_pages: u32) -> bool
    ensures { result ≡ is_shape extents extent_pages }
{
    extents >= 4
        && extents <= 65536
        && is_extent_size(extent_pages)
        && u64::from(extents) * u64::from(extent_pages) <= 262_144
}

// Whether an extent may have so many pages.
fn is_extent_size(pages: u32) -> bool
    ensures { result ≡ is_extent_size pages }
{
    pages == 2 || pages == 4 || pages == 8 || pages == 16 || pages == 32
}
