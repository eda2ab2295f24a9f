// What holds of every file, whatever call is made.
ghost use Rattle.std.specs.Prelude.{◌≡◌, List, ℕ, length};
ghost use Rattle.page_file.specs.Layout.{file_page};
ghost use Rattle.page_store.specs.Opened.{opened_bytes};
ghost use Rattle.page_store.specs.Opening.{IsRoot, IsServed, version_of};
ghost use Rattle.page_store.specs.Shape.{extents_in, extent_pages_in};
ghost use Rattle.page_store.specs.Standing.{IsFormed, page_of};
ghost use Rattle.store_api.specs.Format.{first_format};

/// A file that is formed is served, where its page 0 is a root page of version 1: `open` then refuses it for no reason of
/// its own. So what a crash leaves of a store whose page 0 is such a page is opened again.
pub fn formed_is_served()
    ensures { (file : List ℕ) → IsFormed file → IsRoot (extents_in (file_page file 1)) (extent_pages_in (file_page file 1)) (page_of file 0)
        → version_of file ≡ first_format.version → IsServed file }
{}

/// An opening makes no formed file longer or shorter.
pub fn opened_is_as_long()
    ensures { (file : List ℕ) → IsFormed file → length (opened_bytes file) ≡ length file }
{}
