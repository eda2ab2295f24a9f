ghost use Rattle.std.specs.Prelude.{◌<◌};

use node_page::NodeView;
use std::test::Fail;
use store_api::{Page, blank_page, put};

// A leaf of width 7 with two entries, or an inner node with one separator over the pages 5 and 6, with one byte changed.
fn page_with(leaf: bool, at: usize, byte: u8) -> Page
    requires { at < 4096 }
{
    let mut page = *blank_page();
    if leaf {
        put(&mut page, 0, &[0x4c, 0, 0, 7, 0, 2]);
        put(&mut page, 16, &[1, 2, 3, 4, 5, 6, 7, 1, 2, 3, 4, 5, 6, 9]);
    } else {
        put(&mut page, 0, &[0x49, 0, 0, 7, 0, 1, 0, 0, 0, 0, 0, 5]);
        put(&mut page, 16, &[1, 2, 3, 4, 5, 6, 7, 0, 0, 0, 6]);
    }
    page[at] = byte;
    page
}

fn is_read(leaf: bool, at: usize, byte: u8) -> bool
    requires { at < 4096 }
{
    NodeView::read(&page_with(leaf, at, byte), 7).is_some()
}

#[test]
fn a_leaf_by_its_bytes(rt: HostRuntime) -> Result<(), Fail> {
    let page = page_with(true, 29, 9);
    let view = NodeView::read(&page, 7).ok_or("no node")?;
    assert!(rt; view.is_leaf());
    assert_eq!(rt; view.len(), 2);
    assert_eq!(rt; view.entry(1), [1, 2, 3, 4, 5, 6, 9].as_slice());
    assert_eq!(rt; view.find(&[1, 2, 3, 4, 5, 6, 8]), (1, false));
    assert_eq!(rt; view.find(&[1, 2, 3, 4, 5, 6, 9]), (1, true));
    assert_eq!(rt; view.find(&[2, 0, 0, 0, 0, 0, 0]), (2, false));
    Ok(())
}

#[test]
fn an_inner_node_by_its_bytes(rt: HostRuntime) -> Result<(), Fail> {
    let page = page_with(false, 26, 6);
    let view = NodeView::read(&page, 7).ok_or("no node")?;
    assert!(rt; !view.is_leaf());
    assert_eq!(rt; view.len(), 1);
    assert_eq!(rt; view.child_of(&[1, 2, 3, 4, 5, 6, 6]), (0, 5));
    assert_eq!(rt; view.child_of(&[1, 2, 3, 4, 5, 6, 7]), (1, 6));
    Ok(())
}

#[test]
fn a_wrong_byte_makes_it_no_node(rt: HostRuntime) {
    // The mark, the byte behind it, the width, the count, the two bytes behind it, the child of a leaf, the rest of the
    // head, an entry out of order, and the first and the last spare byte.
    assert!(rt; !is_read(true, 0, 0x4d));
    assert!(rt; !is_read(true, 1, 1));
    assert!(rt; !is_read(true, 3, 8));
    assert!(rt; !is_read(true, 4, 3));
    assert!(rt; !is_read(true, 6, 1));
    assert!(rt; !is_read(true, 11, 1));
    assert!(rt; !is_read(true, 15, 1));
    assert!(rt; !is_read(true, 29, 7));
    assert!(rt; !is_read(true, 30, 1));
    assert!(rt; !is_read(true, 4095, 1));
    assert!(rt; !is_read(false, 5, 0));
    assert!(rt; !is_read(false, 27, 1));
}
