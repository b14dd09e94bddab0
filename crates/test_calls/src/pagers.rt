//! Pagers, and cursors over a pager of the caller's own. The laws of ways say which pages such a
//! caller may open, and which buckets it may go over.

use crate::fault::Fault;
use crate::words::Text;
use bolt_check::Checked;
use bolt_check::laws::ways_go_on;
use bolt_format::{Kind, Page, head, inline};
use bolt_tree::laws::buckets_begin_on_ways;
use bolt_tree::{At, Cursor, Pager};

/// The key of the first element of a leaf that has one.
fn first_key<'a>(page: &Page<'a>) -> Result<&'a [u8], Fault> {
    match page.kind() {
        Kind::Leaf if page.count() > 0 => Ok(page.leaf(0).key),
        _ => Err(Fault::UNREAD),
    }
}

/// The first key on the second page below the root page, which is a branch, and how many pages a
/// pager has opened and noted before, between and after these calls.
pub fn opened_pages(checked: Checked<'_>, text: &mut Text) -> Result<(), Fault> {
    let mut pager = Pager::new(checked);
    let none = pager.opened();
    ways_go_on();
    let root = pager.open(checked.meta().root);
    let one = pager.opened();
    let key = match root.kind() {
        Kind::Branch if root.count() > 1 => {
            let child = pager.open(root.branch(1).child);
            first_key(&child)?
        }
        _ => return Err(Fault::UNREAD),
    };
    let two = pager.opened();
    pager.note();
    let three = pager.opened();
    text.add(key);
    text.numbers(&[none, one, two, three]);
    Ok(())
}

/// The first key of the root bucket by a cursor over a pager, and how many pages it opened.
pub fn root_cursor(checked: Checked<'_>, text: &mut Text) -> Result<(), Fault> {
    buckets_begin_on_ways();
    let cursor = Cursor::new(Pager::new(checked), At::Page(checked.meta().root));
    put_first(cursor, b"", text)
}

/// The key that a seek finds, and how many pages the cursor opened before and after it.
fn put_first(mut cursor: Cursor<'_>, key: &[u8], text: &mut Text) -> Result<(), Fault> {
    let before = cursor.opened();
    let entry = cursor.seek(key).ok_or(Fault::UNREAD)?;
    let after = cursor.opened();
    text.add(entry.key);
    text.numbers(&[before, after]);
    Ok(())
}

/// Prints what a seek finds, by a cursor of the first bucket on the root page, which is a leaf. The
/// pager has opened one page by then.
pub fn bucket_cursor(checked: Checked<'_>, key: &[u8], text: &mut Text) -> Result<(), Fault> {
    let mut pager = Pager::new(checked);
    ways_go_on();
    let root = pager.open(checked.meta().root);
    match root.kind() {
        Kind::Leaf if root.count() > 0 => {
            let bucket = root.leaf(0);
            if !bucket.is_bucket {
                return Err(Fault::UNREAD);
            }
            let head = head(bucket.value);
            buckets_begin_on_ways();
            if head.root == 0 {
                let cursor = Cursor::new(pager, At::Inline(inline(bucket.value)));
                return put_first(cursor, key, text);
            }
            let cursor = Cursor::new(pager, At::Page(head.root));
            put_first(cursor, key, text)
        }
        _ => Err(Fault::UNREAD),
    }
}
