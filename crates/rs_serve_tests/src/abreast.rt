//! Two posts at the same time.

use crate::latch::Latch;
use crate::objects::{ALICE, CREATED, FOUND, GET, GRANT_ROW, PUT, keeper, post, run};
use rs_cli::Note;
use rs_face::MemSink;
use std::sync::Arc;
use std::test::Fail;

#[test]
fn one_post_reads_what_another_has_written(rt: HostRuntime) -> Result<(), Fail> {
    let alloc = rt.alloc();
    let latch = Arc::new(alloc, Latch::new())?;
    let mut posts = Vec::new(alloc);
    posts.push(post(alloc, &[PUT], &[], None)?)?;
    posts.push(post(alloc, &[GET], &[], Some(Arc::try_clone(&latch)?))?)?;
    let mut keepers = Vec::new(alloc);
    keepers.push(keeper(alloc, &[GRANT_ROW])?)?;
    let mut sink = MemSink::new(Vec::new(alloc), Vec::new(alloc));
    let end = run(
        &rt,
        alloc,
        "--config c --workers 2",
        ALICE,
        &mut posts,
        &mut keepers,
        &*latch,
        &mut sink,
    )?;
    assert_eq!(rt; end.status.note, Note::Empty);
    assert_eq!(rt; sink.written(), b"served 2\n".as_slice());
    let wanted = [CREATED, FOUND];
    assert_eq!(rt; posts.len(), 2);
    for (post, reply) in posts.iter().zip(&wanted) {
        assert_eq!(rt; post.listener.inner.ended().len(), 1);
        for ended in post.listener.inner.ended() {
            assert_eq!(rt; ended.sink.written(), reply.as_bytes());
        }
    }
    assert_eq!(rt; keepers.len(), 1);
    for keeper in keepers.iter() {
        assert_eq!(rt; keeper.rows().len(), 2);
        assert!(rt; keeper.rows()[1].as_slice().starts_with(b"\x02\x01"));
    }
    Ok(())
}
