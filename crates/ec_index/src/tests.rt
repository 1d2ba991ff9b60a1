// That the calls succeed, over gfids at both ends.
use super::Index;
use ec_attr::Gfid;
use std::test::Fail;

const LAST: u128 = 0xffff_ffff_ffff_ffff_ffff_ffff_ffff_ffff;

#[test]
fn gfids_go_in_and_out(rt: HostRuntime) -> Result<(), Fail> {
    let mut index = Index::new(rt.alloc());
    assert!(rt; index.after(Gfid(0)).is_none());
    for g in [7, 1, LAST, 7, 4] {
        index.set(Gfid(g), true)?;
    }
    index.set(Gfid(4), false)?;
    index.set(Gfid(5), false)?;
    let mut at = Gfid(0);
    for g in [1, 7, LAST] {
        let next = index.after(at).ok_or("none above")?;
        assert!(rt; next == Gfid(g) && index.has(next));
        at = next;
    }
    assert!(rt; index.after(at).is_none());
    assert!(rt; !index.has(Gfid(4)) && !index.has(Gfid(0)));
    Ok(())
}
