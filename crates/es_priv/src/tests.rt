use super::*;
use es_base::Seq;
use std::test::Fail;

#[test]
fn copies(rt: HostRuntime) -> Result<(), Fail> {
    let alloc = rt.alloc();
    let row = Seq::from_slice(alloc, granting(Action::Put))?;
    assert_eq!(rt; row.copy(alloc)?.as_slice(), granting(Action::Put));
    let row = Seq::from_slice(alloc, granting_cluster(ClusterAction::AnyKeys))?;
    assert_eq!(rt;
        row.copy(alloc)?.as_slice(),
        granting_cluster(ClusterAction::AnyKeys)
    );
    Ok(())
}
