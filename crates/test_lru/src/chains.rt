//! Items of a chain, with ample memory.
use lru_metered::chain::Chain;
use std::test::*;

#[test]
fn stores_items_from_key_0_on(rt: HostRuntime) -> Result<(), Fail> {
    let mut chain = Chain::new(rt.alloc());
    assert_eq!(rt; chain.insert(7u32), Ok(0));
    assert_eq!(rt; chain.insert(8), Ok(1));
    assert_eq!(rt; chain.get(0).copied(), Some(7));
    assert_eq!(rt; chain.get(1).copied(), Some(8));
    assert_eq!(rt; chain.get(2).copied(), None);
    assert_eq!(rt; chain.first(), None);
    Ok(())
}
