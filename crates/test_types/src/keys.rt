//! Ids and addresses as keys: equal, in order and hashed as what they show.
use dist_types::addr::{Addr, Ip, same_addr};
use dist_types::ids::{JobId, ServerId};
use dist_types::keys::{
    addr_order, hash_addr, hash_ip, hash_job, hash_server, hash_toolchain, ip_order, job_order,
    same_ip, same_job, same_server, same_toolchain, server_order, toolchain_order,
};
use dist_types::toolchain::Toolchain;
use std::cmp::Ordering;
use std::hash::{DefaultHasher, Hasher};
use std::test::Fail;

// Addresses in rising order.
const RISING: &str = "\
9.255.255.255:65535
10.0.0.1:80
10.0.0.1:443
10.0.0.2:1
[::1]:1
[::2]:0";

#[test]
fn servers_are_in_the_order_of_their_addresses(rt: HostRuntime) -> Result<(), Fail> {
    let mut last: Addr = "0.0.0.0:0".parse()?;
    for line in RISING.lines() {
        let next: Addr = line.parse()?;
        let (a, b) = (ServerId::new(last), ServerId::new(next));
        assert!(rt;
            addr_order(&last, &next) == Ordering::Less && server_order(&a, &b) == Ordering::Less,
            "{line}"
        );
        assert!(rt; server_order(&b, &a) == Ordering::Greater, "{line}");
        assert!(rt;
            !same_addr(&last, &next) && !same_server(&a, &b) && same_server(&b, &b),
            "{line}"
        );
        last = next;
    }
    Ok(())
}

#[test]
fn a_server_is_hashed_as_its_address(rt: HostRuntime) -> Result<(), Fail> {
    for line in RISING.lines() {
        let addr: Addr = line.parse()?;
        let (mut one, mut other) = (DefaultHasher::new(), DefaultHasher::new());
        hash_addr(&addr, &mut one);
        hash_server(&ServerId::new(addr), &mut other);
        assert!(rt; one.finish() == other.finish(), "{line}");
    }
    Ok(())
}

#[test]
fn jobs_and_toolchains_are_their_numbers_and_ids(rt: HostRuntime) -> Result<(), Fail> {
    assert!(rt; same_job(&JobId(7), &JobId(7)) && !same_job(&JobId(7), &JobId(8)));
    assert!(rt; job_order(&JobId(10), &JobId(9)) == Ordering::Greater);
    let low = Toolchain::new("ba7816bf8f01cfea414140de5dae2223b00361a396177a9cb410ff61f20015ad")?;
    let upper = Toolchain::new("BA7816BF8F01CFEA414140DE5DAE2223B00361A396177A9CB410FF61F20015AD")?;
    let high = Toolchain::new("e3b0c44298fc1c149afbf4c8996fb92427ae41e4649b934ca495991b7852b855")?;
    assert!(rt; same_toolchain(&low, &upper) && !same_toolchain(&low, &high));
    assert!(rt; toolchain_order(&low, &high) == Ordering::Less);
    let (mut one, mut other) = (DefaultHasher::new(), DefaultHasher::new());
    hash_toolchain(&low, &mut one);
    hash_toolchain(&upper, &mut other);
    hash_job(&JobId(7), &mut one);
    hash_job(&JobId(7), &mut other);
    assert!(rt; one.finish() == other.finish());
    Ok(())
}

#[test]
fn addresses_without_a_port_are_their_numbers(rt: HostRuntime) {
    let four = Ip::V4([10, 0, 0, 1]);
    let eight = Ip::V6([0, 0, 0, 0, 0, 0xffff, 0x0a00, 1]);
    assert!(rt; same_ip(&four, &four) && !same_ip(&four, &eight));
    assert!(rt; ip_order(&four, &eight) == Ordering::Less);
    let (mut one, mut other) = (DefaultHasher::new(), DefaultHasher::new());
    hash_ip(&eight, &mut one);
    hash_ip(&eight, &mut other);
    assert!(rt; one.finish() == other.finish());
}
