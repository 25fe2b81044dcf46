//! Address texts against the examples of RFC 4291, section 2.2, and RFC 5952, sections 4 and 5.
use dist_types::addr::{Addr, Ip, is_scoped, read_ip};
use dist_types::ids::ServerId;
use dist_types::type_error::TypeError;
use std::test::Fail;

// A text a line, and how the address that it says is printed.
const PRINTED: &str = "\
127.0.0.1:10501 127.0.0.1:10501
0.0.0.0:0 0.0.0.0:0
255.255.255.255:65535 255.255.255.255:65535
10.0.0.1:00080 10.0.0.1:80
192.0.2.1:00000 192.0.2.1:0
[ABCD:EF01:2345:6789:ABCD:EF01:2345:6789]:1 [abcd:ef01:2345:6789:abcd:ef01:2345:6789]:1
[2001:DB8:0:0:8:800:200C:417A]:80 [2001:db8::8:800:200c:417a]:80
[2001:DB8::8:800:200C:417A]:80 [2001:db8::8:800:200c:417a]:80
[FF01:0:0:0:0:0:0:101]:80 [ff01::101]:80
[FF01::101]:80 [ff01::101]:80
[0:0:0:0:0:0:0:1]:80 [::1]:80
[::1]:80 [::1]:80
[0:0:0:0:0:0:0:0]:80 [::]:80
[::]:65535 [::]:65535
[0:0:0:0:0:0:13.1.68.3]:80 [::d01:4403]:80
[::13.1.68.3]:80 [::d01:4403]:80
[0:0:0:0:0:FFFF:129.144.52.38]:80 [::ffff:129.144.52.38]:80
[::FFFF:129.144.52.38]:80 [::ffff:129.144.52.38]:80
[::ffff:c000:201]:80 [::ffff:192.0.2.1]:80
[2001:db8:0:0:1:0:0:1]:1 [2001:db8::1:0:0:1]:1
[2001:0db8:0:0:1:0:0:1]:1 [2001:db8::1:0:0:1]:1
[2001:db8::1:0:0:1]:1 [2001:db8::1:0:0:1]:1
[2001:db8::0:1:0:0:1]:1 [2001:db8::1:0:0:1]:1
[2001:0db8::1:0:0:1]:1 [2001:db8::1:0:0:1]:1
[2001:db8:0:0:1::1]:1 [2001:db8::1:0:0:1]:1
[2001:db8:0000:0:1::1]:1 [2001:db8::1:0:0:1]:1
[2001:DB8:0:0:1::1]:1 [2001:db8::1:0:0:1]:1
[2001:db8:0:0:0:0:2:1]:1 [2001:db8::2:1]:1
[2001:db8:0:1:1:1:1:1]:1 [2001:db8:0:1:1:1:1:1]:1
[2001:db8::1:1:1:1:1]:1 [2001:db8:0:1:1:1:1:1]:1
[2001:0:0:1:0:0:0:1]:1 [2001:0:0:1::1]:1
[2001:0db8::0001]:1 [2001:db8::1]:1
[2001:db8:aaaa:bbbb:cccc:dddd:eeee:AAAA]:1 [2001:db8:aaaa:bbbb:cccc:dddd:eeee:aaaa]:1
[1:2:3:4:5:6:7::]:1 [1:2:3:4:5:6:7:0]:1
[::2:3:4:5:6:7:8]:1 [0:2:3:4:5:6:7:8]:1";

// A text a line that says no address.
const REFUSED: &str = "
:
:80
1.2.3.4
1.2.3.4:
1.2.3.4:65536
1.2.3.4:99999
1.2.3.4:000080
1.2.3.4:+80
1.2.3.4:-1
1.2.3.4:8 0
1.2.3.4:0x50
 1.2.3.4:80
01.2.3.4:80
1.2.3.00:80
1.2.3.256:80
1.2.3:80
1.2.3.4.5:80
1..3.4:80
a.b.c.d:80
localhost:80
::1:80
fe80::1:80
[::1]
[::1]:
[::1]80
[::1]:65536
[::1]:000080
[]:80
[1.2.3.4]:80
[:::1]:80
[1::2::3]:80
[1:2:3:4:5:6:7]:80
[1:2:3:4:5:6:7:8:9]:80
[1:2:3:4:5:6:7:8::]:80
[12345::]:80
[g::]:80
[1:]:80
[::256.1.1.1]:80
[::01.2.3.4]:80
[1.2.3.4::]:80
[1:2:3:4:5:6:7:1.2.3.4]:80
[fe80::1%3]:80
[fe80::1%eth0]:80";

#[test]
fn addresses_are_printed(rt: HostRuntime) -> Result<(), Fail> {
    for line in PRINTED.lines() {
        let (text, printed) = line.split_once(' ').ok_or("two texts")?;
        let server: ServerId = text.parse()?;
        let again = server.to_string(rt.alloc())?;
        assert_eq!(rt; again.as_str(), printed, "{text}");
        assert!(rt; printed.parse::<ServerId>() == Ok(server), "{text}");
    }
    Ok(())
}

#[test]
fn other_texts_are_refused(rt: HostRuntime) -> Result<(), Fail> {
    for text in REFUSED.lines() {
        assert!(rt; text.parse::<Addr>() == Err(TypeError::BadAddr), "{text}");
    }
    assert!(rt; is_scoped("[fe80::1%3]:80") && is_scoped("[::%99999999999999999999]:1"));
    assert!(rt; !is_scoped("[fe80::1%]:80") && !is_scoped("[fe80::1%eth0]:80"));
    assert!(rt; !is_scoped("[fe80::1]:80") && !is_scoped("[fe80::1%3]:65536"));
    let mapped = Ip::V6([0, 0, 0, 0, 0, 0xffff, 0x7f00, 1]);
    assert!(rt; read_ip("127.0.0.1") == Some(Ip::V4([127, 0, 0, 1])));
    assert!(rt; read_ip("::ffff:127.0.0.1") == Some(mapped));
    assert!(rt; read_ip("127.0.0.1:80").is_none() && read_ip("[::1]").is_none());
    assert!(rt; "[::ffff:7f00:1]:9".parse::<Addr>()?.ip() == mapped);
    Ok(())
}
