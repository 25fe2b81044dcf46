//! Lines of servers, builders and events, good and faulty.
use crate::judged::{BAD, DUPLICATE, READ, Row, SCOPED, judge, judge_behind};
use std::test::Fail;

/// Lines of servers behind a scheduler line.
const SERVERS: &[Row] = &[
    (
        READ,
        0,
        "server 127.0.0.1:10501 cpus 1 nonce 7 key 010202 capacity 1000",
        "a server",
    ),
    (
        READ,
        0,
        "server 127.0.0.1:10501 cpus 0 nonce 0 key 00 capacity 0",
        "least numbers",
    ),
    (
        READ,
        0,
        "server 127.0.0.1:10501 cpus 18446744073709551615 nonce 18446744073709551615 key FfaA capacity 18446744073709551615",
        "greatest numbers, hex of either case",
    ),
    (
        BAD,
        2,
        "server 127.0.0.1:10501 cpus 18446744073709551616 nonce 7 key 010202 capacity 1000",
        "cpus of 2^64",
    ),
    (
        BAD,
        2,
        "server 127.0.0.1:10501 cpus 1 nonce 18446744073709551616 key 010202 capacity 1000",
        "a nonce of 2^64",
    ),
    (
        BAD,
        2,
        "server 127.0.0.1:10501 cpus 1 nonce 7 key 010202 capacity 18446744073709551616",
        "a capacity of 2^64",
    ),
    (
        BAD,
        2,
        "server 127.0.0.1:10501 cpus 01 nonce 7 key 010202 capacity 1000",
        "a leading zero",
    ),
    (
        BAD,
        2,
        "server 127.0.0.1:10501 cpus 1 nonce 7 key - capacity 1000",
        "a key of no bytes",
    ),
    (
        BAD,
        2,
        "server 127.0.0.1:10501 cpus 1 nonce 7 key 01020 capacity 1000",
        "a key of odd hex",
    ),
    (
        BAD,
        2,
        "server 127.0.0.1:10501 cpus 1 nonce 7 key 0102g2 capacity 1000",
        "no hex digit",
    ),
    (
        BAD,
        2,
        "server 127.0.0.1:10501 cpus 1 nonce 7 key  capacity 1000",
        "no key",
    ),
    (
        BAD,
        2,
        "server 127.0.0.1:10501 cpus 1 nonce 7 key 010202 capacity",
        "no capacity",
    ),
    (
        BAD,
        2,
        "server 127.0.0.1:10501 cpus 1 nonce 7 key 010202 capacity ",
        "an empty capacity",
    ),
    (
        BAD,
        2,
        "server 127.0.0.1:10501 cpus 1 nonce 7 key 010202 capacity 1000 ",
        "a trailing space",
    ),
    (
        BAD,
        2,
        "server 127.0.0.1:10501 cpus 1 nonce 7 key 010202 capacity 1000 1",
        "a word more",
    ),
    (
        BAD,
        2,
        "server 127.0.0.1:10501 cpus 1 key 010202 nonce 7 capacity 1000",
        "another order",
    ),
    (
        BAD,
        2,
        "server 127.0.0.1:10501 cpu 1 nonce 7 key 010202 capacity 1000",
        "another word",
    ),
    (
        BAD,
        2,
        "Server 127.0.0.1:10501 cpus 1 nonce 7 key 010202 capacity 1000",
        "a capital",
    ),
    (BAD, 2, "server", "the word alone"),
    (
        BAD,
        2,
        "server 127.0.0.1 cpus 1 nonce 7 key 010202 capacity 1000",
        "no port",
    ),
    (
        READ,
        0,
        "server [::1]:80 cpus 1 nonce 7 key 010202 capacity 1000",
        "eight groups",
    ),
    (
        READ,
        0,
        "server [2001:DB8::0:1]:00080 cpus 1 nonce 7 key 010202 capacity 1000",
        "capitals and leading zeros of groups and port",
    ),
    (
        BAD,
        2,
        "server [::1] cpus 1 nonce 7 key 010202 capacity 1000",
        "eight groups and no port",
    ),
    (
        BAD,
        2,
        "server [:::1]:80 cpus 1 nonce 7 key 010202 capacity 1000",
        "three colons",
    ),
    (
        DUPLICATE,
        3,
        "server 127.0.0.1:10501 cpus 1 nonce 7 key 010202 capacity 1000\nserver 127.0.0.1:10501 cpus 1 nonce 7 key 010202 capacity 1000",
        "a server twice",
    ),
    (
        DUPLICATE,
        3,
        "server 127.0.0.1:10501 cpus 1 nonce 7 key 010202 capacity 1000\nserver 127.0.0.1:10501 cpus 2 nonce 8 key 03 capacity 2000",
        "another server at the address",
    ),
    (
        DUPLICATE,
        3,
        "server 127.0.0.1:10501 cpus 1 nonce 7 key 010202 capacity 1000\nserver 127.0.0.1:10501 cpus 2 nonce 8 key 03 capacity 2000\n0 beet",
        "the first of two faulty lines",
    ),
    (
        DUPLICATE,
        2,
        "server 127.0.0.1:10600 cpus 1 nonce 7 key 010202 capacity 1000",
        "a server at the scheduler's address",
    ),
    (
        DUPLICATE,
        3,
        "server [::1]:80 cpus 1 nonce 7 key 01 capacity 1\nserver [0:0:0:0:0:0:0:1]:080 cpus 1 nonce 7 key 01 capacity 1",
        "one address, two spellings",
    ),
    (
        READ,
        0,
        "server 127.0.0.1:10501 cpus 1 nonce 7 key 010202 capacity 1000\nserver 127.0.0.1:10502 cpus 1 nonce 7 key 010202 capacity 1000",
        "another port",
    ),
    (
        READ,
        0,
        "server 127.0.0.1:80 cpus 1 nonce 7 key 01 capacity 1\nserver [::ffff:127.0.0.1]:80 cpus 1 nonce 7 key 01 capacity 1",
        "four octets within eight groups are another address",
    ),
    (
        SCOPED,
        2,
        "server [fe80::1%3]:80 cpus 1 nonce 7 key 010202 capacity 1000",
        "a scope",
    ),
    (
        SCOPED,
        2,
        "server [fe80::1%0099999999999999999999]:80 cpus 1 nonce 7 key 010202 capacity 1000",
        "a scope of any value",
    ),
    (
        BAD,
        2,
        "server [fe80::1%]:80 cpus 1 nonce 7 key 010202 capacity 1000",
        "no digits of a scope",
    ),
    (
        BAD,
        2,
        "server [fe80::1%eth0]:80 cpus 1 nonce 7 key 010202 capacity 1000",
        "a scope that is no number",
    ),
    (
        BAD,
        2,
        "server 127.0.0.1%3:80 cpus 1 nonce 7 key 010202 capacity 1000",
        "a scope of four octets",
    ),
    (
        BAD,
        2,
        "server [fe80::1%3]:80 cpus 1 nonce 7 key - capacity 1000",
        "bad before scoped: no key",
    ),
    (
        BAD,
        2,
        "server [fe80::1%3]:80 cpus 1 nonce 7 key 010202 capacity 1000 ",
        "bad before scoped: a trailing space",
    ),
    (
        BAD,
        3,
        "0 deliver 0\nserver [fe80::1%3]:80 cpus 1 nonce 7 key 010202 capacity 1000",
        "bad before scoped: behind an event",
    ),
    (
        BAD,
        3,
        "0 deliver 0\nserver 127.0.0.1:10501 cpus 1 nonce 7 key 010202 capacity 1000",
        "a server behind an event",
    ),
    (
        BAD,
        4,
        "server 127.0.0.1:10501 cpus 1 nonce 7 key 010202 capacity 1000\n0 deliver 0\nserver 127.0.0.1:10501 cpus 1 nonce 7 key 010202 capacity 1000",
        "bad before duplicate: behind an event",
    ),
    (
        SCOPED,
        3,
        "server 0.0.0.0:0 cpus 1 nonce 7 key 01 capacity 1\nserver [fe80::1%3]:80 cpus 1 nonce 7 key 01 capacity 1",
        "a scoped address is that of no server",
    ),
    (
        BAD,
        3,
        "server 0.0.0.0:0 cpus 1 nonce 7 key 01 capacity 1\nbuilder [fe80::1%3]:80 refuse",
        "nor is it in a builder's line",
    ),
    (
        BAD,
        3,
        "server 127.0.0.1:10501 cpus 1 nonce 7 key 010202 capacity 1000\nscheduler [fe80::1%3]:80 base 4096 count 0 client c1 plain s1",
        "bad before scoped: a second scheduler",
    ),
];

/// Lines of builders behind a scheduler line.
const BUILDERS: &[Row] = &[
    (
        READ,
        0,
        "server 127.0.0.1:10501 cpus 1 nonce 7 key 010202 capacity 1000\nbuilder 127.0.0.1:10501 refuse",
        "a refusal",
    ),
    (
        READ,
        0,
        "server 127.0.0.1:10501 cpus 1 nonce 7 key 010202 capacity 1000\nbuilder 127.0.0.1:10501 ok 0 - -",
        "an answer of nothing",
    ),
    (
        READ,
        0,
        "server 127.0.0.1:10501 cpus 1 nonce 7 key 010202 capacity 1000\nbuilder 127.0.0.1:10501 ok 0 6F6b 0a",
        "hex of either case",
    ),
    (
        READ,
        0,
        "server 127.0.0.1:10501 cpus 1 nonce 7 key 010202 capacity 1000\nbuilder 127.0.0.1:10501 ok -1 - -",
        "a code below 0",
    ),
    (
        READ,
        0,
        "server 127.0.0.1:10501 cpus 1 nonce 7 key 010202 capacity 1000\nbuilder 127.0.0.1:10501 ok 2147483647 - -",
        "the greatest code",
    ),
    (
        BAD,
        3,
        "server 127.0.0.1:10501 cpus 1 nonce 7 key 010202 capacity 1000\nbuilder 127.0.0.1:10501 ok 2147483648 - -",
        "past the greatest code",
    ),
    (
        READ,
        0,
        "server 127.0.0.1:10501 cpus 1 nonce 7 key 010202 capacity 1000\nbuilder 127.0.0.1:10501 ok -2147483648 - -",
        "the least code",
    ),
    (
        BAD,
        3,
        "server 127.0.0.1:10501 cpus 1 nonce 7 key 010202 capacity 1000\nbuilder 127.0.0.1:10501 ok -2147483649 - -",
        "past the least code",
    ),
    (
        BAD,
        3,
        "server 127.0.0.1:10501 cpus 1 nonce 7 key 010202 capacity 1000\nbuilder 127.0.0.1:10501 ok -0 - -",
        "a dash before 0",
    ),
    (
        BAD,
        3,
        "server 127.0.0.1:10501 cpus 1 nonce 7 key 010202 capacity 1000\nbuilder 127.0.0.1:10501 ok 00 - -",
        "two zeros",
    ),
    (
        BAD,
        3,
        "server 127.0.0.1:10501 cpus 1 nonce 7 key 010202 capacity 1000\nbuilder 127.0.0.1:10501 ok -01 - -",
        "a leading zero below 0",
    ),
    (
        BAD,
        3,
        "server 127.0.0.1:10501 cpus 1 nonce 7 key 010202 capacity 1000\nbuilder 127.0.0.1:10501 ok +1 - -",
        "a plus",
    ),
    (
        BAD,
        3,
        "server 127.0.0.1:10501 cpus 1 nonce 7 key 010202 capacity 1000\nbuilder 127.0.0.1:10501 ok - - -",
        "a dash alone",
    ),
    (
        BAD,
        3,
        "server 127.0.0.1:10501 cpus 1 nonce 7 key 010202 capacity 1000\nbuilder 127.0.0.1:10501 ok --1 - -",
        "two dashes",
    ),
    (
        BAD,
        3,
        "server 127.0.0.1:10501 cpus 1 nonce 7 key 010202 capacity 1000\nbuilder 127.0.0.1:10501 ok 0 -",
        "no stderr",
    ),
    (
        BAD,
        3,
        "server 127.0.0.1:10501 cpus 1 nonce 7 key 010202 capacity 1000\nbuilder 127.0.0.1:10501 ok 0 - ",
        "an empty stderr",
    ),
    (
        BAD,
        3,
        "server 127.0.0.1:10501 cpus 1 nonce 7 key 010202 capacity 1000\nbuilder 127.0.0.1:10501 ok 0",
        "no stdout",
    ),
    (
        BAD,
        3,
        "server 127.0.0.1:10501 cpus 1 nonce 7 key 010202 capacity 1000\nbuilder 127.0.0.1:10501 ok 0 - - ",
        "a trailing space",
    ),
    (
        BAD,
        3,
        "server 127.0.0.1:10501 cpus 1 nonce 7 key 010202 capacity 1000\nbuilder 127.0.0.1:10501 ok 0 - - 6f",
        "a name without bytes",
    ),
    (
        BAD,
        3,
        "server 127.0.0.1:10501 cpus 1 nonce 7 key 010202 capacity 1000\nbuilder 127.0.0.1:10501 ok 0 - - 6f ",
        "a name and empty bytes",
    ),
    (
        READ,
        0,
        "server 127.0.0.1:10501 cpus 1 nonce 7 key 010202 capacity 1000\nbuilder 127.0.0.1:10501 ok 0 - - 6f -",
        "an output of no bytes",
    ),
    (
        READ,
        0,
        "server 127.0.0.1:10501 cpus 1 nonce 7 key 010202 capacity 1000\nbuilder 127.0.0.1:10501 ok 0 - - - 00",
        "an output with an empty name",
    ),
    (
        READ,
        0,
        "server 127.0.0.1:10501 cpus 1 nonce 7 key 010202 capacity 1000\nbuilder 127.0.0.1:10501 ok 0 - - 6f 00 6f 01 c3a9 02",
        "three outputs, one name twice, one of two bytes",
    ),
    (
        BAD,
        3,
        "server 127.0.0.1:10501 cpus 1 nonce 7 key 010202 capacity 1000\nbuilder 127.0.0.1:10501 ok 0 - - 6f 00 6f",
        "an odd word at the end",
    ),
    (
        BAD,
        3,
        "server 127.0.0.1:10501 cpus 1 nonce 7 key 010202 capacity 1000\nbuilder 127.0.0.1:10501 ok 0 - - ff 00",
        "a name that is not UTF-8",
    ),
    (
        BAD,
        3,
        "server 127.0.0.1:10501 cpus 1 nonce 7 key 010202 capacity 1000\nbuilder 127.0.0.1:10501 ok 0 - - c3 a9",
        "half a letter",
    ),
    (
        BAD,
        3,
        "server 127.0.0.1:10501 cpus 1 nonce 7 key 010202 capacity 1000\nbuilder 127.0.0.1:10501 ok 0 - - eda080 00",
        "half a pair of UTF-16",
    ),
    (
        READ,
        0,
        "server 127.0.0.1:10501 cpus 1 nonce 7 key 010202 capacity 1000\nbuilder 127.0.0.1:10501 ok 0 ff ff 6f ff",
        "bytes that are not UTF-8",
    ),
    (
        BAD,
        3,
        "server 127.0.0.1:10501 cpus 1 nonce 7 key 010202 capacity 1000\nbuilder 127.0.0.1:10501 ok 0 - - 6f 0",
        "odd hex",
    ),
    (
        BAD,
        3,
        "server 127.0.0.1:10501 cpus 1 nonce 7 key 010202 capacity 1000\nbuilder 127.0.0.1:10501 ok 0 -  - 6f 00",
        "two spaces",
    ),
    (
        BAD,
        3,
        "server 127.0.0.1:10501 cpus 1 nonce 7 key 010202 capacity 1000\nbuilder 127.0.0.1:10501 refuse ",
        "a trailing space behind a refusal",
    ),
    (
        BAD,
        3,
        "server 127.0.0.1:10501 cpus 1 nonce 7 key 010202 capacity 1000\nbuilder 127.0.0.1:10501 refuse 0",
        "a word behind a refusal",
    ),
    (
        BAD,
        3,
        "server 127.0.0.1:10501 cpus 1 nonce 7 key 010202 capacity 1000\nbuilder 127.0.0.1:10501 Refuse",
        "a capital",
    ),
    (
        BAD,
        3,
        "server 127.0.0.1:10501 cpus 1 nonce 7 key 010202 capacity 1000\nbuilder 127.0.0.1:10501 no",
        "another word",
    ),
    (
        BAD,
        3,
        "server 127.0.0.1:10501 cpus 1 nonce 7 key 010202 capacity 1000\nbuilder 127.0.0.1:10501",
        "no answer",
    ),
    (
        BAD,
        2,
        "builder 127.0.0.1:10501 refuse",
        "no earlier server",
    ),
    (
        BAD,
        2,
        "builder 127.0.0.1:10501 refuse\nserver 127.0.0.1:10501 cpus 1 nonce 7 key 010202 capacity 1000",
        "a server that comes later",
    ),
    (
        BAD,
        3,
        "server 127.0.0.1:10501 cpus 1 nonce 7 key 010202 capacity 1000\nbuilder 127.0.0.1:10502 refuse",
        "another address",
    ),
    (
        BAD,
        3,
        "server 127.0.0.1:10501 cpus 1 nonce 7 key 010202 capacity 1000\nbuilder 127.0.0.1:10600 refuse",
        "the scheduler's address",
    ),
    (
        READ,
        0,
        "server 127.0.0.1:10501 cpus 1 nonce 7 key 010202 capacity 1000\nbuilder 127.0.0.1:10501 refuse\nbuilder 127.0.0.1:10501 refuse",
        "two answers are no duplicate",
    ),
    (
        READ,
        0,
        "server [::1]:80 cpus 1 nonce 7 key 01 capacity 1\nbuilder [0:0::1]:80 refuse",
        "another spelling of the address",
    ),
    (
        BAD,
        3,
        "server 127.0.0.1:10501 cpus 1 nonce 7 key 010202 capacity 1000\nbuilder [fe80::1%3]:80 refuse",
        "a scoped address names no server",
    ),
    (
        BAD,
        4,
        "server 127.0.0.1:10501 cpus 1 nonce 7 key 010202 capacity 1000\n0 deliver 0\nbuilder 127.0.0.1:10501 refuse",
        "behind an event",
    ),
    (
        READ,
        0,
        "server 127.0.0.1:10501 cpus 1 nonce 7 key 010202 capacity 1000\n# x\n\nbuilder 127.0.0.1:10501 refuse\nserver 127.0.0.1:10502 cpus 1 nonce 7 key 01 capacity 1\nbuilder 127.0.0.1:10501 ok 1 - -",
        "an answer behind another server",
    ),
];

/// Lines of events behind a scheduler line.
const EVENTS: &[Row] = &[
    (
        BAD,
        3,
        "server 127.0.0.1:10501 cpus 1 nonce 7 key 010202 capacity 1000\n0 beet 127.0.0.1:10501\n1 deliver 0",
        "a misspelt word behind a server",
    ),
    (READ, 0, "0 return 0", "a return"),
    (
        READ,
        0,
        "18446744073709551615 return 18446744073709551615",
        "greatest numbers",
    ),
    (BAD, 2, "0 return 18446744073709551616", "2^64"),
    (BAD, 2, "0 return 00", "two zeros"),
    (BAD, 2, "0 return", "no number"),
    (BAD, 2, "0 return ", "an empty number"),
    (BAD, 2, "0 return 0 ", "a trailing space"),
    (BAD, 2, "0 return 0 -", "bytes of a return"),
    (BAD, 2, "0 returns 0", "another word"),
    (
        READ,
        0,
        "0 beat 127.0.0.1:10501",
        "a heartbeat, of no server of the farm",
    ),
    (READ, 0, "0 beat [::1]:80", "a heartbeat from eight groups"),
    (
        SCOPED,
        2,
        "0 beat [fe80::1%3]:80",
        "a heartbeat with a scope",
    ),
    (BAD, 2, "0 beat [fe80::1%3]:80 ", "bad before scoped"),
    (
        BAD,
        2,
        "00 beat [fe80::1%3]:80",
        "bad before scoped: the moment",
    ),
    (BAD, 2, "0 beat", "no address"),
    (BAD, 2, "0 beat 127.0.0.1:10501 7", "a word more"),
    (BAD, 2, "0 beet 127.0.0.1:10501", "a misspelt word"),
    (
        READ,
        0,
        "0 restart 127.0.0.1:10501 key 010202 nonce 7",
        "a restart",
    ),
    (
        BAD,
        2,
        "0 restart 127.0.0.1:10501 key - nonce 7",
        "a key of no bytes",
    ),
    (
        BAD,
        2,
        "0 restart 127.0.0.1:10501 key 0 nonce 7",
        "a key of odd hex",
    ),
    (
        BAD,
        2,
        "0 restart 127.0.0.1:10501 key 010202 nonce 18446744073709551616",
        "a nonce of 2^64",
    ),
    (BAD, 2, "0 restart 127.0.0.1:10501 key 010202", "no nonce"),
    (
        BAD,
        2,
        "0 restart 127.0.0.1:10501 nonce 7 key 010202",
        "another order",
    ),
    (
        BAD,
        2,
        "0 restart 127.0.0.1:10501 key 010202 nonce 7 ",
        "a trailing space",
    ),
    (
        SCOPED,
        2,
        "0 restart [fe80::1%3]:80 key 010202 nonce 7",
        "a restart with a scope",
    ),
    (
        BAD,
        2,
        "0 restart [fe80::1%3]:80 key 010202 nonce -7",
        "bad before scoped: the nonce",
    ),
    (
        SCOPED,
        2,
        "0 request [fe80::1%3]:80 127.0.0.1:40000 -",
        "a scope of the target",
    ),
    (
        SCOPED,
        2,
        "0 request 127.0.0.1:10600 [fe80::1%3]:80 -",
        "a scope of the peer",
    ),
    (
        SCOPED,
        2,
        "0 request [fe80::1%3]:80 [fe80::1%3]:80 -",
        "two scopes",
    ),
    (
        BAD,
        2,
        "0 request [fe80::1%3]:80 127.0.0.1:40000 0",
        "bad before scoped: odd hex",
    ),
    (
        BAD,
        2,
        "0 request [fe80::1%3]:80 localhost:80 -",
        "bad before scoped: a name",
    ),
    (
        READ,
        0,
        "0 request [::1]:80 [2001:db8::1]:443 -",
        "eight groups",
    ),
    (
        READ,
        0,
        "5 deliver 0\n3 deliver 0",
        "a moment that goes back",
    ),
];

/// Whole scripts.
const SCHEDULERS: &[Row] = &[
    (
        READ,
        0,
        "scheduler 127.0.0.1:10600 base 0 count 0 client c jwt 00",
        "a key of one byte",
    ),
    (
        READ,
        0,
        "scheduler [::1]:10600 base 0 count 0 client c jwt 0aFF",
        "hex of either case, eight groups",
    ),
    (
        BAD,
        1,
        "scheduler 127.0.0.1:10600 base 0 count 0 client c jwt -",
        "a key of no bytes",
    ),
    (
        BAD,
        1,
        "scheduler 127.0.0.1:10600 base 0 count 0 client c jwt 0",
        "odd hex",
    ),
    (
        BAD,
        1,
        "scheduler 127.0.0.1:10600 base 0 count 0 client c jwt ",
        "an empty key",
    ),
    (
        BAD,
        1,
        "scheduler 127.0.0.1:10600 base 0 count 0 client c jwt",
        "no key",
    ),
    (
        BAD,
        1,
        "scheduler 127.0.0.1:10600 base 0 count 0 client c jwt 00 ",
        "a trailing space",
    ),
    (
        BAD,
        1,
        "scheduler 127.0.0.1:10600 base 0 count 0 client c jwt 00 plain s",
        "both",
    ),
    (
        BAD,
        1,
        "scheduler 127.0.0.1:10600 base 0 count 0 client c JWT 00",
        "capitals",
    ),
    (
        SCOPED,
        1,
        "scheduler [fe80::1%3]:10600 base 0 count 0 client c plain s",
        "a scope",
    ),
    (
        SCOPED,
        3,
        "# x\n\nscheduler [fe80::1%3]:10600 base 0 count 0 client c jwt 00\n0 beet",
        "behind skipped lines, before another fault",
    ),
    (
        BAD,
        1,
        "scheduler [fe80::1%3]:10600 base 0 count 00 client c plain s",
        "bad before scoped",
    ),
    (
        BAD,
        2,
        "0 deliver 0\nscheduler [fe80::1%3]:10600 base 0 count 0 client c plain s",
        "bad before scoped: behind an event",
    ),
    (
        BAD,
        1,
        "server 127.0.0.1:10501 cpus 1 nonce 7 key 010202 capacity 1000\nscheduler 127.0.0.1:10600 base 4096 count 0 client c1 plain s1",
        "a server before the scheduler",
    ),
    (
        BAD,
        1,
        "server [fe80::1%3]:10501 cpus 1 nonce 7 key 010202 capacity 1000\nscheduler 127.0.0.1:10600 base 4096 count 0 client c1 plain s1",
        "bad before scoped: before the scheduler",
    ),
    (
        BAD,
        1,
        "builder 127.0.0.1:10501 refuse\nscheduler 127.0.0.1:10600 base 4096 count 0 client c1 plain s1",
        "a builder before the scheduler",
    ),
    (
        BAD,
        3,
        "0 return 0\n0 beat 127.0.0.1:10501",
        "events alone: the number after the last line",
    ),
    (
        SCOPED,
        1,
        "0 beat [fe80::1%3]:80",
        "a scoped event before the number after the last line",
    ),
];

#[test]
fn reads_lines_of_servers(rt: HostRuntime) -> Result<(), Fail> {
    for row in SERVERS {
        judge_behind(&rt, rt.alloc(), row)?;
    }
    Ok(())
}

#[test]
fn reads_lines_of_builders(rt: HostRuntime) -> Result<(), Fail> {
    for row in BUILDERS {
        judge_behind(&rt, rt.alloc(), row)?;
    }
    Ok(())
}

#[test]
fn reads_lines_of_events(rt: HostRuntime) -> Result<(), Fail> {
    for row in EVENTS {
        judge_behind(&rt, rt.alloc(), row)?;
    }
    Ok(())
}

#[test]
fn reads_lines_of_schedulers(rt: HostRuntime) {
    for row in SCHEDULERS {
        let (cause, line, script, why) = *row;
        judge(&rt, rt.alloc(), script.as_bytes(), cause, line, why);
    }
}
