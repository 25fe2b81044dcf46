//! Bases of every form, and what they are joined to.
use dist_types::addr::Addr;
use dist_types::ids::{JobId, ServerId};
use http_calls::error::HttpError;
use http_calls::urls::{
    scheduler_alloc_job, scheduler_drain_server, scheduler_job_state, server_run_job,
};
use std::alloc::Global;
use url::Url;

/// A base, and the URL at which a job is asked for.
const BASES: &[(&str, &str)] = &[
    ("http://h", "http://h/api/v1/scheduler/alloc_job"),
    ("http://h/x/y?q=1#f", "http://h/api/v1/scheduler/alloc_job"),
    (
        "HTTP://EXAMPLE.com:80/",
        "http://example.com/api/v1/scheduler/alloc_job",
    ),
    (
        "http://h:8080/a/../b",
        "http://h:8080/api/v1/scheduler/alloc_job",
    ),
    ("http:h", "http://h/api/v1/scheduler/alloc_job"),
    ("http:\\\\h\\x", "http://h/api/v1/scheduler/alloc_job"),
    ("http://u:p@h/x", "http://u:p@h/api/v1/scheduler/alloc_job"),
    (
        "http://[::1]:10600/",
        "http://[::1]:10600/api/v1/scheduler/alloc_job",
    ),
    (
        "http://[::ffff:1.2.3.4]/",
        "http://[::ffff:102:304]/api/v1/scheduler/alloc_job",
    ),
    (
        "http://0x7f.1",
        "http://127.0.0.1/api/v1/scheduler/alloc_job",
    ),
];

fn is_joined(alloc: Global, base: &str, joined: &str) -> bool {
    let Ok(base) = Url::parse(alloc, base) else {
        return false;
    };
    match scheduler_alloc_job(&base) {
        Ok(url) => url.as_str() == joined,
        Err(_) => false,
    }
}

#[test]
fn every_http_base_joins(rt: HostRuntime) {
    for (base, joined) in BASES {
        assert!(&rt; is_joined(rt.alloc(), base, joined));
    }
}

fn set_path(alloc: Global, base: &str) -> Option<Url> {
    let Ok(mut url) = Url::parse(alloc, base) else {
        return None;
    };
    let Ok(()) = url.set_path("/api/v1/scheduler/alloc_job") else {
        return None;
    };
    let Ok(()) = url.set_query(None) else {
        return None;
    };
    let Ok(()) = url.set_fragment(None) else {
        return None;
    };
    Some(url)
}

fn is_set(alloc: Global, base: &str, joined: &str) -> bool {
    match set_path(alloc, base) {
        Some(url) => url.as_str() == joined,
        None => false,
    }
}

#[test]
fn setting_the_path_agrees(rt: HostRuntime) {
    for (base, joined) in BASES {
        assert!(&rt; is_set(rt.alloc(), base, joined));
    }
}

/// Bases that are refused.
const OTHERS: &[&str] = &[
    "https://h/",
    "ftp://h/",
    "file:///x",
    "mailto:x",
    "unix:/x",
    "ws://h",
];

fn is_refused(alloc: Global, base: &str) -> bool {
    let Ok(base) = Url::parse(alloc, base) else {
        return false;
    };
    match scheduler_job_state(alloc, &base, JobId(7)) {
        Err(HttpError::BadBase) => true,
        Err(_) => false,
        Ok(_) => false,
    }
}

#[test]
fn other_bases_are_refused(rt: HostRuntime) {
    for base in OTHERS {
        assert!(&rt; is_refused(rt.alloc(), base));
    }
}

fn is_drain_refused(alloc: Global, base: &str) -> bool {
    let Ok(base) = Url::parse(alloc, base) else {
        return false;
    };
    match scheduler_drain_server(&base) {
        Err(HttpError::BadBase) => true,
        Err(_) => false,
        Ok(_) => false,
    }
}

#[test]
fn other_bases_are_refused_for_a_drain(rt: HostRuntime) {
    for base in OTHERS {
        assert!(&rt; is_drain_refused(rt.alloc(), base));
    }
}

fn is_drain_url(alloc: Global, base: &str, joined: &str) -> bool {
    let Ok(base) = Url::parse(alloc, base) else {
        return false;
    };
    match scheduler_drain_server(&base) {
        Ok(url) => url.as_str() == joined,
        Err(_) => false,
    }
}

#[test]
fn a_drain_is_told_at_its_path(rt: HostRuntime) {
    assert!(&rt;
        is_drain_url(
            rt.alloc(),
            "http://h:8080/x/y?q=1#f",
            "http://h:8080/api/v1/scheduler/drain_server"
        )
    );
}

/// A server, and the URL at which it is asked to run job 7.
const SERVERS: &[(Addr, &str)] = &[
    (
        Addr::V4([127, 0, 0, 1], 10501),
        "http://127.0.0.1:10501/api/v1/distserver/run_job/7",
    ),
    (
        Addr::V4([10, 0, 0, 255], 80),
        "http://10.0.0.255/api/v1/distserver/run_job/7",
    ),
    (
        Addr::V6([0, 0, 0, 0, 0, 0, 0, 1], 1),
        "http://[::1]:1/api/v1/distserver/run_job/7",
    ),
    (
        Addr::V6([0, 0, 0, 0, 0, 0xffff, 0x0102, 0x0304], 10501),
        "http://[::ffff:102:304]:10501/api/v1/distserver/run_job/7",
    ),
];

fn is_at(alloc: Global, server: Addr, text: &str) -> bool {
    match server_run_job(alloc, ServerId::new(server), JobId(7)) {
        Ok(url) => url.as_str() == text,
        Err(_) => false,
    }
}

/// Whether the text of the address, read as a URL, is the same URL.
fn is_read(alloc: Global, server: Addr, text: &str) -> bool {
    let Ok(written) = format!(in alloc; "http://{server}/api/v1/distserver/run_job/7") else {
        return false;
    };
    match Url::parse(alloc, &written) {
        Ok(url) => url.as_str() == text,
        Err(_) => false,
    }
}

#[test]
fn servers_have_urls(rt: HostRuntime) {
    for (server, text) in SERVERS {
        assert!(&rt; is_at(rt.alloc(), *server, text));
        assert!(&rt; is_read(rt.alloc(), *server, text));
    }
}
