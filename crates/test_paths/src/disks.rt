//! Paths as they are sent and as they are read again.
use path_pkg::unix;
use path_pkg::windows::PathTransformer;
use std::process::Abort;
use std::test::Fail;

fn sends(rt: &impl Abort, t: &mut PathTransformer, path: &str, text: &str) -> Result<(), Fail> {
    let sent = t.as_dist(path.as_bytes())?;
    assert_eq!(rt; sent.ok_or("not sent")?.as_str(), text, "{path}");
    Ok(())
}

fn gives(rt: &impl Abort, t: &PathTransformer, text: &str, path: &str) -> Result<(), Fail> {
    let local = t.to_local(text)?;
    assert_eq!(rt; local.ok_or("not mapped")?.as_str(), path, "{text}");
    Ok(())
}

/// The disks, as `DISK=TEXT` with a comma between each two.
fn has_disks(rt: &impl Abort, t: &PathTransformer, wanted: &str) -> Result<(), Fail> {
    let mut rest = wanted;
    for (disk, text) in &t.disk_mappings()? {
        rest = rest.strip_prefix(disk.as_str()).ok_or("another disk")?;
        rest = rest.strip_prefix("=").ok_or("no sign")?;
        rest = rest.strip_prefix(text.as_str()).ok_or("another text")?;
        rest = rest.strip_prefix(",").unwrap_or(rest);
    }
    assert_eq!(rt; rest, "");
    Ok(())
}

#[test]
fn plain_and_verbatim_disks(rt: HostRuntime) -> Result<(), Fail> {
    let mut t = PathTransformer::new(rt.alloc());
    sends(&rt, &mut t, "X:/other.c", "/prefix/disk-X/other.c")?;
    sends(
        &rt,
        &mut t,
        r"\\?\X:\out\other.o",
        "/prefix/disk-X/out/other.o",
    )?;
    has_disks(&rt, &t, r"X:=/prefix/disk-X,\\?\X:=/prefix/disk-X")?;
    gives(&rt, &t, "/prefix/disk-X/out/other.o", r"\\?\X:\out\other.o")?;
    gives(&rt, &t, "/prefix/disk-X/other.c", "X:/other.c")?;
    assert!(rt; t.as_dist(b"C:a")?.is_none());
    assert!(rt; t.as_dist(b"\\a")?.is_none());
    assert!(rt; t.as_dist(&[0xff])?.is_none());
    Ok(())
}

#[test]
fn disks_by_letter(rt: HostRuntime) -> Result<(), Fail> {
    let mut t = PathTransformer::new(rt.alloc());
    sends(&rt, &mut t, "X:/other.c", "/prefix/disk-X/other.c")?;
    sends(&rt, &mut t, "C:/a", "/prefix/disk-C/a")?;
    sends(&rt, &mut t, r"C:\a\b.c", "/prefix/disk-C/a/b.c")?;
    has_disks(&rt, &t, "C:=/prefix/disk-C,X:=/prefix/disk-X")?;
    gives(&rt, &t, "/prefix/disk-C/a", "C:/a")?;
    gives(&rt, &t, "/prefix/disk-C/a/b.c", r"C:\a\b.c")?;
    gives(&rt, &t, "/prefix/disk-X/other.c", "X:/other.c")
}

#[test]
fn the_last_path_of_a_text(rt: HostRuntime) -> Result<(), Fail> {
    let mut t = PathTransformer::new(rt.alloc());
    sends(&rt, &mut t, "C:/a", "/prefix/disk-C/a")?;
    sends(&rt, &mut t, r"C:\a", "/prefix/disk-C/a")?;
    gives(&rt, &t, "/prefix/disk-C/a", r"C:\a")?;
    has_disks(&rt, &t, "C:=/prefix/disk-C")?;
    assert!(rt; t.as_dist_abs(b"\\\\?\\C:\\a")?.is_some());
    has_disks(&rt, &t, r"\\?\C:=/prefix/disk-C")
}

#[test]
fn relative_paths_of_windows(rt: HostRuntime) -> Result<(), Fail> {
    let mut t = PathTransformer::new(rt.alloc());
    sends(&rt, &mut t, "a/b", "a/b")?;
    sends(&rt, &mut t, r"a\b", "a/b")?;
    gives(&rt, &t, "a/b", r"a\b")?;
    has_disks(&rt, &t, "")?;
    assert!(rt; t.as_dist_abs(b"a/c")?.is_none());
    assert!(rt; t.to_local("a/c")?.is_none());
    Ok(())
}

#[test]
fn unix_paths_as_they_are(rt: HostRuntime) -> Result<(), Fail> {
    let mut t = unix::PathTransformer::new(rt.alloc());
    assert_eq!(rt;
        t.as_dist_abs(b"/a//b")?.ok_or("absolute")?.as_str(),
        "/a//b"
    );
    assert_eq!(rt; t.as_dist(b"a/b")?.ok_or("relative")?.as_str(), "a/b");
    assert!(rt; t.as_dist_abs(b"a/b")?.is_none());
    assert!(rt; t.as_dist(&[0x2f, 0xff])?.is_none());
    assert_eq!(rt; t.to_local("/x")?.ok_or("local")?.as_str(), "/x");
    assert_eq!(rt; t.disk_mappings()?.len(), 0);
    Ok(())
}
