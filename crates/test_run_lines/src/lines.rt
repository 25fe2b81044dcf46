//! Lines are read, or are none.
use crate::table;
use line_program::fault::LineFault;
use run_lines::lines::read_run_line;
use std::alloc::Global;
use std::process::Abort;

/// Whether reading the line tells this of it.
fn is_told(alloc: Global, is_line: bool, line: &str) -> bool {
    match read_run_line(alloc, line.as_bytes()) {
        Ok(_) => is_line,
        Err(LineFault::Bad) => !is_line,
        Err(LineFault::Memory) => false,
    }
}

/// Each of the texts is told so.
fn are_told(rt: &impl Abort, alloc: Global, is_line: bool, lines: &[&str]) {
    for line in lines {
        let told = is_told(alloc, is_line, *line);
        assert!(rt; told, "{line}");
    }
}

#[test]
fn tops_are_told(rt: HostRuntime) {
    are_told(&rt, rt.alloc(), true, table::TOPS);
}

#[test]
fn other_tops_are_told(rt: HostRuntime) {
    are_told(&rt, rt.alloc(), false, table::NO_TOPS);
}

#[test]
fn entries_are_told(rt: HostRuntime) {
    are_told(&rt, rt.alloc(), true, table::ENTRIES);
}

#[test]
fn other_entries_are_told(rt: HostRuntime) {
    are_told(&rt, rt.alloc(), false, table::NO_ENTRIES);
}

#[test]
fn cores_are_told(rt: HostRuntime) {
    are_told(&rt, rt.alloc(), true, table::CORES);
}

#[test]
fn other_cores_are_told(rt: HostRuntime) {
    are_told(&rt, rt.alloc(), false, table::NO_CORES);
}

#[test]
fn steps_are_told(rt: HostRuntime) {
    are_told(&rt, rt.alloc(), true, table::STEPS);
}

#[test]
fn other_steps_are_told(rt: HostRuntime) {
    are_told(&rt, rt.alloc(), false, table::NO_STEPS);
}

#[test]
fn calls_are_told(rt: HostRuntime) {
    are_told(&rt, rt.alloc(), true, table::CALLS);
}

#[test]
fn other_calls_are_told(rt: HostRuntime) {
    are_told(&rt, rt.alloc(), false, table::NO_CALLS);
}

#[test]
fn rows_are_told(rt: HostRuntime) {
    are_told(&rt, rt.alloc(), true, table::ROWS);
}

#[test]
fn other_rows_are_told(rt: HostRuntime) {
    are_told(&rt, rt.alloc(), false, table::NO_ROWS);
}

#[test]
fn stores_are_told(rt: HostRuntime) {
    are_told(&rt, rt.alloc(), true, table::STORES);
}

#[test]
fn other_stores_are_told(rt: HostRuntime) {
    are_told(&rt, rt.alloc(), false, table::NO_STORES);
}
