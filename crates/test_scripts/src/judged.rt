//! What reading a script tells.
use farm_script::script::read_script;
use line_program::fault::FarmFault;
use std::alloc::Global;
use std::process::Abort;
use std::test::Fail;

/// The script is read.
pub const READ: u8 = 0;

/// Its first faulty line is a bad line.
pub const BAD: u8 = 1;

/// Its first faulty line has an address that stands before.
pub const DUPLICATE: u8 = 2;

/// Its first faulty line has an address with a scope.
pub const SCOPED: u8 = 3;

/// Something else.
const OTHER: u8 = 4;

/// What is told of a script, and the number of the line, or 0.
pub fn told(alloc: Global, script: &[u8]) -> (u8, u64) {
    match read_script(alloc, script) {
        Ok(_) => (READ, 0),
        Err(FarmFault::BadLine(n)) => (BAD, n),
        Err(FarmFault::DuplicateAddress(n)) => (DUPLICATE, n),
        Err(FarmFault::ScopedAddress(n)) => (SCOPED, n),
        Err(_) => (OTHER, 0),
    }
}

/// What is told, the number of the line, the script, and what it shows.
pub type Row = (u8, u64, &'static str, &'static str);

/// That is told of the script.
pub fn judge(rt: &impl Abort, alloc: Global, script: &[u8], cause: u8, line: u64, why: &str) {
    let (told_cause, told_line) = told(alloc, script);
    assert_eq!(rt; told_cause, cause, "{why}");
    assert_eq!(rt; told_line, line, "{why}");
}

/// The same of the lines behind a scheduler line.
pub fn judge_behind(rt: &impl Abort, alloc: Global, row: &Row) -> Result<(), Fail> {
    let (cause, line, lines, why) = *row;
    let script = format!(in alloc;
        "scheduler 127.0.0.1:10600 base 4096 count 0 client c1 plain s1\n{lines}\n"
    )?;
    judge(rt, alloc, script.as_bytes(), cause, line, why);
    Ok(())
}
