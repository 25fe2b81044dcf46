//! The lines of what came so far, in two small values.
ghost use Rattle.std.specs.Prelude.{◌≡◌};
ghost use Rattle.http_head.specs.Stop.{Lines, one_more, ends_head, no_lines};
ghost use Rattle.http_connections.specs.Scan.{Sees, is_more as more_than_cr, grown as line_grown};

/// What stands behind the last LF.
#[derive(Clone, Copy, Debug, PartialEq, Eq)]
pub(crate) enum Line {
    /// Nothing.
    Nothing,
    /// One CR.
    Cr,
    /// Anything else.
    More,
}

/// What stands behind the last LF, and whether the line that it ended is one that is not empty.
#[derive(Clone, Copy, Debug, PartialEq, Eq)]
pub(crate) struct Scan {
    /// What stands behind the last LF.
    pub line: Line,
    /// Whether there is a last line, and it is not empty.
    pub full: bool,
}

/// Nothing came so far.
pub(crate) fn start() -> Scan
    ensures { Sees result no_lines }
{
    Scan {
        line: Line::Nothing,
        full: false,
    }
}

fn is_more(line: Line) -> bool
    ensures { result ≡ more_than_cr line }
{
    match line {
        Line::Nothing => false,
        Line::Cr => false,
        Line::More => true,
    }
}

fn grown(line: Line, byte: u8) -> Line
    ensures { result ≡ line_grown line byte }
{
    match line {
        Line::Nothing => { if byte == 13 { Line::Cr } else { Line::More } }
        Line::Cr => Line::More,
        Line::More => Line::More,
    }
}

/// What came so far, with one byte more.
pub(crate) fn step(scan: Scan, byte: u8) -> Scan
    ensures { (ls : Lines) → Sees scan ls → Sees result (one_more ls byte) }
{
    if byte == 10 {
        return Scan {
            line: Line::Nothing,
            full: is_more(scan.line),
        };
    }
    Scan {
        line: grown(scan.line, byte),
        full: scan.full,
    }
}

/// Whether one byte more ends a head.
pub(crate) fn ends(scan: Scan, byte: u8) -> bool
    ensures { (ls : Lines) → Sees scan ls → result ≡ ends_head (one_more ls byte) }
{
    if byte != 10 {
        return false;
    }
    if is_more(scan.line) {
        return false;
    }
    scan.full
}
