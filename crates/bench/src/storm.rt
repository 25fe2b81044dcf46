//! `storm COUNT`: it writes the summary of the storm of so many events.

use farm_storm::storm_text;
use std::io;
use std::process::ExitCode;

fn asked(words: &[String]) -> Option<u64> {
    words.get(2)?.as_str().parse::<u64>().ok()
}

/// Makes the storm that the words ask for.
pub(crate) fn timed(rt: &HostRuntime, words: &[String]) -> io::Result<ExitCode> {
    let Some(count) = asked(words) else {
        eprintln!(rt; "bench: storm COUNT")?;
        return Ok(ExitCode::from(2));
    };
    match storm_text(rt.alloc(), count) {
        Ok(text) => {
            print!(rt; "{text}")?;
            Ok(ExitCode::from(0))
        }
        Err(_) => {
            eprintln!(rt; "bench: out of memory")?;
            Ok(ExitCode::from(1))
        }
    }
}
