//! The outputs of a job, and the files that they go to.
use crate::files::write;
use dist_types::output::OutputData;
use dist_types::text::Text;
use lru_disk_cache::is_key;
use std::alloc::Global;
use std::rt::Files;
use submit_words::job::{Job, Pair};
use submit_words::refusal::Refusal;

/// The names of the outputs that are asked for: each is a plain relative path.
pub(crate) fn names(alloc: Global, job: &Job<'_>) -> Result<Vec<String>, Refusal> {
    let mut names = Vec::new(alloc);
    for output in &job.outputs {
        let name = String::from_str(alloc, output.name)?;
        if !is_key(output.name) {
            return Err(Refusal::BadOutput(name));
        }
        names.push(name)?;
    }
    Ok(names)
}

/// Writes an output to the file that it goes to.
fn write_output<R: Files + AllocGlobal>(
    rt: &R,
    alloc: Global,
    outputs: &[Pair<'_>],
    name: &str,
    data: &OutputData,
) -> Result<(), Refusal> {
    let Some(output) = outputs.iter().find(|o| o.name == name) else {
        let name = String::from_str(alloc, name)?;
        return Err(Refusal::UnaskedOutput(name));
    };
    let part = format!(in alloc; "{}.part", output.text)?;
    if write(rt, output.text, part.as_str(), data.0.get()) {
        return Ok(());
    }
    let file = String::from_str(alloc, output.text)?;
    Err(Refusal::OutputUnwritten(file))
}

/// Writes the outputs that came, which are those that were asked for and no others.
pub(crate) fn write_all<R: Files + AllocGlobal>(
    rt: &R,
    alloc: Global,
    job: &Job<'_>,
    came: &[(Text, OutputData)],
) -> Result<(), Refusal> {
    let mut first = Ok(());
    for (name, data) in came {
        let written = write_output(rt, alloc, &job.outputs, name.get(), data);
        if first.is_ok() {
            first = written;
        }
    }
    first?;
    for output in &job.outputs {
        if !came.iter().any(|(name, _data)| name.get() == output.name) {
            let name = String::from_str(alloc, output.name)?;
            return Err(Refusal::MissingOutput(name));
        }
    }
    Ok(())
}
