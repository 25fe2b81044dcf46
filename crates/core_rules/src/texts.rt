//! Why no job was allocated, in words, and whether a job may begin in a state.
ghost use Rattle.std.specs.Prelude.{◌≡◌, IfOk};
ghost use Rattle.core_rules.specs.Rule.{is_initial};
ghost use Rattle.core_rules.specs.Texts.{no_room_text, dropped_text};

use dist_types::fault::Memory;
use dist_types::ids::JobId;
use dist_types::results::JobState;
use dist_types::text::Text;
use std::alloc::Global;

/// Whether a job may be committed in that state: it is Pending or Ready.
pub fn is_initial(state: JobState) -> bool
    ensures { result ≡ is_initial state }
{
    match state {
        JobState::Pending => true,
        JobState::Ready => true,
        JobState::Started => false,
        JobState::Complete => false,
    }
}

/// No server has room, of so many that stand. Refused for want of memory alone.
pub fn no_room_text(alloc: Global, standing: u64) -> Result<Text, Memory>
    ensures text { IfOk result (λ text. text ≡ no_room_text standing) }
{
    let text = format!(in alloc; "Insufficient capacity across {standing} available servers")?;
    Ok(Text::new(text))
}

/// The job's reservation ended before its server answered. Refused for want of memory alone.
pub fn dropped_text(alloc: Global, job: JobId) -> Result<Text, Memory>
    ensures text { IfOk result (λ text. text ≡ dropped_text job) }
{
    let text = format!(in alloc;
        "Job {job} assignment was cleaned up before allocation completed"
    )?;
    Ok(Text::new(text))
}
