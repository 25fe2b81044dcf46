//! What is done in the storm, by its place.
ghost use Rattle.std.specs.Prelude.{◌≡◌, ◌<◌, ◌^◌};
ghost use Rattle.farm_storm.specs.Places.{turn, deed_in_round, deed_at};

/// How many events the heartbeats of the build servers are.
const NUM_BEAT_EVENTS: u64 = 24;

/// How many events a round is.
const NUM_ROUND_EVENTS: u64 = 201;

/// How many jobs a round has.
pub const NUM_ROUND_JOBS: u64 = 16;

/// What is done as one event.
#[derive(Clone, Copy, Debug, PartialEq, Eq)]
pub enum Deed {
    /// The build server of that number sends its heartbeat.
    Beat(u64),
    /// A client asks for a job with the archive of that round.
    Alloc(u64),
    /// A client brings the archive to the server of that job.
    Submit(u64),
    /// A client asks the server of that job to run it.
    Run(u64),
    /// Somebody asks for the status.
    Status,
    /// The call of the event before is delivered.
    Deliver,
    /// The delivery before comes back.
    Return,
}

/// What is begun, and then by turns a delivery and its return.
fn turn(deed: Deed, place: u64) -> Deed
    ensures { result ≡ turn deed place }
{
    if place == 0 {
        deed
    } else if place % 2 == 1 {
        Deed::Deliver
    } else {
        Deed::Return
    }
}

/// What is done at a place of a round.
#[tactic(auto, unfolding(crate::specs::Places::deed_in_round))]
fn deed_in_round(round: u64, place: u64) -> Deed
    requires { round < 2 ^ 59 }
    ensures { result ≡ deed_in_round round place }
{
    if place < 48 {
        turn(Deed::Alloc(round), place % 3)
    } else if place < 96 {
        let job = NUM_ROUND_JOBS * round + (place - 48) / 3;
        turn(Deed::Submit(job), place % 3)
    } else if place < 176 {
        let job = NUM_ROUND_JOBS * round + (place - 96) / 5;
        turn(Deed::Run(job), (place - 96) % 5)
    } else if place < 200 {
        turn(Deed::Beat((place - 176) / 3), (place - 176) % 3)
    } else {
        Deed::Status
    }
}

/// What is done at a place of the storm.
#[tactic(auto, unfolding(crate::specs::Places::deed_at))]
pub fn deed_at(place: u64) -> Deed
    ensures { result ≡ deed_at place }
{
    if place < NUM_BEAT_EVENTS {
        return turn(Deed::Beat(place / 3), place % 3);
    }
    let behind = place - NUM_BEAT_EVENTS;
    deed_in_round(behind / NUM_ROUND_EVENTS, behind % NUM_ROUND_EVENTS)
}
