//! The stations of a farm's build servers.
ghost use Rattle.std.specs.Prelude.{◌≡◌, ◌≢◌, ◌≤◌, [], true, false, not, codes, is_some, is_none, ◌&&◌, ◌||◌};
ghost use Rattle.std.specs.Prelude.{drop, cond, ◌<◌, ◌^◌};
ghost use Rattle.std.specs.Prelude.{IfOk, IfErr, OnOk, OnErr, MatchOption, Some, None, Ok, Err};
ghost use Rattle.std.specs.Option.{option_map};
ghost use Rattle.toolchain_cache.specs.Archives.{opened_archives, IsInStep};
ghost use Rattle.listed_files.specs.Entries.{total};
ghost use Rattle.folders.specs.Changed.{ButUnder};
ghost use Rattle.folders.specs.Files.{front};
ghost use Rattle.folders.specs.Held.{Holds, Became};
ghost use Rattle.lru_disk_cache.specs.Store.{OpenFails};
ghost use Rattle.build_server.specs.Books.{held_for, placed};
ghost use Rattle.build_server.specs.Builds.{builder_of, Builds, is_due, ran_of, built_of};
ghost use Rattle.build_server.specs.Rules.{assign_verdict, Submits, Begins};
ghost use Rattle.dist_types.specs.Cause.{counted};
ghost use Rattle.dist_token.specs.Verdict.{job_verdict};
ghost use Rattle.http_routes.specs.ServerRoute.{IsServerAsked};
ghost use Rattle.http_head.specs.declared.error.HttpError.TheVariants as http;
ghost use Rattle.dist_types.specs.declared.results.AssignJobResult.{AssignJobResult as Answer};
ghost use Rattle.farm_entries.specs.Passage.{AsksOnce, IsAsked, Leaves};
ghost use Rattle.farm_stations.specs.Hands.{handed_in, hand_by, HasLeft, IsCalled, IsGiven};
ghost use Rattle.farm_stations.specs.Hands.{IsHandOf, KeepsWord};
ghost use Rattle.farm_stations.specs.Left.{with_left};
ghost use Rattle.farm_stations.specs.Post.{shelf, closed_over, outside_of, is_io, IsReopened, IsTelling};
ghost use Rattle.farm_entries.specs.Sites.{site_server};
ghost use Rattle.farm_entries.specs.Passage.{IsBegun};
ghost use Rattle.farm_entries.specs.Reliable.{reopened};
ghost use Rattle.farm_entries.specs.Served.{books_of};
ghost use Rattle.farm_entries.specs.Servers.{server_begun, stepped};
ghost use Rattle.farm_stations.specs.Stations.{now_of, begun_again, IsWell, BuildsBy};
ghost use Rattle.farm_entries.specs.Weather.{Stores, Works, Opens, weather_of, failed_after_submit};
ghost use Rattle.farm_entries.specs.Weather.{failed_after_run, order_of, OnlyClears};
ghost use Rattle.farm_entries.specs.declared.entry.StepKind.TheVariants as kinds;
ghost use Rattle.line_program.specs.declared.fault.FarmFault.TheVariants as fault;
ghost use Rattle.build_server.specs.declared.fault.ServerFault.TheVariants as server_fault;

use crate::failed::{broke, broke_in, is_io};
use crate::job_tokens::JobTokens;
use crate::own_builder::OwnBuilder;
use build_server::Held;
use build_server::fault::ServerFault;
use build_server::run::{Ran, RunDone, RunHeld};
use build_server::state::ServerState;
use build_server::submit::Submitted;
use dist_types::builder::BuilderIncoming;
use dist_types::ids::{JobId, ServerNonce};
use dist_types::outgoing::CallFault;
use dist_types::results::{AssignJobResult, UpdateJobStateResult};
use dist_types::roles::JobAuthorizer;
use dist_types::text::Items;
use dist_types::toolchain::Toolchain;
use dist_wire::run::RunJobHttpRequest;
use farm_entries::site::SiteServer;
use farm_script::setup::SetupServer;
use folders::folder::Folder;
use http_routes::error::HttpError;
use http_routes::server_route::ServerAsked;
use line_program::fault::FarmFault;
use lru_disk_cache::Error;
use std::alloc::{AllocError, Global};
use std::marker::Model;
use toolchain_cache::laws::reopening_gives_the_archives;
use toolchain_cache::{Archives, TcCache};

/// A build server of a farm: its life, what it keeps over its folder, and its builder.
#[derive(Drop)]
pub struct Station<F: Folder + Drop, B: BuilderIncoming + Drop> {
    /// How often it was restarted.
    life: u64,
    nonce: ServerNonce,
    /// Under the key of its life.
    authorizer: JobTokens,
    /// What it keeps, where it runs.
    state: Option<ServerState<F>>,
    /// Its folder, where its last opening failed.
    closed: Option<F>,
    /// Whether its folder failed since its last opening began.
    failed: bool,
    /// How many builds its builder was asked for.
    builds: u64,
    /// A builder that was handed in; none where the farm made the builder, with a folder in memory.
    builder: Option<B>,
    /// The builder that the farm made, if none was handed in.
    own: Option<OwnBuilder<B>>,
}

impl<F: Folder + Drop, B: BuilderIncoming + Drop> Model for Station<F, B> {
    ghost use Rattle.std.specs.Prelude.{is_some, ◌||◌, true};
    ghost use Rattle.std.specs.Option.{option_map};
    ghost use Rattle.build_server.specs.Builds.{builder_of};
    ghost use Rattle.std.specs.Prelude.{◌≡◌, None};
    ghost use Rattle.farm_stations.specs.Hands.{hand_by};
    ghost use Rattle.farm_stations.specs.Post.{Post, shelf, IsTelling};

    ghost Value = { Post };

    ghost view = { λ st. record {
      life = st.life;
      nonce = st.nonce;
      authorizer = st.authorizer;
      running = is_some st.state;
      state = shelf st.state (option_map F.held st.closed);
      failed = st.failed;
      builds = st.builds;
      builder = option_map (builder_of B.built B.refusals) st.builder;
      hand = hand_by (option_map (builder_of B.built B.refusals) st.builder) st.own;
    } };

    // Where the farm made the builder, its folder tells its files; and it has its folder and its builder.
    ghost invariant = { λ st. (st.builder ≡ None → IsTelling F.held)
        × ((is_some st.state || is_some st.closed) ≡ true)
        × ((is_some st.builder || is_some st.own) ≡ true) };
}

/// A server that holds nothing, over what its folder has. Where that fails the folder is handed back.
fn open<F: Folder + Drop>(
    alloc: Global,
    folder: F,
    capacity: u64,
) -> Result<ServerState<F>, (Error, F)>
    ensures held { IfOk result (λ s. s.held ≡ []) }
    ensures archives { IfOk result (λ s. Holds (F.held folder)
        (λ files. s.archives ≡ opened_archives (codes "tc") capacity files)) }
    ensures at { IfOk result (λ s. (s.capacity ≡ capacity) × (s.path ≡ codes "tc")) }
    ensures step { IfOk result (λ s. IsInStep s.path s.folder s.archives) }
    ensures steady { IfOk result (λ s. s.folder.faults ≡ (F.held folder).faults) }
    ensures clears { IfOk result (λ s. OnlyClears (F.held folder) s.folder) }
    ensures fails { IfErr result (λ e. OpenFails e.0 (F.held folder) (F.held e.1)) }
    ensures left { IfErr result (λ e. OnlyClears (F.held folder) (F.held e.1)) }
{
    match TcCache::new(alloc, folder, "tc", capacity) {
        Ok(cache) => Ok(ServerState::new(alloc, cache)),
        Err(refused) => Err(refused),
    }
}

/// That the archives of a cache fit its capacity.
fn fits<F: Folder + Drop>(cache: &TcCache<F>)
    ensures { total cache.now.archives ≤ cache.now.capacity }
{
    match cache.archives().next() {
        None => {}
        Some((tc, _)) => {
            let _ = cache.contains_toolchain(&tc);
        }
    }
}

/// The same over the folder of a server that ran. Where its archives were those of the files, they are so
/// again.
fn open_again<F: Folder + Drop>(
    alloc: Global,
    state: ServerState<F>,
    capacity: u64,
) -> Result<ServerState<F>, (Error, F)>
    requires at { (state.capacity ≡ capacity) × (state.path ≡ codes "tc") }
    ensures opened { IfOk result (IsReopened F.held true capacity state) }
    ensures fails { IfErr result (λ e. OpenFails e.0 state.folder (F.held e.1)) }
    ensures left { IfErr result (λ e. OnlyClears state.folder (F.held e.1)) }
{
    let cache = state.into_cache();
    fits(&cache);
    reopening_gives_the_archives();
    open(alloc, cache.into_folder(), capacity)
}

/// The same over the folder of a server that was shut.
fn open_shut<F: Folder + Drop>(
    alloc: Global,
    folder: F,
    capacity: u64,
) -> Result<ServerState<F>, (Error, F)>
    ensures opened { IfOk result (IsReopened F.held false capacity (closed_over (Some (F.held folder)))) }
    ensures fails { IfErr result (λ e. OpenFails e.0 (F.held folder) (F.held e.1)) }
    ensures left { IfErr result (λ e. OnlyClears (F.held folder) (F.held e.1)) }
{
    match open(alloc, folder, capacity) {
        Ok(state) => Ok(state),
        Err(refused) => Err(refused),
    }
}

/// The same over the folder of a server, whether it ran or was shut.
fn open_over<F: Folder + Drop>(
    alloc: Global,
    state: Option<ServerState<F>>,
    closed: Option<F>,
    capacity: u64,
) -> Result<ServerState<F>, (Error, F)>
    requires there { (is_some state || is_some closed) ≡ true }
    requires at { is_some state ≡ true → ((shelf state (option_map F.held closed)).capacity ≡ capacity)
        × ((shelf state (option_map F.held closed)).path ≡ codes "tc") }
    ensures opened { IfOk result
        (IsReopened F.held (is_some state) capacity (shelf state (option_map F.held closed))) }
    ensures fails { IfErr result (λ e. OpenFails e.0 (shelf state (option_map F.held closed)).folder
        (F.held e.1)) }
    ensures left { IfErr result (λ e. OnlyClears (shelf state (option_map F.held closed)).folder
        (F.held e.1)) }
{
    match state {
        Some(state) => match open_again(alloc, state, capacity) {
            Ok(state) => Ok(state),
            Err(refused) => Err(refused),
        },
        None => match closed {
            Some(folder) => match open_shut(alloc, folder, capacity) {
                Ok(state) => Ok(state),
                Err(refused) => Err(refused),
            },
            None => unreachable!(),
        },
    }
}

/// The archives of a server, least recent first. Refused for want of memory alone.
fn list_of<F: Folder + Drop>(
    alloc: Global,
    state: &ServerState<F>,
) -> Result<Items<(Toolchain, u64)>, AllocError>
    ensures { IfOk result (λ list. list ≡ state.now.archives) }
{
    let list = state.archives().collect(alloc)?;
    Ok(Items::new(list))
}

/// A build of what was taken out.
fn build_with<B: BuilderIncoming>(
    builder: &mut B,
    held: RunHeld,
    run: &RunJobHttpRequest,
    inputs: &[u8],
) -> Result<RunDone, FarmFault>
    ensures builds { IfOk result (λ done. Builds held (order_of run.now inputs.now)
        (builder_of B.built B.refusals builder.old) (builder_of B.built B.refusals builder.new) (Ok done)) }
    ensures asked { IsAsked (builder_of B.built B.refusals builder.old)
        (builder_of B.built B.refusals builder.new) }
    ensures answers { B.answers builder.new ≡ B.answers builder.old }
    ensures err { IfErr result (λ e. e ≡ fault.Memory) }
{
    match held.build(builder, &run.command, run.outputs.get(), inputs) {
        Ok(done) => Ok(done),
        Err((held, _)) => {
            held.give_up();
            Err(FarmFault::Memory)
        }
    }
}

/// The same by a builder that the farm made.
fn build_own<B: BuilderIncoming + Drop>(
    own: &mut OwnBuilder<B>,
    held: RunHeld,
    run: &RunJobHttpRequest,
    inputs: &[u8],
) -> Result<RunDone, FarmFault>
    ensures builds { IfOk result
        (λ done. Builds held (order_of run.now inputs.now) own.old.told own.new.told (Ok done)) }
    ensures called { IsCalled own.old own.new }
    ensures word { KeepsWord own.new }
    ensures err { IfErr result (λ e. e ≡ fault.Memory) }
{
    let done = build_with(own, held, run, inputs);
    own.keeps_word();
    done
}

/// That a number fits its type.
fn has_count(count: usize)
    ensures { count < 2 ^ 64 }
{
    let _count = count;
}

/// A build of what was taken out, by a builder that was handed in or one of the farm's own.
fn build<B: BuilderIncoming + Drop>(
    server: &SiteServer,
    builds: u64,
    builder: &mut Option<B>,
    own: &mut Option<OwnBuilder<B>>,
    held: RunHeld,
    run: &RunJobHttpRequest,
    inputs: &[u8],
) -> Result<RunDone, FarmFault>
    requires there { (is_some builder.old || is_some own.old) ≡ true }
    requires hand { IsHandOf (drop builds server.now.builder)
        (option_map (builder_of B.built B.refusals) builder.old)
        (hand_by (option_map (builder_of B.built B.refusals) builder.old) own.old) }
    ensures goes { IfOk result (λ done. BuildsBy server.now builds
        (option_map (builder_of B.built B.refusals) builder.old)
        (option_map (builder_of B.built B.refusals) builder.new) held run.now inputs.now done) }
    ensures left { OnOk result (IsHandOf (drop (cond (is_due held) (counted builds) builds) server.now.builder)
        (option_map (builder_of B.built B.refusals) builder.new)
        (hand_by (option_map (builder_of B.built B.refusals) builder.new) own.new)) }
    ensures kept { is_some builder.new ≡ is_some builder.old }
    ensures owned { is_some own.new ≡ is_some own.old }
    ensures asked { AsksOnce (option_map (builder_of B.built B.refusals) builder.old)
        (option_map (builder_of B.built B.refusals) builder.new) }
    ensures called { IsCalled (hand_by (option_map (builder_of B.built B.refusals) builder.old) own.old)
        (hand_by (option_map (builder_of B.built B.refusals) builder.new) own.new) }
    ensures err { IfErr result (λ e. e ≡ fault.Memory) }
{
    let lines = server.builder.get().len();
    has_count(lines);
    match builder {
        None => match own {
            None => unreachable!(),
            Some(own) => {
                let done = build_own(own, held, run, inputs)?;
                Ok(done)
            }
        },
        Some(builder) => {
            let done = build_with(builder, held, run, inputs)?;
            Ok(done)
        }
    }
}

/// How many builds a builder was asked for, with one that was due or none.
fn asked_for(builds: u64, due: bool) -> u64
    ensures { result ≡ cond due (counted builds) builds }
{
    if due {
        builds.saturating_add(1)
    } else {
        builds
    }
}

/// Submits an archive, after Ready was accepted: as its state does, at its place in the folder.
fn take_in<F: Folder>(
    state: &mut ServerState<F>,
    job: JobId,
    archive: &[u8],
    accepted: UpdateJobStateResult,
) -> Result<Submitted, ServerFault>
    requires path { state.old.path ≡ codes "tc" }
    ensures submits { Submits job (Ok accepted) archive.now state.old state.new result }
    ensures others { Became (ButUnder (front (codes "tc"))) state.old.folder.files state.new.folder.files }
    ensures later { state.old.folder.faults ≤ state.new.folder.faults }
{
    let submit = state.begin_submit(job);
    state.end_submit(submit, Ok(accepted), archive)
}

/// Takes a job out, after Started was accepted: as its state does, at its place in the folder.
fn take_out<F: Folder>(
    state: &mut ServerState<F>,
    job: JobId,
    accepted: UpdateJobStateResult,
) -> Result<RunHeld, ServerFault>
    requires path { state.old.path ≡ codes "tc" }
    ensures begins { Begins job (Ok accepted) state.old state.new result }
    ensures others { Became (ButUnder (front (codes "tc"))) state.old.folder.files state.new.folder.files }
    ensures later { state.old.folder.faults ≤ state.new.folder.faults }
{
    state.begin_run(job, Ok(accepted))
}

/// The builder that a station asks.
fn hand<B: BuilderIncoming + Drop>(builder: Option<B>, own: Option<OwnBuilder<B>>) -> B
    requires there { (is_some builder || is_some own) ≡ true }
    ensures { IsGiven (builder_of B.built B.refusals) B.answers
        (hand_by (option_map (builder_of B.built B.refusals) builder) own) result }
{
    match builder {
        Some(builder) => builder,
        None => match own {
            Some(own) => own.into_builder(),
            None => unreachable!(),
        },
    }
}

impl<F: Folder + Drop, B: BuilderIncoming + Drop> Station<F, B> {
    /// A server as it was set up, over that folder, with a builder that was handed in, and what its opening
    /// found. Refused for want of memory alone.
    pub fn begun(
        alloc: Global,
        server: &SetupServer,
        folder: F,
        builder: B,
    ) -> Result<(Self, Option<Items<(Toolchain, u64)>>), FarmFault>
        ensures now { IfOk result (λ p. now_of (site_server p.1 server.now) p.0
            ≡ server_begun (site_server p.1 server.now)) }
        ensures well { IfOk result (λ p. IsWell (site_server p.1 server.now) p.0) }
        ensures begun { IfOk result (λ p. IsBegun server.now.capacity
            (Some (builder_of B.built B.refusals builder)) (F.held folder) p.1 (outside_of p.0)) }
        ensures hand { IfOk result
            (λ p. p.0.hand ≡ handed_in (builder_of B.built B.refusals builder)) }
        ensures err { IfErr result (λ e. e ≡ fault.Memory) }
    {
        match Station::begun_with(alloc, server, folder, Some(builder), None) {
            Ok(begun) => Ok(begun),
            Err(fault) => Err(fault),
        }
    }

    /// The same over a folder of the farm's own that tells its files, with a builder that the farm made for the
    /// lines of the setup.
    pub fn begun_own(
        alloc: Global,
        server: &SetupServer,
        folder: F,
        own: OwnBuilder<B>,
    ) -> Result<(Self, Option<Items<(Toolchain, u64)>>), FarmFault>
        requires tells { IsTelling F.held }
        requires left { HasLeft server.now.builder own }
        ensures now { IfOk result (λ p. now_of (site_server p.1 server.now) p.0
            ≡ server_begun (site_server p.1 server.now)) }
        ensures well { IfOk result (λ p. IsWell (site_server p.1 server.now) p.0) }
        ensures begun { IfOk result
            (λ p. IsBegun server.now.capacity None (F.held folder) p.1 (outside_of p.0)) }
        ensures hand { IfOk result (λ p. p.0.hand ≡ own) }
        ensures err { IfErr result (λ e. e ≡ fault.Memory) }
    {
        match Station::begun_with(alloc, server, folder, None, Some(own)) {
            Ok(begun) => Ok(begun),
            Err(fault) => Err(fault),
        }
    }

    // A server as it was set up, with one of the two builders.
    fn begun_with(
        alloc: Global,
        server: &SetupServer,
        folder: F,
        builder: Option<B>,
        own: Option<OwnBuilder<B>>,
    ) -> Result<(Self, Option<Items<(Toolchain, u64)>>), FarmFault>
        requires tells { option_map (builder_of B.built B.refusals) builder ≡ None → IsTelling F.held }
        requires there { (is_some builder || is_some own) ≡ true }
        requires hand { IsHandOf server.now.builder (option_map (builder_of B.built B.refusals) builder)
            (hand_by (option_map (builder_of B.built B.refusals) builder) own) }
        ensures now { IfOk result (λ p. now_of (site_server p.1 server.now) p.0
            ≡ server_begun (site_server p.1 server.now)) }
        ensures well { IfOk result (λ p. IsWell (site_server p.1 server.now) p.0) }
        ensures begun { IfOk result (λ p. IsBegun server.now.capacity
            (option_map (builder_of B.built B.refusals) builder) (F.held folder) p.1 (outside_of p.0)) }
        ensures hand { IfOk result
            (λ p. p.0.hand ≡ hand_by (option_map (builder_of B.built B.refusals) builder) own) }
        ensures err { IfErr result (λ e. e ≡ fault.Memory) }
    {
        let authorizer = JobTokens::of_key(Vec::from_slice(alloc, server.key.get())?);
        match open(alloc, folder, server.capacity) {
            Ok(state) => {
                let found = list_of(alloc, &state)?;
                let station = Station {
                    life: 0,
                    nonce: server.nonce,
                    authorizer,
                    state: Some(state),
                    closed: None,
                    failed: false,
                    builds: 0,
                    builder,
                    own,
                };
                Ok((station, Some(found)))
            }
            Err((error, folder)) => {
                if !is_io(&error) || builder.is_none() {
                    return Err(FarmFault::Memory);
                }
                let station = Station {
                    life: 0,
                    nonce: server.nonce,
                    authorizer,
                    state: None,
                    closed: Some(folder),
                    failed: true,
                    builds: 0,
                    builder,
                    own,
                };
                Ok((station, None))
            }
        }
    }

    /// The number of its life.
    pub fn life(&self) -> u64
        ensures { result ≡ self.now.life }
    {
        self.life
    }

    /// The nonce of its life.
    pub fn nonce(&self) -> ServerNonce
        ensures { result ≡ self.now.nonce }
    {
        self.nonce
    }

    /// How many builds its builder was asked for.
    pub fn builds(&self) -> u64
        ensures { result ≡ self.now.builds }
    {
        self.builds
    }

    /// What makes and takes the tokens of its life.
    pub fn authorizer(&self) -> &JobTokens
        ensures { result.now ≡ self.now.authorizer }
    {
        &self.authorizer
    }

    /// What the bytes ask of it. What it tells stays as it was. Refused for want of memory alone.
    pub fn asked(&mut self, alloc: Global, bytes: &[u8]) -> Result<ServerAsked, HttpError>
        ensures ok { IfOk result (IsServerAsked (job_verdict self.old.authorizer) bytes.now) }
        ensures same { self.new ≡ self.old }
        ensures err { IfErr result (λ e. e ≡ http.Memory) }
    {
        self.authorizer.asked(alloc, bytes)
    }

    /// Whether it runs.
    pub fn is_running(&self) -> bool
        ensures { result ≡ self.now.running }
    {
        self.state.is_some()
    }

    // Whether it is one of the farm's own that does not run, as none is.
    fn is_shut(&self) -> bool
        ensures { result ≡ (is_none self.now.builder && not self.now.running) }
    {
        self.builder.is_none() && self.state.is_none()
    }

    /// The jobs that it holds, by rising id, where it runs.
    pub fn held(&self) -> Option<Held<'_>>
        ensures { MatchOption result (self.now.state.held ≡ []) (λ h. h ≡ self.now.state.held) }
    {
        match &self.state {
            None => None,
            Some(state) => Some(state.held()),
        }
    }

    /// Its archives, least recent first, where it runs.
    pub fn archives(&self) -> Option<Archives<'_>>
        ensures { MatchOption result (self.now.state.archives ≡ []) (λ a. a ≡ self.now.state.archives) }
    {
        match &self.state {
            None => None,
            Some(state) => Some(state.archives()),
        }
    }

    /// Its folder, and its builder, whoever made that.
    pub fn into_parts(self) -> (F, B)
        ensures folder { F.held result.0 ≡ self.state.folder }
        ensures builder { IsGiven (builder_of B.built B.refusals) B.answers self.hand result.1 }
    {
        let Station {
            life: _,
            nonce: _,
            authorizer: _,
            state,
            closed,
            failed: _,
            builds: _,
            builder,
            own,
        } = self;
        let builder = hand(builder, own);
        match state {
            Some(state) => (state.into_cache().into_folder(), builder),
            None => match closed {
                Some(folder) => (folder, builder),
                None => unreachable!(),
            },
        }
    }

    /// Assigns a job. Want of memory, and that the job is held, change nothing.
    pub fn assign(
        &mut self,
        server: &SiteServer,
        job: JobId,
        tc: Toolchain,
    ) -> Result<AssignJobResult, ServerFault>
        requires well { IsWell server.now self.old }
        ensures verdict { result ≢ Err server_fault.Memory
            → result ≡ assign_verdict (books_of (now_of server.now self.old)) job tc }
        ensures after { IfOk result (λ a. now_of server.now self.new
            ≡ stepped (Some (record {
              server = server.now.addr;
              kind = kinds.Assigned job tc (not a.need_toolchain);
            })) (now_of server.now self.old)) }
        ensures outside { outside_of self.new ≡ outside_of self.old }
        ensures hand { self.new.hand ≡ self.old.hand }
        ensures still_well { OnOk result (IsWell server.now self.new) }
        ensures same { OnErr result (self.new ≡ self.old) }
    {
        let _capacity = server.capacity;
        match &mut self.state {
            None => Err(ServerFault::Memory),
            Some(state) => state.assign(job, tc),
        }
    }

    /// Submits an archive under a job, after Ready was accepted. That a folder of the farm's own fails is
    /// told as want of memory, which no farm meets.
    #[tactic(auto, using(crate::proofs::LeftLemmas::leaves_same))]
    pub fn submit(
        &mut self,
        server: &SiteServer,
        job: JobId,
        archive: &[u8],
        accepted: UpdateJobStateResult,
    ) -> Result<Submitted, FarmFault>
        requires well { IsWell server.now self.old }
        ensures stores { IfOk result (λ o. Stores (weather_of (outside_of self.old) (outside_of self.new))
            (now_of server.now self.old) job archive.now o) }
        ensures after { IfOk result (λ o. now_of server.now self.new
            ≡ stepped (Some (record { server = server.now.addr; kind = kinds.Submitted job o }))
            (now_of server.now self.old)) }
        ensures leaves { Leaves (outside_of self.old) (outside_of self.new) }
        ensures hand { self.new.hand ≡ self.old.hand }
        ensures still_well { OnOk result (IsWell server.now self.new) }
        ensures err { IfErr result (λ e. e ≡ fault.Memory) }
    {
        let _capacity = server.capacity;
        let outcome = match &mut self.state {
            None => return Err(FarmFault::Memory),
            Some(state) => match take_in(state, job, archive, accepted) {
                Ok(outcome) => outcome,
                Err(_) => return Err(FarmFault::Memory),
            },
        };
        if !broke(&outcome) {
            return Ok(outcome);
        }
        if self.builder.is_none() {
            return Err(FarmFault::Memory);
        }
        self.failed = true;
        Ok(outcome)
    }

    /// Takes a job out and builds it, after Started was accepted. That a folder of the farm's own fails is
    /// told as want of memory, which no farm meets.
    #[tactic(auto, using(crate::proofs::LeftLemmas::leaves_same))]
    pub fn run(
        &mut self,
        server: &SiteServer,
        job: JobId,
        run: &RunJobHttpRequest,
        inputs: &[u8],
        accepted: UpdateJobStateResult,
    ) -> Result<RunDone, FarmFault>
        requires well { IsWell server.now self.old }
        ensures works { IfOk result (λ done. Works (weather_of (outside_of self.old) (outside_of self.new))
            (now_of server.now self.old) (held_for job self.old.state.held) run.now inputs.now done) }
        ensures after { IfOk result (λ done. now_of server.now self.new
            ≡ stepped (Some (record {
              server = server.now.addr;
              kind = kinds.Ran job (ran_of done) (built_of done);
            })) (now_of server.now self.old)) }
        ensures leaves { Leaves (outside_of self.old) (outside_of self.new) }
        ensures called { IsCalled self.old.hand self.new.hand }
        ensures still_well { OnOk result (IsWell server.now self.new) }
        ensures err { IfErr result (λ e. e ≡ fault.Memory) }
    {
        let held = match &mut self.state {
            None => return Err(FarmFault::Memory),
            Some(state) => match take_out(state, job, accepted) {
                Ok(held) => held,
                Err(_) => return Err(FarmFault::Memory),
            },
        };
        let due = held.is_due();
        let done = build(
            server,
            self.builds,
            &mut self.builder,
            &mut self.own,
            held,
            run,
            inputs,
        )?;
        self.builds = asked_for(self.builds, due);
        if !broke_in(done.ran()) {
            return Ok(done);
        }
        if self.builder.is_none() {
            let _ = done.end_run(Err(CallFault::Lost));
            return Err(FarmFault::Memory);
        }
        self.failed = true;
        Ok(done)
    }

    /// Starts again with that key and nonce: its next life, which holds nothing. It lists the archives that
    /// are there; none where the opening fails by its folder. Refused for want of memory alone, as which a
    /// fault of a folder of the farm's own is told.
    #[tactic(auto, using(crate::proofs::LeftLemmas::leaves_same, crate::proofs::LeftLemmas::clears_same))]
    pub fn restart(
        &mut self,
        alloc: Global,
        server: &SiteServer,
        key: &[u8],
        nonce: ServerNonce,
    ) -> Result<Option<Items<(Toolchain, u64)>>, FarmFault>
        requires well { IsWell server.now self.old }
        ensures opens { IfOk result (λ found. Opens (weather_of (outside_of self.old) (outside_of self.new))
            (now_of server.now self.old) found) }
        ensures now { IfOk result (λ found. now_of server.now self.new
            ≡ reopened (now_of server.now self.old) key.now nonce found) }
        ensures leaves { Leaves (outside_of self.old) (outside_of self.new) }
        ensures clears { OnErr result (OnlyClears self.old.state.folder self.new.state.folder) }
        ensures builder { OnErr result (self.new.builder ≡ self.old.builder) }
        ensures hand { self.new.hand ≡ self.old.hand }
        ensures still_well { OnOk result (IsWell server.now self.new) }
        ensures err { IfErr result (λ e. e ≡ fault.Memory) }
    {
        if self.is_shut() {
            return Err(FarmFault::Memory);
        }
        let authorizer = JobTokens::of_key(Vec::from_slice(alloc, key)?);
        let state = self.state.take();
        let closed = self.closed.take();
        match open_over(alloc, state, closed, server.capacity) {
            Ok(state) => {
                let list = list_of(alloc, &state);
                self.state = Some(state);
                let Ok(found) = list else {
                    return Err(FarmFault::Memory);
                };
                self.life = self.life.saturating_add(1);
                self.nonce = nonce;
                self.authorizer = authorizer;
                self.failed = false;
                Ok(Some(found))
            }
            Err((error, folder)) => {
                self.closed = Some(folder);
                if !is_io(&error) || self.builder.is_none() {
                    return Err(FarmFault::Memory);
                }
                self.life = self.life.saturating_add(1);
                self.nonce = nonce;
                self.authorizer = authorizer;
                self.failed = true;
                Ok(None)
            }
        }
    }

    /// Starts again as it was set up, in its first life, with a builder that was asked for nothing. It lists
    /// the archives that are there; none where the opening fails by its folder. Refused as a restart is.
    pub fn begin_again(
        &mut self,
        alloc: Global,
        server: &SiteServer,
    ) -> Result<Option<Items<(Toolchain, u64)>>, FarmFault>
        requires well { IsWell server.now self.old }
        ensures opens { IfOk result (λ found. Opens (weather_of (outside_of self.old) (outside_of self.new))
            (now_of server.now self.old) found) }
        ensures now { IfOk result (λ found. now_of server.now self.new
            ≡ begun_again (now_of server.now self.old) found) }
        ensures leaves { Leaves (outside_of self.old) (outside_of self.new) }
        ensures hand { self.new.hand ≡ self.old.hand }
        ensures well { IfOk result
            (λ found. IsWell (with_left self.old.builds found server.now) self.new) }
        ensures err { IfErr result (λ e. e ≡ fault.Memory) }
    {
        let found = self.restart(alloc, server, server.key.get(), server.nonce)?;
        self.life = 0;
        self.builds = 0;
        Ok(found)
    }
}
