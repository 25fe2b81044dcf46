//! The builders of a server, each of which asks the executor.
use crate::fault::Fault;
use crate::words::Words;
use dist_types::tcp::TcpDialer;
use dist_types::text::Text;
use exec_builder::builder::ExecBuilder;
use exec_builder::executor::Executor;
use exec_builder::pause::RealPause;
use http_connections::accepting::QUICK_WORKERS;
use http_connections::asking::{LimitedNet, Limits};
use std::alloc::Global;
use std::net::Net;
use std::time::Clock;

/// The limits of a question to the executor: it is on the same machine, and a command runs for at most 300 seconds there;
/// what it waits for a place, and takes for the inputs and the outputs, has 30 seconds more.
const QUESTION_LIMITS: Limits = Limits {
    connect_ms: 2_000,
    reply_ms: 330_000,
};

/// A builder over the system.
pub(crate) type RealBuilder<'a, R> = ExecBuilder<TcpDialer<LimitedNet<R>>, RealPause<'a, R>>;

/// The executor that the words name, under that secret.
fn executor_of(alloc: Global, words: &Words, secret: &str) -> Result<Executor, Fault> {
    let host = Text::of(alloc, words.host.as_str())?;
    let secret = Text::of(alloc, secret)?;
    Ok(Executor {
        host,
        port: words.port,
        secret,
    })
}

/// A builder for each worker: so many that build at once, and those for requests that wait for nobody.
pub(crate) fn builders_of<'a, R: Net + Clock + Copy + Drop>(
    rt: &'a R,
    alloc: Global,
    words: &Words,
    secret: &str,
    builds: usize,
) -> Result<Vec<RealBuilder<'a, R>>, Fault> {
    let workers = builds.saturating_add(QUICK_WORKERS);
    let mut builders = Vec::with_capacity(alloc, workers)?;
    for _ in 0..workers {
        let dialer = TcpDialer::new(alloc, LimitedNet::new(*rt, QUESTION_LIMITS));
        let executor = executor_of(alloc, words, secret)?;
        builders.push(ExecBuilder::new(dialer, executor, RealPause::new(rt)))?;
    }
    Ok(builders)
}
