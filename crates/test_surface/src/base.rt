//! Values, messages, tokens and paths.

use dist_token::checks::{
    ClientAuthCheck, ClientVisibleMsg, EqCheck, JwtServerCheck, PlainServerCheck, ServerAuthCheck,
};
use dist_token::job_token::JWTJobAuthorizer;
use dist_token::mac::hmac_sha256;
use dist_token::proxy::ProxyTokenCheck;
use dist_token::server_token::{
    INSECURE_DIST_CLIENT_TOKEN, INSECURE_DIST_SERVER_TOKEN, check_jwt_server_token,
    check_server_token, create_jwt_server_token, create_server_token,
    dangerous_insecure_extract_jwt_server_token,
};
use dist_types::addr::Addr;
use dist_types::builder::{BuildFault, BuilderIncoming};
use dist_types::clock::{Clock, MemClock, RealClock};
use dist_types::command::{
    CompileCommand, SingleCompileCommand, osstring_tuples_to_strings, osstrings_to_strings,
    strings_to_osstrings, try_compile_command_to_dist,
};
use dist_types::dialer::{Dialer, MemDialer};
use dist_types::fault::{Failed, Memory};
use dist_types::ids::{JobId, ServerId, ServerNonce};
use dist_types::link::{Link, MemLink};
use dist_types::outgoing::{CallFault, SchedulerOutgoing, ServerOutgoing};
use dist_types::output::{ExitOutput, OutputData, OutputDataLens, ProcessOutput};
use dist_types::readers::{InputsReader, ToolchainReader};
use dist_types::results::{
    AllocJobResult, AssignJobResult, BuildResult, HeartbeatServerResult, JobAlloc, JobComplete,
    JobState, RunJobResult, SchedulerStatusResult, SubmitToolchainResult, UpdateJobStateResult,
};
use dist_types::roles::JobAuthorizer;
use dist_types::rules::Rules;
use dist_types::sink::{MemSink, Sink, StdSink};
use dist_types::source::{MemSource, ReadError, Source, StdSource};
use dist_types::tcp::{TcpDialer, TcpLink};
use dist_types::token_error::{Part, TokenError};
use dist_types::toolchain::Toolchain;
use dist_types::type_error::TypeError;
use dist_wire::alloc::AllocJobHttpResponse;
use dist_wire::drain::{DrainServerHttpRequest, DrainServerResult};
use dist_wire::error::WireError;
use dist_wire::heartbeat::HeartbeatServerHttpRequest;
use dist_wire::message::Message;
use dist_wire::run::RunJobHttpRequest;
use path_pkg::fault::{PackError, PackFault, TreeFault};
use path_pkg::mem_tree::MemTree;
use path_pkg::node::Kind;
use path_pkg::package::ToolchainPackageBuilder;
use path_pkg::packagers::{InputsPackager, OutputsRepackager, ToolchainPackager};
use path_pkg::real_tree::RealTree;
use path_pkg::recorded::SimplifyPath;
use path_pkg::simplify::simplify_path;
use path_pkg::tree::Tree;
use path_pkg::unix::PathTransformer;
use path_pkg::windows;
