//! Scripts, farms, runs, configurations and the command.

use farm::begin::setup;
use farm::builder::FarmBuilder;
use farm::command::{dist_main, run_command_line, words_given};
use farm::config::{ClientAuth, SchedulerConfig, ServerAuth, ServerConfig};
use farm::entry::Entry;
use farm::event::Event;
use farm::fault::{ConfigCause, FarmFault};
use farm::files::{Files, MemFiles, RealFiles};
use farm::lines::{Line, SetupLine};
use farm::parse::{AuthSubcommand, Command, try_parse_from};
use farm::print::print_run;
use farm::reader::{LineFault, read_line};
use farm::run::{Farm, Stopped};
use farm::script::read_script;
use farm::serve::{MemServe, Serve};
use farm::setup::Setup;
use farm::token_length::TokenLength;
