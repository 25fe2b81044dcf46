//! A job as the words ask for it.

/// Where the clients' token stands.
#[derive(Clone, Copy, Debug)]
pub enum Token<'a> {
    /// It is this text.
    Word(&'a str),
    /// It is the text of the file of this name.
    File(&'a str),
}

/// A name and what belongs to it: a variable's value, or an output's file.
#[derive(Clone, Copy, Debug)]
pub struct Pair<'a> {
    /// The name, which is not empty.
    pub name: &'a str,
    /// What belongs to it.
    pub text: &'a str,
}

/// A job: whom is asked for it, what is run, and how often and how long it is asked for.
#[derive(Debug, Drop)]
pub struct Job<'a> {
    /// The scheduler's URL.
    pub scheduler: &'a str,
    /// Where the clients' token stands.
    pub token: Token<'a>,
    /// The name of the archive's file.
    pub archive: &'a str,
    /// The folder that keeps the ids of archives, if there is one.
    pub cache: Option<&'a str>,
    /// The executable.
    pub executable: &'a str,
    /// Its arguments.
    pub arguments: &'a [String],
    /// The folder that it runs in.
    pub cwd: &'a str,
    /// Its variables, in order.
    pub variables: Vec<Pair<'a>>,
    /// The name of the inputs' file, `-` for standard input; none where there are no inputs.
    pub input: Option<&'a str>,
    /// The outputs that are asked for, each with the file that it goes to.
    pub outputs: Vec<Pair<'a>>,
    /// How often a job is asked for, 1 to 100.
    pub tries: u64,
    /// How many seconds it may take, 1 to 86400; none where there is no limit.
    pub seconds: Option<u64>,
    /// Whether the heads of requests and replies are shown.
    pub verbose: bool,
    /// Whether a line of JSON is written.
    pub json: bool,
}

/// What the words ask for.
#[derive(Debug, Drop)]
pub enum Invocation<'a> {
    /// The words themselves.
    Help,
    /// The version.
    Version,
    /// A job.
    Job(Job<'a>),
}
