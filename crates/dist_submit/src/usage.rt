//! The program's words and its version, as it tells them.

/// What `--version` writes.
pub(crate) const VERSION: &str = "dist_submit, verified; after sccache 0.19.0\n";

/// What `--help` writes.
pub(crate) const HELP: &str = "\
dist_submit: has a job built by the farm of a scheduler, and hands on what it made.

  dist_submit --scheduler URL (--token T | --token-file FILE) --archive FILE [OPTION].. -- EXECUTABLE [ARG]..

  --scheduler URL     http://HOST:PORT of the scheduler
  --token T           the clients' token, or --token-file FILE: the file that has it
  --archive FILE      the archive of the toolchain
  --cwd DIR           the folder that the command runs in (/)
  --env NAME=VALUE    a variable of the command; may come again
  --input FILE        the inputs, - for standard input (none)
  --output NAME=FILE  asks for the output NAME, and writes it to FILE (NAME); may come again
  --tries N           asks for a job up to N times where a refusal means that, 1 to 100 (5)
  --max-time S        ends after S seconds, 1 to 86400 (no limit)
  --cache DIR         keeps the ids of archives, so that a later job reads one only where it is wanted
  --verbose           shows the heads of requests and replies, without tokens
  --json              writes a line of JSON behind the job's output
  --help, --version   tell these words, and the version

A value may also stand behind a =, as --tries=2. The status is the job's own, or
  120  the words are wrong, or the URL is none of http
  121  scheduler or server refused
  122  no reply came, none that can be read, or none in time
  123  a file was not read or written, or an output did not come back
  124  memory ran out
and then a line on standard error says why; it also says where such a status is the job's own.
";
