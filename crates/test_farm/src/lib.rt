//! Runs of the commands `farm` and `audit` over calls that fail, lines that are faulty, and folders and builders
//! that are handed in, one module a topic. Whole runs are in `test_rows`. The expected texts were written by hand
//! or by other tools, none is our own output.
#![tactic(auto)]

#[cfg(test)]
mod audits;
#[cfg(test)]
mod failing_folder;
#[cfg(test)]
mod fault_table;
#[cfg(test)]
mod first_run;
#[cfg(test)]
mod given_words;
#[cfg(test)]
mod handed_in;
#[cfg(test)]
mod limits;
#[cfg(test)]
mod ran;
#[cfg(test)]
mod replay;
#[cfg(test)]
mod script_lines;
#[cfg(test)]
mod turns;
#[cfg(test)]
mod untold_folder;
#[cfg(test)]
mod whole_farms;
