//! Tests with readers, writers and memory that fail: of scripts (`script`), of logs, and of a listener that is called frame by frame (`log`), and
//! of a node on a real bus (`node`). Whatever has an exact text that fits a file is a case of the program `script_cases`: scripts, logs and
//! dialogues, the meanings of their lines, and the command line.
#![tactic(auto)]

#[cfg(test)]
mod checks;
#[cfg(test)]
mod log;
#[cfg(test)]
mod node;
#[cfg(test)]
mod readers;
#[cfg(test)]
mod script;
