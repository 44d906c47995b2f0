//! Tests of scripts that are no cases of `script_cases`: readers, writers and memory that fail, and texts that are too long for a file.
mod drawn;
mod logged;
mod long_message;
mod scripts;
