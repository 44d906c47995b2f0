//! Tests of logs: a line that is written, what a listener is told, the log of a script, the report of progress, and readers and writers that fail.
mod failures;
mod lines;
mod listeners;
mod progress;
mod scripts;
