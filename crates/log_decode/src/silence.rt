//! The messages under way whose frames have stopped.
ghost use Rattle.std.specs.Prelude.{◌≡◌, ◌++◌, OnOk, IfOk, not, filter, None, if◌then◌else◌};
ghost use Rattle.log_decode.specs.Session.{is_silent, told_of};
ghost use Rattle.log_decode.specs.Sessions.{silent_entry, losses, silenced};
ghost use Rattle.log_decode.specs.Due.{NoneDueBefore};
ghost use Rattle.log_decode.specs.declared.session.Fate.TheVariants.{Lost};
ghost use Rattle.log_reports.specs.declared.told.Cause.TheVariants.{TimedOut};

use crate::session::Session;
use crate::sessions::{Sessions, tell};
use log_reports::{Cause, Key, Told};
use std::alloc::AllocError;

/// The report that a message is lost, if it is silent.
fn silence_of(key: Key, session: &Session, now: u64) -> Option<Told>
    ensures { result ≡ (if is_silent key.to session.now now then told_of key session.now (Lost TimedOut) else None) }
{
    if !session.is_silent(key.to, now) {
        return None;
    }
    Some(session.lost(key, Cause::TimedOut))
}

/// Each message that is silent is reported as lost.
fn tell_silent(sessions: &Sessions, now: u64, told: &mut Vec<Told>) -> Result<(), AllocError>
    ensures { OnOk result (told.new.items ≡ told.old.items ++ losses (Lost TimedOut) (filter (silent_entry now) sessions.now.entries)) }
{
    for at in 0..sessions.len() {
        let Some((key, session)) = sessions.get_index(at) else {
            return Ok(());
        };
        tell(told, silence_of(*key, session, now))?;
    }
    Ok(())
}

/// Drops the messages that are silent.
fn drop_silent(sessions: &mut Sessions, now: u64)
    ensures { sessions.new.entries ≡ filter (λ e. not (silent_entry now e)) sessions.old.entries }
{
    sessions.retain(
        |key: &Key, session: &mut Session| -> bool
            ensures { (result ≡ not (is_silent key.now.to session.old now)) × (session.new ≡ session.old) }
        { !session.is_silent(key.to, now) },
    );
}

/// A time before which no message becomes silent.
fn next_due(sessions: &Sessions) -> u64
    ensures { NoneDueBefore result sessions.now.entries }
{
    let mut due = u64::MAX;
    for at in 0..sessions.len() {
        let Some((key, session)) = sessions.get_index(at) else {
            return 0;
        };
        due = due.min(session.due(key.to));
    }
    due
}

/// Each message that is silent is lost. None becomes silent before `due`, so that an earlier frame looks at no message. None of those
/// left becomes silent before the time that is returned.
pub(crate) fn end_due(
    sessions: &mut Sessions,
    due: u64,
    now: u64,
    told: &mut Vec<Told>,
) -> Result<u64, AllocError>
    requires { NoneDueBefore due sessions.old.entries }
    ensures told { OnOk result ((sessions.new.entries, told.new.items) ≡ silenced now (sessions.old.entries, told.old.items)) }
    ensures next { IfOk result (λ due. NoneDueBefore due sessions.new.entries) }
{
    if now < due {
        return Ok(due);
    }
    tell_silent(sessions, now, told)?;
    drop_silent(sessions, now);
    Ok(next_due(sessions))
}
