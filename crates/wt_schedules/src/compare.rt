//! Compares what one end did with what the other heard.
use crate::journal::{Half, Journal, Over};
use anyhow::{Result, bail};

/// The most streams that are left: the peer's control stream, and its streams of QPACK.
const LEFT: usize = 3;

/// Checks that no stream is left but those that are open as long as the connection.
pub fn check_end(side: &str, streams: usize) -> Result<()> {
    if streams > LEFT {
        bail!("{side}: {streams} streams are left");
    }
    Ok(())
}

/// Compares what an end said with what the other heard.
pub fn compare(side: &str, by: &Journal, at: &Journal) -> Result<()> {
    for (id, said) in by.said_on() {
        let is_disturbed = by.disturbed.contains(id)
            || at.disturbed.contains(id)
            || !at.knows(*id) && may_be_unknown(*id, *said, by);
        compare_half(side, *id, *said, at.heard(*id), is_disturbed)?;
    }
    for (id, heard) in at.heard_on() {
        if !at.sessions.contains(id) && !by.sessions.contains(id) {
            compare_heard(side, *id, by.said(*id), *heard)?;
        }
    }
    for number in &at.datagrams_heard {
        if !by.datagrams_said.contains(number) {
            bail!("{side}: datagram {number} was not sent");
        }
    }
    compare_closes(side, by, at)
}

/// Returns whether the other end need not hear of a stream: a reset may come before the bytes that say what the stream is
/// for, and those of a stream of a session may come after the session is over.
fn may_be_unknown(id: u64, said: Half, by: &Journal) -> bool {
    matches!(said.over, Over::Reset(_)) || by.in_session.contains(&id)
}

/// Compares a half that was said: without a disturbance, all of it was heard.
fn compare_half(side: &str, id: u64, said: Half, heard: Half, is_disturbed: bool) -> Result<()> {
    if is_disturbed {
        return Ok(());
    }
    if said.over == Over::End && said != heard {
        bail!("{side}, stream {id}: {said:?} was heard as {heard:?}");
    }
    if said.over != heard.over {
        bail!("{side}, stream {id}: {said:?} was heard as {heard:?}");
    }
    Ok(())
}

/// Compares a half that was heard: nothing was heard that was not said.
fn compare_heard(side: &str, id: u64, said: Half, heard: Half) -> Result<()> {
    if heard.len > said.len {
        bail!("{side}, stream {id}: {heard:?} was heard, but {said:?} was said");
    }
    if heard.over == Over::End && said != heard {
        bail!("{side}, stream {id}: {heard:?} was heard, but {said:?} was said");
    }
    Ok(())
}

/// Compares the codes with which sessions were closed.
fn compare_closes(side: &str, by: &Journal, at: &Journal) -> Result<()> {
    for (id, code) in &at.closes_heard {
        match by.closes_said.get(id) {
            Some(said) if said == code => {}
            _ => bail!("{side}, session {id}: code {code} was not sent"),
        }
    }
    Ok(())
}
