//! What an event has beside its bytes in the input, in arrays of the caller: its fields, a reason
//! or a datagram.
ghost use Rattle.std.specs.Prelude.{◌≡◌, ◌≤◌, ◌+◌, ◌++◌, ℕ, length, drop};
ghost use Rattle.wtp_webtransport.specs.Events.{told_of};
ghost use Rattle.wt_c.specs.ConnectionEvents.{fields_of, size_beside};
ghost use Rattle.wt_c.specs.ConnectionCalls.{Puts};
ghost use Rattle.wt_c.specs.Fields.{texts_size, capped, HoldLines};

use crate::fields::{WtField, add_capped, put_line};
use wtp_fields::fields::FieldList;
use wtp_webtransport::event::Event;

// Copies bytes to the start of `out`, which has room for them.
pub(crate) fn put(bytes: &[u8], out: &mut [u8])
    requires { length bytes.now ≤ length out.old }
    ensures { out.new ≡ bytes.now ++ drop (length bytes.now) out.old }
{
    let (front, _) = out.split_at_mut(bytes.len());
    front.copy_from_slice(bytes);
}

// Returns the length of the texts of fields, or `usize::MAX` if it overflows.
fn texts_len(list: &FieldList) -> usize
    ensures { result ≡ capped (texts_size list.now) }
{
    let mut left = list.iter();
    let mut size: usize = 0;
    'fields: while let Some(field) = left.next() {
        let name_end = add_capped(size, field.name.len());
        size = add_capped(name_end, field.value.len());
    }
    size
}

// Stores fields in arrays that have room for them.
fn put_fields(list: &FieldList, fields: &mut [WtField], texts: &mut [u8])
    requires fields { length list.now ≤ length fields.old }
    requires texts { capped (texts_size list.now) ≤ length texts.old }
    ensures { HoldLines fields.old texts.old fields.new texts.new (length list.now)
        (capped (texts_size list.now)) list.now }
{
    let mut left = list.iter();
    let mut count: usize = 0;
    let mut used: usize = 0;
    'fields: while let Some(field) = left.next() {
        put_line(field.name, field.value, count, used, fields, texts);
        count = add_capped(count, 1);
        let name_end = add_capped(used, field.name.len());
        used = add_capped(name_end, field.value.len());
    }
}

// Returns the number of fields, and the length of their texts.
fn room_of_fields(list: &FieldList) -> (usize, usize)
    ensures count { result.0 ≡ length list.now }
    ensures size { result.1 ≡ capped (texts_size list.now + 0) }
{
    (list.len(), add_capped(texts_len(list), 0))
}

// Returns the number of fields of an event, and the length of their texts or of its bytes.
pub(crate) fn room_of(event: &Event<'_>) -> (usize, usize)
    ensures count { result.0 ≡ length (fields_of (told_of event.now)) }
    ensures size { result.1 ≡ capped (size_beside (told_of event.now)) }
{
    match event {
        Event::Headers(_, list) => room_of_fields(list),
        Event::SessionRequested(list) => room_of_fields(list),
        Event::SessionReady(_, list) => room_of_fields(list),
        Event::Rejected(_, list) => room_of_fields(list),
        Event::SessionClosed(close) => (0, add_capped(0, close.reason().len())),
        Event::Datagram(payload) => (0, add_capped(0, payload.len())),
        _ => (0, 0),
    }
}

// Stores the fields of an event, or its bytes, in arrays that have room for them.
pub(crate) fn put_beside(event: &Event<'_>, fields: &mut [WtField], out: &mut [u8])
    requires fields { length (fields_of (told_of event.now)) ≤ length fields.old }
    requires out { capped (size_beside (told_of event.now)) ≤ length out.old }
    ensures { Puts (told_of event.now) fields.old out.old fields.new out.new
        (length (fields_of (told_of event.now))) (capped (size_beside (told_of event.now))) }
{
    match event {
        Event::Headers(_, list) => put_fields(list, fields, out),
        Event::SessionRequested(list) => put_fields(list, fields, out),
        Event::SessionReady(_, list) => put_fields(list, fields, out),
        Event::Rejected(_, list) => put_fields(list, fields, out),
        Event::SessionClosed(close) => put(close.reason(), out),
        Event::Datagram(payload) => put(payload.as_slice(), out),
        _ => {}
    }
}
