//! The control stream.
use crate::messages::assert_written;
use crate::same::assert_same;
use std::test::Fail;
use wtp_core::varint::VarInt;
use wtp_frames::endpoint::Side;
use wtp_sending::control::ControlSending;
use wtp_sending::error::SendError;
use wtp_wire::settings::Settings;

#[test]
fn settings_come_first_and_once(rt: HostRuntime) -> Result<(), Fail> {
    let alloc = rt.alloc();
    let mut out = Vec::new(alloc);
    let mut control = ControlSending::new(Side::Client);
    let early = control.goaway(VarInt::from_u32(0), &mut out);
    assert_same(&rt, early, Err(SendError::Unexpected), "GOAWAY first");
    let settings = Settings::builder(alloc)
        .enable_connect_protocol()?
        .enable_h3_datagrams()?
        .build();
    control.settings(alloc, &settings, &mut out)?;
    let bytes = b"\x00\x04\x04\x08\x01\x33\x01";
    assert_written(&rt, &mut out, bytes, "SETTINGS");
    let again = control.settings(alloc, &settings, &mut out);
    assert_same(&rt, again, Err(SendError::Unexpected), "SETTINGS again");
    Ok(())
}

#[test]
fn goaway_never_rises(rt: HostRuntime) -> Result<(), Fail> {
    let alloc = rt.alloc();
    let mut out = Vec::new(alloc);
    let mut control = ControlSending::new(Side::Client);
    control.settings(alloc, &Settings::builder(alloc).build(), &mut out)?;
    assert_written(&rt, &mut out, b"\x00\x04\x00", "no settings");
    control.goaway(VarInt::from_u32(64), &mut out)?;
    assert_written(&rt, &mut out, b"\x07\x02\x40\x40", "GOAWAY");
    let rises = control.goaway(VarInt::from_u32(68), &mut out);
    assert_same(&rt, rises, Err(SendError::IdRises), "a higher one");
    let none = control.goaway(VarInt::from_u32(6), &mut out);
    assert_same(&rt, none, Err(SendError::InvalidId), "no request");
    control.goaway(VarInt::from_u32(64), &mut out)?;
    control.goaway(VarInt::from_u32(4), &mut out)?;
    let bytes = b"\x07\x02\x40\x40\x07\x01\x04";
    assert_written(&rt, &mut out, bytes, "the same and a lower one");
    let last = control.last_goaway();
    assert_same(&rt, last, Some(VarInt::from_u32(4)), "the last");
    Ok(())
}
