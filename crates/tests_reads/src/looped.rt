//! Reading in a loop. A struct preserves the precondition of each poll.
ghost use Rattle.wtransport_proto.specs.Streams.{CanRead};

use crate::answers::{Answer, PollAnswer, check_answer};
use crate::opened::control;
use crate::same::assert_same;
use std::alloc::Global;
use std::process::Abort;
use test_io::{End, OneByteSource};
use wtransport_proto::bytes::{AsyncRead, Polled};
use wtransport_proto::frame::{Frame, FrameReading};
use wtransport_proto::stream::uniremote::StreamUniRemoteH3;

/// The maximum number of waits of a source.
const TURNS: usize = 20;

/// A unidirectional stream from which frames are read.
#[derive(Drop)]
struct FromOne {
    stream: StreamUniRemoteH3,
    reading: FrameReading,
    ghost readable: { CanRead stream },
}

impl FromOne {
    /// Polls the stream once.
    fn poll<S: AsyncRead>(&mut self, source: &mut S) -> PollAnswer {
        self.stream.read_frame_async(&mut self.reading, source)
    }
}

/// Reads the next frame, and polls again while the source is not ready.
fn read_one<S: AsyncRead>(receiving: &mut FromOne, source: &mut S) -> PollAnswer {
    for _turn in 0..TURNS {
        match receiving.poll(source) {
            Polled::Pending | Polled::Again | Polled::NoMemory => {}
            answer => return answer,
        }
    }
    Polled::Pending
}

/// Returns a control stream from which no frame was read.
fn receiving<R: Abort>(rt: &R, alloc: Global) -> FromOne {
    let stream = control(rt);
    assert!(rt; stream.can_read());
    FromOne {
        stream,
        reading: Frame::read_async(alloc),
    }
}

/// The frame that is read.
static SETTINGS: Answer<'static> = Answer::Frame(0x04, b"\x33\x01");

/// The bytes left in the source.
const REST: &[u8] = &[0x0d, 0x00];

/// No byte after the settings is read.
#[test]
fn settings_are_read_in_a_loop(rt: HostRuntime) {
    let mut receiving = receiving(&rt, rt.alloc());
    let mut source = OneByteSource::new(&[0x04, 0x02, 0x33, 0x01, 0x0d, 0x00], End::Fin);
    let came = read_one(&mut receiving, &mut source);
    check_answer(&rt, &came, &SETTINGS, "settings", 0);
    assert_same(&rt, source.rest(), REST, "bytes left");
}
