//! Datagrams whose sessions are to come (RFC 9297, section 2.1).
use vesgrauf_stream::early::EarlyDatagrams;

// Of datagrams whose session is to come 16 are kept (draft-ietf-webtrans-http3-02, section 4.5, asks for
// a limit).
#[test]
fn sixteen_early_datagrams_are_kept(rt: HostRuntime) {
    let mut early = EarlyDatagrams::new(rt.alloc());
    for n in 0..16u8 {
        let session = u64::from(n % 2) * 4;
        let kept = early.keep(session, [n].as_slice());
        assert!(rt; matches!(kept, Ok(true)), "datagram {n} is kept");
    }
    let dropped = early.keep(4, b"more".as_slice());
    assert!(rt; matches!(dropped, Ok(false)), "the 17th is dropped");
    for n in 0..8u8 {
        let came = early.take(4);
        let is_next =
            matches!(&came, Some(payload) if payload.as_slice() == [2 * n + 1].as_slice());
        assert!(rt; is_next, "datagram {n} of session 4");
    }
    assert!(rt;
        early.take(4).is_none() && early.len() == 8,
        "session 4 has no more"
    );
    let kept = early.keep(8, b"".as_slice());
    assert!(rt;
        matches!(kept, Ok(true)),
        "there is room again, also for an empty one"
    );
}
