// Reads and writes that fail.
use crate::ends::{Narrow, Slow};
use crate::requests::{NOT_FOUND, UPLOAD};
use crate::sound::{sinks, sinks_fault};
use http_messages::{Cut, Fault, ReceiveFault, Received, Routes, Sink, read_request, write_fault};
use std::alloc::Global;
use std::test::Fail;

// At whichever call the reader fails, it is said, and nothing is asked for. No call is made after the body.
#[test]
fn each_read_fails(rt: HostRuntime) -> Result<(), Fail> {
    let routes = Routes::new(rt.alloc())?;
    for fails_at in 1..UPLOAD.len() + 3 {
        let mut reader = Slow {
            bytes: UPLOAD,
            most: 1,
            calls: 0,
            fails_at,
        };
        let received = read_request(rt.alloc(), &routes, &mut reader);
        if fails_at <= UPLOAD.len() {
            assert!(rt; matches!(received, Err(ReceiveFault::Read)));
        } else {
            assert!(rt; matches!(received, Ok(Received::PutBlob(_, _))));
            assert_eq!(rt; reader.calls, UPLOAD.len());
        }
    }
    Ok(())
}

// Whether a writer takes of a response what it has room for until it stops, and is called no more than that wants.
fn is_cut(alloc: Global, most: usize, stops_at: usize, fails: bool) -> bool {
    let mut writer = Narrow {
        taken: Vec::new(alloc),
        most,
        calls: 0,
        stops_at,
        fails,
    };
    let written = write_fault(&mut writer, Fault::Route);
    let room = stops_at.saturating_sub(1).saturating_mul(most);
    if !NOT_FOUND.starts_with(&writer.taken) || writer.taken.len() != NOT_FOUND.len().min(room) {
        return false;
    }
    if room < NOT_FOUND.len() {
        written == Err(Cut) && writer.calls == stops_at
    } else {
        written.is_ok() && writer.calls == NOT_FOUND.len().div_ceil(most.max(1))
    }
}

// At whichever call the writer stops, it took a beginning of the response. Head and body come at once, or in as many calls as the writer has
// room for, whose seams fall anywhere. A writer that never fails takes every response.
#[test]
fn each_write_fails(rt: HostRuntime) {
    for count in 1..NOT_FOUND.len() + 3 {
        assert!(rt; is_cut(rt.alloc(), 1, count, false));
        assert!(rt; is_cut(rt.alloc(), 1, count, true));
        assert!(rt; is_cut(rt.alloc(), count, usize::MAX, false));
    }
    assert!(rt; sinks(&mut Sink, UPLOAD).is_ok());
    assert!(rt; sinks(&mut Sink, b"").is_ok());
    assert!(rt; sinks_fault(&mut Sink, Fault::Route).is_ok());
}
