use crate::{Failed, MemSink, MemSource, Sink, SinkFault, Source};
use ec_attr::Blob;
use std::test::Fail;

/// Three bytes, of which the second read fails.
#[test]
fn a_source_fails_at_its_read(rt: HostRuntime) -> Result<(), Fail> {
    let mut source = MemSource::new(Blob::from_slice(rt.alloc(), &[1, 2, 3])?, Some(2));
    let mut buffer = [0u8; 2];
    assert_eq!(rt; source.read(&mut buffer), Ok(2));
    assert_eq!(rt; buffer, [1, 2]);
    assert_eq!(rt; source.read(&mut buffer), Err(Failed));
    assert_eq!(rt; source.read(&mut []), Ok(0));
    assert_eq!(rt; source.read(&mut buffer), Ok(1));
    assert_eq!(rt; buffer, [3, 2]);
    assert_eq!(rt; source.read(&mut buffer), Ok(0));
    assert_eq!(rt;
        (source.reads(), source.faults(), source.rest().len()),
        (5, 1, 0)
    );
    Ok(())
}

/// Write 2 fails although it is named as stuck too; write 3 takes nothing, and 5 has nothing to take.
#[test]
fn a_sink_fails_and_is_stuck_at_its_writes(rt: HostRuntime) -> Result<(), Fail> {
    for (stuck, third, faults) in [(2, Ok(1), 1), (3, Ok(0), 2)] {
        let mut sink = MemSink::new(rt.alloc(), Some(2), Some(stuck));
        assert_eq!(rt; sink.write(&[1, 2]), Ok(2));
        assert_eq!(rt; sink.write(&[3]), Err(SinkFault::Failed));
        assert_eq!(rt; sink.write(&[4]), third);
        assert_eq!(rt; sink.write(&[]), Ok(0));
        assert_eq!(rt; (sink.writes(), sink.faults()), (4, faults));
        let kept: &[u8] = if stuck == 2 { &[1, 2, 4] } else { &[1, 2] };
        assert_eq!(rt; sink.bytes(), kept);
    }
    Ok(())
}
