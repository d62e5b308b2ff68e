//! Folders and sinks, called through their traits.

mod faulty;
mod gates;
mod saves;

use std::fs;
use std::num::NonZeroUsize;
use std::test::Fail;
use vg_model::Bytes;
use vg_outside::{
    Failed, Folder, LoadError, MemoryFolder, MemorySink, RealFolder, RealSink, Sink, SureFolder,
    SureSink,
};

fn load<F: Folder>(folder: &mut F, name: &str, limit: usize) -> Result<Bytes, LoadError> {
    folder.load(name, limit)
}

fn save<F: Folder>(folder: &mut F, name: &str, bytes: &[u8]) -> Result<(), Failed> {
    folder.save(name, bytes)
}

fn put<S: Sink>(sink: &mut S, bytes: &[u8]) -> Result<usize, Failed> {
    sink.put(bytes)
}

#[test]
fn a_memory_folder_fails_at_its_listed_calls(rt: HostRuntime) -> Result<(), Fail> {
    let mut folder = MemoryFolder::new(rt.alloc(), vec![in rt.alloc(); 4u64, 1]?);
    folder.add("c", &[1, 2, 3])?;
    assert_eq!(rt; load(&mut folder, "c", 1)?.as_slice(), [1, 2].as_slice());
    assert_eq!(rt; load(&mut folder, "c", 9).err(), Some(LoadError::Failed));
    assert_eq!(rt; load(&mut folder, "c", 2)?.as_slice(), [1, 2, 3].as_slice());
    assert_eq!(rt; save(&mut folder, "t", &[7, 8]), Ok(()));
    assert_eq!(rt; save(&mut folder, "t", &[9]), Err(Failed));
    assert_eq!(rt;
        load(&mut folder, "absent", 9).err(),
        Some(LoadError::Failed)
    );
    assert_eq!(rt; folder.file("t"), Some([7, 8].as_slice()));
    assert_eq!(rt; folder.file("c"), Some([1, 2, 3].as_slice()));
    assert_eq!(rt; folder.faults, 2);
    Ok(())
}

#[test]
fn a_memory_sink_takes_its_most_bytes_a_call(rt: HostRuntime) -> Result<(), Fail> {
    let mut sink = MemorySink::new(rt.alloc(), vec![in rt.alloc(); 1u64]?, NonZeroUsize::new(2));
    assert_eq!(rt; put(&mut sink, &[1, 2, 3]), Ok(2));
    assert_eq!(rt; put(&mut sink, &[3]), Err(Failed));
    assert_eq!(rt; put(&mut sink, &[3]), Ok(1));
    assert_eq!(rt; put(&mut sink, &[]), Ok(0));
    assert_eq!(rt; sink.written(), [1, 2, 3].as_slice());
    assert_eq!(rt; sink.faults, 1);
    Ok(())
}

#[test]
fn a_sure_folder_and_a_sure_sink_hold_what_they_are_given(rt: HostRuntime) -> Result<(), Fail> {
    let mut folder = SureFolder::new(rt.alloc());
    folder.add("c", &[1, 2, 3])?;
    assert_eq!(rt; save(&mut folder, "c", &[4, 5]), Ok(()));
    assert_eq!(rt; load(&mut folder, "c", 0)?.as_slice(), [4].as_slice());
    assert_eq!(rt;
        load(&mut folder, "absent", 0).err(),
        Some(LoadError::Failed)
    );
    assert_eq!(rt; folder.file("c"), Some([4, 5].as_slice()));
    assert_eq!(rt; folder.faults, 0);
    let mut sink = SureSink::new(rt.alloc());
    assert_eq!(rt; put(&mut sink, &[1, 2]), Ok(2));
    assert_eq!(rt; put(&mut sink, &[3]), Ok(1));
    assert_eq!(rt; sink.written(), [1, 2, 3].as_slice());
    Ok(())
}

#[test]
fn a_real_folder_writes_and_reads_a_file(rt: HostRuntime) -> Result<(), Fail> {
    let name = "vg_outside_real_folder.tmp";
    let mut folder = RealFolder::new(&rt);
    assert_eq!(rt; save(&mut folder, name, b"longer than the next"), Ok(()));
    assert_eq!(rt; save(&mut folder, name, b"bytes"), Ok(()));
    for (limit, want) in [
        (0, "b"),
        (3, "byte"),
        (4, "bytes"),
        (5, "bytes"),
        (9, "bytes"),
    ] {
        let bytes = load(&mut folder, name, limit)?;
        assert_eq!(rt; bytes.as_slice(), want.as_bytes(), "at {limit}");
    }
    fs::remove_file(&rt, name)?;
    assert_eq!(rt; load(&mut folder, name, 9).err(), Some(LoadError::Failed));
    assert_eq!(rt;
        save(&mut folder, "vg_outside_no_folder/t", b""),
        Err(Failed)
    );
    assert_eq!(rt; folder.faults, 2);
    Ok(())
}

#[test]
fn a_real_sink_prints_a_line(rt: HostRuntime) -> Result<(), Fail> {
    let mut sink = RealSink::new(&rt);
    let line = b"printed through a sink\n";
    assert_eq!(rt; put(&mut sink, line), Ok(line.len()));
    assert_eq!(rt; sink.faults, 0);
    Ok(())
}
