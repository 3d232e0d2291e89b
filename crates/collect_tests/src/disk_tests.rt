//! A file of this machine.
use disk_file::DiskFile;
use std::fs;
use std::fs::OpenOptions;
use std::test::Fail;
use upload_files::{FileFault, GrowingFile};

const PATH: &str = "disk_tests.jsonl";

// Nothing is written to a file that somebody else wrote to, and a cut back to what is known leaves that there.
#[test]
fn what_somebody_else_wrote_stays(rt: HostRuntime) -> Result<(), Fail> {
    fs::write(&rt, PATH, b"one\n".as_slice())?;
    let open = OpenOptions::new().read(true).write(true).open(&rt, PATH)?;
    let mut file = DiskFile::new(open, false)?;
    assert!(rt;
        file.append(b"two\n").is_ok() && file.append(b"three\n").is_ok() && file.cut(8).is_ok()
    );
    assert_eq!(rt; fs::read(&rt, PATH)?.as_slice(), b"one\ntwo\n".as_slice());
    fs::write(&rt, PATH, b"one\ntwo\nother\n".as_slice())?;
    for _ in 0..2 {
        assert!(rt; matches!(file.append(b"three\n"), Err(FileFault::Failed)));
        assert!(rt; file.cut(8).is_ok());
    }
    assert_eq!(rt;
        fs::read(&rt, PATH)?.as_slice(),
        b"one\ntwo\nother\n".as_slice()
    );
    fs::remove_file(&rt, PATH)?;
    Ok(())
}
