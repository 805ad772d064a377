//! Plans that are made, and their lines.

use super::*;

/// Numbers, the calls of the keeper that fail, counted from 1, the room of the sink, and what `make` answers and writes.
const MADE: [(&str, &[u32], usize, u8, &str); 4] = [
    (
        "0007",
        &[],
        1000,
        0,
        "make 7 events 1007 jobs 2514 prints 2014 requests 500 done 2414 threw 100\n",
    ),
    // The first call enqueues a job; the first one behind those of the 2,514 jobs takes one.
    ("7", &[1], 1000, 6, ""),
    ("7", &[2515], 1000, 6, ""),
    // A keeper's fault comes before a write's.
    ("7", &[1], 0, 6, ""),
];

/// Each read would fail: there is none.
#[test]
fn made_plans(rt: HostRuntime) -> Result<(), Fail> {
    let alloc = rt.alloc();
    for (number, failing_puts, room, status, written) in MADE {
        let words = given(alloc, &["make", number])?;
        let mut source = MemSource::new(Vec::new(alloc), Vec::from_slice(alloc, &[1])?);
        let mut sink = MemSink::new(alloc, room, Vec::new(alloc))?;
        let failing_puts = Numbers::new(Vec::from_slice(alloc, failing_puts)?);
        let keeper = MemKeeper::new(alloc, failing_puts);
        let answer = top_still(alloc, &words, &mut source, &mut sink, keeper);
        assert_eq!(rt; answer.status, status, "of {number}");
        assert!(rt; answer.closed.is_some());
        assert_eq!(rt; sink.bytes(), written.as_bytes());
    }
    Ok(())
}
