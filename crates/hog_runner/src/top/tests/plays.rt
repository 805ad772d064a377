//! Scripts that are played, and their lines.

use super::*;

/// Scripts, and what `replay` writes of them.
const PLAYED: [(&str, &str); 17] = [
    (
        "[]",
        "entries queued 0 taken 0 beat 0 ran 0 replied 0 swept 0\n",
    ),
    (
        "[[\"enqueue\",\"let d := {}; d.me := d; let e := [d, d]; print(d); fetch('https://h/'); e[1].x := 2; return e[2].x;\",{},0,0],[\"take\",0,\"hog\",0],[\"work\",0,1000],[\"flush\",0],[\"take\",1,\"fetch\",0],[\"answer\",1,200,null],[\"flush\",1],[\"take\",2,\"hog\",0],[\"work\",2,1000],[\"flush\",2]]",
        "enqueue 0\ntake 0 00000000-0000-0000-0000-000000000001\nwork asks 14\nflush ok\ntake 0 00000000-0000-0000-0000-000000000002\nanswer 200\nflush ok\ntake 0 00000000-0000-0000-0000-000000000003\nwork ended 28\nflush ok\njob 0 completed\nprint \"{'me': <cycle>}\"\nrequest \"https://h/\" \"null\"\nresult \"2\"\nentries queued 1 taken 3 beat 0 ran 2 replied 1 swept 0\n",
    ),
    (
        "[[\"enqueue\",\"fun f() { try { let r := fetch('https://h/'); throw r.status; } catch (e) { throw e + 1; } } try { f(); } catch (e) { return e; }\",{},0,0],[\"take\",0,\"hog\",0],[\"work\",0,1000],[\"flush\",0],[\"take\",1,\"fetch\",0],[\"answer\",1,500,null],[\"flush\",1],[\"take\",2,\"hog\",0],[\"work\",2,1000],[\"flush\",2]]",
        "enqueue 0\ntake 0 00000000-0000-0000-0000-000000000001\nwork asks 8\nflush ok\ntake 0 00000000-0000-0000-0000-000000000002\nanswer 500\nflush ok\ntake 0 00000000-0000-0000-0000-000000000003\nwork ended 19\nflush ok\njob 0 completed\nrequest \"https://h/\" \"null\"\nresult \"501\"\nentries queued 1 taken 3 beat 0 ran 2 replied 1 swept 0\n",
    ),
    (
        "[[\"enqueue\",\"return 1;\",{},0,0],[\"take\",0,\"hog\",0],[\"work\",0,1],[\"flush\",0],[\"take\",0,\"hog\",0],[\"work\",0,1000],[\"flush\",0]]",
        "enqueue 0\ntake 0 00000000-0000-0000-0000-000000000001\nwork sliced 1\nflush ok\ntake 0 00000000-0000-0000-0000-000000000002\nwork ended 3\nflush ok\njob 0 completed\nresult \"1\"\nentries queued 1 taken 2 beat 0 ran 2 replied 0 swept 0\n",
    ),
    (
        "[[\"enqueue\",\"return 1;\",{},0,0],[\"enqueue\",\"return 1;\",{},0,0],[\"take\",0,\"hog\",0],[\"take\",1,\"hog\",0],[\"take\",2,\"hog\",0],[\"take\",0,\"hog\",0]]",
        "enqueue 0\nenqueue 1\ntake 0 00000000-0000-0000-0000-000000000001\ntake 1 00000000-0000-0001-0000-000000000002\ntake none\ntake busy\njob 0 running hog\njob 1 running hog\nentries queued 2 taken 2 beat 0 ran 0 replied 0 swept 0\n",
    ),
    // By priority, moment and number.
    (
        "[[\"enqueue\",\"return 1;\",{},0,5],[\"enqueue\",\"return 1;\",{},0,0],[\"enqueue\",\"return 1;\",{},-1,9],[\"enqueue\",\"return 1;\",{},0,0],[\"take\",0,\"fetch\",10],[\"take\",0,\"hog\",0],[\"take\",1,\"hog\",0],[\"take\",2,\"hog\",4],[\"take\",2,\"hog\",10],[\"take\",3,\"hog\",10],[\"take\",4,\"hog\",10]]",
        "enqueue 0\nenqueue 1\nenqueue 2\nenqueue 3\ntake none\ntake 1 00000000-0000-0001-0000-000000000001\ntake 3 00000000-0000-0003-0000-000000000002\ntake none\ntake 2 00000000-0000-0002-0000-000000000003\ntake 0 00000000-0000-0000-0000-000000000004\ntake none\njob 0 running hog\njob 1 running hog\njob 2 running hog\njob 3 running hog\nentries queued 4 taken 4 beat 0 ran 0 replied 0 swept 0\n",
    ),
    (
        "[[\"enqueue\",\"return 1;\",{},0,0],[\"take\",0,\"hog\",1000],[\"sweep\",30999],[\"sweep\",500],[\"sweep\",31000]]",
        "enqueue 0\ntake 0 00000000-0000-0000-0000-000000000001\nsweep none\nsweep none\nsweep 0\njob 0 available hog\nentries queued 1 taken 1 beat 0 ran 0 replied 0 swept 1\n",
    ),
    (
        "[[\"enqueue\",\"return 1;\",{},0,0],[\"take\",0,\"hog\",1000],[\"beat\",0,500],[\"sweep\",30499],[\"sweep\",30500]]",
        "enqueue 0\ntake 0 00000000-0000-0000-0000-000000000001\nbeat ok\nsweep none\nsweep 0\njob 0 available hog\nentries queued 1 taken 1 beat 1 ran 0 replied 0 swept 1\n",
    ),
    (
        "[[\"enqueue\",\"return 1;\",{},0,0],[\"take\",0,\"hog\",0],[\"sweep\",30000],[\"take\",1,\"hog\",30000],[\"sweep\",60000],[\"take\",2,\"hog\",60000],[\"sweep\",90000],[\"sweep\",120000]]",
        "enqueue 0\ntake 0 00000000-0000-0000-0000-000000000001\nsweep 0\ntake 0 00000000-0000-0000-0000-000000000002\nsweep 0\ntake 0 00000000-0000-0000-0000-000000000003\nsweep 0 poisoned\nsweep none\njob 0 failed\npoisoned 30000/0 60000/30000 90000/60000\nentries queued 1 taken 3 beat 0 ran 0 replied 0 swept 3\n",
    ),
    (
        "[[\"enqueue\",\"print(1); return 1;\",{},0,0],[\"take\",0,\"hog\",0],[\"work\",0,1],[\"sweep\",30000],[\"take\",1,\"hog\",30000],[\"work\",1,2],[\"flush\",1],[\"take\",1,\"hog\",30000],[\"forge\",0,0,3],[\"flush\",0],[\"forge\",0,7,1],[\"flush\",0],[\"lose\",0],[\"flush\",0],[\"answer\",1,200,null]]",
        "enqueue 0\ntake 0 00000000-0000-0000-0000-000000000001\nwork sliced 1\nsweep 0\ntake 0 00000000-0000-0000-0000-000000000002\nwork sliced 2\nflush ok\ntake 0 00000000-0000-0000-0000-000000000003\nforge ok\nflush not this run\nforge ok\nflush unknown job\nlose ok\nflush idle\nanswer idle\njob 0 running hog\nentries queued 1 taken 3 beat 0 ran 1 replied 0 swept 1\n",
    ),
    (
        "[[\"enqueue\",\"return 1;\",{},0,0],[\"take\",0,\"hog\",0],[\"back\",0,1000],[\"back\",0,1000],[\"take\",1,\"hog\",999],[\"take\",1,\"hog\",1000],[\"work\",1,1000],[\"flush\",1],[\"lose\",1]]",
        "enqueue 0\ntake 0 00000000-0000-0000-0000-000000000001\nback ok\nback idle\ntake none\ntake 0 00000000-0000-0000-0000-000000000002\nwork ended 3\nflush ok\nlose idle\njob 0 completed\nresult \"1\"\nentries queued 1 taken 2 beat 0 ran 1 replied 0 swept 0 back 1\n",
    ),
    (
        "[[\"enqueue\",\"return 1;\",{},0,0],[\"take\",0,\"hog\",0],[\"sweep\",30000],[\"back\",0,5],[\"work\",0,9],[\"work\",0,9]]",
        "enqueue 0\ntake 0 00000000-0000-0000-0000-000000000001\nsweep 0\nback wrong lock none\nwork ended 3\nwork idle\njob 0 available hog\nentries queued 1 taken 1 beat 0 ran 0 replied 0 swept 1\n",
    ),
    (
        "[[\"enqueue\",\"let r := fetch('https://h/'); return r.status;\",{},0,0],[\"take\",0,\"hog\",0],[\"work\",0,1000],[\"flush\",0],[\"take\",0,\"fetch\",0],[\"sweep\",30000],[\"take\",1,\"fetch\",30000],[\"answer\",1,200,null],[\"flush\",1],[\"take\",1,\"hog\",30000],[\"answer\",0,500,null],[\"flush\",0],[\"forge\",0,0,4],[\"flush\",0],[\"forge\",0,7,1],[\"flush\",0],[\"work\",1,1000],[\"flush\",1]]",
        "enqueue 0\ntake 0 00000000-0000-0000-0000-000000000001\nwork asks 3\nflush ok\ntake 0 00000000-0000-0000-0000-000000000002\nsweep 0\ntake 0 00000000-0000-0000-0000-000000000003\nanswer 200\nflush ok\ntake 0 00000000-0000-0000-0000-000000000004\nanswer 500\nflush wrong lock 00000000-0000-0000-0000-000000000004\nforge ok\nflush not this run\nforge ok\nflush unknown job\nwork ended 8\nflush ok\njob 0 completed\nrequest \"https://h/\" \"null\"\nresult \"200\"\nentries queued 1 taken 4 beat 0 ran 2 replied 1 swept 1\n",
    ),
    (
        "[[\"enqueue\",\"let r := fetch('https://h/'); return r.status;\",{},0,0],[\"take\",0,\"hog\",0],[\"work\",0,1000],[\"flush\",0],[\"take\",0,\"fetch\",0],[\"back\",0,1000],[\"take\",1,\"fetch\",999],[\"take\",1,\"fetch\",1000],[\"answer\",1,200,null],[\"flush\",1],[\"take\",1,\"hog\",1000],[\"work\",1,1000],[\"flush\",1]]",
        "enqueue 0\ntake 0 00000000-0000-0000-0000-000000000001\nwork asks 3\nflush ok\ntake 0 00000000-0000-0000-0000-000000000002\nback ok\ntake none\ntake 0 00000000-0000-0000-0000-000000000003\nanswer 200\nflush ok\ntake 0 00000000-0000-0000-0000-000000000004\nwork ended 8\nflush ok\njob 0 completed\nrequest \"https://h/\" \"null\"\nresult \"200\"\nentries queued 1 taken 4 beat 0 ran 2 replied 1 swept 0 back 1\n",
    ),
    // Globals: all but whole numbers are null.
    (
        "[[\"enqueue\",\"return [a, b];\",{\"b\":1.5,\"a\":[1,-0,\"x\",{\"c\":9223372036854775807}]},0,0],[\"take\",0,\"hog\",0],[\"work\",0,1000],[\"flush\",0]]",
        "enqueue 0\ntake 0 00000000-0000-0000-0000-000000000001\nwork ended 7\nflush ok\njob 0 completed\nresult \"[[1, null, 'x', {'c': 9223372036854775807}], null]\"\nentries queued 1 taken 1 beat 0 ran 1 replied 0 swept 0\n",
    ),
    // A reply's body, likewise.
    (
        "[[\"enqueue\",\"let r := fetch('https://h/'); return r;\",{},0,0],[\"take\",0,\"hog\",0],[\"work\",0,1000],[\"flush\",0],[\"take\",0,\"fetch\",0],[\"answer\",0,65535,[1.5, \"a\"]],[\"flush\",0],[\"take\",0,\"hog\",0],[\"work\",0,1000],[\"flush\",0]]",
        "enqueue 0\ntake 0 00000000-0000-0000-0000-000000000001\nwork asks 3\nflush ok\ntake 0 00000000-0000-0000-0000-000000000002\nanswer 65535\nflush ok\ntake 0 00000000-0000-0000-0000-000000000003\nwork ended 6\nflush ok\njob 0 completed\nrequest \"https://h/\" \"null\"\nresult \"{'status': 65535, 'body': [null, 'a']}\"\nentries queued 1 taken 3 beat 0 ran 2 replied 1 swept 0\n",
    ),
    // Each step, with the greatest numbers.
    (
        "[[\"enqueue\",\"return 1;\",{\"a\":1.5},-32768,0],[\"take\",15,\"fetch\",9223372036854775807],[\"beat\",0,0],[\"work\",0,1000000],[\"answer\",0,65535,{}],[\"flush\",0],[\"sweep\",0],[\"lose\",0],[\"forge\",0,4294967295,0],[\"back\",0,0]]",
        "enqueue 0\ntake none\nbeat idle\nwork idle\nanswer idle\nflush idle\nsweep none\nlose idle\nforge idle\nback idle\njob 0 available hog\nentries queued 1 taken 0 beat 0 ran 0 replied 0 swept 0\n",
    ),
];

/// Texts that are no scripts, and the refusal of `replay`.
const NO_SCRIPTS: [(&str, &str); 13] = [
    ("", "refused: not json\n"),
    ("[", "refused: not json\n"),
    ("[1e400]", "refused: not json\n"),
    ("{}", "refused: not a script\n"),
    ("[[\"take\",0,\"hog\"]]", "refused: step 0 is bad\n"),
    (
        "[[\"flush\",15],[\"flush\",16]]",
        "refused: step 1 is bad\n",
    ),
    ("[[\"work\",0,0]]", "refused: step 0 is bad\n"),
    (
        "[[\"sweep\",9223372036854775808]]",
        "refused: step 0 is bad\n",
    ),
    ("[[\"sweep\",1.0]]", "refused: step 0 is bad\n"),
    (
        "[[\"enqueue\",\"return 1;\",{},32768,0]]",
        "refused: step 0 is bad\n",
    ),
    (
        "[[\"sweep\",0],[\"enqueue\",\"x := 1;\",{},0,0],[]]",
        "refused: step 1: assigns unknown at 0\n",
    ),
    // The values of a step come before its source.
    (
        "[[\"enqueue\",\"x := 1;\",[],0,0]]",
        "refused: step 0 is bad\n",
    ),
    (
        "[[\"enqueue\",\"return 1;\",{},0,0],[\"enqueue\",\"return '\",{},0,0]]",
        "refused: step 1: unclosed at 7\n",
    ),
];

/// A job that is swept once and then done, with five calls of the keeper.
const SWEPT: &str =
    "[[\"enqueue\",\"return 1;\",{},0,0],[\"take\",0,\"hog\",0],[\"work\",0,1000],[\"sweep\",30000],[\"take\",1,\"hog\",30000],[\"flush\",0],[\"beat\",0,30000],[\"work\",1,1000],[\"flush\",1]]";

/// Each step that appends, made twice.
const TWICE: &str =
    "[[\"enqueue\",\"let r := fetch('https://h/'); return r.status;\",{},0,0],[\"enqueue\",\"let r := fetch('https://h/'); return r.status;\",{},0,0],[\"take\",0,\"hog\",0],[\"take\",0,\"hog\",0],[\"beat\",0,1],[\"beat\",0,1],[\"work\",0,1000],[\"flush\",0],[\"flush\",0],[\"take\",0,\"fetch\",1],[\"take\",0,\"fetch\",1],[\"back\",0,1],[\"back\",0,1],[\"take\",0,\"fetch\",1],[\"take\",0,\"fetch\",1],[\"answer\",0,200,null],[\"flush\",0],[\"flush\",0]]";

/// Scripts, the calls of the keeper that fail, counted from 1, and what `replay` writes.
const KEPT: [(&str, &[u32], &str); 8] = [
    (
        SWEPT,
        &[],
        "enqueue 0\ntake 0 00000000-0000-0000-0000-000000000001\nwork ended 3\nsweep 0\ntake 0 00000000-0000-0000-0000-000000000002\nflush wrong lock 00000000-0000-0000-0000-000000000002\nbeat wrong lock 00000000-0000-0000-0000-000000000002\nwork ended 3\nflush ok\njob 0 completed\nresult \"1\"\nentries queued 1 taken 2 beat 0 ran 1 replied 0 swept 1\n",
    ),
    (
        SWEPT,
        &[1],
        "enqueue keeper\ntake none\nwork idle\nsweep none\ntake none\nflush idle\nbeat idle\nwork idle\nflush idle\nentries queued 0 taken 0 beat 0 ran 0 replied 0 swept 0\n",
    ),
    (
        SWEPT,
        &[2],
        "enqueue 0\ntake keeper\nwork idle\nsweep none\ntake 0 00000000-0000-0000-0000-000000000001\nflush idle\nbeat idle\nwork ended 3\nflush ok\njob 0 completed\nresult \"1\"\nentries queued 1 taken 1 beat 0 ran 1 replied 0 swept 0\n",
    ),
    (
        SWEPT,
        &[3],
        "enqueue 0\ntake 0 00000000-0000-0000-0000-000000000001\nwork ended 3\nsweep keeper\ntake none\nflush ok\nbeat idle\nwork idle\nflush idle\njob 0 completed\nresult \"1\"\nentries queued 1 taken 1 beat 0 ran 1 replied 0 swept 0\n",
    ),
    (
        SWEPT,
        &[4],
        "enqueue 0\ntake 0 00000000-0000-0000-0000-000000000001\nwork ended 3\nsweep 0\ntake keeper\nflush wrong lock none\nbeat wrong lock none\nwork idle\nflush idle\njob 0 available hog\nentries queued 1 taken 1 beat 0 ran 0 replied 0 swept 1\n",
    ),
    (
        SWEPT,
        &[5],
        "enqueue 0\ntake 0 00000000-0000-0000-0000-000000000001\nwork ended 3\nsweep 0\ntake 0 00000000-0000-0000-0000-000000000002\nflush wrong lock 00000000-0000-0000-0000-000000000002\nbeat wrong lock 00000000-0000-0000-0000-000000000002\nwork ended 3\nflush keeper\njob 0 running hog\nentries queued 1 taken 2 beat 0 ran 0 replied 0 swept 1\n",
    ),
    // A flush that the keeper refused changes nothing, and can be made again.
    (
        "[[\"enqueue\",\"return 1;\",{},0,0],[\"take\",0,\"hog\",0],[\"work\",0,1000],[\"flush\",0],[\"flush\",0]]",
        &[3],
        "enqueue 0\ntake 0 00000000-0000-0000-0000-000000000001\nwork ended 3\nflush keeper\nflush ok\njob 0 completed\nresult \"1\"\nentries queued 1 taken 1 beat 0 ran 1 replied 0 swept 0\n",
    ),
    (
        TWICE,
        &[1, 3, 5, 7, 9, 11, 13, 15],
        "enqueue keeper\nenqueue 0\ntake keeper\ntake 0 00000000-0000-0000-0000-000000000001\nbeat keeper\nbeat ok\nwork asks 3\nflush keeper\nflush ok\ntake keeper\ntake 0 00000000-0000-0000-0000-000000000002\nback keeper\nback ok\ntake keeper\ntake 0 00000000-0000-0000-0000-000000000003\nanswer 200\nflush keeper\nflush ok\njob 0 available hog\nrequest \"https://h/\" \"null\"\nentries queued 1 taken 3 beat 1 ran 1 replied 1 swept 0 back 1\n",
    ),
];

#[test]
fn scripts(rt: HostRuntime) -> Result<(), Fail> {
    for (status, rows) in [(0, PLAYED.as_slice()), (1, NO_SCRIPTS.as_slice())] {
        assert_eq!(rt; odd_one(rt.alloc(), "replay", status, rows)?, None);
    }
    Ok(())
}

#[test]
fn faults_of_keepers(rt: HostRuntime) -> Result<(), Fail> {
    for (script, failing_puts, lines) in KEPT {
        let bytes = Vec::from_slice(rt.alloc(), script.as_bytes())?;
        let (status, sink) = answer(rt.alloc(), &["replay"], bytes, 1000, failing_puts)?;
        assert_eq!(rt; status, 0);
        assert_eq!(rt; sink.bytes(), lines.as_bytes(), "of {failing_puts:?}");
    }
    Ok(())
}

/// A program that throws the status of its reply, catches it, and throws it anew.
const THROWN: &str =
    "[[\"enqueue\",\"fun f() { try { let r := fetch('https://h/'); throw r.status; } catch (e) { throw e + 1; } } try { f(); } catch (e) { return e; }\",{},0,0]";

/// A slice of one operation.
const ONE: &str = ",[\"take\",0,\"hog\",0],[\"work\",0,1],[\"flush\",0]";

const ANSWERED: &str = ",[\"take\",0,\"fetch\",0],[\"answer\",0,500,null],[\"flush\",0]";

/// A loop of 810,008 operations. A worker that began at the source each time would not come to its end.
const LONG: &str =
    "[[\"enqueue\",\"let t := 0; while (t < 90000) { t := t + 1; } return t;\",{},0,0]";

const SLICE: &str = ",[\"take\",0,\"hog\",0],[\"work\",0,200],[\"flush\",0]";

/// A hundred requests are the most.
const HUNDRED: &str =
    "[[\"enqueue\",\"let i := 0; while (i < 100) { fetch('https://h/'); i := i + 1; } return i;\",{},0,0]";

const MORE: &str =
    "[[\"enqueue\",\"let i := 0; while (i < 101) { fetch('https://h/'); i := i + 1; } return i;\",{},0,0]";

/// A slice, and the reply to its request.
const ROUND: &str =
    ",[\"take\",0,\"hog\",0],[\"work\",0,1000],[\"flush\",0],[\"take\",0,\"fetch\",0],[\"answer\",0,200,null],[\"flush\",0]";

const QUEUED: &str = "[[\"enqueue\",\"\",{},0,0]";

const ONE_MORE: &str = ",[\"enqueue\",\"\",{},0,0]";

/// A script of a first step, and then steps so many times.
fn composed(alloc: Global, first: &str, steps: &[(&str, u32)]) -> Result<String, Fail> {
    let mut script = String::from_str(alloc, first)?;
    for &(text, times) in steps {
        for _time in 0..times {
            script.push_str(text)?;
        }
    }
    script.push(']')?;
    Ok(script)
}

/// Whether what `replay` writes of a script of a first step, and then steps so many times, ends with these lines.
fn ends_with(alloc: Global, first: &str, steps: &[(&str, u32)], end: &str) -> Result<bool, Fail> {
    let words = given(alloc, &["replay"])?;
    let script = composed(alloc, first, steps)?;
    let bytes = Vec::from_slice(alloc, script.as_str().as_bytes())?;
    let mut source = MemSource::new(bytes, Vec::new(alloc));
    let mut sink = MemSink::new(alloc, 2_000_000, Vec::new(alloc))?;
    let status = top_still(alloc, &words, &mut source, &mut sink, NoKeeper).status;
    let start = sink.bytes().len().saturating_sub(end.len());
    Ok(status == 0 && &sink.bytes()[start..] == end.as_bytes())
}

#[test]
fn long_scripts(rt: HostRuntime) -> Result<(), Fail> {
    let alloc = rt.alloc();
    let rows: [(&str, &[(&str, u32)], &str); 3] = [
        // The machine is saved after each operation, and loaded before the next.
        (
            THROWN,
            &[(ONE, 8), (ANSWERED, 1), (ONE, 11)],
            "work ended 19\nflush ok\njob 0 completed\nrequest \"https://h/\" \"null\"\nresult \"501\"\nentries queued 1 taken 20 beat 0 ran 19 replied 1 swept 0\n",
        ),
        // The steps behind the end find nothing to take.
        (
            HUNDRED,
            &[(ROUND, 101)],
            "result \"100\"\nentries queued 1 taken 201 beat 0 ran 101 replied 100 swept 0\n",
        ),
        (
            MORE,
            &[(ROUND, 101)],
            "too many fetches\nentries queued 1 taken 201 beat 0 ran 101 replied 100 swept 0\n",
        ),
    ];
    for (first, steps, end) in rows {
        assert!(rt; ends_with(alloc, first, steps, end)?, "of {end}");
    }
    Ok(())
}

#[test]
fn a_long_loop_goes_on_by_slices(rt: HostRuntime) -> Result<(), Fail> {
    let end =
        "work ended 810008\nflush ok\njob 0 completed\nresult \"90000\"\nentries queued 1 taken 4051 beat 0 ran 4051 replied 0 swept 0\n";
    assert!(rt; ends_with(rt.alloc(), LONG, &[(SLICE, 4_051)], end)?);
    Ok(())
}

/// A queue has 16,384 jobs at most.
#[test]
fn most_jobs(rt: HostRuntime) -> Result<(), Fail> {
    let end =
        "job 16383 available hog\nentries queued 16384 taken 0 beat 0 ran 0 replied 0 swept 0\n";
    assert!(rt; ends_with(rt.alloc(), QUEUED, &[(ONE_MORE, 16_384)], end)?);
    Ok(())
}
