// Scripts that are run: the example of docs/REHEARSAL.md, and those that are told of at a line.
use rehearsal::{Stop, rehearse};
use std::alloc::Global;
use std::test::Fail;

const SCRIPT: &str = "left 10.0.0.1:1720 16777215 mask
right 10.0.0.2:1720 0 list
left enrol 0 0 10.0.0.2:1720 master
right enrol 5 0 10.0.0.1:1720 slave
left send 0 0 ack 0200010002abcd
right arrive 40 3
left arrive 80 4
";

const TRANSCRIPT: &str = "1 left enrol enrolled
2 right enrol enrolled
3 left send sent 16777215 01ffffff000200010002abcd
4 right arrive fresh payload 1 1 abcd reply 0 0000000000080000000402ffffff
5 left arrive fresh acknowledged 16777215
left sent 1 resent 0 handed 1 acknowledged 1 rejected 0 unanswered 0
right sent 0 resent 0 handed 0 acknowledged 0 rejected 0 unanswered 0
";

// The line at which a script that can be read is told of; 0 where there is a transcript.
fn fault(alloc: Global, script: &str) -> usize {
    match rehearse(alloc, script.as_bytes()) {
        Err(Stop::Refused(line, _)) => line,
        _ => 0,
    }
}

#[test]
fn the_example(rt: HostRuntime) -> Result<(), Fail> {
    match rehearse(rt.alloc(), SCRIPT.as_bytes()) {
        Ok(transcript) => assert_eq!(rt; transcript.as_str(), TRANSCRIPT),
        Err(_) => return Err("no transcript".into()),
    }
    Ok(())
}

// What is asked first is told first.
#[test]
fn faults_in_their_order(rt: HostRuntime) {
    let alloc = rt.alloc();
    let both = "left 1.2.3.4:5 16777216 mask\nright 1.2.3.4:5 16777216 mask\nleft arrive 0 1\n";
    assert_eq!(rt; fault(alloc, both), 1);
    let right = "left 1.2.3.4:5 0 mask\n# and\nright 1.2.3.4:5 18446744073709551615 mask\n";
    assert_eq!(rt; fault(alloc, right), 3);
    let same = "left 1.2.3.4:5 0 mask\nright 1.2.3.4:5 16777215 mask\nleft arrive 0 1\n";
    assert_eq!(rt; fault(alloc, same), 2);
    let itself =
        "left 1.2.3.4:5 0 mask\nright 1.2.3.4:6 0 mask\n\nleft tick 0 0\nleft arrive 0 2\n";
    assert_eq!(rt; fault(alloc, itself), 5);
    let others = "left 1.2.3.4:5 0 mask\nright 1.2.3.4:6 0 mask\nleft hear 0 1.2.3.4:6 -\n";
    assert_eq!(rt; fault(alloc, others), 3);
}
