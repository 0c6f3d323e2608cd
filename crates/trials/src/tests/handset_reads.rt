// The handset's call, with its answers in the order of its checks.
use handset::handset_read;

const WRITTEN: [u8; 9] = [1, 2, 0, 2, 1, 0, 0, 0, 0];

const FORCED: [u8; 9] = [1, 2, 0, 2, 1, 1, 0, 0, 0];

const FAR: [u8; 9] = [1, 2, 0, 0, 0, 0, 0, 0, 0];

#[test]
fn handset_reads_a_message(rt: HostRuntime) {
    let mut message = [7; 5];
    assert_eq!(rt; handset_read(0, 1, 3, &WRITTEN, &mut message), 0);
    assert_eq!(rt; message, [1, 0, 0, 0, 0]);
    let mut again = [7; 5];
    assert_eq!(rt; handset_read(0, 1, 3, &FORCED, &mut again), 1);
    assert_eq!(rt; again, [1, 0, 0, 0, 0]);
    let mut bare = [7; 3];
    assert_eq!(rt; handset_read(1, 0, 4, &[3, 2, 1, 0], &mut bare), 0);
    assert_eq!(rt; bare, [1, 2, 3]);
}

#[test]
fn handset_is_refused(rt: HostRuntime) {
    let mut short = [7; 4];
    assert_eq!(rt; handset_read(2, 0, 3, &[9], &mut short), 124);
    assert_eq!(rt; handset_read(1, 1, 4, &WRITTEN, &mut short), 124);
    assert_eq!(rt; handset_read(0, 0, 3, &[9], &mut short), 103);
    assert_eq!(rt; handset_read(0, 0, 3, &[9; 257], &mut short), 103);
    assert_eq!(rt; handset_read(0, 1, 3, &[3; 9], &mut short), 114);
    assert_eq!(rt; handset_read(0, 1, 3, &FAR, &mut short), 107);
    assert_eq!(rt; short, [7; 4]);
    let mut message = [7; 5];
    assert_eq!(rt; handset_read(0, 1, 3, &FAR, &mut message), 111);
    assert_eq!(rt; message, [7; 5]);
}
