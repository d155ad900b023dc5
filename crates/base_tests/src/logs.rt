//! One log by rows and by columns, and the logs of two threads.
use load_log::{Log, Logs};
use std::test::Fail;

#[test]
fn rows_of_two_columns(rt: HostRuntime) -> Result<(), Fail> {
    let mut log = Log::reserve(rt.alloc(), 2, 2)?;
    log.put(5);
    log.put(6);
    log.put(7);
    log.put(8);
    assert_eq!(rt; log.columns(), 2);
    assert_eq!(rt; log.len(), 4);
    assert_eq!(rt; log.get(0, 1), 6);
    assert_eq!(rt; log.get(1, 0), 7);
    assert_eq!(rt; log.column(0), [5, 7].as_slice());
    assert_eq!(rt; log.column(1), [6, 8].as_slice());
    Ok(())
}

#[test]
fn row_that_is_half_filled(rt: HostRuntime) -> Result<(), Fail> {
    let mut log = Log::reserve(rt.alloc(), 2, 3)?;
    log.put(5);
    log.put(6);
    log.put(7);
    assert_eq!(rt; log.len(), 3);
    assert_eq!(rt; log.get(0, 0), 5);
    assert_eq!(rt; log.get(0, 1), 6);
    assert_eq!(rt; log.get(1, 0), 7);
    assert_eq!(rt; log.column(0).len(), 3);
    assert_eq!(rt; log.column(0)[0], 5);
    assert_eq!(rt; log.column(0)[1], 7);
    assert_eq!(rt; log.column(1).len(), 3);
    assert_eq!(rt; log.column(1)[0], 6);
    Ok(())
}

#[test]
fn full_log_of_three_columns(rt: HostRuntime) -> Result<(), Fail> {
    let mut log = Log::reserve(rt.alloc(), 3, 2)?;
    log.put(10);
    log.put(11);
    log.put(12);
    log.put(20);
    log.put(21);
    log.put(22);
    assert_eq!(rt; log.len(), 6);
    assert_eq!(rt; log.get(0, 0), 10);
    assert_eq!(rt; log.get(1, 2), 22);
    assert_eq!(rt; log.column(0), [10, 20].as_slice());
    assert_eq!(rt; log.column(1), [11, 21].as_slice());
    assert_eq!(rt; log.column(2), [12, 22].as_slice());
    Ok(())
}

#[test]
fn columns_that_rise_and_fall(rt: HostRuntime) -> Result<(), Fail> {
    let mut log = Log::reserve(rt.alloc(), 3, 3)?;
    log.put(1);
    log.put(5);
    log.put(7);
    log.put(1);
    log.put(4);
    log.put(7);
    log.put(2);
    log.put(6);
    log.put(9);
    assert!(rt; log.rises(0));
    assert!(rt; !log.rises(1));
    assert!(rt; log.rises(2));
    Ok(())
}

#[test]
fn logs_of_two_threads(rt: HostRuntime) -> Result<(), Fail> {
    let mut first = Log::reserve(rt.alloc(), 1, 1)?;
    first.put(3);
    let second = Log::reserve(rt.alloc(), 0, 1)?;
    let mut logs = Logs::reserve(rt.alloc(), 2)?;
    logs.add(first);
    logs.add(second);
    assert_eq!(rt; logs.len(), 2);
    assert_eq!(rt; logs.at(0).get(0, 0), 3);
    assert_eq!(rt; logs.at(1).len(), 0);
    Ok(())
}
