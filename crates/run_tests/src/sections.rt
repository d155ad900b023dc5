//! Worked sections.
ghost use Rattle.std.specs.Prelude.{◌<◌, ◌^◌, length};

use load_log::Logs;
use run_judge::{RunEvent, RunKind};
use run_text::{SectionError, events, execution_events, find_section, read_logs};
use std::alloc::Global;
use std::test::Fail;

/// The lines of six events of store buffering, with blanks and a line without words.
const SIX: &[u8] =
    b"X86 SB\n%events 1\nP0 0 0 push\n\tP0 0  1 read 0\r\n \nP0 0 0 drain\nP1 0 0 push\nP1 000 1 read 1\nP1 0 0 drain";

fn event(thread: u32, place: u32, kind: RunKind) -> RunEvent {
    RunEvent {
        thread,
        iteration: 0,
        place,
        kind,
    }
}

/// The events of a text's section, or the line that is refused, or 0 where there is no section.
fn told(alloc: Global, text: &[u8]) -> Result<Result<Vec<RunEvent>, u32>, Fail>
    requires { length text.now < 2 ^ 31 }
{
    let Some(section) = find_section(b"%events", text) else {
        return Ok(Err(0));
    };
    match events(alloc, &section) {
        Ok(events) => Ok(Ok(events)),
        Err(SectionError::Bad { line }) => Ok(Err(line)),
        Err(SectionError::Memory) => Err("out of memory".into()),
    }
}

/// The events of a text's section of an execution, or the line that is refused, or 0 where there is no section.
fn told_of_execution(alloc: Global, text: &[u8]) -> Result<Result<Vec<RunEvent>, u32>, Fail>
    requires { length text.now < 2 ^ 31 }
{
    let Some(section) = find_section(b"%execution", text) else {
        return Ok(Err(0));
    };
    match execution_events(alloc, &section) {
        Ok(events) => Ok(Ok(events)),
        Err(SectionError::Bad { line }) => Ok(Err(line)),
        Err(SectionError::Memory) => Err("out of memory".into()),
    }
}

/// The line at which the logs of a text are refused, or 0 where there are as many as columns.
fn refused(alloc: Global, text: &[u8]) -> Result<u32, Fail>
    requires { length text.now < 2 ^ 31 }
{
    let Some(section) = find_section(b"%logs", text) else {
        return Err("there is a section".into());
    };
    match read_logs(alloc, &[1, 2], &section) {
        Ok(_) => Ok(0),
        Err(SectionError::Bad { line }) => Ok(line),
        Err(SectionError::Memory) => Err("out of memory".into()),
    }
}

/// What a thread logged, if it did.
fn value(logs: &Logs, t: usize, n: u32, column: usize) -> Option<u64>
    requires { n < 10 }
{
    if t >= logs.len() {
        return None;
    }
    let log = logs.at(t);
    let columns = log.columns();
    if columns <= 2 && column < columns && n as usize * columns + column < log.len() {
        Some(log.get(n, column))
    } else {
        None
    }
}

#[test]
fn six_events(rt: HostRuntime) -> Result<(), Fail> {
    let alloc = rt.alloc();
    let Ok(events) = told(alloc, SIX)? else {
        return Err("each line tells one".into());
    };
    assert_eq!(rt; events.len(), 6);
    assert!(rt; events[0] == event(0, 0, RunKind::Push));
    assert!(rt; events[1] == event(0, 1, RunKind::Read { value: 0 }));
    assert!(rt; events[2] == event(0, 0, RunKind::Drain));
    assert!(rt; events[4] == event(1, 1, RunKind::Read { value: 1 }));
    Ok(())
}

#[test]
fn lines_without_the_form_of_an_event(rt: HostRuntime) -> Result<(), Fail> {
    let alloc = rt.alloc();
    let table: [(&[u8], u32); 11] = [
        (b"%events 1\nP0 0 0 pull", 2),
        (
            b"%events 1\nP0 0 0 fence\nP0 0 1 fence\n\nP00 0 2 fence\nP0 0 3 fence\nP0 0 4 fence\nP0 0 5 fences",
            8,
        ),
        (b"\n%events 1\n\n\nP0 0 0 push 1", 5),
        (b"%events 1\nP0 0 0 read\n", 2),
        (
            b"%events 1\nP0 0 0 fence\nP0 0 0 exchange 18446744073709551616\n",
            3,
        ),
        (
            b"%events 1\nP0 0 0 exchange 00000000000000000001\nP0 0 0 exchange 000000000000000000001",
            3,
        ),
        (b"%events 1\nP4294967295 0 0 push\nP4294967296 0 0 push", 3),
        (b"%events 1\np0 0 0 push", 2),
        (b"%events 1\nP0 0 push", 2),
        (b"%events 1\n%events 1", 2),
        (
            b"%events 0\n%events 100001\n%events 1 1\n %events 1x\n%event 1\n",
            0,
        ),
    ];
    for (text, line) in table {
        let Err(refused) = told(alloc, text)? else {
            return Err("a line has not the form".into());
        };
        assert_eq!(rt; refused, line);
    }
    Ok(())
}

#[test]
fn events_of_an_execution(rt: HostRuntime) -> Result<(), Fail> {
    let alloc = rt.alloc();
    let text =
        b"X86 SB\n%execution 2\n %execution 01\nP0 0 push\n \nP0\t1 read 0\r\nP001 1 exchange 7\nP0 0 drain";
    let Ok(events) = told_of_execution(alloc, text)? else {
        return Err("each line tells one".into());
    };
    assert_eq!(rt; events.len(), 4);
    assert!(rt; events[0] == event(0, 0, RunKind::Push));
    assert!(rt; events[1] == event(0, 1, RunKind::Read { value: 0 }));
    assert!(rt; events[2] == event(1, 1, RunKind::Exchange { value: 7 }));
    assert!(rt; events[3] == event(0, 0, RunKind::Drain));
    Ok(())
}

#[test]
fn lines_without_the_form_of_an_execution(rt: HostRuntime) -> Result<(), Fail> {
    let alloc = rt.alloc();
    let table: [(&[u8], u32); 5] = [
        (b"%execution 1\nP0 0 0 push", 2),
        (b"%execution 1\nP0 0 pull", 2),
        (b"\n%execution 1\nP0 0 fence\n\nP0 fence", 5),
        (b"%execution 1\n%execution 1", 2),
        (
            b"%execution 2\n%execution 0\n%execution\n%execution 1 1\n%executions 1\n%events 1\n",
            0,
        ),
    ];
    for (text, line) in table {
        let Err(refused) = told_of_execution(alloc, text)? else {
            return Err("a line has not the form".into());
        };
        assert_eq!(rt; refused, line);
    }
    Ok(())
}

#[test]
fn what_a_section_line_parts(rt: HostRuntime) -> Result<(), Fail> {
    let Some(section) = find_section(
        b"%logs",
        b"a\nb %logs 2\n%events 3\n %logs\t00002 \r\nP0\n%logs 1\n",
    ) else {
        return Err("there is a section".into());
    };
    assert_eq!(rt; section.iterations, 2);
    assert_eq!(rt; section.line, 5);
    assert!(rt; section.litmus == b"a\nb %logs 2\n%events 3\n".as_slice());
    assert!(rt; section.lines == b"P0\n%logs 1\n".as_slice());
    assert!(rt; find_section(b"%logs", b"").is_none());
    Ok(())
}

#[test]
fn logs_of_two_threads(rt: HostRuntime) -> Result<(), Fail> {
    let alloc = rt.alloc();
    let Some(section) = find_section(b"%logs", b"%logs 2\nP0 1 2\n\nP1 3 4 5 6") else {
        return Err("there is a section".into());
    };
    let Ok(logs) = read_logs(alloc, &[1, 2], &section) else {
        return Err("each line is a log".into());
    };
    assert_eq!(rt; logs.len(), 2);
    assert!(rt; value(&logs, 0, 1, 0) == Some(2));
    assert!(rt; value(&logs, 1, 0, 1) == Some(4));
    assert!(rt; value(&logs, 1, 1, 0) == Some(5));
    assert!(rt; value(&logs, 1, 2, 0) == None);
    Ok(())
}

#[test]
fn lines_without_the_form_of_a_log(rt: HostRuntime) -> Result<(), Fail> {
    let alloc = rt.alloc();
    let table: [(&[u8], u32); 11] = [
        (b"%logs 2\nP0 1 2\nP1 1 2 3 4\n \n", 0),
        (b"%logs 1\nP00 0\nP1 1 1", 2),
        (b"%logs 1\nP0 0\nP01 1 1", 3),
        (b"%logs 2\nP0 1 2\nP1 1 2 3\n", 3),
        (b"%logs 2\nP0 1 2 3\nP1 1 2 3 4\n", 2),
        (b"%logs 2\nP1 1 2 3 4\nP0 1 2\n", 2),
        (b"%logs 2\nP0 1 x\n", 2),
        (b"%logs 2\nP0 1 2\nP1 1 2 3 4\n\nP2\n", 5),
        (b"%logs 2\nP0 1 2\n\n\n", 4),
        (b"%logs 2\nP0 1 2", 2),
        (b"\n%logs 2\n", 2),
    ];
    for (text, line) in table {
        assert_eq!(rt; refused(alloc, text)?, line);
    }
    Ok(())
}
