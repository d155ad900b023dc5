//! Replays and demos beside those of another machine: `bench/replays` computes the rows of both tables anew.
use super::*;
use demo_text::demo_text;

/// Two threads store to one location; a fence lets the first read what the other stored.
const RF: &str =
    "X86 RF\n{ }\n P0 | P1 ;\n MOV [x],$1 | MOV [x],$2 ;\n MFENCE | MOV EBX,[x] ;\n MOV EAX,[x] | ;\nexists (0:EAX=2 /\\ 1:EBX=2 \\/ 1:EBX=1)\n";

/// A fence, an exchange, a constant and a location with two writers.
const MIX: &str =
    "X86 MIX\n{ }\n P0 | P1 | P2 ;\n MOV [x],$1 | MOV EAX,$2 | MOV EAX,[y] ;\n MFENCE | XCHG [y],EAX | MOV [x],$3 ;\n MOV EAX,[y] | MOV EBX,[z] | MOV [z],$1 ;\nexists (0:EAX=2 /\\ 1:EBX=0 \\/ 2:EAX=0 /\\ 1:EBX=1)\n";

/// A reader that sees one write and misses another.
const RWC: &str =
    "X86 RWC\n{ }\n P0         | P1          | P2          ;\n MOV [x],$1 | MOV EAX,[x] | MOV [y],$1  ;\n            | MOV EBX,[y] | MOV EAX,[x] ;\nexists (1:EAX=1 /\\ 1:EBX=0 /\\ 2:EAX=0)\n";

/// The words, the input, and the report: also with a generator that names whose turn it is, with a rate at which some
/// writes wait and some drain, and with a seed whose next one is 0.
const REPLAYS: [(&str, &str, &str); 6] = [
    (
        "replay 9 --rate 100 --count both --order 7",
        SB,
        "Test SB\nThreads 2\nIterations 9\nCondition exists 2\nFrames 81\nExhaustive 18\nHeuristic 6\nHit 2 0\nHit 4 5\nHit 5 5\nHit 6 5\nHit 7 6\nHit 8 8\nSeen yes\n",
    ),
    (
        "replay 6 --seed 18446744073709551615 --rate 128 --buffer 2 --count both --order 18446744073709551615",
        SB,
        "Test SB\nThreads 2\nIterations 6\nCondition exists 2\nFrames 36\nExhaustive 7\nHeuristic 3\nHit 0 0\nHit 1 1\nHit 2 5\nSeen yes\n",
    ),
    (
        "replay 12 --seed 3 --rate 100 --count both --order 11",
        RF,
        "Test RF\nThreads 2\nIterations 12\nCondition exists 3\nFrames 144\nExhaustive 8\nHeuristic 2\nHit 3 1\nHit 6 5\nSeen yes\n",
    ),
    (
        "replay 7 --seed 5 --rate 200 --buffer 1 --count both --order 0",
        MIX,
        "Test MIX\nThreads 3\nIterations 7\nCondition exists 4\nFrames 343\nExhaustive 64\nHeuristic 10\nHit 0 3 0\nHit 1 4 1\nHit 2 6 1\nHit 3 6 1\nHit 4 6 1\nHit 5 6 1\nHit 6 6 1\nHit 4 4 0\nHit 5 5 0\nHit 6 6 0\nSeen yes\n",
    ),
    (
        "replay 20 --count heuristic --order 5",
        RWC,
        "Test RWC\nThreads 3\nIterations 20\nCondition exists 3\nHeuristic 15\nHit 1 1 0\nHit 2 2 0\nHit 4 3 1\nHit 13 5 3\nHit 14 6 3\nHit 15 7 3\nHit 16 8 3\nHit 17 9 3\nHit 17 10 3\nHit 19 11 6\nHit 19 12 6\nHit 19 13 6\nHit 19 14 10\nHit 19 15 10\nHit 19 16 10\nSeen yes\n",
    ),
    (
        "replay 20 --count both",
        SB,
        "Test SB\nThreads 2\nIterations 20\nCondition exists 2\nFrames 400\nExhaustive 187\nHeuristic 18\nHit 2 1\nHit 3 2\nHit 4 3\nHit 5 4\nHit 6 4\nHit 7 4\nHit 8 4\nHit 9 4\nHit 10 5\nHit 11 6\nHit 12 6\nHit 13 6\nHit 14 7\nHit 15 8\nHit 16 9\nHit 17 10\nHit 18 11\nHit 19 12\nSeen yes\n",
    ),
];

/// The words of a demo, its number, the words of the replay that it stands for, how many hits that lists, and what the
/// demo writes: of two threads, of three and of four.
const DEMOS: [(&str, u64, &str, u32, &str); 4] = [
    (
        "demo 2",
        2,
        "replay 250 --seed 2 --count both --order 2",
        250,
        "Demo 2\nTest DEMO2\nThreads 3\nIterations 250\nCondition exists 3\nFrames 15625000\nExhaustive 4162\nHeuristic 250\nSeen yes\n",
    ),
    (
        "demo 6",
        6,
        "replay 60 --seed 6 --count both --order 6",
        2,
        "Demo 6\nTest DEMO6\nThreads 4\nIterations 60\nCondition exists 4\nFrames 12960000\nExhaustive 435\nHeuristic 2\nSeen yes\n",
    ),
    (
        "demo 7",
        7,
        "replay 60 --seed 7 --count both --order 7",
        0,
        "Demo 7\nTest DEMO7\nThreads 4\nIterations 60\nCondition exists 4\nFrames 12960000\nExhaustive 55\nHeuristic 0\nSeen yes\n",
    ),
    (
        "demo 15",
        15,
        "replay 4000 --seed 15 --count both --order 15",
        3998,
        "Demo 15\nTest DEMO15\nThreads 2\nIterations 4000\nCondition exists 2\nFrames 16000000\nExhaustive 61745\nHeuristic 3998\nSeen yes\n",
    ),
];

#[test]
fn replays_are_those_of_another_machine(rt: HostRuntime) -> Result<(), Fail> {
    let alloc = rt.alloc();
    for (line, text, report) in REPLAYS {
        let ran = call(&rt, alloc, line, text.as_bytes())?;
        assert_ended(&rt, &ran, line, 0, report.as_bytes(), "");
    }
    Ok(())
}

/// A report without its hits, and how many they are.
fn without_hits(alloc: Global, report: &[u8]) -> Result<(Vec<u8>, u32), Fail> {
    let text = str::from_utf8(report).ok().ok_or("a report is ASCII")?;
    let mut kept = Vec::new(alloc);
    let mut hits = 0u32;
    for line in text.split_inclusive('\n') {
        if line.starts_with("Hit ") {
            hits = hits.wrapping_add(1);
        } else {
            kept.extend_from_slice(line.as_bytes())?;
        }
    }
    Ok((kept, hits))
}

/// A demo gives the same bytes each time: its number, and what the replay that it stands for writes, without its hits.
#[test]
fn demos_are_replays(rt: HostRuntime) -> Result<(), Fail> {
    let alloc = rt.alloc();
    for (words, number, line, hits, report) in DEMOS {
        for _ in 0..2 {
            let demo = call(&rt, alloc, words, b"")?;
            assert_ended(&rt, &demo, words, 0, report.as_bytes(), "");
        }
        let replay = call(&rt, alloc, line, &demo_text(alloc, number)?)?;
        let (rest, listed) = without_hits(alloc, &replay.out)?;
        assert_eq!(rt; listed, hits, "hits at {line}");
        assert!(rt; report.as_bytes().ends_with(&rest), "report at {line}");
    }
    Ok(())
}
