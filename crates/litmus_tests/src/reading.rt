//! Texts that are tests, and texts that are refused, each for its kind and at its line.
use litmus_reader::{LitmusError, LitmusKind, read_litmus};
use std::alloc::{AllocError, Global};
use std::test::Fail;
use worked_texts::{IRIW, LB, MP, OWN, WRF};
use x86_subset::Shape;

const SB_EXISTS: &str = "exists (0:EAX=0 /\\ 1:EAX=0)";

const SB: [&str; 6] = [
    "X86 SB",
    "{ x=0; y=0; }",
    " P0 | P1 ;",
    " MOV [x],$1 | MOV [y],$1 ;",
    " MOV EAX,[y] | MOV EAX,[x] ;",
    SB_EXISTS,
];

const ONE: &str = "X86 ONE\n{ }\n P0 ;\n MOV [x],$1 ;\n MOV EAX,[x] ;\nexists (0:EAX=1)\n";

const SBF: &str =
    "X86 SBF\n{ }\n P0 | P1 ;\n MOV [x],$1 | MOV [y],$1 ;\n MFENCE | MFENCE ;\n MOV EAX,[y] | MOV EAX,[x] ;\n~exists (0:EAX=0 /\\ 1:EAX=0)\n";

const SBX: &str =
    "X86 SBX\n{ }\n P0 | P1 ;\n MOV EAX,$1 | mov eax,1 ;\n XCHG [x],EAX | xchg eax,[y] ;\n MOV EBX,[y] | MOV EBX,[x] ;\nexists (0:EBX=0 /\\ 1:EBX=0)\n";

const BUF: &str =
    "X86 BUF\n{ }\n P0 ;\n MOV [x],$1 ;\n MOV [y],$1 ;\n MOV EAX,[x] ;\nexists (0:EAX=1)\n";

const DIY: &str =
    "X86 SB\n\"Fre PodWR Fre PodWR\"\nPrefetch=0:x=F,0:y=T,1:y=F,1:x=T\nCom=Fr Fr\nOrig=Fre PodWR Fre PodWR\n{\n}\n P0          | P1          ;\n MOV [x],$1  | MOV [y],$1  ;\n             |             ;\n MOV EAX,[y] | MOV EAX,[x] ;\nlocations [x; y;]\nexists (0:EAX=0 /\\ 1:EAX=0)\n";

const NINE_THREADS: &str =
    "X86 MANY\n{ }\n P0 | P1 | P2 | P3 | P4 | P5 | P6 | P7 | P8 ;\nexists (0:EAX=0)\n";

const LOCATIONS: &str =
    "X86 MANY\n{ }\n P0 ;\n MOV EAX,[a] ;\n MOV EAX,[b] ;\n MOV EAX,[c] ;\n MOV EAX,[d] ;\n MOV EAX,[e] ;\n MOV EAX,[f] ;\n MOV EAX,[g] ;\n MOV EAX,[h] ;\n MOV EAX,[i] ;\n MOV EAX,[j] ;\n MOV EAX,[k] ;\n MOV EAX,[l] ;\n MOV EAX,[m] ;\n MOV EAX,[n] ;\n MOV EAX,[o] ;\n MOV EAX,[p] ;\n MOV EAX,[q] ;\nexists (0:EAX=0)\n";

const ACTIONS: &str =
    "X86 MANY\n{ }\n P0 ;\n MFENCE ;\n MFENCE ;\n MFENCE ;\n MFENCE ;\n MFENCE ;\n MFENCE ;\n MFENCE ;\n MFENCE ;\n MFENCE ;\n MFENCE ;\n MFENCE ;\n MFENCE ;\n MFENCE ;\n MFENCE ;\n MFENCE ;\n MFENCE ;\n MFENCE ;\nexists (0:EAX=0)\n";

const ATOMS: &str =
    "exists 0:EAX=0 /\\ 0:EAX=0 /\\ 0:EAX=0 /\\ 0:EAX=0 /\\ 0:EAX=0 /\\ 0:EAX=0 /\\ 0:EAX=0 /\\ 0:EAX=0 /\\ 0:EAX=0 /\\ 0:EAX=0 /\\ 0:EAX=0 /\\ 0:EAX=0 /\\ 0:EAX=0 /\\ 0:EAX=0 /\\ 0:EAX=0 /\\ 0:EAX=0 /\\ 0:EAX=0 /\\ 0:EAX=0 /\\ 0:EAX=0 /\\ 0:EAX=0 /\\ 0:EAX=0 /\\ 0:EAX=0 /\\ 0:EAX=0 /\\ 0:EAX=0 /\\ 0:EAX=0 /\\ 0:EAX=0 /\\ 0:EAX=0 /\\ 0:EAX=0 /\\ 0:EAX=0 /\\ 0:EAX=0 /\\ 0:EAX=0 /\\ 0:EAX=0 /\\ 0:EAX=0";

const EIGHT: &str =
    "exists 0:EAX=0 \\/ 0:EAX=0 \\/ 0:EAX=0 \\/ 0:EAX=0 \\/ 0:EAX=0 \\/ 0:EAX=0 \\/ 0:EAX=0 \\/ 0:EAX=0";

const NINE: &str =
    "exists 0:EAX=0 \\/ 0:EAX=0 \\/ 0:EAX=0 \\/ 0:EAX=0 \\/ 0:EAX=0 \\/ 0:EAX=0 \\/ 0:EAX=0 \\/ 0:EAX=0 \\/ 0:EAX=0";

const SIXTEEN_DEEP: &str = "exists ((((((((((((((((0:EAX=0))))))))))))))))";

const SEVENTEEN_DEEP: &str = "exists (((((((((((((((((0:EAX=0)))))))))))))))))";

/// How many threads, locations, atoms and conjunctions there are.
type Sizes = [usize; 4];

const SB_SIZES: Sizes = [2, 2, 2, 1];

/// Texts that read as tests. A text stands whole where the number is 0; else it is that line of SB, or a seventh one.
const ACCEPTED: [(usize, &str, Sizes); 23] = [
    (6, SB_EXISTS, SB_SIZES),
    (0, OWN, SB_SIZES),
    (0, ONE, [1, 1, 1, 1]),
    (0, MP, SB_SIZES),
    (0, LB, SB_SIZES),
    (0, IRIW, [4, 2, 4, 1]),
    (0, SBF, SB_SIZES),
    (0, SBX, SB_SIZES),
    (0, BUF, [1, 2, 1, 1]),
    (0, WRF, [2, 1, 1, 1]),
    (0, DIY, SB_SIZES),
    (2, "{ int x=0; [y]=0; 0:EAX=0; }", SB_SIZES),
    (2, "{ int z; z=$0; x=0; }", SB_SIZES),
    (4, "mov [x],1 | Mov [y],$1 ;", SB_SIZES),
    (6, "exists 0:EAX=0 /\\ (1:eax=0)", SB_SIZES),
    (7, "(* end *)", SB_SIZES),
    (6, SIXTEEN_DEEP, [2, 2, 1, 1]),
    (6, "exists (0:EAX=0 \\/ 1:EAX=0)", [2, 2, 2, 2]),
    (6, "exists (0:EAX=1 \\/ 1:EAX=1)", [2, 2, 2, 2]),
    (6, "exists (0:EAX=0 /\\ 1:EAX=0 \\/ 0:EAX=1)", [2, 2, 3, 2]),
    (
        6,
        "exists (0:EAX=0 /\\ 1:EAX=0) \\/ (1:EAX=0 /\\ 0:EAX=0)",
        [2, 2, 4, 2],
    ),
    (6, EIGHT, [2, 2, 8, 8]),
    (
        6,
        "exists ((0:EAX=0 \\/ 1:EAX=0) \\/ 0:EAX=1)",
        [2, 2, 3, 3],
    ),
];

/// Texts that are refused, each with its kind and line.
const REFUSED: [(usize, &str, LitmusKind, u32); 22] = [
    (1, "X86_64 SB", LitmusKind::NotX86, 1),
    (1, "X86", LitmusKind::Header, 1),
    (2, "nothing here", LitmusKind::Header, 2),
    (2, "(*\n*) here", LitmusKind::Header, 3),
    (2, "{ x:0; }", LitmusKind::Initial, 2),
    (2, "{ int x=0; [y]=1; }", LitmusKind::NonZeroInitial, 2),
    (3, "P0 | P2 ;", LitmusKind::Column, 3),
    (4, "MOV [x],$1 ;", LitmusKind::Column, 4),
    (4, "INC [x] | MOV [y],$1 ;", LitmusKind::Instruction, 4),
    (
        4,
        "MOV [x],$4294967296 | MOV [y],$1 ;",
        LitmusKind::Instruction,
        4,
    ),
    (
        5,
        "MOV EAX,[y] | MOV EAX,[x] ; MOV [x],EAX | ;",
        LitmusKind::NotConstant,
        5,
    ),
    (6, "exists (0:EAX=0 /\\ ", LitmusKind::Condition, 6),
    (6, "forall (0:EAX=0)", LitmusKind::Forall, 6),
    (6, "exists (x=1)", LitmusKind::MemoryCondition, 6),
    (6, "Exists (0:EAX=0)", LitmusKind::Column, 6),
    (6, SEVENTEEN_DEEP, LitmusKind::Condition, 6),
    (
        6,
        "exists (0:EAX=0 /\\ (0:EAX=0 \\/ 1:EAX=0))",
        LitmusKind::Disjunction,
        6,
    ),
    (
        6,
        "exists ((0:EAX=0 \\/ 1:EAX=0) /\\ 0:EAX=0)",
        LitmusKind::Disjunction,
        6,
    ),
    (6, NINE, LitmusKind::Disjunction, 6),
    (7, "extra", LitmusKind::Trailing, 7),
    (0, "", LitmusKind::NotX86, 1),
    (
        0,
        "X86 SB\n{ }\nP0 | P1 ;\nMOV [x],$1 | MOV",
        LitmusKind::Column,
        4,
    ),
];

/// Texts that have the form, and pass a limit.
const TOO_MUCH: [(usize, &str, Shape); 4] = [
    (0, NINE_THREADS, Shape::Threads),
    (0, LOCATIONS, Shape::Locations),
    (0, ACTIONS, Shape::Instrs),
    (6, ATOMS, Shape::Atoms),
];

/// What the first bytes of SB are refused for, up to and with this many. From 115 on they are accepted.
const PREFIXES: [(usize, LitmusKind, u32); 14] = [
    (2, LitmusKind::NotX86, 1),
    (7, LitmusKind::Header, 1),
    (19, LitmusKind::Initial, 2),
    (21, LitmusKind::Column, 2),
    (30, LitmusKind::Column, 3),
    (32, LitmusKind::Condition, 3),
    (33, LitmusKind::Condition, 4),
    (57, LitmusKind::Column, 4),
    (59, LitmusKind::Condition, 4),
    (60, LitmusKind::Condition, 5),
    (86, LitmusKind::Column, 5),
    (88, LitmusKind::Condition, 5),
    (93, LitmusKind::Column, 6),
    (114, LitmusKind::Condition, 6),
];

/// The text itself, or SB with this line replaced or added.
fn text_of(alloc: Global, line: usize, new: &str) -> Result<String, AllocError> {
    let mut text = String::new(alloc);
    if line == 0 {
        text.push_str(new)?;
        return Ok(text);
    }
    for (i, old) in SB.iter().enumerate() {
        text.push_str(if i + 1 == line { new } else { old })?;
        text.push_str("\n")?;
    }
    if line == 7 {
        text.push_str(new)?;
        text.push_str("\n")?;
    }
    Ok(text)
}

/// What the bytes are read as.
fn told(alloc: Global, bytes: &[u8]) -> Result<Sizes, LitmusError> {
    if bytes.len() > 65536 {
        return Err(LitmusError::Memory);
    }
    let test = read_litmus(alloc, bytes)?;
    Ok([
        test.threads(),
        test.locations().len(),
        test.atoms().len(),
        test.conjunctions(),
    ])
}

/// What the first `len` bytes of SB are read as.
fn told_of_prefix(len: usize) -> Result<Sizes, LitmusError> {
    for (last, kind, line) in PREFIXES {
        if len <= last {
            return Err(LitmusError::Bad { kind, line });
        }
    }
    Ok(SB_SIZES)
}

#[test]
fn texts_are_read_or_refused(rt: HostRuntime) -> Result<(), Fail> {
    let alloc = rt.alloc();
    for (line, new, sizes) in ACCEPTED {
        let text = text_of(alloc, line, new)?;
        assert_eq!(rt; told(alloc, text.as_bytes()), Ok(sizes), "at {text}");
    }
    for (place, new, kind, line) in REFUSED {
        let text = text_of(alloc, place, new)?;
        let want = Err(LitmusError::Bad { kind, line });
        assert_eq!(rt; told(alloc, text.as_bytes()), want, "at {text}");
    }
    for (line, new, limit) in TOO_MUCH {
        let text = text_of(alloc, line, new)?;
        assert_eq!(rt;
            told(alloc, text.as_bytes()),
            Err(LitmusError::Over(limit)),
            "at {text}"
        );
    }
    let sb = text_of(alloc, 6, SB_EXISTS)?;
    for len in 0..=sb.len() {
        let text = &sb.as_bytes()[..len];
        assert_eq!(rt; told(alloc, text), told_of_prefix(len), "at {len}");
    }
    Ok(())
}

/// SB and a comment that make 65,536 bytes; and as many comments as fit, none of which is closed.
#[test]
fn long_texts_are_read_in_one_go(rt: HostRuntime) -> Result<(), Fail> {
    let alloc = rt.alloc();
    let sb = text_of(alloc, 6, SB_EXISTS)?;
    let mut text = [b' '; 65536];
    for (place, byte) in text.iter_mut().zip(sb.as_bytes().iter()) {
        *place = *byte;
    }
    text[116] = b'(';
    text[117] = b'*';
    text[65533] = b'*';
    text[65534] = b')';
    text[65535] = b'\n';
    assert_eq!(rt; told(alloc, &text), Ok(SB_SIZES));
    for i in 0..32764 {
        text[2 * i + 8] = b'*';
        text[2 * i + 9] = b'(';
    }
    text[6] = b'\n';
    text[7] = b'{';
    let unclosed = LitmusError::Bad {
        kind: LitmusKind::Initial,
        line: 2,
    };
    assert_eq!(rt; told(alloc, &text), Err(unclosed));
    Ok(())
}
